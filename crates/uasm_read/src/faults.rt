//! Finds the first line that is refused.

ghost use Rattle.std.specs.Prelude.{◌≡◌, ◌<◌, ◌≤◌, ◌^◌, ◌-◌, ◌||◌, [], option_to_list, length, IfOk, OnOk, Some, None, option_map, if◌then◌else◌};
ghost use Rattle.std.specs.List.{flat_map, list_all};
ghost use Rattle.uasm_read.specs.Texts.{Name as NameBytes, has_name};
ghost use Rattle.uasm_read.specs.Faults as spec;
ghost use Rattle.uasm_read.specs.Modules.{names_in, is_instr_t};
ghost use Rattle.uasm_read.specs.Reading.{holds, names_by, items_among};

use crate::build::next_named;
use crate::error::{UasmCause, UasmRefused};
use crate::line::Line;
use crate::operand::Operand;
use cap_words::Name;
use std::alloc::{AllocError, Global};
use std::collections::HashSet;

/// Names that are looked for.
#[derive(Clone, Copy, Debug, PartialEq, Eq)]
pub enum Which {
    Labels,
    /// Labels and imports.
    Defined,
}

fn name_in(which: Which, line: &Line) -> Option<&[u8]>
    ensures { option_to_list (option_map (λ name. name.now) result) ≡ names_by which line.now }
{
    match line {
        Line::Label(name) => Some(name.bytes()),
        Line::Import(name) => match which {
            Which::Labels => None,
            Which::Defined => Some(name.bytes()),
        },
        _ => None,
    }
}

// Adds the name of a line to the names that stand before.
fn note<'a>(which: Which, names: &mut HashSet<&'a [u8]>, line: &'a Line) -> Result<(), AllocError>
    ensures { OnOk result ((name : NameBytes) → holds names.new name ≡ (has_name (names_by which line.now) name || holds names.old name)) }
{
    if let Some(name) = name_in(which, line) {
        names.insert(name)?;
    }
    Ok(())
}

fn names_of<'a>(
    alloc: Global,
    which: Which,
    lines: &'a [Line],
) -> Result<HashSet<&'a [u8]>, AllocError>
    ensures { IfOk result (λ names. (name : NameBytes) → holds names name ≡ has_name (flat_map (names_by which) lines.now) name) }
{
    let mut names = HashSet::new(alloc);
    let mut rest = lines;
    while let [line, more @ ..] = rest {
        note(which, &mut names, line)?;
        rest = more;
    }
    Ok(names)
}

fn may_be_item(line: &Line) -> bool
    ensures { result ≡ spec.may_be_item line.now }
{
    match line {
        Line::Instruction(_, _) => true,
        Line::Cell(_, _, _, _) => true,
        Line::Bad(_) => true,
        _ => false,
    }
}

fn follows_after(line: &Line, before: bool) -> bool
    ensures { result ≡ spec.follows_after line.now before }
{
    match line {
        Line::Blank => before,
        Line::Instruction(_, _) => true,
        _ => false,
    }
}

fn next_fault(follows_instruction: bool, name: &Option<Name>) -> Option<UasmCause>
    ensures { result ≡ spec.next_fault follows_instruction name.now }
{
    if !follows_instruction {
        return Some(UasmCause::BadLine);
    }
    match name {
        Some(_) => None,
        None => Some(UasmCause::BadOperand),
    }
}

fn fault_if(refused: bool, cause: UasmCause) -> Option<UasmCause>
    ensures { result ≡ spec.fault_if refused cause }
{
    if refused { Some(cause) } else { None }
}

fn fault_by(
    names: &HashSet<&[u8]>,
    follows_instruction: bool,
    item_follows: bool,
    line: &Line,
) -> Option<UasmCause>
    ensures { result ≡ spec.fault_by (holds names.now) follows_instruction item_follows line.now }
{
    match line {
        Line::Bad(cause) => Some(*cause),
        Line::Next(name) => next_fault(follows_instruction, name),
        Line::Label(name) => {
            if item_follows {
                fault_if(names.contains(name.bytes()), UasmCause::Twice)
            } else {
                Some(UasmCause::BadLine)
            }
        }
        Line::Import(name) => fault_if(names.contains(name.bytes()), UasmCause::Twice),
        _ => None,
    }
}

fn is_known(names: &HashSet<&[u8]>, operand: &Operand) -> bool
    ensures { result ≡ list_all (holds names.now) (names_in operand.now) }
{
    match operand {
        Operand::Label(name) => names.contains(name.bytes()),
        _ => true,
    }
}

fn are_known(names: &HashSet<&[u8]>, line: &Line) -> bool
    ensures { result ≡ list_all (holds names.now) (spec.used_by line.now) }
{
    match line {
        Line::Instruction(_, operand) => is_known(names, operand),
        Line::Next(Some(name)) => names.contains(name.bytes()),
        Line::Cell(t, x, y, z) => {
            is_known(names, t) && is_known(names, x) && is_known(names, y) && is_known(names, z)
        }
        _ => true,
    }
}

fn unknown_by(labels: &HashSet<&[u8]>, names: &HashSet<&[u8]>, line: &Line) -> Option<UasmCause>
    ensures { result ≡ spec.unknown_by (holds labels.now) (holds names.now) line.now }
{
    match line {
        Line::Export(name) => fault_if(!labels.contains(name.bytes()), UasmCause::Unknown),
        _ => fault_if(!are_known(names, line), UasmCause::Unknown),
    }
}

fn count_items(lines: &[Line]) -> usize
    ensures value { result ≡ items_among lines.now }
    ensures within { result ≤ length lines.now }
{
    let mut rest = lines;
    let mut count = 0;
    while let [line, more @ ..] = rest {
        if may_be_item(line) {
            count += 1;
        }
        rest = more;
    }
    count
}

// How many of so many items stand behind the line.
fn left_behind(line: &Line, left: usize) -> usize
    ensures { result ≡ left - (if spec.may_be_item line.now then 1 else 0) }
{
    if may_be_item(line) {
        left.saturating_sub(1)
    } else {
        left
    }
}

fn first_line_fault(alloc: Global, lines: &[Line]) -> Result<Option<UasmRefused>, AllocError>
    requires { length lines.now < 2 ^ 32 }
    ensures { IfOk result (λ refused. refused ≡ spec.first spec.line_fault [] lines.now) }
{
    let mut names = HashSet::new(alloc);
    let mut follows = false;
    let mut left = count_items(lines);
    let mut at: u32 = 0;
    let mut rest = lines;
    while let [line, more @ ..] = rest {
        at += 1;
        left = left_behind(line, left);
        if let Some(cause) = fault_by(&names, follows, left > 0, line) {
            return Ok(Some(UasmRefused { line: at, cause }));
        }
        note(Which::Defined, &mut names, line)?;
        follows = follows_after(line, follows);
        rest = more;
    }
    Ok(None)
}

fn first_unknown(alloc: Global, lines: &[Line]) -> Result<Option<UasmRefused>, AllocError>
    requires { length lines.now < 2 ^ 32 }
    ensures { IfOk result (λ refused. refused ≡ spec.first (spec.name_unknown lines.now) [] lines.now) }
{
    let labels = names_of(alloc, Which::Labels, lines)?;
    let names = names_of(alloc, Which::Defined, lines)?;
    let mut at: u32 = 0;
    let mut rest = lines;
    while let [line, more @ ..] = rest {
        at += 1;
        if let Some(cause) = unknown_by(&labels, &names, line) {
            return Ok(Some(UasmRefused { line: at, cause }));
        }
        rest = more;
    }
    Ok(None)
}

/// Whether the word is `#instr_t`.
pub fn is_instr_t(operand: &Operand) -> bool
    ensures { result ≡ is_instr_t operand.now }
{
    match operand {
        Operand::Const(k) => *k == 9,
        _ => false,
    }
}

#[tactic(auto, unfolding(crate::specs::Faults::instruction_follows))]
fn instruction_follows(lines: &[Line]) -> bool
    ensures { result ≡ spec.instruction_follows lines.now }
{
    let mut rest = lines;
    while let [line, more @ ..] = rest {
        match line {
            Line::Instruction(_, _) => return true,
            Line::Cell(t, _, _, _) => return is_instr_t(t),
            _ => rest = more,
        }
    }
    false
}

fn falls_by(line: &Line, after: &[Line]) -> Option<UasmCause>
    ensures { result ≡ spec.falls_by line.now after.now }
{
    match line {
        Line::Instruction(operation, _) => fault_if(
            operation.goes_on() && next_named(after).is_none() && !instruction_follows(after),
            UasmCause::FallsOff,
        ),
        _ => None,
    }
}

fn first_fall(lines: &[Line]) -> Option<UasmRefused>
    requires { length lines.now < 2 ^ 32 }
    ensures { result ≡ spec.first spec.falls_off [] lines.now }
{
    let mut at: u32 = 0;
    let mut rest = lines;
    while let [line, more @ ..] = rest {
        at += 1;
        if let Some(cause) = falls_by(line, more) {
            return Some(UasmRefused { line: at, cause });
        }
        rest = more;
    }
    None
}

/// The first line that is refused among fewer than 2 to the 32 lines.
#[tactic(auto, unfolding(crate::specs::Faults::refusal))]
pub fn refusal(alloc: Global, lines: &[Line]) -> Result<Option<UasmRefused>, AllocError>
    requires { length lines.now < 2 ^ 32 }
    ensures { IfOk result (λ refused. refused ≡ spec.refusal lines.now) }
{
    if let Some(refused) = first_line_fault(alloc, lines)? {
        return Ok(Some(refused));
    }
    if let Some(refused) = first_unknown(alloc, lines)? {
        return Ok(Some(refused));
    }
    Ok(first_fall(lines))
}
