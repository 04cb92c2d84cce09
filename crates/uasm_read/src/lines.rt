//! Reads single lines.

ghost use Rattle.std.specs.Prelude.{◌≡◌, IfOk, Ok, None, Some, MatchOption, [], ◌∷◌};
ghost use Rattle.uasm_read.specs.declared.line.Line.TheVariants as form;
ghost use Rattle.uasm_read.specs.Texts.{parts_of};
ghost use Rattle.uasm_read.specs.Operations as operations;
ghost use Rattle.uasm_read.specs.Lines as spec;

use crate::error::UasmCause;
use crate::line::Line;
use crate::operand::Operand;
use crate::operands::{operand_of, value_of};
use crate::operation::Operation;
use crate::texts::{are_ascii, is_name, name_of, next_part, without_comment};
use cap_words::Name;
use std::alloc::{AllocError, Global};

#[tactic(auto, unfolding(crate::specs::Lines::name_alone))]
fn name_alone(alloc: Global, text: &[u8]) -> Result<Option<Name>, AllocError>
    ensures { IfOk result (λ name. name ≡ spec.name_alone (parts_of text.now)) }
{
    let Some((part, rest)) = next_part(text) else {
        return Ok(None);
    };
    if next_part(rest).is_some() {
        return Ok(None);
    }
    name_of(alloc, part)
}

// The name that a label line begins with.
#[tactic(auto, unfolding(crate::specs::Lines::label_in))]
fn label_in(alloc: Global, part: &[u8]) -> Result<Option<Name>, AllocError>
    ensures { IfOk result (λ name. name ≡ spec.label_in part.now) }
{
    if let [name @ .., b':'] = part {
        name_of(alloc, name)
    } else {
        Ok(None)
    }
}

fn label_line(name: Name, text: &[u8]) -> Line
    ensures { result ≡ spec.label_line name (parts_of text.now) }
{
    if next_part(text).is_some() {
        return Line::Bad(UasmCause::BadLine);
    }
    Line::Label(name)
}

fn cell_of(t: Option<Operand>, x: Option<Operand>, y: Option<Operand>, z: Option<Operand>) -> Line
    ensures { result ≡ spec.cell_of t x y z }
{
    match (t, x, y, z) {
        (Some(t), Some(x), Some(y), Some(z)) => Line::Cell(t, x, y, z),
        _ => Line::Bad(UasmCause::BadOperand),
    }
}

// The first so many parts, if there are no more.
#[tactic(auto, unfolding(crate::specs::Lines::pair_line))]
fn pair_line(alloc: Global, text: &[u8]) -> Result<Line, AllocError>
    ensures { IfOk result (λ line. line ≡ spec.pair_line (parts_of text.now)) }
{
    let Some((x, rest)) = next_part(text) else {
        return Ok(Line::Bad(UasmCause::BadOperand));
    };
    let Some((y, rest)) = next_part(rest) else {
        return Ok(Line::Bad(UasmCause::BadOperand));
    };
    if next_part(rest).is_some() {
        return Ok(Line::Bad(UasmCause::BadOperand));
    }
    Ok(cell_of(
        Some(Operand::Const(10)),
        value_of(alloc, x)?,
        value_of(alloc, y)?,
        Some(Operand::Const(0)),
    ))
}

#[tactic(auto, unfolding(crate::specs::Lines::cell_line))]
fn cell_line(alloc: Global, text: &[u8]) -> Result<Line, AllocError>
    ensures { IfOk result (λ line. line ≡ spec.cell_line (parts_of text.now)) }
{
    let Some((t, rest)) = next_part(text) else {
        return Ok(Line::Bad(UasmCause::BadOperand));
    };
    let Some((x, rest)) = next_part(rest) else {
        return Ok(Line::Bad(UasmCause::BadOperand));
    };
    let Some((y, rest)) = next_part(rest) else {
        return Ok(Line::Bad(UasmCause::BadOperand));
    };
    let Some((z, rest)) = next_part(rest) else {
        return Ok(Line::Bad(UasmCause::BadOperand));
    };
    if next_part(rest).is_some() {
        return Ok(Line::Bad(UasmCause::BadOperand));
    }
    Ok(cell_of(
        value_of(alloc, t)?,
        value_of(alloc, x)?,
        value_of(alloc, y)?,
        value_of(alloc, z)?,
    ))
}

fn instruction_line(alloc: Global, name: &[u8], text: &[u8]) -> Result<Line, AllocError>
    ensures { IfOk result (λ line. line ≡ spec.instruction_line (operations.operation_of name.now) (parts_of text.now)) }
{
    let Some(operation) = Operation::of_name(name) else {
        return Ok(Line::Bad(UasmCause::NoOperation));
    };
    Ok(match operand_of(alloc, operation, text)? {
        Some(operand) => Line::Instruction(operation, operand),
        None => Line::Bad(UasmCause::BadOperand),
    })
}

#[tactic(auto, unfolding(crate::specs::Lines::item_line))]
fn item_line(alloc: Global, name: &[u8], text: &[u8]) -> Result<Line, AllocError>
    ensures { IfOk result (λ line. line ≡ spec.item_line name.now (parts_of text.now)) }
{
    if name == b"ref".as_slice() {
        return Ok(Line::Next(name_alone(alloc, text)?));
    }
    if name == b"pair_t".as_slice() {
        return pair_line(alloc, text);
    }
    if name == b"cell".as_slice() {
        return cell_line(alloc, text);
    }
    instruction_line(alloc, name, text)
}

fn import_line(alloc: Global, text: &[u8]) -> Result<Line, AllocError>
    ensures { IfOk result (λ line. line ≡ spec.directive form.Import (spec.name_alone (parts_of text.now))) }
{
    Ok(match name_alone(alloc, text)? {
        Some(name) => Line::Import(name),
        None => Line::Bad(UasmCause::BadLine),
    })
}

fn export_line(alloc: Global, text: &[u8]) -> Result<Line, AllocError>
    ensures { IfOk result (λ line. line ≡ spec.directive form.Export (spec.name_alone (parts_of text.now))) }
{
    Ok(match name_alone(alloc, text)? {
        Some(name) => Line::Export(name),
        None => Line::Bad(UasmCause::BadLine),
    })
}

#[tactic(auto, unfolding(crate::specs::Lines::line_in))]
fn line_in(alloc: Global, text: &[u8]) -> Result<Line, AllocError>
    ensures { IfOk result (λ line. line ≡ spec.line_in (parts_of text.now)) }
{
    let Some((part, rest)) = next_part(text) else {
        return Ok(Line::Blank);
    };
    if part == b".import".as_slice() {
        return import_line(alloc, rest);
    }
    if part == b".export".as_slice() {
        return export_line(alloc, rest);
    }
    if let Some(name) = label_in(alloc, part)? {
        return Ok(label_line(name, rest));
    }
    if is_name(part) {
        item_line(alloc, part, rest)
    } else {
        Ok(Line::Bad(UasmCause::BadLine))
    }
}

/// What a line says by itself.
#[tactic(auto, unfolding(crate::specs::Lines::line_of))]
pub fn line_of(alloc: Global, text: &[u8]) -> Result<Line, AllocError>
    ensures { IfOk result (λ line. line ≡ spec.line_of text.now) }
{
    if !are_ascii(text) {
        return Ok(Line::Bad(UasmCause::BadLine));
    }
    line_in(alloc, without_comment(text))
}
