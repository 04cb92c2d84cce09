//! Writes modules.

ghost use Rattle.std.specs.Prelude.{◌≡◌, ◌≤◌, ◌++◌, ◌∷◌, [], length, map, codes, IfOk, OnOk, Some, None, ◌-ℤ◌};
ghost use Rattle.std.specs.List.{flat_map, join_with_byte};
ghost use Rattle.uasm_read.specs.declared.line.Line.TheVariants as form;
ghost use Rattle.uasm_read.specs.Assembles.{Assembles, text_limit};
ghost use Rattle.uasm_read.specs.Operations.{row_of};
ghost use Rattle.uasm_read.specs.Reading.{shape_of, blanked, directive_line};
ghost use Rattle.uasm_read.specs.Writes as spec;

use crate::build::Directive;
use crate::item::Item;
use crate::module::Module;
use crate::operand::Operand;
use crate::operands::CONSTANTS;
use crate::operation::{Operation, Shape};
use crate::spells::{is_constant, spelled};
use crate::texts::part_at;
use cap_words::Name;
use itoa::Buffer;
use std::alloc::{AllocError, Global};

fn put_part(text: &mut Vec<u8>, part: &[u8]) -> Result<(), AllocError>
    ensures { OnOk result (text.new.items ≡ text.old.items ++ blanked (part.now ∷ [])) }
{
    text.push(b' ')?;
    text.extend_from_slice(part)
}

fn put_word(text: &mut Vec<u8>, word: &Operand) -> Result<(), AllocError>
    ensures { OnOk result (text.new.items ≡ text.old.items ++ blanked (spec.word_text word.now ∷ [])) }
{
    match word {
        Operand::Fix(n) => {
            let mut buffer = Buffer::new();
            put_part(text, buffer.format(*n).as_bytes())
        }
        Operand::Const(k) => put_part(text, part_at(CONSTANTS, *k as usize)),
        Operand::Label(name) => put_part(text, name.bytes()),
        Operand::Following => put_part(text, b""),
    }
}

// How far a number lies above another one.
fn natural(n: i32, first: i32) -> usize
    ensures { result ≡ spec.natural (n -ℤ first) }
{
    let above = n as i64 - first as i64;
    if above < 0 { 0 } else { above as usize }
}

fn put_operand(text: &mut Vec<u8>, shape: Shape, word: &Operand) -> Result<(), AllocError>
    ensures { OnOk result (text.new.items ≡ text.old.items ++ blanked (spec.operand_parts (shape_of shape) word.now)) }
{
    match (shape, word) {
        (Shape::Nothing, _) => Ok(()),
        (Shape::Choice(first, words), Operand::Fix(n)) => {
            put_part(text, part_at(words, natural(*n, first)))
        }
        _ => put_word(text, word),
    }
}

// A line of a word and a name.
fn put_named(text: &mut Vec<u8>, front: &[u8], name: &Name) -> Result<(), AllocError>
    ensures { OnOk result (text.new.items ≡ text.old.items ++ (join_with_byte 32 (front.now ∷ name.now ∷ []) ++ codes "\n")) }
{
    text.extend_from_slice(front)?;
    put_part(text, name.bytes())?;
    text.extend_from_slice(b"\n")
}

#[tactic(auto, unfolding(crate::specs::Writes::line_text))]
fn put_directive(text: &mut Vec<u8>, directive: Directive, name: &Name) -> Result<(), AllocError>
    ensures { OnOk result (text.new.items ≡ text.old.items ++ spec.ended (directive_line directive name.now)) }
{
    match directive {
        Directive::Imports => put_named(text, b".import", name),
        Directive::Exports => put_named(text, b".export", name),
    }
}

fn put_directives(
    text: &mut Vec<u8>,
    directive: Directive,
    names: &[Name],
) -> Result<(), AllocError>
    ensures { OnOk result (text.new.items ≡ text.old.items ++ flat_map spec.ended (map (directive_line directive) names.now)) }
{
    let mut rest = names;
    while let [name, more @ ..] = rest {
        put_directive(text, directive, name)?;
        rest = more;
    }
    Ok(())
}

#[tactic(auto, unfolding(crate::specs::Writes::line_text))]
fn put_label(text: &mut Vec<u8>, name: &Name) -> Result<(), AllocError>
    ensures { OnOk result (text.new.items ≡ text.old.items ++ spec.ended (form.Label name.now)) }
{
    text.extend_from_slice(name.bytes())?;
    text.extend_from_slice(b":")?;
    text.extend_from_slice(b"\n")
}

fn put_labels(text: &mut Vec<u8>, names: &[Name]) -> Result<(), AllocError>
    ensures { OnOk result (text.new.items ≡ text.old.items ++ flat_map spec.ended (map form.Label names.now)) }
{
    let mut rest = names;
    while let [name, more @ ..] = rest {
        put_label(text, name)?;
        rest = more;
    }
    Ok(())
}

#[tactic(auto, unfolding(crate::specs::Writes::line_text))]
fn put_instruction(
    text: &mut Vec<u8>,
    operation: Operation,
    word: &Operand,
) -> Result<(), AllocError>
    ensures { OnOk result (text.new.items ≡ text.old.items ++ spec.ended (form.Instruction operation word.now)) }
{
    text.extend_from_slice(operation.name())?;
    put_operand(text, operation.shape(), word)?;
    text.extend_from_slice(b"\n")
}

#[tactic(auto, unfolding(crate::specs::Writes::line_text))]
fn put_next(text: &mut Vec<u8>, next: &Operand) -> Result<(), AllocError>
    ensures { OnOk result (text.new.items ≡ text.old.items ++ flat_map spec.ended (spec.next_lines next.now)) }
{
    match next {
        Operand::Label(name) => put_named(text, b"ref", name),
        _ => Ok(()),
    }
}

fn put_pair(text: &mut Vec<u8>, x: &Operand, y: &Operand) -> Result<(), AllocError>
    ensures { OnOk result (text.new.items
        ≡ text.old.items ++ (join_with_byte 32 (codes "pair_t" ∷ spec.word_text x.now ∷ spec.word_text y.now ∷ []) ++ codes "\n")) }
{
    text.extend_from_slice(b"pair_t")?;
    put_word(text, x)?;
    put_word(text, y)?;
    text.extend_from_slice(b"\n")
}

fn put_four(
    text: &mut Vec<u8>,
    t: &Operand,
    x: &Operand,
    y: &Operand,
    z: &Operand,
) -> Result<(), AllocError>
    ensures { OnOk result (text.new.items
        ≡ text.old.items ++ (join_with_byte 32 (codes "cell" ∷ spec.word_text t.now ∷ spec.word_text x.now
        ∷ spec.word_text y.now ∷ spec.word_text z.now ∷ []) ++ codes "\n")) }
{
    text.extend_from_slice(b"cell")?;
    put_word(text, t)?;
    put_word(text, x)?;
    put_word(text, y)?;
    put_word(text, z)?;
    text.extend_from_slice(b"\n")
}

#[tactic(auto, unfolding(crate::specs::Writes::line_text))]
fn put_words(
    text: &mut Vec<u8>,
    t: &Operand,
    x: &Operand,
    y: &Operand,
    z: &Operand,
) -> Result<(), AllocError>
    ensures { OnOk result (text.new.items ≡ text.old.items ++ spec.ended (form.Cell t.now x.now y.now z.now)) }
{
    if is_constant(10, t) && is_constant(0, z) {
        return put_pair(text, x, y);
    }
    put_four(text, t, x, y, z)
}

fn put_cell(text: &mut Vec<u8>, cell: &[Operand; 4]) -> Result<(), AllocError>
    ensures { OnOk result (text.new.items ≡ text.old.items ++ flat_map spec.ended (spec.cell_lines cell.now)) }
{
    let [t, x, y, z] = cell;
    match spelled(t, x, y, z) {
        Some(operation) => {
            put_instruction(text, operation, y)?;
            put_next(text, z)
        }
        None => put_words(text, t, x, y, z),
    }
}

fn put_item(text: &mut Vec<u8>, item: &Item) -> Result<(), AllocError>
    ensures { OnOk result (text.new.items ≡ text.old.items ++ flat_map spec.ended (spec.item_lines item.now)) }
{
    put_labels(text, item.labels.as_slice())?;
    put_cell(text, &item.cell)
}

fn put_items(text: &mut Vec<u8>, items: &[Item]) -> Result<(), AllocError>
    ensures { OnOk result (text.new.items ≡ text.old.items ++ flat_map spec.ended (flat_map spec.item_lines items.now)) }
{
    let mut rest = items;
    while let [item, more @ ..] = rest {
        put_item(text, item)?;
        rest = more;
    }
    Ok(())
}

/// The text of a module: the imports, the exports, and then each item with its labels.
///
/// An item that an instruction line spells is written as that line, with a `ref` line where its next is a name; any other as `pair_t` or
/// `cell`. The text assembles to the module, and `read_module` reads it where it has at most 1,048,576 bytes.
pub fn write_module(alloc: Global, module: &Module) -> Result<Vec<u8>, AllocError>
    ensures text { IfOk result (λ text. text.items ≡ spec.written «module».now) }
    ensures module { IfOk result (λ text. Assembles None text.items «module».now) }
    ensures again { IfOk result (λ text. length text.items ≤ text_limit → Assembles (Some text_limit) text.items «module».now) }
{
    let mut text = Vec::new(alloc);
    put_directives(&mut text, Directive::Imports, module.imports())?;
    put_directives(&mut text, Directive::Exports, module.exports())?;
    put_items(&mut text, module.items())?;
    Ok(text)
}
