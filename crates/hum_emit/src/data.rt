// Texts, symbols and constants, which are data.

ghost use Rattle.std.specs.Prelude.{◌≡◌, ◌+◌, ◌∷◌, [], length, OnOk, IfOk, if◌then◌else◌};
ghost use Rattle.hum_emit.specs.declared.instruction.Field.TheVariants as field;
ghost use Rattle.hum_emit.specs.Emitted as spec;
ghost use Rattle.hum_emit.specs.Emitting.{emitted, with_cells, item_cell};

use crate::emitter::{Emitter, FALSE, NIL, PAIR_TYPE, SYMBOL_TYPE, TRUE, UNDEF, operand};
use crate::instruction::{Datum, Field};
use hum_core::Const;
use std::alloc::AllocError as NoMemory;

// The cell of an item of a list.
fn item(out: &mut Emitter<'_>, value: u32, is_last: bool) -> Result<(), NoMemory>
    ensures { OnOk result (emitted out.new ≡ with_cells (item_cell (length (emitted out.old).cells) value is_last ∷ []) (emitted out.old)) }
{
    let at = out.next_datum()?;
    let second = if is_last { NIL } else { Field::Data(next(at)?) };
    out.datum(Datum {
        kind: PAIR_TYPE,
        first: operand(value as usize)?,
        second,
    })
}

// The number behind that one.
fn next(at: u32) -> Result<u32, NoMemory>
    ensures { IfOk result (λ behind. behind ≡ at + 1) }
{
    if at == u32::MAX {
        return Err(NoMemory);
    }
    Ok(at + 1)
}

/// The cells of a text, and its word.
pub fn text(out: &mut Emitter<'_>, points: &[char]) -> Result<Field, NoMemory>
    ensures { IfOk result (λ word. (emitted out.new, word) ≡ spec.text points.now (emitted out.old)) }
{
    let at = out.next_datum()?;
    for (i, point) in points.iter().enumerate() {
        item(out, *point as u32, i + 1 == points.len())?;
    }
    Ok(list_field(at, points.is_empty()))
}

// The cells of a name.
fn name_cells(out: &mut Emitter<'_>, name: &[u8]) -> Result<(), NoMemory>
    ensures { OnOk result (emitted out.new ≡ with_cells (spec.list_cells (length (emitted out.old).cells) name.now) (emitted out.old)) }
{
    for (i, byte) in name.iter().enumerate() {
        item(out, u32::from(*byte), i + 1 == name.len())?;
    }
    Ok(())
}

// The word of a list of which the first item's cell, where there is one, has that number.
fn list_field(at: u32, is_empty: bool) -> Field
    ensures { result ≡ (if is_empty then field.Constant 1 else field.Data at) }
{
    if is_empty { NIL } else { Field::Data(at) }
}

// The word of a symbol, whose cell and name are data from here on, if they were not before.
fn symbol<'a>(out: &mut Emitter<'a>, name: &'a [u8]) -> Result<Field, NoMemory>
    ensures { IfOk result (λ word. (emitted out.new, word) ≡ spec.symbol_at ((emitted out.old).symbols name.now) name.now (emitted out.old)) }
{
    if let Some(at) = out.symbol(name) {
        return Ok(Field::Data(at));
    }
    let at = out.next_datum()?;
    out.datum(Datum {
        kind: SYMBOL_TYPE,
        first: list_field(next(at)?, name.is_empty()),
        second: UNDEF,
    })?;
    name_cells(out, name)?;
    out.name_symbol(name, at)?;
    Ok(Field::Data(at))
}

/// The word of a constant.
pub fn constant<'a>(out: &mut Emitter<'a>, constant: &'a Const) -> Result<Field, NoMemory>
    ensures { IfOk result (λ word. (emitted out.new, word) ≡ spec.constant constant.now (emitted out.old)) }
{
    match constant {
        Const::Undef => Ok(UNDEF),
        Const::Nil => Ok(NIL),
        Const::True => Ok(TRUE),
        Const::False => Ok(FALSE),
        Const::Num(n) => Ok(Field::Number(*n)),
        Const::Sym(name) => symbol(out, name.as_bytes()),
    }
}
