//! Reads operands.

ghost use Rattle.std.specs.Prelude.{◌≡◌, IfOk, option_map, Some, length, ◌<◌, ◌^◌, ◌+ℤ◌, ◌≤ℤ◌, pos, negsuc, IsTrue, IfSome, None, if◌then◌else◌};
ghost use Rattle.instr_table.specs.Code.{within, turns, passing};
ghost use Rattle.uasm_read.specs.declared.operand.Operand.TheVariants as operand;
ghost use Rattle.uasm_read.specs.Texts.{fixnum_of as fixnum_in, place_of as place_in, parts_of};
ghost use Rattle.uasm_read.specs.Operations as spec;
ghost use Rattle.uasm_read.specs.Reading.{shape_of, is_near};

use crate::operand::Operand;
use crate::operation::{Operation, Shape};
use crate::texts::{fixnum_of, name_of, next_part, place_of};
use std::alloc::{AllocError, Global};

/// The constants' names, from number 0 on.
pub const CONSTANTS: &[u8] =
    b"#? #nil #f #t #type_t #fixnum_t #actor_t #sponsor_t #event_t #instr_t #pair_t #dict_t #deque_t #symbol_t #func_t #block_t";

/// The fixnum, the constant or the name that a part is.
#[tactic(auto, unfolding(crate::specs::Operations::value_of))]
pub fn value_of(alloc: Global, part: &[u8]) -> Result<Option<Operand>, AllocError>
    ensures { IfOk result (λ value. value ≡ spec.value_of part.now) }
{
    if let Some(n) = fixnum_of(part) {
        return Ok(Some(Operand::Fix(n)));
    }
    if let Some(k) = place_of(part, CONSTANTS) {
        return Ok(Some(Operand::Const(k as u32)));
    }
    match name_of(alloc, part)? {
        Some(name) => Ok(Some(Operand::Label(name))),
        None => Ok(None),
    }
}

fn number_within(part: &[u8], low: i32, high: i32) -> Option<Operand>
    ensures { result ≡ option_map operand.Fix (passing (within low high) (fixnum_in part.now)) }
{
    let n = fixnum_of(part)?;
    if low <= n && n <= high {
        Some(Operand::Fix(n))
    } else {
        None
    }
}

fn turn(part: &[u8], most: u32) -> Option<Operand>
    ensures { result ≡ option_map operand.Fix (passing (turns most) (fixnum_in part.now)) }
{
    let n = fixnum_of(part)?;
    let size = n.unsigned_abs();
    if 1 <= size && size <= most {
        Some(Operand::Fix(n))
    } else {
        None
    }
}

fn choice(part: &[u8], first: i32, words: &[u8]) -> Option<Operand>
    requires few { length words.now < 128 }
    requires near { negsuc 0 ≤ℤ first }
    requires small { first ≤ℤ pos 0 }
    ensures { result ≡ option_map (λ k. operand.Fix (first +ℤ pos k)) (place_in part.now words.now) }
{
    let k = place_of(part, words)?;
    Some(Operand::Fix(first + k as i32))
}

#[tactic(auto, unfolding(crate::specs::Operations::operand_in))]
fn operand_in(alloc: Global, shape: Shape, part: &[u8]) -> Result<Option<Operand>, AllocError>
    requires { IsTrue (is_near (shape_of shape)) }
    ensures { IfOk result (λ operand. operand ≡ spec.operand_in (shape_of shape) part.now) }
{
    match shape {
        Shape::Value => value_of(alloc, part),
        Shape::Nothing => Ok(None),
        Shape::Within(low, high) => Ok(number_within(part, low, high)),
        Shape::Turn(most) => Ok(turn(part, most)),
        Shape::Choice(first, words) => Ok(choice(part, first, words)),
    }
}

// The operand of an operation that stands alone.
fn operand_alone(shape: Shape) -> Option<Operand>
    ensures { result ≡ (if spec.is_alone (shape_of shape) then Some (operand.Const 0) else None) }
{
    match shape {
        Shape::Nothing => Some(Operand::Const(0)),
        _ => None,
    }
}

/// The operand that stands behind an operation.
#[tactic(auto, unfolding(crate::specs::Operations::operand_of))]
pub fn operand_of(
    alloc: Global,
    operation: Operation,
    text: &[u8],
) -> Result<Option<Operand>, AllocError>
    ensures { IfOk result (λ operand. operand ≡ spec.operand_of (spec.row_of operation).operand (parts_of text.now)) }
{
    let shape = operation.shape();
    let Some((part, rest)) = next_part(text) else {
        return Ok(operand_alone(shape));
    };
    if next_part(rest).is_some() {
        return Ok(None);
    }
    operand_in(alloc, shape, part)
}
