//! Which items are written as instruction lines.

ghost use Rattle.std.specs.Prelude.{◌≡◌, ◌∷◌, [], length, ◌<◌, ◌-◌, ◌+ℤ◌, ◌≤ℤ◌, pos, negsuc, IsTrue};
ghost use Rattle.instr_table.specs.Code.{within};
ghost use Rattle.uasm_read.specs.Texts.{parts_of};
ghost use Rattle.uasm_read.specs.Modules as spec;
ghost use Rattle.uasm_read.specs.Reading.{shape_of, is_near};
ghost use Rattle.uasm_read.specs.Writes as writes;

use crate::faults::is_instr_t;
use crate::operand::Operand;
use crate::operation::{Operation, Shape};
use crate::texts::{count_parts, is_name};

fn is_word(word: &Operand) -> bool
    ensures { result ≡ spec.is_word word.now }
{
    match word {
        Operand::Fix(n) => *n >= -0x4000_0000 && *n <= 0x3FFF_FFFF,
        Operand::Const(k) => *k < 16,
        Operand::Label(name) => is_name(name.bytes()),
        Operand::Following => false,
    }
}

fn is_choice(n: i32, first: i32, words: &[u8]) -> bool
    requires few { length words.now < 128 }
    requires near { negsuc 0 ≤ℤ first }
    requires small { first ≤ℤ pos 0 }
    ensures { result ≡ within first (first +ℤ pos (length (parts_of words.now) - 1)) n }
{
    let last = count_parts(words).saturating_sub(1);
    first <= n && n <= first + last as i32
}

fn fits(shape: Shape, word: &Operand) -> bool
    requires { IsTrue (is_near (shape_of shape)) }
    ensures { result ≡ spec.fits (shape_of shape) word.now }
{
    match (shape, word) {
        (Shape::Value, _) => is_word(word),
        (Shape::Nothing, Operand::Const(k)) => *k == 0,
        (Shape::Within(low, high), Operand::Fix(n)) => low <= *n && *n <= high,
        (Shape::Turn(most), Operand::Fix(n)) => {
            let size = n.unsigned_abs();
            1 <= size && size <= most
        }
        (Shape::Choice(first, words), Operand::Fix(n)) => is_choice(*n, first, words),
        _ => false,
    }
}

fn may_follow(operation: Operation, next: &Operand) -> bool
    ensures { result ≡ writes.may_follow operation next.now }
{
    match next {
        Operand::Following => true,
        Operand::Label(_) => true,
        Operand::Const(k) => !operation.goes_on() && *k == 0,
        Operand::Fix(_) => false,
    }
}

/// Whether the word is the constant of that number.
pub fn is_constant(number: u32, word: &Operand) -> bool
    ensures { result ≡ writes.is_constant number word.now }
{
    match word {
        Operand::Const(k) => *k == number,
        _ => false,
    }
}

/// The operation whose line spells the four words of an item.
pub fn spelled(t: &Operand, x: &Operand, y: &Operand, z: &Operand) -> Option<Operation>
    ensures { result ≡ writes.spelled t.now x.now y.now z.now }
{
    if !is_instr_t(t) {
        return None;
    }
    let Operand::Fix(number) = x else {
        return None;
    };
    let operation = Operation::of_number(*number)?;
    if !fits(operation.shape(), y) {
        return None;
    }
    if !may_follow(operation, z) {
        return None;
    }
    Some(operation)
}
