// The code of the built-in functions: from `S return argument number`, where they go on with what goes back.

ghost use Rattle.std.specs.Prelude.{◌≡◌, IfOk};
ghost use Rattle.hum_emit.specs.Emitted.{◌▷◌};
ghost use Rattle.hum_emit.specs.Emitting.{emitted};
ghost use Rattle.hum_emit.specs.Routines as spec;
ghost use Rattle.hum_emit.specs.Runtime.{fail_in};

use crate::emitter::{Emitter, FALSE, FIXNUM_TYPE, PAIR_TYPE, TRUE};
use crate::instruction::Field;
use crate::routines::{NO_MATCH, NO_NUMBER, NO_TRUTH, failure};
use std::alloc::AllocError as NoMemory;

// The parts of a pair: to `S return x y`.
fn two_of_them(out: &mut Emitter<'_>, fails: &[u32; 7], k: u32) -> Result<u32, NoMemory>
    ensures { IfOk result (λ at. (emitted out.new, at) ≡ spec.two_of_them (fail_in fails.now) k (emitted out.old)) }
{
    let k = out.roll(2, k)?;
    let k = out.part(1, k)?;
    let k = out.choose(failure(fails, NO_MATCH), k)?;
    let k = out.typeq(PAIR_TYPE, k)?;
    let k = out.dup(1, k)?;
    out.drop(1, k)
}

// Two numbers are on top.
fn numbers(out: &mut Emitter<'_>, fails: &[u32; 7], k: u32) -> Result<u32, NoMemory>
    ensures { IfOk result (λ at. (emitted out.new, at) ≡ spec.numbers (fail_in fails.now) k (emitted out.old)) }
{
    let miss = failure(fails, NO_NUMBER);
    let k = out.choose(miss, k)?;
    let k = out.typeq(FIXNUM_TYPE, k)?;
    let k = out.pick(2, k)?;
    let k = out.choose(miss, k)?;
    let k = out.typeq(FIXNUM_TYPE, k)?;
    out.dup(1, k)
}

// The n-th item is a truth value.
fn truth(out: &mut Emitter<'_>, fails: &[u32; 7], n: usize, k: u32) -> Result<u32, NoMemory>
    ensures { IfOk result (λ at. (emitted out.new, at) ≡ spec.truth (fail_in fails.now) n k (emitted out.old)) }
{
    let other = out.choose(failure(fails, NO_TRUTH), k)?;
    let other = out.eq(FALSE, other)?;
    let other = out.pick(n, other)?;
    let k = out.choose(other, k)?;
    let k = out.eq(TRUE, k)?;
    out.pick(n, k)
}

// A sum, a difference or a product.
fn calculates(out: &mut Emitter<'_>, fails: &[u32; 7], n: usize, k: u32) -> Result<u32, NoMemory>
    ensures { IfOk result (λ at. (emitted out.new, at) ≡ spec.calculates (fail_in fails.now) (spec.alu n) k (emitted out.old)) }
{
    let k = out.alu(n, k)?;
    let k = numbers(out, fails, k)?;
    two_of_them(out, fails, k)
}

// Whether one number is less, or greater, than another one.
fn tests(out: &mut Emitter<'_>, fails: &[u32; 7], n: usize, k: u32) -> Result<u32, NoMemory>
    ensures { IfOk result (λ at. (emitted out.new, at) ≡ spec.calculates (fail_in fails.now) (spec.cmp n) k (emitted out.old)) }
{
    let k = out.cmp(n, k)?;
    let k = numbers(out, fails, k)?;
    two_of_them(out, fails, k)
}

// The order of two numbers.
fn orders(out: &mut Emitter<'_>, fails: &[u32; 7], k: u32) -> Result<u32, NoMemory>
    ensures { IfOk result (λ at. (emitted out.new, at) ≡ spec.orders (fail_in fails.now) k (emitted out.old)) }
{
    let level = out.push(Field::Number(0), k)?;
    let high = out.push(Field::Number(1), k)?;
    let other = out.choose(level, high)?;
    let other = out.cmp(2, other)?;
    let low = out.push(Field::Number(-1), k)?;
    let low = out.drop(2, low)?;
    let k = out.choose(other, low)?;
    let k = out.cmp(3, k)?;
    let k = out.dup(2, k)?;
    let k = numbers(out, fails, k)?;
    two_of_them(out, fails, k)
}

// Both are true.
fn both(out: &mut Emitter<'_>, fails: &[u32; 7], k: u32) -> Result<u32, NoMemory>
    ensures { IfOk result (λ at. (emitted out.new, at) ≡ spec.both (fail_in fails.now) k (emitted out.old)) }
{
    let no = out.push(FALSE, k)?;
    let no = out.drop(1, no)?;
    let k = out.choose(no, k)?;
    let k = truth(out, fails, 1, k)?;
    let k = truth(out, fails, 2, k)?;
    two_of_them(out, fails, k)
}

// One of them is true.
fn any(out: &mut Emitter<'_>, fails: &[u32; 7], k: u32) -> Result<u32, NoMemory>
    ensures { IfOk result (λ at. (emitted out.new, at) ≡ spec.any (fail_in fails.now) k (emitted out.old)) }
{
    let yes = out.push(TRUE, k)?;
    let yes = out.drop(1, yes)?;
    let k = out.unless(yes, k)?;
    let k = truth(out, fails, 1, k)?;
    let k = truth(out, fails, 2, k)?;
    two_of_them(out, fails, k)
}

fn negates(out: &mut Emitter<'_>, fails: &[u32; 7], k: u32) -> Result<u32, NoMemory>
    ensures { IfOk result (λ at. (emitted out.new, at) ≡ spec.negates (fail_in fails.now) k (emitted out.old)) }
{
    let k = out.eq(FALSE, k)?;
    let k = truth(out, fails, 1, k)?;
    out.drop(1, k)
}

/// All in the order of their numbers, where values are compared at `compare`.
pub fn built_ins(
    out: &mut Emitter<'_>,
    fails: &[u32; 7],
    compare: u32,
    k: u32,
) -> Result<[u32; 12], NoMemory>
    ensures { IfOk result (λ places. (emitted out.new, places)
        ≡ spec.each (spec.built_in_codes (fail_in fails.now) compare) k (emitted out.old)) }
{
    let add = calculates(out, fails, 4, k)?;
    let sub = calculates(out, fails, 5, k)?;
    let mul = calculates(out, fails, 6, k)?;
    let order = orders(out, fails, k)?;
    let less = tests(out, fails, 3, k)?;
    let less_equal = tests(out, fails, 4, k)?;
    let greater = tests(out, fails, 2, k)?;
    let greater_equal = tests(out, fails, 1, k)?;
    let equal = two_of_them(out, fails, compare)?;
    let both_true = both(out, fails, k)?;
    let any_true = any(out, fails, k)?;
    let negated = negates(out, fails, k)?;
    Ok([
        add,
        sub,
        mul,
        order,
        less,
        less_equal,
        greater,
        greater_equal,
        equal,
        both_true,
        any_true,
        negated,
    ])
}
