// The fixed code: what each program's events go through beside the code of its own. It is made from the back, as all code is.

ghost use Rattle.std.specs.Prelude.{◌≡◌, map, IfOk};
ghost use Rattle.hum_emit.specs.Emitting.{emitted};
ghost use Rattle.hum_emit.specs.Routines as spec;
ghost use Rattle.hum_emit.specs.Runtime.{failure_codes, no_code, runtime, fail_in};

use crate::builtins::built_ins;
use crate::emitter::{BLOCK_TYPE, Emitter, FALSE, FUNCTION_TYPE, NIL, PAIR_TYPE, TRUE};
use crate::instruction::Field;
use crate::routines::{NO_FUNCTION, Routines, failure};
use std::alloc::{AllocError as NoMemory, Global};

// The failures with the codes from 1 on.
fn failures(out: &mut Emitter<'_>, abort: u32) -> Result<[u32; 7], NoMemory>
    ensures { IfOk result (λ places. (emitted out.new, places)
        ≡ spec.each (map spec.fails_with failure_codes) abort (emitted out.old)) }
{
    let first = out.push(Field::Number(1), abort)?;
    let second = out.push(Field::Number(2), abort)?;
    let third = out.push(Field::Number(3), abort)?;
    let fourth = out.push(Field::Number(4), abort)?;
    let fifth = out.push(Field::Number(5), abort)?;
    let sixth = out.push(Field::Number(6), abort)?;
    let seventh = out.push(Field::Number(7), abort)?;
    Ok([first, second, third, fourth, fifth, sixth, seventh])
}

fn back(out: &mut Emitter<'_>) -> Result<u32, NoMemory>
    ensures { IfOk result (λ at. (emitted out.new, at) ≡ spec.back 0 (emitted out.old)) }
{
    let k = out.jump()?;
    out.roll(2, k)
}

fn call_code(out: &mut Emitter<'_>, fails: &[u32; 7]) -> Result<u32, NoMemory>
    ensures { IfOk result (λ at. (emitted out.new, at) ≡ spec.call_code (fail_in fails.now) 0 (emitted out.old)) }
{
    let k = out.jump()?;
    let k = out.drop(1, k)?;
    let k = out.quad_take(k)?;
    let k = out.choose(failure(fails, NO_FUNCTION), k)?;
    let k = out.typeq(FUNCTION_TYPE, k)?;
    let k = out.dup(1, k)?;
    let k = out.roll(2, k)?;
    out.roll_down(3, k)
}

fn exec_code(out: &mut Emitter<'_>) -> Result<u32, NoMemory>
    ensures { IfOk result (λ at. (emitted out.new, at) ≡ spec.exec_code 0 (emitted out.old)) }
{
    let k = out.jump()?;
    let none = out.drop(1, k)?;
    let block = out.drop(1, k)?;
    let block = out.quad_take(block)?;
    let k = out.choose(none, block)?;
    let k = out.typeq(BLOCK_TYPE, k)?;
    let k = out.dup(1, k)?;
    out.roll(2, k)
}

fn apply_code(out: &mut Emitter<'_>, call: u32, exec: u32, end: u32) -> Result<u32, NoMemory>
    ensures { IfOk result (λ at. (emitted out.new, at) ≡ spec.apply_code call exec end (emitted out.old)) }
{
    let k = out.calls(exec, end)?;
    let k = out.calls(call, k)?;
    let k = out.message(k)?;
    out.my_state(k)
}

// In the comparison: a and b are pairs, or differ.
fn pairs_code(out: &mut Emitter<'_>, head: u32, differ: u32) -> Result<u32, NoMemory>
    ensures { IfOk result (λ at. (emitted out.new, at) ≡ spec.pairs_code head differ 0 (emitted out.old)) }
{
    let k = out.nth(1, head)?;
    let k = out.nth(1, k)?;
    let k = out.pick(2, k)?;
    let k = out.nth(1, k)?;
    let k = out.nth(2, k)?;
    let k = out.dup(1, k)?;
    let k = out.pair(2, k)?;
    let k = out.choose(differ, k)?;
    let k = out.typeq(PAIR_TYPE, k)?;
    out.pick(2, k)
}

// In the comparison: a and b were the same.
fn more_code(out: &mut Emitter<'_>, head: u32, k: u32) -> Result<u32, NoMemory>
    ensures { IfOk result (λ at. (emitted out.new, at) ≡ spec.more_code head k (emitted out.old)) }
{
    let yes = out.push(TRUE, k)?;
    let yes = out.drop(1, yes)?;
    let tails = out.roll(2, head)?;
    let tails = out.tail(1, tails)?;
    let tails = out.roll(2, tails)?;
    let tails = out.tail(1, tails)?;
    let tails = out.part(2, tails)?;
    let k = out.choose(yes, tails)?;
    out.dup(1, k)
}

// In the comparison: b is no pair.
fn leaves_code(
    out: &mut Emitter<'_>,
    head: u32,
    differ: u32,
    deny: u32,
    k: u32,
) -> Result<u32, NoMemory>
    ensures { IfOk result (λ at. (emitted out.new, at) ≡ spec.leaves_code head differ deny k (emitted out.old)) }
{
    let k = more_code(out, head, k)?;
    let k = out.choose(deny, k)?;
    let k = out.cmp(0, k)?;
    let k = out.unless(differ, k)?;
    let k = out.typeq(BLOCK_TYPE, k)?;
    let k = out.dup(1, k)?;
    let k = out.unless(differ, k)?;
    let k = out.typeq(FUNCTION_TYPE, k)?;
    out.dup(1, k)
}

// A turn of the comparison, which goes back to `head`.
fn compare_turn(
    out: &mut Emitter<'_>,
    differ: u32,
    deny: u32,
    head: u32,
    k: u32,
) -> Result<u32, NoMemory>
    ensures { IfOk result (λ at. (emitted out.new, at) ≡ spec.compare_turn differ deny head k (emitted out.old)) }
{
    let leaves = leaves_code(out, head, differ, deny, k)?;
    let pairs = pairs_code(out, head, differ)?;
    let k = out.choose(leaves, pairs)?;
    let k = out.typeq(PAIR_TYPE, k)?;
    out.dup(1, k)
}

// The turn goes back to its own beginning: it is made once to find that, and then again with it.
fn compare_turns(out: &mut Emitter<'_>, differ: u32, deny: u32, k: u32) -> Result<u32, NoMemory>
    ensures { IfOk result (λ at. (emitted out.new, at) ≡ spec.looped (spec.compare_turn differ deny) k (emitted out.old)) }
{
    let count = out.count();
    let head = compare_turn(out, differ, deny, 0, k)?;
    out.rewind(count);
    compare_turn(out, differ, deny, head, k)
}

fn compare_loop(out: &mut Emitter<'_>, k: u32) -> Result<u32, NoMemory>
    ensures { IfOk result (λ at. (emitted out.new, at) ≡ spec.compare_loop k (emitted out.old)) }
{
    let deny = out.push(FALSE, k)?;
    let deny = out.drop(1, deny)?;
    let differ = out.drop(2, deny)?;
    compare_turns(out, differ, deny, k)
}

fn compare_code(out: &mut Emitter<'_>, k: u32) -> Result<u32, NoMemory>
    ensures { IfOk result (λ at. (emitted out.new, at) ≡ spec.compare_code k (emitted out.old)) }
{
    let k = compare_loop(out, k)?;
    let k = out.roll_down(3, k)?;
    out.push(NIL, k)
}

/// Begins with the fixed code, and says where its parts are.
pub fn fixed_code<'a>(alloc: Global) -> Result<(Emitter<'a>, Routines), NoMemory>
    ensures { IfOk result (λ made. emitted made.0 ≡ record no_code { code = runtime }) }
{
    let mut out = Emitter::new(alloc);
    let end = out.ends(1)?;
    let abort = out.ends(-1)?;
    let fails = failures(&mut out, abort)?;
    let goes_back = back(&mut out)?;
    let call = call_code(&mut out, &fails)?;
    let exec = exec_code(&mut out)?;
    let apply = apply_code(&mut out, call, exec, end)?;
    let compare = compare_code(&mut out, goes_back)?;
    let same = out.roll_down(3, compare)?;
    let built_ins = built_ins(&mut out, &fails, compare, goes_back)?;
    let routines = Routines {
        end,
        fails,
        call,
        exec,
        apply,
        same,
        built_ins,
    };
    Ok((out, routines))
}
