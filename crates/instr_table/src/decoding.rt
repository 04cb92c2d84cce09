// From quads to operations.

ghost use Rattle.std.specs.Prelude.{◌≡◌, IsTrue, IfSome};
ghost use Rattle.cap_words.specs.Words.{number_of};
ghost use Rattle.instr_table.specs.Code.{operation, named, bare, within, turns, passing, quad_operation, alu_operation, actor_operation, dict_operation, deque_operation, sponsor_operation};
ghost use Rattle.instr_table.specs.Spelling.{is_op, spelled};

use crate::op::Op;
use cap_words::{Quad, Word};

/// The operation that a quad spells, or None where it spells none: its first word is not `#instr_t`, its second is no operation's number,
/// or its third is no operand of that operation. The fourth word, which names the next instruction, is not looked at.
pub fn decode(q: Quad) -> Option<Op>
    ensures value { result ≡ operation q }
    ensures in_row { IfSome result (λ op. IsTrue (is_op op)) }
    ensures spelled { IfSome result (λ op. q ≡ spelled op q.z) }
{
    operation(q)
}

fn operation(q: Quad) -> Option<Op>
    ensures { result ≡ operation q }
{
    if q.t != Word::INSTR_T {
        return None;
    }
    let n = q.x.number()?;
    if n < 0 {
        return None;
    }
    named(n as u32, q.y)
}

fn named(n: u32, v: Word) -> Option<Op>
    ensures { result ≡ named n v }
{
    match n {
        0 => Some(Op::Push(v)),
        1 => Some(Op::Dup(number(v, 0, 15)?)),
        2 => Some(Op::Drop(number(v, 0, 4095)?)),
        3 => Some(Op::Pick(number(v, 1, 4095)?)),
        4 => Some(Op::Roll(turn(v)?)),
        5 => bare(Op::Depth, v),
        6 => Some(Op::Pair(number(v, 1, 15)?)),
        7 => Some(Op::Part(number(v, 1, 15)?)),
        8 => Some(Op::Nth(number(v, -4095, 4095)?)),
        9 => quad_named(v),
        10 => Some(Op::Get(number(v, 0, 3)?)),
        11 => Some(Op::Typeq(v)),
        12 => Some(Op::Eq(v)),
        13 => Some(Op::Cmp(number(v, 0, 5)?)),
        14 => alu_named(v),
        15 => Some(Op::If(v)),
        16 => bare(Op::Jump, v),
        17 => Some(Op::Msg(number(v, -4095, 4095)?)),
        18 => Some(Op::State(number(v, -4095, 4095)?)),
        19 => Some(Op::My(number(v, 0, 2)?)),
        20 => actor_named(v),
        21 => Some(Op::End(number(v, -1, 1)?)),
        22 => dict_named(v),
        23 => deque_named(v),
        24 => sponsor_named(v),
        25 => Some(Op::Assert(v)),
        26 => bare(Op::Debug, v),
        _ => None,
    }
}

fn bare(op: Op, v: Word) -> Option<Op>
    ensures { result ≡ bare op v }
{
    if v == Word::UNDEF { Some(op) } else { None }
}

fn number(v: Word, low: i32, high: i32) -> Option<i32>
    ensures { result ≡ passing (within low high) (number_of v) }
{
    let n = v.number()?;
    if low <= n && n <= high { Some(n) } else { None }
}

fn turn(v: Word) -> Option<i32>
    ensures { result ≡ passing (turns 15) (number_of v) }
{
    let n = v.number()?;
    let size = n.unsigned_abs();
    if 1 <= size && size <= 15 {
        Some(n)
    } else {
        None
    }
}

fn quad_named(v: Word) -> Option<Op>
    ensures { result ≡ quad_operation (number_of v) }
{
    let n = v.number()?;
    if 1 <= n && n <= 4 {
        Some(Op::QuadMake(n))
    } else if -4 <= n && n <= -1 {
        Some(Op::QuadTake(n))
    } else {
        None
    }
}

fn alu_named(v: Word) -> Option<Op>
    ensures { result ≡ alu_operation (number_of v) }
{
    let n = v.number()?;
    if n == 0 {
        Some(Op::AluNot)
    } else if 1 <= n && n <= 6 {
        Some(Op::Alu(n))
    } else {
        None
    }
}

fn actor_named(v: Word) -> Option<Op>
    ensures { result ≡ actor_operation (number_of v) }
{
    match v.number()? {
        0 => Some(Op::ActorSend),
        1 => Some(Op::ActorPost),
        2 => Some(Op::ActorCreate),
        3 => Some(Op::ActorAssign),
        4 => Some(Op::ActorBecome),
        _ => None,
    }
}

fn dict_named(v: Word) -> Option<Op>
    ensures { result ≡ dict_operation (number_of v) }
{
    let n = v.number()?;
    if 0 <= n && n <= 1 {
        Some(Op::DictTest(n))
    } else if 2 <= n && n <= 3 {
        Some(Op::DictPut(n))
    } else if n == 4 {
        Some(Op::DictDel)
    } else {
        None
    }
}

fn deque_named(v: Word) -> Option<Op>
    ensures { result ≡ deque_operation (number_of v) }
{
    let n = v.number()?;
    if n == 0 {
        Some(Op::DequeNew)
    } else if n == 1 || n == 6 {
        Some(Op::DequeTest(n))
    } else if n == 2 || n == 4 {
        Some(Op::DequePut(n))
    } else if n == 3 || n == 5 {
        Some(Op::DequeTake(n))
    } else {
        None
    }
}

fn sponsor_named(v: Word) -> Option<Op>
    ensures { result ≡ sponsor_operation (number_of v) }
{
    let n = v.number()?;
    if n == 0 {
        Some(Op::SponsorNew)
    } else if 1 <= n && n <= 3 {
        Some(Op::SponsorGrant(n))
    } else if n == 4 {
        Some(Op::SponsorReclaim)
    } else if n == 5 {
        Some(Op::SponsorStart)
    } else if n == 6 {
        Some(Op::SponsorStop)
    } else {
        None
    }
}
