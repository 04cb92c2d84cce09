// From operations to quads.

ghost use Rattle.std.specs.Prelude.{◌≡◌, Some, IsTrue};
ghost use Rattle.cap_words.specs.Words.{Fix, instr_t};
ghost use Rattle.cap_words.specs.Fixnums.{in_range};
ghost use Rattle.instr_table.specs.Code.{operation};
ghost use Rattle.instr_table.specs.Spelling.{is_op, spelled};

use crate::op::Op;
use cap_words::{Quad, Word};

/// The quad that spells an operation and names the next instruction: `decode(encode(op, next))` is `op`. The operation's number is one of
/// its row, as that of each operation that `decode` gives.
pub fn encode(op: Op, next: Word) -> Quad
    requires in_row { IsTrue (is_op op) }
    ensures value { result ≡ spelled op next }
    ensures decodes { operation result ≡ Some op }
{
    spelled(op, next)
}

fn spelled(op: Op, next: Word) -> Quad
    requires in_row { IsTrue (is_op op) }
    ensures { result ≡ spelled op next }
{
    match op {
        Op::Push(v) => instruction(0, v, next),
        Op::Dup(n) => numbered(1, n, next),
        Op::Drop(n) => numbered(2, n, next),
        Op::Pick(n) => numbered(3, n, next),
        Op::Roll(n) => numbered(4, n, next),
        Op::Depth => instruction(5, Word::UNDEF, next),
        Op::Pair(n) => numbered(6, n, next),
        Op::Part(n) => numbered(7, n, next),
        Op::Nth(n) => numbered(8, n, next),
        Op::QuadMake(n) => numbered(9, n, next),
        Op::QuadTake(n) => numbered(9, n, next),
        Op::Get(n) => numbered(10, n, next),
        Op::Typeq(v) => instruction(11, v, next),
        Op::Eq(v) => instruction(12, v, next),
        Op::Cmp(n) => numbered(13, n, next),
        Op::AluNot => numbered(14, 0, next),
        Op::Alu(n) => numbered(14, n, next),
        Op::If(v) => instruction(15, v, next),
        Op::Jump => instruction(16, Word::UNDEF, next),
        Op::Msg(n) => numbered(17, n, next),
        Op::State(n) => numbered(18, n, next),
        Op::My(n) => numbered(19, n, next),
        Op::ActorSend => numbered(20, 0, next),
        Op::ActorPost => numbered(20, 1, next),
        Op::ActorCreate => numbered(20, 2, next),
        Op::ActorAssign => numbered(20, 3, next),
        Op::ActorBecome => numbered(20, 4, next),
        Op::End(n) => numbered(21, n, next),
        Op::DictTest(n) => numbered(22, n, next),
        Op::DictPut(n) => numbered(22, n, next),
        Op::DictDel => numbered(22, 4, next),
        Op::DequeNew => numbered(23, 0, next),
        Op::DequeTest(n) => numbered(23, n, next),
        Op::DequePut(n) => numbered(23, n, next),
        Op::DequeTake(n) => numbered(23, n, next),
        Op::SponsorNew => numbered(24, 0, next),
        Op::SponsorGrant(n) => numbered(24, n, next),
        Op::SponsorReclaim => numbered(24, 4, next),
        Op::SponsorStart => numbered(24, 5, next),
        Op::SponsorStop => numbered(24, 6, next),
        Op::Assert(v) => instruction(25, v, next),
        Op::Debug => instruction(26, Word::UNDEF, next),
    }
}

fn instruction(number: i32, operand: Word, next: Word) -> Quad
    requires { IsTrue (in_range number) }
    ensures { result ≡ record { t = instr_t; x = Fix number; y = operand; z = next } }
{
    Quad {
        t: Word::INSTR_T,
        x: Word::number_word(number),
        y: operand,
        z: next,
    }
}

fn numbered(number: i32, operand: i32, next: Word) -> Quad
    requires number { IsTrue (in_range number) }
    requires operand { IsTrue (in_range operand) }
    ensures { result ≡ record { t = instr_t; x = Fix number; y = Fix operand; z = next } }
{
    instruction(number, Word::number_word(operand), next)
}
