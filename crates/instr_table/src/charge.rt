// What instructions cost.

ghost use Rattle.std.specs.Prelude.{◌≡◌};
ghost use Rattle.instr_table.specs.Spelling.{costs, charge_of};

use crate::op::Op;

/// What a sponsor pays with, each kind apart.
#[derive(Clone, Copy, Debug, PartialEq, Eq)]
pub enum Quota {
    /// Quads of RAM.
    Memory,
    /// Messages.
    Events,
    /// Instructions.
    Cycles,
}

/// What an instruction costs beside its one cycle.
#[derive(Clone, Copy, Debug, PartialEq, Eq)]
pub struct Charge {
    pub quads: u32,
    pub events: u32,
}

impl Charge {
    fn quads(quads: u32) -> Option<Charge>
        ensures { result ≡ costs quads 0 }
    {
        Some(Charge { quads, events: 0 })
    }

    fn message() -> Option<Charge>
        ensures { result ≡ costs 1 1 }
    {
        Some(Charge {
            quads: 1,
            events: 1,
        })
    }
}

/// What an operation costs, or None for `dict set`, `dict del`, `deque pop`, `deque pull` and `sponsor new`, whose charge depends on the
/// state.
pub fn op_charge(op: Op) -> Option<Charge>
    ensures { result ≡ charge_of op }
{
    match op {
        Op::Dup(n) => Charge::quads(n.unsigned_abs()),
        Op::Roll(n) => Charge::quads(n.unsigned_abs()),
        Op::QuadTake(n) => Charge::quads(n.unsigned_abs()),
        Op::Pair(n) => Charge::quads(n.unsigned_abs() + 1),
        Op::Part(n) => Charge::quads(n.unsigned_abs() + 1),
        Op::Drop(_) | Op::If(_) | Op::Jump | Op::End(_) | Op::Assert(_) | Op::Debug =>
            Charge::quads(0),
        Op::ActorAssign | Op::ActorBecome => Charge::quads(0),
        Op::SponsorGrant(_) | Op::SponsorReclaim | Op::SponsorStop => Charge::quads(0),
        Op::Push(_) | Op::Pick(_) | Op::Depth | Op::Nth(_) | Op::Get(_) => Charge::quads(1),
        Op::Typeq(_) | Op::Eq(_) | Op::Cmp(_) | Op::AluNot | Op::Alu(_) => Charge::quads(1),
        Op::Msg(_) | Op::State(_) | Op::My(_) => Charge::quads(1),
        Op::DictTest(_) | Op::DequeTest(_) => Charge::quads(1),
        Op::QuadMake(_) | Op::ActorCreate | Op::DequeNew => Charge::quads(2),
        Op::DequePut(_) => Charge::quads(3),
        Op::ActorSend | Op::ActorPost | Op::SponsorStart => Charge::message(),
        Op::DictPut(n) => { if n == 3 { None } else { Charge::quads(2) } }
        Op::DictDel | Op::DequeTake(_) | Op::SponsorNew => None,
    }
}
