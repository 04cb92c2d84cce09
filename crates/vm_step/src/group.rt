// Operations by what they act on.

ghost use Rattle.std.specs.Prelude.{◌≡◌};
ghost use Rattle.vm_step.specs.Groups.{group_of};

use instr_table::Op;

// What an operation acts on.
#[derive(Clone, Copy, PartialEq, Eq)]
pub(crate) enum Group {
    /// The stack alone.
    Stack,
    /// Cells of the memory.
    Cells,
    /// Words, of the stack or of the event.
    Words,
    /// The next instruction, or the end of the event.
    Flow,
    /// Dictionaries and deques.
    Lists,
    /// The event's record.
    Actors,
    /// Sponsors.
    Sponsors,
}

// The group of an operation.
pub(crate) fn group_of(op: &Op) -> Group
    ensures { result ≡ group_of op.now }
{
    match op {
        Op::Push(_) | Op::Dup(_) | Op::Drop(_) | Op::Pick(_) | Op::Roll(_) | Op::Depth =>
            Group::Stack,
        Op::Pair(_) | Op::Part(_) | Op::Nth(_) | Op::QuadMake(_) | Op::QuadTake(_) => Group::Cells,
        Op::Get(_) => Group::Cells,
        Op::Typeq(_) | Op::Eq(_) | Op::Cmp(_) | Op::AluNot | Op::Alu(_) => Group::Words,
        Op::Msg(_) | Op::State(_) | Op::My(_) => Group::Words,
        Op::If(_) | Op::Jump | Op::End(_) | Op::Assert(_) | Op::Debug => Group::Flow,
        Op::DictTest(_) | Op::DictPut(_) | Op::DictDel => Group::Lists,
        Op::DequeNew | Op::DequeTest(_) | Op::DequePut(_) | Op::DequeTake(_) => Group::Lists,
        Op::ActorSend | Op::ActorPost | Op::ActorCreate => Group::Actors,
        Op::ActorAssign | Op::ActorBecome => Group::Actors,
        Op::SponsorNew | Op::SponsorGrant(_) | Op::SponsorReclaim => Group::Sponsors,
        Op::SponsorStart | Op::SponsorStop => Group::Sponsors,
    }
}
