// What an instruction reads first: its operation, and what its event has of its own.

ghost use Rattle.std.specs.Prelude.{◌≡◌, IfSome, IsTrue};
ghost use Rattle.cap_words.specs.Seen.{seen};
ghost use Rattle.instr_table.specs.Code.{fetched};
ghost use Rattle.instr_table.specs.Spelling.{is_op};

use crate::taking::cell;
use cap_words::Word;
use instr_table::{Op, decode};
use quad_memory::Quads;

// What stays as it is from an event's dispatch to its end: who pays, its actor with its code and state, and its message.
#[derive(Drop)]
pub(crate) struct OwnWords {
    pub sponsor: Word,
    pub actor: Word,
    pub code: Word,
    pub state: Word,
    pub message: Word,
}

impl OwnWords {
    ghost use Rattle.vm_step.specs.Flight.{own_at};
    ghost use Rattle.vm_step.specs.Reads.{own_in, IsInFlight};

    // What an event in flight has of its own.
    pub(crate) fn of(quads: &Quads, event: Word) -> OwnWords
        requires { IsInFlight (seen quads.now.store) event }
        ensures { own_in result ≡ own_at (seen quads.now.store) event }
    {
        let message = quads.known_event(event);
        let actor = quads.known_actor(message.target);
        OwnWords {
            sponsor: message.sponsor,
            actor: message.target,
            code: actor.code,
            state: actor.state,
            message: message.message,
        }
    }
}

/// The operation at a code word, and the word of the next one, or None where none stands there.
pub fn fetch(quads: &Quads, code: Word) -> Option<(Op, Word)>
    ensures value { result ≡ fetched (seen quads.now.store) code }
    ensures in_row { IfSome result (λ o. IsTrue (is_op o.0)) }
{
    let q = cell(quads, code)?;
    let next = q.z;
    let op = decode(q)?;
    Some((op, next))
}
