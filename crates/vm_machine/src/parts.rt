// The parts of a machine.

ghost use Rattle.std.specs.Prelude.{◌≡◌, ◌+◌, ◌<◌, ◌≤◌, [], ◌∷◌, ◌++◌, vec_len, vec_capacity};

use cap_words::Word;
use event_queue::Queue;
use instr_table::Quota;
use quad_memory::Quads;
use vm_sponsor::{Grant, Sheet};
use vm_step::Lane;
use vm_turn::Entry;

// The words of the root sponsor and of the devices, as the memory of quads gave them at boot.
#[derive(Clone, Copy)]
pub(crate) struct Known {
    pub(crate) root: Word,
    pub(crate) println: Word,
    pub(crate) say: Word,
}

// All that a machine keeps between turns.
#[derive(Drop)]
pub(crate) struct Parts {
    pub(crate) quads: Quads,
    pub(crate) sheet: Sheet,
    pub(crate) queue: Queue,
    // The committed actors.
    pub(crate) roll: Vec<Word>,
    // The events in flight, in order of dispatch.
    pub(crate) flight: Vec<Lane>,
    // How many of them there may be.
    pub(crate) lanes: u32,
    pub(crate) journal: Vec<Entry>,
    // What the root sponsor ran out of.
    pub(crate) out_of: Option<Quota>,
    pub(crate) grant: Grant,
    pub(crate) known: Known,
    // Whether a search found no message that can go, and nothing has happened since that may change this.
    pub(crate) stuck: bool,
}

// Adds an entry to the journal, which has room for it.
pub(crate) fn note(journal: &mut Vec<Entry>, entry: &Entry)
    requires { vec_len journal.old < vec_capacity journal.old }
    ensures items { journal.new.items ≡ journal.old.items ++ entry.now ∷ [] }
    ensures len { vec_len journal.new ≡ vec_len journal.old + 1 }
    ensures capacity { vec_capacity journal.old ≤ vec_capacity journal.new }
{
    let row = [*entry];
    match journal.extend_from_slice(&row) {
        Ok(()) => {}
        Err(_) => unreachable!(),
    }
}
