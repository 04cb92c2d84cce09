// What becomes of the messages that a commit hands out.

ghost use Rattle.std.specs.Prelude.{◌≡◌, ◌+◌, ◌≤◌, length};
ghost use Rattle.cap_words.specs.Store.{opaque_cell};
ghost use Rattle.vm_effects.specs.Links.{link_in};
ghost use Rattle.vm_effects.specs.Gathered.{sent_from, sent_words};
ghost use Rattle.event_queue.specs.Pending.{appended};

use crate::queue::Queue;
use cap_words::{Tag, Word};
use quad_memory::Quads;

/// Gives each of so many linked events the next number, in order, from this one on. The messages are ready.
pub fn append_all(quads: &Quads, queue: &mut Queue, first: Word, count: u32)
    requires { length queue.old.given + count ≤ queue.old.room }
    ensures { queue.new ≡ appended queue.old (sent_words (sent_from quads.now.store count first)) }
{
    let mut event = first;
    for _ in 0..count {
        queue.append(event);
        event = link_of(quads, event);
    }
}

// The word that an event is linked to, `#nil` where there is no event.
fn link_of(quads: &Quads, event: Word) -> Word
    ensures { result ≡ link_in (opaque_cell quads.now.store Tag.Event event) }
{
    match quads.event(event) {
        Some(cell) => cell.next,
        None => Word::NIL,
    }
}
