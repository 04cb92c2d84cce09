// Whether a message can start.

ghost use Rattle.std.specs.Prelude.{◌≡◌};
ghost use Rattle.cap_words.specs.Seen.{seen};
ghost use Rattle.quad_memory.specs.Cells.{sponsor_at};
ghost use Rattle.vm_turn.specs.Actors.{is_idle};
ghost use Rattle.event_queue.specs.Starts.{can_start, runs_by};

use cap_words::{Word, is_same};
use quad_memory::Quads;

// Whether an event's target is idle and its sponsor runs.
pub(crate) fn can_start(quads: &Quads, event: Word) -> bool
    ensures { result ≡ can_start quads.now.store event }
{
    match quads.event(event) {
        Some(cell) => is_idle(quads, cell.target) && is_running(quads, cell.sponsor),
        None => false,
    }
}

// Whether a word names an idle actor.
fn is_idle(quads: &Quads, actor: Word) -> bool
    ensures { result ≡ is_idle (seen quads.now.store) actor }
{
    match quads.actor(actor) {
        Some(cell) => is_same(cell.mark, Word::UNDEF),
        None => false,
    }
}

// Whether a word names a sponsor that runs.
fn is_running(quads: &Quads, sponsor: Word) -> bool
    ensures { result ≡ runs_by (sponsor_at quads.now.store sponsor) }
{
    match quads.sponsor(sponsor) {
        Some(cell) => !is_same(cell.signal, Word::UNDEF),
        None => false,
    }
}
