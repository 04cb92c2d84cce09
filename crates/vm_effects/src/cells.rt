// Changes of one event's or actor's cell, where a word names one.

ghost use Rattle.std.specs.Prelude.{◌≡◌};
ghost use Rattle.cap_words.specs.Store.{opaque_cell};
ghost use Rattle.quad_memory.specs.Memory.{with_store};
ghost use Rattle.vm_effects.specs.Links.{link_in};
ghost use Rattle.vm_effects.specs.Rewritten.{rewritten, with_next, with_mark, with_behaviour};

use cap_words::{Tag, Word};
use quad_memory::{ActorCell, EventCell, Quads};

// Links an event to a word.
pub(crate) fn set_next(quads: &mut Quads, event: Word, next: Word)
    ensures { quads.new ≡ with_store quads.old (rewritten Tag.Event (with_next next) quads.old.store event) }
{
    if let Some(cell) = quads.event(event) {
        quads.set_event(event, EventCell { next, ..cell });
    }
}

// Gives an actor a mark.
pub(crate) fn set_mark(quads: &mut Quads, actor: Word, mark: Word)
    ensures { quads.new ≡ with_store quads.old (rewritten Tag.Actor (with_mark mark) quads.old.store actor) }
{
    if let Some(cell) = quads.actor(actor) {
        quads.set_actor(actor, ActorCell { mark, ..cell });
    }
}

// Gives an actor another code and state.
pub(crate) fn set_behaviour(quads: &mut Quads, actor: Word, code: Word, state: Word)
    ensures { quads.new ≡ with_store quads.old (rewritten Tag.Actor (with_behaviour code state) quads.old.store actor) }
{
    if let Some(cell) = quads.actor(actor) {
        quads.set_actor(
            actor,
            ActorCell {
                code,
                state,
                ..cell
            },
        );
    }
}

// The word that an actor is linked to, `#nil` where there is no actor.
pub(crate) fn link_of(quads: &Quads, actor: Word) -> Word
    ensures { result ≡ link_in (opaque_cell quads.now.store Tag.Actor actor) }
{
    match quads.actor(actor) {
        Some(cell) => cell.mark,
        None => Word::NIL,
    }
}
