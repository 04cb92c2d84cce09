// The committed actors.

ghost use Rattle.std.specs.Prelude.{◌≡◌, ◌+◌, ◌<◌, ◌≤◌, [], ◌∷◌, ◌++◌, vec_len, vec_capacity};
ghost use Rattle.cap_words.specs.Store.{opaque_cell};
ghost use Rattle.vm_effects.specs.Gathered.{made_from, made_words};
ghost use Rattle.vm_effects.specs.Links.{link_in};

use cap_words::{Tag, Word};
use quad_memory::Quads;

// Enters so many linked actors, from this one on, into the roll, which has room for them.
pub(crate) fn enter_all(quads: &Quads, roll: &mut Vec<Word>, first: Word, count: u32)
    requires { vec_len roll.old + count ≤ vec_capacity roll.old }
    ensures items { roll.new.items ≡ roll.old.items ++ made_words (made_from quads.now.store count first) }
    ensures len { vec_len roll.new ≡ vec_len roll.old + count }
    ensures capacity { vec_capacity roll.old ≤ vec_capacity roll.new }
{
    let mut actor = first;
    for _ in 0..count {
        enter(roll, actor);
        actor = link_of(quads, actor);
    }
}

// Enters an actor.
fn enter(roll: &mut Vec<Word>, actor: Word)
    requires { vec_len roll.old < vec_capacity roll.old }
    ensures items { roll.new.items ≡ roll.old.items ++ actor ∷ [] }
    ensures len { vec_len roll.new ≡ vec_len roll.old + 1 }
    ensures capacity { vec_capacity roll.old ≤ vec_capacity roll.new }
{
    match roll.push(actor) {
        Ok(()) => {}
        Err(_) => unreachable!(),
    }
}

// The word that an actor is linked to, `#nil` where there is no actor.
fn link_of(quads: &Quads, actor: Word) -> Word
    ensures { result ≡ link_in (opaque_cell quads.now.store Tag.Actor actor) }
{
    match quads.actor(actor) {
        Some(cell) => cell.mark,
        None => Word::NIL,
    }
}
