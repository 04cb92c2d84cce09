// What one event will have done when it commits.

ghost use Rattle.std.specs.Prelude.{◌≡◌, ◌<◌, [], ◌∷◌, IsSome, IfSome, OnOk, OnErr, is_ok, is_none, option_map, None, false};
ghost use Rattle.cap_words.specs.Words.{Cap};
ghost use Rattle.cap_words.specs.Store.{Store, used, cap_place};
ghost use Rattle.cap_words.specs.Seen.{seen, grown, altered, EventSlot, UnbornSlot};
ghost use Rattle.cap_words.specs.Frame.{Framed};
ghost use Rattle.quad_memory.specs.Memory.{with_store};
ghost use Rattle.quad_memory.specs.Cells.{actor_at};
ghost use Rattle.instr_table.specs.Event.{no_effects, with_effect, has_created, Sends, Creates, Assigns, Becomes};
ghost use Rattle.vm_effects.specs.Actors.{idle_cell, actor_slot};
ghost use Rattle.vm_effects.specs.Rewritten.{rewritten, with_end};
ghost use Rattle.vm_effects.specs.Gathered.{behaviour, made_from};

use crate::cells::{link_of, set_behaviour, set_mark, set_next};
use crate::chain::Chain;
use cap_words::{Tag, Word, is_same};
use quad_memory::{ActorCell, EventCell, Quads};

/// The event did not create the actor that it would give a behaviour.
#[derive(Clone, Copy, Debug, PartialEq, Eq)]
pub struct NotFresh;

/// The event gathered a behaviour before.
#[derive(Clone, Copy, Debug, PartialEq, Eq)]
pub struct Twice;

// A behaviour.
#[derive(Clone, Copy)]
struct Behaviour {
    code: Word,
    state: Word,
}

/// What one event will have done when it commits: the messages that it sent and the actors that it created, in order, and the next
/// behaviour of its actor.
///
/// A message takes one quad, which is its event, and an actor one. The lists are linked in these cells, so that the record has a fixed
/// size: an event by its `next`, an actor by its mark.
#[derive(Clone, Copy)]
pub struct Effects {
    sent: Chain,
    created: Chain,
    next: Option<Behaviour>,
}

/// The lists that a commit hands out: the first word of each, `#nil` for an empty one, and how many there are.
///
/// The `next` of each event and the mark of each actor names the next one of its list, `#nil` at the last.
#[derive(Clone, Copy, PartialEq, Eq)]
pub struct Released {
    pub first_event: Word,
    pub events: u32,
    pub first_actor: Word,
    pub actors: u32,
}

impl Effects {
    ghost use Rattle.vm_effects.specs.Gathered.{effects_of, own_words, next_of, IsLinked, sent_from, AreSent, AreMade};

    /// No effects yet.
    pub fn begin() -> Effects
        ensures effects { (s : Store) → effects_of s result ≡ no_effects }
        ensures linked { (s : Store) → IsLinked s result }
    {
        Effects {
            sent: Chain::empty(),
            created: Chain::empty(),
            next: None,
        }
    }

    /// Sends a message: takes a quad for its event. What the event's `next` was has no meaning.
    pub fn send(&mut self, quads: &mut Quads, event: EventCell)
        requires linked { IsLinked quads.old.store self.old }
        requires room { used quads.old.store < quads.old.room }
        ensures effects { effects_of quads.new.store self.new ≡ with_effect (effects_of quads.old.store self.old)
            (Sends (record { event = Cap (used quads.old.store); sponsor = event.sponsor; target = event.target; content = event.message })) }
        ensures linked { IsLinked quads.new.store self.new }
        ensures seen { seen quads.new.store ≡ grown (seen quads.old.store) (EventSlot event.sponsor event.target event.message ∷ []) }
        ensures frame { Framed quads.old.store quads.new.store (own_words (effects_of quads.old.store self.old)) }
        ensures room { quads.new.room ≡ quads.old.room }
    {
        let word = quads.take_event(EventCell {
            next: Word::NIL,
            ..event
        });
        set_next(quads, self.sent.last, word);
        self.sent = self.sent.with(word, quads);
    }

    /// Creates an actor, which is not committed yet: takes a quad for it and gives its word.
    pub fn create(&mut self, quads: &mut Quads, code: Word, state: Word) -> Word
        requires linked { IsLinked quads.old.store self.old }
        requires room { used quads.old.store < quads.old.room }
        ensures word { result ≡ Cap (used quads.old.store) }
        ensures effects { effects_of quads.new.store self.new ≡ with_effect (effects_of quads.old.store self.old)
            (Creates (record { actor = Cap (used quads.old.store); state = state; code = code })) }
        ensures linked { IsLinked quads.new.store self.new }
        ensures seen { seen quads.new.store ≡ grown (seen quads.old.store) (UnbornSlot ∷ []) }
        ensures frame { Framed quads.old.store quads.new.store (own_words (effects_of quads.old.store self.old)) }
        ensures room { quads.new.room ≡ quads.old.room }
    {
        let word = quads.take_actor(ActorCell {
            code,
            state,
            mark: Word::NIL,
        });
        set_mark(quads, self.created.last, word);
        self.created = self.created.with(word, quads);
        word
    }

    /// Gives an actor that this event created another behaviour. `NotFresh` where the event did not create it; then nothing changes.
    pub fn assign(
        &mut self,
        quads: &mut Quads,
        actor: Word,
        code: Word,
        state: Word,
    ) -> Result<(), NotFresh>
        requires linked { IsLinked quads.old.store self.old }
        ensures fresh { is_ok result ≡ has_created actor (effects_of quads.old.store self.old).created }
        ensures effects { OnOk result (effects_of quads.new.store self.new ≡ with_effect (effects_of quads.old.store self.old)
            (Assigns (record { actor = actor; state = state; code = code }))) }
        ensures refused { OnErr result ((quads.new ≡ quads.old) × (self.new ≡ self.old)) }
        ensures linked { IsLinked quads.new.store self.new }
        ensures seen { seen quads.new.store ≡ seen quads.old.store }
        ensures frame { Framed quads.old.store quads.new.store (own_words (effects_of quads.old.store self.old)) }
        ensures room { quads.new.room ≡ quads.old.room }
    {
        if !has_created(quads, &self.created, actor) {
            return Err(NotFresh);
        }
        set_behaviour(quads, actor, code, state);
        Ok(())
    }

    /// Gathers the next behaviour of the event's actor. `Twice` where one is gathered already; then nothing changes.
    pub fn become_with(&mut self, code: Word, state: Word) -> Result<(), Twice>
        ensures first { is_ok result ≡ is_none (next_of self.old) }
        ensures effects { OnOk result ((s : Store) → effects_of s self.new ≡ with_effect (effects_of s self.old)
            (Becomes (record { state = state; code = code }))) }
        ensures refused { OnErr result (self.new ≡ self.old) }
        ensures linked { (s : Store) → IsLinked s self.old → IsLinked s self.new }
    {
        if self.next.is_some() {
            return Err(Twice);
        }
        self.next = Some(Behaviour { code, state });
        Ok(())
    }

    /// The actor gets its gathered behaviour, if any, and is idle; both lists are handed out.
    ///
    /// The created actors are not idle yet: `make_idle` sees to that.
    pub fn commit(self, quads: &mut Quads, actor: Word) -> Released
        requires linked { IsLinked quads.old.store self }
        requires actor { IsSome (actor_at quads.old.store actor) }
        requires other { has_created actor (effects_of quads.old.store self).created ≡ false }
        ensures seen { IfSome (actor_at quads.old.store actor)
            (λ c. seen quads.new.store ≡ altered (seen quads.old.store) (cap_place actor) (actor_slot (idle_cell (next_of self) c))) }
        ensures sent { sent_from quads.new.store result.events result.first_event ≡ (effects_of quads.old.store self).sent }
        ensures created { made_from quads.new.store result.actors result.first_actor ≡ (effects_of quads.old.store self).created }
        ensures sent_linked { AreSent quads.new.store result.events result.first_event }
        ensures created_linked { AreMade quads.new.store result.actors result.first_actor }
        ensures frame { Framed quads.old.store quads.new.store (actor ∷ []) }
        ensures room { quads.new.room ≡ quads.old.room }
    {
        end_event(quads, actor, &self.next);
        Released {
            first_event: self.sent.first,
            events: self.sent.count,
            first_actor: self.created.first,
            actors: self.created.count,
        }
    }

    /// The actor is idle, and no other cell changes: all that was gathered is given up.
    pub fn drop_all(self, quads: &mut Quads, actor: Word)
        requires { IsSome (actor_at quads.old.store actor) }
        ensures seen { IfSome (actor_at quads.old.store actor)
            (λ c. seen quads.new.store ≡ altered (seen quads.old.store) (cap_place actor) (actor_slot (idle_cell None c))) }
        ensures frame { Framed quads.old.store quads.new.store (actor ∷ []) }
        ensures room { quads.new.room ≡ quads.old.room }
    {
        end_event(quads, actor, &None);
    }
}

// Makes an actor idle, with the gathered behaviour, if any.
fn end_event(quads: &mut Quads, actor: Word, next: &Option<Behaviour>)
    ensures { quads.new ≡ with_store quads.old (rewritten Tag.Actor (with_end (option_map behaviour next.now)) quads.old.store actor) }
{
    if let Some(cell) = quads.actor(actor) {
        quads.set_actor(actor, idle_cell(&cell, next));
    }
}

fn idle_cell(cell: &ActorCell, next: &Option<Behaviour>) -> ActorCell
    ensures { result ≡ idle_cell (option_map behaviour next.now) cell.now }
{
    match next {
        Some(b) => ActorCell {
            code: b.code,
            state: b.state,
            mark: Word::UNDEF,
        },
        None => ActorCell {
            mark: Word::UNDEF,
            ..*cell
        },
    }
}

// Whether the actor is in the list.
fn has_created(quads: &Quads, created: &Chain, actor: Word) -> bool
    ensures { result ≡ has_created actor (made_from quads.now.store created.now.count created.now.first) }
{
    let mut word = created.first;
    for _ in 0..created.count {
        if is_same(word, actor) {
            return true;
        }
        word = link_of(quads, word);
    }
    false
}
