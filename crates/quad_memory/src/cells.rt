// What actors, events and sponsors hold.

ghost use Rattle.std.specs.Prelude.{◌≡◌, Some};
ghost use Rattle.quad_memory.specs.Cells.{actor_words, event_words, held_words, spent_words, actor_in, event_in, sponsor_in};

use cap_words::{Quad, Word};

/// What an actor's cell holds.
#[derive(Clone, Copy, PartialEq, Eq)]
pub struct ActorCell {
    /// The first instruction of its behaviour, or a device's number.
    pub code: Word,
    /// The data of its behaviour.
    pub state: Word,
    /// `#?` where it is idle, the number of its message where it is busy, and a link while its creation is not committed.
    pub mark: Word,
}

/// What an event's cell holds.
#[derive(Clone, Copy, PartialEq, Eq)]
pub struct EventCell {
    /// The sponsor that pays for the event.
    pub sponsor: Word,
    /// The actor that the message is for.
    pub target: Word,
    /// The content of the message.
    pub message: Word,
    /// A link to another event.
    pub next: Word,
}

/// What a sponsor's two cells hold. Amounts are fixnums.
#[derive(Clone, Copy, PartialEq, Eq)]
pub struct SponsorCell {
    /// `#?` where it is stopped; else `#nil` at the root, and an event to be released at the end.
    pub signal: Word,
    /// Quads that it holds.
    pub memory: Word,
    /// Events that it holds.
    pub events: Word,
    /// Cycles that it holds.
    pub cycles: Word,
    /// Quads that were spent under it.
    pub memory_spent: Word,
    /// Events that were spent under it.
    pub events_spent: Word,
    /// Cycles that were spent under it.
    pub cycles_spent: Word,
}

pub(crate) fn actor_quad(c: &ActorCell) -> Quad
    ensures { result ≡ actor_words c.now }
{
    Quad {
        t: Word::ACTOR_T,
        x: c.code,
        y: c.state,
        z: c.mark,
    }
}

pub(crate) fn event_quad(c: &EventCell) -> Quad
    ensures { result ≡ event_words c.now }
{
    Quad {
        t: c.sponsor,
        x: c.target,
        y: c.message,
        z: c.next,
    }
}

pub(crate) fn held_quad(c: &SponsorCell) -> Quad
    ensures { result ≡ held_words c.now }
{
    Quad {
        t: c.signal,
        x: c.memory,
        y: c.events,
        z: c.cycles,
    }
}

pub(crate) fn spent_quad(c: &SponsorCell) -> Quad
    ensures { result ≡ spent_words c.now }
{
    Quad {
        t: Word::SPONSOR_T,
        x: c.memory_spent,
        y: c.events_spent,
        z: c.cycles_spent,
    }
}

pub(crate) fn actor_in(q: &Quad) -> ActorCell
    ensures { result ≡ actor_in q.now }
{
    ActorCell {
        code: q.x,
        state: q.y,
        mark: q.z,
    }
}

pub(crate) fn event_in(q: &Quad) -> EventCell
    ensures { result ≡ event_in q.now }
{
    EventCell {
        sponsor: q.t,
        target: q.x,
        message: q.y,
        next: q.z,
    }
}

pub(crate) fn sponsor_in(held: &Quad, spent: &Quad) -> SponsorCell
    ensures { Some result ≡ sponsor_in (Some held.now) (Some spent.now) }
{
    SponsorCell {
        signal: held.t,
        memory: held.x,
        events: held.y,
        cycles: held.z,
        memory_spent: spent.x,
        events_spent: spent.y,
        cycles_spent: spent.z,
    }
}
