// The queue: a row for each message, and the ready ones in order.

ghost use Rattle.std.specs.Prelude.{◌≡◌, ℕ, ◌+◌, ◌<◌, ◌≤◌, None, Some, [], ◌∷◌, length, slice_get, IfOk, IfSome, IfNone};
ghost use Rattle.std.specs.List.{Contains};
ghost use Rattle.event_queue.specs.Pending.{appended, without, first_from, walks_from, IsAscending};
ghost use Rattle.event_queue.specs.Starts.{first_ready, StartsFirst, NoneStarts};

use crate::start::can_start;
use cap_words::Word;
use quad_memory::Quads;
use std::alloc::{AllocError as NoMemory, Global};
use std::collections::VecDeque;
use std::marker::Model;

/// The messages of a machine, by number from 0 on, and which of them are ready, in the order of their numbers.
///
/// Room for the messages is made once; no later call takes memory. A message costs 8 bytes.
#[derive(Drop)]
pub struct Queue {
    events: Vec<Word>,
    ready: VecDeque<u32>,
    room: u32,
}

impl Model for Queue {
    ghost use Rattle.std.specs.Prelude.{◌≤◌, ◌<◌, ◌^◌, vec_len, vec_capacity};
    ghost use Rattle.std.specs.VecDeque.{deque_len, deque_capacity};
    ghost use Rattle.event_queue.specs.Pending.{Pending, IsAscending};

    ghost Value = { Pending };

    ghost view = { λ q. record { given = q.events.items; ready = q.ready.items; room = q.room } };

    ghost invariant = { λ q. (vec_len q.events ≤ q.room) × (deque_len q.ready ≤ vec_len q.events)
        × (q.room ≤ vec_capacity q.events) × (q.room ≤ deque_capacity q.ready)
        × IsAscending 0 (vec_len q.events) q.ready.items × (q.room < 2 ^ 32) };
}

impl Queue {
    /// No message yet, with room for so many.
    pub fn with_room(alloc: Global, messages: u32) -> Result<Queue, NoMemory>
        ensures { IfOk result (λ q. q ≡ record { given = []; ready = []; room = messages }) }
    {
        let events = Vec::with_capacity(alloc, messages as usize)?;
        let ready = VecDeque::with_capacity(alloc, messages as usize)?;
        Ok(Queue {
            events,
            ready,
            room: messages,
        })
    }

    /// Gives an event the next number, and gives that number. The message is ready.
    pub fn append(&mut self, event: Word) -> u32
        requires { length self.old.given < self.old.room }
        ensures number { result ≡ length self.old.given }
        ensures after { self.new ≡ appended self.old (event ∷ []) }
    {
        let number = self.events.len() as u32;
        match self.events.push(event) {
            Ok(()) => {}
            Err(_) => unreachable!(),
        }
        match self.ready.push_back(number) {
            Ok(()) => {}
            Err(_) => unreachable!(),
        }
        number
    }

    /// A message that is ready is so no more. The others keep their order.
    ///
    /// As many numbers move as there are ready ones before it, or after it where those are fewer.
    pub fn remove(&mut self, number: u32)
        requires { Contains self.old.ready number }
        ensures { self.new ≡ record self.old { ready = without number self.old.ready } }
    {
        let place = self.place_of(number);
        let _number = self.ready.remove(place);
    }

    /// How many messages were given a number.
    pub fn given(&self) -> u32
        ensures count { result ≡ length self.now.given }
        ensures room { result ≤ self.now.room }
        ensures ascending { IsAscending 0 result self.now.ready }
    {
        self.events.len() as u32
    }

    /// The event of a message, or None where the number was not given.
    pub fn event(&self, number: u32) -> Option<Word>
        ensures { result ≡ slice_get self.now.given number }
    {
        self.events.get(number as usize).copied()
    }

    /// The ready message that starts next: the one with the least number of those whose target is idle and whose sponsor runs.
    pub fn first_ready(&self, quads: &Quads) -> Option<u32>
        ensures value { result ≡ first_ready quads.now.store self.now.given self.now.ready }
        ensures first { IfSome result (λ n. StartsFirst quads.now.store self.now n) }
        ensures none { IfNone result (NoneStarts quads.now.store self.now) }
    {
        for place in 0..self.ready.len() {
            let number = self.ready[place];
            if can_start(quads, self.events[number as usize]) {
                return Some(number);
            }
        }
        None
    }

    /// Walks the ready numbers: the first one after a number, or the very first one, and None at the end.
    pub fn next_ready(&self, after: Option<u32>) -> Option<u32>
        ensures value { result ≡ first_from (walks_from after) self.now.ready }
        ensures begins { after ≡ None → result ≡ slice_get self.now.ready 0 }
        ensures goes_on { (place n : ℕ) → after ≡ Some n → slice_get self.now.ready place ≡ Some n →
            result ≡ slice_get self.now.ready (place + 1) }
    {
        self.ready.get(self.place_after(after)).copied()
    }

    // The place in the ready numbers where a walk goes on after a number.
    fn place_after(&self, after: Option<u32>) -> usize
        ensures { slice_get self.now.ready result ≡ first_from (walks_from after) self.now.ready }
    {
        let Some(number) = after else {
            return 0;
        };
        match self.ready.binary_search(&number) {
            Ok(place) => place + 1,
            Err(place) => place,
        }
    }

    // The place of a ready number. Mostly it is the first.
    fn place_of(&self, number: u32) -> usize
        requires { Contains self.now.ready number }
        ensures { slice_get self.now.ready result ≡ Some number }
    {
        if self.ready[0] == number {
            return 0;
        }
        match self.ready.binary_search(&number) {
            Ok(place) => place,
            Err(_) => unreachable!(),
        }
    }
}
