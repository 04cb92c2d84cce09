// The operations.

use cap_words::Word;

/// An operation with its operand, where it has one: a word, or a number in the range of its row.
///
/// The stack's top is on the right, and a pop from an empty stack gives `#?`. Every operation costs one cycle, each new or moved item
/// a quad. The constants' names stand for their words; `#f`, `#?`, `#nil` and 0 are falsy. Where an operation has several faults, the
/// operand on top is tested first.
#[derive(Clone, Copy, PartialEq, Eq)]
pub enum Op {
    /// `push V`: `-- V`. 1 quad.
    Push(Word),
    /// `dup N`, 0 to 15: `vN .. v1 -- vN .. v1 vN .. v1`. N quads.
    Dup(i32),
    /// `drop N`, 0 to 4095: `vN .. v1 --`. No quads.
    Drop(i32),
    /// `pick N`, 1 to 4095: `vN .. v1 -- vN .. v1 vN`. 1 quad.
    Pick(i32),
    /// `roll N`, 1 to 15 or -15 to -1: `vN .. v1 -- .. v1 vN`, the N-th item to the top; below 0 the top to place -N. The size of N
    /// in quads.
    Roll(i32),
    /// `depth`: `-- n`, the number of items. 1 quad.
    Depth,
    /// `pair N`, 1 to 15: `t vN .. v1 -- list`, of v1 to vN and then t. N + 1 quads.
    Pair(i32),
    /// `part N`, 1 to 15: `list -- t vN .. v1`, `#?` beyond pairs. N + 1 quads.
    Part(i32),
    /// `nth N`, -4095 to 4095: `list -- v`, the N-th item; below 0 the tail after -N items; at 0 the list; `#?` beyond pairs. 1 quad.
    Nth(i32),
    /// `quad N`, 1 to 4: `z .. x T -- cell`, of N words; `#?` where T is neither `#func_t` nor `#block_t` nor an own type, which is a ROM
    /// cell of `#type_t`, a number from 0 to 3, `#?` and `#?`. 2 quads.
    QuadMake(i32),
    /// `quad N`, -4 to -1: `q -- .. x T`, its first -N words; `#?` for each where q is not readable. -N quads.
    QuadTake(i32),
    /// `get N`, 0 to 3: `q -- v`, its word N; `#?` where q is not readable. 1 quad.
    Get(i32),
    /// `typeq T`: `v -- truth`, whether v is of the type T: a fixnum is of `#fixnum_t`, constants from 4 on and own types are of
    /// `#type_t`, an actor's word is of `#actor_t`, a sponsor's of `#sponsor_t`, and a readable cell of its first word. 1 quad.
    Typeq(Word),
    /// `eq V`: `v -- truth`, whether v is the word V. 1 quad.
    Eq(Word),
    /// `cmp eq, ge, gt, lt, le, ne` (0 to 5): `n m -- truth`, n compared with m; but for `eq` and `ne` `#?` where one is no fixnum.
    /// 1 quad.
    Cmp(i32),
    /// `alu not`: `n -- complement`; `#?` for no fixnum. 1 quad.
    AluNot,
    /// `alu and, or, xor, add, sub, mul` (1 to 6): `n m -- result`, wrapped; `#?` where one is no fixnum. 1 quad.
    Alu(i32),
    /// `if L`: `v --`, goes on at L, or at the next where v is falsy. No quads.
    If(Word),
    /// `jump`: `k --`, goes on at k. No quads.
    Jump,
    /// `msg N`, -4095 to 4095: `-- v`, `nth N` of the message. 1 quad.
    Msg(i32),
    /// `state N`, -4095 to 4095: `-- v`, `nth N` of the actor's state. 1 quad.
    State(i32),
    /// `my self, beh, state` (0 to 2): `-- v`, the actor, its code or its state. 1 quad.
    My(i32),
    /// `actor send`: `message target --`. 1 quad and 1 event. Fault 3 where the target is no actor.
    ActorSend,
    /// `actor post`: `message target sponsor --`. 1 quad and 1 event. Fault 19 where the sponsor is none, 3 where the target is no actor.
    ActorPost,
    /// `actor create`: `state code -- actor`. 2 quads.
    ActorCreate,
    /// `actor assign`: `state code actor --`. No quads. Fault 18 where this event did not create the actor.
    ActorAssign,
    /// `actor become`: `state code --`. No quads. Fault 6 where the event gathered a behaviour before.
    ActorBecome,
    /// `end abort, stop, commit` (-1, 0, 1): abort is `reason --`, and fails with it; stop fails with 21. No quads.
    End(i32),
    /// `dict has, get` (0, 1): `dict key -- v`, whether the key is there, or its value or `#?`. A word that is no dictionary acts as an
    /// empty one; a list of more than 4,095 cells counts as its first 4,095. 1 quad.
    DictTest(i32),
    /// `dict add, set` (2, 3): `dict key value -- dict`. `add` puts an entry in front, 2 quads. `set` replaces the first entry with the
    /// key and copies the i before it, i + 2 quads, or adds. A word that is no dictionary acts as an empty one, and stays as the
    /// tail; a list of more than 4,095 cells counts as its first 4,095.
    DictPut(i32),
    /// `dict del`: `dict key -- dict`. Removes the first entry with the key and copies the i before it, i + 1 quads; 1 quad where there
    /// is none. A word that is no dictionary acts as an empty one, and is left as it is; a list of more than 4,095 cells counts as its
    /// first 4,095.
    DictDel,
    /// `deque new`: `-- deque`. 2 quads.
    DequeNew,
    /// `deque empty, len` (1, 6): `deque -- v`, whether it is empty, or how many items it has. A word that is no deque acts as an empty
    /// one; a list of more than 4,095 cells counts as its first 4,095. 1 quad.
    DequeTest(i32),
    /// `deque push, put` (2, 4): `deque value -- deque`, at the front, at the back. A word that is no deque acts as an empty one. 3 quads.
    DequePut(i32),
    /// `deque pop, pull` (3, 5): `deque -- deque value`, from the front, from the back; `#?` where it is empty. 3 quads, and 1 for each
    /// item of the list that is turned round. A word that is no deque acts as an empty one; a list of more than 4,095 cells that is
    /// turned round counts as its first 4,095; a list turned round ends with `#nil`.
    DequeTake(i32),
    /// `sponsor new`: `-- sponsor`, 3 quads; or `-- #?` where 65,536 exist, 1 quad.
    SponsorNew,
    /// `sponsor memory, events, cycles` (1 to 3): `sponsor n -- sponsor`, grants n from the running event's sponsor. No quads. Fault 20
    /// where n is no number from 0 to what is held, looked at after this instruction is paid; 19 where the sponsor is none.
    SponsorGrant(i32),
    /// `sponsor reclaim`: `sponsor -- sponsor`, all that it holds goes to the running event's sponsor. No quads. Fault 19 where it is
    /// none.
    SponsorReclaim,
    /// `sponsor start`: `sponsor controller --`, with a signal to the controller under the running event's sponsor. 1 quad and 1 event.
    /// Fault 3 where the controller is no actor, 19 where the sponsor is none, 22 where it is running.
    SponsorStart,
    /// `sponsor stop`: `sponsor -- sponsor`, stops it and drops its signal; nothing changes where it is stopped. No quads. Fault 19 where
    /// it is none.
    SponsorStop,
    /// `assert V`: `v --`. No quads. Fault 17 where v is not V.
    Assert(Word),
    /// `debug`: nothing. No quads.
    Debug,
}
