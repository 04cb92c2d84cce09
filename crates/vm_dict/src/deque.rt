// Deques.

ghost use Rattle.std.specs.Prelude.{◌≡◌, ◌≤◌, length};
ghost use Rattle.cap_words.specs.Seen.{seen};
ghost use Rattle.instr_table.specs.Lists.{items};
ghost use Rattle.instr_table.specs.Deque.{ends, deque_len};
ghost use Rattle.vm_dict.specs.Made.{Takes, HasRoom};
ghost use Rattle.vm_dict.specs.Calls.{new_in, pushed_in, put_in, from_front, from_back, popped_in, pulled_in, taking_in, turned_in};
ghost use Rattle.vm_dict.specs.Ends.{IsEnds, IsRest};

use crate::cells::{LONGEST, cell, pair, take_deque, take_pair};
use cap_words::{Word, is_same};
use quad_memory::Quads;

/// A deque after a value was taken from it.
#[derive(Clone, Copy, PartialEq, Eq)]
pub struct Taken {
    pub deque: Word,
    pub value: Word,
}

// The first words of a deque's two lists.
#[derive(Clone, Copy)]
pub(crate) struct Lists {
    pub front: Word,
    pub back: Word,
}

// A value that was taken from one end, and the two lists after it.
#[derive(Clone, Copy)]
struct Rest {
    value: Word,
    near: Word,
    far: Word,
}

// The lists of a deque; a word that is none has two empty ones.
pub(crate) fn lists_of(quads: &Quads, deque: Word) -> Lists
    ensures { IsEnds result (ends (seen quads.now.store) deque) }
{
    match cell(quads, deque) {
        Some(q) => {
            if is_same(q.t, Word::DEQUE_T) {
                Lists {
                    front: q.x,
                    back: q.y,
                }
            } else {
                NO_LISTS
            }
        }
        None => NO_LISTS,
    }
}

const NO_LISTS: Lists = Lists {
    front: Word::NIL,
    back: Word::NIL,
};

// How many items a list has.
pub(crate) fn item_count(quads: &Quads, list: Word) -> u32
    ensures count { result ≡ length (items (seen quads.now.store) list) }
    ensures bound { result ≤ 4095 }
{
    let mut at = list;
    for count in 0..LONGEST {
        match pair(quads, at) {
            Some(q) => at = q.y,
            None => return count,
        }
    }
    LONGEST
}

/// How many items a deque has: at most 8,190, since each of its two lists counts as its first 4,095 cells.
pub fn deque_len(quads: &Quads, deque: Word) -> u32
    ensures value { result ≡ deque_len (seen quads.now.store) deque }
    ensures bound { result ≤ 8190 }
{
    let lists = lists_of(quads, deque);
    item_count(quads, lists.front) + item_count(quads, lists.back)
}

/// An empty deque.
pub fn deque_new(quads: &mut Quads) -> Word
    requires { HasRoom quads.old (new_in quads.old).cells }
    ensures cells { Takes quads.old quads.new (new_in quads.old).cells }
    ensures word { result ≡ (new_in quads.old).word }
{
    take_deque(quads, Word::NIL, Word::NIL)
}

/// Puts a value at the front.
pub fn deque_push(quads: &mut Quads, deque: Word, value: Word) -> Word
    requires { HasRoom quads.old (pushed_in quads.old deque value).cells }
    ensures cells { Takes quads.old quads.new (pushed_in quads.old deque value).cells }
    ensures word { result ≡ (pushed_in quads.old deque value).word }
{
    let lists = lists_of(quads, deque);
    let front = take_pair(quads, value, lists.front);
    take_deque(quads, front, lists.back)
}

/// Puts a value at the back.
pub fn deque_put(quads: &mut Quads, deque: Word, value: Word) -> Word
    requires { HasRoom quads.old (put_in quads.old deque value).cells }
    ensures cells { Takes quads.old quads.new (put_in quads.old deque value).cells }
    ensures word { result ≡ (put_in quads.old deque value).word }
{
    let lists = lists_of(quads, deque);
    let back = take_pair(quads, value, lists.back);
    take_deque(quads, lists.front, back)
}

/// Takes the value at the front, `#?` where the deque is empty. Where the front list has none, the back list is turned round first.
pub fn deque_pop(quads: &mut Quads, deque: Word) -> Taken
    requires { HasRoom quads.old (popped_in quads.old deque).cells }
    ensures cells { Takes quads.old quads.new (popped_in quads.old deque).cells }
    ensures deque { result.deque ≡ (popped_in quads.old deque).word }
    ensures value { result.value ≡ (from_front quads.old deque).value }
{
    let lists = lists_of(quads, deque);
    let rest = take_end(quads, lists.front, lists.back);
    Taken {
        deque: take_deque(quads, rest.near, rest.far),
        value: rest.value,
    }
}

/// Takes the value at the back, `#?` where the deque is empty. Where the back list has none, the front list is turned round first.
pub fn deque_pull(quads: &mut Quads, deque: Word) -> Taken
    requires { HasRoom quads.old (pulled_in quads.old deque).cells }
    ensures cells { Takes quads.old quads.new (pulled_in quads.old deque).cells }
    ensures deque { result.deque ≡ (pulled_in quads.old deque).word }
    ensures value { result.value ≡ (from_back quads.old deque).value }
{
    let lists = lists_of(quads, deque);
    let rest = take_end(quads, lists.back, lists.front);
    Taken {
        deque: take_deque(quads, rest.far, rest.near),
        value: rest.value,
    }
}

// Takes the first value of the near list, or, where it has none, the last one of the far list, which is turned round.
fn take_end(quads: &mut Quads, near: Word, far: Word) -> Rest
    requires { HasRoom quads.old (taking_in quads.old near far).cells }
    ensures cells { Takes quads.old quads.new (taking_in quads.old near far).cells }
    ensures rest { IsRest result (taking_in quads.old near far) }
{
    match pair(quads, near) {
        Some(q) => Rest {
            value: q.x,
            near: q.y,
            far,
        },
        None => turn(quads, far),
    }
}

// Turns a list round and takes the first value of the new one. The items are counted before any quad is taken, so that a list which ends
// in a word of no quad yet does not go on into the new cells.
fn turn(quads: &mut Quads, far: Word) -> Rest
    requires { HasRoom quads.old (turned_in quads.old far).cells }
    ensures cells { Takes quads.old quads.new (turned_in quads.old far).cells }
    ensures rest { IsRest result (turned_in quads.old far) }
{
    let count = item_count(quads, far);
    let mut at = far;
    let mut list = Word::NIL;
    let mut near = Word::NIL;
    let mut value = Word::UNDEF;
    for i in 0..count {
        let _turned = i;
        match pair(quads, at) {
            Some(q) => {
                at = q.y;
                value = q.x;
                near = list;
                list = take_pair(quads, q.x, list);
            }
            None => unreachable!(),
        }
    }
    Rest {
        value,
        near,
        far: Word::NIL,
    }
}
