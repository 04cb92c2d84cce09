// Lists of pairs.

ghost use Rattle.std.specs.Prelude.{◌≡◌};
ghost use Rattle.cap_words.specs.Seen.{seen, cell_seen};
ghost use Rattle.instr_table.specs.Lists.{head_in, tail_in, tail_after, nth};

use crate::taking::{cell, size};
use cap_words::{Word, is_same};
use quad_memory::Quads;

// The head of a pair, `#?` of anything else.
pub(crate) fn head(quads: &Quads, w: Word) -> Word
    ensures { result ≡ head_in (cell_seen (seen quads.now.store) w) }
{
    match cell(quads, w) {
        Some(q) => if is_same(q.t, Word::PAIR_T) {
            q.x
        } else {
            Word::UNDEF
        },
        None => Word::UNDEF,
    }
}

// The tail of a pair, `#?` of anything else.
pub(crate) fn tail(quads: &Quads, w: Word) -> Word
    ensures { result ≡ tail_in (cell_seen (seen quads.now.store) w) }
{
    match cell(quads, w) {
        Some(q) => if is_same(q.t, Word::PAIR_T) {
            q.y
        } else {
            Word::UNDEF
        },
        None => Word::UNDEF,
    }
}

// What is left of a list after n items.
pub(crate) fn tail_after(quads: &Quads, n: u32, w: Word) -> Word
    ensures { result ≡ tail_after (seen quads.now.store) n w }
{
    let mut at = w;
    for i in 0..n {
        let _turn = i;
        at = tail(quads, at);
    }
    at
}

// The n-th item of a list; below 0 the tail after that many; at 0 the list.
pub(crate) fn nth(quads: &Quads, n: &i32, w: Word) -> Word
    ensures { result ≡ nth (seen quads.now.store) n.now w }
{
    if *n == 0 {
        w
    } else if *n > 0 {
        head(quads, tail_after(quads, size(n) - 1, w))
    } else {
        tail_after(quads, size(n), w)
    }
}
