// What a program can tell of a word.

ghost use Rattle.std.specs.Prelude.{◌≡◌, Some, None};
ghost use Rattle.cap_words.specs.Words.{number_of};
ghost use Rattle.cap_words.specs.Seen.{seen, cell_seen};
ghost use Rattle.instr_table.specs.Types.{is_actor, is_sponsor, type_of, plain_type, is_type, is_arity, is_type_cell, is_own_type, is_makeable};
ghost use Rattle.vm_step.specs.Whole.{AreWhole};

use crate::taking::cell;
use cap_words::{Kind, Quad, Word, is_same};
use quad_memory::Quads;

// Whether a word names an actor.
#[tactic(auto, using(crate::proofs::Typing::typing))]
pub(crate) fn is_actor(quads: &Quads, w: Word) -> bool
    ensures { result ≡ is_actor (seen quads.now.store) w }
{
    quads.actor(w).is_some()
}

// Whether a word names a sponsor.
pub(crate) fn is_sponsor(quads: &Quads, w: Word) -> bool
    requires { AreWhole quads.now.store }
    ensures { result ≡ is_sponsor (seen quads.now.store) w }
{
    quads.sponsor(w).is_some()
}

// Whether a word is of that type.
pub(crate) fn is_of_type(quads: &Quads, w: Word, t: Word) -> bool
    requires { AreWhole quads.now.store }
    ensures { result ≡ is_type (type_of (seen quads.now.store) w) t }
{
    match type_of(quads, w) {
        Some(u) => is_same(u, t),
        None => false,
    }
}

// The type of a word.
fn type_of(quads: &Quads, w: Word) -> Option<Word>
    requires { AreWhole quads.now.store }
    ensures { result ≡ type_of (seen quads.now.store) w }
{
    match cell(quads, w) {
        Some(q) => Some(q.t),
        None => unread_type(quads, w),
    }
}

// The type of a word that names no readable cell.
fn unread_type(quads: &Quads, w: Word) -> Option<Word>
    requires whole { AreWhole quads.now.store }
    requires unread { cell_seen (seen quads.now.store) w ≡ None }
    ensures { result ≡ type_of (seen quads.now.store) w }
{
    if is_actor(quads, w) {
        return Some(Word::ACTOR_T);
    }
    if is_sponsor(quads, w) {
        return Some(Word::SPONSOR_T);
    }
    plain_type(w)
}

// The type of a word that names nothing.
fn plain_type(w: Word) -> Option<Word>
    ensures { result ≡ plain_type w }
{
    match (w.kind(), w.place()) {
        (Kind::Fix, _) => Some(Word::FIXNUM_T),
        (Kind::Const, Some(n)) => if n < 4 { None } else { Some(Word::TYPE_T) },
        _ => None,
    }
}

// Whether `quad` makes cells of that type.
pub(crate) fn is_makeable(quads: &Quads, t: Word) -> bool
    ensures { result ≡ is_makeable (seen quads.now.store) t }
{
    is_same(t, Word::FUNC_T) || is_same(t, Word::BLOCK_T) || is_own_type(quads, t)
}

// Whether a word is a type of the program's own.
fn is_own_type(quads: &Quads, w: Word) -> bool
    ensures { result ≡ is_own_type (seen quads.now.store) w }
{
    match w.kind() {
        Kind::Const | Kind::Rom => match cell(quads, w) {
            Some(q) => is_type_cell(&q),
            None => false,
        },
        _ => false,
    }
}

// Whether a cell has a number of fields and nothing else.
fn is_type_cell(q: &Quad) -> bool
    ensures { result ≡ is_type_cell (Some q.now) }
{
    is_same(q.t, Word::TYPE_T)
        && is_arity(q.x)
        && is_same(q.y, Word::UNDEF)
        && is_same(q.z, Word::UNDEF)
}

// Whether a word is a number of fields.
fn is_arity(w: Word) -> bool
    ensures { result ≡ is_arity (number_of w) }
{
    match w.number() {
        Some(n) => 0 <= n && n <= 3,
        None => false,
    }
}
