// Comparison and arithmetic on words.

ghost use Rattle.std.specs.Prelude.{◌≡◌, ◌^◌, ◌<◌, IsTrue};
ghost use Rattle.cap_words.specs.Fixnums.{in_range};
ghost use Rattle.cap_words.specs.Words.{truth};
ghost use Rattle.instr_table.specs.Arithmetic.{falsy, order, compared, low_bits, of_low_bits, on_numbers, calculated, alu, complement};

use cap_words::{Kind, Word, is_same, wrap_add, wrap_mul, wrap_sub};

// Whether a word is `#f`, `#?`, `#nil` or 0.
pub(crate) fn falsy(w: Word) -> bool
    ensures { result ≡ falsy w }
{
    match (w.kind(), w.place(), w.number()) {
        (Kind::Fix, _, Some(n)) => n == 0,
        (Kind::Const, Some(n), _) => n < 3,
        _ => false,
    }
}

// A comparison of two words, by its number.
pub(crate) fn compared(k: &i32, v: Word, w: Word) -> Word
    ensures { result ≡ compared k.now v w }
{
    if *k == 0 {
        Word::truth(is_same(v, w))
    } else if *k == 5 {
        Word::truth(!is_same(v, w))
    } else {
        ordered(k, v, w)
    }
}

// A comparison of two numbers, `#?` where one word is none.
fn ordered(k: &i32, v: Word, w: Word) -> Word
    ensures { result ≡ on_numbers (λ n m. truth (order k.now n m)) v w }
{
    match (v.number(), w.number()) {
        (Some(n), Some(m)) => Word::truth(in_order(k, n, m)),
        _ => Word::UNDEF,
    }
}

// ge, gt, lt or le, by its number from 1 on.
fn in_order(k: &i32, n: i32, m: i32) -> bool
    ensures { result ≡ order k.now n m }
{
    match *k {
        1 => n >= m,
        2 => n > m,
        3 => n < m,
        _ => n <= m,
    }
}

// A calculation on two words, by its number from 1 on.
pub(crate) fn alu(k: &i32, v: Word, w: Word) -> Word
    ensures { result ≡ alu k.now v w }
{
    match (v.number(), w.number()) {
        (Some(n), Some(m)) => Word::number_word(calculated(k, n, m)),
        _ => Word::UNDEF,
    }
}

// The complement of a number.
pub(crate) fn complement(w: Word) -> Word
    ensures { result ≡ complement w }
{
    match w.number() {
        Some(n) => Word::number_word(-1 - n),
        None => Word::UNDEF,
    }
}

// and, or, xor, add, sub or mul, by its number from 1 on.
#[tactic(auto, using(crate::proofs::Casts::casts))]
fn calculated(k: &i32, n: i32, m: i32) -> i32
    requires n_in { IsTrue (in_range n) }
    requires m_in { IsTrue (in_range m) }
    ensures value { result ≡ calculated k.now n m }
    ensures in_range { IsTrue (in_range result) }
{
    if *k == 1 {
        of_low_bits(low_bits(n) & low_bits(m))
    } else if *k == 2 {
        of_low_bits(low_bits(n) | low_bits(m))
    } else if *k == 3 {
        of_low_bits(low_bits(n) ^ low_bits(m))
    } else if *k == 4 {
        wrap_add(n, m)
    } else if *k == 5 {
        wrap_sub(n, m)
    } else {
        wrap_mul(n, m)
    }
}

// The 31 bits of a number, in two's complement.
fn low_bits(n: i32) -> u32
    requires { IsTrue (in_range n) }
    ensures value { result ≡ low_bits n }
    ensures below { result < 2 ^ 31 }
{
    if n < 0 {
        0x7FFF_FFFF - (-1 - n) as u32
    } else {
        n as u32
    }
}

// The number that has these 31 bits.
fn of_low_bits(b: u32) -> i32
    requires { b < 2 ^ 31 }
    ensures value { result ≡ of_low_bits b }
    ensures in_range { IsTrue (in_range result) }
{
    if b < 0x4000_0000 {
        b as i32
    } else {
        -1 - (0x7FFF_FFFF - b) as i32
    }
}
