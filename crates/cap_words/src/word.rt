// Tagged words of 32 bits, and quads of four.

ghost use Rattle.std.specs.Prelude.{◌≡◌, ◌<◌, ◌^◌, IsTrue, Some, None, if◌then◌else◌, IfSome};
ghost use Rattle.cap_words.specs.Fixnums.{in_range};
ghost use Rattle.cap_words.specs.Words.{Fix, Ram, Cap, bits_of, number_of, place_of, word_of, kind_of, is_rom_bits, same_word, truth};

use std::marker::Model;

/// What a word is.
#[derive(Clone, Copy, Debug, PartialEq, Eq)]
pub enum Kind {
    /// A number of 31 bits with a sign.
    Fix,
    /// One of the 16 constants.
    Const,
    /// The number of a ROM quad, from 16 on.
    Rom,
    /// The number of a RAM quad.
    Ram,
    /// The number of a RAM quad that no program may open: an actor, a sponsor or an event.
    Cap,
}

/// What a RAM quad was taken for. A sponsor takes two quads, of which the first one holds its balances.
#[derive(Clone, Copy, Debug, PartialEq, Eq)]
pub enum Tag {
    Ordinary,
    Actor,
    Event,
    SponsorHeld,
    SponsorSpent,
}

/// A word of 32 bits.
///
/// | bits | word |
/// |---|---|
/// | bit 31 is 1 | a fixnum, in two's complement in the low 31 bits |
/// | 31 to 29 are 0 | a ROM quad; the numbers 0 to 15 are the constants |
/// | 31 and 30 are 0, 29 is 1 | a RAM quad |
/// | 31 is 0, 30 and 29 are 1 | an opaque RAM quad |
/// | 31 is 0, 30 is 1, 29 is 0 | no word |
#[derive(Clone, Copy, PartialEq, Eq)]
pub struct Word {
    bits: u32,
}

impl Model for Word {
    ghost use Rattle.cap_words.specs.Words.{W, word_of, bits_of, IsWord};

    ghost Value = { W };

    ghost view = { λ w. word_of w.bits };

    ghost invariant = { λ w. IsWord w.bits };

    ghost inverse = { λ v. record { bits = bits_of v } };
}

impl Word {
    /// `#?`, the word of no value.
    pub const UNDEF: Word = Word { bits: 0 };
    /// `#nil`, the end of lists.
    pub const NIL: Word = Word { bits: 1 };
    /// `#f`.
    pub const FALSE: Word = Word { bits: 2 };
    /// `#t`.
    pub const TRUE: Word = Word { bits: 3 };
    /// `#type_t`, the type of types.
    pub const TYPE_T: Word = Word { bits: 4 };
    /// `#fixnum_t`, the type of fixnums.
    pub const FIXNUM_T: Word = Word { bits: 5 };
    /// `#actor_t`, the type of actors.
    pub const ACTOR_T: Word = Word { bits: 6 };
    /// `#sponsor_t`, the type of sponsors.
    pub const SPONSOR_T: Word = Word { bits: 7 };
    /// `#event_t`, the type of events.
    pub const EVENT_T: Word = Word { bits: 8 };
    /// `#instr_t`, the type of instructions.
    pub const INSTR_T: Word = Word { bits: 9 };
    /// `#pair_t`, the type of pairs.
    pub const PAIR_T: Word = Word { bits: 10 };
    /// `#dict_t`, the type of dictionary entries.
    pub const DICT_T: Word = Word { bits: 11 };
    /// `#deque_t`, the type of deques.
    pub const DEQUE_T: Word = Word { bits: 12 };
    /// `#symbol_t`, the type of symbols.
    pub const SYMBOL_T: Word = Word { bits: 13 };
    /// `#func_t`, the type of functions.
    pub const FUNC_T: Word = Word { bits: 14 };
    /// `#block_t`, the type of blocks.
    pub const BLOCK_T: Word = Word { bits: 15 };

    /// The word of a number, or None where it is outside -1073741824 to 1073741823.
    pub fn fix(n: i32) -> Option<Word>
        ensures { result ≡ (if in_range n then Some (Fix n) else None) }
    {
        if n < -0x4000_0000 || n > 0x3FFF_FFFF {
            return None;
        }
        Some(Word::number_word(n))
    }

    /// The word of a number in range.
    pub fn number_word(n: i32) -> Word
        requires { IsTrue (in_range n) }
        ensures { result ≡ Fix n }
    {
        if n < 0 {
            Word {
                bits: u32::MAX - (-1 - n) as u32,
            }
        } else {
            Word {
                bits: 0x8000_0000 + n as u32,
            }
        }
    }

    /// `#t` or `#f`.
    pub fn truth(holds: bool) -> Word
        ensures { result ≡ truth holds }
    {
        if holds { Word::TRUE } else { Word::FALSE }
    }

    /// The word with these bits, or None where they name RAM, are opaque or are no word.
    pub fn rom_bits(bits: u32) -> Option<Word>
        ensures { result ≡ (if is_rom_bits bits then Some (word_of bits) else None) }
    {
        if bits < 0x2000_0000 || bits >= 0x8000_0000 {
            Some(Word { bits })
        } else {
            None
        }
    }

    /// The word of the RAM quad of that number. For the memory of quads alone.
    pub fn ram(place: u32) -> Word
        requires { place < 2 ^ 29 }
        ensures { result ≡ Ram place }
    {
        Word {
            bits: 0x2000_0000 + place,
        }
    }

    /// The opaque word of the RAM quad of that number. For the memory of quads alone.
    pub fn cap(place: u32) -> Word
        requires { place < 2 ^ 29 }
        ensures { result ≡ Cap place }
    {
        Word {
            bits: 0x6000_0000 + place,
        }
    }

    /// The 32 bits.
    pub fn bits(self) -> u32
        ensures { result ≡ bits_of self }
    {
        self.bits
    }

    /// What the word is.
    pub fn kind(self) -> Kind
        ensures { result ≡ kind_of self }
    {
        if self.bits >= 0x8000_0000 {
            Kind::Fix
        } else if self.bits >= 0x6000_0000 {
            Kind::Cap
        } else if self.bits >= 0x2000_0000 {
            Kind::Ram
        } else if self.bits >= 16 {
            Kind::Rom
        } else {
            Kind::Const
        }
    }

    /// The number of a fixnum, or None where the word is none.
    pub fn number(self) -> Option<i32>
        ensures value { result ≡ number_of self }
        ensures in_range { IfSome result (λ n. IsTrue (in_range n)) }
    {
        if self.bits >= 0xC000_0000 {
            Some(-1 - (u32::MAX - self.bits) as i32)
        } else if self.bits >= 0x8000_0000 {
            Some((self.bits - 0x8000_0000) as i32)
        } else {
            None
        }
    }

    /// The number of the quad that the word names, or None where the word is a fixnum.
    pub fn place(self) -> Option<u32>
        ensures value { result ≡ place_of self }
        ensures below { IfSome result (λ n. n < 2 ^ 29) }
    {
        if self.bits >= 0x8000_0000 {
            None
        } else if self.bits >= 0x6000_0000 {
            Some(self.bits - 0x6000_0000)
        } else if self.bits >= 0x2000_0000 {
            Some(self.bits - 0x2000_0000)
        } else {
            Some(self.bits)
        }
    }
}

/// The four words of a cell. The first one is its type, but for a sponsor's first quad and an event.
#[derive(Clone, Copy, PartialEq, Eq)]
pub struct Quad {
    pub t: Word,
    pub x: Word,
    pub y: Word,
    pub z: Word,
}

/// Whether two words are the same.
pub fn is_same(a: Word, b: Word) -> bool
    ensures { result ≡ same_word a b }
{
    a == b
}
