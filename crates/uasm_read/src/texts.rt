//! Lines, their parts, and the names and numbers among them.

ghost use Rattle.std.specs.Prelude.{◌≡◌, ◌<◌, ◌≤◌, ◌^◌, ◌∷◌, [], length, IsTrue, IfOk, IfSome, MatchOption, Some, None, true, nat_le, if◌then◌else◌};
ghost use Rattle.std.specs.Char.{is_ascii_digit};
ghost use Rattle.std.specs.List.{list_all, prefix_len, before_first, slice_split};
ghost use Rattle.std.specs.Option.{option_map_or};
ghost use Rattle.uasm_read.specs.Texts as spec;
ghost use Rattle.uasm_read.specs.Reading as reading;
ghost use Rattle.uasm_read.specs.Writes.{part_at};

use cap_words::Name;
use std::alloc::{AllocError, Global};

/// Bytes that belong together.
#[derive(Clone, Copy, Debug, PartialEq, Eq)]
pub enum Class {
    /// Space and tab.
    Blank,
    /// All but these.
    Part,
    /// All but a semicolon.
    Code,
    /// All but a line feed.
    Line,
}

fn is_blank(b: u8) -> bool
    ensures { result ≡ spec.is_blank b }
{
    b == b' ' || b == b'\t'
}

fn is_in(class: Class, b: u8) -> bool
    ensures { result ≡ reading.is_in class b }
{
    match class {
        Class::Blank => is_blank(b),
        Class::Part => !is_blank(b),
        Class::Code => b != b';',
        Class::Line => b != b'\n',
    }
}

// How many bytes of the class stand at the front.
fn len_of(class: Class, bytes: &[u8]) -> usize
    ensures value { result ≡ prefix_len (reading.is_in class) bytes.now }
    ensures within { result ≤ length bytes.now }
{
    let mut rest = bytes;
    let mut len = 0;
    while let [b, more @ ..] = rest {
        if !is_in(class, *b) {
            break;
        }
        len += 1;
        rest = more;
    }
    len
}

/// The line in front, and what stands behind the line feed that ends it.
pub fn cut_line(text: &[u8]) -> (&[u8], Option<&[u8]>)
    ensures lines { slice_split spec.is_line_feed text.now
        ≡ result.0.now ∷ option_map_or (λ rest. slice_split spec.is_line_feed rest.now) result.1 [] }
    ensures shorter { IfSome result.1 (λ rest. length rest.now < length text.now) }
{
    let len = len_of(Class::Line, text);
    if len == text.len() {
        return (text, None);
    }
    (&text[..len], Some(&text[len + 1..]))
}

/// A line without the carriage return at its end.
pub fn without_return(line: &[u8]) -> &[u8]
    ensures { result.now ≡ spec.without_return line.now }
{
    if let [front @ .., b'\r'] = line {
        front
    } else {
        line
    }
}

/// Whether all bytes are ASCII.
pub fn are_ascii(line: &[u8]) -> bool
    ensures { result ≡ list_all spec.is_ascii line.now }
{
    for b in line {
        if *b >= 128 {
            return false;
        }
    }
    true
}

/// A line without its comment.
pub fn without_comment(line: &[u8]) -> &[u8]
    ensures { result.now ≡ before_first spec.is_semicolon line.now }
{
    &line[..len_of(Class::Code, line)]
}

/// The first part and what stands behind it.
#[tactic(auto, unfolding(crate::specs::Texts::parts_of))]
pub fn next_part(text: &[u8]) -> Option<(&[u8], &[u8])>
    ensures parts { MatchOption result (spec.parts_of text.now ≡ []) (λ parts. spec.parts_of text.now ≡ parts.0.now ∷ spec.parts_of parts.1.now) }
    ensures shorter { IfSome result (λ parts. length parts.1.now < length text.now) }
{
    let start = len_of(Class::Blank, text);
    if start == text.len() {
        return None;
    }
    let text = &text[start..];
    let end = len_of(Class::Part, text);
    Some(text.split_at(end))
}

fn is_letter(b: u8) -> bool
    ensures { result ≡ spec.is_letter b }
{
    (b >= b'a' && b <= b'z') || (b >= b'A' && b <= b'Z') || b == b'_'
}

fn are_name_bytes(bytes: &[u8]) -> bool
    ensures { result ≡ list_all spec.is_name_byte bytes.now }
{
    for b in bytes {
        if !is_letter(*b) && !b.is_ascii_digit() {
            return false;
        }
    }
    true
}

/// Whether the part is a name.
#[tactic(auto, unfolding(crate::specs::Texts::is_name))]
pub fn is_name(part: &[u8]) -> bool
    ensures { result ≡ spec.is_name part.now }
{
    let [first, rest @ ..] = part else {
        return false;
    };
    is_letter(*first) && are_name_bytes(rest) && part.len() <= 128
}

/// The name that the part is.
pub fn name_of(alloc: Global, part: &[u8]) -> Result<Option<Name>, AllocError>
    ensures { IfOk result (λ name. name ≡ (if spec.is_name part.now then Some part.now else None)) }
{
    if !is_name(part) {
        return Ok(None);
    }
    Ok(Name::new(Vec::from_slice(alloc, part)?))
}

fn digits_of(part: &[u8]) -> &[u8]
    ensures { result.now ≡ spec.digits_of part.now }
{
    match part {
        [b'-', digits @ ..] => digits,
        _ => part,
    }
}

fn are_digits(bytes: &[u8]) -> bool
    ensures { result ≡ list_all is_ascii_digit bytes.now }
{
    for b in bytes {
        if !b.is_ascii_digit() {
            return false;
        }
    }
    true
}

fn is_decimal(part: &[u8]) -> bool
    ensures { result ≡ spec.is_decimal part.now }
{
    let digits = digits_of(part);
    !digits.is_empty() && are_digits(digits) && part.len() <= 128
}

// What the digits say, if it is at most 2 to the 30.
fn value(digits: &[u8]) -> Option<u64>
    requires { list_all is_ascii_digit digits.now ≡ true }
    ensures { result ≡ reading.up_to_limit (spec.value_from 0 digits.now) }
{
    let mut sum: u64 = 0;
    for d in digits {
        sum = 10 * sum + (*d - b'0') as u64;
        if sum > 1073741824 {
            return None;
        }
    }
    Some(sum)
}

/// The number of the fixnum that the part is.
#[tactic(auto, unfolding(crate::specs::Texts::fixnum_of))]
pub fn fixnum_of(part: &[u8]) -> Option<i32>
    ensures { result ≡ spec.fixnum_of part.now }
{
    if !is_decimal(part) {
        return None;
    }
    let size = value(digits_of(part))? as i32;
    if let [b'-', ..] = part {
        return Some(-size);
    }
    if size == 1073741824 { None } else { Some(size) }
}

/// Which of some words the part is.
#[tactic(auto, unfolding(crate::specs::Texts::place_of))]
pub fn place_of(part: &[u8], words: &[u8]) -> Option<usize>
    ensures value { result ≡ spec.place_of part.now words.now }
    ensures below { IfSome result (λ k. k < length words.now) }
{
    let mut rest = words;
    let mut at = 0;
    while let Some((word, more)) = next_part(rest) {
        if part == word {
            return Some(at);
        }
        at += 1;
        rest = more;
    }
    None
}

/// The word at a place among some words, counted from 0, and nothing past the last one.
#[tactic(auto, unfolding(crate::specs::Writes::part_at))]
pub fn part_at(words: &[u8], place: usize) -> &[u8]
    ensures { result.now ≡ part_at words.now place }
{
    let mut rest = words;
    let mut left = place;
    while let Some((word, more)) = next_part(rest) {
        if left == 0 {
            return word;
        }
        left -= 1;
        rest = more;
    }
    &[]
}

/// How many words there are.
pub fn count_parts(words: &[u8]) -> usize
    ensures value { result ≡ length (spec.parts_of words.now) }
    ensures within { result ≤ length words.now }
{
    let mut rest = words;
    let mut count = 0;
    while let Some((_, more)) = next_part(rest) {
        count += 1;
        rest = more;
    }
    count
}
