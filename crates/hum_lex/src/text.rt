//! What stands between the quotes of a text.

ghost use Rattle.std.specs.Prelude.{◌≡◌, ◌≢◌, ◌<◌, ◌∷◌, length, slice_index, IfOk, IfSome, MatchOption, false};
ghost use Rattle.hum_syntax.specs.Forms as forms;
ghost use Rattle.hum_lex.specs.Fronts as spec;
ghost use Rattle.hum_lex.specs.Fronts.{IsPointAt, ReadsText};
ghost use Rattle.hum_lex.specs.Faults.{BeginsNoPoint};

use bstr::decode_utf8;
use hum_syntax::Text;
use std::alloc::{AllocError, Global};

/// How many bytes stand before the quote that ends a text, from behind its opening quote on.
pub fn inside_len(bytes: &[u8]) -> Option<usize>
    ensures value { result ≡ spec.closing false bytes.now }
    ensures within { IfSome result (λ len. len < length bytes.now) }
{
    let mut rest = bytes;
    let mut len = 0;
    let mut taken = false;
    while let [b, more @ ..] = rest {
        if !taken && *b == b'"' {
            return Some(len);
        }
        taken = !taken && *b == b'\\';
        len += 1;
        rest = more;
    }
    None
}

fn escaped(b: u8) -> Option<char>
    ensures { result ≡ spec.escaped b }
{
    match b {
        b'n' => Some('\n'),
        b't' => Some('\t'),
        b'"' => Some('"'),
        b'\\' => Some('\\'),
        _ => None,
    }
}

// A code point that a text writes in UTF-8.
fn is_plain(c: char) -> bool
    ensures { result ≡ spec.is_plain c }
{
    ' ' <= c && c != '\u{7F}' && c != '"' && c != '\\'
}

// The code point behind a `\`, and how many bytes it takes with it.
fn escape(rest: &[u8]) -> Option<(char, usize)>
    ensures { MatchOption result (BeginsNoPoint (92 ∷ rest.now)) (λ found. IsPointAt (92 ∷ rest.now) found.0 found.1) }
{
    let [b, ..] = rest else {
        return None;
    };
    Some((escaped(*b)?, 2))
}

// The code point in UTF-8 at the front, and how many bytes it takes.
fn plain(bytes: &[u8]) -> Option<(char, usize)>
    requires { slice_index bytes.now 0 ≢ 92 }
    ensures { MatchOption result (BeginsNoPoint bytes.now) (λ found. IsPointAt bytes.now found.0 found.1) }
{
    match decode_utf8(bytes) {
        (Some(c), len) => if is_plain(c) { Some((c, len)) } else { None },
        (None, _) => None,
    }
}

// The code point whose form stands at the front, and how many bytes it takes.
fn point(bytes: &[u8]) -> Option<(char, usize)>
    requires { 0 < length bytes.now }
    ensures { MatchOption result (BeginsNoPoint bytes.now) (λ found. IsPointAt bytes.now found.0 found.1) }
{
    if bytes[0] == b'\\' {
        escape(&bytes[1..])
    } else {
        plain(bytes)
    }
}

/// What stands between two quotes.
pub enum Inside {
    Text(Text),
    /// So many bytes further on, a byte begins no form of a code point.
    Bad(usize),
}

/// The text that stands between two quotes.
pub fn inside_of(alloc: Global, bytes: &[u8]) -> Result<Inside, AllocError>
    ensures { IfOk result (ReadsText bytes.now) }
{
    let mut points = Vec::new(alloc);
    let mut at = 0;
    while at < bytes.len() {
        match point(&bytes[at..]) {
            None => return Ok(Inside::Bad(at)),
            Some((c, len)) => {
                points.push(c)?;
                at += len;
            }
        }
    }
    Ok(Inside::Text(Text::from_points(points)))
}
