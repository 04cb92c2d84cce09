// Lines, columns and places in a text.

ghost use Rattle.std.specs.Prelude.{◌≡◌, ◌<◌, ◌≤◌, ◌+◌, ◌^◌, length};
ghost use Rattle.hum_syntax.specs.Forms.{Bytes};
ghost use Rattle.hum_syntax.specs.Places as spec;
ghost use Rattle.hum_syntax.specs.Places.{NameAt};
ghost use Rattle.hum_syntax.specs.Tokens.{all_placed};
ghost use Rattle.hum_front.specs.Accepted.{IsScopeRefusal};
ghost use Rattle.hum_scope.specs.declared.refusal.ScopeRefused.{ScopeRefused};

use hum_lex::{Class, len_of};
use hum_syntax::{Token, TokenKind};

/// A line and a column, both counted from 1.
#[derive(Clone, Copy, Debug, PartialEq, Eq)]
pub struct LineColumn {
    pub line: usize,
    /// In bytes.
    pub column: usize,
}

// The place behind some bytes.
fn place_behind(front: &[u8]) -> LineColumn
    ensures place { (result.line, result.column) ≡ spec.place_behind front.now }
    ensures within { result.column ≤ length front.now + 1 }
{
    let mut line = 1;
    let mut column = 1;
    for byte in front {
        if *byte == b'\n' {
            line += 1;
            column = 1;
        } else {
            column += 1;
        }
    }
    LineColumn { line, column }
}

/// The line and the column of a byte of a text. The end of the text, and whatever is behind it, is one column behind the last byte.
pub fn line_column(bytes: &[u8], at: usize) -> LineColumn
    ensures { (result.line, result.column) ≡ spec.line_column bytes.now at }
{
    if bytes.is_empty() {
        return LineColumn { line: 1, column: 1 };
    }
    if at < bytes.len() {
        return place_behind(&bytes[..at]);
    }
    let last = place_behind(&bytes[..bytes.len() - 1]);
    LineColumn {
        line: last.line,
        column: last.column + 1,
    }
}

/// The name that stands at a byte of a text: all bytes from there on that belong to one run.
pub fn name_at(bytes: &[u8], at: usize) -> &[u8]
    ensures name { (name : Bytes) → NameAt bytes.now at name → result.now ≡ name }

    // At the place of a scope refusal it is the name that is refused.
    ensures refused { (why : ScopeRefused) (name : Bytes) → IsScopeRefusal bytes.now why name → why.at ≡ at → result.now ≡ name }
{
    if at > bytes.len() {
        return &bytes[..0];
    }
    let rest = &bytes[at..];
    &rest[..len_of(Class::Run, rest)]
}

/// The first byte of the token of that number, or the end of the text where there is none.
pub fn token_place(bytes: &[u8], tokens: &[Token], n: u32) -> u32
    requires { length bytes.now < 2 ^ 32 }
    ensures { result ≡ spec.token_place bytes.now (all_placed tokens.now) n }
{
    match tokens.get(n as usize) {
        Some(token) => token.from,
        None => bytes.len() as u32,
    }
}

fn is_name(kind: &TokenKind) -> bool
    ensures { result ≡ spec.is_name_kind kind.now }
{
    matches!(kind, TokenKind::Name(_))
}

/// The first byte of the name of that number among the tokens.
pub fn name_place(tokens: &[Token], n: u32) -> Option<u32>
    ensures { result ≡ spec.name_place (all_placed tokens.now) n }
{
    let mut rest = tokens;
    let mut left = n;
    while let [token, more @ ..] = rest {
        if is_name(&token.kind) {
            if left == 0 {
                return Some(token.from);
            }
            left -= 1;
        }
        rest = more;
    }
    None
}
