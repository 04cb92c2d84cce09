//! Tokens.

ghost use Rattle.std.specs.Prelude.{IsTrue};
ghost use Rattle.hum_syntax.specs.Kinds.{is_carried};

use crate::keyword::Keyword;
use crate::word::{Name, Sym, Text};

/// What a token is, with what its bytes say.
#[derive(Debug, Drop)]
pub enum TokenKind {
    Number(i32),
    Keyword(Keyword),
    Wildcard,
    Undefined,
    Name(Name),
    Symbol(Sym),
    Text(Text),
    /// A parenthesis that stands directly after a name, `)` or `]`.
    CallParen,
    ParenLeft,
    ParenRight,
    SquareLeft,
    SquareRight,
    Comma,
    Dot,
    Equals,
    Colon,
    Dollar,
    Backslash,
}

/// A token, and the places of its first byte and of the byte after its last.
#[derive(Debug, Drop)]
pub struct Token {
    pub kind: TokenKind,
    pub from: u32,
    pub to: u32,
    /// A number is in range, and a name, a symbol and a text have their forms.
    pub ghost carried: { IsTrue (is_carried kind) },
}
