//! The tokens that are left to read.

ghost use Rattle.std.specs.Prelude.{◌≡◌, ◌↔◌, ◌∷◌, [], length, IsTrue, MatchOption, IfOk};
ghost use Rattle.hum_parse.specs.Input as spec;
ghost use Rattle.hum_parse.specs.Input.{Reads};
ghost use Rattle.hum_syntax.specs.Spells.{kinds};

use hum_syntax::{Keyword, Name, Token, TokenKind};
use std::alloc::{AllocError, Global};
use std::marker::Model;

/// A token that a rule asks for by name.
#[derive(Clone, Copy, Debug, PartialEq, Eq)]
pub enum Mark {
    To,
    With,
    Of,
    End,
    Elif,
    Else,
    CallParen,
    ParenRight,
    SquareLeft,
    SquareRight,
    Comma,
    Dot,
    Equals,
    Colon,
    Backslash,
}

/// Why there is no tree.
#[derive(Clone, Copy, Debug, PartialEq, Eq)]
pub enum Stop {
    NoMemory,
    /// No tree begins with the tokens that were read and the next one.
    Refused,
}

impl From<AllocError> for Stop {
    ghost use Rattle.std.specs.Prelude.{◌≡◌};
    ghost use Rattle.hum_parse.specs.declared.tokens.Stop.TheVariants.{NoMemory};

    ghost from_gives = { λ _ e. e ≡ NoMemory };

    fn from(_: AllocError) -> Stop {
        Stop::NoMemory
    }
}

// Whether the token is this one.
fn is(mark: Mark, kind: &TokenKind) -> bool
    ensures { result ≡ spec.is mark kind.now }
{
    match (mark, kind) {
        (Mark::To, TokenKind::Keyword(Keyword::KwTo)) => true,
        (Mark::With, TokenKind::Keyword(Keyword::KwWith)) => true,
        (Mark::Of, TokenKind::Keyword(Keyword::KwOf)) => true,
        (Mark::End, TokenKind::Keyword(Keyword::KwEnd)) => true,
        (Mark::Elif, TokenKind::Keyword(Keyword::KwElif)) => true,
        (Mark::Else, TokenKind::Keyword(Keyword::KwElse)) => true,
        (Mark::CallParen, TokenKind::CallParen) => true,
        (Mark::ParenRight, TokenKind::ParenRight) => true,
        (Mark::SquareLeft, TokenKind::SquareLeft) => true,
        (Mark::SquareRight, TokenKind::SquareRight) => true,
        (Mark::Comma, TokenKind::Comma) => true,
        (Mark::Dot, TokenKind::Dot) => true,
        (Mark::Equals, TokenKind::Equals) => true,
        (Mark::Colon, TokenKind::Colon) => true,
        (Mark::Backslash, TokenKind::Backslash) => true,
        _ => false,
    }
}

/// A cursor over tokens.
#[derive(Drop)]
pub struct Tokens<'a> {
    rest: &'a [Token],
}

impl<'a> Model for Tokens<'a> {
    ghost use Rattle.std.specs.Prelude.{List, map};
    ghost use Rattle.hum_syntax.specs.Spells.{Kinds};
    ghost use Rattle.hum_syntax.specs.declared.TokenKind.{TokenKind};

    ghost Value = { List TokenKind };

    ghost view = { λ t. map (λ x. x.kind) t.rest.now };
}

impl<'a> Tokens<'a> {
    /// A cursor at the first of these tokens.
    pub fn new(rest: &'a [Token]) -> Tokens<'a>
        ensures { result ≡ kinds rest.now }
    {
        Tokens { rest }
    }

    /// How many tokens are left.
    pub fn len(&self) -> usize
        ensures { result ≡ length self.now }
    {
        self.rest.len()
    }

    /// Whether no token is left.
    pub fn is_empty(&self) -> bool
        ensures { IsTrue result ↔ (self.now ≡ []) }
    {
        self.rest.is_empty()
    }

    /// The next token's kind.
    pub fn peek(&self) -> Option<&'a TokenKind>
        ensures { MatchOption result (self.now ≡ []) (λ kind. self.now ≡ kind.now ∷ spec.next self.now) }
    {
        match self.rest {
            [] => None,
            [first, ..] => Some(&first.kind),
        }
    }

    /// Takes the next token, if there is one.
    pub fn skip(&mut self)
        ensures { self.new ≡ spec.next self.old }
    {
        if let [_, rest @ ..] = self.rest {
            self.rest = rest;
        }
    }

    /// Whether this token comes next.
    pub fn sees(&self, mark: Mark) -> bool
        ensures { result ≡ spec.sees mark self.now }
    {
        match self.peek() {
            None => false,
            Some(kind) => is(mark, kind),
        }
    }

    /// Takes this token, if it comes next.
    pub fn eat(&mut self, mark: Mark) -> bool
        ensures found { result ≡ spec.sees mark self.old }
        ensures after { self.new ≡ spec.after mark self.old }
    {
        let found = self.sees(mark);
        if found {
            self.skip();
        }
        found
    }

    /// Takes this token. Where another comes next, or none, it is refused and nothing is taken.
    pub fn expect(&mut self, mark: Mark) -> Result<(), Stop>
        ensures { Reads (spec.expect mark self.old) result self.new }
    {
        if self.eat(mark) {
            Ok(())
        } else {
            Err(Stop::Refused)
        }
    }

    /// Takes a name, if one comes next.
    pub fn eat_name(&mut self, alloc: Global) -> Result<Option<Name>, AllocError>
        ensures name { IfOk result (λ name. name ≡ spec.named self.old) }
        ensures after { IfOk result (λ name. self.new ≡ spec.after_name self.old) }
    {
        let Some(TokenKind::Name(name)) = self.peek() else {
            return Ok(None);
        };
        let copy = name.copied(alloc)?;
        self.skip();
        Ok(Some(copy))
    }

    /// Takes a name. Where another token comes next, or none, it is refused and nothing is taken.
    pub fn expect_name(&mut self, alloc: Global) -> Result<Name, Stop>
        ensures { Reads (spec.expect_name self.old) result self.new }
    {
        let Some(TokenKind::Name(name)) = self.peek() else {
            return Err(Stop::Refused);
        };
        let copy = name.copied(alloc)?;
        self.skip();
        Ok(copy)
    }
}
