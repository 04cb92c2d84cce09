//! A text that grows by tokens.

ghost use Rattle.std.specs.Prelude.{◌≡◌, ◌++◌, [], OnOk};
ghost use Rattle.hum_syntax.specs.Forms.{point_bytes, text_bytes};
ghost use Rattle.hum_syntax.specs.declared.token.TokenKind.TheVariants as kinds;
ghost use Rattle.hum_syntax.specs.Writes.{blank_behind, with_token};

use crate::keyword::Keyword;
use crate::token::TokenKind;
use crate::word::{Name, Sym, Text};
use itoa::Buffer;
use std::alloc::{AllocError, Global};
use std::marker::Model;

/// The bytes so far.
#[derive(Drop)]
pub struct Writer {
    bytes: Vec<u8>,
}

impl Model for Writer {
    ghost use Rattle.std.specs.Prelude.{List, ℕ};

    ghost Value = { List ℕ };

    ghost view = { λ w. w.bytes.items };
}

impl Writer {
    pub fn new(alloc: Global) -> Writer
        ensures { result ≡ [] }
    {
        Writer {
            bytes: Vec::new(alloc),
        }
    }

    pub fn into_bytes(self) -> Vec<u8>
        ensures { result.items ≡ self }
    {
        self.bytes
    }

    fn blank(&mut self) -> Result<(), AllocError>
        ensures { OnOk result (self.new ≡ self.old ++ blank_behind self.old) }
    {
        if !self.bytes.is_empty() {
            self.bytes.push(b' ')?;
        }
        Ok(())
    }

    // A token's bytes, behind a blank.
    fn word(&mut self, bytes: &[u8]) -> Result<(), AllocError>
        ensures { OnOk result (self.new ≡ self.old ++ blank_behind self.old ++ bytes.now) }
    {
        self.blank()?;
        self.bytes.extend_from_slice(bytes)
    }

    fn point(&mut self, c: char) -> Result<(), AllocError>
        ensures { OnOk result (self.new ≡ self.old ++ point_bytes c) }
    {
        match c {
            '\n' => self.bytes.extend_from_slice(b"\\n"),
            '\t' => self.bytes.extend_from_slice(b"\\t"),
            '"' => self.bytes.extend_from_slice(b"\\\""),
            '\\' => self.bytes.extend_from_slice(b"\\\\"),
            _ => {
                let mut buffer = [0; 4];
                self.bytes
                    .extend_from_slice(c.encode_utf8(&mut buffer).as_bytes())
            }
        }
    }

    fn points(&mut self, points: &[char]) -> Result<(), AllocError>
        ensures { OnOk result (self.new ≡ self.old ++ text_bytes points.now) }
    {
        let mut rest = points;
        while let [c, more @ ..] = rest {
            self.point(*c)?;
            rest = more;
        }
        Ok(())
    }

    pub fn number(&mut self, z: i32) -> Result<(), AllocError>
        ensures { OnOk result (self.new ≡ with_token self.old (kinds.Number z)) }
    {
        let mut buffer = Buffer::new();
        self.word(buffer.format(z).as_bytes())
    }

    pub fn keyword(&mut self, keyword: Keyword) -> Result<(), AllocError>
        ensures { OnOk result (self.new ≡ with_token self.old (kinds.Keyword keyword)) }
    {
        self.word(keyword.word())
    }

    pub fn name(&mut self, name: &Name) -> Result<(), AllocError>
        ensures { OnOk result (self.new ≡ with_token self.old (kinds.Name name.now)) }
    {
        self.word(name.as_bytes())
    }

    pub fn symbol(&mut self, symbol: &Sym) -> Result<(), AllocError>
        ensures { OnOk result (self.new ≡ with_token self.old (kinds.Symbol symbol.now)) }
    {
        self.word(b"#")?;
        self.bytes.extend_from_slice(symbol.as_bytes())
    }

    pub fn text(&mut self, text: &Text) -> Result<(), AllocError>
        ensures { OnOk result (self.new ≡ with_token self.old (kinds.Text text.now)) }
    {
        self.word(b"\"")?;
        self.points(text.as_points())?;
        self.bytes.extend_from_slice(b"\"")
    }

    pub fn token(&mut self, kind: &TokenKind) -> Result<(), AllocError>
        ensures { OnOk result (self.new ≡ with_token self.old kind.now) }
    {
        match kind {
            TokenKind::Number(z) => self.number(*z),
            TokenKind::Keyword(keyword) => self.keyword(*keyword),
            TokenKind::Wildcard => self.word(b"_"),
            TokenKind::Undefined => self.word(b"?"),
            TokenKind::Name(name) => self.name(name),
            TokenKind::Symbol(symbol) => self.symbol(symbol),
            TokenKind::Text(text) => self.text(text),
            TokenKind::CallParen => self.bytes.extend_from_slice(b"("),
            TokenKind::ParenLeft => self.word(b"("),
            TokenKind::ParenRight => self.word(b")"),
            TokenKind::SquareLeft => self.word(b"["),
            TokenKind::SquareRight => self.word(b"]"),
            TokenKind::Comma => self.word(b","),
            TokenKind::Dot => self.word(b"."),
            TokenKind::Equals => self.word(b"="),
            TokenKind::Colon => self.word(b":"),
            TokenKind::Dollar => self.word(b"$"),
            TokenKind::Backslash => self.word(b"\\"),
        }
    }
}
