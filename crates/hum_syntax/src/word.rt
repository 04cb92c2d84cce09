//! What names, symbols and texts hold.

ghost use Rattle.std.specs.Prelude.{◌≡◌, IsTrue, IfOk};
ghost use Rattle.hum_syntax.specs.Forms.{is_name, is_run, is_text};

use std::alloc::{AllocError, Global};
use std::marker::Model;

/// The bytes of a name: a run of at most 128 bytes that is no number, no keyword, no `_` and no `?`.
#[derive(Debug, Drop)]
pub struct Name {
    bytes: Vec<u8>,
}

impl Model for Name {
    ghost use Rattle.std.specs.Prelude.{List, ℕ, IsTrue};
    ghost use Rattle.hum_syntax.specs.Forms.{is_name};

    ghost Value = { List ℕ };

    ghost view = { λ n. n.bytes.items };

    ghost invariant = { λ n. IsTrue (is_name n.bytes.items) };
}

/// The bytes of a symbol's name: any run of at most 128 bytes.
#[derive(Debug, Drop)]
pub struct Sym {
    bytes: Vec<u8>,
}

impl Model for Sym {
    ghost use Rattle.std.specs.Prelude.{List, ℕ, IsTrue};
    ghost use Rattle.hum_syntax.specs.Forms.{is_run};

    ghost Value = { List ℕ };

    ghost view = { λ s. s.bytes.items };

    ghost invariant = { λ s. IsTrue (is_run s.bytes.items) };
}

/// The code points of a text: Unicode scalar values from 32 on, but 127, and those of the escapes.
#[derive(Debug, Drop)]
pub struct Text {
    points: Vec<char>,
}

impl Model for Text {
    ghost use Rattle.std.specs.Prelude.{List, ℕ, IsTrue};
    ghost use Rattle.hum_syntax.specs.Forms.{is_text};

    ghost Value = { List ℕ };

    ghost view = { λ t. t.points.items };

    ghost invariant = { λ t. IsTrue (is_text t.points.items) };
}

impl Name {
    /// The name of these bytes.
    pub fn from_bytes(bytes: Vec<u8>) -> Name
        requires { IsTrue (is_name bytes.items) }
        ensures { result ≡ bytes.items }
    {
        Name { bytes }
    }

    /// The bytes, which have the form of a name.
    pub fn as_bytes(&self) -> &[u8]
        ensures bytes { result.now ≡ self.now }
        ensures form { IsTrue (is_name self.now) }
    {
        self.bytes.as_slice()
    }

    /// The same again.
    pub fn copied(&self, alloc: Global) -> Result<Name, AllocError>
        ensures { IfOk result (λ copy. copy ≡ self.now) }
    {
        Ok(Name {
            bytes: Vec::from_slice(alloc, self.bytes.as_slice())?,
        })
    }
}

impl Sym {
    /// The symbol of these bytes.
    pub fn from_bytes(bytes: Vec<u8>) -> Sym
        requires { IsTrue (is_run bytes.items) }
        ensures { result ≡ bytes.items }
    {
        Sym { bytes }
    }

    /// The bytes of the symbol's name.
    pub fn as_bytes(&self) -> &[u8]
        ensures bytes { result.now ≡ self.now }
        ensures form { IsTrue (is_run self.now) }
    {
        self.bytes.as_slice()
    }

    /// The same again.
    pub fn copied(&self, alloc: Global) -> Result<Sym, AllocError>
        ensures { IfOk result (λ copy. copy ≡ self.now) }
    {
        Ok(Sym {
            bytes: Vec::from_slice(alloc, self.bytes.as_slice())?,
        })
    }
}

impl Text {
    /// The text of these code points.
    pub fn from_points(points: Vec<char>) -> Text
        requires { IsTrue (is_text points.items) }
        ensures { result ≡ points.items }
    {
        Text { points }
    }

    /// The code points of the text.
    pub fn as_points(&self) -> &[char]
        ensures points { result.now ≡ self.now }
        ensures form { IsTrue (is_text self.now) }
    {
        self.points.as_slice()
    }

    /// The same again.
    pub fn copied(&self, alloc: Global) -> Result<Text, AllocError>
        ensures { IfOk result (λ copy. copy ≡ self.now) }
    {
        Ok(Text {
            points: Vec::from_slice(alloc, self.points.as_slice())?,
        })
    }
}
