// Names of assembly and symbols.

ghost use Rattle.std.specs.Prelude.{◌≡◌, if◌then◌else◌, IsTrue, Some, None};
ghost use Rattle.std.specs.List.{list_all};
ghost use Rattle.cap_words.specs.Text.{is_name, is_visible};

use std::marker::Model;

/// A name: 1 to 128 bytes, each of them from 33 to 126.
#[derive(Drop)]
pub struct Name {
    bytes: Vec<u8>,
}

impl Model for Name {
    ghost use Rattle.std.specs.Prelude.{ℕ, List, IsTrue};
    ghost use Rattle.cap_words.specs.Text.{is_name};

    ghost Value = { List ℕ };

    ghost view = { λ n. n.bytes.items };

    ghost invariant = { λ n. IsTrue (is_name n.bytes.items) };
}

impl Name {
    /// The name of these bytes, where they are one.
    pub fn new(bytes: Vec<u8>) -> Option<Name>
        ensures { result ≡ (if is_name bytes.items then Some bytes.items else None) }
    {
        if is_name(&bytes) {
            Some(Name { bytes })
        } else {
            None
        }
    }

    /// The bytes.
    pub fn bytes(&self) -> &[u8]
        ensures value { result.now ≡ self.now }
        ensures is_name { IsTrue (is_name result.now) }
    {
        &self.bytes
    }
}

fn is_name(bytes: &[u8]) -> bool
    ensures { result ≡ is_name bytes.now }
{
    !bytes.is_empty() && bytes.len() <= 128 && are_visible(bytes)
}

fn are_visible(bytes: &[u8]) -> bool
    ensures { result ≡ list_all is_visible bytes.now }
{
    bytes.iter().all(|&byte| byte >= 33 && byte <= 126)
}
