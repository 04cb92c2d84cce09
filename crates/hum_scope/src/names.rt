// Names, the newest first.

ghost use Rattle.std.specs.Prelude.{◌≡◌, ◌-◌, ◌≤◌, ◌∷◌, ◌++◌, [], length, map, reverse, take, drop, OnOk};
ghost use Rattle.hum_meaning.specs.Scope as spec;

use std::alloc::{AllocError, Global};
use std::marker::Model;

/// Names of a tree. To contracts the newest is the first.
#[derive(Drop)]
pub struct Names<'a> {
    // the oldest first
    names: Vec<&'a [u8]>,
}

impl<'a> Model for Names<'a> {
    ghost use Rattle.std.specs.Prelude.{List, ℕ, map, reverse};

    ghost Value = { List (List ℕ) };

    ghost view = { λ n. reverse (map (λ x. x.now) n.names.items) };
}

impl<'a> Names<'a> {
    /// No names.
    pub fn new(alloc: Global) -> Names<'a>
        ensures { result ≡ [] }
    {
        Names {
            names: Vec::new(alloc),
        }
    }

    /// The names, the oldest first.
    pub fn as_slice(&self) -> &[&'a [u8]]
        ensures { reverse (map (λ n. n.now) result.now) ≡ self.now }
    {
        self.names.as_slice()
    }

    /// How many names there are.
    pub fn len(&self) -> usize
        ensures { result ≡ length self.now }
    {
        self.names.len()
    }

    /// Whether this is one of the names.
    #[tactic(auto, using(crate::proofs::NameLists::any_turned))]
    pub fn has(&self, name: &[u8]) -> bool
        ensures { result ≡ spec.has self.now name.now }
    {
        let mut rest: &[&'a [u8]] = self.names.as_slice();
        while let [first, more @ ..] = rest {
            if name == *first {
                return true;
            }
            rest = more;
        }
        false
    }

    /// One name more.
    pub fn push(&mut self, name: &'a [u8]) -> Result<(), AllocError>
        ensures { OnOk result (self.new ≡ name.now ∷ self.old) }
    {
        self.names.push(name)?;
        Ok(())
    }

    /// The names of a list that are newer than its `from` oldest ones, as the newest here.
    pub fn extend(&mut self, names: &Names<'a>, from: usize) -> Result<(), AllocError>
        requires { from ≤ length names.now }
        ensures { OnOk result (self.new ≡ take (length names.now - from) names.now ++ self.old) }
    {
        self.names.extend_from_slice(&names.names[from..])
    }

    /// The `len` oldest names alone.
    pub fn truncate(&mut self, len: usize)
        requires { len ≤ length self.old }
        ensures { self.new ≡ drop (length self.old - len) self.old }
    {
        self.names.truncate(len);
    }
}
