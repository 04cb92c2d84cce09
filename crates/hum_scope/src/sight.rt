// What is bound where a part of a tree stands, and the slots of names.

ghost use Rattle.std.specs.Prelude.{◌≡◌, ◌-◌, ◌≤◌, ◌∷◌, [], map, length, drop, Option, Some, None, OnOk, IfOk, IfSome, MatchOption};
ghost use Rattle.hum_meaning.specs.Named.{Name};
ghost use Rattle.hum_core.specs.Alike.{Marked, One, Many, with_marks};
ghost use Rattle.hum_core.specs.Agreement as agreement;
ghost use Rattle.hum_core.specs.Agreement.{slot_of};
ghost use Rattle.hum_core.specs.Units.{Scope, slot_or_newest};
ghost use Rattle.hum_scope.specs.Entries.{marked};

use crate::entry::Entry;
use crate::names::Names;
use hum_core::Slot;
use std::alloc::{AllocError, Global};
use std::marker::Model;

/// The entries of an environment. To contracts the newest is the first.
#[derive(Drop)]
pub struct Sight<'a> {
    // the oldest first
    entries: Vec<Entry<'a>>,
}

impl<'a> Model for Sight<'a> {
    ghost use Rattle.std.specs.Prelude.{List, map, reverse};
    ghost use Rattle.hum_core.specs.Alike.{Marked};
    ghost use Rattle.hum_meaning.specs.Named.{Name};
    ghost use Rattle.hum_scope.specs.Entries.{marked};

    ghost Value = { List (Marked Name) };

    ghost view = { λ s. reverse (map marked s.entries.items) };
}

// The place of a name in a group.
fn place(names: &[&[u8]], name: &[u8]) -> Option<usize>
    ensures { result ≡ agreement.place (map (λ n. n.now) names.now) name.now }
{
    for (i, member) in names.iter().enumerate() {
        if *member == name {
            return Some(i);
        }
    }
    None
}

// The slot of a name where an entry is the newest, and the slot among the others is known.
fn nearer(entry: &Entry<'_>, found: Option<Slot>, name: &[u8]) -> Result<Option<Slot>, AllocError>
    ensures { IfOk result (λ slot. (others : Scope) → slot_of others name.now ≡ found → slot ≡ slot_of (marked entry.now ∷ others) name.now) }
{
    match entry {
        Entry::One(each) => {
            if *each == name {
                return Ok(Some(Slot {
                    back: 0,
                    member: None,
                }));
            }
        }
        Entry::Many(names) => {
            if let Some(at) = place(names.as_slice(), name) {
                return Ok(Some(Slot {
                    back: 0,
                    member: Some(u32::try_from(at).map_err(|_| AllocError)?),
                }));
            }
        }
    }
    further(found)
}

// One entry further back.
fn further(found: Option<Slot>) -> Result<Option<Slot>, AllocError>
    ensures { IfOk result (λ slot. slot ≡ agreement.further found) }
{
    match found {
        None => Ok(None),
        Some(slot) => {
            if slot.back == u32::MAX {
                return Err(AllocError);
            }
            Ok(Some(Slot {
                back: slot.back + 1,
                member: slot.member,
            }))
        }
    }
}

impl<'a> Sight<'a> {
    /// No entries.
    pub fn new(alloc: Global) -> Sight<'a>
        ensures { result ≡ [] }
    {
        Sight {
            entries: Vec::new(alloc),
        }
    }

    /// How many entries there are.
    pub fn len(&self) -> usize
        ensures { result ≡ length self.now }
    {
        self.entries.len()
    }

    /// One entry more, of one name.
    pub fn bind(&mut self, name: &'a [u8]) -> Result<(), AllocError>
        ensures { OnOk result (self.new ≡ One name.now ∷ self.old) }
    {
        self.entries.push(Entry::One(name))?;
        Ok(())
    }

    /// An entry more for each of the names.
    pub fn bind_all(&mut self, names: &Names<'a>) -> Result<(), AllocError>
        ensures { OnOk result (self.new ≡ with_marks names.now self.old) }
    {
        let names = names.as_slice();
        for name in names {
            self.bind(name)?;
        }
        Ok(())
    }

    /// One entry more, of a group of functions.
    pub fn bind_group(&mut self, alloc: Global, names: &[&'a [u8]]) -> Result<(), AllocError>
        ensures { OnOk result (self.new ≡ Many (map (λ n. n.now) names.now) ∷ self.old) }
    {
        let names = Vec::from_slice(alloc, names)?;
        self.entries.push(Entry::Many(names))?;
        Ok(())
    }

    /// The `len` oldest entries alone.
    pub fn truncate(&mut self, len: usize)
        requires { len ≤ length self.old }
        ensures { self.new ≡ drop (length self.old - len) self.old }
    {
        self.entries.truncate(len);
    }

    /// The slot of a name: of the newest entry that has it. Where none has it, it is that of the newest entry.
    pub fn slot(&self, name: &[u8]) -> Result<Slot, AllocError>
        ensures { IfOk result (λ slot. slot ≡ slot_or_newest (slot_of self.now name.now)) }
    {
        let mut found = None;
        let entries = self.entries.as_slice();
        for entry in entries {
            found = nearer(entry, found, name)?;
        }
        match found {
            Some(slot) => Ok(slot),
            None => Ok(Slot {
                back: 0,
                member: None,
            }),
        }
    }
}
