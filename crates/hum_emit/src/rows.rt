// The entries of many shapes, which share those that they have alike.

ghost use Rattle.std.specs.Prelude.{◌≡◌, ◌++◌, ◌∷◌, ◌≤◌, [], length, map, OnOk, IfOk};
ghost use Rattle.hum_emit.specs.Shaping.{kind_of};
ghost use Rattle.hum_emit.specs.Rowing.{IsTop, shape_at};

use crate::shape::{Entry, Shape};
use std::alloc::{AllocError as NoMemory, Global};
use std::marker::Model;

/// An entry, and the number of the one behind it. Entries have the numbers from 1 on, and behind the last there is 0.
#[derive(Clone, Copy, Debug)]
pub struct Row<'a> {
    pub behind: usize,
    pub entry: Entry<'a>,
}

/// Entries, each with the number of the one behind it. To contracts the shapes that begin with them, in the order of their numbers.
#[derive(Drop)]
pub struct Rows<'a> {
    rows: Vec<Row<'a>>,
}

impl<'a> Model for Rows<'a> {
    ghost use Rattle.std.specs.Prelude.{List};
    ghost use Rattle.hum_code.specs.Layout.{Shape};
    ghost use Rattle.hum_emit.specs.Rowing.{shapes_in};

    ghost Value = { List Shape };

    ghost view = { λ r. shapes_in r.rows.items };
}

impl<'a> Rows<'a> {
    /// No entries.
    #[tactic(auto, unfolding(crate::specs::Rowing::shapes_in))]
    pub fn new(alloc: Global) -> Rows<'a>
        ensures { result ≡ [] }
    {
        Rows {
            rows: Vec::new(alloc),
        }
    }

    /// One entry more, in front of those from that one on; its number.
    pub fn enter(&mut self, top: usize, entry: Entry<'a>) -> Result<usize, NoMemory>
        requires { top ≤ length self.old }
        ensures rows { OnOk result (self.new ≡ self.old ++ (kind_of entry.entry ∷ shape_at self.old top) ∷ []) }
        ensures top { IfOk result (λ at. IsTop self.new at (kind_of entry.entry ∷ shape_at self.old top)) }
    {
        self.rows.push(Row { behind: top, entry })?;
        Ok(self.rows.len())
    }

    // The entries from that one on, the newest first.
    fn entries_from(&self, alloc: Global, top: usize) -> Result<Vec<Entry<'a>>, NoMemory>
        ensures { IfOk result (λ entries. map kind_of entries.items ≡ shape_at self.now top) }
    {
        let mut entries = Vec::new(alloc);
        let mut next = top;
        while next != 0 && next <= self.rows.len() {
            let row = self.rows[next - 1];
            entries.push(row.entry)?;
            // each entry names an earlier one, so this comes to an end
            if row.behind >= next {
                return Ok(entries);
            }
            next = row.behind;
        }
        Ok(entries)
    }

    /// Makes the shape the one that begins with that entry.
    pub fn fill(&self, alloc: Global, top: usize, shape: &mut Shape<'a>) -> Result<(), NoMemory>
        ensures { OnOk result (shape.new ≡ shape_at self.now top) }
    {
        let entries = self.entries_from(alloc, top)?;
        let count = entries.len();
        shape.truncate(0);
        for i in 0..count {
            shape.push(entries[count - 1 - i])?;
        }
        Ok(())
    }
}
