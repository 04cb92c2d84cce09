// The statements of a block, with the groups of its stretches.

ghost use Rattle.std.specs.Prelude.{◌≡◌, ◌∷◌, ◌++◌, [], List, ℕ, true, false, OnOk, IfOk};
ghost use Rattle.hum_scope.specs.Walks.{OfFunction, shown, groups};
ghost use Rattle.hum_scope.specs.Bodies.{so_far, added};

use crate::binding::Binding;
use hum_core::CoreStmt;
use sqlite_items::Items;
use std::alloc::{AllocError, Global};
use std::mem;

/// The statements of a block up to one of them. The group of a stretch that is open has no place in `closed` before all its units are known.
#[derive(Drop)]
pub struct Body {
    pub alloc: Global,
    pub closed: Items<CoreStmt>,
    /// Whether a stretch with a group is open.
    pub grouped: bool,
    /// The units of its functions so far.
    pub group: Items<u32>,
    /// The statements behind its first function.
    pub behind: Items<CoreStmt>,
}

impl Body {
    /// No statements.
    pub fn new(alloc: Global) -> Body
        ensures closed { result.closed ≡ [] }
        ensures grouped { result.grouped ≡ false }
    {
        Body {
            alloc,
            closed: Items::new(alloc),
            grouped: false,
            group: Items::new(alloc),
            behind: Items::new(alloc),
        }
    }

    // Begins a stretch with its first function.
    fn open(&mut self, number: u32) -> Result<(), AllocError>
        requires { self.old.grouped ≡ false }
        ensures grouped { OnOk result (self.new.grouped ≡ true) }
        ensures closed { OnOk result (self.new.closed ≡ self.old.closed) }
        ensures group { OnOk result (self.new.group ≡ number ∷ []) }
        ensures behind { OnOk result (self.new.behind ≡ []) }
    {
        self.grouped = true;
        self.group = Items::new(self.alloc);
        self.behind = Items::new(self.alloc);
        self.group.push(number)
    }

    // Ends the stretch that is open, if there is one.
    fn close(&mut self) -> Result<(), AllocError>
        ensures grouped { OnOk result (self.new.grouped ≡ false) }
        ensures closed { OnOk result (self.new.closed ≡ so_far self.old []) }
    {
        if self.grouped {
            let group = mem::replace(&mut self.group, Items::new(self.alloc));
            let behind = mem::replace(&mut self.behind, Items::new(self.alloc));
            self.closed.push(CoreStmt::Group(group))?;
            self.closed.append(behind)?;
            self.grouped = false;
        }
        Ok(())
    }

    // One statement more, of the stretch that is open, if there is one.
    fn push(&mut self, made: CoreStmt) -> Result<(), AllocError>
        ensures grouped { OnOk result (self.new.grouped ≡ self.old.grouped) }
        ensures body { OnOk result ((later : List ℕ) → so_far self.new later ≡ so_far self.old later ++ made ∷ []) }
    {
        if self.grouped {
            self.behind.push(made)
        } else {
            self.closed.push(made)
        }
    }

    // The definition of a function, whose unit has that number.
    fn function(&mut self, number: u32, made: CoreStmt) -> Result<(), AllocError>
        ensures grouped { OnOk result (self.new.grouped ≡ true) }
        ensures body { OnOk result ((later : List ℕ) → so_far self.new later ≡ added (OfFunction []) self.old.grouped number made (so_far self.old) later) }
    {
        if self.grouped {
            self.group.push(number)?;
            self.push(made)
        } else {
            self.open(number)
        }
    }

    // A statement behind which names of values come to sight.
    fn values(&mut self, made: CoreStmt) -> Result<(), AllocError>
        ensures grouped { OnOk result (self.new.grouped ≡ false) }
        ensures body { OnOk result ((later : List ℕ) → so_far self.new later ≡ so_far self.old [] ++ made ∷ []) }
    {
        self.close()?;
        self.push(made)
    }

    /// One statement more. Where it defines a function, the function's unit has that number.
    pub fn add(
        &mut self,
        binding: &Binding<'_>,
        number: u32,
        made: CoreStmt,
    ) -> Result<(), AllocError>
        ensures grouped { OnOk result (self.new.grouped ≡ groups (shown binding.now) self.old.grouped) }
        ensures body { OnOk result ((later : List ℕ) → so_far self.new later ≡ added (shown binding.now) self.old.grouped number made (so_far self.old) later) }
    {
        match binding {
            Binding::Function(_) => self.function(number, made),
            Binding::Values => self.values(made),
            Binding::Nothing => self.push(made),
        }
    }

    /// All the statements, where none is to come.
    pub fn finish(self) -> Result<Items<CoreStmt>, AllocError>
        ensures { IfOk result (λ made. made ≡ so_far self []) }
    {
        let mut body = self;
        body.close()?;
        let Body { closed, .. } = body;
        Ok(closed)
    }
}
