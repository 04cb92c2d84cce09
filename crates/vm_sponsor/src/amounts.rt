// Amounts of each kind, and the rows that hold them.

ghost use Rattle.std.specs.Prelude.{◌≡◌, ◌+◌, ◌^◌, ◌<◌};
ghost use Rattle.vm_sponsor.specs.Ledger.{of_kind, raised};

use cap_words::Word;
use instr_table::Quota;

/// How much there is of each kind.
#[derive(Clone, Copy, Debug, PartialEq, Eq)]
pub struct Amounts {
    /// Quads of RAM.
    pub memory: u64,
    /// Messages.
    pub events: u64,
    /// Instructions.
    pub cycles: u64,
}

/// A sponsor, and what it received, passed on, spent and holds.
#[derive(Clone, Copy, PartialEq, Eq)]
pub struct SheetRow {
    pub sponsor: Word,
    pub received: Amounts,
    pub passed: Amounts,
    pub spent: Amounts,
    pub held: Amounts,
}

/// What the sheet keeps of a sponsor beside its quads.
#[derive(Clone, Copy, PartialEq, Eq)]
pub(crate) struct Row {
    pub sponsor: Word,
    pub received: Amounts,
    pub passed: Amounts,
}

impl Amounts {
    pub(crate) const NONE: Amounts = Amounts {
        memory: 0,
        events: 0,
        cycles: 0,
    };

    // These amounts with more of one kind.
    pub(crate) fn raised(self, kind: Quota, n: u32) -> Amounts
        requires { of_kind kind self + n < 2 ^ 64 }
        ensures { result ≡ raised kind n self }
    {
        let more = u64::from(n);
        match kind {
            Quota::Memory => Amounts {
                memory: self.memory + more,
                ..self
            },
            Quota::Events => Amounts {
                events: self.events + more,
                ..self
            },
            Quota::Cycles => Amounts {
                cycles: self.cycles + more,
                ..self
            },
        }
    }
}
