// What a machine is given to spend.

ghost use Rattle.std.specs.Prelude.{◌≡◌, ◌≤◌, if◌then◌else◌, Some, None};
ghost use Rattle.vm_sponsor.specs.Grant.{is_grant};

use std::marker::Model;

/// What the root sponsor is given: at most 16,777,216 quads, 4,194,304 events and 1,073,741,823 cycles.
#[derive(Clone, Copy, PartialEq, Eq)]
pub struct Grant {
    memory: u32,
    events: u32,
    cycles: u32,
}

impl Model for Grant {
    ghost use Rattle.std.specs.Prelude.{IsTrue};
    ghost use Rattle.vm_sponsor.specs.declared.amounts.Amounts.{Amounts};
    ghost use Rattle.vm_sponsor.specs.Grant.{is_grant};

    ghost Value = { Amounts };

    ghost view = { λ g. record { memory = g.memory; events = g.events; cycles = g.cycles } };

    ghost invariant = { λ g. IsTrue (is_grant g.memory g.events g.cycles) };

    ghost inverse = { λ a. record { memory = a.memory; events = a.events; cycles = a.cycles } };
}

impl Grant {
    /// The grant of these amounts, or None where one of them is beyond its limit.
    pub fn new(memory: u32, events: u32, cycles: u32) -> Option<Grant>
        ensures { result ≡ (if is_grant memory events cycles then Some (record { memory = memory; events = events; cycles = cycles }) else None) }
    {
        if memory <= 16_777_216 && events <= 4_194_304 && cycles <= 1_073_741_823 {
            Some(Grant {
                memory,
                events,
                cycles,
            })
        } else {
            None
        }
    }

    /// The quads.
    pub fn memory(self) -> u32
        ensures value { result ≡ self.memory }
        ensures limit { result ≤ 16777216 }
    {
        self.memory
    }

    /// The events.
    pub fn events(self) -> u32
        ensures value { result ≡ self.events }
        ensures limit { result ≤ 4194304 }
    {
        self.events
    }

    /// The cycles.
    pub fn cycles(self) -> u32
        ensures value { result ≡ self.cycles }
        ensures limit { result ≤ 1073741823 }
    {
        self.cycles
    }
}
