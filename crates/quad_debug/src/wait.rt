// What turns are taken for.

ghost use Rattle.std.specs.Prelude.{◌≡◌, ◌≤◌, length, take, drop, false};
ghost use Rattle.quad_debug.specs.Obeys as spec;
ghost use Rattle.quad_debug.specs.Parts.{stands_in};

use vm_machine::Machine;
use vm_turn::Entry;

/// What turns are taken for.
#[derive(Clone, Copy, Debug, PartialEq, Eq)]
pub enum Wait {
    /// That the journal has so many entries.
    Entries(usize),
    /// That a message is in flight, or its event ended.
    Message(u32),
}

// Whether an event of that message ended.
fn has_ended(message: u32, entries: &[Entry]) -> bool
    ensures { result ≡ spec.has_ended message entries.now }
{
    entries.iter().any(|entry| entry.message == message)
}

/// The entries from a place on.
pub fn entries_from(entries: &[Entry], place: usize) -> &[Entry]
    requires { place ≤ length entries.now }
    ensures { result.now ≡ drop place entries.now }
{
    &entries[place..]
}

/// Whether the journal shows that it has come. In its first `seen` entries the message does not stand.
pub fn is_over(wait: Wait, journal: &[Entry], seen: usize) -> bool
    requires within { seen ≤ length journal.now }
    requires unseen { stands_in wait (take seen journal.now) ≡ false }
    ensures { result ≡ spec.is_over wait journal.now }
{
    match wait {
        Wait::Entries(count) => count <= journal.len(),
        Wait::Message(message) => has_ended(message, entries_from(journal, seen)),
    }
}

/// Whether the message is in flight.
pub fn is_begun(wait: Wait, machine: &Machine) -> bool
    ensures { result ≡ spec.is_begun wait machine.now.state.flight }
{
    match wait {
        Wait::Entries(_) => false,
        Wait::Message(message) => machine.in_flight(message),
    }
}
