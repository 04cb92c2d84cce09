// What a sponsor's quads hold, and what they hold after a payment or a transfer.

ghost use Rattle.std.specs.Prelude.{◌≡◌, ◌+◌, ◌-◌, ◌≤◌, None, pos};
ghost use Rattle.cap_words.specs.Words.{W, Fix};
ghost use Rattle.instr_table.specs.Sheet.{amount, short, paid, signal_in};
ghost use Rattle.vm_sponsor.specs.declared.amounts.Row.{Row};
ghost use Rattle.vm_sponsor.specs.Totals.{most_held};
ghost use Rattle.vm_sponsor.specs.Sheets.{amount_in, IsAmount, HasAmounts, Fits, account_with, fresh_cell, with_held, standing_in, shown};

use crate::amounts::{Amounts, Row, SheetRow};
use cap_words::{Word, is_same};
use instr_table::{Charge, Quota};
use quad_memory::SponsorCell;

// The number in a word.
fn amount(w: Word) -> u32
    requires { IsAmount w }
    ensures { result ≡ amount_in w }
{
    w.bits() - 0x8000_0000
}

// The word of a number.
fn amount_word(n: u32) -> Word
    requires { n ≤ most_held }
    ensures { result ≡ Fix (pos n) }
{
    Word::number_word(n as i32)
}

// A sponsor that holds these amounts and has spent nothing.
pub(crate) fn fresh_cell(signal: Word, memory: u32, events: u32, cycles: u32) -> SponsorCell
    requires memory { memory ≤ most_held }
    requires events { events ≤ most_held }
    requires cycles { cycles ≤ most_held }
    ensures { result ≡ fresh_cell signal (record { memory = memory; events = events; cycles = cycles }) }
{
    SponsorCell {
        signal,
        memory: amount_word(memory),
        events: amount_word(events),
        cycles: amount_word(cycles),
        memory_spent: amount_word(0),
        events_spent: amount_word(0),
        cycles_spent: amount_word(0),
    }
}

// How much a sponsor holds of one kind.
pub(crate) fn held_of(c: &SponsorCell, kind: Quota) -> u32
    requires { HasAmounts c.now }
    ensures { (r : Row) → result ≡ (amount kind (account_with r c.now)).held }
{
    match kind {
        Quota::Memory => amount(c.memory),
        Quota::Events => amount(c.events),
        Quota::Cycles => amount(c.cycles),
    }
}

// A sponsor that holds this much of one kind.
pub(crate) fn with_held(c: &SponsorCell, kind: Quota, n: u32) -> SponsorCell
    requires { n ≤ most_held }
    ensures { result ≡ with_held kind n c.now }
{
    let held = amount_word(n);
    match kind {
        Quota::Memory => SponsorCell { memory: held, ..*c },
        Quota::Events => SponsorCell { events: held, ..*c },
        Quota::Cycles => SponsorCell { cycles: held, ..*c },
    }
}

// A sponsor with this signal.
pub(crate) fn with_signal(c: &SponsorCell, signal: Word) -> SponsorCell
    ensures { result ≡ record c.now { signal = signal } }
{
    SponsorCell { signal, ..*c }
}

// The signal that is prepared, if one is.
pub(crate) fn prepared_in(signal: Word) -> Option<Word>
    ensures { result ≡ signal_in (standing_in signal) }
{
    if is_same(signal, Word::UNDEF) || is_same(signal, Word::NIL) {
        None
    } else {
        Some(signal)
    }
}

// A row as it is shown.
pub(crate) fn shown_row(row: &Row, c: &SponsorCell) -> SheetRow
    requires { HasAmounts c.now }
    ensures { result ≡ shown (account_with row.now c.now) }
{
    SheetRow {
        sponsor: row.sponsor,
        received: row.received,
        passed: row.passed,
        spent: Amounts {
            memory: u64::from(amount(c.memory_spent)),
            events: u64::from(amount(c.events_spent)),
            cycles: u64::from(amount(c.cycles_spent)),
        },
        held: Amounts {
            memory: u64::from(amount(c.memory)),
            events: u64::from(amount(c.events)),
            cycles: u64::from(amount(c.cycles)),
        },
    }
}

// The first kind of which a sponsor holds less than is due.
pub(crate) fn first_short(c: &SponsorCell, charge: Charge) -> Option<Quota>
    requires { HasAmounts c.now }
    ensures { (r : Row) → result ≡ short (account_with r c.now) charge }
{
    if amount(c.cycles) < 1 {
        return Some(Quota::Cycles);
    }
    if amount(c.memory) < charge.quads {
        return Some(Quota::Memory);
    }
    if amount(c.events) < charge.events {
        return Some(Quota::Events);
    }
    None
}

// A sponsor after it paid.
pub(crate) fn paid_cell(c: &SponsorCell, charge: Charge) -> SponsorCell
    requires amounts { HasAmounts c.now }
    requires fits { Fits c.now }
    requires cycles { 1 ≤ amount_in c.now.cycles }
    requires memory { charge.quads ≤ amount_in c.now.memory }
    requires events { charge.events ≤ amount_in c.now.events }
    ensures amounts { HasAmounts result }
    ensures paid { (r : Row) → account_with r result ≡ paid charge (account_with r c.now) }
{
    SponsorCell {
        signal: c.signal,
        memory: lowered(c.memory, charge.quads),
        events: lowered(c.events, charge.events),
        cycles: lowered(c.cycles, 1),
        memory_spent: raised(c.memory_spent, charge.quads),
        events_spent: raised(c.events_spent, charge.events),
        cycles_spent: raised(c.cycles_spent, 1),
    }
}

fn lowered(w: Word, n: u32) -> Word
    requires amount { IsAmount w }
    requires enough { n ≤ amount_in w }
    requires fits { amount_in w ≤ most_held }
    ensures { result ≡ Fix (pos (amount_in w - n)) }
{
    amount_word(amount(w) - n)
}

fn raised(w: Word, n: u32) -> Word
    requires amount { IsAmount w }
    requires fits { amount_in w + n ≤ most_held }
    ensures { result ≡ Fix (pos (amount_in w + n)) }
{
    amount_word(amount(w) + n)
}
