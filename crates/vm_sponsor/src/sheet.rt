// The sheet of a machine's sponsors.

ghost use Rattle.std.specs.Prelude.{◌≡◌, ℕ, ◌+◌, ◌-◌, ◌^◌, ◌<◌, ◌≤◌, nat_lt, if◌then◌else◌, List, length, [], ◌∷◌, ◌++◌, Some, None, option_map, slice_get, vec_len, vec_capacity, IfOk, OnOk, OnErr, IfSome, IfNone};
ghost use Rattle.cap_words.specs.Words.{W, Cap, kind_of};
ghost use Rattle.cap_words.specs.declared.word.Kind.{Kind};
ghost use Rattle.cap_words.specs.Store.{Store, used};
ghost use Rattle.cap_words.specs.Seen.{SponsorSlot, SpentSlot, seen, grown};
ghost use Rattle.cap_words.specs.Frame.{Among, Framed};
ghost use Rattle.quad_memory.specs.Cells.{sponsor_at};
ghost use Rattle.instr_table.specs.declared.charge.Charge.{Charge};
ghost use Rattle.instr_table.specs.declared.charge.Quota.{Quota};
ghost use Rattle.instr_table.specs.Sheet.{Account, account, at_account, at_amount, amount, held, short, spend, passes, receives, transfer, reclaim, runs, start, stop, prepared, with_sponsor};
ghost use Rattle.vm_sponsor.specs.declared.amounts.Row.{Row};
ghost use Rattle.vm_sponsor.specs.Ledger.{Ledger, names, of_kind, row_of, place_of, at_row, no_amounts, row_passing, row_receiving};
ghost use Rattle.vm_sponsor.specs.Totals.{Each, IsBalanced, moved, most_held, sponsors, total};
ghost use Rattle.vm_sponsor.specs.Sheets.{sheet_of, root_account, shown, HasAmounts, IsThere, Belongs, quads_of};
ghost use Rattle.vm_sponsor.specs.Keeps.{Keeps};
ghost use Rattle.vm_sponsor.specs.Answers.{short_answer, spend_answer, start_answer};

use crate::amounts::{Amounts, Row, SheetRow};
use crate::answer::{RanOut, Running, Short};
use crate::cell::{
    first_short, fresh_cell, held_of, paid_cell, prepared_in, shown_row, with_held, with_signal,
};
use crate::grant::Grant;
use cap_words::{Word, is_same};
use instr_table::{Charge, Quota};
use quad_memory::{Quads, SponsorCell};
use std::alloc::{AllocError as NoMemory, Global};
use std::marker::Model;

/// The sponsors of a machine, in order of making.
///
/// Amounts held and spent, and the signal, stand in a sponsor's two quads; what it received and passed on stands here. The same quads go
/// with a sheet through all its calls.
#[derive(Drop)]
pub struct Sheet {
    rows: Vec<Row>,
    transfers: u64,
    room: u32,
}

impl Model for Sheet {
    ghost use Rattle.std.specs.Prelude.{◌≤◌, vec_len, vec_capacity};
    ghost use Rattle.vm_sponsor.specs.Ledger.{Ledger};

    ghost Value = { Ledger };

    ghost view = { λ s. record { rows = s.rows.items; transfers = s.transfers; room = s.room } };

    ghost invariant = { λ s. (vec_len s.rows ≤ s.room) × (s.room ≤ vec_capacity s.rows) };
}

impl Sheet {
    /// Takes two quads for the root sponsor, which holds the grant and runs, with no prepared signal. There may be `rows` sponsors.
    pub fn with_root(
        alloc: Global,
        rows: u32,
        quads: &mut Quads,
        grant: Grant,
    ) -> Result<Sheet, NoMemory>
        requires rows { 1 ≤ rows }
        requires free { used quads.old.store + 1 < quads.old.room }
        ensures sheet { IfOk result (λ sheet. sheet_of quads.new.store sheet.rows ≡ root_account (Cap (used quads.old.store)) grant ∷ []) }
        ensures belongs { IfOk result (λ sheet. Belongs quads.new.store sheet) }
        ensures room { IfOk result (λ sheet. sheet.room ≡ rows) }
        ensures transfers { IfOk result (λ sheet. sheet.transfers ≡ 0) }
        ensures seen { OnOk result (seen quads.new.store ≡ grown (seen quads.old.store) (SponsorSlot ∷ SpentSlot ∷ [])) }
        ensures err { OnErr result (quads.new ≡ quads.old) }
        ensures frame { Framed quads.old.store quads.new.store [] }
        ensures quads_room { quads.new.room ≡ quads.old.room }
    {
        let mut sponsors = Vec::with_capacity(alloc, rows as usize)?;
        let memory = grant.memory();
        let events = grant.events();
        let cycles = grant.cycles();
        let sponsor = quads.take_sponsor(fresh_cell(Word::NIL, memory, events, cycles));
        let received = Amounts {
            memory: u64::from(memory),
            events: u64::from(events),
            cycles: u64::from(cycles),
        };
        push_row(&mut sponsors, sponsor, received);
        Ok(Sheet {
            rows: sponsors,
            transfers: 0,
            room: rows,
        })
    }

    /// Takes two quads for a new sponsor, which holds nothing and is stopped, or gives None where there are as many as there may be.
    pub fn make(&mut self, quads: &mut Quads) -> Option<Word>
        requires belongs { Belongs quads.old.store self.old }
        requires free { used quads.old.store + 1 < quads.old.room }
        ensures word { result ≡ (if nat_lt (length self.old.rows) self.old.room then Some (Cap (used quads.old.store)) else None) }
        ensures sheet { IfSome result (λ w. sheet_of quads.new.store self.new.rows ≡ with_sponsor (sheet_of quads.old.store self.old.rows) w) }
        ensures names { IfSome result (λ w. names self.new.rows ≡ names self.old.rows ++ w ∷ []) }
        ensures belongs { Belongs quads.new.store self.new }
        ensures seen { IfSome result (λ w. seen quads.new.store ≡ grown (seen quads.old.store) (SponsorSlot ∷ SpentSlot ∷ [])) }
        ensures full { IfNone result ((self.new ≡ self.old) × (quads.new ≡ quads.old)) }
        ensures frame { Framed quads.old.store quads.new.store [] }
        ensures transfers { self.new.transfers ≡ self.old.transfers }
        ensures room { self.new.room ≡ self.old.room }
        ensures quads_room { quads.new.room ≡ quads.old.room }
    {
        if self.rows.len() >= self.room as usize {
            return None;
        }
        let sponsor = quads.take_sponsor(fresh_cell(Word::UNDEF, 0, 0, 0));
        push_row(&mut self.rows, sponsor, Amounts::NONE);
        Some(sponsor)
    }

    /// Moves n of one kind from one sponsor to another; to itself nothing moves. Where the giver holds less than n nothing changes.
    pub fn grant(
        &mut self,
        quads: &mut Quads,
        from: Word,
        to: Word,
        kind: Quota,
        n: u32,
    ) -> Result<(), Short>
        requires belongs { Belongs quads.old.store self.old }
        requires from { Among from (names self.old.rows) }
        requires to { Among to (names self.old.rows) }
        requires few { self.old.transfers < 2 ^ 32 }
        ensures answer { result ≡ short_answer (held (sheet_of quads.old.store self.old.rows) from kind) n }
        ensures sheet { OnOk result (sheet_of quads.new.store self.new.rows ≡ transfer (sheet_of quads.old.store self.old.rows) from to kind n) }
        ensures short { OnErr result ((self.new ≡ self.old) × (quads.new ≡ quads.old)) }
        ensures itself { from ≡ to → (self.new ≡ self.old) × (quads.new ≡ quads.old) }
        ensures keeps { Keeps quads.old quads.new self.old self.new (quads_of from ++ quads_of to) }
        ensures transfers { self.new.transfers ≤ self.old.transfers + 1 }
    {
        let holds = held_of(&sponsor_cell(quads, from), kind);
        if holds < n {
            return Err(Short { held: holds });
        }
        self.transfer(quads, from, to, kind, n);
        Ok(())
    }

    /// Moves all that one sponsor holds to another; to itself nothing moves.
    pub fn reclaim(&mut self, quads: &mut Quads, from: Word, to: Word)
        requires belongs { Belongs quads.old.store self.old }
        requires from { Among from (names self.old.rows) }
        requires to { Among to (names self.old.rows) }
        requires few { self.old.transfers < 2 ^ 32 }
        ensures sheet { sheet_of quads.new.store self.new.rows ≡ reclaim (sheet_of quads.old.store self.old.rows) from to }
        ensures keeps { Keeps quads.old quads.new self.old self.new (quads_of from ++ quads_of to) }
        ensures transfers { self.new.transfers ≤ self.old.transfers + 3 }
    {
        self.move_all(quads, from, to, Quota::Memory);
        self.move_all(quads, from, to, Quota::Events);
        self.move_all(quads, from, to, Quota::Cycles);
    }

    /// Pays for an instruction, or says which kind ran out: the first of cycles, memory and events of which less is held than is due.
    /// Nothing changes then.
    pub fn spend(&mut self, quads: &mut Quads, who: Word, charge: Charge) -> Result<(), RanOut>
        requires belongs { Belongs quads.old.store self.old }
        requires who { Among who (names self.old.rows) }
        ensures answer { result ≡ spend_answer (short (account (sheet_of quads.old.store self.old.rows) who) charge) }
        ensures sheet { OnOk result (sheet_of quads.new.store self.new.rows ≡ spend (sheet_of quads.old.store self.old.rows) who charge) }
        ensures ran_out { OnErr result (quads.new ≡ quads.old) }
        ensures rows { self.new ≡ self.old }
        ensures keeps { Keeps quads.old quads.new self.old self.new (quads_of who) }
    {
        let cell = sponsor_cell(quads, who);
        match first_short(&cell, charge) {
            Some(kind) => Err(RanOut { kind }),
            None => {
                quads.set_sponsor(who, paid_cell(&cell, charge));
                Ok(())
            }
        }
    }

    /// Starts a sponsor, with a prepared signal, or says that it runs. Nothing changes then.
    pub fn start(&mut self, quads: &mut Quads, who: Word, signal: Word) -> Result<(), Running>
        requires belongs { Belongs quads.old.store self.old }
        requires who { Among who (names self.old.rows) }
        requires signal { kind_of signal ≡ Kind.Cap }
        ensures answer { result ≡ start_answer (runs (sheet_of quads.old.store self.old.rows) who) }
        ensures sheet { OnOk result (sheet_of quads.new.store self.new.rows ≡ start (sheet_of quads.old.store self.old.rows) who signal) }
        ensures running { OnErr result (quads.new ≡ quads.old) }
        ensures rows { self.new ≡ self.old }
        ensures keeps { Keeps quads.old quads.new self.old self.new (quads_of who) }
    {
        let cell = sponsor_cell(quads, who);
        if !is_same(cell.signal, Word::UNDEF) {
            return Err(Running);
        }
        quads.set_sponsor(who, with_signal(&cell, signal));
        Ok(())
    }

    /// Stops a sponsor and gives the signal that it had prepared, if it had one.
    pub fn stop(&mut self, quads: &mut Quads, who: Word) -> Option<Word>
        requires belongs { Belongs quads.old.store self.old }
        requires who { Among who (names self.old.rows) }
        ensures signal { result ≡ prepared (sheet_of quads.old.store self.old.rows) who }
        ensures sheet { sheet_of quads.new.store self.new.rows ≡ stop (sheet_of quads.old.store self.old.rows) who }
        ensures rows { self.new ≡ self.old }
        ensures keeps { Keeps quads.old quads.new self.old self.new (quads_of who) }
    {
        let cell = sponsor_cell(quads, who);
        quads.set_sponsor(who, with_signal(&cell, Word::UNDEF));
        prepared_in(cell.signal)
    }

    /// Whether a sponsor runs.
    pub fn running(&self, quads: &Quads, who: Word) -> bool
        requires belongs { Belongs quads.now.store self.now }
        requires who { Among who (names self.now.rows) }
        ensures { result ≡ runs (sheet_of quads.now.store self.now.rows) who }
    {
        !is_same(sponsor_cell(quads, who).signal, Word::UNDEF)
    }

    /// The row of that number, counted from 0 in order of making, or None from the number of sponsors on.
    pub fn row(&self, quads: &Quads, k: u32) -> Option<SheetRow>
        requires { Belongs quads.now.store self.now }
        ensures { result ≡ option_map shown (slice_get (sheet_of quads.now.store self.now.rows) k) }
    {
        let place = k as usize;
        if place >= self.rows.len() {
            return None;
        }
        let row = self.rows[place];
        Some(shown_row(&row, &sponsor_cell(quads, row.sponsor)))
    }

    /// What a sponsor holds of one kind; 0 where it has no row.
    pub fn held(&self, quads: &Quads, who: Word, kind: Quota) -> u32
        requires { Belongs quads.now.store self.now }
        ensures { result ≡ held (sheet_of quads.now.store self.now.rows) who kind }
    {
        let mut rest: &[Row] = &self.rows;
        'rows: while let [row, more @ ..] = rest {
            if is_same(row.sponsor, who) {
                return held_of(&sponsor_cell(quads, row.sponsor), kind);
            }
            rest = more;
        }
        0
    }

    // Moves all that one sponsor holds of one kind to another.
    fn move_all(&mut self, quads: &mut Quads, from: Word, to: Word, kind: Quota)
        requires belongs { Belongs quads.old.store self.old }
        requires from { Among from (names self.old.rows) }
        requires to { Among to (names self.old.rows) }
        requires few { self.old.transfers < 2 ^ 32 + 2 }
        ensures sheet { let sheet = sheet_of quads.old.store self.old.rows in sheet_of quads.new.store self.new.rows ≡ transfer sheet from to kind (held sheet from kind) }
        ensures keeps { Keeps quads.old quads.new self.old self.new (quads_of from ++ quads_of to) }
        ensures transfers { self.new.transfers ≤ self.old.transfers + 1 }
    {
        let holds = held_of(&sponsor_cell(quads, from), kind);
        self.transfer(quads, from, to, kind, holds);
    }

    // Moves n of one kind from a sponsor that holds it to another.
    fn transfer(&mut self, quads: &mut Quads, from: Word, to: Word, kind: Quota, n: u32)
        requires belongs { Belongs quads.old.store self.old }
        requires from { Among from (names self.old.rows) }
        requires to { Among to (names self.old.rows) }
        requires enough { n ≤ held (sheet_of quads.old.store self.old.rows) from kind }
        requires few { self.old.transfers < 2 ^ 32 + 2 }
        ensures sheet { sheet_of quads.new.store self.new.rows ≡ transfer (sheet_of quads.old.store self.old.rows) from to kind n }
        ensures itself { from ≡ to → (self.new ≡ self.old) × (quads.new ≡ quads.old) }
        ensures keeps { Keeps quads.old quads.new self.old self.new (quads_of from ++ quads_of to) }
        ensures transfers { self.new.transfers ≤ self.old.transfers + 1 }
    {
        if is_same(from, to) {
            return;
        }
        self.pass(quads, from, kind, n);
        self.receive(quads, to, kind, n);
    }

    // Takes n of one kind from a sponsor that holds it.
    fn pass(&mut self, quads: &mut Quads, from: Word, kind: Quota, n: u32)
        requires belongs { Belongs quads.old.store self.old }
        requires from { Among from (names self.old.rows) }
        requires enough { n ≤ held (sheet_of quads.old.store self.old.rows) from kind }
        requires few { self.old.transfers < 2 ^ 32 + 2 }
        ensures sheet { sheet_of quads.new.store self.new.rows ≡ at_account from (at_amount kind (passes n)) (sheet_of quads.old.store self.old.rows) }
        ensures keeps { Keeps quads.old quads.new self.old self.new (quads_of from) }
        ensures transfers { self.new.transfers ≡ self.old.transfers }
    {
        let cell = sponsor_cell(quads, from);
        let left = held_of(&cell, kind) - n;
        quads.set_sponsor(from, with_held(&cell, kind, left));
        add_passed(&mut self.rows, from, kind, n);
    }

    // Gives n of one kind, which another sponsor passed on, to a sponsor.
    fn receive(&mut self, quads: &mut Quads, to: Word, kind: Quota, n: u32)
        requires belongs { Belongs quads.old.store self.old }
        requires to { Among to (names self.old.rows) }
        requires fits { (other : Quota) → total other (sheet_of quads.old.store self.old.rows) + moved kind other n ≤ most_held }
        requires few { self.old.transfers < 2 ^ 32 + 2 }
        ensures sheet { sheet_of quads.new.store self.new.rows ≡ at_account to (at_amount kind (receives n)) (sheet_of quads.old.store self.old.rows) }
        ensures keeps { Keeps quads.old quads.new self.old self.new (quads_of to) }
        ensures transfers { self.new.transfers ≡ self.old.transfers + 1 }
    {
        let cell = sponsor_cell(quads, to);
        let more = held_of(&cell, kind) + n;
        quads.set_sponsor(to, with_held(&cell, kind, more));
        add_received(&mut self.rows, to, kind, n);
        self.transfers += 1;
    }
}

// The cell of a sponsor that is there.
fn sponsor_cell(quads: &Quads, who: Word) -> SponsorCell
    requires { IsThere quads.now.store who }
    ensures cell { sponsor_at quads.now.store who ≡ Some result }
    ensures amounts { HasAmounts result }
{
    quads.known_sponsor(who)
}

// Adds a row for a new sponsor.
fn push_row(rows: &mut Vec<Row>, sponsor: Word, received: Amounts)
    requires { vec_len rows.old < vec_capacity rows.old }
    ensures rows { rows.new.items ≡ rows.old.items ++ record { sponsor = sponsor; received = received; passed = no_amounts } ∷ [] }
    ensures len { vec_len rows.new ≡ vec_len rows.old + 1 }
    ensures capacity { vec_capacity rows.old ≤ vec_capacity rows.new }
{
    let row = Row {
        sponsor,
        received,
        passed: Amounts::NONE,
    };
    match rows.push(row) {
        Ok(()) => {}
        Err(_) => unreachable!(),
    }
}

// Adds to what a sponsor passed on of one kind.
fn add_passed(rows: &mut Vec<Row>, who: Word, kind: Quota, n: u32)
    requires named { Among who (names rows.old.items) }
    requires fits { of_kind kind (row_of who rows.old.items).passed + n < 2 ^ 64 }
    ensures rows { rows.new.items ≡ at_row who (row_passing kind n) rows.old.items }
    ensures len { vec_len rows.new ≡ vec_len rows.old }
    ensures capacity { vec_capacity rows.new ≡ vec_capacity rows.old }
{
    let place = place_of(rows, who);
    let row = rows[place];
    rows[place] = Row {
        passed: row.passed.raised(kind, n),
        ..row
    };
}

// Adds to what a sponsor received of one kind.
fn add_received(rows: &mut Vec<Row>, who: Word, kind: Quota, n: u32)
    requires named { Among who (names rows.old.items) }
    requires fits { of_kind kind (row_of who rows.old.items).received + n < 2 ^ 64 }
    ensures rows { rows.new.items ≡ at_row who (row_receiving kind n) rows.old.items }
    ensures len { vec_len rows.new ≡ vec_len rows.old }
    ensures capacity { vec_capacity rows.new ≡ vec_capacity rows.old }
{
    let place = place_of(rows, who);
    let row = rows[place];
    rows[place] = Row {
        received: row.received.raised(kind, n),
        ..row
    };
}

// The place of a sponsor's row.
fn place_of(rows: &[Row], who: Word) -> usize
    requires { Among who (names rows.now) }
    ensures place { result ≡ place_of who rows.now }
    ensures row { slice_get rows.now result ≡ Some (row_of who rows.now) }
{
    let mut place = 0;
    while place < rows.len() && !is_same(rows[place].sponsor, who) {
        place += 1;
    }
    place
}

/// No transfer and no payment makes or loses an amount: in each account what was received stays what was passed on, spent and is held,
/// and all sponsors together spent and hold as much of each kind as before. A transfer or a payment that is not covered is none.
pub fn amounts_are_conserved()
    ensures paid { (sheet : List Account) (w : W) (c : Charge) → short (account sheet w) c ≡ None → Each IsBalanced sheet → Each IsBalanced (spend sheet w c) × ((kind : Quota) → total kind (spend sheet w c) ≡ total kind sheet) }
    ensures moved { (sheet : List Account) (from to : W) (kind : Quota) (n : ℕ) → Among to (sponsors sheet) → n ≤ held sheet from kind → Each IsBalanced sheet → Each IsBalanced (transfer sheet from to kind n) × ((other : Quota) → total other (transfer sheet from to kind n) ≡ total other sheet) }
    ensures reclaimed { (sheet : List Account) (from to : W) → Among to (sponsors sheet) → Each IsBalanced sheet → Each IsBalanced (reclaim sheet from to) × ((kind : Quota) → total kind (reclaim sheet from to) ≡ total kind sheet) }
{}
