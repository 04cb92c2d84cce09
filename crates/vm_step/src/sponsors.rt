// Operations on sponsors.

ghost use Rattle.std.specs.Prelude.{◌≡◌, ◌<◌, ◌≤◌, ◌^◌, nat_le, if◌then◌else◌, Some, None, IsTrue};
ghost use Rattle.cap_words.specs.Words.{number_of};
ghost use Rattle.cap_words.specs.Seen.{seen};
ghost use Rattle.cap_words.specs.Frame.{Among};
ghost use Rattle.instr_table.specs.Sheet.{held};
ghost use Rattle.instr_table.specs.Spelling.{is_op};
ghost use Rattle.instr_table.specs.SponsorRows.{new_row, kind_of_grant, grantable, grant_of, reclaim_row, start_row, stop_row};
ghost use Rattle.instr_table.specs.Lists.{item};
ghost use Rattle.vm_sponsor.specs.Ledger.{names};
ghost use Rattle.vm_sponsor.specs.Sheets.{Belongs};
ghost use Rattle.vm_step.specs.declared.group.Group.TheVariants.{Sponsors};
ghost use Rattle.vm_step.specs.Flight.{own_at};
ghost use Rattle.vm_step.specs.Groups.{group_of};
ghost use Rattle.vm_step.specs.Moves.{values_of};
ghost use Rattle.vm_step.specs.Paid.{Paid, Acts, paid_row_in, paid_grant};
ghost use Rattle.vm_step.specs.Reads.{own_in};
ghost use Rattle.vm_step.specs.Step.{Stays, payer, sheet_in};

use crate::charge::may_grow;
use crate::lane::{Lane, StepEnd};
use crate::reads::OwnWords;
use crate::types::{is_actor, is_sponsor};
use cap_words::Word;
use instr_table::{Op, Quota};
use quad_memory::{EventCell, Quads};
use vm_sponsor::Sheet;

// Does what the row of such an operation says.
pub(crate) fn on_sponsors(
    quads: &mut Quads,
    sheet: &mut Sheet,
    lane: &mut Lane,
    own: &OwnWords,
    op: &Op,
    next: Word,
) -> StepEnd
    requires in_row { IsTrue (is_op op.now) }
    requires own { own_in own.now ≡ own_at (seen quads.old.store) lane.old.event }
    requires group { group_of op.now ≡ Sponsors }
    requires transfers { sheet.old.transfers < 2 ^ 32 }
    requires paid { Paid quads.old sheet.old lane.old (paid_row_in quads.old sheet.old lane.old op.now next).charge.quads }
    ensures acts { Acts quads.old quads.new sheet.old sheet.new lane.old lane.new (paid_row_in quads.old sheet.old lane.old op.now next).outcome result }
    ensures stays { Stays quads.old quads.new sheet.old sheet.new }
{
    let who = own.sponsor;
    match op {
        Op::SponsorNew => make(quads, sheet, lane, next),
        Op::SponsorGrant(n) => grant(quads, sheet, lane, who, n, next),
        Op::SponsorReclaim => reclaim(quads, sheet, lane, who, next),
        Op::SponsorStart => start(quads, sheet, lane, who, next),
        Op::SponsorStop => stop(quads, sheet, lane, next),
        _ => unreachable!(),
    }
}

// Makes a sponsor, or gives `#?` where there are as many as there may be.
fn make(quads: &mut Quads, sheet: &mut Sheet, lane: &mut Lane, next: Word) -> StepEnd
    requires { Paid quads.old sheet.old lane.old (new_row (seen quads.old.store) (sheet_in quads.old sheet.old) next).charge.quads }
    ensures acts { Acts quads.old quads.new sheet.old sheet.new lane.old lane.new (new_row (seen quads.old.store) (sheet_in quads.old sheet.old) next).outcome result }
    ensures stays { Stays quads.old quads.new sheet.old sheet.new }
{
    if !may_grow(quads, sheet) {
        return lane.gives(quads, 0, Word::UNDEF, next);
    }
    match sheet.make(quads) {
        Some(sponsor) => lane.gives(quads, 0, sponsor, next),
        None => unreachable!(),
    }
}

// Grants what the number on top says, of the kind of that number, from the event's own sponsor.
fn grant(
    quads: &mut Quads,
    sheet: &mut Sheet,
    lane: &mut Lane,
    who: Word,
    n: &i32,
    next: Word,
) -> StepEnd
    requires who { who ≡ payer quads.old lane.old }
    requires transfers { sheet.old.transfers < 2 ^ 32 }
    requires paid { Paid quads.old sheet.old lane.old 0 }
    ensures acts { Acts quads.old quads.new sheet.old sheet.new lane.old lane.new (paid_grant (kind_of_grant n.now) who (seen quads.old.store) (sheet_in quads.old sheet.old) (values_of quads.old lane.old) next).outcome result }
    ensures stays { Stays quads.old quads.new sheet.old sheet.new }
{
    let kind = kind_of_grant(n);
    let number = lane.at(quads, 1);
    match grantable(quads, sheet, who, kind, number) {
        Some(amount) => grant_to(quads, sheet, lane, who, kind, amount, next),
        None => StepEnd::Abort(Word::number_word(20)),
    }
}

// Memory, events or cycles, by its number from 1 on.
fn kind_of_grant(n: &i32) -> Quota
    ensures { result ≡ kind_of_grant n.now }
{
    if *n == 1 {
        Quota::Memory
    } else if *n == 2 {
        Quota::Events
    } else {
        Quota::Cycles
    }
}

// The number of a word, where so much is held. A grant to itself moves nothing, and says whether it is.
fn grantable(
    quads: &mut Quads,
    sheet: &mut Sheet,
    who: Word,
    kind: Quota,
    number: Word,
) -> Option<u32>
    requires belongs { Belongs quads.old.store sheet.old }
    requires who { Among who (names sheet.old.rows) }
    requires transfers { sheet.old.transfers < 2 ^ 32 }
    ensures value { result ≡ grantable (number_of number) (held (sheet_in quads.old sheet.old) who kind) }
    ensures quads { quads.new ≡ quads.old }
    ensures sheet { sheet.new ≡ sheet.old }
{
    match number.number() {
        Some(n) => if n < 0 {
            None
        } else {
            held_amount(quads, sheet, who, kind, n as u32)
        },
        None => None,
    }
}

fn held_amount(quads: &mut Quads, sheet: &mut Sheet, who: Word, kind: Quota, n: u32) -> Option<u32>
    requires belongs { Belongs quads.old.store sheet.old }
    requires who { Among who (names sheet.old.rows) }
    requires transfers { sheet.old.transfers < 2 ^ 32 }
    ensures value { result ≡ (if nat_le n (held (sheet_in quads.old sheet.old) who kind) then Some n else None) }
    ensures quads { quads.new ≡ quads.old }
    ensures sheet { sheet.new ≡ sheet.old }
{
    match sheet.grant(quads, who, who, kind, n) {
        Ok(()) => Some(n),
        Err(_) => None,
    }
}

// Grants so much, which is held, to the sponsor below the number.
fn grant_to(
    quads: &mut Quads,
    sheet: &mut Sheet,
    lane: &mut Lane,
    who: Word,
    kind: Quota,
    amount: u32,
    next: Word,
) -> StepEnd
    requires who { who ≡ payer quads.old lane.old }
    requires transfers { sheet.old.transfers < 2 ^ 32 }
    requires paid { Paid quads.old sheet.old lane.old 0 }
    requires enough { amount ≤ held (sheet_in quads.old sheet.old) who kind }
    ensures acts { Acts quads.old quads.new sheet.old sheet.new lane.old lane.new (grant_of (Some amount) kind (seen quads.old.store) (item (values_of quads.old lane.old) 2) next).outcome result }
    ensures stays { Stays quads.old quads.new sheet.old sheet.new }
{
    let sponsor = lane.at(quads, 2);
    if !is_sponsor(quads, sponsor) {
        return StepEnd::Abort(Word::number_word(19));
    }
    match sheet.grant(quads, who, sponsor, kind, amount) {
        Ok(()) => lane.goes(quads, 1, next),
        Err(_) => unreachable!(),
    }
}

// Moves all that the sponsor on top holds to the event's own.
fn reclaim(quads: &mut Quads, sheet: &mut Sheet, lane: &mut Lane, who: Word, next: Word) -> StepEnd
    requires who { who ≡ payer quads.old lane.old }
    requires transfers { sheet.old.transfers < 2 ^ 32 }
    requires paid { Paid quads.old sheet.old lane.old 0 }
    ensures acts { Acts quads.old quads.new sheet.old sheet.new lane.old lane.new (reclaim_row (seen quads.old.store) (values_of quads.old lane.old) next).outcome result }
    ensures stays { Stays quads.old quads.new sheet.old sheet.new }
{
    let sponsor = lane.at(quads, 1);
    if !is_sponsor(quads, sponsor) {
        return StepEnd::Abort(Word::number_word(19));
    }
    sheet.reclaim(quads, sponsor, who);
    lane.goes(quads, 0, next)
}

// Starts a sponsor, with a signal to the controller on top.
fn start(quads: &mut Quads, sheet: &mut Sheet, lane: &mut Lane, who: Word, next: Word) -> StepEnd
    requires who { who ≡ payer quads.old lane.old }
    requires paid { Paid quads.old sheet.old lane.old 1 }
    ensures acts { Acts quads.old quads.new sheet.old sheet.new lane.old lane.new (start_row who (seen quads.old.store) (sheet_in quads.old sheet.old) (values_of quads.old lane.old) next).outcome result }
    ensures stays { Stays quads.old quads.new sheet.old sheet.new }
{
    let controller = lane.at(quads, 1);
    let sponsor = lane.at(quads, 2);
    if !is_actor(quads, controller) {
        return StepEnd::Abort(Word::number_word(3));
    }
    if !is_sponsor(quads, sponsor) {
        return StepEnd::Abort(Word::number_word(19));
    }
    if sheet.running(quads, sponsor) {
        return StepEnd::Abort(Word::number_word(22));
    }
    let signal = quads.take_event(EventCell {
        sponsor: who,
        target: controller,
        message: Word::UNDEF,
        next: Word::NIL,
    });
    match sheet.start(quads, sponsor, signal) {
        Ok(()) => lane.goes(quads, 2, next),
        Err(_) => unreachable!(),
    }
}

// Stops the sponsor on top and drops its signal.
fn stop(quads: &mut Quads, sheet: &mut Sheet, lane: &mut Lane, next: Word) -> StepEnd
    requires { Paid quads.old sheet.old lane.old 0 }
    ensures acts { Acts quads.old quads.new sheet.old sheet.new lane.old lane.new (stop_row (seen quads.old.store) (values_of quads.old lane.old) next).outcome result }
    ensures stays { Stays quads.old quads.new sheet.old sheet.new }
{
    let sponsor = lane.at(quads, 1);
    if !is_sponsor(quads, sponsor) {
        return StepEnd::Abort(Word::number_word(19));
    }
    let _signal = sheet.stop(quads, sponsor);
    lane.goes(quads, 0, next)
}
