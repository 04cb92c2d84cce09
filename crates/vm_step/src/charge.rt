// What an operation costs where it stands.

ghost use Rattle.std.specs.Prelude.{◌≡◌, ◌≤◌, IsTrue, None, length, nat_lt, if◌then◌else◌};
ghost use Rattle.cap_words.specs.Words.{W};
ghost use Rattle.cap_words.specs.Seen.{seen};
ghost use Rattle.instr_table.specs.Spelling.{is_op, charge_of};
ghost use Rattle.instr_table.specs.Outcome.{charge};
ghost use Rattle.instr_table.specs.SponsorRows.{most_sponsors};
ghost use Rattle.vm_sponsor.specs.Sheets.{Belongs};
ghost use Rattle.vm_step.specs.Stack.{IsStack};
ghost use Rattle.vm_step.specs.Step.{sheet_in};
ghost use Rattle.vm_step.specs.Paid.{unpaid_row_in};

use crate::lane::Lane;
use cap_words::Word;
use instr_table::{Charge, Op, op_charge};
use quad_memory::Quads;
use vm_dict::cost;
use vm_sponsor::Sheet;

// What an operation of a lane costs.
pub(crate) fn charge_of(quads: &Quads, sheet: &Sheet, lane: &Lane, op: &Op) -> Charge
    requires in_row { IsTrue (is_op op.now) }
    requires belongs { Belongs quads.now.store sheet.now }
    requires stacked { IsStack (seen quads.now.store) lane.now.depth lane.now.stack }
    ensures { (next : W) → result ≡ (unpaid_row_in quads.now sheet.now lane.now op.now next).charge }
{
    match op_charge(*op) {
        Some(charge) => charge,
        None => charge_by_state(quads, sheet, lane, op),
    }
}

// What an operation costs whose charge depends on the state.
fn charge_by_state(quads: &Quads, sheet: &Sheet, lane: &Lane, op: &Op) -> Charge
    requires by_state { charge_of op.now ≡ None }
    requires belongs { Belongs quads.now.store sheet.now }
    requires stacked { IsStack (seen quads.now.store) lane.now.depth lane.now.stack }
    ensures { (next : W) → result ≡ (unpaid_row_in quads.now sheet.now lane.now op.now next).charge }
{
    match op {
        Op::DictPut(_) => cost(quads, *op, lane.at(quads, 3), lane.at(quads, 2)),
        Op::DictDel => cost(quads, *op, lane.at(quads, 2), lane.at(quads, 1)),
        Op::DequeTake(_) => cost(quads, *op, lane.at(quads, 1), Word::UNDEF),
        Op::SponsorNew => new_sponsor_charge(may_grow(quads, sheet)),
        _ => unreachable!(),
    }
}

// A sponsor's quads and its item, or the item alone.
fn new_sponsor_charge(made: bool) -> Charge
    ensures { result ≡ charge (if made then 3 else 1) 0 }
{
    Charge {
        quads: if made { 3 } else { 1 },
        events: 0,
    }
}

// Whether there may be one sponsor more.
pub(crate) fn may_grow(quads: &Quads, sheet: &Sheet) -> bool
    requires { Belongs quads.now.store sheet.now }
    ensures { result ≡ nat_lt (length (sheet_in quads.now sheet.now)) most_sponsors }
{
    sheet.row(quads, 65535).is_none()
}
