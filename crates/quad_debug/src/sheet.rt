// The sponsors and their amounts.

ghost use Rattle.std.specs.Prelude.{◌≡◌, OnOk, OnErr};
ghost use Rattle.hum_outside.specs.Outside.{HasCause, AppendsFront, appended};
ghost use Rattle.vm_sponsor.specs.Ledger.{of_kind};
ghost use Rattle.vm_sponsor.specs.Sheets.{shown};
ghost use Rattle.instr_table.specs.Sheet.{Account};
ghost use Rattle.quad_debug.specs.Texts as spec;
ghost use Rattle.quad_debug.specs.Reading.{row_amount};

use crate::lines::kind_name;
use hum_outside::{Failed, Sink, put_parts};
use instr_table::Quota;
use itoa::Buffer;
use vm_machine::Machine;
use vm_sponsor::{Amounts, SheetRow};

fn of_kind(kind: Quota, amounts: Amounts) -> u64
    ensures { result ≡ of_kind kind amounts }
{
    match kind {
        Quota::Memory => amounts.memory,
        Quota::Events => amounts.events,
        Quota::Cycles => amounts.cycles,
    }
}

// Writes the line of a sponsor and one kind.
fn put_amount<K: Sink>(out: &mut K, number: u32, kind: Quota, row: &SheetRow) -> Result<(), Failed>
    ensures all { OnOk result (K.written out.new ≡ appended (K.written out.old) (spec.amount_line number kind (row_amount kind row.now))) }
    ensures front { OnErr result (AppendsFront (K.written out.old) (K.written out.new) (spec.amount_line number kind (row_amount kind row.now))) }
    ensures cause { HasCause (K.faults out.old) (K.faults out.new) result }
{
    let (mut sponsor, mut received, mut passed) = (Buffer::new(), Buffer::new(), Buffer::new());
    let (mut spent, mut held) = (Buffer::new(), Buffer::new());
    put_parts(
        out,
        &[
            b"* sponsor ",
            sponsor.format(number).as_bytes(),
            b" ",
            kind_name(kind),
            b" received ",
            received.format(of_kind(kind, row.received)).as_bytes(),
            b" passed ",
            passed.format(of_kind(kind, row.passed)).as_bytes(),
            b" spent ",
            spent.format(of_kind(kind, row.spent)).as_bytes(),
            b" held ",
            held.format(of_kind(kind, row.held)).as_bytes(),
            b"\n",
        ],
    )
}

// Writes the three lines of a sponsor.
fn put_account<K: Sink>(out: &mut K, number: u32, row: &SheetRow) -> Result<(), Failed>
    ensures all { (a : Account) → row.now ≡ shown a → OnOk result (K.written out.new ≡ appended (K.written out.old) (spec.account_lines number a)) }
    ensures front { (a : Account) → row.now ≡ shown a → OnErr result (AppendsFront (K.written out.old) (K.written out.new) (spec.account_lines number a)) }
    ensures cause { HasCause (K.faults out.old) (K.faults out.new) result }
{
    put_amount(out, number, Quota::Memory, row)?;
    put_amount(out, number, Quota::Events, row)?;
    put_amount(out, number, Quota::Cycles, row)
}

/// Writes the lines of all sponsors, in order of making.
pub fn put_sheet<K: Sink>(out: &mut K, machine: &Machine) -> Result<(), Failed>
    ensures all { OnOk result (K.written out.new ≡ appended (K.written out.old) (spec.sheet_lines 0 machine.now.state.sheet)) }
    ensures front { OnErr result (AppendsFront (K.written out.old) (K.written out.new) (spec.sheet_lines 0 machine.now.state.sheet)) }
    ensures cause { HasCause (K.faults out.old) (K.faults out.new) result }
{
    let _turns = machine.turns();
    let (sheet, quads) = (machine.sheet(), machine.quads());
    let mut number = 0;
    // There are no more sponsors than quads.
    'rows: while number < quads.used() {
        let Some(row) = sheet.row(quads, number) else {
            return Ok(());
        };
        put_account(out, number, &row)?;
        number += 1;
    }
    Ok(())
}
