// Machines turn by turn, and what is left in them.
use crate::modules::{committed, grant_of, image_of, machine_of};
use crate::rows::{Answer, ROWS, Row, WORKERS};
use cap_words::Word;
use hum_outside::MemSink;
use instr_table::Quota;
use std::alloc::Global;
use std::process::Abort;
use std::test::Fail;
use vm_devices::WriteFault;
use vm_machine::*;
use vm_sponsor::{Amounts, SheetRow};
use vm_turn::{Entry, Outcome, Turn};

fn failed(message: u32, reason: i32) -> Entry {
    let outcome = Outcome::Failed(Word::fix(reason).unwrap_or(Word::UNDEF));
    Entry { message, outcome }
}

fn ran_out(message: u32) -> Entry {
    let outcome = Outcome::RanOut(Quota::Cycles);
    Entry { message, outcome }
}

fn turn_of(answer: Answer) -> Turn {
    match answer {
        Answer::Dispatched => Turn::Dispatched,
        Answer::Stepped => Turn::Stepped,
        Answer::Committed(message) => Turn::Finished(committed(message)),
        Answer::Failed(message, reason) => Turn::Finished(failed(message, reason)),
        Answer::RanOut(message) => Turn::Finished(ran_out(message)),
        Answer::Rest => Turn::Rest,
        Answer::Spent => Turn::Spent {
            sponsor: Word::cap(0),
            kind: Quota::Cycles,
        },
    }
}

// Whether so many turns are all answered so.
fn repeats(machine: &mut Machine, out: &mut MemSink, count: u32, answer: Answer) -> bool {
    for _ in 0..count {
        if machine.turn(out) != Ok(turn_of(answer)) {
            return false;
        }
    }
    true
}

fn answers(machine: &mut Machine, out: &mut MemSink, turns: &[(u32, Answer)]) -> bool {
    for (count, answer) in turns {
        if !repeats(machine, out, *count, *answer) {
            return false;
        }
    }
    true
}

fn has_journal(machine: &Machine, journal: &[Answer]) -> bool {
    for (entry, answer) in machine.journal().iter().zip(journal.iter()) {
        if Turn::Finished(*entry) != turn_of(*answer) {
            return false;
        }
    }
    machine.journal().len() == journal.len()
}

fn has_flight(machine: &Machine, in_flight: Option<u32>) -> bool {
    for number in 0..4 {
        if machine.in_flight(number) != (in_flight == Some(number)) {
            return false;
        }
    }
    true
}

fn has_counts(machine: &Machine, counts: [u64; 4]) -> bool {
    let given = machine.queue().given() as u64;
    let pending = machine.pending() as u64;
    let used = machine.quads().used() as u64;
    [machine.turns(), given, pending, used] == counts
}

fn actor_in(roll: &[u8], number: u32) -> Option<Word> {
    let place = roll.get(number as usize)?;
    Some(Word::cap(*place as u32))
}

fn has_roll(machine: &Machine, roll: &[u8]) -> bool {
    for number in 0..5 {
        if machine.actor_at(number) != actor_in(roll, number) {
            return false;
        }
    }
    true
}

fn are(amounts: &Amounts, wanted: &[u64; 3]) -> bool {
    [amounts.memory, amounts.events, amounts.cycles] == *wanted
}

fn is_row(row: &SheetRow, wanted: &[[u64; 3]; 4]) -> bool {
    let [received, passed, spent, held] = wanted;
    are(&row.received, received)
        && are(&row.passed, passed)
        && are(&row.spent, spent)
        && are(&row.held, held)
}

// Whether the sponsor of that number is the one in that place, or both are not there.
fn has_sponsor(machine: &Machine, number: u32, sponsors: &[[[u64; 3]; 4]]) -> bool {
    let row = machine.sheet().row(machine.quads(), number);
    match (row, sponsors.get(number as usize)) {
        (Some(row), Some(wanted)) => is_row(&row, wanted),
        (None, None) => true,
        _ => false,
    }
}

fn has_sponsors(machine: &Machine, sponsors: &[[[u64; 3]; 4]]) -> bool {
    for number in 0..3 {
        if !has_sponsor(machine, number, sponsors) {
            return false;
        }
    }
    true
}

fn leaves(machine: &Machine, row: &Row) -> bool {
    has_journal(machine, row.journal)
        && has_flight(machine, row.in_flight)
        && machine.ran_out() == row.is_spent.then_some(Quota::Cycles)
        && has_counts(machine, row.counts)
        && has_roll(machine, row.roll)
        && has_sponsors(machine, row.sponsors)
}

// Whether the machine does what its row says. It is dropped here: a test that held several machines would be too large to be proved.
fn does(rt: &impl Abort, alloc: Global, row: &Row) -> Result<bool, NoMemory> {
    let mut machine = machine_of(rt, alloc, row.text, row.grant, row.lanes)?;
    let mut out = MemSink::with_room(alloc, 100, 100, Vec::new(alloc))?;
    let answered = answers(&mut machine, &mut out, row.turns);
    Ok(answered && out.bytes() == row.written.as_bytes() && leaves(&machine, row))
}

#[test]
fn machines_do_what_their_rows_say(rt: HostRuntime) -> Result<(), Fail> {
    for row in &ROWS {
        let name = row.name;
        assert!(rt; does(&rt, rt.alloc(), row)?, "{name}");
    }
    Ok(())
}

// Takes one turn for each pick.
fn take(core: &mut Core, picks: &[u32], out: &mut MemSink) {
    for pick in picks {
        let _turn = core.turn_with(*pick, out);
    }
}

// Whether the workers in three lanes, where the second byte that is written fails, fail so behind these picks, and write that by those.
fn picked(
    rt: &impl Abort,
    alloc: Global,
    before: &[u32],
    after: &[u32],
    written: &str,
) -> Result<bool, NoMemory> {
    let image = image_of(rt, alloc, WORKERS);
    let mut core = Core::boot(alloc, &image, grant_of(rt, [100, 10, 100]), 3)?;
    let mut out = MemSink::with_room(alloc, 100, 1, vec![in alloc; 1]?)?;
    take(&mut core, before, &mut out);
    let refused = core.turn_with(0, &mut out);
    take(&mut core, after, &mut out);
    let rests = core.turn_with(0, &mut out);
    Ok(refused == Err(WriteFault) && rests == Ok(Turn::Rest) && out.bytes() == written.as_bytes())
}

#[test]
fn picks_choose_the_event(rt: HostRuntime) -> Result<(), Fail> {
    let before = [0, 0, 0, 0, 0, 0, 0, 0, 0, 0, 0, 0, 0, 0, 0, 0, 1, 3, 5, 7];
    assert!(rt; picked(&rt, rt.alloc(), &before, &[0; 8], "88\n7\n")?);
    Ok(())
}
