// Turns of a machine to an end, with one line for each event that fails.
use cap_words::Word;
use failure_lines::put_failure;
use hum_outside::MemSink;
use hum_run::{Report, Stop, WriteFault, drive, report_of};
use instr_table::{Op, Quota, encode};
use quad_memory::{Image, NoMemory};
use std::alloc::Global;
use std::process::Abort;
use std::test::Fail;
use vm_machine::{Lanes, Machine};
use vm_sponsor::Grant;

fn rom(rt: &impl Abort, n: u32) -> Word {
    Word::rom_bits(n).expect(rt, "a ROM word")
}

// Message 0 sends the number 5 to `println` and to `say`, which refuses it.
fn sends(rt: &impl Abort, alloc: Global) -> Result<Image, NoMemory> {
    let five = Word::fix(5).expect(rt, "a number");
    let cells = vec![in alloc;
        encode(Op::Push(five), rom(rt, 17)),
        encode(Op::State(1), rom(rt, 18)),
        encode(Op::ActorSend, rom(rt, 19)),
        encode(Op::Push(five), rom(rt, 20)),
        encode(Op::State(2), rom(rt, 21)),
        encode(Op::ActorSend, rom(rt, 22)),
        encode(Op::End(1), Word::UNDEF),
    ]?;
    Ok(Image::new(rom(rt, 16), cells).expect(rt, "an image"))
}

fn machine(rt: &impl Abort, alloc: Global, cycles: u32) -> Result<Machine, NoMemory> {
    let image = sends(rt, alloc)?;
    let grant = Grant::new(100, 10, cycles).expect(rt, "a grant");
    Machine::boot(alloc, &image, grant, Lanes { count: 1, seed: 0 })
}

// The cycles that are granted and the bound; why it stops, what then stands on out and on err, and how many events committed, failed and ran
// out of what was granted, and how many messages wait.
const ROWS: [(u32, Option<u32>, Stop, &str, &str, [u32; 4]); 4] = [
    (
        7,
        None,
        Stop::Rest,
        "5\n",
        "event 2 failed: device refused\n",
        [2, 1, 0, 0],
    ),
    (
        7,
        Some(3),
        Stop::Rest,
        "5\n",
        "event 2 failed: device refused\n",
        [2, 1, 0, 0],
    ),
    (7, Some(1), Stop::Bound, "", "", [1, 0, 0, 2]),
    (
        6,
        Some(1),
        Stop::Spent {
            kind: Quota::Cycles,
            held: 0,
        },
        "",
        "",
        [0, 0, 1, 0],
    ),
];

#[test]
fn turns_to_an_end(rt: HostRuntime) -> Result<(), Fail> {
    let alloc = rt.alloc();
    for (cycles, bound, stop, on_out, on_err, counts) in ROWS {
        let mut machine = machine(&rt, alloc, cycles)?;
        let mut out = MemSink::with_room(alloc, 100, 100, Vec::new(alloc))?;
        let mut err = MemSink::with_room(alloc, 100, 100, Vec::new(alloc))?;
        assert!(rt; drive(&mut machine, bound, &mut out, &mut err) == Ok(stop));
        let Report {
            committed,
            failed,
            spent,
            pending,
            ..
        } = report_of(&machine);
        assert_eq!(rt; [committed, failed, spent, pending], counts);
        assert_eq!(rt; out.bytes(), on_out.as_bytes());
        assert_eq!(rt; err.bytes(), on_err.as_bytes());
    }
    Ok(())
}

// Which call on out and which on err fails; which of them it was, what then stands on out and on err, and how many events are finished.
const FAULTS: [(&[u64], &[u64], bool, &str, &str, usize); 2] = [
    (&[1], &[], false, "5", "", 1),
    (&[], &[3], true, "5\n", "eve", 3),
];

#[test]
fn faults_while_turns_are_taken(rt: HostRuntime) -> Result<(), Fail> {
    let alloc = rt.alloc();
    for (out_fails, err_fails, fault, on_out, on_err, finished) in FAULTS {
        let mut machine = machine(&rt, alloc, 7)?;
        let mut out = MemSink::with_room(alloc, 100, 1, out_fails.to_vec(alloc)?)?;
        let mut err = MemSink::with_room(alloc, 100, 1, err_fails.to_vec(alloc)?)?;
        let answer = drive(&mut machine, None, &mut out, &mut err);
        assert!(rt; answer == Err(WriteFault { on_err: fault }));
        assert_eq!(rt; out.bytes(), on_out.as_bytes());
        assert_eq!(rt; err.bytes(), on_err.as_bytes());
        assert_eq!(rt; machine.journal().len(), finished);
    }
    Ok(())
}

// Reasons by their numbers, and the texts.
const REASONS: [(i32, &str); 17] = [
    (1, "no match"),
    (2, "not a function"),
    (3, "not an actor"),
    (4, "not a number"),
    (5, "not a truth value"),
    (6, "second become"),
    (7, "thrown"),
    (8, "device refused"),
    (9, "code 9"),
    (16, "bad instruction"),
    (17, "assertion failed"),
    (18, "not fresh"),
    (19, "not a sponsor"),
    (20, "short"),
    (21, "stopped"),
    (22, "running"),
    (-1073741824, "code -1073741824"),
];

#[test]
fn texts_of_failures(rt: HostRuntime) -> Result<(), Fail> {
    let alloc = rt.alloc();
    for (number, text) in REASONS {
        let mut err = MemSink::with_room(alloc, 100, 100, Vec::new(alloc))?;
        let reason = Word::fix(number).expect(&rt, "a number");
        assert!(rt; put_failure(&mut err, 12, reason).is_ok());
        let line = format!(in alloc; "event 12 failed: {text}\n")?;
        assert_eq!(rt; err.bytes(), line.as_bytes());
    }
    let mut err = MemSink::with_room(alloc, 100, 100, Vec::new(alloc))?;
    assert!(rt; put_failure(&mut err, 0, Word::NIL).is_ok());
    assert_eq!(rt; err.bytes(), b"event 0 failed: aborted\n".as_slice());
    Ok(())
}
