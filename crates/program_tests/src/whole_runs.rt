//! Runs that stop, and go on: why they stop, what they write, and what they count.

use hum_front::StartError;
use hum_outside::MemSink;
use hum_run::{Report, Run, Stop, WriteFault};
use instr_table::Quota;
use std::alloc::Global;
use std::process::Abort;
use std::test::Fail;
use vm_machine::Lanes;
use vm_sponsor::Grant;

const LABELS: &[u8] = b"LET label(tag, out) = \\m.[ SEND (tag, m) TO out ]
CREATE a WITH label(#a, println)
CREATE b WITH label(#b, a)
SEND 7 TO b";

// The run of a text before its first turn, with one lane.
fn started(rt: &impl Abort, alloc: Global, text: &[u8], cycles: u32) -> Result<Run, Fail> {
    let grant = Grant::new(10_000, 100, cycles).expect(rt, "a grant");
    match Run::start(alloc, text, grant, Lanes { count: 1, seed: 0 }) {
        Ok(run) => Ok(run),
        Err(_) => Err(Fail::new("the text is refused")),
    }
}

fn counts(finished: u32, committed: u32, failed: u32, spent: u32, pending: u32) -> Report {
    Report {
        finished,
        committed,
        failed,
        spent,
        pending,
    }
}

// The bounds of calls one after another; why each stops, what is counted then, and what stands on out.
const STOPS: [(Option<u32>, Stop, (u32, u32), &[u8]); 5] = [
    (Some(0), Stop::Bound, (0, 1), b""),
    (Some(2), Stop::Bound, (2, 1), b""),
    (Some(1), Stop::Bound, (2, 1), b""),
    (Some(4), Stop::Rest, (4, 0), b"(#a, #b, 7)\n"),
    (None, Stop::Rest, (4, 0), b"(#a, #b, 7)\n"),
];

#[test]
fn a_run_stops_and_goes_on(rt: HostRuntime) -> Result<(), Fail> {
    let alloc = rt.alloc();
    let mut run = started(&rt, alloc, LABELS, 10_000)?;
    let mut out = MemSink::with_room(alloc, 100, 100, Vec::new(alloc))?;
    let mut err = MemSink::with_room(alloc, 100, 100, Vec::new(alloc))?;
    for (bound, stop, (finished, pending), written) in STOPS {
        assert!(rt; run.advance(bound, &mut out, &mut err) == Ok(stop));
        assert_eq!(rt; run.report(), counts(finished, finished, 0, 0, pending));
        assert_eq!(rt; out.bytes(), written);
        assert_eq!(rt; err.bytes(), b"".as_slice());
    }
    Ok(())
}

#[test]
fn a_run_that_runs_out_stays_so(rt: HostRuntime) -> Result<(), Fail> {
    let alloc = rt.alloc();
    let mut run = started(&rt, alloc, b"LET f(x) = f(x) f(0)", 1000)?;
    let mut out = MemSink::with_room(alloc, 100, 100, Vec::new(alloc))?;
    let mut err = MemSink::with_room(alloc, 100, 100, Vec::new(alloc))?;
    for bound in [None, Some(0)] {
        let stop = run.advance(bound, &mut out, &mut err);
        assert!(rt;
            stop == Ok(Stop::Spent {
                kind: Quota::Cycles,
                held: 0
            })
        );
        assert_eq!(rt; run.report(), counts(1, 0, 0, 1, 0));
    }
    Ok(())
}

// The call on out fails in which the third byte of the line is put.
#[test]
fn a_run_that_cannot_write_is_broken(rt: HostRuntime) -> Result<(), Fail> {
    let alloc = rt.alloc();
    let mut run = started(&rt, alloc, LABELS, 10_000)?;
    let mut out = MemSink::with_room(alloc, 100, 1, vec![in alloc; 2]?)?;
    let mut err = MemSink::with_room(alloc, 100, 100, Vec::new(alloc))?;
    let fault = run.advance(None, &mut out, &mut err);
    assert!(rt; fault == Err(WriteFault { on_err: false }));
    for _ in 0..2 {
        assert_eq!(rt; out.bytes(), b"(#".as_slice());
        assert_eq!(rt; run.report(), counts(3, 3, 0, 0, 1));
        assert!(rt; run.sim().machine().queue().event(3).is_some());
        assert!(rt; run.advance(None, &mut out, &mut err) == Ok(Stop::Broken));
    }
    Ok(())
}

// A text, the call on err that fails, what then stands on err, and how many events are finished, committed and failed, and messages pending.
const UNTOLD: [(&[u8], u64, &[u8], [u32; 4]); 2] = [
    (b"SEND 5 TO say SEND 6 TO println", 3, b"eve", [2, 1, 1, 1]),
    (b"SEND 1 TO println THROW #no", 0, b"", [1, 0, 1, 0]),
];

// Whether the run of a text, which cannot tell of its first failure, ends that event, leaves that on err and those counts, and is broken then.
// The run is dropped here: a test that held several would be too large to be proved.
fn breaks_untold(
    rt: &impl Abort,
    alloc: Global,
    text: &[u8],
    call: u64,
    told: &[u8],
    ended: [u32; 4],
) -> Result<bool, Fail> {
    let mut run = started(rt, alloc, text, 10_000)?;
    let mut out = MemSink::with_room(alloc, 100, 100, Vec::new(alloc))?;
    let mut err = MemSink::with_room(alloc, 100, 1, vec![in alloc; call]?)?;
    let fault = run.advance(None, &mut out, &mut err);
    let [finished, committed, failed, pending] = ended;
    let first = fault == Err(WriteFault { on_err: true })
        && run.report() == counts(finished, committed, failed, 0, pending);
    let second = run.advance(Some(0), &mut out, &mut err) == Ok(Stop::Broken)
        && run.report() == counts(finished, committed, failed, 0, pending);
    Ok(first && second && err.bytes() == told && out.bytes().is_empty())
}

#[test]
fn a_run_that_cannot_tell_of_a_failure_is_broken(rt: HostRuntime) -> Result<(), Fail> {
    for (text, call, told, ended) in UNTOLD {
        assert!(rt; breaks_untold(&rt, rt.alloc(), text, call, told, ended)?);
    }
    Ok(())
}

#[test]
fn a_text_that_is_refused_has_no_run(rt: HostRuntime) -> Result<(), Fail> {
    let grant = Grant::new(0, 0, 0).expect(&rt, "a grant");
    let refused = Run::start(
        rt.alloc(),
        b"SEND 1 TO",
        grant,
        Lanes { count: 64, seed: 0 },
    );
    assert!(rt; matches!(refused, Err(StartError::Parse { .. })));
    Ok(())
}
