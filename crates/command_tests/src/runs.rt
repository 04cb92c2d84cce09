// Texts that run, and those that are refused.
use crate::calls::{Counts, call_over, call_with, run_over};
use crate::words::USAGE;
use hum_command::chain_text;
use hum_outside::{EndlessFolder, MemSink};
use std::alloc::{AllocError, Global};
use std::test::Fail;

// Sends a number through two actors, which label it.
pub const LABELS: &str = "LET label(tag, out) = \\m.[ SEND (tag, m) TO out ]
CREATE a WITH label(#a, println)
CREATE b WITH label(#b, a)
SEND 7 TO b
";

// An actor that becomes another twice, and so fails and goes on as before.
const TWICE: &str = "LET twice(out) = \\m.[
  CASE m OF
  #bad : [ BECOME quiet BECOME quiet ]
  _ : [ SEND m TO out ]
  END ]
LET quiet = \\_.[ ]
CREATE t WITH twice(println)
SEND #bad TO t
SEND 5 TO t
";

// Pairs that were made apart are the same; a function is the same as itself.
const SAME: &str = "LET t(a, b) = CASE a OF $b : #yes _ : #no END
SEND t((1, 2), (1, 2)) TO println
SEND t(t, t) TO println
";

// Two answers are added by the actor that asked for them.
const JOIN: &str = "LET answer(n) = \\cust.[ SEND n TO cust ]
LET start(x, y, cust) = \\_.[
  SEND SELF TO x
  SEND SELF TO y
  BECOME \\a.[ BECOME \\b.[ SEND add(a, b) TO cust ] ] ]
CREATE x WITH answer(3)
CREATE y WITH answer(4)
CREATE j WITH start(x, y, println)
SEND NIL TO j
";

const ENDLESS: &str = "LET f(x) = f(x)
f(0)
";

const FACTORIAL: &str = "LET fact(n) = CASE n OF 0 : 1 _ : mul(n, fact(sub(n, 1))) END
SEND fact(13) TO println
";

// A pair with 2 to the 20 leaves.
const DOUBLES: &str = "LET d(n, x) = CASE n OF 0 : x _ : d(sub(n, 1), (x, x)) END
SEND d(20, 1) TO println
";

// A text, the keys, what stands on out and on err, and the status.
const ROWS: [(&str, &[&str], &str, &str, u8); 21] = [
    (
        "",
        &[],
        "",
        "finished 1 committed 1 failed 0 spent 0 pending 0\n",
        0,
    ),
    (
        "SEND 42 TO println",
        &[],
        "42\n",
        "finished 2 committed 2 failed 0 spent 0 pending 0\n",
        0,
    ),
    (
        "SEND add(1073741823, 1) TO println",
        &[],
        "-1073741824\n",
        "finished 2 committed 2 failed 0 spent 0 pending 0\n",
        0,
    ),
    (
        "SEND mul(65536, 65536) TO println",
        &[],
        "0\n",
        "finished 2 committed 2 failed 0 spent 0 pending 0\n",
        0,
    ),
    (
        "SEND -1073741824 TO println",
        &[],
        "-1073741824\n",
        "finished 2 committed 2 failed 0 spent 0 pending 0\n",
        0,
    ),
    (
        FACTORIAL,
        &[],
        "-215430144\n",
        "finished 2 committed 2 failed 0 spent 0 pending 0\n",
        0,
    ),
    (
        LABELS,
        &[],
        "(#a, #b, 7)\n",
        "finished 4 committed 4 failed 0 spent 0 pending 0\n",
        0,
    ),
    (
        "SEND 1 TO println\nTHROW #no",
        &[],
        "",
        "event 0 failed: thrown\nfinished 1 committed 0 failed 1 spent 0 pending 0\n",
        9,
    ),
    (
        TWICE,
        &[],
        "5\n",
        "event 1 failed: second become\nfinished 4 committed 3 failed 1 spent 0 pending 0\n",
        9,
    ),
    (
        TWICE,
        &["lanes=4", "seed=1"],
        "5\n",
        "event 1 failed: second become\nfinished 4 committed 3 failed 1 spent 0 pending 0\n",
        9,
    ),
    (
        "CASE 3 OF 1 : [ ] END",
        &[],
        "",
        "event 0 failed: no match\nfinished 1 committed 0 failed 1 spent 0 pending 0\n",
        9,
    ),
    (
        SAME,
        &[],
        "#yes\n#no\n",
        "finished 3 committed 3 failed 0 spent 0 pending 0\n",
        0,
    ),
    (
        ENDLESS,
        &["cycles=10000"],
        "",
        "spent cycles\nfinished 1 committed 0 failed 0 spent 1 pending 0\n",
        5,
    ),
    (
        LABELS,
        &["lanes=64", "seed=4294967295"],
        "(#a, #b, 7)\n",
        "finished 4 committed 4 failed 0 spent 0 pending 0\n",
        0,
    ),
    (
        LABELS,
        &["bound=2"],
        "",
        "finished 2 committed 2 failed 0 spent 0 pending 1\n",
        6,
    ),
    (
        LABELS,
        &["bound=4"],
        "(#a, #b, 7)\n",
        "finished 4 committed 4 failed 0 spent 0 pending 0\n",
        0,
    ),
    (
        JOIN,
        &["lanes=1"],
        "7\n",
        "finished 7 committed 7 failed 0 spent 0 pending 0\n",
        0,
    ),
    (
        JOIN,
        &["lanes=8", "seed=3"],
        "7\n",
        "finished 7 committed 7 failed 0 spent 0 pending 0\n",
        0,
    ),
    (
        DOUBLES,
        &[],
        "",
        "event 1 failed: device refused\nfinished 2 committed 1 failed 1 spent 0 pending 0\n",
        9,
    ),
    (
        "SEND \"hi\" TO say SEND \"\" TO say",
        &[],
        "hi\n\n",
        "finished 3 committed 3 failed 0 spent 0 pending 0\n",
        0,
    ),
    (
        "SEND 5 TO say",
        &[],
        "",
        "event 1 failed: device refused\nfinished 2 committed 1 failed 1 spent 0 pending 0\n",
        9,
    ),
];

#[test]
fn texts_that_run(rt: HostRuntime) -> Result<(), Fail> {
    let alloc = rt.alloc();
    for (text, keys, out, err, status) in ROWS {
        let got = run_over(alloc, keys, text.as_bytes(), &[&[], &[], &[]])?;
        assert_eq!(rt; got.err.bytes(), err.as_bytes(), "{text}");
        assert_eq!(rt; got.out.bytes(), out.as_bytes(), "{text}");
        assert_eq!(rt; got.status, status, "{text}");
        assert!(rt; got.left.run().is_some());
    }
    Ok(())
}

// A text, and what stands on err where it is refused.
const REFUSED: [(&str, &str); 11] = [
    (
        "SEND 1073741824 TO println",
        "f.hum:1:6: number out of range\n",
    ),
    ("SEND 1 TO", "f.hum:1:10: not a program\n"),
    ("SEND 1 TO\n", "f.hum:1:11: not a program\n"),
    ("AFTER", "f.hum:1:1: not in this profile\n"),
    ("SEND x TO println", "f.hum:1:6: unbound name x\n"),
    ("LET a = 1 LET a = 2", "f.hum:1:15: name bound twice a\n"),
    (
        "SEND 1 TO println\n\n  SEND why TO println",
        "f.hum:3:8: unbound name why\n",
    ),
    ("SEND \x01 TO println", "f.hum:1:6: bad byte\n"),
    ("SEND \"hi", "f.hum:1:6: bad text\n"),
    ("SEND 1\n TO ) 6", "f.hum:2:5: not a program\n"),
    ("SEND 1 TO println )", "f.hum:1:19: not a program\n"),
];

#[test]
fn texts_that_are_refused(rt: HostRuntime) -> Result<(), Fail> {
    let alloc = rt.alloc();
    for (text, err) in REFUSED {
        let got = run_over(alloc, &[], text.as_bytes(), &[&[], &[], &[]])?;
        assert_eq!(rt; got.err.bytes(), err.as_bytes(), "{text}");
        assert_eq!(rt; got.status, 3, "{text}");
        assert!(rt; got.out.bytes().is_empty() && got.left.is_nothing());
    }
    Ok(())
}

// How often a piece is repeated, and then blanks up to the length; the status, and what stands on err.
const LIMITS: [(&str, usize, usize, u8, &str); 5] = [
    (
        "",
        0,
        1_048_576,
        0,
        "finished 1 committed 1 failed 0 spent 0 pending 0\n",
    ),
    ("", 0, 1_048_577, 3, "f.hum: text too long\n"),
    ("SEND x ", 1, 1_048_577, 3, "f.hum: text too long\n"),
    ("1 ", 16_001, 0, 3, "f.hum:1:32001: program too large\n"),
    ("x", 129, 0, 3, "f.hum:1:1: name too long\n"),
];

#[test]
fn texts_at_their_limits(rt: HostRuntime) -> Result<(), Fail> {
    let alloc = rt.alloc();
    for (piece, times, length, status, err) in LIMITS {
        let mut text = Vec::new(alloc);
        for _ in 0..times {
            text.extend_from_slice(piece.as_bytes())?;
        }
        let blanks = vec![in alloc; b' '; length.saturating_sub(text.len())]?;
        text.extend_from_slice(&blanks)?;
        let got = run_over(alloc, &[], &text, &[&[], &[], &[]])?;
        assert_eq!(rt; got.err.bytes(), err.as_bytes());
        assert_eq!(rt; got.status, status);
    }
    Ok(())
}

// The built-ins and the devices are 14 names, and at most 4,000 may be in scope.
#[test]
fn a_text_with_too_many_names(rt: HostRuntime) -> Result<(), Fail> {
    let alloc = rt.alloc();
    let mut text = String::new(alloc);
    for n in 1..3988 {
        let line = format!(in alloc; "LET n{n} = {n}\n")?;
        text.push_str(&line)?;
    }
    let got = run_over(alloc, &[], text.as_bytes(), &[&[], &[], &[]])?;
    assert_eq!(rt;
        got.err.bytes(),
        b"f.hum:3987:5: too many names\n".as_slice()
    );
    assert_eq!(rt; got.status, 3);
    Ok(())
}

#[test]
fn a_text_that_is_not_there(rt: HostRuntime) -> Result<(), Fail> {
    let alloc = rt.alloc();
    let got = call_over(alloc, &["run", "no.hum"], Vec::new(alloc), &[&[], &[], &[]])?;
    assert_eq!(rt; got.err.bytes(), b"cannot read no.hum\n".as_slice());
    assert_eq!(rt; got.status, 2);
    Ok(())
}

#[test]
fn a_text_that_never_ends(rt: HostRuntime) -> Result<(), Fail> {
    let alloc = rt.alloc();
    let out = MemSink::with_room(alloc, 0, 1, Vec::new(alloc))?;
    let err = MemSink::with_room(alloc, 100, 1, Vec::new(alloc))?;
    let mut files = EndlessFolder::new();
    let got = call_with(alloc, &["run", "-"], &mut files, out, err)?;
    assert_eq!(rt; got.status, 3);
    assert_eq!(rt; got.err.bytes(), b"-: text too long\n".as_slice());
    Ok(())
}

// A text; the calls of the folder, of out and of err that fail; what then stands on out and on err, and the status.
const FAULTS: [(&str, &[&[u64]; 3], &str, &str, u8); 9] = [
    ("", &[&[0], &[], &[]], "", "cannot read f.hum\n", 2),
    ("", &[&[0], &[], &[3]], "", "can", 2),
    ("SEND", &[&[], &[], &[3]], "", "f.h", 3),
    (LABELS, &[&[], &[2], &[]], "(#", "", 4),
    (LABELS, &[&[], &[], &[9]], "(#a, #b, 7)\n", "finished ", 4),
    (
        "SEND 5 TO say SEND 6 TO println",
        &[&[], &[], &[6]],
        "",
        "event ",
        4,
    ),
    (
        "SEND 5 TO say SEND 6 TO println",
        &[&[], &[1], &[]],
        "6",
        "event 1 failed: device refused\n",
        4,
    ),
    (
        "SEND 5 TO say SEND 6 TO println",
        &[&[], &[], &[31]],
        "6\n",
        "event 1 failed: device refused\n",
        4,
    ),
    (ENDLESS, &[&[], &[], &[6]], "", "spent ", 4),
];

#[test]
fn faults_while_a_text_runs(rt: HostRuntime) -> Result<(), Fail> {
    let alloc = rt.alloc();
    for (text, fails, out, err, status) in FAULTS {
        let got = run_over(alloc, &["cycles=10000"], text.as_bytes(), fails)?;
        assert_eq!(rt; got.out.bytes(), out.as_bytes(), "{text}");
        assert_eq!(rt; got.err.bytes(), err.as_bytes(), "{text}");
        assert_eq!(rt; got.status, status, "{text}");
        assert!(rt; got.left.run().is_some() == (status == 4));
    }
    Ok(())
}

// What the events of a text came to in the run that is left, where these calls on out fail.
fn counts_left(alloc: Global, text: &str, fails: &[u64]) -> Result<Option<Counts>, AllocError> {
    let got = run_over(alloc, &[], text.as_bytes(), &[&[], fails, &[]])?;
    Ok(got.left.run())
}

#[test]
fn the_run_that_is_left(rt: HostRuntime) -> Result<(), Fail> {
    let alloc = rt.alloc();
    let whole = counts_left(alloc, JOIN, &[])?.ok_or("a run")?;
    assert!(rt; whole.ended == 7 && whole.in_order && whole.pending == 0);
    let broken = counts_left(alloc, LABELS, &[2])?.ok_or("a run")?;
    assert!(rt; broken.ended == 3 && broken.in_order);
    assert!(rt; broken.pending == 1 && broken.given == 4);
    Ok(())
}

// The event is finished, though the first byte of its line can't be written.
#[test]
fn a_failure_of_which_nothing_is_told(rt: HostRuntime) -> Result<(), Fail> {
    let alloc = rt.alloc();
    let text = b"SEND 1 TO println THROW #no";
    let got = run_over(alloc, &[], text, &[&[], &[], &[0]])?;
    assert!(rt; got.says(b"", b"", 4));
    let run = got.left.run().ok_or("a run")?;
    assert!(rt; run.ended == 1 && run.in_order);
    assert!(rt; run.pending == 0 && run.given == 1);
    Ok(())
}

// Whether `chain` with these words behind it writes that and ends so. What it left is dropped here: a test that held several answers would be too
// large to be proved.
fn chain_says(
    alloc: Global,
    words: &[&str],
    out: &str,
    err: &str,
    status: u8,
) -> Result<bool, AllocError> {
    let mut all = vec![in alloc; "chain"]?;
    all.extend_from_slice(words)?;
    let got = call_over(alloc, &all, Vec::new(alloc), &[&[], &[], &[]])?;
    Ok(
        got.says(out.as_bytes(), err.as_bytes(), status)
            && got.left.run().is_some() == (status != 1),
    )
}

#[test]
fn chains_of_actors(rt: HostRuntime) -> Result<(), Fail> {
    let alloc = rt.alloc();
    let one = "finished 3 committed 3 failed 0 spent 0 pending 0\n";
    assert!(rt; chain_says(alloc, &["1"], "1\n", one, 0)?);
    let many = "finished 502 committed 502 failed 0 spent 0 pending 0\n";
    assert!(rt; chain_says(alloc, &["500"], "500\n", many, 0)?);
    let bound = "finished 12 committed 12 failed 0 spent 0 pending 1\n";
    assert!(rt; chain_says(alloc, &["0012", "bound=12", "lanes=64"], "", bound, 6)?);
    Ok(())
}

#[test]
fn chains_without_a_form(rt: HostRuntime) -> Result<(), Fail> {
    let alloc = rt.alloc();
    for number in ["0", "2001", "a"] {
        assert!(rt; chain_says(alloc, &[number], "", USAGE, 1)?);
    }
    assert!(rt; chain_says(alloc, &[], "", USAGE, 1)?);
    Ok(())
}

#[test]
fn the_text_of_a_chain(rt: HostRuntime) -> Result<(), Fail> {
    let alloc = rt.alloc();
    let text = chain_text(alloc, 2)?;
    let lines = [
        "LET fwd(next) = \\n.[ SEND add(n, 1) TO next ]\n",
        "CREATE a1 WITH fwd(println)\n",
        "CREATE a2 WITH fwd(a1)\n",
        "SEND 0 TO a2\n",
    ];
    let mut wanted = String::new(alloc);
    for line in lines {
        wanted.push_str(line)?;
    }
    assert_eq!(rt; text.as_slice(), wanted.as_bytes());
    Ok(())
}

#[test]
fn the_longest_chain(rt: HostRuntime) -> Result<(), Fail> {
    let alloc = rt.alloc();
    let words = ["chain", "2000", "memory=4194304"];
    let got = call_over(alloc, &words, Vec::new(alloc), &[&[], &[], &[]])?;
    assert_eq!(rt; got.out.bytes(), b"2000\n".as_slice());
    assert_eq!(rt;
        got.err.bytes(),
        b"finished 2002 committed 2002 failed 0 spent 0 pending 0\n".as_slice()
    );
    assert_eq!(rt; got.status, 0);
    Ok(())
}
