//! Worked programs: what each writes, and how its events end.

ghost use Rattle.std.specs.Prelude.{◌≤◌};

use hum_outside::MemSink;
use hum_sim::{Sim, compile};
use std::alloc::Global;
use std::process::Abort;
use std::test::Fail;
use vm_machine::Lanes;
use vm_sponsor::Grant;
use vm_turn::{Outcome, Turn};

/// The program of a text, booted with ample grants.
pub fn booted(rt: &impl Abort, alloc: Global, text: &[u8], lanes: Lanes) -> Result<Sim, Fail>
    requires some_lanes { 1 ≤ lanes.count }
    requires lanes_limit { lanes.count ≤ 64 }
{
    let Ok(compiled) = compile(alloc, text) else {
        return Err(Fail::new("the text is refused"));
    };
    let grant = Grant::new(1_000_000, 1000, 1_000_000).expect(rt, "a grant");
    Ok(Sim::boot(alloc, compiled, grant, lanes)?)
}

/// How the events of a program end, with 0 for one that commits, and what it writes.
pub fn runs(
    rt: &impl Abort,
    alloc: Global,
    text: &[u8],
    lanes: Lanes,
    ends: &[i32],
    written: &[u8],
) -> Result<(), Fail>
    requires some_lanes { 1 ≤ lanes.count }
    requires lanes_limit { lanes.count ≤ 64 }
{
    let mut sim = booted(rt, alloc, text, lanes)?;
    let mut out = MemSink::with_room(alloc, 1000, 100, Vec::new(alloc))?;
    for _ in 0..200_000 {
        match sim.turn(&mut out) {
            Ok(Turn::Rest) => break,
            Ok(_) => {}
            Err(_) => return Err(Fail::new("a write fault")),
        }
    }
    assert_eq!(rt; out.bytes(), written);
    let mut found = Vec::new(alloc);
    for entry in sim.machine().journal() {
        found.push(match entry.outcome {
            Outcome::Committed => 0,
            Outcome::Failed(reason) => reason.number().unwrap_or(99),
            Outcome::RanOut(_) => 98,
        })?;
    }
    assert_eq!(rt; found.as_slice(), ends);
    Ok(())
}

const ROWS: [(&[u8], &[i32], &[u8]); 24] = [
    (b"", &[0], b""),
    (b"SEND 42 TO println", &[0, 0], b"42\n"),
    (
        b"SEND add(1073741823, 1) TO println",
        &[0, 0],
        b"-1073741824\n",
    ),
    (b"SEND mul(65536, 65536) TO println", &[0, 0], b"0\n"),
    (
        b"LET fact(n) = CASE n OF 0 : 1 _ : mul(n, fact(sub(n, 1))) END SEND fact(13) TO println",
        &[0, 0],
        b"-215430144\n",
    ),
    (b"SEND 1 TO println THROW #no", &[7], b""),
    (b"CASE 3 OF 1 : [ ] END", &[1], b""),
    (
        b"LET t(a, b) = CASE a OF $b : #yes _ : #no END SEND t((1, 2), (1, 2)) TO println SEND t(t, t) TO println",
        &[0, 0, 0],
        b"#yes\n#no\n",
    ),
    (
        b"LET e(a) = equal(a, a) SEND e(e) TO println SEND e([ ]) TO println SEND e((1, #a)) TO println",
        &[0, 0, 0, 0],
        b"FALSE\nFALSE\nTRUE\n",
    ),
    (
        b"SEND \"hi\" TO say SEND \"\" TO say",
        &[0, 0, 0],
        b"hi\n\n",
    ),
    (
        b"LET a = 5 LET f(a, $a, b) = (a, b) SEND f(1, 5, 3) TO println",
        &[0, 0],
        b"(1, 3)\n",
    ),
    (
        b"LET f(x) = CASE x OF (1, a) : #a 9 : #b _ : #c END SEND f(9, 0) TO println SEND f(9) TO println SEND f(1, 0) TO println",
        &[0, 0, 0, 0],
        b"#c\n#b\n#a\n",
    ),
    (
        b"SEND CASE 2 OF 1 : #a 2 : #b 2 : #c _ : #d END TO println",
        &[0, 0],
        b"#b\n",
    ),
    (
        b"LET size(n) = CASE n OF (_, x) : x #one : 1 #two : 2 NIL : 0 y : y END
        SEND size((4, 5)) TO println SEND size(#one) TO println SEND size(#two) TO println
        SEND size(NIL) TO println SEND size(9) TO println",
        &[0, 0, 0, 0, 0, 0],
        b"5\n1\n2\n0\n9\n",
    ),
    (
        b"IF less(2, 1) [ SEND 1 TO println ] ELIF less(1, 2) [ SEND 2 TO println ] ELSE [ SEND 3 TO println ]
        IF FALSE [ SEND 1 TO println ] ELIF FALSE [ SEND 2 TO println ] ELSE [ SEND 3 TO println ]",
        &[0, 0, 0],
        b"2\n3\n",
    ),
    (b"IF 1 [ ]", &[5], b""),
    (b"SEND and(TRUE, 1) TO println", &[5], b""),
    (b"SEND and(FALSE, 1) TO println", &[5], b""),
    (b"SEND 1 TO 2", &[3], b""),
    (b"SEND add(1, #a) TO add(1)", &[4], b""),
    (b"LET f = 3 SEND f(4) TO println", &[2], b""),
    // Three programs of actors.
    (
        b"LET label(tag, out) = \\m.[ SEND (tag, m) TO out ] CREATE a WITH label(#a, println)
        CREATE b WITH label(#b, a) SEND 7 TO b",
        &[0, 0, 0, 0],
        b"(#a, #b, 7)\n",
    ),
    (
        b"LET twice(out) = \\m.[ CASE m OF #bad : [ BECOME quiet BECOME quiet ] _ : [ SEND m TO out ] END ]
        LET quiet = \\_.[ ] CREATE t WITH twice(println) SEND #bad TO t SEND 5 TO t",
        &[0, 6, 0, 0],
        b"5\n",
    ),
    (
        b"LET answer(n) = \\cust.[ SEND n TO cust ]
        LET start(x, y, cust) = \\_.[ SEND SELF TO x SEND SELF TO y BECOME \\a.[ BECOME \\b.[ SEND add(a, b) TO cust ] ] ]
        CREATE x WITH answer(3) CREATE y WITH answer(4) CREATE j WITH start(x, y, println) SEND NIL TO j",
        &[0, 0, 0, 0, 0, 0, 0],
        b"7\n",
    ),
];

// With one event in flight at a time, and with up to eight.
#[test]
fn rows(rt: HostRuntime) -> Result<(), Fail> {
    for (text, ends, written) in ROWS.iter() {
        let one = Lanes { count: 1, seed: 7 };
        runs(&rt, rt.alloc(), text, one, ends, written)?;
        let eight = Lanes { count: 8, seed: 3 };
        runs(&rt, rt.alloc(), text, eight, ends, written)?;
    }
    Ok(())
}
