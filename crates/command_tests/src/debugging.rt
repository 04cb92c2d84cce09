// Machines that obey scripts, and why others do not.
use crate::calls::{BOOT, IMAGE, Outcome, call_over, named};
use crate::words::USAGE;
use std::alloc::{AllocError, Global};
use std::test::Fail;

const FORTY_TWO: &[u8] = b"SEND 42 TO println";

const MODULE: (&str, &[u8]) = ("m.asm", BOOT);

const BYTES: (&str, &[u8]) = ("i.img", &IMAGE);

const TEXT: (&str, &[u8]) = ("f.hum", FORTY_TWO);

const SCRIPT: (&str, &[u8]) = ("s.txt", b"event 9\n");

// A script of which the second line is no command.
const WALKS: (&str, &[u8]) = ("s.txt", b"event 9\nwalk\n");

const CELLS: (&str, &[u8]) = ("s.txt", b"show rom 16\nshow rom 17\nshow ram 7\n");

// Whether the call wrote that and ended so, and left its machine where it was obeyed.
fn is_debugged(got: &Outcome, out: &str, err: &str, status: u8) -> bool {
    got.says(out.as_bytes(), err.as_bytes(), status)
        && got.left.machine().is_some() == (status == 0)
        && got.left.is_nothing() == (status != 0)
}

// Whether `debug` with these keys and that script over a text of one message writes that and ends so. What it left is dropped here: a test that
// held several answers would be too large to be proved.
fn script_says(
    alloc: Global,
    keys: &[&str],
    script: &str,
    out: &str,
    err: &str,
    status: u8,
) -> Result<bool, AllocError> {
    let mut words = vec![in alloc; "debug", "f.hum", "s.txt"]?;
    words.extend_from_slice(keys)?;
    let text = named(alloc, "f.hum", FORTY_TWO)?;
    let commands = named(alloc, "s.txt", script.as_bytes())?;
    let files = vec![in alloc; text, commands]?;
    let got = call_over(alloc, &words, files, &[&[], &[], &[]])?;
    Ok(is_debugged(&got, out, err, status))
}

#[test]
fn scripts_that_are_obeyed(rt: HostRuntime) -> Result<(), Fail> {
    let alloc = rt.alloc();
    let script = "queue\nevent 1\nqueue\nevent 5\nback 2\n";
    let out = "* ready 0\n* event 0 committed\n* ready 1\n42\n* event 1 committed\n* rest\n\
        * event 0 committed\n* event 1 committed\n";
    assert!(rt; script_says(alloc, &[], script, out, "", 0)?);
    assert!(rt; script_says(alloc, &[], "", "", "", 0)?);
    let script = "show rom 15\nshow ram 999999999\n";
    let out = "* rom 15 none\n* ram 999999999 none\n";
    assert!(rt; script_says(alloc, &[], script, out, "", 0)?);
    Ok(())
}

#[test]
fn scripts_with_keys(rt: HostRuntime) -> Result<(), Fail> {
    let alloc = rt.alloc();
    let out = "* event 0 spent cycles\n* spent\n\
        * sponsor 0 memory received 1048576 passed 0 spent 2 held 1048574\n\
        * sponsor 0 events received 65536 passed 0 spent 0 held 65536\n\
        * sponsor 0 cycles received 2 passed 0 spent 2 held 0\n* turn 4\n";
    assert!(rt; script_says(alloc, &["cycles=2"], "event 1\nsheet\nstep 1\n", out, "", 0)?);
    let script = "break 1\nqueue\nstep 1000\nqueue\nbreak 1\n";
    let out = "* event 0 committed\n42\n* event 1 committed\n* turn 31\n* rest\n";
    assert!(rt; script_says(alloc, &["lanes=64", "seed=7"], script, out, "", 0)?);
    Ok(())
}

#[test]
fn scripts_that_are_refused(rt: HostRuntime) -> Result<(), Fail> {
    let alloc = rt.alloc();
    let first = "s.txt:1: not a command\n";
    assert!(rt; script_says(alloc, &[], "walk 3", "", first, 11)?);
    let third = "s.txt:3: not a command\n";
    assert!(rt; script_says(alloc, &[], "queue\n\nback 65\nwalk 3\n", "", third, 11)?);
    assert!(rt; script_says(alloc, &["bound=1"], "queue", "", USAGE, 1)?);
    assert!(rt; script_says(alloc, &["lanes=0"], "queue", "", USAGE, 1)?);
    Ok(())
}

// Whether `debug` of that name by the script `s.txt` over these files writes that alone and ends so: on out where the script was obeyed, and else
// on err.
fn code_says(
    alloc: Global,
    name: &str,
    files: &[(&str, &[u8])],
    told: &str,
    status: u8,
) -> Result<bool, AllocError> {
    let mut held = Vec::new(alloc);
    for (name, bytes) in files {
        held.push(named(alloc, name, bytes)?)?;
    }
    let words = ["debug", name, "s.txt"];
    let got = call_over(alloc, &words, held, &[&[], &[], &[]])?;
    if status == 0 {
        return Ok(is_debugged(&got, told, "", 0));
    }
    Ok(is_debugged(&got, "", told, status))
}

#[test]
fn code_of_each_kind(rt: HostRuntime) -> Result<(), Fail> {
    let alloc = rt.alloc();
    let one = "* event 0 committed\n* rest\n";
    assert!(rt; code_says(alloc, "m.asm", &[MODULE, SCRIPT], one, 0)?);
    assert!(rt; code_says(alloc, "i.img", &[BYTES, SCRIPT], one, 0)?);
    let two = "* event 0 committed\n42\n* event 1 committed\n* rest\n";
    assert!(rt; code_says(alloc, "f.hum", &[TEXT, SCRIPT], two, 0)?);
    let cells = "* rom 16 00000009 80000015 80000001 00000000\n* rom 17 none\n\
        * ram 7 60000000 60000006 00000001 00000001\n";
    assert!(rt; code_says(alloc, "m.asm", &[MODULE, CELLS], cells, 0)?);
    assert!(rt; code_says(alloc, "i.img", &[BYTES, CELLS], cells, 0)?);
    let second = "s.txt:2: not a command\n";
    assert!(rt; code_says(alloc, "m.asm", &[MODULE, WALKS], second, 11)?);
    assert!(rt; code_says(alloc, "i.img", &[BYTES, WALKS], second, 11)?);
    assert!(rt; code_says(alloc, "f.hum", &[TEXT, WALKS], second, 11)?);
    let text = "m.hum:1:1: not a program\n";
    assert!(rt; code_says(alloc, "m.hum", &[("m.hum", BOOT), SCRIPT], text, 3)?);
    let module = "f:1: no such operation\n";
    assert!(rt; code_says(alloc, "f", &[("f", FORTY_TWO), SCRIPT], module, 10)?);
    assert!(rt; code_says(alloc, "m.asm", &[SCRIPT], "cannot read m.asm\n", 2)?);
    assert!(rt; code_says(alloc, "m.asm", &[MODULE], "cannot read s.txt\n", 2)?);
    Ok(())
}

// Whether code of that name and these bytes is refused so, whatever the script has, and a script that is not there is told before that.
fn is_refused_first(
    alloc: Global,
    name: &str,
    bytes: &[u8],
    why: &str,
    status: u8,
) -> Result<bool, AllocError> {
    let code = (name, bytes);
    Ok(
        code_says(alloc, name, &[code, SCRIPT], why, status)?
            && code_says(alloc, name, &[code, WALKS], why, status)?
            && code_says(alloc, name, &[code], "cannot read s.txt\n", 2)?,
    )
}

#[test]
fn code_is_refused_before_its_script(rt: HostRuntime) -> Result<(), Fail> {
    let alloc = rt.alloc();
    let text = "f.hum:1:10: not a program\n";
    assert!(rt; is_refused_first(alloc, "f.hum", b"SEND 1 TO", text, 3)?);
    let image = "i.img: image refused at 20: truncated\n";
    assert!(rt; is_refused_first(alloc, "i.img", &IMAGE[..20], image, 10)?);
    let module = "m.asm:2: no such operation\n";
    assert!(rt; is_refused_first(alloc, "m.asm", b".export boot\nfrob 1\n", module, 10)?);
    let link = "link: no boot\n";
    assert!(rt; is_refused_first(alloc, "m.asm", b"boot:\nend commit\n", link, 10)?);
    Ok(())
}

// Whether `debug` of that module by a script of so many blanks writes that on err and nothing on out, and ends so.
fn blanks_say(
    alloc: Global,
    module: &[u8],
    count: usize,
    told: &str,
    status: u8,
) -> Result<bool, AllocError> {
    let blanks = vec![in alloc; b' '; count]?;
    let code = named(alloc, "m.asm", module)?;
    let script = named(alloc, "s.txt", &blanks)?;
    let files = vec![in alloc; code, script]?;
    let got = call_over(alloc, &["debug", "m.asm", "s.txt"], files, &[&[], &[], &[]])?;
    Ok(is_debugged(&got, "", told, status))
}

#[test]
fn a_script_at_its_limit(rt: HostRuntime) -> Result<(), Fail> {
    let alloc = rt.alloc();
    assert!(rt; blanks_say(alloc, BOOT, 1_048_576, "", 0)?);
    assert!(rt; blanks_say(alloc, BOOT, 1_048_577, "s.txt:1: not a command\n", 11)?);
    assert!(rt;
        blanks_say(
            alloc,
            b"boot:\nend commit\n",
            1_048_577,
            "link: no boot\n",
            10
        )?
    );
    Ok(())
}
