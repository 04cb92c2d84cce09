// A run over an outside that fails, is full, or cuts its text short; the same of an image is in `machines`.
use crate::calls::{call_over, call_with, named, run_over};
use crate::runs::LABELS;
use hum_outside::{MemFolder, MemSink};
use std::alloc::{AllocError, Global};
use std::test::Fail;

// What the text writes, a byte a call.
const LINE: &[u8] = b"(#a, #b, 7)\n";

#[test]
fn a_folder_that_fails(rt: HostRuntime) -> Result<(), Fail> {
    let alloc = rt.alloc();
    for call in 0..2 {
        let got = run_over(alloc, &[], LABELS.as_bytes(), &[&[call], &[], &[]])?;
        assert_eq!(rt; got.err.bytes(), b"cannot read f.hum\n".as_slice());
        assert!(rt; got.out.bytes().is_empty() && got.status == 2);
    }
    Ok(())
}

#[test]
fn an_output_that_fails(rt: HostRuntime) -> Result<(), Fail> {
    let alloc = rt.alloc();
    for call in 0..12 {
        let got = run_over(alloc, &[], LABELS.as_bytes(), &[&[], &[call], &[]])?;
        assert_eq!(rt; got.out.bytes(), &LINE[..call as usize]);
        assert!(rt; got.err.bytes().is_empty() && got.status == 4);
        let run = got.left.run().ok_or("a run")?;
        assert_eq!(rt; run.ended, 3);
        assert!(rt; run.pending == 1 && run.given == 4);
    }
    Ok(())
}

// Whether a call of the program over these files, in which these calls of the outside fail, ends with 4 and leaves that on out and on err. What
// the call left is dropped here: a test that held several answers would be too large to be proved.
fn breaks(
    alloc: Global,
    words: &[&str],
    texts: &[(&str, &str)],
    fails: &[&[u64]; 3],
    left: [&[u8]; 2],
) -> Result<bool, AllocError> {
    let mut files = Vec::new(alloc);
    for (name, text) in texts {
        files.push(named(alloc, name, text.as_bytes())?)?;
    }
    let got = call_over(alloc, words, files, fails)?;
    Ok(got.says(left[0], left[1], 4))
}

// Whether such a call that writes that on out and then on err ends with 4 and what it wrote before, where any one byte cannot be written.
fn breaks_at_each_byte(
    alloc: Global,
    words: &[&str],
    texts: &[(&str, &str)],
    out: &[u8],
    err: &[u8],
) -> Result<bool, AllocError> {
    for call in 0..out.len() {
        let fails = [call as u64];
        if !breaks(
            alloc,
            words,
            texts,
            &[&[], &fails, &[]],
            [&out[..call], &[]],
        )? {
            return Ok(false);
        }
    }
    for call in 0..err.len() {
        let fails = [call as u64];
        if !breaks(
            alloc,
            words,
            texts,
            &[&[], &[], &fails],
            [out, &err[..call]],
        )? {
            return Ok(false);
        }
    }
    Ok(true)
}

// The events of a text or a module that sends one message.
const COUNTS: &[u8] = b"finished 2 committed 2 failed 0 spent 0 pending 0\n";

const TEXT: (&str, &str) = ("f.hum", "SEND 42 TO println");

#[test]
fn a_run_that_cannot_write(rt: HostRuntime) -> Result<(), Fail> {
    let words = ["run", "f.hum"];
    assert!(rt; breaks_at_each_byte(rt.alloc(), &words, &[TEXT], b"42\n", COUNTS)?);
    Ok(())
}

#[test]
fn a_module_that_cannot_write(rt: HostRuntime) -> Result<(), Fail> {
    let words = ["exec", "m.asm"];
    let text = ".export boot\nboot:\npush 42\nstate 1\nactor send\nend commit\n";
    assert!(rt; breaks_at_each_byte(rt.alloc(), &words, &[("m.asm", text)], b"42\n", COUNTS)?);
    Ok(())
}

// A debugger writes nothing on err.
#[test]
fn a_debugger_that_cannot_write(rt: HostRuntime) -> Result<(), Fail> {
    let words = ["debug", "f.hum", "s.txt"];
    let texts = [TEXT, ("s.txt", "queue\nevent 5\nback 2\n")];
    let out = b"* ready 0\n* event 0 committed\n42\n* event 1 committed\n* rest\n\
        * event 0 committed\n* event 1 committed\n";
    assert!(rt; breaks_at_each_byte(rt.alloc(), &words, &texts, out, &[])?);
    Ok(())
}

#[test]
fn an_output_that_is_full(rt: HostRuntime) -> Result<(), Fail> {
    let alloc = rt.alloc();
    let file = named(alloc, "f.hum", LABELS.as_bytes())?;
    let mut files = MemFolder::new(vec![in alloc; file]?, Vec::new(alloc));
    let out = MemSink::with_room(alloc, 5, 100, Vec::new(alloc))?;
    let err = MemSink::with_room(alloc, 100, 100, Vec::new(alloc))?;
    let got = call_with(alloc, &["run", "f.hum"], &mut files, out, err)?;
    assert_eq!(rt; got.status, 4);
    assert_eq!(rt; got.out.bytes(), b"(#a, ".as_slice());
    assert!(rt; got.err.bytes().is_empty());
    Ok(())
}

// The lengths at which the text can be cut between statements, or behind a call's name, which is a value too.
const WHOLE: [usize; 11] = [0, 49, 50, 69, 82, 83, 102, 109, 110, 121, 122];

#[test]
fn a_text_cut_short(rt: HostRuntime) -> Result<(), Fail> {
    let alloc = rt.alloc();
    let text = LABELS.as_bytes();
    assert_eq!(rt; text.len(), 122);
    for len in 0..=text.len() {
        let got = run_over(alloc, &[], &text[..len], &[&[], &[], &[]])?;
        let status = if WHOLE.contains(&len) { 0 } else { 3 };
        assert_eq!(rt; got.status, status, "{len}");
    }
    Ok(())
}
