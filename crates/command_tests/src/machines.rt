// Images and modules that run, and those that are refused.
use crate::calls::{IMAGE, call_with, exec_over};
use hum_outside::{EndlessFolder, MemSink};
use std::alloc::{AllocError, Global};
use std::test::Fail;

const SPIN: &str = ".export boot
boot:
 sponsor new
 push 1000
 sponsor memory
 push 50
 sponsor cycles
 dup 1
 my self
 sponsor start
 push 0
 roll -2
 push #nil
 push spin
 actor create
 roll 2
 actor post
 my state
 push ctl
 actor become
 end commit
ctl:
 msg 0
 state 1
 actor send
 end commit
spin:
 debug
 ref spin
";

const GETS: &str = ".export boot\nboot:\npush 5\nget 0\nstate 1\nactor send\nend commit\n";

const MAKES: &str =
    ".export boot\nboot:\npush 5\npush #actor_t\nquad 2\nstate 1\nactor send\nend commit\n";

const CREATES: &str = ".export boot\nboot:\npush #nil\npush boot\nactor create\nend commit\n";

const ABORTS: &str = ".export boot\nboot:\npush 1\nmy self\nactor send\npush 9\nend abort\n";

const FORGES: &str =
    ".export boot\nboot:\npush 7\npush #nil\npush 0\nactor create\nactor send\nend commit\n";

// A module, the keys, what stands on out and on err, the status, and the quads, events and cycles that the root spent.
const RUNS: [(&str, &[&str], &str, &str, u8, [u64; 3]); 10] = [
    (
        SPIN,
        &[],
        "3\n",
        "finished 4 committed 3 failed 0 spent 1 pending 0\n",
        0,
        [23, 3, 23],
    ),
    (
        SPIN,
        &["seed=7", "lanes=3"],
        "3\n",
        "finished 4 committed 3 failed 0 spent 1 pending 0\n",
        0,
        [23, 3, 23],
    ),
    (
        SPIN,
        &["bound=1"],
        "",
        "finished 1 committed 1 failed 0 spent 0 pending 1\n",
        6,
        [20, 2, 19],
    ),
    (
        SPIN,
        &["bound=0"],
        "",
        "finished 0 committed 0 failed 0 spent 0 pending 1\n",
        6,
        [0, 0, 0],
    ),
    (
        SPIN,
        &["bound=4"],
        "3\n",
        "finished 4 committed 3 failed 0 spent 1 pending 0\n",
        0,
        [23, 3, 23],
    ),
    (
        GETS,
        &[],
        "?\n",
        "finished 2 committed 2 failed 0 spent 0 pending 0\n",
        0,
        [4, 1, 5],
    ),
    (
        MAKES,
        &[],
        "?\n",
        "finished 2 committed 2 failed 0 spent 0 pending 0\n",
        0,
        [6, 1, 6],
    ),
    (
        CREATES,
        &["cycles=3"],
        "",
        "spent cycles\nfinished 1 committed 0 failed 0 spent 1 pending 0\n",
        5,
        [4, 0, 3],
    ),
    (
        ABORTS,
        &[],
        "",
        "event 0 failed: code 9\nfinished 1 committed 0 failed 1 spent 0 pending 0\n",
        9,
        [4, 1, 5],
    ),
    (
        FORGES,
        &[],
        "",
        "event 1 failed: bad instruction\nfinished 2 committed 1 failed 1 spent 0 pending 0\n",
        9,
        [6, 1, 7],
    ),
];

#[test]
fn modules_that_run(rt: HostRuntime) -> Result<(), Fail> {
    let alloc = rt.alloc();
    for (text, keys, out, err, status, spent) in RUNS {
        let got = exec_over(alloc, keys, text.as_bytes(), &[&[], &[], &[]])?;
        assert_eq!(rt; got.err.bytes(), err.as_bytes(), "{text}");
        assert_eq!(rt; got.out.bytes(), out.as_bytes(), "{text}");
        assert_eq!(rt; got.status, status, "{text}");
        let machine = got.left.machine().ok_or("a machine")?;
        assert_eq!(rt; machine.spent, Some(spent), "{text}");
        assert!(rt; status != 5 || !machine.created);
    }
    Ok(())
}

// Whether `exec` of a file of these bytes answers with that line on err and that status. What the call left is dropped here: a test that held
// several answers would be too large to be proved.
fn exec_says(alloc: Global, bytes: &[u8], line: &[u8], status: u8) -> Result<bool, AllocError> {
    let got = exec_over(alloc, &[], bytes, &[&[], &[], &[]])?;
    Ok(got.says(b"", line, status))
}

#[test]
fn an_image_cut_short(rt: HostRuntime) -> Result<(), Fail> {
    let alloc = rt.alloc();
    for len in 0..28 {
        let line = match len {
            0 => String::from_str(alloc, "link: no boot\n")?,
            1..=3 => String::from_str(alloc, "m.asm:1: no such operation\n")?,
            _ => format!(in alloc; "m.asm: image refused at {len}: truncated\n")?,
        };
        assert!(rt; exec_says(alloc, &IMAGE[..len], line.as_bytes(), 10)?);
    }
    Ok(())
}

#[test]
fn an_image_whole_and_continued(rt: HostRuntime) -> Result<(), Fail> {
    let alloc = rt.alloc();
    let counts = b"finished 1 committed 1 failed 0 spent 0 pending 0\n";
    assert!(rt; exec_says(alloc, &IMAGE, counts, 0)?);
    let mut more = IMAGE.to_vec(alloc)?;
    more.push(0)?;
    let line = b"m.asm: image refused at 28: extra bytes\n";
    assert!(rt; exec_says(alloc, &more, line, 10)?);
    Ok(())
}

#[test]
fn a_file_that_never_ends(rt: HostRuntime) -> Result<(), Fail> {
    let alloc = rt.alloc();
    let out = MemSink::with_room(alloc, 0, 1, Vec::new(alloc))?;
    let err = MemSink::with_room(alloc, 100, 1, Vec::new(alloc))?;
    let mut files = EndlessFolder::new();
    let got = call_with(alloc, &["exec", "i.img"], &mut files, out, err)?;
    assert_eq!(rt; got.status, 10);
    assert_eq!(rt; got.err.bytes(), b"i.img: file too long\n".as_slice());
    Ok(())
}

// The calls of the folder, of out and of err that fail while a module runs that writes a line and then fails; what then stands on out and
// on err.
const EXEC_FAULTS: [(&str, &[&[u64]; 3], &str, &str, u8); 5] = [
    (GETS, &[&[], &[1], &[]], "?", "", 4),
    (GETS, &[&[], &[], &[9]], "?\n", "finished ", 4),
    (ABORTS, &[&[], &[], &[6]], "", "event ", 4),
    (
        ABORTS,
        &[&[], &[], &[23]],
        "",
        "event 0 failed: code 9\n",
        4,
    ),
    (ABORTS, &[&[0], &[], &[]], "", "cannot read m.asm\n", 2),
];

#[test]
fn faults_while_a_module_runs(rt: HostRuntime) -> Result<(), Fail> {
    let alloc = rt.alloc();
    for (text, fails, out, err, status) in EXEC_FAULTS {
        let got = exec_over(alloc, &[], text.as_bytes(), fails)?;
        assert_eq!(rt; got.out.bytes(), out.as_bytes());
        assert_eq!(rt; got.err.bytes(), err.as_bytes());
        assert_eq!(rt; got.status, status);
    }
    Ok(())
}
