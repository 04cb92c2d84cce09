// Modules that link, and why others do not.
use crate::calls::{BOOT, IMAGE, call_over, named};
use hum_outside::NamedFile;
use std::alloc::{AllocError, Global};
use std::test::Fail;

const LOST: &[u8] = b".export boot\n.import nowhere\nboot:\nend commit\n";

const CLOSED: &[u8] = b"boot:\nend commit\n";

const WRONG: &[u8] = b".export boot\nfrob 1\n";

const CALLER: &[u8] = b".export boot\n.import it\nboot:\npush it\nend commit\n";

const LIBRARY: &[u8] = b".export it\nit:\npair_t 1 2\n";

fn modules(alloc: Global) -> Result<Vec<NamedFile>, AllocError> {
    let long = vec![in alloc; b' '; 1_048_577]?;
    let mut files = Vec::new(alloc);
    files.push(named(alloc, "boot.asm", BOOT)?)?;
    files.push(named(alloc, "lost.asm", LOST)?)?;
    files.push(named(alloc, "closed.asm", CLOSED)?)?;
    files.push(named(alloc, "wrong.asm", WRONG)?)?;
    files.push(named(alloc, "caller.asm", CALLER)?)?;
    files.push(named(alloc, "library.asm", LIBRARY)?)?;
    files.push(named(alloc, "long.asm", &long)?)?;
    Ok(files)
}

// The words, how many bytes stand on out, what stands on err, and the status.
const LINKS: [(&[&str], usize, &str, u8); 12] = [
    (&["link", "boot.asm"], 28, "", 0),
    (&["link", "caller.asm", "library.asm"], 60, "", 0),
    (&["link", "library.asm", "caller.asm"], 60, "", 0),
    (&["link", "lost.asm"], 0, "link: no such name nowhere\n", 10),
    (
        &["link", "lost.asm", "boot.asm"],
        0,
        "link: name twice boot\n",
        10,
    ),
    (&["link", "closed.asm"], 0, "link: no boot\n", 10),
    (
        &["link", "wrong.asm"],
        0,
        "wrong.asm:2: no such operation\n",
        10,
    ),
    (
        &["link", "long.asm", "wrong.asm"],
        0,
        "long.asm:1: text too long\n",
        10,
    ),
    (
        &["link", "lost.asm", "wrong.asm", "long.asm"],
        0,
        "wrong.asm:2: no such operation\n",
        10,
    ),
    (
        &["link", "wrong.asm", "no.asm"],
        0,
        "cannot read no.asm\n",
        2,
    ),
    (
        &["link", "long.asm", "lanes=2"],
        0,
        "cannot read lanes=2\n",
        2,
    ),
    (
        &["link", "no1.asm", "no2.asm"],
        0,
        "cannot read no1.asm\n",
        2,
    ),
];

#[test]
fn linked_files(rt: HostRuntime) -> Result<(), Fail> {
    let alloc = rt.alloc();
    for (words, written, err, status) in LINKS {
        let got = call_over(alloc, words, modules(alloc)?, &[&[], &[], &[]])?;
        assert_eq!(rt; got.status, status, "{err}");
        assert_eq!(rt; got.out.bytes().len(), written, "{err}");
        assert_eq!(rt; got.err.bytes(), err.as_bytes());
        assert!(rt; got.left.is_nothing());
    }
    Ok(())
}

// The calls of the folder, of out and of err that fail; how many bytes then stand on out, what stands on err, and the status.
const LINK_FAULTS: [(&[&[u64]; 3], usize, &str, u8); 4] = [
    (&[&[], &[], &[0]], 28, "", 0),
    (&[&[], &[0], &[]], 0, "", 4),
    (&[&[], &[27], &[]], 27, "", 4),
    (&[&[1], &[], &[]], 0, "cannot read boot.asm\n", 2),
];

#[test]
fn faults_while_an_image_is_written(rt: HostRuntime) -> Result<(), Fail> {
    let alloc = rt.alloc();
    for (fails, written, err, status) in LINK_FAULTS {
        let got = call_over(alloc, &["link", "boot.asm"], modules(alloc)?, fails)?;
        assert_eq!(rt; got.status, status);
        assert_eq!(rt; got.out.bytes(), &IMAGE[..written]);
        assert_eq!(rt; got.err.bytes(), err.as_bytes());
    }
    Ok(())
}

// The status of a call with these words.
fn status_of(alloc: Global, words: &[&str]) -> Result<u8, AllocError> {
    let got = call_over(alloc, words, modules(alloc)?, &[&[], &[], &[]])?;
    Ok(got.status)
}

#[test]
fn at_most_64_files_are_linked(rt: HostRuntime) -> Result<(), Fail> {
    let alloc = rt.alloc();
    let mut words = ["closed.asm"; 66];
    words[0] = "link";
    assert_eq!(rt; status_of(alloc, &words)?, 1);
    assert_eq!(rt; status_of(alloc, &words[..65])?, 10);
    Ok(())
}
