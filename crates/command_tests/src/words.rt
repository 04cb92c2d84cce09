// Words and keys in and out of their form.
use crate::calls::{BOOT, call_over, exec_over};
use std::test::Fail;

pub const USAGE: &str = "usage: humus COMMAND FILE.. [KEY=N..]\n";

// Words without a form.
const FORMLESS: [&[&str]; 17] = [
    &[],
    &["--help"],
    &["walk", "boot.asm"],
    &["run"],
    &["run", ""],
    &["run", "boot.asm", "boot.asm"],
    &["run", "boot.asm", "memory=16777217"],
    &["link"],
    &["link", ""],
    &["link", "boot.asm", ""],
    &["links", "boot.asm"],
    &["asm"],
    &["asm", ""],
    &["asm", "boot.asm", "boot.asm"],
    &["exec"],
    &["exec", ""],
    &["exec", "boot.asm", "boot.asm"],
];

#[test]
fn words_without_a_form(rt: HostRuntime) -> Result<(), Fail> {
    let alloc = rt.alloc();
    for words in FORMLESS {
        let got = call_over(alloc, words, Vec::new(alloc), &[&[], &[], &[]])?;
        assert_eq!(rt; got.status, 1);
        assert_eq!(rt; got.err.bytes(), USAGE.as_bytes());
        assert!(rt; got.out.bytes().is_empty());
    }
    Ok(())
}

// The keys of `exec`, and whether they have a form.
const KEYS: [(&[&str], bool); 22] = [
    (&["lanes=64", "bound=0000000001", "seed=4294967295"], true),
    (&["cycles=1073741823", "events=0", "memory=0"], true),
    (&["seed=0", "lanes=001"], true),
    (&["lanes=0"], false),
    (&["lanes=65"], false),
    (&["memory=16777217"], false),
    (&["events=4194305"], false),
    (&["cycles=1073741824"], false),
    (&["seed=4294967296"], false),
    (&["bound=4294967296"], false),
    (&["bound=00000000001"], false),
    (&["bound=9999999999"], false),
    (&["bound="], false),
    (&["bound=+1"], false),
    (&["bound=-1"], false),
    (&["bound=1a"], false),
    (&["bound= 1"], false),
    (&["bound"], false),
    (&["bounds=1"], false),
    (&["Bound=1"], false),
    (&["seed=1", "lanes=2", "seed=1"], false),
    (&[""], false),
];

#[test]
fn keys_in_and_out_of_their_form(rt: HostRuntime) -> Result<(), Fail> {
    let alloc = rt.alloc();
    for (keys, formed) in KEYS {
        let got = exec_over(alloc, keys, BOOT, &[&[], &[], &[]])?;
        assert_eq!(rt; got.status != 1, formed);
        assert_eq!(rt; got.err.bytes() != USAGE.as_bytes(), formed);
    }
    Ok(())
}

#[test]
fn more_words_than_keys(rt: HostRuntime) -> Result<(), Fail> {
    let alloc = rt.alloc();
    let mut keys = vec![in alloc; "memory=1"]?;
    for _ in 0..120_000 {
        keys.push("x")?;
    }
    let got = exec_over(alloc, &keys, BOOT, &[&[], &[], &[]])?;
    assert_eq!(rt; got.err.bytes(), USAGE.as_bytes());
    assert_eq!(rt; got.status, 1);
    Ok(())
}
