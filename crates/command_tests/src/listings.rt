// The listings of code, and why files have none.
use crate::calls::{BOOT, IMAGE, call_over, exec_over, named};
use std::alloc::{AllocError, Global};
use std::test::Fail;

const LISTED: &str = ".export boot\nboot:\nend commit\n";

// The file, its bytes, what stands on out and on err, and the status.
const FILES: [(&str, &[u8], &str, &str, u8); 7] = [
    ("m.asm", BOOT, LISTED, "", 0),
    ("i.img", &IMAGE, LISTED, "", 0),
    (
        "m.asm",
        b".export boot\nfrob 1\n",
        "",
        "m.asm:2: no such operation\n",
        10,
    ),
    (
        "i.img",
        b"UFQ1",
        "",
        "i.img: image refused at 4: truncated\n",
        10,
    ),
    ("f.hum", BOOT, "", "f.hum:1:1: not a program\n", 3),
    ("f", b"x", "", "f:1:1: unbound name x\n", 3),
    ("f.hum", b"\x01", "", "f.hum:1:1: bad byte\n", 3),
];

#[test]
fn listings_of_files(rt: HostRuntime) -> Result<(), Fail> {
    let alloc = rt.alloc();
    for (name, bytes, out, err, status) in FILES {
        let file = named(alloc, name, bytes)?;
        let got = call_over(
            alloc,
            &["asm", name],
            vec![in alloc; file]?,
            &[&[], &[], &[]],
        )?;
        assert_eq!(rt; got.err.bytes(), err.as_bytes());
        assert_eq!(rt; got.out.bytes(), out.as_bytes());
        assert_eq!(rt; got.status, status);
        assert!(rt; got.left.is_nothing());
    }
    Ok(())
}

// What `asm` writes of a file that holds these bytes.
fn listing_of(alloc: Global, name: &str, bytes: &[u8]) -> Result<Vec<u8>, AllocError> {
    let file = named(alloc, name, bytes)?;
    let got = call_over(
        alloc,
        &["asm", name],
        vec![in alloc; file]?,
        &[&[], &[], &[]],
    )?;
    got.out.bytes().to_vec(alloc)
}

// The listing of a text's code is a module that does what the text does, and it lists as itself.
#[test]
fn a_listing_runs(rt: HostRuntime) -> Result<(), Fail> {
    let alloc = rt.alloc();
    let listing = listing_of(alloc, "f.hum", b"SEND 42 TO println")?;
    let got = exec_over(alloc, &[], &listing, &[&[], &[], &[]])?;
    assert_eq!(rt; got.out.bytes(), b"42\n".as_slice());
    assert_eq!(rt;
        got.err.bytes(),
        b"finished 2 committed 2 failed 0 spent 0 pending 0\n".as_slice()
    );
    assert_eq!(rt; got.status, 0);
    let again = listing_of(alloc, "l.asm", &listing)?;
    assert_eq!(rt; again.as_slice(), listing.as_slice());
    Ok(())
}

// Which call of the folder and of out fails; what then stands on out and on err, and the status.
const FAULTS: [(&[&[u64]; 3], &str, &str, u8); 3] = [
    (&[&[1], &[], &[]], "", "cannot read m.asm\n", 2),
    (&[&[], &[0], &[]], "", "", 4),
    (&[&[], &[7], &[]], ".export", "", 4),
];

#[test]
fn faults_while_a_listing_is_written(rt: HostRuntime) -> Result<(), Fail> {
    let alloc = rt.alloc();
    for (fails, out, err, status) in FAULTS {
        let file = named(alloc, "m.asm", BOOT)?;
        let got = call_over(alloc, &["asm", "m.asm"], vec![in alloc; file]?, fails)?;
        assert_eq!(rt; got.out.bytes(), out.as_bytes());
        assert_eq!(rt; got.err.bytes(), err.as_bytes());
        assert_eq!(rt; got.status, status);
    }
    Ok(())
}
