use hum_outside::*;
use std::alloc::{AllocError, Global};
use std::fs;
use std::test::Fail;

fn folder(alloc: Global, files: &[(&str, &[u8])], fails: &[u64]) -> Result<MemFolder, AllocError> {
    let mut names = Vec::new(alloc);
    for (name, bytes) in files {
        names.push(NamedFile::new(String::from_str(alloc, name)?, bytes.to_vec(alloc)?))?;
    }
    Ok(MemFolder::new(names, fails.to_vec(alloc)?))
}

#[test]
fn reads_whole_files(rt: HostRuntime) -> Result<(), Fail> {
    let alloc = rt.alloc();
    let long = vec![in alloc; 7u8; 10000]?;
    let files: [(&str, &[u8]); 4] = [
        ("a", b"xyz"),
        ("long", &long),
        ("a", b"second"),
        ("none", b""),
    ];
    let failed = Err(ReadError::Failed);
    let rows: [(&str, u64, &[u64], Result<&[u8], ReadError>); 9] = [
        ("a", 3, &[], Ok(b"xyz")),
        ("a", 2, &[], Err(ReadError::TooLong)),
        ("a", 3, &[0], failed),
        ("a", 3, &[1], failed),
        ("a", 3, &[2], Ok(b"xyz")),
        ("long", 10000, &[], Ok(&long)),
        ("long", 9999, &[], Err(ReadError::TooLong)),
        ("none", 0, &[], Ok(b"")),
        ("absent", 9, &[], failed),
    ];
    for (name, limit, fails, want) in rows {
        let mut memory = folder(alloc, &files, fails)?;
        let read = read_all(alloc, &mut memory, name, limit);
        match (&read, want) {
            (Ok(bytes), Ok(want)) => assert!(rt; bytes.as_slice() == want, "{name} {limit}"),
            (Err(error), Err(want)) => assert!(rt; *error == want, "{name} {limit}"),
            _ => assert!(rt; false, "{name} {limit}"),
        }
    }
    let endless = read_all(alloc, &mut EndlessFolder::new(), "-", 5000);
    assert!(rt; endless.err() == Some(ReadError::TooLong));
    Ok(())
}

#[test]
fn writes_until_a_call_fails(rt: HostRuntime) -> Result<(), Fail> {
    let alloc = rt.alloc();
    let mut sink = MemSink::with_room(alloc, 8, 2, vec![in alloc; 2]?)?;
    assert!(rt; put_all(&mut sink, b"abcdef") == Err(Failed));
    assert_eq!(rt; sink.bytes(), b"abcd".as_slice());
    assert!(rt; put_parts(&mut sink, &[b"x", b"", b"yz"]) == Ok(()));
    assert!(rt; put_parts(&mut sink, &[b"!", b"?"]) == Err(Failed));
    assert_eq!(rt; sink.bytes(), b"abcdxyz!".as_slice());
    Ok(())
}

#[test]
fn the_real_files_and_streams(rt: HostRuntime) -> Result<(), Fail> {
    let name = "hum_outside_test.txt";
    let text = vec![in rt.alloc(); 7u8; 5000]?;
    fs::write(&rt, name, text.as_slice())?;
    let mut files = HostFolder::new(&rt);
    let whole = read_all(rt.alloc(), &mut files, name, 5000);
    let longer = read_all(rt.alloc(), &mut files, name, 4999);
    fs::remove_file(&rt, name)?;
    assert!(rt; whole? == text);
    assert!(rt; longer.err() == Some(ReadError::TooLong));
    assert!(rt; read_all(rt.alloc(), &mut files, name, 5000).err() == Some(ReadError::Failed));
    assert!(rt; files.fetch("-", 1, &mut [0]) == Err(Failed));
    assert!(rt; put_all(&mut HostSink::out(&rt), b"to standard output\n") == Ok(()));
    assert!(rt; put_all(&mut HostSink::err(&rt), b"to standard error\n") == Ok(()));
    assert!(rt; put_all(&mut HostSink::err(&rt), b"\xff") == Err(Failed));
    Ok(())
}
