//! Worked texts: at which line and column each is refused, and for which cause.

use hum_front::{StartError, line_column, name_at, read_text};
use hum_lex::{LexCause, LexRefused};
use hum_meaning::ScopeCause;
use hum_scope::ScopeRefused;
use std::alloc::Global;
use std::test::Fail;

fn refusal(alloc: Global, text: &[u8]) -> Option<StartError> {
    match read_text(alloc, text) {
        Ok(_) => None,
        Err(why) => Some(why),
    }
}

// The line and the column of a byte.
fn place(text: &[u8], at: u32) -> (usize, usize) {
    let place = line_column(text, at as usize);
    (place.line, place.column)
}

const NO_TOKENS: [(&[u8], u32, LexCause, (usize, usize)); 6] = [
    (
        b"SEND 1073741824 TO println",
        5,
        LexCause::NumberRange,
        (1, 6),
    ),
    (b"AFTER", 0, LexCause::NotInProfile, (1, 1)),
    (b"SEND 1 TO println\n\x07", 18, LexCause::BadByte, (2, 1)),
    (
        b"SEND 1 TO say\n SEND \"a TO say",
        20,
        LexCause::BadText,
        (2, 7),
    ),
    (
        b"\r\n\r\n aaaaaaaaaaaaaaaaaaaaaaaaaaaaaaaaaaaaaaaaaaaaaaaaaaaaaaaaaaaaaaaaaaaaaaaaaaaaaaaaaaaaaaaaaaaaaaaaaaaaaaaaaaaaaaaaaaaaaaaaaaaaaaaaa",
        5,
        LexCause::RunTooLong,
        (3, 2),
    ),
    (b"SEND x TO println ]\n#(", 20, LexCause::BadByte, (2, 1)),
];

const NO_TREE: [(&[u8], u32, (usize, usize)); 6] = [
    (b"SEND 1 TO", 9, (1, 10)),
    (b"SEND 1 TO\n", 10, (1, 11)),
    (b"SEND 1 TO\r\n\n", 12, (2, 2)),
    (b"[", 1, (1, 2)),
    (b"SEND x TO x\n]", 12, (2, 1)),
    (b"LET a = 1\n\nLET a = \n= 2", 20, (4, 1)),
];

const NOT_SCOPED: [(&[u8], u32, ScopeCause, (usize, usize), &[u8]); 4] = [
    (b"SEND x TO println", 5, ScopeCause::Unbound, (1, 6), b"x"),
    (b"LET a = 1 LET a = 2", 14, ScopeCause::Twice, (1, 15), b"a"),
    (
        b"LET a = 1\r\nSEND b2(a) TO println\r\n",
        16,
        ScopeCause::Unbound,
        (2, 6),
        b"b2",
    ),
    (b"SEND #y TO y", 11, ScopeCause::Unbound, (1, 12), b"y"),
];

#[test]
fn refusals(rt: HostRuntime) {
    let alloc = rt.alloc();
    for (text, at, cause, wanted) in NO_TOKENS.iter() {
        let why = LexRefused {
            at: *at,
            cause: *cause,
        };
        assert!(rt; refusal(alloc, text) == Some(StartError::Lex(why)));
        assert_eq!(rt; place(text, *at), *wanted);
    }
    for (text, at, wanted) in NO_TREE.iter() {
        assert!(rt; refusal(alloc, text) == Some(StartError::Parse { at: *at }));
        assert_eq!(rt; place(text, *at), *wanted);
    }
    for (text, at, cause, wanted, name) in NOT_SCOPED.iter() {
        let why = ScopeRefused {
            at: *at,
            cause: *cause,
        };
        assert!(rt; refusal(alloc, text) == Some(StartError::Scope(why)));
        assert_eq!(rt; place(text, *at), *wanted);
        assert_eq!(rt; name_at(text, *at as usize), *name);
    }
}

// The longest text, and one that is longer by a byte and would have no tokens.
#[test]
fn lengths(rt: HostRuntime) -> Result<(), Fail> {
    let alloc = rt.alloc();
    let mut text = vec![in alloc; b' '; 1_048_576]?;
    assert!(rt; refusal(alloc, &text).is_none());
    text.push(1)?;
    assert!(rt; refusal(alloc, &text) == Some(StartError::TooLong));
    Ok(())
}
