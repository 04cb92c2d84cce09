//! Worked texts: which name of a tree is refused, and why.

use hum_lex::lex;
use hum_meaning::ScopeCause;
use hum_parse::parse;
use hum_scope::{ScopeError, ScopeRefused, check_scope, resolve};
use std::alloc::{AllocError, Global};
use std::test::Fail;

fn judged(alloc: Global, text: &[u8]) -> Result<(), ScopeError> {
    if text.len() < 100_000 {
        if let Ok(tokens) = lex(alloc, text) {
            if tokens.len() < 100_000 {
                if let Ok(tree) = parse(alloc, &tokens) {
                    return check_scope(alloc, &tree);
                }
            }
        }
    }
    Err(ScopeError::NoMemory)
}

// The same by `resolve`, with the number of units.
fn resolved(alloc: Global, text: &[u8]) -> Result<usize, ScopeError> {
    if text.len() < 100_000 {
        if let Ok(tokens) = lex(alloc, text) {
            if tokens.len() < 100_000 {
                if let Ok(tree) = parse(alloc, &tokens) {
                    return Ok(resolve(alloc, &tree)?.units.len());
                }
            }
        }
    }
    Err(ScopeError::NoMemory)
}

fn refused<T>(at: u32, cause: ScopeCause) -> Result<T, ScopeError> {
    Err(ScopeError::Refused(ScopeRefused { at, cause }))
}

const SCOPED: [&[u8]; 10] = [
    b"",
    b"SEND 1 TO println",
    b"LET add = 1 SEND add TO say",
    b"LET even = \\x . odd(x) SEND 1 TO println LET odd = \\x . even(x)",
    b"LET f = \\x . f(x)",
    b"LET f = \\(x, y) . CASE x OF (z, $y) : z _ : x END",
    b"CREATE a WITH \\m . [ SEND m TO SELF ] SEND a TO a",
    b"LET a = 1 SEND [ LET a = 2 SEND a TO println ] TO println",
    b"IF TRUE [ LET a = 1 ] ELSE [ LET a = 2 ]",
    b"LET (a, b) = (1, 2) LET c = add(a, b)",
];

#[test]
fn scoped(rt: HostRuntime) {
    for text in SCOPED.iter() {
        assert_eq!(rt; judged(rt.alloc(), text), Ok(()));
    }
}

const UNBOUND: [(&[u8], u32); 10] = [
    (b"SEND x TO println", 0),
    (b"SEND println TO x", 1),
    (b"LET a = a", 1),
    (b"LET f = \\x . g(x) LET a = 1 LET g = \\x . x", 2),
    (b"CREATE a WITH a", 1),
    (b"SEND [ LET a = 1 ] TO a", 1),
    (b"LET f = \\x . x SEND x TO println", 3),
    (b"CASE 1 OF a : a b : a END", 3),
    (b"IF TRUE [ LET a = 1 ] ELSE [ SEND a TO println ]", 1),
    (b"LET (a, $a) = 1", 1),
];

const TWICE: [(&[u8], u32); 5] = [
    (b"LET a = 1 LET a = 2", 1),
    (b"LET f = \\(x, x) . x", 2),
    (b"LET f = \\x . x LET f = \\x . x", 3),
    (b"CREATE a WITH 1 LET (b, a) = (1, 2)", 2),
    (b"LET f = \\x . x LET a = f LET f = 1", 5),
];

#[test]
fn not_scoped(rt: HostRuntime) {
    for row in UNBOUND.iter() {
        assert_eq!(rt;
            judged(rt.alloc(), row.0),
            refused(row.1, ScopeCause::Unbound)
        );
    }
    for row in TWICE.iter() {
        assert_eq!(rt;
            judged(rt.alloc(), row.0),
            refused(row.1, ScopeCause::Twice)
        );
    }
}

// The digits of a number below 10,000, behind a letter.
fn numbered(text: &mut Vec<u8>, n: usize) -> Result<(), AllocError> {
    let digits = b"0123456789";
    text.push(b'n')?;
    text.push(digits[n / 1000 % 10])?;
    text.push(digits[n / 100 % 10])?;
    text.push(digits[n / 10 % 10])?;
    text.push(digits[n % 10])?;
    Ok(())
}

// So many definitions of values, then a use of the last one.
fn many(alloc: Global, count: usize) -> Result<Vec<u8>, AllocError> {
    let mut text = Vec::new(alloc);
    for n in 0..count {
        text.extend_from_slice(b"LET ")?;
        numbered(&mut text, n)?;
        text.extend_from_slice(b" = 1 ")?;
    }
    text.extend_from_slice(b"SEND ")?;
    numbered(&mut text, count.saturating_sub(1))?;
    text.extend_from_slice(b" TO println")?;
    Ok(text)
}

#[test]
fn most_names(rt: HostRuntime) -> Result<(), Fail> {
    let alloc = rt.alloc();
    assert_eq!(rt; resolved(alloc, &many(alloc, 3986)?), Ok(1));
    assert_eq!(rt;
        resolved(alloc, &many(alloc, 3987)?),
        refused(3986, ScopeCause::TooManyNames)
    );
    Ok(())
}

#[test]
fn resolving_refuses_the_same(rt: HostRuntime) {
    assert_eq!(rt;
        resolved(rt.alloc(), b"SEND x TO println"),
        refused(0, ScopeCause::Unbound)
    );
    assert_eq!(rt;
        resolved(rt.alloc(), b"LET a = 1 LET a = 2"),
        refused(1, ScopeCause::Twice)
    );
}
