//! Programs that are as tall and as wide as they may be: each part of the compiler has stack for them, and so has the end of each tree.

use crate::programs::runs;
use hum_sim::compile;
use std::alloc::{AllocError, Global};
use std::test::Fail;
use vm_machine::Lanes;

// A text of parts, each written so many times.
fn repeated(alloc: Global, parts: &[(&[u8], usize)]) -> Result<Vec<u8>, AllocError> {
    let mut text = Vec::new(alloc);
    for (part, count) in parts.iter() {
        for _turn in 0..*count {
            text.extend_from_slice(part)?;
        }
    }
    Ok(text)
}

// The numbers of units and of cells that a text is compiled to.
fn sizes(alloc: Global, text: &[u8]) -> Result<(usize, usize), Fail> {
    let Ok(compiled) = compile(alloc, text) else {
        return Err(Fail::new("the text is refused"));
    };
    Ok((
        compiled.program().units.len(),
        compiled.image().cells().len(),
    ))
}

// 7,960 calls, of which each is the callee or the argument of the next: hardly any text that is accepted has more nodes one in another.
#[test]
fn a_tall_program(rt: HostRuntime) -> Result<(), Fail> {
    let alloc = rt.alloc();
    let inner = repeated(alloc, &[(b")", 1), (b"()", 147)])?;
    let outer = repeated(alloc, &[(b")", 1), (b"()", 159)])?;
    let text = repeated(
        alloc,
        &[
            (b"LET f(x) = x ", 1),
            (b"f(", 52),
            (b"1", 1),
            (&inner, 30),
            (&outer, 22),
        ],
    )?;
    let (units, cells) = sizes(alloc, &text)?;
    assert_eq!(rt; units, 2);
    assert!(rt; cells > 4 * 7960);
    Ok(())
}

// As many bindings as there may be, of which the first and the last are sent.
#[test]
fn a_wide_program(rt: HostRuntime) -> Result<(), Fail> {
    let alloc = rt.alloc();
    let digits = b"0123456789";
    let mut text = Vec::new(alloc);
    for n in 0..3986 {
        text.extend_from_slice(b"LET n")?;
        text.push(digits[n / 1000 % 10])?;
        text.push(digits[n / 100 % 10])?;
        text.push(digits[n / 10 % 10])?;
        text.push(digits[n % 10])?;
        text.extend_from_slice(b" = 5 ")?;
    }
    text.extend_from_slice(b"SEND n0000 TO println SEND n3985 TO println")?;
    let lanes = Lanes { count: 1, seed: 7 };
    runs(&rt, alloc, &text, lanes, &[0, 0, 0], b"5\n5\n")
}
