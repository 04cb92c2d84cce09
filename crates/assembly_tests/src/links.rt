//! Worked modules: what they link to, and why they are not linked.

use cap_words::{Quad, Word};
use quad_memory::Image;
use std::alloc::Global;
use std::test::Fail;
use uasm_link::{LinkError, link};
use uasm_read::read_module;

fn linked(alloc: Global, texts: &[&[u8]]) -> Result<Image, LinkError> {
    let mut modules = Vec::new(alloc);
    for text in texts {
        if let Ok(module) = read_module(alloc, text) {
            modules.push(module)?;
        }
    }
    if modules.len() < texts.len() {
        return Err(LinkError::NoMemory);
    }
    link(alloc, &modules)
}

fn is_twice(alloc: Global, texts: &[&[u8]], name: &[u8]) -> bool {
    match linked(alloc, texts) {
        Err(LinkError::Twice(found)) => found.bytes() == name,
        _ => false,
    }
}

fn is_missing(alloc: Global, texts: &[&[u8]], name: &[u8]) -> bool {
    match linked(alloc, texts) {
        Err(LinkError::NoSuch(found)) => found.bytes() == name,
        _ => false,
    }
}

const BOOT: &[u8] = b".export boot\nboot:\nend commit\n";

const LOST: &[u8] = b".export boot\n.import nowhere\nboot:\nend commit\n";

const PAIR: &[u8] = b".export a\n.export b\na:\nb:\npair_t a b\n";

const CALLER: &[u8] = b".import b\n.export boot\npair_t 1 -1\nboot:\npush b\ndebug\nref boot\n";

#[test]
fn causes(rt: HostRuntime) {
    let alloc = rt.alloc();
    assert!(rt; is_missing(alloc, &[LOST], b"nowhere"));
    assert!(rt; is_twice(alloc, &[BOOT, BOOT], b"boot"));
    assert!(rt; is_twice(alloc, &[LOST, PAIR, PAIR, BOOT], b"a"));
    assert!(rt; is_missing(alloc, &[PAIR, LOST], b"nowhere"));
    assert!(rt; matches!(linked(alloc, &[PAIR]), Err(LinkError::NoBoot)));
    assert!(rt; matches!(linked(alloc, &[]), Err(LinkError::NoBoot)));
}

fn fix(n: i32) -> Word {
    Word::fix(n).unwrap_or(Word::UNDEF)
}

fn rom(n: u32) -> Word {
    Word::rom_bits(n).unwrap_or(Word::UNDEF)
}

#[test]
fn cells_of_two_modules(rt: HostRuntime) -> Result<(), Fail> {
    let image = linked(rt.alloc(), &[PAIR, CALLER])
        .ok()
        .expect(&rt, "an image");
    let cells = [
        (Word::PAIR_T, rom(16), rom(16), Word::UNDEF),
        (Word::PAIR_T, fix(1), fix(-1), Word::UNDEF),
        (Word::INSTR_T, fix(0), rom(16), rom(19)),
        (Word::INSTR_T, fix(26), Word::UNDEF, rom(18)),
    ];
    assert!(rt; image.boot() == rom(18));
    assert_eq!(rt; image.cells().len(), cells.len());
    for (cell, (t, x, y, z)) in image.cells().iter().zip(cells.iter()) {
        assert!(rt;
            *cell
                == Quad {
                    t: *t,
                    x: *x,
                    y: *y,
                    z: *z
                }
        );
    }
    Ok(())
}
