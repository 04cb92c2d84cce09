// What stands at a code word.

use cap_words::{Quad, Word};
use instr_table::{Op, encode};
use quad_memory::{Image, Quads};
use std::process::Abort;
use std::test::Fail;
use vm_step::fetch;

fn rom(rt: &impl Abort, n: u32) -> Word {
    Word::rom_bits(n).expect(rt, "a ROM word")
}

#[test]
fn an_operation_is_fetched_with_its_next_word(rt: HostRuntime) -> Result<(), Fail> {
    let alloc = rt.alloc();
    let (first, second) = (rom(&rt, 16), rom(&rt, 17));
    let pair = Quad {
        t: Word::PAIR_T,
        x: Word::NIL,
        y: Word::NIL,
        z: Word::UNDEF,
    };
    let cells = vec![in alloc; encode(Op::Push(Word::NIL), second), pair]?;
    let image = Image::new(first, cells).expect(&rt, "an image");
    let quads = Quads::with_room(alloc, &image, 1)?;
    assert!(rt; fetch(&quads, first) == Some((Op::Push(Word::NIL), second)));
    assert!(rt; fetch(&quads, second).is_none());
    assert!(rt; fetch(&quads, Word::number_word(16)).is_none());
    Ok(())
}
