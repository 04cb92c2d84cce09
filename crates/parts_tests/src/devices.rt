ghost use Rattle.std.specs.Prelude.{◌<◌, ◌≤◌, ◌^◌};

use cap_words::{Quad, Word};
use hum_outside::MemSink;
use quad_memory::{ActorCell, EventCell, Image, Quads, SponsorCell};
use std::alloc::Global;
use std::process::Abort;
use std::test::Fail;
use vm_devices::*;

fn number(rt: &impl Abort, n: i32) -> Word {
    Word::fix(n).expect(rt, "a number")
}

fn rom(rt: &impl Abort, n: u32) -> Word {
    Word::rom_bits(n).expect(rt, "a ROM word")
}

fn cell(t: Word, x: Word, y: Word) -> Quad {
    let z = Word::UNDEF;
    Quad { t, x, y, z }
}

fn put(rt: &impl Abort, quads: &mut Quads, q: Quad) -> Word {
    quads.put(q).expect(rt, "room")
}

fn put_pair(rt: &impl Abort, quads: &mut Quads, head: Word, tail: Word) -> Word {
    put(rt, quads, cell(Word::PAIR_T, head, tail))
}

// Cells from ROM number 16 on: pairs, and pairs that name themselves; lists of bytes, and symbols named by them; and cells of other types.
fn quads(rt: &impl Abort, alloc: Global, ram: u32) -> Result<Quads, NoMemory>
    requires { ram ≤ 2 ^ 24 }
{
    let cells = vec![in alloc;
        cell(Word::PAIR_T, number(rt, 1), number(rt, 2)),
        cell(Word::PAIR_T, rom(rt, 16), rom(rt, 16)),
        cell(Word::PAIR_T, number(rt, 1), rom(rt, 18)),
        cell(Word::PAIR_T, rom(rt, 19), Word::NIL),
        cell(Word::PAIR_T, number(rt, 104), rom(rt, 21)),
        cell(Word::PAIR_T, number(rt, 105), Word::NIL),
        cell(Word::PAIR_T, number(rt, 40), Word::NIL),
        cell(Word::PAIR_T, number(rt, 104), Word::TRUE),
        cell(Word::SYMBOL_T, rom(rt, 20), Word::UNDEF),
        cell(Word::SYMBOL_T, rom(rt, 22), Word::UNDEF),
        cell(Word::SYMBOL_T, rom(rt, 23), Word::UNDEF),
        cell(Word::SYMBOL_T, Word::NIL, Word::UNDEF),
        cell(Word::FUNC_T, Word::NIL, Word::NIL),
        cell(Word::BLOCK_T, Word::NIL, Word::NIL),
        cell(Word::TYPE_T, number(rt, 2), Word::UNDEF),
    ]?;
    let image = Image::new(rom(rt, 16), cells).expect(rt, "an image");
    Quads::with_room(alloc, &image, ram)
}

// Delivers a message, and looks at the answer and at all that was written.
fn deliver_to(
    rt: &impl Abort,
    alloc: Global,
    quads: &Quads,
    device: u32,
    message: Word,
    want: Option<&[u8]>,
) -> Result<(), NoMemory>
    requires { device < 2 }
{
    let mut scratch = Scratch::new(alloc)?;
    let mut out = MemSink::with_room(alloc, 100, 3, Vec::new(alloc))?;
    let done = deliver(quads, device, message, &mut scratch, &mut out);
    match want {
        Some(line) => {
            assert!(rt; done == Ok(Done::Committed));
            assert!(rt; out.bytes() == line);
        }
        None => {
            assert!(rt; done == Ok(Done::Refused));
            assert!(rt; out.bytes().is_empty());
        }
    }
    Ok(())
}

#[test]
fn println_writes_texts(rt: HostRuntime) -> Result<(), Fail> {
    let alloc = rt.alloc();
    let mut quads = quads(&rt, alloc, 100)?;
    let actor = quads
        .put_actor(ActorCell {
            code: Word::NIL,
            state: Word::NIL,
            mark: Word::UNDEF,
        })
        .expect(&rt, "room");
    let sponsor = quads
        .put_sponsor(SponsorCell {
            signal: Word::UNDEF,
            memory: Word::NIL,
            events: Word::NIL,
            cycles: Word::NIL,
            memory_spent: Word::NIL,
            events_spent: Word::NIL,
            cycles_spent: Word::NIL,
        })
        .expect(&rt, "room");
    let event = quads
        .put_event(EventCell {
            sponsor: Word::UNDEF,
            target: actor,
            message: Word::NIL,
            next: Word::NIL,
        })
        .expect(&rt, "room");
    let entry = put(&rt, &mut quads, cell(Word::DICT_T, Word::NIL, Word::NIL));
    let function = put(&rt, &mut quads, cell(Word::FUNC_T, Word::NIL, Word::NIL));
    let list = put_pair(&rt, &mut quads, rom(&rt, 24), Word::NIL);
    let list = put_pair(&rt, &mut quads, actor, list);
    let nested = put_pair(&rt, &mut quads, list, list);
    let rows: [(Word, Option<&[u8]>); 26] = [
        (number(&rt, 0), Some(b"0\n")),
        (number(&rt, 1_073_741_823), Some(b"1073741823\n")),
        (number(&rt, -1_073_741_824), Some(b"-1073741824\n")),
        (Word::UNDEF, Some(b"?\n")),
        (Word::NIL, Some(b"NIL\n")),
        (Word::FALSE, Some(b"FALSE\n")),
        (Word::TRUE, Some(b"TRUE\n")),
        (Word::TYPE_T, Some(b"^\n")),
        (rom(&rt, 16), Some(b"(1, 2)\n")),
        (rom(&rt, 17), Some(b"((1, 2), 1, 2)\n")),
        (rom(&rt, 18), None),
        (rom(&rt, 19), None),
        (rom(&rt, 24), Some(b"#hi\n")),
        (rom(&rt, 25), Some(b"^\n")),
        (rom(&rt, 26), Some(b"^\n")),
        (rom(&rt, 27), Some(b"^\n")),
        (rom(&rt, 28), Some(b"\\\n")),
        (rom(&rt, 29), Some(b"[]\n")),
        (rom(&rt, 30), Some(b"^\n")),
        (rom(&rt, 31), Some(b"^\n")),
        (actor, Some(b"@\n")),
        (sponsor, Some(b"^\n")),
        (event, Some(b"^\n")),
        (entry, Some(b"^\n")),
        (function, Some(b"\\\n")),
        (nested, Some(b"((@, #hi, NIL), @, #hi, NIL)\n")),
    ];
    for (message, want) in rows {
        deliver_to(&rt, alloc, &quads, 0, message, want)?;
    }
    Ok(())
}

#[test]
fn say_writes_characters(rt: HostRuntime) -> Result<(), Fail> {
    let alloc = rt.alloc();
    let mut quads = quads(&rt, alloc, 100)?;
    let face = put_pair(&rt, &mut quads, number(&rt, 0x1F600), Word::NIL);
    let accent = put_pair(&rt, &mut quads, number(&rt, 233), face);
    let surrogate = put_pair(&rt, &mut quads, number(&rt, 0xD800), Word::NIL);
    let beyond = put_pair(&rt, &mut quads, number(&rt, 0x11_0000), Word::NIL);
    let below = put_pair(&rt, &mut quads, number(&rt, -1), Word::NIL);
    let inner = put_pair(&rt, &mut quads, accent, Word::NIL);
    let rows: [(Word, Option<&[u8]>); 10] = [
        (Word::NIL, Some(b"\n")),
        (rom(&rt, 20), Some(b"hi\n")),
        (accent, Some(b"\xC3\xA9\xF0\x9F\x98\x80\n")),
        (number(&rt, 5), None),
        (rom(&rt, 18), None),
        (rom(&rt, 23), None),
        (surrogate, None),
        (beyond, None),
        (below, None),
        (inner, None),
    ];
    for (message, want) in rows {
        deliver_to(&rt, alloc, &quads, 1, message, want)?;
    }
    Ok(())
}

#[test]
fn a_tree_has_65536_leaves_at_most(rt: HostRuntime) -> Result<(), Fail> {
    let alloc = rt.alloc();
    let mut quads = quads(&rt, alloc, 100)?;
    let mut scratch = Scratch::new(alloc)?;
    let mut out = MemSink::with_room(alloc, 300_000, 300_000, Vec::new(alloc))?;
    let mut tree = number(&rt, 1);
    for _ in 0..16 {
        tree = put_pair(&rt, &mut quads, tree, tree);
    }
    let one_more = put_pair(&rt, &mut quads, Word::NIL, tree);
    assert!(rt; deliver(&quads, 0, one_more, &mut scratch, &mut out) == Ok(Done::Refused));
    assert!(rt; out.bytes().is_empty());
    assert!(rt; deliver(&quads, 0, tree, &mut scratch, &mut out) == Ok(Done::Committed));
    let leaves = out.bytes().iter().filter(|byte| **byte == b'1').count();
    assert_eq!(rt; leaves, 65_536);
    Ok(())
}

#[test]
fn a_sink_fails_in_a_line(rt: HostRuntime) -> Result<(), Fail> {
    let alloc = rt.alloc();
    let mut quads = quads(&rt, alloc, 100)?;
    let pair = put_pair(&rt, &mut quads, rom(&rt, 24), number(&rt, 7));
    let mut scratch = Scratch::new(alloc)?;
    let mut out = MemSink::with_room(alloc, 100, 1, vec![in alloc; 2]?)?;
    assert!(rt; deliver(&quads, 0, pair, &mut scratch, &mut out) == Err(WriteFault));
    assert!(rt; out.bytes() == b"(#".as_slice());
    assert!(rt; deliver(&quads, 0, pair, &mut scratch, &mut out) == Ok(Done::Committed));
    assert!(rt; out.bytes() == b"(#(#hi, 7)\n".as_slice());
    Ok(())
}
