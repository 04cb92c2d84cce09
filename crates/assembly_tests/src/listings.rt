//! Worked images: how each is listed, and that its listing links to it again.

use cap_words::{Quad, Word};
use quad_memory::Image;
use std::alloc::Global;
use std::test::Fail;
use uasm_image::{listing, listings_are_modules, listings_link_back};
use uasm_link::link;
use uasm_read::{Module, Operand, read_module, write_module};

fn module_of(alloc: Global, text: &[u8]) -> Result<Module, Fail> {
    if text.len() < 10_000_000 {
        Ok(read_module(alloc, text).ok().ok_or("a module")?)
    } else {
        Err(Fail::from("a short text"))
    }
}

fn image_of(alloc: Global, module: Module) -> Result<Image, Fail> {
    let mut modules = Vec::new(alloc);
    modules.push(module)?;
    Ok(link(alloc, &modules).ok().ok_or("an image")?)
}

fn is_same(a: &Image, b: &Image) -> bool {
    a.boot() == b.boot() && a.cells() == b.cells()
}

// Whether the image that a text links to is listed as the other text, which links to it again.
fn is_listed(alloc: Global, text: &[u8], expected: &[u8]) -> Result<bool, Fail> {
    let image = image_of(alloc, module_of(alloc, text)?)?;
    let written = write_module(alloc, &listing(alloc, &image)?)?;
    let again = image_of(alloc, module_of(alloc, &written)?)?;
    Ok(written.as_slice() == expected && is_same(&image, &again))
}

const SPIN: &[u8] =
    b".export boot\nboot:\nsponsor new\npush 1000\nsponsor memory\npush 50\nsponsor cycles\ndup 1\nmy self\n\
sponsor start\npush 0\nroll -2\npush #nil\npush spin\nactor create\nroll 2\nactor post\nmy state\npush ctl\nactor become\n\
end commit\nctl:\nmsg 0\nstate 1\nactor send\nend commit\nspin:\ndebug\nref spin\n";

const SPIN_LISTED: &[u8] =
    b".export boot\nboot:\nsponsor new\npush 1000\nsponsor memory\npush 50\nsponsor cycles\ndup 1\nmy self\n\
sponsor start\npush 0\nroll -2\npush #nil\npush c39\nactor create\nroll 2\nactor post\nmy state\npush c35\nactor become\n\
end commit\nc35:\nmsg 0\nstate 1\nactor send\nend commit\nc39:\ndebug\nref c39\n";

const PAIRS: &[u8] =
    b"; Sends 42, and then a list, to println.\n.export boot\nboot:\n    push 42\n    state 1 ; println\n    actor send\n\
    push answers\n    state 1\n    actor send\n    ref done\n\
answers:\n    pair_t 1 more\nmore:\n    pair_t 2 #nil\ndone:\n    end commit\n";

const PAIRS_LISTED: &[u8] =
    b".export boot\nboot:\npush 42\nstate 1\nactor send\npush c22\nstate 1\nactor send\nref c24\n\
c22:\npair_t 1 c23\nc23:\npair_t 2 #nil\nc24:\nend commit\n";

// A text, and the listing of the image that it links to.
const ROWS: [(&[u8], &[u8]); 17] = [
    (
        b".export boot\nboot:\nend commit\n",
        b".export boot\nboot:\nend commit\n",
    ),
    (SPIN, SPIN_LISTED),
    (PAIRS, PAIRS_LISTED),
    // Each kind of operand. The boot cell has both labels where it is named.
    (
        b".export boot\nboot:\npush -1073741824\npush 1073741823\npush #?\npush #block_t\npush boot\nend commit\n",
        b".export boot\nboot:\nc16:\npush -1073741824\npush 1073741823\npush #?\npush #block_t\npush c16\nend commit\n",
    ),
    // A cell may name others in each of its words, and itself.
    (
        b".export boot\na:\ncell boot a b -1\nb:\npair_t b a\ncell #pair_t 1 2 b\nboot:\nend stop\n",
        b".export boot\nc16:\ncell c19 c16 c17 -1\nc17:\npair_t c17 c16\ncell #pair_t 1 2 c17\nboot:\nc19:\nend stop\n",
    ),
    // Data that looks like an instruction goes on where it says.
    (
        b".export boot\nboot:\ncell #instr_t 0 7 b\nend commit\nb:\nend abort\n",
        b".export boot\nboot:\npush 7\nref c18\nend commit\nc18:\nend abort\n",
    ),
    // It goes on at the cell after it, where that is an instruction too.
    (
        b".export boot\nboot:\ncell #instr_t 0 7 b\nb:\nend commit\n",
        b".export boot\nboot:\npush 7\nend commit\n",
    ),
    (
        b".export boot\nboot:\ndebug\ncell #instr_t 27 #? #?\n",
        b".export boot\nboot:\ndebug\ncell #instr_t 27 #? #?\n",
    ),
    // The cell after it is none.
    (
        b".export boot\nboot:\ndebug\nref b\nb:\npair_t 1 2\n",
        b".export boot\nboot:\ndebug\nref c17\nc17:\npair_t 1 2\n",
    ),
    // It goes on nowhere.
    (
        b".export boot\nboot:\ncell #instr_t 26 #? 5\ncell #instr_t 26 #? #?\ncell #instr_t 0 1 #t\n",
        b".export boot\nboot:\ncell #instr_t 26 #? 5\ncell #instr_t 26 #? #?\ncell #instr_t 0 1 #t\n",
    ),
    // `end` and `jump` go on at no next cell, but may have one.
    (
        b".export boot\nboot:\njump\nend commit\nref b\nb:\njump\nref boot\n",
        b".export boot\nboot:\nc16:\njump\nend commit\nref c18\nc18:\njump\nref c16\n",
    ),
    (
        b".export boot\nboot:\ncell #instr_t 21 2 b\nb:\ncell #instr_t 16 1 #?\n",
        b".export boot\nboot:\ncell #instr_t 21 2 c17\nc17:\ncell #instr_t 16 1 #?\n",
    ),
    // An operand out of its range spells no instruction.
    (
        b".export boot\nboot:\ncell #instr_t 1 16 b\nb:\ncell #instr_t 6 b boot\nend commit\n",
        b".export boot\nboot:\nc16:\ncell #instr_t 1 16 c17\nc17:\ncell #instr_t 6 c17 c16\nend commit\n",
    ),
    // The last cell may be the one that boot begins with, and names before it stand where they did.
    (
        b".export boot\na:\npair_t 1 #nil\nb:\nc99:\npair_t 2 a\nboot:\npush b\nif a\nend commit\n",
        b".export boot\nc16:\npair_t 1 #nil\nc17:\npair_t 2 c16\nboot:\npush c17\nif c16\nend commit\n",
    ),
    // A `ref` to the cell after it says no more than none does.
    (
        b".export boot\nboot:\ndebug\nref b\nb:\nend commit\n",
        b".export boot\nboot:\ndebug\nend commit\n",
    ),
    // Exports but `boot`, and labels that nothing names, are gone.
    (
        b".export x\n.export boot\nx:\nboot:\ny:\nend commit\n",
        b".export boot\nboot:\nend commit\n",
    ),
    (
        b".export boot\nboot:\nend commit\nx:\npair_t 1 2\nhas:\npush x\nref has\n",
        b".export boot\nboot:\nend commit\nc17:\npair_t 1 2\nc18:\npush c17\nref c18\n",
    ),
];

#[test]
fn images_are_listed(rt: HostRuntime) -> Result<(), Fail> {
    listings_are_modules();
    listings_link_back();
    for (text, expected) in ROWS.iter() {
        assert!(rt; is_listed(rt.alloc(), text, expected)?);
    }
    Ok(())
}

// Whether the module exports `boot` alone, and its last item has that one label.
fn is_last_labelled(module: &Module, label: &[u8]) -> bool {
    let [.., last] = module.items() else {
        return false;
    };
    let [export] = module.exports() else {
        return false;
    };
    let [name] = last.labels.as_slice() else {
        return false;
    };
    export.bytes() == b"boot".as_slice() && name.bytes() == label && module.imports().is_empty()
}

fn is_first_named(module: &Module, name: &[u8]) -> bool {
    let [first, ..] = module.items() else {
        return false;
    };
    let [_, _, y, z] = &first.cell;
    matches!(y, Operand::Label(found) if found.bytes() == name) && matches!(z, Operand::Following)
}

// An instruction that pushes the last cell of the largest image.
fn push_last(next: u32) -> Quad {
    Quad {
        t: Word::INSTR_T,
        x: Word::fix(0).unwrap_or(Word::UNDEF),
        y: Word::rom_bits(1_048_575).unwrap_or(Word::UNDEF),
        z: Word::rom_bits(next).unwrap_or(Word::UNDEF),
    }
}

// Two instructions, and as many pairs as an image has room for.
fn largest_image(alloc: Global) -> Result<Image, Fail> {
    let pair = Quad {
        t: Word::PAIR_T,
        x: Word::NIL,
        y: Word::NIL,
        z: Word::UNDEF,
    };
    let mut cells = Vec::new(alloc);
    cells.push(push_last(17))?;
    cells.push(push_last(16))?;
    for _ in 2..1_048_560 {
        cells.push(pair)?;
    }
    let boot = Word::rom_bits(16).unwrap_or(Word::UNDEF);
    Ok(Image::new(boot, cells).ok_or("an image")?)
}

#[test]
fn the_largest_image_is_listed(rt: HostRuntime) -> Result<(), Fail> {
    let alloc = rt.alloc();
    let image = largest_image(alloc)?;
    let module = listing(alloc, &image)?;
    assert!(rt; is_last_labelled(&module, b"c1048575"));
    assert!(rt; is_first_named(&module, b"c1048575"));
    let again = image_of(alloc, module)?;
    assert!(rt; is_same(&image, &again));
    Ok(())
}
