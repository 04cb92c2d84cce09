//! From an image to the module of assembly that it is listed as.

ghost use Rattle.std.specs.Prelude.{◌≡◌, ◌≤◌, ◌<◌, ◌+◌, ◌-◌, ◌^◌, ◌||◌, ◌∷◌, [], ℕ, IsTrue, length, slice_index_or, false, IfOk};
ghost use Rattle.std.specs.List.{list_all};
ghost use Rattle.cap_words.specs.Words.{Rom, same_word};
ghost use Rattle.quad_memory.specs.Image.{is_rom_word, is_rom_quad};
ghost use Rattle.uasm_read.specs.Texts.{has_name};
ghost use Rattle.uasm_read.specs.Links.{Linked, boot_name};
ghost use Rattle.uasm_image.specs.Spelled.{is_exact_quad, IsImage};
ghost use Rattle.uasm_image.specs.Listed as spec;

use crate::laws::listings_are_modules;
use crate::writing::has_exact_words;
use cap_words::{Kind, Name, Quad, Word, is_same};
use instr_table::{Op, decode};
use itoa::Buffer;
use quad_memory::{Image, NoMemory};
use std::alloc::Global;
use uasm_read::{Item, Items, Module, Names, Operand};

// The word of the cell of that number.
fn cell_word(at: u32) -> Word
    requires { at < 2 ^ 29 }
    ensures { result ≡ Rom at }
{
    Word::rom_bits(at).unwrap_or(Word::UNDEF)
}

// ---- operands

#[tactic(auto, using(crate::proofs::Labels::label_is_visible))]
fn cell_label(alloc: Global, k: u32) -> Result<Name, NoMemory>
    ensures { IfOk result (λ name. name ≡ spec.cell_label k) }
{
    let mut buffer = Buffer::new();
    let mut bytes = Vec::new(alloc);
    bytes.push(b'c')?;
    bytes.extend_from_slice(buffer.format(k).as_bytes())?;
    Ok(Name::new(bytes).unwrap())
}

fn word_operand(alloc: Global, w: Word) -> Result<Operand, NoMemory>
    ensures { IfOk result (λ word. word ≡ spec.word_operand w) }
{
    match (w.kind(), w.number(), w.place()) {
        (Kind::Fix, Some(n), _) => Ok(Operand::Fix(n)),
        (Kind::Const, _, Some(k)) => Ok(Operand::Const(k)),
        (Kind::Rom, _, Some(k)) => Ok(Operand::Label(cell_label(alloc, k)?)),
        _ => Ok(Operand::Const(0)),
    }
}

fn goes_on(op: Option<Op>) -> bool
    ensures { result ≡ spec.goes_on op }
{
    match op {
        None => false,
        Some(Op::End(_)) => false,
        Some(Op::Jump) => false,
        Some(_) => true,
    }
}

fn is_instruction_first(cells: &[Quad]) -> bool
    ensures { result ≡ spec.is_instruction_first cells.now }
{
    match cells {
        [first, ..] => is_same(first.t, Word::INSTR_T),
        _ => false,
    }
}

// Whether a cell spells an instruction that goes on at the cell after it, which is one too.
fn is_followed(at: u32, cell: &Quad, after: &[Quad]) -> bool
    requires { at + 1 < 2 ^ 29 }
    ensures { result ≡ spec.is_followed at cell.now after.now }
{
    goes_on(decode(*cell)) && is_same(cell.z, cell_word(at + 1)) && is_instruction_first(after)
}

fn next_operand(alloc: Global, at: u32, cell: &Quad, after: &[Quad]) -> Result<Operand, NoMemory>
    requires { at + 1 < 2 ^ 29 }
    ensures { IfOk result (λ word. word ≡ spec.next_operand at cell.now after.now) }
{
    if is_followed(at, cell, after) {
        Ok(Operand::Following)
    } else {
        word_operand(alloc, cell.z)
    }
}

// ---- labels

// Marks the cell that a word names, if it names one.
fn mark(named: &mut [bool], w: Word)
    requires within { IsTrue (is_rom_word (length named.old) w) }
    requires few { length named.old ≤ 1048560 }
    ensures { (k : ℕ) → slice_index_or named.new k false ≡ (slice_index_or named.old k false || same_word w (Rom (16 + k))) }
{
    if let (Kind::Rom, Some(k)) = (w.kind(), w.place()) {
        named[k as usize - 16] = true;
    }
}

// Marks the cells that the operands of a cell name.
fn mark_named(named: &mut [bool], at: u32, cell: &Quad, after: &[Quad])
    requires within { IsTrue (is_rom_quad (length named.old) cell.now) }
    requires few { length named.old ≤ 1048560 }
    requires place { at + 1 < 2 ^ 29 }
    ensures { (k : ℕ) → k < length named.old → slice_index_or named.new k false
        ≡ (slice_index_or named.old k false || has_name (spec.names_of at cell.now after.now) (spec.cell_label (16 + k))) }
{
    mark(named, cell.t);
    mark(named, cell.x);
    mark(named, cell.y);
    if !is_followed(at, cell, after) {
        mark(named, cell.z);
    }
}

// Which cells operands name.
fn named_cells(alloc: Global, cells: &[Quad]) -> Result<Vec<bool>, NoMemory>
    requires within { IsTrue (list_all (is_rom_quad (length cells.now)) cells.now) }
    requires few { length cells.now ≤ 1048560 }
    ensures count { IfOk result (λ named. length named.items ≡ length cells.now) }
    ensures named { IfOk result (λ named. (k : ℕ) → k < length cells.now → slice_index_or named.items k false
        ≡ has_name (spec.operand_names 16 cells.now) (spec.cell_label (16 + k))) }
    ensures exact { IfOk result (λ _. IsTrue (list_all is_exact_quad cells.now)) }
{
    let mut named = vec![in alloc; false; cells.len()]?;
    let mut at = 16;
    let mut rest = cells;
    while let [cell, after @ ..] = rest {
        prove!(has_exact_words(cell));
        mark_named(&mut named, at, cell, after);
        at += 1;
        rest = after;
    }
    Ok(named)
}

fn boot_label(alloc: Global) -> Result<Name, NoMemory>
    ensures { IfOk result (λ name. name ≡ boot_name) }
{
    Ok(Name::new(Vec::from_slice(alloc, b"boot")?).unwrap())
}

fn cell_labels(alloc: Global, boot: Word, named: bool, at: u32) -> Result<Names, NoMemory>
    requires { at < 2 ^ 29 }
    ensures { IfOk result (λ names. names ≡ spec.cell_labels boot named at) }
{
    let mut labels = Vec::new(alloc);
    if is_same(boot, cell_word(at)) {
        labels.push(boot_label(alloc)?)?;
    }
    if named {
        labels.push(cell_label(alloc, at)?)?;
    }
    Ok(Names::from_vec(labels))
}

// ---- the module

fn cell_item(
    alloc: Global,
    boot: Word,
    named: bool,
    at: u32,
    cell: &Quad,
    after: &[Quad],
) -> Result<Item, NoMemory>
    requires { at + 1 < 2 ^ 29 }
    ensures { IfOk result (λ item. item ≡ spec.cell_item boot named at cell.now after.now) }
{
    Ok(Item {
        labels: cell_labels(alloc, boot, named, at)?,
        cell: [
            word_operand(alloc, cell.t)?,
            word_operand(alloc, cell.x)?,
            word_operand(alloc, cell.y)?,
            next_operand(alloc, at, cell, after)?,
        ],
    })
}

// The items of cells, of which these are named.
fn cell_items(
    alloc: Global,
    boot: Word,
    named: &[bool],
    cells: &[Quad],
) -> Result<Vec<Item>, NoMemory>
    requires count { length named.now ≡ length cells.now }
    requires few { length cells.now ≤ 1048560 }
    ensures { IfOk result (λ items. items.items ≡ spec.cell_items boot (λ at. slice_index_or named.now (at - 16) false) 16 cells.now) }
{
    let mut items = Vec::new(alloc);
    let mut at = 16;
    let mut rest = cells;
    while let [cell, after @ ..] = rest {
        let is_named = named[at as usize - 16];
        items.push(cell_item(alloc, boot, is_named, at, cell, after)?)?;
        at += 1;
        rest = after;
    }
    Ok(items)
}

/// The module of assembly that an image is listed as: an item for each cell, in order. It takes nothing from other modules, exports
/// `boot`, and links to the image.
///
/// A number and a constant are listed as they are. A word that names the cell of number K is the label `cK`, K in decimal, counted as ROM
/// numbers are, from 16 on. The boot cell has the label `boot`, and then each cell K that an operand names has the label `cK`; no cell has
/// others. The next of a cell that spells an instruction other than `end` and `jump` is `Following` where it names the cell after it and
/// that one's first word is `#instr_t`.
///
/// `write_module` gives a text that assembles to the module. Errors: `NoMemory` where no memory can be had.
pub fn listing(alloc: Global, image: &Image) -> Result<Module, NoMemory>
    ensures value { IfOk result (λ m. m ≡ spec.listing_of image.now) }
    ensures links { IfOk result (λ m. Linked (m ∷ []) image.now.boot image.now.cells) }
    ensures image { IfOk result (λ _. IsImage image.now) }
{
    // The law that makes the parts a module.
    listings_are_modules();
    let cells = image.cells();
    let named = named_cells(alloc, cells)?;
    let items = cell_items(alloc, image.boot(), &named, cells)?;
    let mut exports = Vec::new(alloc);
    exports.push(boot_label(alloc)?)?;
    Ok(Module::from_parts(
        Names::from_vec(Vec::new(alloc)),
        Names::from_vec(exports),
        Items::from_vec(items),
    ))
}
