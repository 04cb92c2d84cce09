//! The cells that items become.

ghost use Rattle.std.specs.Prelude.{◌≡◌, ◌≤◌, ◌<◌, ◌+◌, ◌^◌, ◌++◌, length, unwrap_or, IsTrue, IfOk, OnOk};
ghost use Rattle.std.specs.List.{list_all};
ghost use Rattle.std.specs.Option.{option_or};
ghost use Rattle.uasm_read.specs.Modules.{is_module};
ghost use Rattle.uasm_read.specs.Links as spec;
ghost use Rattle.cap_words.specs.Words.{Rom};
ghost use Rattle.uasm_read.specs.Texts.{Name as NameBytes};
ghost use Rattle.uasm_link.specs.Numbering.{number_in, resolved};
ghost use Rattle.uasm_link.specs.Linkable.{is_linkable, are_linkable};

use crate::numbers::labels_of;
use cap_words::{Name, Quad, Word};
use indexmap::IndexMap;
use std::alloc::{AllocError, Global};
use uasm_read::{Item, Module, Operand};

// The word of the item of that number.
fn item_word(at: u32) -> Word
    requires { at < 2 ^ 29 }
    ensures { result ≡ Rom at }
{
    Word::rom_bits(at).unwrap_or(Word::UNDEF)
}

fn number_of(labels: &IndexMap<&[u8], u32>, exports: &IndexMap<&[u8], u32>, name: &Name) -> u32
    ensures { result ≡ unwrap_or (option_or (number_in labels.now name.now) (number_in exports.now name.now)) 0 }
{
    match labels.get(name.bytes()) {
        Some(number) => *number,
        None => exports.get(name.bytes()).copied().unwrap_or(0),
    }
}

fn name_word(labels: &IndexMap<&[u8], u32>, exports: &IndexMap<&[u8], u32>, name: &Name) -> Word
    ensures { result ≡ resolved labels.now exports.now name.now }
{
    Word::rom_bits(number_of(labels, exports, name)).unwrap_or(Word::UNDEF)
}

fn linked_word(
    labels: &IndexMap<&[u8], u32>,
    exports: &IndexMap<&[u8], u32>,
    at: u32,
    operand: &Operand,
) -> Word
    requires place { at + 1 < 2 ^ 29 }
    requires linkable { IsTrue (is_linkable operand.now) }
    ensures { result ≡ spec.linked_word (resolved labels.now exports.now) at operand.now }
{
    match operand {
        Operand::Fix(n) => Word::number_word(*n),
        Operand::Const(k) => item_word(*k),
        Operand::Label(name) => name_word(labels, exports, name),
        Operand::Following => item_word(at + 1),
    }
}

fn linked_cell(
    labels: &IndexMap<&[u8], u32>,
    exports: &IndexMap<&[u8], u32>,
    at: u32,
    cell: &[Operand; 4],
) -> Quad
    requires place { at + 1 < 2 ^ 29 }
    requires linkable { IsTrue (list_all is_linkable cell.now) }
    ensures { result ≡ spec.linked_cell (resolved labels.now exports.now) at cell.now }
{
    let [t, x, y, z] = cell;
    Quad {
        t: linked_word(labels, exports, at, t),
        x: linked_word(labels, exports, at, x),
        y: linked_word(labels, exports, at, y),
        z: linked_word(labels, exports, at, z),
    }
}

fn push_cells(
    cells: &mut Vec<Quad>,
    labels: &IndexMap<&[u8], u32>,
    exports: &IndexMap<&[u8], u32>,
    at: u32,
    items: &[Item],
) -> Result<(), AllocError>
    requires place { at + length items.now < 2 ^ 29 }
    requires linkable { IsTrue (are_linkable items.now) }
    ensures { OnOk result (cells.new.items ≡ cells.old.items ++ spec.linked_cells (resolved labels.now exports.now) at items.now) }
{
    let mut at = at;
    let mut rest = items;
    while let [item, more @ ..] = rest {
        cells.push(linked_cell(labels, exports, at, &item.cell))?;
        at += 1;
        rest = more;
    }
    Ok(())
}

/// The cells of modules, by the words of their exports.
pub fn cells_of(
    alloc: Global,
    modules: &[Module],
    exports: &IndexMap<&[u8], u32>,
) -> Result<Vec<Quad>, AllocError>
    requires few { spec.count_of_items modules.now ≤ spec.item_limit }
    requires numbered { (name : NameBytes) → number_in exports.now name ≡ spec.export_number spec.first_number modules.now name }
    ensures { IfOk result (λ cells. cells.items ≡ spec.linked_modules modules.now spec.first_number modules.now) }
{
    let mut cells = Vec::new(alloc);
    let mut at: u32 = 16;
    let mut rest = modules;
    while let [part, more @ ..] = rest {
        let items = part.items();
        let labels = labels_of(alloc, at, items)?;
        push_cells(&mut cells, &labels, exports, at, items)?;
        at += items.len() as u32;
        rest = more;
    }
    Ok(cells)
}
