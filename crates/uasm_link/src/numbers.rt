//! The numbers that names stand for.

ghost use Rattle.std.specs.Prelude.{◌≡◌, ◌≤◌, ◌<◌, ◌+◌, ◌^◌, length, min, if◌then◌else◌, Some, None, IfOk, OnOk, IsTrue};
ghost use Rattle.std.specs.List.{list_all};
ghost use Rattle.std.specs.Option.{option_or};
ghost use Rattle.std.specs.Str.{bytes_eq};
ghost use Rattle.cap_words.specs.Words.{Rom};
ghost use Rattle.uasm_read.specs.Texts.{Name as NameBytes, has_name};
ghost use Rattle.uasm_read.specs.Modules.{is_module};
ghost use Rattle.uasm_read.specs.Links as spec;
ghost use Rattle.uasm_link.specs.Numbering.{number_in};

use cap_words::{Name, Word};
use indexmap::IndexMap;
use std::alloc::{AllocError, Global};
use uasm_read::{Item, Module};

const ITEM_LIMIT: usize = 1_048_560;

/// How many items modules have, or one more than an image has room for where they have more.
pub fn count_items(modules: &[Module]) -> usize
    ensures count { result ≡ min (spec.count_of_items modules.now) (ITEM_LIMIT + 1) }
    ensures modules { IsTrue (list_all is_module modules.now) }
{
    let mut count = 0;
    let mut rest = modules;
    while let [part, more @ ..] = rest {
        count = (count + part.items().len().min(ITEM_LIMIT + 1)).min(ITEM_LIMIT + 1);
        rest = more;
    }
    count
}

// Gives a name this number, if it has none.
fn put<'a>(
    numbers: &mut IndexMap<&'a [u8], u32>,
    name: &'a [u8],
    number: u32,
) -> Result<(), AllocError>
    ensures { OnOk result ((other : NameBytes) →
        number_in numbers.new other ≡ option_or (number_in numbers.old other) (if bytes_eq other name.now then Some number else None)) }
{
    if !numbers.contains_key(name) {
        numbers.insert(name, number)?;
    }
    Ok(())
}

// Gives labels their number, but for those that have one.
fn add_labels<'a>(
    numbers: &mut IndexMap<&'a [u8], u32>,
    labels: &'a [Name],
    number: u32,
) -> Result<(), AllocError>
    ensures { OnOk result ((name : NameBytes) →
        number_in numbers.new name ≡ option_or (number_in numbers.old name) (if has_name labels.now name then Some number else None)) }
{
    let mut rest = labels;
    while let [label, more @ ..] = rest {
        put(numbers, label.bytes(), number)?;
        rest = more;
    }
    Ok(())
}

/// The numbers of the labels of items, of which the first has the number `at`.
pub fn labels_of<'a>(
    alloc: Global,
    at: u32,
    items: &'a [Item],
) -> Result<IndexMap<&'a [u8], u32>, AllocError>
    requires { at + length items.now < 2 ^ 29 }
    ensures { IfOk result (λ numbers. (name : NameBytes) → number_in numbers name ≡ spec.label_number at items.now name) }
{
    let mut numbers = IndexMap::new(alloc);
    let mut at = at;
    let mut rest = items;
    while let [item, more @ ..] = rest {
        add_labels(&mut numbers, item.labels.as_slice(), at)?;
        at += 1;
        rest = more;
    }
    Ok(numbers)
}

// Gives a name the number of its label, if it has none.
fn put_export<'a>(
    numbers: &mut IndexMap<&'a [u8], u32>,
    name: &'a [u8],
    labels: &IndexMap<&[u8], u32>,
) -> Result<(), AllocError>
    ensures { OnOk result ((other : NameBytes) →
        number_in numbers.new other ≡ option_or (number_in numbers.old other) (if bytes_eq other name.now then number_in labels.now other else None)) }
{
    match labels.get(name) {
        Some(number) => put(numbers, name, *number),
        None => Ok(()),
    }
}

// Gives exports the numbers of their labels, but for those that have one.
fn add_exports<'a>(
    numbers: &mut IndexMap<&'a [u8], u32>,
    exports: &'a [Name],
    labels: &IndexMap<&[u8], u32>,
) -> Result<(), AllocError>
    ensures { OnOk result ((name : NameBytes) →
        number_in numbers.new name ≡ option_or (number_in numbers.old name) (if has_name exports.now name then number_in labels.now name else None)) }
{
    let mut rest = exports;
    while let [export, more @ ..] = rest {
        put_export(numbers, export.bytes(), labels)?;
        rest = more;
    }
    Ok(())
}

/// The numbers of the exports of modules.
pub fn exports_of<'a>(
    alloc: Global,
    modules: &'a [Module],
) -> Result<IndexMap<&'a [u8], u32>, AllocError>
    requires { spec.count_of_items modules.now ≤ ITEM_LIMIT }
    ensures { IfOk result (λ numbers. (name : NameBytes) → number_in numbers name ≡ spec.export_number spec.first_number modules.now name) }
{
    let mut numbers = IndexMap::new(alloc);
    let mut at: u32 = 16;
    let mut rest = modules;
    while let [part, more @ ..] = rest {
        let items = part.items();
        let labels = labels_of(alloc, at, items)?;
        add_exports(&mut numbers, part.exports(), &labels)?;
        at += items.len() as u32;
        rest = more;
    }
    Ok(numbers)
}
