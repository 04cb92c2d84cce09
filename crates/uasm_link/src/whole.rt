//! Links whole modules.

ghost use Rattle.std.specs.Prelude.{◌≡◌, ◌⊎◌, ◌≤◌, List, None, Ok, Err, IfOk, IfErr, OnOk, IsTrue, unwrap_or};
ghost use Rattle.std.specs.List.{list_all};
ghost use Rattle.cap_words.specs.declared.word.Quad.{Quad as Cell};
ghost use Rattle.cap_words.specs.Words.{W};
ghost use Rattle.uasm_read.specs.Modules.{is_module};
ghost use Rattle.uasm_read.specs.Links as spec;
ghost use Rattle.uasm_link.specs.declared.error.LinkError.TheVariants as error;
ghost use Rattle.uasm_link.specs.Answers.{IsFault};
ghost use Rattle.uasm_link.specs.Numbering.{number_in, rom_of};

use crate::cells::cells_of;
use crate::error::LinkError;
use crate::names::{Side, first_missing, first_twice, names_of, set_of};
use crate::numbers::{count_items, exports_of};
use cap_words::{Name, Word};
use indexmap::IndexMap;
use quad_memory::Image;
use std::alloc::{AllocError, Global};
use uasm_read::Module;

fn name_copied(alloc: Global, name: &Name) -> Result<Name, AllocError>
    ensures { IfOk result (λ copy. copy ≡ name.now) }
{
    Ok(Name::new(Vec::from_slice(alloc, name.bytes())?).unwrap())
}

// Whether the modules can be linked.
fn check(alloc: Global, modules: &[Module]) -> Result<(), LinkError>
    ensures sound { OnOk result (spec.link_fault modules.now ≡ None) }
    ensures kept { OnOk result (IsTrue (list_all is_module modules.now)) }
    ensures fault { IfErr result (IsFault (spec.link_fault modules.now)) }
{
    let exports = names_of(alloc, Side::Exports, modules)?;
    let exports = exports.as_slice();
    if let Some(name) = first_twice(alloc, exports)? {
        return Err(LinkError::Twice(name_copied(alloc, name)?));
    }
    let imports = names_of(alloc, Side::Imports, modules)?;
    let set = set_of(alloc, exports)?;
    if let Some(name) = first_missing(&set, imports.as_slice()) {
        return Err(LinkError::NoSuch(name_copied(alloc, name)?));
    }
    if !set.contains(b"boot".as_slice()) {
        return Err(LinkError::NoBoot);
    }
    if count_items(modules) > 1_048_560 {
        return Err(LinkError::TooLarge);
    }
    Ok(())
}

// The word of the export `boot`.
fn boot_word(exports: &IndexMap<&[u8], u32>) -> Word
    ensures { result ≡ rom_of (unwrap_or (number_in exports.now spec.boot_name) 0) }
{
    let number = exports.get(b"boot".as_slice()).copied().unwrap_or(0);
    Word::rom_bits(number).unwrap_or(Word::UNDEF)
}

/// The image of modules: their items one after the other, from ROM number 16 on. `Following` is the number of the next item, and a name
/// is the number of this module's label, or of the label that a module exports under it. Boot begins at the export `boot`.
///
/// Modules are refused by the first of these: an export's name that an export before it has; an import that nothing exports; no export
/// `boot`; more than 1,048,560 items. Any call may answer `NoMemory`.
pub fn link(alloc: Global, modules: &[Module]) -> Result<Image, LinkError>
    ensures image { IfOk result (λ image. spec.Linked modules.now image.boot image.cells) }
    ensures refused { IfErr result (IsFault (spec.link_fault modules.now)) }

    // Modules that link are refused for want of memory alone.
    ensures only { (boot : W) (cells : List Cell) → spec.Linked modules.now boot cells →
        (result ≡ Ok (record { boot = boot; cells = cells })) ⊎ (result ≡ Err error.NoMemory) }
{
    check(alloc, modules)?;
    let exports = exports_of(alloc, modules)?;
    let boot = boot_word(&exports);
    let cells = cells_of(alloc, modules, &exports)?;
    Ok(Image::new(boot, cells).unwrap())
}
