// The command `asm`: the listing of the code that a file holds.
ghost use Rattle.std.specs.Prelude.{◌≡◌, ◌≤◌, ℕ, List, true, false, IfOk, IfErr};
ghost use Rattle.hum_outside.specs.Outside.{told};
ghost use Rattle.hum_command.specs.Texts.{IsText};
ghost use Rattle.hum_command.specs.TextRefusals.{TextFails};
ghost use Rattle.hum_command.specs.Code as spec;

use crate::answer::Answer;
use crate::load::load_file;
use crate::reading::read_file;
use crate::refusal::TextRefusal;
use crate::run::{TEXT_LIMIT, refused};
use hum_outside::Folder;
use hum_sim::compile;
use quad_memory::Image;
use std::alloc::{AllocError, Global};
use uasm_image::listing;
use uasm_read::write_module;

// Whether a file of that name is read as by `exec`; any other is a text.
fn is_assembled(name: &str) -> bool
    ensures { result ≡ spec.is_assembled name.now }
{
    let name = name.as_bytes();
    name.ends_with(b".asm") || name.ends_with(b".img")
}

// The text of the listing of an image.
fn listing_text(alloc: Global, image: &Image) -> Result<Vec<u8>, AllocError>
    ensures { IfOk result (λ text. spec.IsListing image.now text.items) }
{
    let module = listing(alloc, image)?;
    write_module(alloc, &module)
}

// The text of the listing of the code that a text compiles to.
fn list_text(alloc: Global, text: &[u8]) -> Result<Vec<u8>, Answer>
    ensures listing { IfOk result (λ listing. spec.ListsCode false text.now listing.items) }
    ensures fails { IfErr result (TextFails text.now) }
{
    match compile(alloc, text) {
        Ok(compiled) => match listing_text(alloc, compiled.image()) {
            Ok(listing) => Ok(listing),
            Err(_) => Err(Answer::NoMemory),
        },
        Err(error) => Err(refused(alloc, text, error)),
    }
}

// The text of the listing of the code of a file that is a text.
fn list_text_file<F: Folder>(alloc: Global, files: &mut F, name: &str) -> Result<Vec<u8>, Answer>
    ensures listing { IfOk result (λ listing. (text : List ℕ) × IsText (told (F.files files.old) name.now) text × spec.ListsCode false text listing.items) }
    ensures fails { IfErr result (spec.CodeFails false (F.faults files.old) (F.faults files.new) (told (F.files files.old) name.now)) }
    ensures files { F.files files.new ≡ F.files files.old }
    ensures later { F.faults files.old ≤ F.faults files.new }
{
    let text = match read_file(alloc, files, name, TEXT_LIMIT) {
        Ok(Some(text)) => text,
        Ok(None) => return Err(Answer::TextRefused(TextRefusal::TooLong)),
        Err(answer) => return Err(answer),
    };
    list_text(alloc, &text)
}

// The text of the listing of the code of a file that is read as by `exec`.
fn list_image_file<F: Folder>(alloc: Global, files: &mut F, name: &str) -> Result<Vec<u8>, Answer>
    ensures listing { IfOk result (λ listing. (bytes : List ℕ) × IsText (told (F.files files.old) name.now) bytes × spec.ListsCode true bytes listing.items) }
    ensures fails { IfErr result (spec.CodeFails true (F.faults files.old) (F.faults files.new) (told (F.files files.old) name.now)) }
    ensures files { F.files files.new ≡ F.files files.old }
    ensures later { F.faults files.old ≤ F.faults files.new }
{
    let image = match load_file(alloc, files, name) {
        Ok(image) => image,
        Err(answer) => return Err(answer),
    };
    match listing_text(alloc, &image) {
        Ok(listing) => Ok(listing),
        Err(_) => Err(Answer::NoMemory),
    }
}

/// The text of the listing of the code that a file holds: where its name ends in `.asm` or `.img`, of the image or module, which links alone;
/// else of what its text compiles to.
pub fn list_file<F: Folder>(alloc: Global, files: &mut F, name: &str) -> Result<Vec<u8>, Answer>
    ensures listing { IfOk result (λ listing. (bytes : List ℕ) × IsText (told (F.files files.old) name.now) bytes
        × spec.ListsCode (spec.is_assembled name.now) bytes listing.items) }
    ensures fails { IfErr result
        (spec.CodeFails (spec.is_assembled name.now) (F.faults files.old) (F.faults files.new) (told (F.files files.old) name.now)) }
    ensures files { F.files files.new ≡ F.files files.old }
    ensures later { F.faults files.old ≤ F.faults files.new }
{
    if is_assembled(name) {
        list_image_file(alloc, files, name)
    } else {
        list_text_file(alloc, files, name)
    }
}
