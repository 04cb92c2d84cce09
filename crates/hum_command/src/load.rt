// The file of `exec`.
ghost use Rattle.std.specs.Prelude.{◌≡◌, ◌≤◌, ℕ, List, true, false, IfOk, IfErr};
ghost use Rattle.hum_outside.specs.Outside.{told};
ghost use Rattle.hum_command.specs.Texts.{IsText};
ghost use Rattle.hum_command.specs.Images.{Holds, Loads, is_image_file, FailsToHold, LoadFails};

use crate::answer::Answer;
use crate::link::image_of;
use crate::reading::read_file;
use crate::refusal::Refusal;
use hum_outside::Folder;
use quad_memory::Image;
use std::alloc::Global;
use uasm_image::{DecodeError, decode};
use uasm_read::{ReadModuleError, read_module};

/// The most bytes that a file may have: those of the largest image.
pub const FILE_LIMIT: u64 = 16_776_972;

// The image whose bytes these are.
fn decoded(alloc: Global, bytes: &[u8]) -> Result<Image, Answer>
    ensures image { IfOk result (Holds true bytes.now) }
    ensures fails { IfErr result (FailsToHold true bytes.now) }
{
    match decode(alloc, bytes) {
        Ok(image) => Ok(image),
        Err(DecodeError::NoMemory) => Err(Answer::NoMemory),
        Err(DecodeError::Refused(why)) => Err(Answer::Refused(Refusal::Image(why))),
    }
}

// The image that a module links to alone.
fn linked_alone(alloc: Global, text: &[u8]) -> Result<Image, Answer>
    ensures image { IfOk result (Holds false text.now) }
    ensures fails { IfErr result (FailsToHold false text.now) }
{
    let module = match read_module(alloc, text) {
        Ok(module) => module,
        Err(ReadModuleError::NoMemory) => return Err(Answer::NoMemory),
        Err(ReadModuleError::Refused(why)) => return Err(Answer::Refused(Refusal::Module(why))),
    };
    let modules = [module];
    image_of(alloc, &modules)
}

/// The image that bytes hold.
pub fn load(alloc: Global, bytes: &[u8]) -> Result<Image, Answer>
    ensures image { IfOk result (Holds (is_image_file bytes.now) bytes.now) }
    ensures fails { IfErr result (FailsToHold (is_image_file bytes.now) bytes.now) }
{
    if bytes.starts_with(b"UFQ1") {
        decoded(alloc, bytes)
    } else {
        linked_alone(alloc, bytes)
    }
}

/// The image that a file holds: its bytes begin with `UFQ1` and are the image's, or they are a module, which links alone.
///
/// A file of more than 16,776,972 bytes is refused before its form is looked at.
pub fn load_file<F: Folder>(alloc: Global, files: &mut F, name: &str) -> Result<Image, Answer>
    ensures image { IfOk result (λ image. (bytes : List ℕ) × IsText (told (F.files files.old) name.now) bytes × Loads bytes image) }
    ensures fails { IfErr result (LoadFails (F.faults files.old) (F.faults files.new) (told (F.files files.old) name.now)) }
    ensures files { F.files files.new ≡ F.files files.old }
    ensures later { F.faults files.old ≤ F.faults files.new }
{
    let bytes = match read_file(alloc, files, name, FILE_LIMIT) {
        Ok(Some(bytes)) => bytes,
        Ok(None) => return Err(Answer::Refused(Refusal::FileTooLong)),
        Err(answer) => return Err(answer),
    };
    load(alloc, &bytes)
}
