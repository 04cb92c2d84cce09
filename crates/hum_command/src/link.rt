// The files of `link`.
ghost use Rattle.std.specs.Prelude.{◌≡◌, ◌≤◌, map, IfOk, IfErr, OnOk, string_bytes};
ghost use Rattle.hum_outside.specs.Outside.{told};
ghost use Rattle.uasm_read.specs.Links.{Linked, link_fault};
ghost use Rattle.hum_command.specs.Link as spec;
ghost use Rattle.hum_command.specs.Texts.{FileFails};
ghost use Rattle.hum_command.specs.LinkParts.{ReadsAs, ReadTo, NotLinked, SpellsImage, LinkFails, LinkBytes, gathered};

use crate::answer::Answer;
use crate::reading::read_file;
use crate::refusal::Refusal;
use hum_outside::Folder;
use quad_memory::Image;
use std::alloc::{AllocError, Global};
use uasm_image::encode;
use uasm_link::{LinkError, link};
use uasm_read::{Module, ReadModuleError, UasmCause, UasmRefused, read_module};

// The most bytes that a module may have.
const MODULE_LIMIT: u64 = 1_048_576;

/// An answer with which nothing is done, and the file that it names, or no name.
#[derive(Drop)]
pub struct Declined<'a> {
    pub answer: Answer,
    pub name: &'a str,
}

/// A file whose text is no module.
#[derive(Clone, Copy, Debug, PartialEq, Eq)]
pub struct NoModule<'a> {
    pub name: &'a str,
    pub why: UasmRefused,
}

/// The modules that were read, and the first file that is none.
#[derive(Drop)]
pub struct Gathered<'a> {
    pub modules: Vec<Module>,
    pub bad: Option<NoModule<'a>>,
}

const TOO_LONG: UasmRefused = UasmRefused {
    line: 1,
    cause: UasmCause::TooLong,
};

// What the text of a file is read as.
fn read_one<F: Folder>(
    alloc: Global,
    files: &mut F,
    name: &str,
) -> Result<Result<Module, UasmRefused>, Answer>
    ensures read { IfOk result (ReadsAs (told (F.files files.old) name.now)) }
    ensures fails { IfErr result (FileFails (F.faults files.old) (F.faults files.new) (told (F.files files.old) name.now)) }
    ensures later { F.faults files.old ≤ F.faults files.new }
    ensures files { F.files files.new ≡ F.files files.old }
{
    let text = match read_file(alloc, files, name, MODULE_LIMIT) {
        Ok(Some(text)) => text,
        Ok(None) => return Ok(Err(TOO_LONG)),
        Err(answer) => return Err(answer),
    };
    match read_module(alloc, &text) {
        Ok(module) => Ok(Ok(module)),
        Err(ReadModuleError::Refused(why)) => Ok(Err(why)),
        Err(ReadModuleError::NoMemory) => Err(Answer::NoMemory),
    }
}

// Puts a module behind those that were read, or remembers the first file that is none.
fn gather<'a>(
    so_far: &mut Gathered<'a>,
    name: &'a str,
    read: Result<Module, UasmRefused>,
) -> Result<(), AllocError>
    ensures { OnOk result (gathered so_far.new ≡ spec.both (gathered so_far.old) (spec.of_file name.now read)) }
{
    match read {
        Ok(module) => {
            so_far.modules.push(module)?;
            Ok(())
        }
        Err(why) => {
            if so_far.bad.is_none() {
                so_far.bad = Some(NoModule { name, why });
            }
            Ok(())
        }
    }
}

// Reads all files, also behind one that is no module.
fn read_files<'a, F: Folder>(
    alloc: Global,
    files: &mut F,
    names: &'a [String],
) -> Result<Gathered<'a>, Declined<'a>>
    ensures read { IfOk result (λ all. ReadTo (F.files files.old) (map string_bytes names.now) (gathered all)) }
    ensures fails { IfErr result (λ r.
        LinkFails (F.files files.old) (F.faults files.old) (F.faults files.new) (map string_bytes names.now) r.answer r.name.now) }
    ensures files { F.files files.new ≡ F.files files.old }
    ensures later { F.faults files.old ≤ F.faults files.new }
{
    let mut all = Gathered {
        modules: Vec::new(alloc),
        bad: None,
    };
    let mut rest = names;
    while let [name, more @ ..] = rest {
        let read = match read_one(alloc, files, name.as_str()) {
            Ok(read) => read,
            Err(answer) => {
                return Err(Declined {
                    answer,
                    name: name.as_str(),
                });
            }
        };
        match gather(&mut all, name.as_str(), read) {
            Ok(()) => {}
            Err(_) => {
                return Err(Declined {
                    answer: Answer::NoMemory,
                    name: name.as_str(),
                });
            }
        }
        rest = more;
    }
    Ok(all)
}

/// The image of modules.
pub fn image_of(alloc: Global, modules: &[Module]) -> Result<Image, Answer>
    ensures image { IfOk result (λ image. Linked modules.now image.boot image.cells) }
    ensures fails { IfErr result (NotLinked (link_fault modules.now)) }
{
    match link(alloc, modules) {
        Ok(image) => Ok(image),
        Err(LinkError::NoMemory) => Err(Answer::NoMemory),
        Err(LinkError::Twice(name)) => Err(Answer::Refused(Refusal::Twice(name))),
        Err(LinkError::NoSuch(name)) => Err(Answer::Refused(Refusal::NoSuch(name))),
        Err(LinkError::NoBoot) => Err(Answer::Refused(Refusal::NoBoot)),
        Err(LinkError::TooLarge) => Err(Answer::Refused(Refusal::TooLarge)),
    }
}

// The bytes of the image of modules.
fn image_bytes(alloc: Global, modules: &[Module]) -> Result<Vec<u8>, Answer>
    ensures bytes { IfOk result (λ bytes. SpellsImage modules.now bytes.items) }
    ensures fails { IfErr result (NotLinked (link_fault modules.now)) }
{
    let image = match image_of(alloc, modules) {
        Ok(image) => image,
        Err(answer) => return Err(answer),
    };
    match encode(alloc, &image) {
        Ok(bytes) => Ok(bytes),
        Err(_) => Err(Answer::NoMemory),
    }
}

/// The bytes of the image that the files link to, as their names stand in order.
///
/// All files are read before any is refused; then the first that is no module is, and then what does not link.
pub fn link_files<'a, F: Folder>(
    alloc: Global,
    files: &mut F,
    names: &'a [String],
) -> Result<Vec<u8>, Declined<'a>>
    ensures bytes { IfOk result (λ bytes. LinkBytes (F.files files.old) (map string_bytes names.now) bytes.items) }
    ensures fails { IfErr result (λ r.
        LinkFails (F.files files.old) (F.faults files.old) (F.faults files.new) (map string_bytes names.now) r.answer r.name.now) }
    ensures files { F.files files.new ≡ F.files files.old }
    ensures later { F.faults files.old ≤ F.faults files.new }
{
    let all = match read_files(alloc, files, names) {
        Ok(all) => all,
        Err(declined) => return Err(declined),
    };
    if let Some(bad) = all.bad {
        return Err(Declined {
            answer: Answer::Refused(Refusal::Module(bad.why)),
            name: bad.name,
        });
    }
    match image_bytes(alloc, &all.modules) {
        Ok(bytes) => Ok(bytes),
        Err(answer) => Err(Declined { answer, name: "" }),
    }
}
