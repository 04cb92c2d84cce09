//! Reads modules.

ghost use Rattle.std.specs.Prelude.{◌≡◌, ◌≤◌, ◌+◌, ◌⊎◌, length, map, vec_len, IfOk, Ok, Err, Some};
ghost use Rattle.uasm_read.specs.declared.error.UasmRefused.{UasmRefused as Refusal};
ghost use Rattle.uasm_read.specs.declared.error.ReadModuleError.TheVariants as error;
ghost use Rattle.uasm_read.specs.Texts as texts;
ghost use Rattle.uasm_read.specs.Lines as lines;
ghost use Rattle.uasm_read.specs.Modules.{ModuleParts};
ghost use Rattle.uasm_read.specs.Assembles.{assembled, Assembles, text_limit};

use crate::build::module_of;
use crate::error::{ReadModuleError, UasmCause, UasmRefused};
use crate::faults::refusal;
use crate::line::Line;
use crate::lines::line_of;
use crate::module::Module;
use crate::texts::{cut_line, without_return};
use std::alloc::{AllocError, Global};

const TEXT_LIMIT: usize = 1_048_576;

// What each line says.
fn read_lines(alloc: Global, text: &[u8]) -> Result<Vec<Line>, AllocError>
    ensures lines { IfOk result (λ read. read.items ≡ map lines.line_of (texts.lines_of text.now)) }
    ensures few { IfOk result (λ read. vec_len read ≤ length text.now + 1) }
{
    let mut lines = Vec::new(alloc);
    let mut rest = text;
    loop {
        let (line, more) = cut_line(rest);
        match more {
            None => {
                lines.push(line_of(alloc, line)?)?;
                return Ok(lines);
            }
            Some(more) => {
                lines.push(line_of(alloc, without_return(line))?)?;
                rest = more;
            }
        }
    }
}

/// The module that a text assembles to.
///
/// A text that assembles to none is refused, with a line and a cause, by the first of these: it has more than 1,048,576 bytes, told at line
/// 1; the first line with the cause `BadLine`, `NoOperation`, `BadOperand` or `Twice`; the first with the cause `Unknown`; the first with
/// the cause `FallsOff`. Any call may answer `NoMemory` instead.
pub fn read_module(alloc: Global, bytes: &[u8]) -> Result<Module, ReadModuleError>
    ensures module { IfOk result (λ m. Assembles (Some text_limit) bytes.now m) }
    ensures refused { (refused : Refusal) → result ≡ Err (error.Refused refused) → assembled (Some text_limit) bytes.now ≡ Err refused }

    // A text that assembles is refused for want of memory alone.
    ensures only { (m : ModuleParts) → Assembles (Some text_limit) bytes.now m → (result ≡ Ok m) ⊎ (result ≡ Err error.NoMemory) }
{
    if bytes.len() > TEXT_LIMIT {
        return Err(ReadModuleError::Refused(UasmRefused {
            line: 1,
            cause: UasmCause::TooLong,
        }));
    }
    let lines = read_lines(alloc, bytes)?;
    let lines = lines.as_slice();
    if let Some(refused) = refusal(alloc, lines)? {
        return Err(ReadModuleError::Refused(refused));
    }
    Ok(module_of(alloc, lines)?)
}
