//! What stands at the front of a text.

ghost use Rattle.std.specs.Prelude.{◌≡◌, ◌<◌, ◌∷◌, length, slice_index, IfOk, true};
ghost use Rattle.hum_syntax.specs.Forms as forms;
ghost use Rattle.hum_syntax.specs.Lexes as lexes;
ghost use Rattle.hum_lex.specs.Fronts.{Reads, ReadsAnywhere};

use crate::bytes::{Class, is_blank, is_delimiter, is_run_byte, len_of};
use crate::error::LexCause;
use crate::text::{Inside, inside_len, inside_of};
use crate::word::kind_of_run;
use hum_syntax::{Sym, TokenKind};
use std::alloc::{AllocError, Global};

/// What stands at the front.
#[derive(Drop)]
pub enum Front {
    /// A blank or a comment of so many bytes.
    Gap(usize),
    /// A token of so many bytes.
    Token(usize, TokenKind),
    /// A fault so many bytes further on.
    Fault(usize, LexCause),
}

const RUN_LIMIT: usize = 128;

fn mark(called: bool, b: u8) -> Option<TokenKind>
    ensures { result ≡ lexes.mark_of called b }
{
    match b {
        b'(' => Some(if called {
            TokenKind::CallParen
        } else {
            TokenKind::ParenLeft
        }),
        b')' => Some(TokenKind::ParenRight),
        b'[' => Some(TokenKind::SquareLeft),
        b']' => Some(TokenKind::SquareRight),
        b',' => Some(TokenKind::Comma),
        b'.' => Some(TokenKind::Dot),
        b'=' => Some(TokenKind::Equals),
        b':' => Some(TokenKind::Colon),
        b'$' => Some(TokenKind::Dollar),
        b'\\' => Some(TokenKind::Backslash),
        _ => None,
    }
}

fn run_front(alloc: Global, bytes: &[u8]) -> Result<Front, AllocError>
    requires run { forms.is_run_byte (slice_index bytes.now 0) ≡ true }
    requires some { 0 < length bytes.now }
    ensures { IfOk result (ReadsAnywhere bytes.now) }
{
    let len = len_of(Class::Run, bytes);
    if len > RUN_LIMIT {
        return Ok(Front::Fault(0, LexCause::RunTooLong));
    }
    Ok(match kind_of_run(alloc, &bytes[..len])? {
        Ok(kind) => Front::Token(len, kind),
        Err(cause) => Front::Fault(0, cause),
    })
}

// Behind a `#`.
fn hash_front(alloc: Global, rest: &[u8]) -> Result<Front, AllocError>
    ensures { IfOk result (ReadsAnywhere (35 ∷ rest.now)) }
{
    let [b, ..] = rest else {
        return Ok(Front::Gap(1));
    };
    if is_blank(*b) {
        return Ok(Front::Gap(1 + len_of(Class::Line, rest)));
    }
    if is_delimiter(*b) {
        return Ok(Front::Fault(0, LexCause::BadByte));
    }
    if !is_run_byte(*b) {
        return Ok(Front::Fault(1, LexCause::BadByte));
    }
    let len = len_of(Class::Run, rest);
    if len > RUN_LIMIT {
        return Ok(Front::Fault(1, LexCause::RunTooLong));
    }
    let name = Sym::from_bytes(Vec::from_slice(alloc, &rest[..len])?);
    Ok(Front::Token(1 + len, TokenKind::Symbol(name)))
}

// Behind a `"`.
fn text_front(alloc: Global, rest: &[u8]) -> Result<Front, AllocError>
    ensures { IfOk result (ReadsAnywhere (34 ∷ rest.now)) }
{
    let Some(len) = inside_len(rest) else {
        return Ok(Front::Fault(0, LexCause::BadText));
    };
    Ok(match inside_of(alloc, &rest[..len])? {
        Inside::Text(text) => Front::Token(len + 2, TokenKind::Text(text)),
        Inside::Bad(at) => Front::Fault(at + 1, LexCause::BadText),
    })
}

/// What stands at the front of bytes that are not empty. `called` says that a name, `)` or `]` ends directly before.
pub fn front_of(alloc: Global, called: bool, bytes: &[u8]) -> Result<Front, AllocError>
    requires { 0 < length bytes.now }
    ensures { IfOk result (Reads called bytes.now) }
{
    let first = bytes[0];
    if is_blank(first) {
        return Ok(Front::Gap(1));
    }
    if is_run_byte(first) {
        return run_front(alloc, bytes);
    }
    if first == b'#' {
        return hash_front(alloc, &bytes[1..]);
    }
    if first == b'"' {
        return text_front(alloc, &bytes[1..]);
    }
    Ok(match mark(called, first) {
        Some(kind) => Front::Token(1, kind),
        None => Front::Fault(0, LexCause::BadByte),
    })
}
