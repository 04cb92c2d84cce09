//! What a run stands for.

ghost use Rattle.std.specs.List.{list_all};
ghost use Rattle.std.specs.Char.{is_ascii_digit};
ghost use Rattle.std.specs.Prelude.{◌≡◌, ◌≤◌, ◌^◌, length, IsTrue, IfOk, Some, None, true, nat_le, if◌then◌else◌};
ghost use Rattle.hum_syntax.specs.Forms as forms;
ghost use Rattle.hum_syntax.specs.Kinds as kinds;
ghost use Rattle.hum_lex.specs.Fronts as spec;

use crate::error::LexCause;
use hum_syntax::{Keyword, Name, TokenKind};
use std::alloc::{AllocError, Global};

fn digits_of(run: &[u8]) -> &[u8]
    ensures { result.now ≡ forms.digits_of run.now }
{
    match run {
        [b'+', digits @ ..] => digits,
        [b'-', digits @ ..] => digits,
        _ => run,
    }
}

fn are_digits(bytes: &[u8]) -> bool
    ensures { result ≡ list_all is_ascii_digit bytes.now }
{
    for b in bytes {
        if !b.is_ascii_digit() {
            return false;
        }
    }
    true
}

fn is_number(run: &[u8]) -> bool
    ensures { result ≡ forms.is_number run.now }
{
    let digits = digits_of(run);
    !digits.is_empty() && are_digits(digits)
}

// What the digits say, if it is at most 2 to the 30.
fn value(digits: &[u8]) -> Option<u64>
    requires { list_all is_ascii_digit digits.now ≡ true }
    ensures { result ≡ spec.up_to_limit (forms.value_from 0 digits.now) }
{
    let mut sum: u64 = 0;
    for d in digits {
        sum = 10 * sum + (*d - b'0') as u64;
        if sum > 1073741824 {
            return None;
        }
    }
    Some(sum)
}

// The number, if it is in range.
fn number(run: &[u8]) -> Option<i32>
    requires { forms.is_number run.now ≡ true }
    ensures { result ≡ (if forms.is_in_range (forms.number_of run.now) then Some (forms.number_of run.now) else None) }
{
    let size = value(digits_of(run))? as i32;
    if let [b'-', ..] = run {
        return Some(-size);
    }
    if size == 1073741824 { None } else { Some(size) }
}

/// What a run stands for, or why it may not stand there.
pub fn kind_of_run(alloc: Global, run: &[u8]) -> Result<Result<TokenKind, LexCause>, AllocError>
    requires { IsTrue (forms.is_run run.now) }
    ensures { IfOk result (λ kind. kind ≡ spec.allowed_kind (kinds.kind_of_run run.now)) }
{
    if is_number(run) {
        return Ok(
            number(run)
                .map(TokenKind::Number)
                .ok_or(LexCause::NumberRange),
        );
    }
    match Keyword::of_run(run) {
        Some(Keyword::KwAfter) => Ok(Err(LexCause::NotInProfile)),
        Some(Keyword::KwIn) => Ok(Err(LexCause::NotInProfile)),
        Some(word) => Ok(Ok(TokenKind::Keyword(word))),
        None => match run {
            b"_" => Ok(Ok(TokenKind::Wildcard)),
            b"?" => Ok(Ok(TokenKind::Undefined)),
            _ => {
                let name = Name::from_bytes(Vec::from_slice(alloc, run)?);
                Ok(Ok(TokenKind::Name(name)))
            }
        },
    }
}
