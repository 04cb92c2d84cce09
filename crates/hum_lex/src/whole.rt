//! The tokens of a whole text.

ghost use Rattle.std.specs.Prelude.{◌≡◌, ◌<◌, ◌≤◌, ◌+◌, ◌^◌, ℕ, List, [], ◌∷◌, ◌++◌, length, true, IfOk, IfErr, OnOk, MatchResult};
ghost use Rattle.hum_syntax.specs.Tokens as weights;
ghost use Rattle.hum_syntax.specs.Kinds.{is_carried};
ghost use Rattle.hum_syntax.specs.Tokens.{Placed, placed, all_placed};
ghost use Rattle.hum_syntax.specs.Lexes.{IsTokens};
ghost use Rattle.hum_lex.specs.Faults.{IsRefusedAt};
ghost use Rattle.hum_lex.specs.Fronts.{IsHeavy};

use crate::error::{LexCause, LexError, LexRefused};
use crate::front::{Front, front_of};
use hum_syntax::{Token, TokenKind};
use std::alloc::Global;

const WEIGHT_LIMIT: usize = 16000;

fn weight_of(kind: &TokenKind) -> usize
    ensures { result ≡ weights.weight_of kind.now }
{
    match kind {
        TokenKind::Symbol(name) => 1 + name.as_bytes().len(),
        TokenKind::Text(text) => 1 + text.as_points().len(),
        _ => 1,
    }
}

fn is_callee(kind: &TokenKind) -> bool
    ensures { result ≡ weights.is_callee kind.now }
{
    match kind {
        TokenKind::Name(_) => true,
        TokenKind::ParenRight => true,
        TokenKind::SquareRight => true,
        _ => false,
    }
}

// Adds a token, and answers the weight with it.
fn push(
    tokens: &mut Vec<Token>,
    kind: TokenKind,
    from: usize,
    to: usize,
    weighed: usize,
) -> Result<usize, LexError>
    requires carried { is_carried kind ≡ true }
    requires fits { (from ≤ to) × (to < 2 ^ 32) }
    requires light { weighed ≤ WEIGHT_LIMIT }
    ensures weight { IfOk result (λ sum. (sum ≡ weighed + weights.weight_of kind) × (sum ≤ WEIGHT_LIMIT)) }
    ensures pushed { OnOk result (all_placed tokens.new.items ≡ all_placed tokens.old.items ++ placed kind from to ∷ []) }
    ensures heavy { IfErr result (IsHeavy (weighed + weights.weight_of kind) from) }
{
    let sum = weighed + weight_of(&kind);
    if sum > WEIGHT_LIMIT {
        return Err(LexError::Refused(LexRefused {
            at: from as u32,
            cause: LexCause::TooLarge,
        }));
    }
    tokens.push(Token {
        kind,
        from: from as u32,
        to: to as u32,
    })?;
    Ok(sum)
}

/// The tokens of a text of fewer than 2 to the 32 bytes, in order, each with its place. They weigh at most 16,000.
///
/// A text that has no such tokens is refused at the first place that makes it so. Any call may answer `NoMemory`.
pub fn lex(alloc: Global, bytes: &[u8]) -> Result<Vec<Token>, LexError>
    requires { length bytes.now < 2 ^ 32 }
    ensures tokens { IfOk result (λ tokens. IsTokens bytes.now (all_placed tokens.items)) }

    // A text that has tokens has no others, and is refused for want of memory alone.
    ensures only { (ts : List Placed) → IsTokens bytes.now ts →
        MatchResult result (λ tokens. all_placed tokens.items ≡ ts) (λ e. e ≡ LexError.NoMemory) }
    ensures refused { (at : ℕ) (cause : LexCause) →
        result ≡ Err (LexError.Refused (record { at = at; cause = cause })) → IsRefusedAt bytes.now at cause }
{
    let mut tokens = Vec::new(alloc);
    let mut at = 0;
    let mut called = false;
    let mut weighed = 0;
    while at < bytes.len() {
        match front_of(alloc, called, &bytes[at..])? {
            Front::Gap(len) => {
                called = false;
                at += len;
            }
            Front::Token(len, kind) => {
                called = is_callee(&kind);
                match push(&mut tokens, kind, at, at + len, weighed) {
                    Ok(sum) => weighed = sum,
                    Err(e) => return Err(e),
                }
                at += len;
            }
            Front::Fault(len, cause) => {
                return Err(LexError::Refused(LexRefused {
                    at: (at + len) as u32,
                    cause,
                }));
            }
        }
    }
    Ok(tokens)
}
