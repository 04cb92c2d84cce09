// From a text to its tree.

ghost use Rattle.std.specs.Prelude.{◌≡◌, ◌≤◌, length, IfOk, IfErr};
ghost use Rattle.hum_syntax.specs.Tokens.{all_placed, kinds_of};
ghost use Rattle.hum_syntax.specs.Lexes.{IsTokens};
ghost use Rattle.hum_syntax.specs.Spells.{Spells};
ghost use Rattle.hum_core.specs.Units.{resolved};
ghost use Rattle.hum_meaning.specs.Scope.{Scoped};
ghost use Rattle.hum_front.specs.Accepted.{Accepted, Fails, text_limit};

use crate::error::StartError;
use crate::places::{name_place, token_place};
use hum_core::Resolved;
use hum_lex::{LexError, lex};
use hum_parse::{ParseError, parse};
use hum_scope::{ScopeError, ScopeRefused, resolve};
use hum_syntax::{Token, Tree};
use std::alloc::Global;

const TEXT_LIMIT: usize = 1_048_576;

/// What a text is read as: its tree, and the numbered tree of that.
#[derive(Drop)]
pub struct Reading {
    pub tree: Tree,
    pub resolved: Resolved,
}

// The tokens of a text.
fn tokens_of(alloc: Global, bytes: &[u8]) -> Result<Vec<Token>, StartError>
    ensures short { IfOk result (λ ts. length bytes.now ≤ text_limit) }
    ensures tokens { IfOk result (λ ts. IsTokens bytes.now (all_placed ts.items)) }
    ensures fails { IfErr result (Fails bytes.now) }
{
    if bytes.len() > TEXT_LIMIT {
        return Err(StartError::TooLong);
    }
    match lex(alloc, bytes) {
        Ok(tokens) => Ok(tokens),
        Err(LexError::NoMemory) => Err(StartError::NoMemory),
        Err(LexError::Refused(why)) => Err(StartError::Lex(why)),
    }
}

// The tree that the tokens of a text spell.
fn tree_of(alloc: Global, bytes: &[u8], tokens: &[Token]) -> Result<Tree, StartError>
    requires short { length bytes.now ≤ text_limit }
    requires are { IsTokens bytes.now (all_placed tokens.now) }
    ensures spells { IfOk result (λ tree. Spells (kinds_of (all_placed tokens.now)) tree) }
    ensures fails { IfErr result (Fails bytes.now) }
{
    match parse(alloc, tokens) {
        Ok(tree) => Ok(tree),
        Err(ParseError::NoMemory) => Err(StartError::NoMemory),
        Err(ParseError::Refused { at }) => Err(StartError::Parse {
            at: token_place(bytes, tokens, at),
        }),
    }
}

// The numbered tree of the tree that the tokens of a text spell.
fn resolved_of(
    alloc: Global,
    bytes: &[u8],
    tokens: &[Token],
    tree: &Tree,
) -> Result<Resolved, StartError>
    requires short { length bytes.now ≤ text_limit }
    requires are { IsTokens bytes.now (all_placed tokens.now) }
    requires spells { Spells (kinds_of (all_placed tokens.now)) tree.now }
    ensures scoped { IfOk result (λ r. Scoped tree.now.statements) }
    ensures units { IfOk result (λ r. r.units ≡ resolved tree.now.statements) }
    ensures fails { IfErr result (Fails bytes.now) }
{
    match resolve(alloc, tree) {
        Ok(resolved) => Ok(resolved),
        Err(ScopeError::NoMemory) => Err(StartError::NoMemory),
        Err(ScopeError::Refused(why)) => match name_place(tokens, why.at) {
            Some(at) => Err(StartError::Scope(ScopeRefused {
                at,
                cause: why.cause,
            })),
            None => unreachable!(),
        },
    }
}

/// The tree and the numbered tree of a text that is accepted; else why it is refused, and where. All causes come in their order: its length,
/// its tokens, its tree, its names.
///
/// Each text is accepted, with one tree, or refused, in one way, and none is both. A call may answer `NoMemory` whatever the text is, and
/// it takes stack for each level of the tree.
pub fn read_text(alloc: Global, bytes: &[u8]) -> Result<Reading, StartError>
    ensures accepted { IfOk result (λ r. Accepted bytes.now r.tree) }
    ensures units { IfOk result (λ r. r.resolved.units ≡ resolved r.tree.statements) }
    ensures fails { IfErr result (Fails bytes.now) }
{
    let tokens = match tokens_of(alloc, bytes) {
        Ok(tokens) => tokens,
        Err(e) => return Err(e),
    };
    let tree = match tree_of(alloc, bytes, &tokens) {
        Ok(tree) => tree,
        Err(e) => return Err(e),
    };
    match resolved_of(alloc, bytes, &tokens, &tree) {
        Ok(resolved) => Ok(Reading { tree, resolved }),
        Err(e) => Err(e),
    }
}
