//! What is printed is read again.

ghost use Rattle.std.specs.Prelude.{◌≡◌, ◌≤◌, ◌⊎◌, Some, None, IfOk};
ghost use Rattle.hum_syntax.specs.declared.Tree.{Tree as AnyTree};
ghost use Rattle.hum_syntax.specs.Prints.{printed, levels};
ghost use Rattle.hum_syntax.specs.Spells.{Spells, deepest};
ghost use Rattle.hum_syntax.specs.Tokens.{weight_of_kinds, weight_limit};

use crate::whole::{ParseError, parse};
use hum_lex::{LexError, lex};
use hum_syntax::{Tree, print};
use std::alloc::{AllocError, Global};

/// The longest text that may be lexed.
const TEXT_LIMIT: usize = u32::MAX as usize;

/// What the text of a tree spells: the same tree or, where that is too heavy or too deep for a program, none.
pub fn read_back(alloc: Global, tree: &Tree) -> Result<Option<Tree>, AllocError>
    ensures within { (spelled : AnyTree) → weight_of_kinds (printed tree.now.statements) ≤ weight_limit → Spells (printed tree.now.statements) spelled →
        IfOk result (λ again. again ≡ Some tree.now) }
    ensures same { weight_of_kinds (printed tree.now.statements) ≤ weight_limit → levels tree.now.statements ≤ deepest →
        IfOk result (λ again. again ≡ Some tree.now) }
    ensures no_other { IfOk result (λ again. (again ≡ None) ⊎ (again ≡ Some tree.now)) }
{
    let text = print(alloc, tree)?;
    if text.len() > TEXT_LIMIT {
        return Ok(None);
    }
    let tokens = match lex(alloc, text.as_slice()) {
        Ok(tokens) => tokens,
        Err(LexError::NoMemory) => return Err(AllocError),
        Err(LexError::Refused(_)) => return Ok(None),
    };
    match parse(alloc, tokens.as_slice()) {
        Ok(again) => Ok(Some(again)),
        Err(ParseError::NoMemory) => Err(AllocError),
        Err(ParseError::Refused { at: _ }) => Ok(None),
    }
}
