//! The parser.

ghost use Rattle.std.specs.Prelude.{◌≡◌, ℕ, ◌<◌, ◌^◌, ◌⊎◌, length, IfOk};
ghost use Rattle.hum_syntax.specs.Spells.{Spells, IsStmts, deepest, kinds};
ghost use Rattle.hum_syntax.specs.declared.Tree.{Tree};
ghost use Rattle.hum_parse.specs.Input.{Reads};
ghost use Rattle.hum_parse.specs.Rules as spec;
ghost use Rattle.hum_parse.specs.Begins.{RefusedAt};

use crate::grammar::{Grammar, expression};
use crate::tokens::{Stop, Tokens};
use hum_syntax::{Stmt, Token, Tree};
use sqlite_items::Items;
use std::alloc::Global;

/// Why tokens spell no tree.
#[derive(Clone, Copy, Debug, PartialEq, Eq)]
pub enum ParseError {
    NoMemory,
    /// The first `at` tokens begin a program, and with the next one none begins, or there is none.
    Refused { at: u32 },
}

/// How many levels may stand below a program's statements, which are at depth 1.
const DEEPEST: u32 = 199;

/// Statements up to the end of the tokens.
#[tactic(auto, unfolding(crate::specs::Rules::program, crate::specs::Rules::program_from))]
fn program(alloc: Global, tokens: &mut Tokens<'_>, n: u32) -> Result<Items<Stmt>, Stop>
    ensures { Reads (spec.program n tokens.old) result tokens.new }
{
    let grammar = Grammar {
        alloc,
        below: expression,
    };
    let mut found = Items::new(alloc);
    for _turn in 0..tokens.len() {
        if tokens.is_empty() {
            return Ok(found);
        }
        found.push(grammar.stmt(tokens, n)?)?;
    }
    if tokens.is_empty() {
        Ok(found)
    } else {
        Err(Stop::Refused)
    }
}

/// The tree that the tokens spell, no deeper than 200.
///
/// Tokens that spell no such tree are refused. The place is the number of tokens in the longest front that begins some tokens that do.
/// A call may answer `NoMemory` whatever the tokens are.
#[tactic(auto, using(crate::proofs::Answered::whole_rules))]
pub fn parse(alloc: Global, tokens: &[Token]) -> Result<Tree, ParseError>
    requires { length tokens.now < 2 ^ 32 }
    ensures found { IfOk result (λ tree. Spells (kinds tokens.now) tree) }
    ensures refused { (at : ℕ) → result ≡ Err (ParseError.Refused at) → RefusedAt (IsStmts deepest) (kinds tokens.now) at }
    ensures only { (tree : Tree) → Spells (kinds tokens.now) tree → (result ≡ Ok tree) ⊎ (result ≡ Err ParseError.NoMemory) }
{
    let mut rest = Tokens::new(tokens);
    match program(alloc, &mut rest, DEEPEST) {
        Ok(statements) => Ok(Tree { statements }),
        Err(Stop::NoMemory) => Err(ParseError::NoMemory),
        Err(Stop::Refused) => Err(ParseError::Refused {
            at: (tokens.len() - rest.len()) as u32,
        }),
    }
}
