// The scope rule, for whole trees.

ghost use Rattle.std.specs.Prelude.{◌≡◌, IfOk};
ghost use Rattle.hum_meaning.specs.Scope.{first_refused, outermost_scope};
ghost use Rattle.hum_scope.specs.Told.{Told};

use crate::names::Names;
use crate::refusal::ScopeError;
use crate::walk::{Walk, block};
use hum_syntax::Tree;
use std::alloc::{AllocError, Global};

/// The names of the outermost environment.
pub fn outermost<'a>(alloc: Global) -> Result<Names<'a>, AllocError>
    ensures { IfOk result (λ names. names ≡ outermost_scope) }
{
    let mut names = Names::new(alloc);
    names.push(b"add")?;
    names.push(b"sub")?;
    names.push(b"mul")?;
    names.push(b"compare")?;
    names.push(b"less")?;
    names.push(b"less_equal")?;
    names.push(b"greater")?;
    names.push(b"greater_equal")?;
    names.push(b"equal")?;
    names.push(b"and")?;
    names.push(b"or")?;
    names.push(b"not")?;
    names.push(b"println")?;
    names.push(b"say")?;
    Ok(names)
}

/// Whether each name of the tree is bound, once and within the limit; else the first that is refused, by the number of names before it.
///
/// Only want of memory is another answer; a tree whose first 2^32 - 1 names are all accepted and that has more may be answered so too.
/// The call takes stack for each level of the tree.
#[tactic(auto, using(crate::proofs::Counts::accepted, crate::proofs::Counts::refused, crate::proofs::Counts::no_memory))]
pub fn check_scope(alloc: Global, tree: &Tree) -> Result<(), ScopeError>
    ensures { Told (first_refused tree.now.statements) result }
{
    let mut walk = Walk {
        alloc,
        seen: outermost(alloc)?,
        count: Ok(0),
    };
    block(&mut walk, tree.statements.as_slice())?;
    match walk.count {
        Ok(_) => Ok(()),
        Err(refused) => Err(ScopeError::Refused(refused)),
    }
}
