// The numbered tree of a whole program.

ghost use Rattle.std.specs.Prelude.{◌≡◌, IfOk};
ghost use Rattle.hum_meaning.specs.Scope.{first_refused};
ghost use Rattle.hum_core.specs.Units.{resolved};
ghost use Rattle.hum_core.specs.Laws.{FileStands, ResolvedMeansTheSame};
ghost use Rattle.hum_scope.specs.Told.{Told};

use crate::check::{check_scope, outermost};
use crate::refusal::ScopeError;
use crate::sight::Sight;
use crate::translation::{Translation, block};
use hum_core::{CoreUnit, Resolved};
use hum_syntax::{Stmt, Tree};
use sqlite_items::Items;
use std::alloc::{AllocError, Global};

fn units(alloc: Global, statements: &[Stmt]) -> Result<Items<CoreUnit>, AllocError>
    ensures { IfOk result (λ units. units ≡ resolved statements.now) }
{
    let mut sight = Sight::new(alloc);
    sight.bind_all(&outermost(alloc)?)?;
    let mut work = Translation {
        alloc,
        sight,
        next: 0,
        units: Items::new(alloc),
    };
    block(&mut work, statements)?;
    let Translation { units, .. } = work;
    Ok(units)
}

/// The numbered tree of a program whose names are all bound, once and within the limit; else the first that is refused, by the number of
/// names before it. The program stands for its numbered tree (`stands`), and what stands for one another by these units means the same
/// (`meaning`): the same steps decide it, with outcomes that are alike, and messages are delivered alike.
///
/// Only want of memory is another answer. It may be given, too, where a program has more than 2^32 - 1 names or units, or a group or a scope
/// has more. The call takes stack for each level of the tree.
pub fn resolve(alloc: Global, tree: &Tree) -> Result<Resolved, ScopeError>
    ensures told { Told (first_refused tree.now.statements) result }
    ensures units { IfOk result (λ r. r.units ≡ resolved tree.now.statements) }
    ensures stands { IfOk result (λ r. FileStands tree.now.statements r.units) }
    ensures meaning { IfOk result (λ r. ResolvedMeansTheSame r.units) }
{
    check_scope(alloc, tree)?;
    let units = units(alloc, tree.statements.as_slice())?;
    Ok(Resolved { units })
}
