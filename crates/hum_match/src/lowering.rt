//! Statements, units and whole programs.

ghost use Rattle.std.specs.Prelude.{◌≡◌, map, IfOk};
ghost use Rattle.hum_core.specs.Lists.{tested_stmt, tested_unit, tested};
ghost use Rattle.hum_match.specs.Keeps.{KeepsMeaning};

use crate::trees::{expr, tests};
use hum_core::{CoreStmt, CoreUnit, Program, Resolved, TestStmt, TestUnit};
use sqlite_items::Items;
use std::alloc::{AllocError as NoMemory, Global};

fn stmt(alloc: Global, statement: &CoreStmt) -> Result<TestStmt, NoMemory>
    ensures { IfOk result (λ made. made ≡ tested_stmt statement.now) }
{
    match statement {
        CoreStmt::Let(pattern, value) => {
            Ok(TestStmt::Let(tests(alloc, pattern)?, expr(alloc, value)?))
        }
        CoreStmt::Group(units) => Ok(TestStmt::Group(Items::from_slice(alloc, units.as_slice())?)),
        CoreStmt::Defined => Ok(TestStmt::Defined),
        CoreStmt::Send(message, target) => {
            Ok(TestStmt::Send(expr(alloc, message)?, expr(alloc, target)?))
        }
        CoreStmt::Create(behaviour) => Ok(TestStmt::Create(expr(alloc, behaviour)?)),
        CoreStmt::Become(behaviour) => Ok(TestStmt::Become(expr(alloc, behaviour)?)),
        CoreStmt::Throw(value) => Ok(TestStmt::Throw(expr(alloc, value)?)),
        CoreStmt::Do(value) => Ok(TestStmt::Do(expr(alloc, value)?)),
    }
}

fn stmts(alloc: Global, statements: &[CoreStmt]) -> Result<Items<TestStmt>, NoMemory>
    ensures { IfOk result (λ made. made ≡ map tested_stmt statements.now) }
{
    let mut made = Items::new(alloc);
    for statement in statements {
        made.push(stmt(alloc, statement)?)?;
    }
    Ok(made)
}

fn unit(alloc: Global, unit: &CoreUnit) -> Result<TestUnit, NoMemory>
    ensures { IfOk result (λ made. made ≡ tested_unit unit.now) }
{
    match unit {
        CoreUnit::Abs(pattern, value) => {
            Ok(TestUnit::Abs(tests(alloc, pattern)?, expr(alloc, value)?))
        }
        CoreUnit::Block(statements) => Ok(TestUnit::Block(stmts(alloc, statements.as_slice())?)),
    }
}

fn units(alloc: Global, units: &[CoreUnit]) -> Result<Items<TestUnit>, NoMemory>
    ensures { IfOk result (λ made. made ≡ tested units.now) }
{
    let mut made = Items::new(alloc);
    for each in units {
        made.push(unit(alloc, each)?)?;
    }
    Ok(made)
}

/// The same program with each pattern as its tests, unit for unit. Only want of memory is an error.
///
/// Each unit means what the resolved one of its number does: the same steps decide it, with outcomes that are alike, and messages are
/// delivered alike. Expressions and patterns may be of any depth, and the call takes stack for each level of them.
pub fn lower(alloc: Global, resolved: &Resolved) -> Result<Program, NoMemory>
    ensures value { IfOk result (λ program. program.units ≡ tested resolved.now.units) }
    ensures meaning { IfOk result (λ program. KeepsMeaning resolved.now.units program.units) }
{
    Ok(Program {
        units: units(alloc, resolved.units.as_slice())?,
    })
}
