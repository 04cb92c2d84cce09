//! Expressions and patterns.

ghost use Rattle.std.specs.Prelude.{◌≡◌, ◌++◌, map, OnOk, IfOk};
ghost use Rattle.hum_core.specs.Lists.{tuple_tested, tested_expr, tested_pat, tested_arm, tested_branch};

use hum_core::{
    Const, CoreArm, CoreBranch, CoreExpr, CorePat, Test, TestArm, TestBranch, TestExpr,
};
use sqlite_items::{Boxed, Items};
use std::alloc::{AllocError as NoMemory, Global};

fn constant(alloc: Global, constant: &Const) -> Result<Const, NoMemory>
    ensures { IfOk result (λ copy. copy ≡ constant.now) }
{
    match constant {
        Const::Undef => Ok(Const::Undef),
        Const::Nil => Ok(Const::Nil),
        Const::True => Ok(Const::True),
        Const::False => Ok(Const::False),
        Const::Num(z) => Ok(Const::Num(*z)),
        Const::Sym(name) => Ok(Const::Sym(name.copied(alloc)?)),
    }
}

/// An expression, with the patterns in it as their tests.
#[cycle(lowering)]
pub fn expr(alloc: Global, e: &CoreExpr) -> Result<TestExpr, NoMemory>
    ensures { IfOk result (λ made. made ≡ tested_expr e.now) }
{
    match e {
        CoreExpr::Is(value) => Ok(TestExpr::Is(constant(alloc, value)?)),
        CoreExpr::Text(text) => Ok(TestExpr::Text(text.copied(alloc)?)),
        CoreExpr::Var(slot) => Ok(TestExpr::Var(*slot)),
        CoreExpr::Myself => Ok(TestExpr::Myself),
        CoreExpr::Abs(unit) => Ok(TestExpr::Abs(*unit)),
        CoreExpr::Block(unit) => Ok(TestExpr::Block(*unit)),
        CoreExpr::Call(callee, argument) => Ok(TestExpr::Call(
            boxed(alloc, callee.get())?,
            boxed(alloc, argument.get())?,
        )),
        CoreExpr::Tuple(items) => Ok(TestExpr::Tuple(exprs(alloc, items.as_slice())?)),
        CoreExpr::New(behaviour) => Ok(TestExpr::New(boxed(alloc, behaviour.get())?)),
        CoreExpr::Case(subject, choices) => Ok(TestExpr::Case(
            boxed(alloc, subject.get())?,
            arms(alloc, choices.as_slice())?,
        )),
        CoreExpr::If(conditions, other) => Ok(TestExpr::If(
            branches(alloc, conditions.as_slice())?,
            *other,
        )),
    }
}

#[cycle(lowering)]
fn boxed(alloc: Global, e: &CoreExpr) -> Result<Boxed<TestExpr>, NoMemory>
    ensures { IfOk result (λ made. made ≡ tested_expr e.now) }
{
    // Callees stand one in another beyond the depth of a program, so here a call goes on without the frame of `expr`.
    let made = match e {
        CoreExpr::Call(callee, argument) => {
            let callee = boxed(alloc, callee.get())?;
            let argument = boxed(alloc, argument.get())?;
            TestExpr::Call(callee, argument)
        }
        _ => expr(alloc, e)?,
    };
    Boxed::new(alloc, made)
}

#[cycle(lowering)]
fn exprs(alloc: Global, items: &[CoreExpr]) -> Result<Items<TestExpr>, NoMemory>
    ensures { IfOk result (λ made. made ≡ map tested_expr items.now) }
{
    let mut made = Items::new(alloc);
    for item in items {
        made.push(expr(alloc, item)?)?;
    }
    Ok(made)
}

#[cycle(lowering)]
fn arms(alloc: Global, arms: &[CoreArm]) -> Result<Items<TestArm>, NoMemory>
    ensures { IfOk result (λ made. made ≡ map tested_arm arms.now) }
{
    let mut made = Items::new(alloc);
    for each in arms {
        made.push(arm(alloc, each)?)?;
    }
    Ok(made)
}

#[cycle(lowering)]
fn arm(alloc: Global, arm: &CoreArm) -> Result<TestArm, NoMemory>
    ensures { IfOk result (λ made. made ≡ tested_arm arm.now) }
{
    Ok(TestArm {
        pattern: tests(alloc, &arm.pattern)?,
        value: expr(alloc, &arm.value)?,
    })
}

#[cycle(lowering)]
fn branches(alloc: Global, branches: &[CoreBranch]) -> Result<Items<TestBranch>, NoMemory>
    ensures { IfOk result (λ made. made ≡ map tested_branch branches.now) }
{
    let mut made = Items::new(alloc);
    for each in branches {
        made.push(branch(alloc, each)?)?;
    }
    Ok(made)
}

#[cycle(lowering)]
fn branch(alloc: Global, branch: &CoreBranch) -> Result<TestBranch, NoMemory>
    ensures { IfOk result (λ made. made ≡ tested_branch branch.now) }
{
    Ok(TestBranch {
        condition: expr(alloc, &branch.condition)?,
        block: branch.block,
    })
}

/// The tests of a pattern.
#[cycle(lowering)]
pub fn tests(alloc: Global, p: &CorePat) -> Result<Items<Test>, NoMemory>
    ensures { IfOk result (λ made. made ≡ tested_pat p.now) }
{
    let mut made = Items::new(alloc);
    pat(alloc, p, &mut made)?;
    Ok(made)
}

// Puts the tests of a pattern behind others.
#[cycle(lowering)]
fn pat(alloc: Global, p: &CorePat, made: &mut Items<Test>) -> Result<(), NoMemory>
    ensures { OnOk result (made.new ≡ made.old ++ tested_pat p.now) }
{
    match p {
        CorePat::Any => made.push(Test::Skip),
        CorePat::Bind => made.push(Test::Bind),
        CorePat::Is(value) => made.push(Test::Is(constant(alloc, value)?)),
        CorePat::Value(value) => made.push(Test::Same(expr(alloc, value.get())?)),
        CorePat::Tuple(items) => tuple(alloc, items.as_slice(), made),
    }
}

// `Pair` before each item but the last, since each pair's tail is what the items behind it are.
#[cycle(lowering)]
fn tuple(alloc: Global, items: &[CorePat], made: &mut Items<Test>) -> Result<(), NoMemory>
    ensures { OnOk result (made.new ≡ made.old ++ tuple_tested (map tested_pat items.now)) }
{
    for (i, item) in items.iter().enumerate() {
        if i + 1 < items.len() {
            made.push(Test::Pair)?;
        }
        pat(alloc, item, made)?;
    }
    Ok(())
}
