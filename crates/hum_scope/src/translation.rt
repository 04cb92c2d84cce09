// The numbered tree of a program, node by node: names become slots, and abstractions and blocks become units.

ghost use Rattle.std.specs.Prelude.{◌≡◌, ◌+◌, ◌++◌, ◌∷◌, [], suc, ℕ, List, map, OnOk, IfOk};
ghost use Rattle.hum_core.specs.declared.resolved.CoreUnit.TheVariants as unit;
ghost use Rattle.hum_core.specs.Alike.{with_marks};
ghost use Rattle.hum_core.specs.Units as core;
ghost use Rattle.hum_core.specs.Units.{of_file, scope_after, in_order, item_names};
ghost use Rattle.hum_scope.specs.Bodies.{so_far, added};
ghost use Rattle.hum_scope.specs.Walks.{shown, kind_of, groups};
ghost use Rattle.hum_scope.specs.Translations.{itself, units, made_of_expr, made_of_pat, made_of_arm, made_of_branch, in_all, in_block, function_names, scope_with, scope_at, IsAbove};

use crate::binding::{Binding, binds, is_function};
use crate::body::Body;
use crate::sight::Sight;
use hum_core::{Const, CoreArm, CoreBranch, CoreExpr, CorePat, CoreStmt, CoreUnit};
use hum_syntax::{Arm, Branch, Expr, Pat, Stmt};
use sqlite_items::{Boxed, Items};
use std::alloc::{AllocError, Global};

/// Where a translation is.
#[derive(Drop)]
pub struct Translation<'a> {
    pub alloc: Global,
    /// What is bound here.
    pub sight: Sight<'a>,
    /// The number of the next unit.
    pub next: u32,
    /// The units so far. One that has a number and is not finished is an empty block.
    pub units: Items<CoreUnit>,
}

// A number for a unit, which is to be put at its place.
fn reserve(work: &mut Translation<'_>) -> Result<u32, AllocError>
    ensures number { IfOk result (λ n. n ≡ work.old.next) }
    ensures next { OnOk result (work.new.next ≡ suc work.old.next) }
    ensures units { OnOk result (work.new.units ≡ work.old.units ++ unit.Block [] ∷ []) }
    ensures sight { work.new.sight ≡ work.old.sight }
{
    let number = work.next;
    if number == u32::MAX {
        return Err(AllocError);
    }
    work.units.push(CoreUnit::Block(Items::new(work.alloc)))?;
    work.next = number + 1;
    Ok(number)
}

// The functions that are defined from the first of these statements to the end of the stretch.
fn group<'a>(alloc: Global, statements: &'a [Stmt]) -> Result<Vec<&'a [u8]>, AllocError>
    ensures { IfOk result (λ names. map (λ n. n.now) names.items ≡ function_names (map of_file statements.now)) }
{
    let mut names = Vec::new(alloc);
    for statement in statements {
        match binds(statement) {
            Binding::Function(name) => names.push(name.as_bytes())?,
            Binding::Values => return Ok(names),
            Binding::Nothing => {}
        }
    }
    Ok(names)
}

// Brings the functions of a stretch to sight, where these statements begin it.
fn enter<'a>(
    work: &mut Translation<'a>,
    binding: &Binding<'a>,
    grouped: bool,
    statements: &'a [Stmt],
) -> Result<(), AllocError>
    ensures sight { OnOk result (work.new.sight ≡ scope_with (shown binding.now) grouped (function_names (map of_file statements.now)) work.old.sight) }
    ensures next { work.new.next ≡ work.old.next }
    ensures units { work.new.units ≡ work.old.units }
{
    match binding {
        Binding::Function(_) => {
            if grouped {
                Ok(())
            } else {
                let names = group(work.alloc, statements)?;
                work.sight.bind_group(work.alloc, names.as_slice())
            }
        }
        Binding::Values => Ok(()),
        Binding::Nothing => Ok(()),
    }
}

// Brings the names of a pattern to sight.
#[cycle(marks)]
fn bind<'a>(sight: &mut Sight<'a>, p: &'a Pat) -> Result<(), AllocError>
    ensures { OnOk result (sight.new ≡ with_marks (made_of_pat p.now).names sight.old) }
{
    match p {
        Pat::Any => Ok(()),
        Pat::Bind(name) => sight.bind(name.as_bytes()),
        Pat::Undef => Ok(()),
        Pat::Nil => Ok(()),
        Pat::True => Ok(()),
        Pat::False => Ok(()),
        Pat::Num(_) => Ok(()),
        Pat::Sym(_) => Ok(()),
        Pat::Value(_) => Ok(()),
        Pat::Tuple(items) => bind_items(sight, items.as_slice()),
    }
}

#[cycle(marks)]
fn bind_items<'a>(sight: &mut Sight<'a>, items: &'a [Pat]) -> Result<(), AllocError>
    ensures { OnOk result (sight.new ≡ with_marks (item_names (map made_of_pat items.now)) sight.old) }
{
    for item in items {
        bind(sight, item)?;
    }
    Ok(())
}

// Brings the names of a value definition or a created actor to sight, behind the statement.
fn pass<'a>(sight: &mut Sight<'a>, s: &'a Stmt) -> Result<(), AllocError>
    ensures { OnOk result (sight.new ≡ scope_after (of_file s.now).binds sight.old) }
{
    match s {
        Stmt::Let(pattern, value) => {
            if is_function(pattern, value) {
                Ok(())
            } else {
                bind(sight, pattern)
            }
        }
        Stmt::Create(name, _) => sight.bind(name.as_bytes()),
        Stmt::Send(_, _) => Ok(()),
        Stmt::Become(_) => Ok(()),
        Stmt::Throw(_) => Ok(()),
        Stmt::Do(_) => Ok(()),
    }
}

#[cycle(translation)]
fn expr<'a>(work: &mut Translation<'a>, e: &'a Expr) -> Result<CoreExpr, AllocError>
    ensures itself { IfOk result (λ made. made ≡ itself (made_of_expr e.now).part work.old.sight work.old.next) }
    ensures units { OnOk result (work.new.units ≡ work.old.units ++ units (made_of_expr e.now).part work.old.sight work.old.next) }
    ensures next { OnOk result (work.new.next ≡ work.old.next + (made_of_expr e.now).part.size) }
    ensures sight { OnOk result (work.new.sight ≡ work.old.sight) }
{
    match e {
        Expr::Undef => Ok(CoreExpr::Is(Const::Undef)),
        Expr::Nil => Ok(CoreExpr::Is(Const::Nil)),
        Expr::True => Ok(CoreExpr::Is(Const::True)),
        Expr::False => Ok(CoreExpr::Is(Const::False)),
        Expr::Num(z) => Ok(CoreExpr::Is(Const::Num(*z))),
        Expr::Sym(name) => Ok(CoreExpr::Is(Const::Sym(name.copied(work.alloc)?))),
        Expr::Text(text) => Ok(CoreExpr::Text(text.copied(work.alloc)?)),
        Expr::Var(name) => Ok(CoreExpr::Var(work.sight.slot(name.as_bytes())?)),
        Expr::Myself => Ok(CoreExpr::Myself),
        Expr::Abs(pattern, value) => {
            let place = work.units.len();
            let number = reserve(work)?;
            let pattern = pattern.get();
            let made = pat(work, pattern)?;
            let value = under(work, value.get(), pattern)?;
            work.units.set(place, CoreUnit::Abs(made, value));
            Ok(CoreExpr::Abs(number))
        }
        Expr::Block(statements) => Ok(CoreExpr::Block(block(work, statements.as_slice())?)),
        Expr::Call(callee, argument) => {
            let callee = boxed(work, callee.get())?;
            let argument = boxed(work, argument.get())?;
            Ok(CoreExpr::Call(callee, argument))
        }
        Expr::Tuple(items) => Ok(CoreExpr::Tuple(exprs(work, items.as_slice())?)),
        Expr::New(behaviour) => Ok(CoreExpr::New(boxed(work, behaviour.get())?)),
        Expr::Case(subject, choices) => {
            let subject = boxed(work, subject.get())?;
            let choices = arms(work, choices.as_slice())?;
            Ok(CoreExpr::Case(subject, choices))
        }
        Expr::If(conditions, other) => {
            let conditions = branches(work, conditions.as_slice())?;
            let other = match other {
                None => reserve(work)?,
                Some(statements) => block(work, statements.as_slice())?,
            };
            Ok(CoreExpr::If(conditions, other))
        }
    }
}

#[cycle(translation)]
fn boxed<'a>(work: &mut Translation<'a>, e: &'a Expr) -> Result<Boxed<CoreExpr>, AllocError>
    ensures itself { IfOk result (λ made. made ≡ itself (made_of_expr e.now).part work.old.sight work.old.next) }
    ensures units { OnOk result (work.new.units ≡ work.old.units ++ units (made_of_expr e.now).part work.old.sight work.old.next) }
    ensures next { OnOk result (work.new.next ≡ work.old.next + (made_of_expr e.now).part.size) }
    ensures sight { OnOk result (work.new.sight ≡ work.old.sight) }
{
    // Callees stand one in another beyond the depth of a program, so here a call goes on without the frame of `expr`.
    let made = match e {
        Expr::Call(callee, argument) => {
            let callee = boxed(work, callee.get())?;
            let argument = boxed(work, argument.get())?;
            CoreExpr::Call(callee, argument)
        }
        _ => expr(work, e)?,
    };
    Boxed::new(work.alloc, made)
}

#[cycle(translation)]
fn exprs<'a>(work: &mut Translation<'a>, items: &'a [Expr]) -> Result<Items<CoreExpr>, AllocError>
    ensures itself { IfOk result (λ made. made ≡ itself (core.exprs (map made_of_expr items.now)) work.old.sight work.old.next) }
    ensures units { OnOk result (work.new.units ≡ work.old.units ++ units (core.exprs (map made_of_expr items.now)) work.old.sight work.old.next) }
    ensures next { OnOk result (work.new.next ≡ work.old.next + (core.exprs (map made_of_expr items.now)).size) }
    ensures sight { OnOk result (work.new.sight ≡ work.old.sight) }
{
    let mut made = Items::new(work.alloc);
    for item in items {
        made.push(expr(work, item)?)?;
    }
    Ok(made)
}

#[cycle(translation)]
fn arms<'a>(work: &mut Translation<'a>, arms: &'a [Arm]) -> Result<Items<CoreArm>, AllocError>
    ensures itself { IfOk result (λ made. made ≡ itself (in_order (map made_of_arm arms.now)) work.old.sight work.old.next) }
    ensures units { OnOk result (work.new.units ≡ work.old.units ++ units (in_order (map made_of_arm arms.now)) work.old.sight work.old.next) }
    ensures next { OnOk result (work.new.next ≡ work.old.next + (in_order (map made_of_arm arms.now)).size) }
    ensures sight { OnOk result (work.new.sight ≡ work.old.sight) }
{
    let mut made = Items::new(work.alloc);
    for arm in arms {
        let pattern = pat(work, &arm.pattern)?;
        let value = under(work, &arm.value, &arm.pattern)?;
        made.push(CoreArm { pattern, value })?;
    }
    Ok(made)
}

#[cycle(translation)]
fn branches<'a>(
    work: &mut Translation<'a>,
    branches: &'a [Branch],
) -> Result<Items<CoreBranch>, AllocError>
    ensures itself { IfOk result (λ made. made ≡ itself (in_order (map made_of_branch branches.now)) work.old.sight work.old.next) }
    ensures units { OnOk result (work.new.units ≡ work.old.units ++ units (in_order (map made_of_branch branches.now)) work.old.sight work.old.next) }
    ensures next { OnOk result (work.new.next ≡ work.old.next + (in_order (map made_of_branch branches.now)).size) }
    ensures sight { OnOk result (work.new.sight ≡ work.old.sight) }
{
    let mut made = Items::new(work.alloc);
    for branch in branches {
        let condition = expr(work, &branch.condition)?;
        let block = block(work, branch.block.as_slice())?;
        made.push(CoreBranch { condition, block })?;
    }
    Ok(made)
}

// An expression that sees the names of a pattern.
#[cycle(translation)]
fn under<'a>(
    work: &mut Translation<'a>,
    value: &'a Expr,
    pattern: &'a Pat,
) -> Result<CoreExpr, AllocError>
    ensures itself { IfOk result (λ made. made ≡ itself (made_of_expr value.now).part (with_marks (made_of_pat pattern.now).names work.old.sight) work.old.next) }
    ensures units { OnOk result (work.new.units ≡ work.old.units ++ units (made_of_expr value.now).part (with_marks (made_of_pat pattern.now).names work.old.sight) work.old.next) }
    ensures next { OnOk result (work.new.next ≡ work.old.next + (made_of_expr value.now).part.size) }
    ensures sight { OnOk result (work.new.sight ≡ work.old.sight) }
{
    let outer = work.sight.len();
    bind(&mut work.sight, pattern)?;
    let value = expr(work, value)?;
    work.sight.truncate(outer);
    Ok(value)
}

#[cycle(translation)]
fn pat<'a>(work: &mut Translation<'a>, p: &'a Pat) -> Result<CorePat, AllocError>
    ensures itself { IfOk result (λ made. made ≡ itself (made_of_pat p.now).part work.old.sight work.old.next) }
    ensures units { OnOk result (work.new.units ≡ work.old.units ++ units (made_of_pat p.now).part work.old.sight work.old.next) }
    ensures next { OnOk result (work.new.next ≡ work.old.next + (made_of_pat p.now).part.size) }
    ensures sight { OnOk result (work.new.sight ≡ work.old.sight) }
{
    match p {
        Pat::Any => Ok(CorePat::Any),
        Pat::Bind(_) => Ok(CorePat::Bind),
        Pat::Undef => Ok(CorePat::Is(Const::Undef)),
        Pat::Nil => Ok(CorePat::Is(Const::Nil)),
        Pat::True => Ok(CorePat::Is(Const::True)),
        Pat::False => Ok(CorePat::Is(Const::False)),
        Pat::Num(z) => Ok(CorePat::Is(Const::Num(*z))),
        Pat::Sym(name) => Ok(CorePat::Is(Const::Sym(name.copied(work.alloc)?))),
        Pat::Value(value) => Ok(CorePat::Value(boxed(work, value.get())?)),
        Pat::Tuple(items) => Ok(CorePat::Tuple(pats(work, items.as_slice())?)),
    }
}

#[cycle(translation)]
fn pats<'a>(work: &mut Translation<'a>, items: &'a [Pat]) -> Result<Items<CorePat>, AllocError>
    ensures itself { IfOk result (λ made. made ≡ itself (in_all (map made_of_pat items.now)) work.old.sight work.old.next) }
    ensures units { OnOk result (work.new.units ≡ work.old.units ++ units (in_all (map made_of_pat items.now)) work.old.sight work.old.next) }
    ensures next { OnOk result (work.new.next ≡ work.old.next + (in_all (map made_of_pat items.now)).size) }
    ensures sight { OnOk result (work.new.sight ≡ work.old.sight) }
{
    let mut made = Items::new(work.alloc);
    for item in items {
        made.push(pat(work, item)?)?;
    }
    Ok(made)
}

/// A block's unit.
#[cycle(translation)]
pub fn block<'a>(work: &mut Translation<'a>, statements: &'a [Stmt]) -> Result<u32, AllocError>
    ensures itself { IfOk result (λ made. made ≡ work.old.next) }
    ensures units { OnOk result (work.new.units ≡ work.old.units ++ units (core.block (map of_file statements.now)) work.old.sight work.old.next) }
    ensures next { OnOk result (work.new.next ≡ work.old.next + (core.block (map of_file statements.now)).size) }
    ensures sight { OnOk result (work.new.sight ≡ work.old.sight) }
{
    let place = work.units.len();
    let number = reserve(work)?;
    let outer = work.sight.len();
    let body = stmts(work, statements)?;
    work.sight.truncate(outer);
    work.units.set(place, CoreUnit::Block(body));
    Ok(number)
}

// The statements of a block, whose names stay in sight.
#[cycle(translation)]
fn stmts<'a>(
    work: &mut Translation<'a>,
    statements: &'a [Stmt],
) -> Result<Items<CoreStmt>, AllocError>
    ensures itself { IfOk result (λ made. made ≡ itself (in_block (map of_file statements.now)) work.old.sight work.old.next) }
    ensures units { OnOk result (work.new.units ≡ work.old.units ++ units (in_block (map of_file statements.now)) work.old.sight work.old.next) }
    ensures next { OnOk result (work.new.next ≡ work.old.next + (in_block (map of_file statements.now)).size) }
    ensures sight { OnOk result (IsAbove work.old.sight work.new.sight) }
{
    let mut body = Body::new(work.alloc);
    for (i, statement) in statements.iter().enumerate() {
        add(work, &mut body, statement, &statements[i..])?;
    }
    body.finish()
}

// One statement more of a block; `from_here` has it and those behind it.
#[cycle(translation)]
fn add<'a>(
    work: &mut Translation<'a>,
    body: &mut Body,
    s: &'a Stmt,
    from_here: &'a [Stmt],
) -> Result<(), AllocError>
    ensures body { OnOk result (let here = scope_at (of_file s.now) body.old.grouped (map of_file from_here.now) work.old.sight in
        (later : List ℕ) → so_far body.new later ≡ added (kind_of (of_file s.now).binds) body.old.grouped work.old.next (itself (of_file s.now).part here work.old.next) (so_far body.old) later) }
    ensures grouped { OnOk result (body.new.grouped ≡ groups (kind_of (of_file s.now).binds) body.old.grouped) }
    ensures units { OnOk result (work.new.units ≡ work.old.units ++ units (of_file s.now).part (scope_at (of_file s.now) body.old.grouped (map of_file from_here.now) work.old.sight) work.old.next) }
    ensures next { OnOk result (work.new.next ≡ work.old.next + (of_file s.now).part.size) }
    ensures sight { OnOk result (work.new.sight ≡ scope_after (of_file s.now).binds (scope_at (of_file s.now) body.old.grouped (map of_file from_here.now) work.old.sight)) }
{
    let binding = binds(s);
    let number = work.next;
    enter(work, &binding, body.grouped, from_here)?;
    let made = stmt(work, s)?;
    body.add(&binding, number, made)?;
    pass(&mut work.sight, s)
}

// A statement. The definition of a function is its unit, and what stands for it is its block's concern.
#[cycle(translation)]
fn stmt<'a>(work: &mut Translation<'a>, s: &'a Stmt) -> Result<CoreStmt, AllocError>
    ensures itself { IfOk result (λ made. made ≡ itself (of_file s.now).part work.old.sight work.old.next) }
    ensures units { OnOk result (work.new.units ≡ work.old.units ++ units (of_file s.now).part work.old.sight work.old.next) }
    ensures next { OnOk result (work.new.next ≡ work.old.next + (of_file s.now).part.size) }
    ensures sight { OnOk result (work.new.sight ≡ work.old.sight) }
{
    match s {
        Stmt::Let(pattern, value) => {
            if is_function(pattern, value) {
                expr(work, value)?;
                return Ok(CoreStmt::Defined);
            }
            let pattern = pat(work, pattern)?;
            Ok(CoreStmt::Let(pattern, expr(work, value)?))
        }
        Stmt::Send(message, target) => {
            let message = expr(work, message)?;
            Ok(CoreStmt::Send(message, expr(work, target)?))
        }
        Stmt::Create(_, behaviour) => Ok(CoreStmt::Create(expr(work, behaviour)?)),
        Stmt::Become(behaviour) => Ok(CoreStmt::Become(expr(work, behaviour)?)),
        Stmt::Throw(value) => Ok(CoreStmt::Throw(expr(work, value)?)),
        Stmt::Do(value) => Ok(CoreStmt::Do(expr(work, value)?)),
    }
}
