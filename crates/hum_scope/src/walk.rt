// The walk over a tree, which judges each name in order.

ghost use Rattle.std.specs.Prelude.{◌≡◌, ◌≤◌, ◌-◌, ◌∷◌, ◌++◌, [], length, map, take, Ok, OnOk};
ghost use Rattle.hum_meaning.specs.Scope as spec;
ghost use Rattle.hum_meaning.specs.Scope.{found_of_stmt};
ghost use Rattle.hum_scope.specs.Walks as walks;
ghost use Rattle.hum_scope.specs.Walks.{shown, judge, judged, place, found_of_expr, found_of_pat, found_of_arm, found_of_branch};

use crate::binding::{Binding, binds};
use crate::names::Names;
use crate::refusal::ScopeRefused;
use hum_meaning::ScopeCause;
use hum_syntax::{Arm, Branch, Expr, Name, Pat, Stmt};
use std::alloc::{AllocError, Global};

/// So many bindings at most are in scope.
const MOST_BINDINGS: usize = 4000;

/// Where a walk is.
#[derive(Drop)]
pub struct Walk<'a> {
    pub alloc: Global,
    /// The names in sight.
    pub seen: Names<'a>,
    /// How many names were judged, or the first that is refused.
    pub count: Result<u32, ScopeRefused>,
}

// One name is judged. A place beyond 2^32 has no number.
fn verdict(walk: &mut Walk<'_>, at: u32, cause: Option<ScopeCause>) -> Result<(), AllocError>
    requires { walk.old.count ≡ Ok at }
    ensures count { OnOk result (walk.new.count ≡ judge walk.old.count cause) }
    ensures seen { walk.new.seen ≡ walk.old.seen }
{
    match cause {
        None => {
            if at == u32::MAX {
                return Err(AllocError);
            }
            walk.count = Ok(at + 1);
        }
        Some(cause) => walk.count = Err(ScopeRefused { at, cause }),
    }
    Ok(())
}

fn use_name(walk: &mut Walk<'_>, name: &Name) -> Result<(), AllocError>
    ensures count { OnOk result (walk.new.count ≡ judged walk.old.count (spec.used walk.old.seen name.now ∷ [])) }
    ensures seen { OnOk result (walk.new.seen ≡ walk.old.seen) }
{
    let Ok(at) = walk.count else {
        return Ok(());
    };
    if walk.seen.has(name.as_bytes()) {
        verdict(walk, at, None)
    } else {
        verdict(walk, at, Some(ScopeCause::Unbound))
    }
}

// What is wrong with a name that is bound behind the taken names, with so many further bindings in scope.
fn fault(taken: &Names<'_>, outer: usize, name: &[u8]) -> Option<ScopeCause>
    ensures { result ≡ spec.bound (place [] taken.now outer) name.now }
{
    if taken.has(name) {
        return Some(ScopeCause::Twice);
    }
    if outer >= MOST_BINDINGS || taken.len() >= MOST_BINDINGS - outer {
        return Some(ScopeCause::TooManyNames);
    }
    None
}

fn bind<'a>(
    walk: &mut Walk<'a>,
    taken: &mut Names<'a>,
    outer: usize,
    name: &'a Name,
) -> Result<(), AllocError>
    ensures count { OnOk result (walk.new.count ≡ judged walk.old.count (spec.bound (place walk.old.seen taken.old outer) name.now ∷ [])) }
    ensures seen { OnOk result (walk.new.seen ≡ walk.old.seen) }
    ensures taken { OnOk result (taken.new ≡ name.now ∷ taken.old) }
{
    let name = name.as_bytes();
    if let Ok(at) = walk.count {
        verdict(walk, at, fault(taken, outer, name))?;
    }
    taken.push(name)?;
    Ok(())
}

// The functions that are defined from the first of these statements to the end of the stretch.
fn group<'a>(seen: &mut Names<'a>, statements: &'a [Stmt]) -> Result<(), AllocError>
    ensures { OnOk result (seen.new ≡ spec.functions (map found_of_stmt statements.now) ++ seen.old) }
{
    for statement in statements {
        match binds(statement) {
            Binding::Function(name) => seen.push(name.as_bytes())?,
            Binding::Values => return Ok(()),
            Binding::Nothing => {}
        }
    }
    Ok(())
}

// Brings the functions of a stretch to sight, where these statements begin it.
fn enter<'a>(
    seen: &mut Names<'a>,
    binding: &Binding<'a>,
    grouped: bool,
    statements: &'a [Stmt],
) -> Result<(), AllocError>
    ensures { OnOk result (seen.new ≡ walks.entered (shown binding.now) grouped (spec.functions (map found_of_stmt statements.now)) seen.old) }
{
    match binding {
        Binding::Function(_) => {
            if grouped {
                Ok(())
            } else {
                group(seen, statements)
            }
        }
        Binding::Values => Ok(()),
        Binding::Nothing => Ok(()),
    }
}

// The names of a statement that come to sight behind it: those that were taken after the first `before`.
fn pass<'a>(
    seen: &mut Names<'a>,
    binding: &Binding<'a>,
    taken: &Names<'a>,
    before: usize,
) -> Result<(), AllocError>
    requires { before ≤ length taken.now }
    ensures { OnOk result (seen.new ≡ walks.passed (shown binding.now) (take (length taken.now - before) taken.now) seen.old) }
{
    match binding {
        Binding::Values => seen.extend(taken, before),
        Binding::Function(_) => Ok(()),
        Binding::Nothing => Ok(()),
    }
}

fn groups(binding: &Binding<'_>, grouped: bool) -> bool
    ensures { result ≡ walks.groups (shown binding.now) grouped }
{
    match binding {
        Binding::Function(_) => true,
        Binding::Values => false,
        Binding::Nothing => grouped,
    }
}

#[cycle(walk)]
#[tactic(auto, using(crate::proofs::NameLists::drop_front))]
fn expr<'a>(walk: &mut Walk<'a>, e: &'a Expr) -> Result<(), AllocError>
    ensures count { OnOk result (walk.new.count ≡ judged walk.old.count ((found_of_expr e.now).at walk.old.seen)) }
    ensures seen { OnOk result (walk.new.seen ≡ walk.old.seen) }
{
    match e {
        Expr::Undef => Ok(()),
        Expr::Nil => Ok(()),
        Expr::True => Ok(()),
        Expr::False => Ok(()),
        Expr::Num(_) => Ok(()),
        Expr::Sym(_) => Ok(()),
        Expr::Text(_) => Ok(()),
        Expr::Var(name) => use_name(walk, name),
        Expr::Myself => Ok(()),
        Expr::Abs(pattern, value) => {
            let outer = walk.seen.len();
            fresh_pat(walk, pattern.get())?;
            expr(walk, value.get())?;
            walk.seen.truncate(outer);
            Ok(())
        }
        Expr::Block(statements) => block(walk, statements.as_slice()),
        Expr::Call(callee, argument) => {
            expr(walk, callee.get())?;
            expr(walk, argument.get())
        }
        Expr::Tuple(items) => exprs(walk, items.as_slice()),
        Expr::New(behaviour) => expr(walk, behaviour.get()),
        Expr::Case(subject, choices) => {
            expr(walk, subject.get())?;
            arms(walk, choices.as_slice())
        }
        Expr::If(conditions, None) => branches(walk, conditions.as_slice()),
        Expr::If(conditions, Some(statements)) => {
            branches(walk, conditions.as_slice())?;
            block(walk, statements.as_slice())
        }
    }
}

#[cycle(walk)]
fn exprs<'a>(walk: &mut Walk<'a>, items: &'a [Expr]) -> Result<(), AllocError>
    ensures count { OnOk result (walk.new.count ≡ judged walk.old.count (spec.exprs (map found_of_expr items.now) walk.old.seen)) }
    ensures seen { OnOk result (walk.new.seen ≡ walk.old.seen) }
{
    for item in items {
        expr(walk, item)?;
    }
    Ok(())
}

#[cycle(walk)]
#[tactic(auto, using(crate::proofs::NameLists::drop_front))]
fn arms<'a>(walk: &mut Walk<'a>, arms: &'a [Arm]) -> Result<(), AllocError>
    ensures count { OnOk result (walk.new.count ≡ judged walk.old.count (spec.in_all (map found_of_arm arms.now) walk.old.seen)) }
    ensures seen { OnOk result (walk.new.seen ≡ walk.old.seen) }
{
    for arm in arms {
        let outer = walk.seen.len();
        fresh_pat(walk, &arm.pattern)?;
        expr(walk, &arm.value)?;
        walk.seen.truncate(outer);
    }
    Ok(())
}

#[cycle(walk)]
fn branches<'a>(walk: &mut Walk<'a>, branches: &'a [Branch]) -> Result<(), AllocError>
    ensures count { OnOk result (walk.new.count ≡ judged walk.old.count (spec.in_all (map found_of_branch branches.now) walk.old.seen)) }
    ensures seen { OnOk result (walk.new.seen ≡ walk.old.seen) }
{
    for each in branches {
        expr(walk, &each.condition)?;
        block(walk, each.block.as_slice())?;
    }
    Ok(())
}

// A pattern that is no statement's. Its names come to sight.
#[cycle(walk)]
#[tactic(auto, using(crate::proofs::Sights::fresh_place, crate::proofs::NameLists::newest_of_all))]
fn fresh_pat<'a>(walk: &mut Walk<'a>, p: &'a Pat) -> Result<(), AllocError>
    ensures count { OnOk result (walk.new.count ≡ judged walk.old.count ((found_of_pat p.now).at (spec.fresh walk.old.seen))) }
    ensures seen { OnOk result (walk.new.seen ≡ (found_of_pat p.now).names ++ walk.old.seen) }
{
    let outer = walk.seen.len();
    let mut taken = Names::new(walk.alloc);
    pat(walk, &mut taken, outer, p)?;
    walk.seen.extend(&taken, 0)
}

// A pattern behind the taken names, with so many further bindings in scope.
#[cycle(walk)]
fn pat<'a>(
    walk: &mut Walk<'a>,
    taken: &mut Names<'a>,
    outer: usize,
    p: &'a Pat,
) -> Result<(), AllocError>
    ensures count { OnOk result (walk.new.count ≡ judged walk.old.count ((found_of_pat p.now).at (place walk.old.seen taken.old outer))) }
    ensures seen { OnOk result (walk.new.seen ≡ walk.old.seen) }
    ensures taken { OnOk result (taken.new ≡ (found_of_pat p.now).names ++ taken.old) }
{
    match p {
        Pat::Any => Ok(()),
        Pat::Bind(name) => bind(walk, taken, outer, name),
        Pat::Undef => Ok(()),
        Pat::Nil => Ok(()),
        Pat::True => Ok(()),
        Pat::False => Ok(()),
        Pat::Num(_) => Ok(()),
        Pat::Sym(_) => Ok(()),
        Pat::Value(value) => expr(walk, value.get()),
        Pat::Tuple(items) => pats(walk, taken, outer, items.as_slice()),
    }
}

#[cycle(walk)]
fn pats<'a>(
    walk: &mut Walk<'a>,
    taken: &mut Names<'a>,
    outer: usize,
    items: &'a [Pat],
) -> Result<(), AllocError>
    ensures count { OnOk result (walk.new.count ≡ judged walk.old.count (spec.items (map found_of_pat items.now) (place walk.old.seen taken.old outer))) }
    ensures seen { OnOk result (walk.new.seen ≡ walk.old.seen) }
    ensures taken { OnOk result (taken.new ≡ spec.item_names (map found_of_pat items.now) ++ taken.old) }
{
    for item in items {
        pat(walk, taken, outer, item)?;
    }
    Ok(())
}

/// The statements of a block, whose names go out of sight at its end.
#[cycle(walk)]
pub fn block<'a>(walk: &mut Walk<'a>, statements: &'a [Stmt]) -> Result<(), AllocError>
    ensures count { OnOk result (walk.new.count ≡ judged walk.old.count (spec.block (map found_of_stmt statements.now) walk.old.seen)) }
    ensures seen { OnOk result (walk.new.seen ≡ walk.old.seen) }
{
    let height = walk.seen.len();
    let mut taken = Names::new(walk.alloc);
    let mut grouped = false;
    for (i, statement) in statements.iter().enumerate() {
        let binding = binds(statement);
        let before = taken.len();
        enter(&mut walk.seen, &binding, grouped, &statements[i..])?;
        stmt(walk, &mut taken, height, statement)?;
        pass(&mut walk.seen, &binding, &taken, before)?;
        grouped = groups(&binding, grouped);
    }
    walk.seen.truncate(height);
    Ok(())
}

// A statement behind the taken names of its block, with so many further bindings in scope.
#[cycle(walk)]
fn stmt<'a>(
    walk: &mut Walk<'a>,
    taken: &mut Names<'a>,
    outer: usize,
    s: &'a Stmt,
) -> Result<(), AllocError>
    ensures count { OnOk result (walk.new.count ≡ judged walk.old.count ((found_of_stmt s.now).at (place walk.old.seen taken.old outer))) }
    ensures seen { OnOk result (walk.new.seen ≡ walk.old.seen) }
    ensures taken { OnOk result (taken.new ≡ spec.names_of (found_of_stmt s.now).binds ++ taken.old) }
{
    match s {
        Stmt::Let(pattern, value) => {
            pat(walk, taken, outer, pattern)?;
            expr(walk, value)
        }
        Stmt::Send(message, target) => {
            expr(walk, message)?;
            expr(walk, target)
        }
        Stmt::Create(name, behaviour) => {
            bind(walk, taken, outer, name)?;
            expr(walk, behaviour)
        }
        Stmt::Become(behaviour) => expr(walk, behaviour),
        Stmt::Throw(value) => expr(walk, value),
        Stmt::Do(value) => expr(walk, value),
    }
}
