// The shape of each unit's place.

ghost use Rattle.std.specs.Prelude.{◌≡◌, ◌++◌, ◌≤◌, ◌<◌, [], ◌∷◌, length, map, reverse, drop, slice_index, slice_index_or, OnOk, IfOk};
ghost use Rattle.hum_code.specs.Layout.{with_singles};
ghost use Rattle.hum_emit.specs.Shapes as spec;
ghost use Rattle.hum_emit.specs.Shaping.{kind_of};
ghost use Rattle.hum_emit.specs.Rowing.{IsTop, shape_at};
ghost use Rattle.hum_emit.specs.Finding.{Found};

use crate::exprs::bindings;
use crate::rows::Rows;
use crate::shape::{Entry, Shape};
use hum_core::{Test, TestArm, TestBranch, TestExpr, TestStmt, TestUnit};
use std::alloc::{AllocError as NoMemory, Global};

// How many bindings there are outside all programs.
const OUTERMOST: usize = 14;

/// A shape for each unit. Shapes share the entries that they have alike.
#[derive(Drop)]
pub struct Shapes<'a> {
    rows: Rows<'a>,
    // the number of each shape's newest entry
    tops: Vec<usize>,
}

// The entries so far, and the shapes of the units that were found in a unit, each by its newest entry.
#[derive(Drop)]
struct Walk<'a> {
    rows: Rows<'a>,
    found: Vec<usize>,
}

// One entry more, in front of those from `top` on; its number.
fn enter<'a>(walk: &mut Walk<'a>, top: usize, entry: Entry<'a>) -> Result<usize, NoMemory>
    requires { top ≤ length walk.old.rows }
    ensures found { OnOk result (Found [] walk.old walk.new) }
    ensures top { IfOk result (λ at. IsTop walk.new.rows at (kind_of entry.entry ∷ shape_at walk.old.rows top)) }
{
    walk.rows.enter(top, entry)
}

// So many bindings more, in front of those from `top` on; the number of the newest.
fn enter_singles(walk: &mut Walk<'_>, top: usize, count: usize) -> Result<usize, NoMemory>
    requires { top ≤ length walk.old.rows }
    ensures found { OnOk result (Found [] walk.old walk.new) }
    ensures top { IfOk result (λ at. IsTop walk.new.rows at (with_singles count (shape_at walk.old.rows top))) }
{
    let mut newest = top;
    for _turn in 0..count {
        newest = enter(walk, newest, Entry::Single)?;
    }
    Ok(newest)
}

// A unit stands there.
fn note(walk: &mut Walk<'_>, top: usize) -> Result<(), NoMemory>
    requires { top ≤ length walk.old.rows }
    ensures { OnOk result (Found (shape_at walk.old.rows top ∷ []) walk.old walk.new) }
{
    walk.found.push(top)?;
    Ok(())
}

// What is in an expression whose place has the entries from `top` on; and so on for each kind of part.
#[cycle(walk)]
fn expr(walk: &mut Walk<'_>, e: &TestExpr, top: usize) -> Result<(), NoMemory>
    requires { top ≤ length walk.old.rows }
    ensures { OnOk result (Found (spec.in_expr e.now (shape_at walk.old.rows top)) walk.old walk.new) }
{
    match e {
        TestExpr::Is(_) => Ok(()),
        TestExpr::Text(_) => Ok(()),
        TestExpr::Var(_) => Ok(()),
        TestExpr::Myself => Ok(()),
        TestExpr::Abs(_) => note(walk, top),
        TestExpr::Block(_) => note(walk, top),
        TestExpr::Call(callee, argument) => {
            expr(walk, callee.get(), top)?;
            expr(walk, argument.get(), top)
        }
        TestExpr::Tuple(items) => exprs(walk, items.as_slice(), top),
        TestExpr::New(behaviour) => expr(walk, behaviour.get(), top),
        TestExpr::Case(subject, choices) => {
            expr(walk, subject.get(), top)?;
            arms(walk, choices.as_slice(), top)
        }
        TestExpr::If(conditions, _) => {
            branches(walk, conditions.as_slice(), top)?;
            note(walk, top)
        }
    }
}

#[cycle(walk)]
fn exprs(walk: &mut Walk<'_>, items: &[TestExpr], top: usize) -> Result<(), NoMemory>
    requires { top ≤ length walk.old.rows }
    ensures { OnOk result (Found (spec.in_all (map spec.in_expr items.now) (shape_at walk.old.rows top)) walk.old walk.new) }
{
    for item in items {
        expr(walk, item, top)?;
    }
    Ok(())
}

#[cycle(walk)]
fn arms(walk: &mut Walk<'_>, arms: &[TestArm], top: usize) -> Result<(), NoMemory>
    requires { top ≤ length walk.old.rows }
    ensures { OnOk result (Found (spec.in_all (map spec.in_arm arms.now) (shape_at walk.old.rows top)) walk.old walk.new) }
{
    for each in arms {
        arm(walk, each, top)?;
    }
    Ok(())
}

#[cycle(walk)]
fn arm(walk: &mut Walk<'_>, arm: &TestArm, top: usize) -> Result<(), NoMemory>
    requires { top ≤ length walk.old.rows }
    ensures { OnOk result (Found (spec.in_arm arm.now (shape_at walk.old.rows top)) walk.old walk.new) }
{
    tests(walk, arm.pattern.as_slice(), top)?;
    let inner = enter_singles(walk, top, bindings(arm.pattern.as_slice()))?;
    expr(walk, &arm.value, inner)
}

#[cycle(walk)]
fn branches(walk: &mut Walk<'_>, branches: &[TestBranch], top: usize) -> Result<(), NoMemory>
    requires { top ≤ length walk.old.rows }
    ensures { OnOk result (Found (spec.in_all (map spec.in_branch branches.now) (shape_at walk.old.rows top)) walk.old walk.new) }
{
    for each in branches {
        branch(walk, each, top)?;
    }
    Ok(())
}

#[cycle(walk)]
fn branch(walk: &mut Walk<'_>, branch: &TestBranch, top: usize) -> Result<(), NoMemory>
    requires { top ≤ length walk.old.rows }
    ensures { OnOk result (Found (spec.in_branch branch.now (shape_at walk.old.rows top)) walk.old walk.new) }
{
    expr(walk, &branch.condition, top)?;
    note(walk, top)
}

#[cycle(walk)]
fn tests(walk: &mut Walk<'_>, tests: &[Test], top: usize) -> Result<(), NoMemory>
    requires { top ≤ length walk.old.rows }
    ensures { OnOk result (Found (spec.in_tests tests.now (shape_at walk.old.rows top)) walk.old walk.new) }
{
    for each in tests {
        test(walk, each, top)?;
    }
    Ok(())
}

#[cycle(walk)]
fn test(walk: &mut Walk<'_>, test: &Test, top: usize) -> Result<(), NoMemory>
    requires { top ≤ length walk.old.rows }
    ensures { OnOk result (Found ((spec.of_one_test test.now).inside (shape_at walk.old.rows top)) walk.old walk.new) }
{
    match test {
        Test::Pair => Ok(()),
        Test::Is(_) => Ok(()),
        Test::Same(e) => expr(walk, e, top),
        Test::Bind => Ok(()),
        Test::Skip => Ok(()),
    }
}

// What is in a statement; the number of the newest entry behind it.
fn statement<'a>(
    walk: &mut Walk<'a>,
    statement: &'a TestStmt,
    top: usize,
) -> Result<usize, NoMemory>
    requires { top ≤ length walk.old.rows }
    ensures found { OnOk result (Found (spec.in_statement statement.now (shape_at walk.old.rows top)) walk.old walk.new) }
    ensures top { IfOk result (λ at. IsTop walk.new.rows at (spec.behind_statement statement.now (shape_at walk.old.rows top))) }
{
    match statement {
        TestStmt::Let(pattern, e) => {
            tests(walk, pattern.as_slice(), top)?;
            expr(walk, e, top)?;
            enter_singles(walk, top, bindings(pattern.as_slice()))
        }
        TestStmt::Group(numbers) => {
            let group = enter(walk, top, Entry::Group(numbers.as_slice()))?;
            note(walk, group)?;
            Ok(group)
        }
        TestStmt::Defined => {
            note(walk, top)?;
            Ok(top)
        }
        TestStmt::Send(e, target) => {
            expr(walk, e, top)?;
            expr(walk, target, top)?;
            Ok(top)
        }
        TestStmt::Create(e) => {
            expr(walk, e, top)?;
            enter(walk, top, Entry::Single)
        }
        TestStmt::Become(e) => {
            expr(walk, e, top)?;
            Ok(top)
        }
        TestStmt::Throw(e) => {
            expr(walk, e, top)?;
            Ok(top)
        }
        TestStmt::Do(e) => {
            expr(walk, e, top)?;
            Ok(top)
        }
    }
}

// What is in statements, each behind those before it.
fn statements<'a>(
    walk: &mut Walk<'a>,
    statements: &'a [TestStmt],
    top: usize,
) -> Result<(), NoMemory>
    requires { top ≤ length walk.old.rows }
    ensures { OnOk result (Found (spec.in_statements statements.now (shape_at walk.old.rows top)) walk.old walk.new) }
{
    let mut newest = top;
    for each in statements {
        newest = statement(walk, each, newest)?;
    }
    Ok(())
}

// What is in a unit.
fn unit<'a>(walk: &mut Walk<'a>, unit: &'a TestUnit, top: usize) -> Result<(), NoMemory>
    requires { top ≤ length walk.old.rows }
    ensures { OnOk result (Found (spec.in_unit unit.now (shape_at walk.old.rows top)) walk.old walk.new) }
{
    match unit {
        TestUnit::Abs(pattern, e) => {
            tests(walk, pattern.as_slice(), top)?;
            let inner = enter_singles(walk, top, bindings(pattern.as_slice()))?;
            expr(walk, e, inner)
        }
        TestUnit::Block(body) => statements(walk, body.as_slice(), top),
    }
}

// Takes the first one that waits, which stands last, or 0.
fn next(waiting: &mut Vec<usize>) -> usize
    ensures first { result ≡ slice_index (reverse waiting.old.items) 0 }
    ensures rest { reverse waiting.new.items ≡ drop 1 (reverse waiting.old.items) }
{
    match waiting.pop() {
        Some(top) => top,
        None => 0,
    }
}

// Those that were found come next, the first one first.
fn wait(waiting: &mut Vec<usize>, found: &[usize]) -> Result<(), NoMemory>
    ensures { OnOk result (waiting.new.items ≡ waiting.old.items ++ reverse found.now) }
{
    let count = found.len();
    for i in 0..count {
        waiting.push(found[count - 1 - i])?;
    }
    Ok(())
}

/// The shape of each unit's place, in one walk: the units in a unit have the numbers behind it, in the order in which they stand there.
pub fn shapes_of<'a>(alloc: Global, units: &'a [TestUnit]) -> Result<Shapes<'a>, NoMemory>
    ensures { IfOk result (λ shapes. map (shape_at shapes.rows) shapes.tops.items ≡ spec.shapes_of units.now) }
{
    let mut walk = Walk {
        rows: Rows::new(alloc),
        found: Vec::new(alloc),
    };
    let mut tops = Vec::new(alloc);
    let mut waiting = Vec::new(alloc);
    waiting.push(enter_singles(&mut walk, 0, OUTERMOST)?)?;
    for each in units {
        let top = next(&mut waiting);
        tops.push(top)?;
        unit(&mut walk, each, top)?;
        wait(&mut waiting, walk.found.as_slice())?;
        walk.found.clear();
    }
    Ok(Shapes {
        rows: walk.rows,
        tops,
    })
}

impl<'a> Shapes<'a> {
    /// Makes the shape that of a unit.
    pub fn fill(&self, alloc: Global, unit: usize, shape: &mut Shape<'a>) -> Result<(), NoMemory>
        requires { unit < length self.now.tops.items }
        ensures { OnOk result (shape.new ≡ slice_index_or (map (shape_at self.now.rows) self.now.tops.items) unit []) }
    {
        self.rows.fill(alloc, self.tops[unit], shape)
    }
}
