// Trees with slots and unit numbers, and patterns as trees.

ghost use Rattle.std.specs.Prelude.{IsTrue};
ghost use Rattle.hum_core.specs.Formed.{are_formed};

use crate::slot::{Const, Slot};
use hum_syntax::Text;
use sqlite_items::{Boxed, Items};

/// A program whose names are slots: one unit per abstraction or block, in order of spelling, the file first. An `If` without `ELSE` has one
/// more unit, its empty block, after all units of its last branch.
#[derive(Drop)]
pub struct Resolved {
    pub units: Items<CoreUnit>,
    /// Tuples have at least two items, `Case` at least one arm and `If` at least one branch, and each number of a unit names one of the kind
    /// that is meant.
    pub ghost formed: { IsTrue (are_formed units) },
}

/// An abstraction or a block.
#[derive(Drop)]
pub enum CoreUnit {
    Abs(CorePat, CoreExpr),
    Block(Items<CoreStmt>),
}

/// A statement. The first function definition of a stretch is `Group`, with the units of all definitions of the stretch in order; each
/// further one is `Defined`.
#[derive(Drop)]
pub enum CoreStmt {
    Let(CorePat, CoreExpr),
    Group(Items<u32>),
    Defined,
    Send(CoreExpr, CoreExpr),
    Create(CoreExpr),
    Become(CoreExpr),
    Throw(CoreExpr),
    Do(CoreExpr),
}

/// An expression.
#[cycle(core)]
#[derive(Drop)]
pub enum CoreExpr {
    Is(Const),
    Text(Text),
    Var(Slot),
    Myself,
    Abs(u32),
    Block(u32),
    Call(Boxed<CoreExpr>, Boxed<CoreExpr>),
    Tuple(Items<CoreExpr>),
    New(Boxed<CoreExpr>),
    Case(Boxed<CoreExpr>, Items<CoreArm>),
    /// The branches, and the unit of the `ELSE`.
    If(Items<CoreBranch>, u32),
}

/// A pattern.
#[cycle(core)]
#[derive(Drop)]
pub enum CorePat {
    Any,
    Bind,
    Is(Const),
    Value(Boxed<CoreExpr>),
    Tuple(Items<CorePat>),
}

/// An arm of a `Case`.
#[cycle(core)]
#[derive(Drop)]
pub struct CoreArm {
    pub pattern: CorePat,
    pub value: CoreExpr,
}

/// A branch of an `If`, with the unit of its block.
#[cycle(core)]
#[derive(Drop)]
pub struct CoreBranch {
    pub condition: CoreExpr,
    pub block: u32,
}
