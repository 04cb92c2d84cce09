// Trees with slots and unit numbers, and patterns as lists of tests.

use crate::slot::{Const, Slot};
use hum_syntax::Text;
use sqlite_items::{Boxed, Items};

/// The same program with each pattern as a list of tests, done in order.
#[derive(Drop)]
pub struct Program {
    pub units: Items<TestUnit>,
}

/// An abstraction or a block.
#[derive(Drop)]
pub enum TestUnit {
    Abs(Items<Test>, TestExpr),
    Block(Items<TestStmt>),
}

/// A statement.
#[derive(Drop)]
pub enum TestStmt {
    Let(Items<Test>, TestExpr),
    Group(Items<u32>),
    Defined,
    Send(TestExpr, TestExpr),
    Create(TestExpr),
    Become(TestExpr),
    Throw(TestExpr),
    Do(TestExpr),
}

/// An expression.
#[cycle(tests)]
#[derive(Drop)]
pub enum TestExpr {
    Is(Const),
    Text(Text),
    Var(Slot),
    Myself,
    Abs(u32),
    Block(u32),
    Call(Boxed<TestExpr>, Boxed<TestExpr>),
    Tuple(Items<TestExpr>),
    New(Boxed<TestExpr>),
    Case(Boxed<TestExpr>, Items<TestArm>),
    /// The branches, and the unit of the `ELSE`.
    If(Items<TestBranch>, u32),
}

/// A test of the value in front of those that are left.
#[cycle(tests)]
#[derive(Drop)]
pub enum Test {
    /// It is a pair, whose head and tail are tested next.
    Pair,
    /// It is equal to a constant.
    Is(Const),
    /// It is equal to the value of an expression.
    Same(TestExpr),
    /// It is bound.
    Bind,
    /// It is anything.
    Skip,
}

/// An arm of a `Case`.
#[cycle(tests)]
#[derive(Drop)]
pub struct TestArm {
    pub pattern: Items<Test>,
    pub value: TestExpr,
}

/// A branch of an `If`, with the unit of its block.
#[cycle(tests)]
#[derive(Drop)]
pub struct TestBranch {
    pub condition: TestExpr,
    pub block: u32,
}
