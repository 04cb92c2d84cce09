//! The trees that tokens spell.

ghost use Rattle.std.specs.Prelude.{IsTrue};
ghost use Rattle.hum_syntax.specs.Formed.{are_formed};

use crate::word::{Name, Sym, Text};
use sqlite_items::{Boxed, Items};

/// A program: its statements in order.
#[derive(Drop)]
pub struct Tree {
    pub statements: Items<Stmt>,
    /// Tuples have at least two items, `Case` at least one arm and `If` at least one branch; numbers are in range,
    /// and names, symbols and texts have their forms.
    pub ghost formed: { IsTrue (are_formed statements) },
}

/// A statement.
#[cycle(tree)]
#[derive(Drop)]
pub enum Stmt {
    Let(Pat, Expr),
    Send(Expr, Expr),
    Create(Name, Expr),
    Become(Expr),
    Throw(Expr),
    /// An expression whose value is executed.
    Do(Expr),
}

/// An expression.
#[cycle(tree)]
#[derive(Drop)]
pub enum Expr {
    Undef,
    Nil,
    True,
    False,
    Num(i32),
    Sym(Sym),
    Text(Text),
    Var(Name),
    /// The executing actor.
    Myself,
    Abs(Boxed<Pat>, Boxed<Expr>),
    Block(Items<Stmt>),
    Call(Boxed<Expr>, Boxed<Expr>),
    Tuple(Items<Expr>),
    New(Boxed<Expr>),
    Case(Boxed<Expr>, Items<Arm>),
    If(Items<Branch>, Option<Items<Stmt>>),
}

/// A pattern.
#[cycle(tree)]
#[derive(Drop)]
pub enum Pat {
    Any,
    Bind(Name),
    Undef,
    Nil,
    True,
    False,
    Num(i32),
    Sym(Sym),
    Value(Boxed<Expr>),
    Tuple(Items<Pat>),
}

/// An arm of a `Case`.
#[cycle(tree)]
#[derive(Drop)]
pub struct Arm {
    pub pattern: Pat,
    pub value: Expr,
}

/// A branch of an `If`.
#[cycle(tree)]
#[derive(Drop)]
pub struct Branch {
    pub condition: Expr,
    pub block: Items<Stmt>,
}
