//! What an expression or a pattern is where it stands in another, which tells whether it needs parentheses there.

ghost use Rattle.std.specs.Prelude.{◌≡◌};
ghost use Rattle.hum_syntax.specs.Prints.{part_of_expr, part_of_pat};
ghost use Rattle.hum_syntax.specs.Prints as spec;

use crate::tree::{Expr, Pat};

#[derive(Clone, Copy)]
pub enum Form {
    /// A tuple.
    Tuple,
    /// An abstraction.
    Abstraction,
    /// A name, a call or a block.
    Callee,
    /// Any other.
    Term,
}

impl Form {
    pub fn is_tuple(self) -> bool
        ensures { result ≡ spec.is_tuple self }
    {
        match self {
            Form::Tuple => true,
            Form::Abstraction | Form::Callee | Form::Term => false,
        }
    }

    /// A tuple or an abstraction.
    pub fn is_wide(self) -> bool
        ensures { result ≡ spec.is_wide self }
    {
        match self {
            Form::Tuple | Form::Abstraction => true,
            Form::Callee | Form::Term => false,
        }
    }

    pub fn is_called(self) -> bool
        ensures { result ≡ spec.is_called self }
    {
        match self {
            Form::Callee => true,
            Form::Tuple | Form::Abstraction | Form::Term => false,
        }
    }
}

pub fn form_of_expr(e: &Expr) -> Form
    ensures { result ≡ (part_of_expr e.now).form }
{
    match e {
        Expr::Tuple(_) => Form::Tuple,
        Expr::Abs(_, _) => Form::Abstraction,
        Expr::Var(_) => Form::Callee,
        Expr::Call(_, _) => Form::Callee,
        Expr::Block(_) => Form::Callee,
        Expr::Undef => Form::Term,
        Expr::Nil => Form::Term,
        Expr::True => Form::Term,
        Expr::False => Form::Term,
        Expr::Num(_) => Form::Term,
        Expr::Sym(_) => Form::Term,
        Expr::Text(_) => Form::Term,
        Expr::Myself => Form::Term,
        Expr::New(_) => Form::Term,
        Expr::Case(_, _) => Form::Term,
        Expr::If(_, _) => Form::Term,
    }
}

pub fn form_of_pat(p: &Pat) -> Form
    ensures { result ≡ (part_of_pat p.now).form }
{
    match p {
        Pat::Tuple(_) => Form::Tuple,
        Pat::Any => Form::Term,
        Pat::Bind(_) => Form::Term,
        Pat::Undef => Form::Term,
        Pat::Nil => Form::Term,
        Pat::True => Form::Term,
        Pat::False => Form::Term,
        Pat::Num(_) => Form::Term,
        Pat::Sym(_) => Form::Term,
        Pat::Value(_) => Form::Term,
    }
}
