//! The rules that hold expressions take the reader of those as a parameter, so that each is proved by itself.

ghost use Rattle.std.specs.Prelude.{◌<◌};
ghost use Rattle.hum_parse.specs.Input.{Reads};
ghost use Rattle.hum_parse.specs.Nests as spec;
ghost use Rattle.hum_parse.specs.Nests.{Nests};
ghost use Rattle.hum_parse.specs.Rules.{inner_at};

use crate::tokens::{Stop, Tokens};
use hum_syntax::{Arm, Expr, Pat, Stmt};
use sqlite_items::Items;
use std::alloc::Global;

/// What is read: an expression, or a term alone.
#[derive(Clone, Copy, Debug, PartialEq, Eq)]
pub enum Form {
    Expr,
    Term,
}

/// The rules of the grammar. Each is told how many levels may still stand below it.
#[derive(Clone, Copy)]
pub struct Grammar<F> {
    pub alloc: Global,
    /// Reads an expression or a term with fewer levels below it than the rule that asks has.
    pub below: F,
}

impl<F: Fn(Global, &mut Tokens<'_>, u32, Form) -> Result<Expr, Stop>> Grammar<F> {
    /// An expression one level down.
    pub fn inner_expr(&self, tokens: &mut Tokens<'_>, n: u32) -> Result<Expr, Stop>
        requires level { 0 < n }
        requires nests { Nests n (F.pre self.now.below) (F.post self.now.below) }
        ensures { Reads ((inner_at n).expr tokens.old) result tokens.new }
    {
        (self.below)(self.alloc, tokens, n - 1, Form::Expr)
    }

    /// A term one level down.
    pub fn inner_term(&self, tokens: &mut Tokens<'_>, n: u32) -> Result<Expr, Stop>
        requires level { 0 < n }
        requires nests { Nests n (F.pre self.now.below) (F.post self.now.below) }
        ensures { Reads ((inner_at n).term tokens.old) result tokens.new }
    {
        (self.below)(self.alloc, tokens, n - 1, Form::Term)
    }

    /// A pattern one level down.
    #[tactic(auto, using(crate::proofs::Inside::inside_rules))]
    pub fn inner_pat(&self, tokens: &mut Tokens<'_>, n: u32) -> Result<Pat, Stop>
        requires level { 0 < n }
        requires nests { Nests n (F.pre self.now.below) (F.post self.now.below) }
        ensures { Reads ((inner_at n).pat tokens.old) result tokens.new }
    {
        self.pat(tokens, n - 1)
    }

    /// A pattern one level down whose first item was read.
    #[tactic(auto, using(crate::proofs::Inside::inside_rules))]
    pub fn inner_pat_behind(&self, tokens: &mut Tokens<'_>, n: u32, first: Pat) -> Result<Pat, Stop>
        requires level { 0 < n }
        requires nests { Nests n (F.pre self.now.below) (F.post self.now.below) }
        ensures { Reads ((inner_at n).pat_behind first tokens.old) result tokens.new }
    {
        self.pat_behind(tokens, n - 1, first)
    }

    /// Arms one level down.
    #[tactic(auto, using(crate::proofs::Inside::inside_rules))]
    pub fn inner_arms(&self, tokens: &mut Tokens<'_>, n: u32) -> Result<Items<Arm>, Stop>
        requires level { 1 < n }
        requires nests { Nests n (F.pre self.now.below) (F.post self.now.below) }
        ensures { Reads ((inner_at n).arms tokens.old) result tokens.new }
    {
        self.arms(tokens, n - 1)
    }

    /// Statements one level down, and the bracket behind them.
    #[tactic(auto, using(crate::proofs::Inside::inside_rules))]
    pub fn inner_block(&self, tokens: &mut Tokens<'_>, n: u32) -> Result<Items<Stmt>, Stop>
        requires level { 0 < n }
        requires nests { Nests n (F.pre self.now.below) (F.post self.now.below) }
        ensures { Reads ((inner_at n).block tokens.old) result tokens.new }
    {
        self.stmts(tokens, n - 1)
    }
}

/// An expression or a term, below which so many levels may still stand.
pub fn expression(alloc: Global, tokens: &mut Tokens<'_>, n: u32, form: Form) -> Result<Expr, Stop>
    ensures { Reads (spec.expression n form tokens.old) result tokens.new }
{
    let grammar = Grammar {
        alloc,
        below: expression,
    };
    match form {
        Form::Expr => grammar.expr(tokens, n),
        Form::Term => grammar.term(tokens, n),
    }
}
