//! Statements.

ghost use Rattle.std.specs.Prelude.{◌<◌};
ghost use Rattle.hum_parse.specs.Input.{Reads};
ghost use Rattle.hum_parse.specs.Nests.{Nests};
ghost use Rattle.hum_parse.specs.Rules as spec;
ghost use Rattle.hum_parse.specs.Rules.{inner_at};

use crate::grammar::{Form, Grammar};
use crate::tokens::{Mark, Stop, Tokens};
use hum_syntax::{Expr, Keyword, Name, Pat, Stmt, TokenKind};
use sqlite_items::{Boxed, Items};
use std::alloc::Global;

impl<F: Fn(Global, &mut Tokens<'_>, u32, Form) -> Result<Expr, Stop>> Grammar<F> {
    /// What a pattern is bound to.
    #[tactic(auto, unfolding(crate::specs::Rules::equals))]
    fn bound(&self, tokens: &mut Tokens<'_>, n: u32, pattern: Pat) -> Result<Stmt, Stop>
        requires level { 0 < n }
        requires nests { Nests n (F.pre self.now.below) (F.post self.now.below) }
        ensures { Reads (spec.equals n (inner_at n) (Stmt.Let pattern) tokens.old) result tokens.new }
    {
        tokens.expect(Mark::Equals)?;
        let value = self.inner_expr(tokens, n)?;
        Ok(Stmt::Let(pattern, value))
    }

    /// What a function of this name and argument is.
    #[tactic(auto, unfolding(crate::specs::Rules::function_value, crate::specs::Rules::equals))]
    fn function_of(
        &self,
        tokens: &mut Tokens<'_>,
        n: u32,
        name: Name,
        argument: Boxed<Pat>,
    ) -> Result<Stmt, Stop>
        requires level { 0 < n }
        requires nests { Nests n (F.pre self.now.below) (F.post self.now.below) }
        ensures { Reads (spec.function_value n (inner_at n) name argument tokens.old) result tokens.new }
    {
        tokens.expect(Mark::Equals)?;
        let value = Boxed::new(self.alloc, self.inner_expr(tokens, n)?)?;
        Ok(Stmt::Let(Pat::Bind(name), Expr::Abs(argument, value)))
    }

    /// A function of this name, behind the parenthesis.
    #[tactic(auto, unfolding(crate::specs::Rules::function, crate::specs::Rules::function_inside))]
    fn function(&self, tokens: &mut Tokens<'_>, n: u32, name: Name) -> Result<Stmt, Stop>
        requires level { 0 < n }
        requires nests { Nests n (F.pre self.now.below) (F.post self.now.below) }
        ensures { Reads (spec.function n (inner_at n) name tokens.old) result tokens.new }
    {
        if tokens.eat(Mark::ParenRight) {
            let argument = Boxed::new(self.alloc, Pat::Nil)?;
            return self.function_of(tokens, n, name, argument);
        }
        let argument = Boxed::new(self.alloc, self.inner_pat(tokens, n)?)?;
        tokens.expect(Mark::ParenRight)?;
        self.function_of(tokens, n, name, argument)
    }

    /// A function of this name, or a pattern that begins with it.
    #[tactic(auto, unfolding(crate::specs::Rules::let_named, crate::specs::Rules::let_value))]
    fn let_named(&self, tokens: &mut Tokens<'_>, n: u32, name: Name) -> Result<Stmt, Stop>
        requires level { 0 < n }
        requires nests { Nests n (F.pre self.now.below) (F.post self.now.below) }
        ensures { Reads (spec.let_named n (inner_at n) name tokens.old) result tokens.new }
    {
        if tokens.eat(Mark::CallParen) {
            return self.function(tokens, n, name);
        }
        let pattern = self.inner_pat_behind(tokens, n, Pat::Bind(name))?;
        self.bound(tokens, n, pattern)
    }

    /// What stands behind `LET`.
    #[tactic(auto, unfolding(crate::specs::Rules::let_rule, crate::specs::Rules::let_pattern))]
    fn let_rule(&self, tokens: &mut Tokens<'_>, n: u32) -> Result<Stmt, Stop>
        requires level { 0 < n }
        requires nests { Nests n (F.pre self.now.below) (F.post self.now.below) }
        ensures { Reads (spec.let_rule n (inner_at n) tokens.old) result tokens.new }
    {
        if let Some(name) = tokens.eat_name(self.alloc)? {
            return self.let_named(tokens, n, name);
        }
        let pattern = self.inner_pat(tokens, n)?;
        self.bound(tokens, n, pattern)
    }

    /// What stands behind `CREATE`.
    #[tactic(auto, unfolding(crate::specs::Rules::create))]
    fn create(&self, tokens: &mut Tokens<'_>, n: u32) -> Result<Stmt, Stop>
        requires level { 0 < n }
        requires nests { Nests n (F.pre self.now.below) (F.post self.now.below) }
        ensures { Reads (spec.create n (inner_at n) tokens.old) result tokens.new }
    {
        let name = tokens.expect_name(self.alloc)?;
        tokens.expect(Mark::With)?;
        let behaviour = self.inner_expr(tokens, n)?;
        Ok(Stmt::Create(name, behaviour))
    }

    /// What stands behind `SEND`.
    #[tactic(auto, unfolding(crate::specs::Rules::send))]
    fn send(&self, tokens: &mut Tokens<'_>, n: u32) -> Result<Stmt, Stop>
        requires level { 0 < n }
        requires nests { Nests n (F.pre self.now.below) (F.post self.now.below) }
        ensures { Reads (spec.send n (inner_at n) tokens.old) result tokens.new }
    {
        let message = self.inner_expr(tokens, n)?;
        tokens.expect(Mark::To)?;
        let target = self.inner_expr(tokens, n)?;
        Ok(Stmt::Send(message, target))
    }

    /// What stands behind `BECOME`.
    #[tactic(auto, unfolding(crate::specs::Rules::becomes))]
    fn becomes(&self, tokens: &mut Tokens<'_>, n: u32) -> Result<Stmt, Stop>
        requires level { 0 < n }
        requires nests { Nests n (F.pre self.now.below) (F.post self.now.below) }
        ensures { Reads (spec.becomes n (inner_at n) tokens.old) result tokens.new }
    {
        Ok(Stmt::Become(self.inner_expr(tokens, n)?))
    }

    /// What stands behind `THROW`.
    #[tactic(auto, unfolding(crate::specs::Rules::throws))]
    fn throws(&self, tokens: &mut Tokens<'_>, n: u32) -> Result<Stmt, Stop>
        requires level { 0 < n }
        requires nests { Nests n (F.pre self.now.below) (F.post self.now.below) }
        ensures { Reads (spec.throws n (inner_at n) tokens.old) result tokens.new }
    {
        Ok(Stmt::Throw(self.inner_expr(tokens, n)?))
    }

    /// An expression that is executed.
    #[tactic(auto, unfolding(crate::specs::Rules::does))]
    fn does(&self, tokens: &mut Tokens<'_>, n: u32) -> Result<Stmt, Stop>
        requires level { 0 < n }
        requires nests { Nests n (F.pre self.now.below) (F.post self.now.below) }
        ensures { Reads (spec.does n (inner_at n) tokens.old) result tokens.new }
    {
        Ok(Stmt::Do(self.inner_expr(tokens, n)?))
    }

    /// A statement.
    #[tactic(auto, unfolding(crate::specs::Rules::stmt, crate::specs::Rules::stmt_by))]
    pub fn stmt(&self, tokens: &mut Tokens<'_>, n: u32) -> Result<Stmt, Stop>
        requires { Nests n (F.pre self.now.below) (F.post self.now.below) }
        ensures { Reads (spec.stmt n (inner_at n) tokens.old) result tokens.new }
    {
        let Some(kind) = tokens.peek() else {
            return Err(Stop::Refused);
        };
        if n == 0 {
            return Err(Stop::Refused);
        }
        match kind {
            TokenKind::Keyword(Keyword::KwLet) => {
                tokens.skip();
                self.let_rule(tokens, n)
            }
            TokenKind::Keyword(Keyword::KwSend) => {
                tokens.skip();
                self.send(tokens, n)
            }
            TokenKind::Keyword(Keyword::KwCreate) => {
                tokens.skip();
                self.create(tokens, n)
            }
            TokenKind::Keyword(Keyword::KwBecome) => {
                tokens.skip();
                self.becomes(tokens, n)
            }
            TokenKind::Keyword(Keyword::KwThrow) => {
                tokens.skip();
                self.throws(tokens, n)
            }
            _ => self.does(tokens, n),
        }
    }

    /// The statements of a block, and the bracket behind them.
    #[tactic(auto, unfolding(crate::specs::Rules::stmts, crate::specs::Rules::until_from))]
    pub fn stmts(&self, tokens: &mut Tokens<'_>, n: u32) -> Result<Items<Stmt>, Stop>
        requires { Nests n (F.pre self.now.below) (F.post self.now.below) }
        ensures { Reads (spec.stmts n (inner_at n) tokens.old) result tokens.new }
    {
        let mut found = Items::new(self.alloc);
        for _turn in 0..tokens.len() {
            if tokens.eat(Mark::SquareRight) {
                return Ok(found);
            }
            found.push(self.stmt(tokens, n)?)?;
        }
        Err(Stop::Refused)
    }
}
