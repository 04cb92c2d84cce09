//! Terms: atoms with their calls, and the forms that begin with a keyword.

ghost use Rattle.std.specs.Prelude.{◌≡◌, ◌<◌, ◌∷◌, IfOk};
ghost use Rattle.hum_parse.specs.Input.{Reads, next};
ghost use Rattle.hum_parse.specs.Nests.{Nests};
ghost use Rattle.hum_parse.specs.Rules as spec;
ghost use Rattle.hum_parse.specs.Rules.{inner_at};

use crate::grammar::{Form, Grammar};
use crate::tokens::{Mark, Stop, Tokens};
use hum_syntax::{Branch, Expr, Keyword, Stmt, TokenKind};
use sqlite_items::{Boxed, Items};
use std::alloc::{AllocError, Global};

// The call of this callee with this argument.
fn call(alloc: Global, callee: Boxed<Expr>, argument: Expr) -> Result<Boxed<Expr>, AllocError>
    ensures { IfOk result (λ made. made ≡ Expr.Call callee argument) }
{
    let argument = Boxed::new(alloc, argument)?;
    Boxed::new(alloc, Expr::Call(callee, argument))
}

impl<F: Fn(Global, &mut Tokens<'_>, u32, Form) -> Result<Expr, Stop>> Grammar<F> {
    /// What is called by the calls that come next.
    #[tactic(auto, unfolding(crate::specs::Rules::calls, crate::specs::Rules::call_inside), using(crate::proofs::Inside::inside_rules))]
    fn calls(&self, tokens: &mut Tokens<'_>, n: u32, callee: Boxed<Expr>) -> Result<Expr, Stop>
        requires { Nests n (F.pre self.now.below) (F.post self.now.below) }
        ensures { Reads (spec.calls n (inner_at n) callee tokens.old) result tokens.new }
    {
        if !tokens.eat(Mark::CallParen) {
            return Ok(callee.into_inner());
        }
        if tokens.eat(Mark::ParenRight) {
            let called = call(self.alloc, callee, Expr::Nil)?;
            if n == 0 {
                return Ok(called.into_inner());
            }
            return self.calls(tokens, n - 1, called);
        }
        if n == 0 {
            return Err(Stop::Refused);
        }
        let argument = self.inner_expr(tokens, n)?;
        tokens.expect(Mark::ParenRight)?;
        let called = call(self.alloc, callee, argument)?;
        self.calls(tokens, n - 1, called)
    }

    /// An atom that is the next token, and its calls.
    fn atom(&self, tokens: &mut Tokens<'_>, n: u32, atom: Expr) -> Result<Expr, Stop>
        requires { Nests n (F.pre self.now.below) (F.post self.now.below) }
        ensures { Reads (spec.calls n (inner_at n) atom (next tokens.old)) result tokens.new }
    {
        tokens.skip();
        let callee = Boxed::new(self.alloc, atom)?;
        self.calls(tokens, n, callee)
    }

    /// What stands behind an opening parenthesis, and its calls.
    #[tactic(auto, unfolding(crate::specs::Rules::paren_term, crate::specs::Rules::paren_inside))]
    fn paren(&self, tokens: &mut Tokens<'_>, n: u32) -> Result<Expr, Stop>
        requires { Nests n (F.pre self.now.below) (F.post self.now.below) }
        ensures { Reads (spec.paren_term n (inner_at n) tokens.old) result tokens.new }
    {
        if tokens.eat(Mark::ParenRight) {
            let callee = Boxed::new(self.alloc, Expr::Nil)?;
            return self.calls(tokens, n, callee);
        }
        if n == 0 {
            return Err(Stop::Refused);
        }
        let inside = Boxed::new(self.alloc, self.inner_expr(tokens, n)?)?;
        tokens.expect(Mark::ParenRight)?;
        self.calls(tokens, n, inside)
    }

    /// The statements behind an opening bracket, and their calls.
    #[tactic(auto, unfolding(crate::specs::Rules::block_atom))]
    fn block_atom(&self, tokens: &mut Tokens<'_>, n: u32) -> Result<Expr, Stop>
        requires level { 0 < n }
        requires nests { Nests n (F.pre self.now.below) (F.post self.now.below) }
        ensures { Reads (spec.block_atom n (inner_at n) tokens.old) result tokens.new }
    {
        let statements = self.inner_block(tokens, n)?;
        let callee = Boxed::new(self.alloc, Expr::Block(statements))?;
        self.calls(tokens, n, callee)
    }

    /// A block.
    #[tactic(auto, unfolding(crate::specs::Rules::block))]
    fn block(&self, tokens: &mut Tokens<'_>, n: u32) -> Result<Items<Stmt>, Stop>
        requires level { 0 < n }
        requires nests { Nests n (F.pre self.now.below) (F.post self.now.below) }
        ensures { Reads (spec.block n (inner_at n) tokens.old) result tokens.new }
    {
        tokens.expect(Mark::SquareLeft)?;
        self.inner_block(tokens, n)
    }

    /// What is tested behind `CASE`, and its arms.
    #[tactic(auto, unfolding(crate::specs::Rules::case_term))]
    fn case_term(&self, tokens: &mut Tokens<'_>, n: u32) -> Result<Expr, Stop>
        requires level { 1 < n }
        requires nests { Nests n (F.pre self.now.below) (F.post self.now.below) }
        ensures { Reads (spec.case_term n (inner_at n) tokens.old) result tokens.new }
    {
        let subject = Boxed::new(self.alloc, self.inner_expr(tokens, n)?)?;
        tokens.expect(Mark::Of)?;
        Ok(Expr::Case(subject, self.inner_arms(tokens, n)?))
    }

    /// What stands behind the last branch.
    #[tactic(auto, unfolding(crate::specs::Rules::otherwise, crate::specs::Rules::else_block))]
    fn otherwise(&self, tokens: &mut Tokens<'_>, n: u32, found: Items<Branch>) -> Result<Expr, Stop>
        requires level { 0 < n }
        requires nests { Nests n (F.pre self.now.below) (F.post self.now.below) }
        ensures { Reads (spec.otherwise n (inner_at n) found tokens.old) result tokens.new }
    {
        if tokens.eat(Mark::Else) {
            let statements = self.block(tokens, n)?;
            return Ok(Expr::If(found, Some(statements)));
        }
        Ok(Expr::If(found, None))
    }

    /// The branches behind `IF`.
    #[tactic(auto, unfolding(crate::specs::Rules::if_term, crate::specs::Rules::ifs_from))]
    fn if_term(&self, tokens: &mut Tokens<'_>, n: u32) -> Result<Expr, Stop>
        requires level { 0 < n }
        requires nests { Nests n (F.pre self.now.below) (F.post self.now.below) }
        ensures { Reads (spec.if_term n (inner_at n) tokens.old) result tokens.new }
    {
        let mut found = Items::new(self.alloc);
        for _turn in 0..tokens.len() {
            let condition = self.inner_expr(tokens, n)?;
            let block = self.block(tokens, n)?;
            found.push(Branch { condition, block })?;
            if !tokens.eat(Mark::Elif) {
                return self.otherwise(tokens, n, found);
            }
        }
        Err(Stop::Refused)
    }

    /// A term that begins with this keyword.
    #[tactic(auto, unfolding(crate::specs::Rules::keyword_term, crate::specs::Rules::new_term))]
    fn keyword_term(&self, tokens: &mut Tokens<'_>, n: u32, keyword: Keyword) -> Result<Expr, Stop>
        requires comes { tokens.old ≡ TokenKind.Keyword keyword ∷ next tokens.old }
        requires nests { Nests n (F.pre self.now.below) (F.post self.now.below) }
        ensures { Reads (spec.keyword_term n (inner_at n) keyword (next tokens.old)) result tokens.new }
    {
        match keyword {
            Keyword::KwTrue => self.atom(tokens, n, Expr::True),
            Keyword::KwFalse => self.atom(tokens, n, Expr::False),
            Keyword::KwNil => self.atom(tokens, n, Expr::Nil),
            Keyword::KwSelf => self.atom(tokens, n, Expr::Myself),
            Keyword::KwNew => {
                if n == 0 {
                    return Err(Stop::Refused);
                }
                tokens.skip();
                Ok(Expr::New(Boxed::new(self.alloc, self.inner_term(tokens, n)?)?))
            }
            Keyword::KwCase => {
                if n < 2 {
                    return Err(Stop::Refused);
                }
                tokens.skip();
                self.case_term(tokens, n)
            }
            Keyword::KwIf => {
                if n == 0 {
                    return Err(Stop::Refused);
                }
                tokens.skip();
                self.if_term(tokens, n)
            }
            _ => Err(Stop::Refused),
        }
    }

    /// A term.
    #[tactic(auto, unfolding(crate::specs::Rules::term, crate::specs::Rules::term_by))]
    pub fn term(&self, tokens: &mut Tokens<'_>, n: u32) -> Result<Expr, Stop>
        requires { Nests n (F.pre self.now.below) (F.post self.now.below) }
        ensures { Reads (spec.term n (inner_at n) tokens.old) result tokens.new }
    {
        let Some(kind) = tokens.peek() else {
            return Err(Stop::Refused);
        };
        match kind {
            TokenKind::Number(z) => self.atom(tokens, n, Expr::Num(*z)),
            TokenKind::Symbol(name) => {
                let name = name.copied(self.alloc)?;
                self.atom(tokens, n, Expr::Sym(name))
            }
            TokenKind::Text(text) => {
                let text = text.copied(self.alloc)?;
                self.atom(tokens, n, Expr::Text(text))
            }
            TokenKind::Name(name) => {
                let name = name.copied(self.alloc)?;
                self.atom(tokens, n, Expr::Var(name))
            }
            TokenKind::Undefined => self.atom(tokens, n, Expr::Undef),
            TokenKind::ParenLeft => {
                tokens.skip();
                self.paren(tokens, n)
            }
            TokenKind::SquareLeft => {
                if n == 0 {
                    return Err(Stop::Refused);
                }
                tokens.skip();
                self.block_atom(tokens, n)
            }
            TokenKind::Keyword(keyword) => self.keyword_term(tokens, n, *keyword),
            _ => Err(Stop::Refused),
        }
    }
}
