//! Patterns.

ghost use Rattle.std.specs.Prelude.{◌≡◌, ◌<◌};
ghost use Rattle.hum_parse.specs.Input.{Reads};
ghost use Rattle.hum_parse.specs.Nests.{Nests};
ghost use Rattle.hum_parse.specs.Rules as spec;
ghost use Rattle.hum_parse.specs.Rules.{inner_at};

use crate::grammar::{Form, Grammar};
use crate::tokens::{Mark, Stop, Tokens};
use hum_syntax::{Expr, Keyword, Pat, TokenKind};
use sqlite_items::{Boxed, Items};
use std::alloc::Global;

/// One item stands for itself, and several are a tuple.
fn pat_of(mut found: Items<Pat>) -> Pat
    ensures { result ≡ spec.pat_of found }
{
    if found.len() == 1 {
        return found.remove(0);
    }
    Pat::Tuple(found)
}

impl<F: Fn(Global, &mut Tokens<'_>, u32, Form) -> Result<Expr, Stop>> Grammar<F> {
    /// A pattern without commas.
    #[cycle(pattern)]
    #[tactic(auto, unfolding(crate::specs::Rules::pterm, crate::specs::Rules::pterm_by))]
    fn pterm(&self, tokens: &mut Tokens<'_>, n: u32) -> Result<Pat, Stop>
        requires { Nests n (F.pre self.now.below) (F.post self.now.below) }
        ensures { Reads (spec.pterm n (inner_at n) tokens.old) result tokens.new }
    {
        let Some(kind) = tokens.peek() else {
            return Err(Stop::Refused);
        };
        let found = match kind {
            TokenKind::Wildcard => Pat::Any,
            TokenKind::Name(name) => Pat::Bind(name.copied(self.alloc)?),
            TokenKind::Number(z) => Pat::Num(*z),
            TokenKind::Symbol(name) => Pat::Sym(name.copied(self.alloc)?),
            TokenKind::Keyword(Keyword::KwTrue) => Pat::True,
            TokenKind::Keyword(Keyword::KwFalse) => Pat::False,
            TokenKind::Keyword(Keyword::KwNil) => Pat::Nil,
            TokenKind::Undefined => Pat::Undef,
            TokenKind::Dollar => {
                if n == 0 {
                    return Err(Stop::Refused);
                }
                tokens.skip();
                return self.pat_value(tokens, n);
            }
            TokenKind::ParenLeft => {
                tokens.skip();
                return self.pat_paren(tokens, n);
            }
            _ => return Err(Stop::Refused),
        };
        tokens.skip();
        Ok(found)
    }

    /// What stands behind a dollar.
    #[tactic(auto, unfolding(crate::specs::Rules::pat_value))]
    fn pat_value(&self, tokens: &mut Tokens<'_>, n: u32) -> Result<Pat, Stop>
        requires level { 0 < n }
        requires nests { Nests n (F.pre self.now.below) (F.post self.now.below) }
        ensures { Reads (spec.pat_value n (inner_at n) tokens.old) result tokens.new }
    {
        Ok(Pat::Value(Boxed::new(self.alloc, self.inner_term(tokens, n)?)?))
    }

    /// What stands behind an opening parenthesis.
    #[cycle(pattern)]
    #[tactic(auto, unfolding(crate::specs::Rules::pat_paren, crate::specs::Rules::pat_inside), using(crate::proofs::Inside::inside_rules))]
    fn pat_paren(&self, tokens: &mut Tokens<'_>, n: u32) -> Result<Pat, Stop>
        requires { Nests n (F.pre self.now.below) (F.post self.now.below) }
        ensures { Reads (spec.pat_paren n (inner_at n) tokens.old) result tokens.new }
    {
        if tokens.eat(Mark::ParenRight) {
            return Ok(Pat::Nil);
        }
        if n == 0 {
            return Err(Stop::Refused);
        }
        let inside = self.pat(tokens, n - 1)?;
        tokens.expect(Mark::ParenRight)?;
        Ok(inside)
    }

    /// A pattern.
    #[cycle(pattern)]
    #[tactic(auto, unfolding(crate::specs::Rules::pat))]
    pub fn pat(&self, tokens: &mut Tokens<'_>, n: u32) -> Result<Pat, Stop>
        requires { Nests n (F.pre self.now.below) (F.post self.now.below) }
        ensures { Reads (spec.pat n (inner_at n) tokens.old) result tokens.new }
    {
        let first = self.pterm(tokens, n)?;
        self.pat_behind(tokens, n, first)
    }

    /// A pattern whose first item was read.
    #[cycle(pattern)]
    #[tactic(auto, unfolding(crate::specs::Rules::pat_behind, crate::specs::Rules::pats_from))]
    pub fn pat_behind(&self, tokens: &mut Tokens<'_>, n: u32, first: Pat) -> Result<Pat, Stop>
        requires { Nests n (F.pre self.now.below) (F.post self.now.below) }
        ensures { Reads (spec.pat_behind n (inner_at n) first tokens.old) result tokens.new }
    {
        let mut found = Items::new(self.alloc);
        found.push(first)?;
        for _turn in 0..tokens.len() {
            if !tokens.eat(Mark::Comma) {
                return Ok(pat_of(found));
            }
            found.push(self.pterm(tokens, n)?)?;
        }
        Ok(pat_of(found))
    }
}
