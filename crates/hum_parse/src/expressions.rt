//! Expressions, and the arms of `CASE`.

ghost use Rattle.std.specs.Prelude.{◌≡◌, ◌<◌};
ghost use Rattle.hum_parse.specs.Input.{Reads};
ghost use Rattle.hum_parse.specs.Nests.{Nests};
ghost use Rattle.hum_parse.specs.Rules as spec;
ghost use Rattle.hum_parse.specs.Rules.{inner_at};

use crate::grammar::{Form, Grammar};
use crate::tokens::{Mark, Stop, Tokens};
use hum_syntax::{Arm, Expr};
use sqlite_items::{Boxed, Items};
use std::alloc::Global;

/// One item stands for itself, and several are a tuple.
fn expr_of(mut found: Items<Expr>) -> Expr
    ensures { result ≡ spec.expr_of found }
{
    if found.len() == 1 {
        return found.remove(0);
    }
    Expr::Tuple(found)
}

impl<F: Fn(Global, &mut Tokens<'_>, u32, Form) -> Result<Expr, Stop>> Grammar<F> {
    /// An expression.
    #[tactic(auto, unfolding(crate::specs::Rules::expr, crate::specs::Rules::items_from))]
    pub fn expr(&self, tokens: &mut Tokens<'_>, n: u32) -> Result<Expr, Stop>
        requires { Nests n (F.pre self.now.below) (F.post self.now.below) }
        ensures { Reads (spec.expr n (inner_at n) tokens.old) result tokens.new }
    {
        let mut found = Items::new(self.alloc);
        for _turn in 0..tokens.len() {
            if tokens.sees(Mark::Backslash) {
                if n == 0 {
                    return Err(Stop::Refused);
                }
                tokens.skip();
                found.push(self.abs(tokens, n)?)?;
                return Ok(expr_of(found));
            }
            found.push(self.term(tokens, n)?)?;
            if !tokens.eat(Mark::Comma) {
                return Ok(expr_of(found));
            }
        }
        Err(Stop::Refused)
    }

    /// An abstraction behind its backslash.
    #[tactic(auto, unfolding(crate::specs::Rules::abs_inside))]
    fn abs(&self, tokens: &mut Tokens<'_>, n: u32) -> Result<Expr, Stop>
        requires level { 0 < n }
        requires nests { Nests n (F.pre self.now.below) (F.post self.now.below) }
        ensures { Reads (spec.abs_inside n (inner_at n) tokens.old) result tokens.new }
    {
        let pattern = Boxed::new(self.alloc, self.inner_pat(tokens, n)?)?;
        tokens.expect(Mark::Dot)?;
        Ok(Expr::Abs(
            pattern,
            Boxed::new(self.alloc, self.inner_expr(tokens, n)?)?,
        ))
    }

    /// An arm.
    #[tactic(auto, unfolding(crate::specs::Rules::arm_rule))]
    fn arm(&self, tokens: &mut Tokens<'_>, n: u32) -> Result<Arm, Stop>
        requires level { 0 < n }
        requires nests { Nests n (F.pre self.now.below) (F.post self.now.below) }
        ensures { Reads (spec.arm_rule n (inner_at n) tokens.old) result tokens.new }
    {
        let pattern = self.inner_pat(tokens, n)?;
        tokens.expect(Mark::Colon)?;
        Ok(Arm {
            pattern,
            value: self.inner_expr(tokens, n)?,
        })
    }

    /// One arm at least, and the `END` behind the last.
    #[tactic(auto, unfolding(crate::specs::Rules::arms, crate::specs::Rules::until_from))]
    pub fn arms(&self, tokens: &mut Tokens<'_>, n: u32) -> Result<Items<Arm>, Stop>
        requires level { 0 < n }
        requires nests { Nests n (F.pre self.now.below) (F.post self.now.below) }
        ensures { Reads (spec.arms n (inner_at n) tokens.old) result tokens.new }
    {
        let mut found = Items::new(self.alloc);
        found.push(self.arm(tokens, n)?)?;
        for _turn in 0..tokens.len() {
            if tokens.eat(Mark::End) {
                return Ok(found);
            }
            found.push(self.arm(tokens, n)?)?;
        }
        Err(Stop::Refused)
    }
}
