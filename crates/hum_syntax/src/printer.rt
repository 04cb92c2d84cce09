//! The text of a tree.

ghost use Rattle.std.specs.Prelude.{◌≡◌, ◌≤◌, ◌*◌, Bool, map, length, OnOk, IfOk};
ghost use Rattle.hum_syntax.specs.declared.token.TokenKind.TheVariants as kinds;
ghost use Rattle.hum_syntax.specs.Tokens.{weight_of_kinds};
ghost use Rattle.hum_syntax.specs.Writes.{written, text_of};
ghost use Rattle.hum_syntax.specs.Prints as spec;
ghost use Rattle.hum_syntax.specs.Prints.{part_of_expr, part_of_pat, piece_of_stmt, piece_of_arm, piece_of_branch, parens, printed};
ghost use Rattle.hum_syntax.specs.Laws.{IsTextOf};

use crate::form::{form_of_expr, form_of_pat};
use crate::keyword::Keyword;
use crate::token::TokenKind;
use crate::tree::{Arm, Branch, Expr, Pat, Stmt, Tree};
use crate::writer::Writer;
use std::alloc::{AllocError, Global};

// A part, in parentheses where it needs them.
#[cycle(printer)]
fn part(out: &mut Writer, e: &Expr, in_parens: bool) -> Result<(), AllocError>
    ensures { OnOk result (out.new ≡ written out.old (parens in_parens (part_of_expr e.now)).tokens) }
{
    if in_parens {
        out.token(&TokenKind::ParenLeft)?;
        expr(out, e)?;
        out.token(&TokenKind::ParenRight)
    } else {
        expr(out, e)
    }
}

#[cycle(printer)]
fn expr(out: &mut Writer, e: &Expr) -> Result<(), AllocError>
    ensures { OnOk result (out.new ≡ written out.old (part_of_expr e.now).tokens) }
{
    match e {
        Expr::Undef => out.token(&TokenKind::Undefined),
        Expr::Nil => out.keyword(Keyword::KwNil),
        Expr::True => out.keyword(Keyword::KwTrue),
        Expr::False => out.keyword(Keyword::KwFalse),
        Expr::Num(z) => out.number(*z),
        Expr::Sym(symbol) => out.symbol(symbol),
        Expr::Text(text) => out.text(text),
        Expr::Var(name) => out.name(name),
        Expr::Myself => out.keyword(Keyword::KwSelf),
        Expr::Abs(pattern, value) => {
            out.token(&TokenKind::Backslash)?;
            pat(out, pattern.get())?;
            out.token(&TokenKind::Dot)?;
            expr(out, value.get())
        }
        Expr::Block(statements) => block(out, statements.as_slice()),
        Expr::Call(callee, argument) => {
            let callee = callee.get();
            part(out, callee, !form_of_expr(callee).is_called())?;
            out.token(&TokenKind::CallParen)?;
            expr(out, argument.get())?;
            out.token(&TokenKind::ParenRight)
        }
        Expr::Tuple(items) => tuple(out, items.as_slice()),
        Expr::New(behaviour) => {
            let behaviour = behaviour.get();
            out.keyword(Keyword::KwNew)?;
            part(out, behaviour, form_of_expr(behaviour).is_wide())
        }
        Expr::Case(subject, choices) => {
            out.keyword(Keyword::KwCase)?;
            expr(out, subject.get())?;
            out.keyword(Keyword::KwOf)?;
            arms(out, choices.as_slice())?;
            out.keyword(Keyword::KwEnd)
        }
        Expr::If(conditions, None) => {
            out.keyword(Keyword::KwIf)?;
            branches(out, conditions.as_slice())
        }
        Expr::If(conditions, Some(statements)) => {
            out.keyword(Keyword::KwIf)?;
            branches(out, conditions.as_slice())?;
            out.keyword(Keyword::KwElse)?;
            block(out, statements.as_slice())
        }
    }
}

// The items of a tuple, with commas.
#[cycle(printer)]
fn tuple(out: &mut Writer, items: &[Expr]) -> Result<(), AllocError>
    ensures { OnOk result (out.new ≡ written out.old (spec.tuple (spec.items_in (map part_of_expr items.now))).tokens) }
{
    for (i, item) in items.iter().enumerate() {
        if i + 1 == items.len() {
            part(out, item, form_of_expr(item).is_tuple())?;
        } else {
            part(out, item, form_of_expr(item).is_wide())?;
            out.token(&TokenKind::Comma)?;
        }
    }
    Ok(())
}

#[cycle(printer)]
fn arms(out: &mut Writer, arms: &[Arm]) -> Result<(), AllocError>
    ensures { OnOk result (out.new ≡ written out.old (spec.in_line (map piece_of_arm arms.now))) }
{
    for arm in arms {
        pat(out, &arm.pattern)?;
        out.token(&TokenKind::Colon)?;
        expr(out, &arm.value)?;
    }
    Ok(())
}

// Conditions and their blocks, with `ELIF`.
#[cycle(printer)]
fn branches(out: &mut Writer, branches: &[Branch]) -> Result<(), AllocError>
    ensures { OnOk result (out.new ≡ written out.old (spec.branches (map piece_of_branch branches.now))) }
{
    for (i, each) in branches.iter().enumerate() {
        branch(out, each)?;
        if i + 1 < branches.len() {
            out.keyword(Keyword::KwElif)?;
        }
    }
    Ok(())
}

#[cycle(printer)]
fn branch(out: &mut Writer, branch: &Branch) -> Result<(), AllocError>
    ensures { OnOk result (out.new ≡ written out.old (piece_of_branch branch.now).tokens) }
{
    expr(out, &branch.condition)?;
    block(out, branch.block.as_slice())
}

#[cycle(printer)]
fn block(out: &mut Writer, statements: &[Stmt]) -> Result<(), AllocError>
    ensures { OnOk result (out.new ≡ written out.old (spec.block (map piece_of_stmt statements.now))) }
{
    out.token(&TokenKind::SquareLeft)?;
    stmts(out, statements)?;
    out.token(&TokenKind::SquareRight)
}

#[cycle(printer)]
fn stmts(out: &mut Writer, statements: &[Stmt]) -> Result<(), AllocError>
    ensures { OnOk result (out.new ≡ written out.old (printed statements.now)) }
{
    for statement in statements {
        stmt(out, statement)?;
    }
    Ok(())
}

#[cycle(printer)]
fn stmt(out: &mut Writer, statement: &Stmt) -> Result<(), AllocError>
    ensures { OnOk result (out.new ≡ written out.old (piece_of_stmt statement.now).tokens) }
{
    match statement {
        Stmt::Let(pattern, value) => {
            out.keyword(Keyword::KwLet)?;
            pat(out, pattern)?;
            out.token(&TokenKind::Equals)?;
            expr(out, value)
        }
        Stmt::Send(message, target) => {
            out.keyword(Keyword::KwSend)?;
            expr(out, message)?;
            out.keyword(Keyword::KwTo)?;
            expr(out, target)
        }
        Stmt::Create(name, behaviour) => {
            out.keyword(Keyword::KwCreate)?;
            out.name(name)?;
            out.keyword(Keyword::KwWith)?;
            expr(out, behaviour)
        }
        Stmt::Become(behaviour) => {
            out.keyword(Keyword::KwBecome)?;
            expr(out, behaviour)
        }
        Stmt::Throw(value) => {
            out.keyword(Keyword::KwThrow)?;
            expr(out, value)
        }
        Stmt::Do(value) => expr(out, value),
    }
}

// A pattern, in parentheses where it needs them.
#[cycle(printer)]
fn pat_part(out: &mut Writer, p: &Pat, in_parens: bool) -> Result<(), AllocError>
    ensures { OnOk result (out.new ≡ written out.old (parens in_parens (part_of_pat p.now)).tokens) }
{
    if in_parens {
        out.token(&TokenKind::ParenLeft)?;
        pat(out, p)?;
        out.token(&TokenKind::ParenRight)
    } else {
        pat(out, p)
    }
}

#[cycle(printer)]
fn pat(out: &mut Writer, p: &Pat) -> Result<(), AllocError>
    ensures { OnOk result (out.new ≡ written out.old (part_of_pat p.now).tokens) }
{
    match p {
        Pat::Any => out.token(&TokenKind::Wildcard),
        Pat::Bind(name) => out.name(name),
        Pat::Undef => out.token(&TokenKind::Undefined),
        Pat::Nil => out.keyword(Keyword::KwNil),
        Pat::True => out.keyword(Keyword::KwTrue),
        Pat::False => out.keyword(Keyword::KwFalse),
        Pat::Num(z) => out.number(*z),
        Pat::Sym(symbol) => out.symbol(symbol),
        Pat::Value(value) => {
            let value = value.get();
            out.token(&TokenKind::Dollar)?;
            part(out, value, form_of_expr(value).is_wide())
        }
        Pat::Tuple(items) => pat_tuple(out, items.as_slice()),
    }
}

// The items of a tuple, with commas.
#[cycle(printer)]
fn pat_tuple(out: &mut Writer, items: &[Pat]) -> Result<(), AllocError>
    ensures { OnOk result (out.new ≡ written out.old (spec.tuple (map spec.as_term (map part_of_pat items.now))).tokens) }
{
    for (i, item) in items.iter().enumerate() {
        pat_part(out, item, form_of_pat(item).is_wide())?;
        if i + 1 < items.len() {
            out.token(&TokenKind::Comma)?;
        }
    }
    Ok(())
}

/// The text of a tree: one blank stands between tokens, and none before the parenthesis of a call. Only want of memory is an error.
///
/// Parentheses stand round a tuple or an abstraction where a term is wanted, round a tuple that is an item of a tuple, and round a callee
/// that is no name, call or block. A function definition is written as `LET f = \ p . e`, and the unit value as `NIL`.
///
/// The text lexes to tokens that spell the tree again, wherever these are light enough and no deeper than a program may be. It has at most
/// 129 bytes for each unit that they weigh. The call takes stack for each node that stands in another.
pub fn print(alloc: Global, tree: &Tree) -> Result<Vec<u8>, AllocError>
    ensures value { IfOk result (λ text. text.items ≡ text_of (printed tree.now.statements)) }
    ensures text { IfOk result (λ text. IsTextOf text.items tree.now.statements) }
    ensures short { IfOk result (λ text. length text.items ≤ 129 * weight_of_kinds (printed tree.now.statements)) }
{
    let mut out = Writer::new(alloc);
    stmts(&mut out, tree.statements.as_slice())?;
    Ok(out.into_bytes())
}
