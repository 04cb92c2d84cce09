//! Worked texts: the units that a program becomes, in a short spelling.
//!
//! A block is `[..]` and an abstraction `\..`, in the order of their numbers. `@3` is a slot three entries back and `@3.1` the second
//! function of a group there; `\2` and `[2]` name a unit; `.` is a constant, and in a pattern `b` a name and `_` anything.

use hum_core::{CoreArm, CoreBranch, CoreExpr, CorePat, CoreStmt, CoreUnit, Slot};
use hum_lex::lex;
use hum_parse::parse;
use hum_scope::resolve;
use std::alloc::{AllocError, Global};
use std::test::Fail;

fn number(out: &mut Vec<u8>, n: u32) -> Result<(), AllocError> {
    let digits = b"0123456789";
    if n >= 10 {
        out.push(digits[(n / 10 % 10) as usize])?;
    }
    out.push(digits[(n % 10) as usize])?;
    Ok(())
}

fn unit_number(out: &mut Vec<u8>, before: u8, n: u32) -> Result<(), AllocError> {
    out.push(before)?;
    number(out, n)
}

fn slot(out: &mut Vec<u8>, slot: Slot) -> Result<(), AllocError> {
    unit_number(out, b'@', slot.back)?;
    match slot.member {
        Some(at) => unit_number(out, b'.', at),
        None => Ok(()),
    }
}

fn block_number(out: &mut Vec<u8>, n: u32) -> Result<(), AllocError> {
    unit_number(out, b'[', n)?;
    out.push(b']')?;
    Ok(())
}

#[cycle(shown)]
fn expr(out: &mut Vec<u8>, e: &CoreExpr) -> Result<(), AllocError> {
    match e {
        CoreExpr::Var(at) => slot(out, *at),
        CoreExpr::Abs(n) => unit_number(out, b'\\', *n),
        CoreExpr::Block(n) => block_number(out, *n),
        CoreExpr::Call(callee, argument) => {
            expr(out, callee.get())?;
            out.push(b'!')?;
            expr(out, argument.get())
        }
        CoreExpr::Case(subject, choices) => {
            expr(out, subject.get())?;
            arms(out, choices.as_slice())
        }
        CoreExpr::If(conditions, other) => {
            branches(out, conditions.as_slice())?;
            block_number(out, *other)
        }
        _ => {
            out.push(b'.')?;
            Ok(())
        }
    }
}

#[cycle(shown)]
fn arms(out: &mut Vec<u8>, arms: &[CoreArm]) -> Result<(), AllocError> {
    for arm in arms {
        out.push(b'|')?;
        pat(out, &arm.pattern)?;
        out.push(b':')?;
        expr(out, &arm.value)?;
    }
    Ok(())
}

#[cycle(shown)]
fn branches(out: &mut Vec<u8>, branches: &[CoreBranch]) -> Result<(), AllocError> {
    for branch in branches {
        expr(out, &branch.condition)?;
        block_number(out, branch.block)?;
    }
    Ok(())
}

#[cycle(shown)]
fn pat(out: &mut Vec<u8>, p: &CorePat) -> Result<(), AllocError> {
    match p {
        CorePat::Any => out.push(b'_')?,
        CorePat::Bind => out.push(b'b')?,
        CorePat::Is(_) => out.push(b'.')?,
        CorePat::Value(value) => expr(out, value.get())?,
        CorePat::Tuple(items) => pats(out, items.as_slice())?,
    }
    Ok(())
}

#[cycle(shown)]
fn pats(out: &mut Vec<u8>, items: &[CorePat]) -> Result<(), AllocError> {
    out.push(b'(')?;
    for item in items {
        pat(out, item)?;
    }
    out.push(b')')?;
    Ok(())
}

fn group(out: &mut Vec<u8>, units: &[u32]) -> Result<(), AllocError> {
    for n in units {
        unit_number(out, b'\\', *n)?;
    }
    Ok(())
}

fn stmt(out: &mut Vec<u8>, s: &CoreStmt) -> Result<(), AllocError> {
    match s {
        CoreStmt::Let(pattern, value) => {
            pat(out, pattern)?;
            out.push(b'=')?;
            expr(out, value)
        }
        CoreStmt::Group(units) => group(out, units.as_slice()),
        CoreStmt::Defined => {
            out.push(b'd')?;
            Ok(())
        }
        CoreStmt::Send(message, target) => {
            expr(out, message)?;
            out.push(b'>')?;
            expr(out, target)
        }
        CoreStmt::Create(behaviour) => {
            out.extend_from_slice(b"b+")?;
            expr(out, behaviour)
        }
        CoreStmt::Become(value) => expr(out, value),
        CoreStmt::Throw(value) => expr(out, value),
        CoreStmt::Do(value) => expr(out, value),
    }
}

fn stmts(out: &mut Vec<u8>, statements: &[CoreStmt]) -> Result<(), AllocError> {
    out.push(b'[')?;
    for (i, statement) in statements.iter().enumerate() {
        if i > 0 {
            out.push(b' ')?;
        }
        stmt(out, statement)?;
    }
    out.push(b']')?;
    Ok(())
}

fn unit(out: &mut Vec<u8>, unit: &CoreUnit) -> Result<(), AllocError> {
    match unit {
        CoreUnit::Abs(pattern, value) => {
            out.push(b'\\')?;
            pat(out, pattern)?;
            out.push(b'.')?;
            expr(out, value)
        }
        CoreUnit::Block(statements) => stmts(out, statements.as_slice()),
    }
}

// The units of a program; nothing where it is refused.
fn shown(alloc: Global, text: &[u8]) -> Result<Vec<u8>, AllocError> {
    let mut out = Vec::new(alloc);
    if text.len() < 100_000 {
        if let Ok(tokens) = lex(alloc, text) {
            if tokens.len() < 100_000 {
                if let Ok(tree) = parse(alloc, &tokens) {
                    if let Ok(resolved) = resolve(alloc, &tree) {
                        for each in resolved.units.as_slice() {
                            unit(&mut out, each)?;
                        }
                    }
                }
            }
        }
    }
    Ok(out)
}

const PROGRAMS: [(&[u8], &[u8]); 9] = [
    (b"", b"[]"),
    (b"SEND 1 TO println", b"[.>@1]"),
    (
        b"LET f(x) = g(x) LET g(y) = y SEND f(1) TO println",
        b"[\\1\\2 d @0.0!.>@2]\\b.@1.1!@0\\b.@0",
    ),
    (
        b"LET f(x) = 1 LET a = f(1) LET g(x) = f(x) SEND g(a) TO println",
        b"[\\1 b=@0.0!. \\2 @0.0!@1>@4]\\b..\\b.@3.0!@0",
    ),
    (
        b"IF TRUE [ LET f(x) = x ] SEND [ ] TO println",
        b"[.[1][3] [4]>@1][\\2]\\b.@0[][]",
    ),
    (
        b"CASE 1 OF (a, $add) : a _ : say END",
        b"[.|(b@13):@0|_:@0]",
    ),
    (
        b"CREATE a WITH \\m . [ SEND m TO SELF ] SEND 1 TO a",
        b"[b+\\1 .>@0]\\b.[2][@0>.]",
    ),
    (
        b"LET a = 1 SEND [ LET a = 2 SEND a TO println ] TO println",
        b"[b=. [1]>@2][b=. @0>@3]",
    ),
    (
        b"LET (a, (b, c)) = 1 SEND a TO b SEND c TO println",
        b"[(b(bb))=. @2>@1 @0>@4]",
    ),
];

#[test]
fn programs(rt: HostRuntime) -> Result<(), Fail> {
    for row in PROGRAMS.iter() {
        assert_eq!(rt; shown(rt.alloc(), row.0)?.as_slice(), row.1);
    }
    Ok(())
}
