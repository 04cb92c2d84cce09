//! Copies, keywords and texts of trees.

ghost use Rattle.std.specs.Prelude.{◌≡◌, true, IsTrue, IfOk};
ghost use Rattle.hum_syntax.specs.Forms.{is_name};
ghost use Rattle.hum_syntax.specs.Formed.{is_formed_expr, is_formed_stmt};

use hum_syntax::{Expr, KEYWORDS, Keyword, Name, Pat, Stmt, Sym, Text, Tree, print};
use sqlite_items::{Boxed, Items};
use std::alloc::{AllocError, Global};
use std::test::Fail;

#[test]
fn copies(rt: HostRuntime) -> Result<(), Fail> {
    let alloc = rt.alloc();
    let name = Name::from_bytes(Vec::from_slice(alloc, b"less_equal")?);
    assert_eq!(rt; name.copied(alloc)?.as_bytes(), b"less_equal".as_slice());
    let symbol = Sym::from_bytes(Vec::from_slice(alloc, b"LET")?);
    assert_eq!(rt; symbol.copied(alloc)?.as_bytes(), b"LET".as_slice());
    let text = Text::from_points(Vec::from_slice(alloc, &['a', '\n'])?);
    assert_eq!(rt; text.copied(alloc)?.as_points(), ['a', '\n'].as_slice());
    Ok(())
}

#[test]
fn keywords(rt: HostRuntime) {
    assert_eq!(rt; KEYWORDS.len(), 20);
    assert_eq!(rt; Keyword::of_run(b"ELIF"), Some(Keyword::KwElif));
    assert_eq!(rt; Keyword::of_run(b"elif"), None);
    assert_eq!(rt; Keyword::KwThrow.word(), b"THROW".as_slice());
}

fn variable(alloc: Global, name: &[u8]) -> Result<Expr, AllocError>
    requires { IsTrue (is_name name.now) }
    ensures { IfOk result (λ x. is_formed_expr x ≡ true) }
{
    Ok(Expr::Var(Name::from_bytes(Vec::from_slice(alloc, name)?)))
}

fn called(alloc: Global, callee: Expr, argument: Expr) -> Result<Expr, AllocError>
    requires { (is_formed_expr callee ≡ true) × (is_formed_expr argument ≡ true) }
    ensures { IfOk result (λ x. is_formed_expr x ≡ true) }
{
    Ok(Expr::Call(Boxed::new(alloc, callee)?, Boxed::new(alloc, argument)?))
}

fn pair(alloc: Global, first: Expr, second: Expr) -> Result<Expr, AllocError>
    requires { (is_formed_expr first ≡ true) × (is_formed_expr second ≡ true) }
    ensures { IfOk result (λ x. is_formed_expr x ≡ true) }
{
    let mut items = Items::new(alloc);
    items.push(first)?;
    items.push(second)?;
    Ok(Expr::Tuple(items))
}

// An abstraction whose pattern is a name.
fn abstraction(alloc: Global, name: &[u8], value: Expr) -> Result<Expr, AllocError>
    requires { IsTrue (is_name name.now) × (is_formed_expr value ≡ true) }
    ensures { IfOk result (λ x. is_formed_expr x ≡ true) }
{
    let pattern = Pat::Bind(Name::from_bytes(Vec::from_slice(alloc, name)?));
    Ok(Expr::Abs(Boxed::new(alloc, pattern)?, Boxed::new(alloc, value)?))
}

fn text_of(alloc: Global, statement: Stmt) -> Result<Vec<u8>, AllocError>
    requires { is_formed_stmt statement ≡ true }
{
    let mut statements = Items::new(alloc);
    statements.push(statement)?;
    print(alloc, &Tree { statements })
}

#[test]
fn texts(rt: HostRuntime) -> Result<(), Fail> {
    let alloc = rt.alloc();
    let f = called(alloc, variable(alloc, b"f")?, Expr::Num(-5))?;
    let sent = called(alloc, f, Expr::Nil)?;
    let target = called(alloc, Expr::Undef, Expr::True)?;
    assert_eq!(rt;
        text_of(alloc, Stmt::Send(sent, target))?.as_slice(),
        b"SEND f( -5 )( NIL ) TO ( ? )( TRUE )".as_slice()
    );
    let identity = abstraction(alloc, b"x", variable(alloc, b"x")?)?;
    let constant = abstraction(alloc, b"_x", Expr::Myself)?;
    assert_eq!(rt;
        text_of(alloc, Stmt::Throw(pair(alloc, identity, constant)?))?.as_slice(),
        b"THROW ( \\ x . x ) , \\ _x . SELF".as_slice()
    );
    Ok(())
}
