//! Worked texts: what trees they spell, and where they are refused.

use hum_lex::lex;
use hum_parse::{ParseError, parse, read_back};
use hum_syntax::{Expr, Stmt, Tree, print};
use sqlite_items::Items;
use std::alloc::{AllocError, Global};
use std::test::Fail;

fn tree_of(alloc: Global, text: &[u8]) -> Result<Tree, ParseError> {
    if text.len() < 100_000 {
        if let Ok(tokens) = lex(alloc, text) {
            if tokens.len() < 100_000 {
                return parse(alloc, &tokens);
            }
        }
    }
    Err(ParseError::NoMemory)
}

fn digit(count: usize) -> u8 {
    if count < 10 {
        b"0123456789"[count]
    } else {
        b'+'
    }
}

// One byte for each kind, and how many parts there are.
fn expr_shape(expr: &Expr) -> (u8, u8) {
    match expr {
        Expr::Undef => (b'?', b'.'),
        Expr::Nil => (b'0', b'.'),
        Expr::True => (b't', b'.'),
        Expr::False => (b'f', b'.'),
        Expr::Num(_) => (b'n', b'.'),
        Expr::Sym(_) => (b'#', b'.'),
        Expr::Text(_) => (b'"', b'.'),
        Expr::Var(_) => (b'x', b'.'),
        Expr::Myself => (b's', b'.'),
        Expr::Abs(_, _) => (b'\\', b'.'),
        Expr::Block(statements) => (b'[', digit(statements.len())),
        Expr::Call(_, _) => (b'!', b'.'),
        Expr::Tuple(items) => (b',', digit(items.len())),
        Expr::New(_) => (b'N', b'.'),
        Expr::Case(_, arms) => (b'C', digit(arms.len())),
        Expr::If(branches, None) => (b'I', digit(branches.len())),
        Expr::If(branches, Some(_)) => (b'E', digit(branches.len())),
    }
}

// Of a statement its letter, and the shape of its last expression.
fn stmt_shape(stmt: &Stmt) -> [u8; 3] {
    let (letter, shape) = match stmt {
        Stmt::Let(_, value) => (b'L', expr_shape(value)),
        Stmt::Send(_, target) => (b'S', expr_shape(target)),
        Stmt::Create(_, behaviour) => (b'K', expr_shape(behaviour)),
        Stmt::Become(behaviour) => (b'B', expr_shape(behaviour)),
        Stmt::Throw(value) => (b'T', expr_shape(value)),
        Stmt::Do(value) => (b'D', expr_shape(value)),
    };
    [letter, shape.0, shape.1]
}

fn has_shape(alloc: Global, text: &[u8], shape: &[&[u8]]) -> bool {
    let Ok(tree) = tree_of(alloc, text) else {
        return false;
    };
    let mut same = tree.statements.len() == shape.len();
    for (stmt, wanted) in tree.statements.as_slice().iter().zip(shape.iter()) {
        same = same && stmt_shape(stmt).as_slice() == *wanted;
    }
    same
}

const SHAPES: [(&[u8], &[&[u8]]); 40] = [
    (b"", &[]),
    (b"1", &[b"Dn."]),
    (b"( )", &[b"D0."]),
    (b"((a))", &[b"Dx."]),
    (b"a, b, c", &[b"D,3"]),
    (b"(a, b), c", &[b"D,2"]),
    (b"a, (b, c)", &[b"D,2"]),
    (b"a, \\x.b, c", &[b"D,2"]),
    (b"\\x.b, c", &[b"D\\."]),
    (b"f(x)", &[b"D!."]),
    (b"f()", &[b"D!."]),
    (b"f\n(x)", &[b"Dx.", b"Dx."]),
    (b"f(x)(y)[](z)", &[b"D!.", b"D!."]),
    (b"[f](x)", &[b"D!."]),
    (b"SELF(x)", &[b"Ds.", b"Dx."]),
    (b"#a(x)", &[b"D#.", b"Dx."]),
    (b"1(x)", &[b"Dn.", b"Dx."]),
    (b"\"a\"(x)", &[b"D\".", b"Dx."]),
    (b"NEW NEW f(x)", &[b"DN."]),
    (
        b"TRUE FALSE NIL ? SELF",
        &[b"Dt.", b"Df.", b"D0.", b"D?.", b"Ds."],
    ),
    (b"[1 2 a, b]", &[b"D[3"]),
    (b"IF a [b] [c]", &[b"DI1", b"D[1"]),
    (b"IF a [b] ELIF c [] ELIF d [] ELSE []", &[b"DE3"]),
    (b"IF f(a) [b] ELSE [c] (d)", &[b"DE1", b"Dx."]),
    (b"IF a [b], c", &[b"D,2"]),
    (b"CASE x OF 1 : f (a) : 2 END", &[b"DC2"]),
    (b"CASE x OF 1 : f(a) _ : 2 END", &[b"DC2"]),
    (b"CASE x OF a, $b(c), (), (d, e) : 2 END", &[b"DC1"]),
    (b"CASE x OF _ : \\y.y #a : 2 END", &[b"DC2"]),
    (b"LET a, (b, c) = 1, 2", &[b"L,2"]),
    (b"LET f = \\x.x", &[b"L\\."]),
    (b"LET f(x) = x", &[b"L\\."]),
    (b"LET f() = x", &[b"L\\."]),
    (b"LET f(x, y) = x LET 1 = 2", &[b"L\\.", b"Ln."]),
    (b"LET f, x = x", &[b"Lx."]),
    (b"LET $f(x) = 1", &[b"Ln."]),
    (b"SEND 1, 2 TO a, b", &[b"S,2"]),
    (b"CREATE a WITH f(x)", &[b"K!."]),
    (b"BECOME \\x.[] THROW #no", &[b"B\\.", b"T#."]),
    (b"SEND (tag, m) TO out a", &[b"Sx.", b"Dx."]),
];

#[test]
fn shapes(rt: HostRuntime) {
    for row in SHAPES.iter() {
        assert!(rt; has_shape(rt.alloc(), row.0, row.1));
    }
}

fn is_refused(alloc: Global, text: &[u8], at: u32) -> bool {
    match tree_of(alloc, text) {
        Err(why) => why == ParseError::Refused { at },
        Ok(_) => false,
    }
}

const REFUSALS: [(&[u8], u32); 42] = [
    (b"SEND 1 TO", 3),
    (b"SEND TO", 1),
    (b"SEND 1 2", 2),
    (b"IF a [b](c)", 5),
    (b"IF a b", 2),
    (b"IF a [b] ELIF c", 7),
    (b"IF a [b] ELSE [c] ELSE", 9),
    (b"IF a [b] ELSE [c] ELIF", 9),
    (b"\\(a)(b).e", 4),
    (b"\\x", 2),
    (b"\\x.", 3),
    (b"CASE x OF END", 3),
    (b"CASE x 1", 2),
    (b"CASE x OF 1 : 2", 6),
    (b"CASE x OF 1 : f(a) : 2 END", 9),
    (b"CASE x OF 1, : 2", 5),
    (b"LET", 1),
    (b"LET =", 1),
    (b"LET f", 2),
    (b"LET f(", 3),
    (b"LET f(1, 2 = 3", 6),
    (b"LET f(x), y = 1", 5),
    (b"LET f (x) = 1", 2),
    (b"LET g, f(x) = 1", 4),
    (b"LET (f)(x) = 1", 4),
    (b"LET 1(x) = 1", 2),
    (b"LET f(x)(y) = 1", 5),
    (b"LET a = ", 3),
    (b"CREATE 1", 1),
    (b"CREATE a TO", 2),
    (b"BECOME", 1),
    (b"THROW ]", 1),
    (b"NEW", 1),
    (b"NEW \\x.x", 1),
    (b"END", 0),
    (b"1 2 ]", 2),
    (b"[1 2", 3),
    (b"a,", 2),
    (b"a, ]", 2),
    (b"f(,", 2),
    (b"_", 0),
    (b"1 = 2", 1),
];

#[test]
fn refusals(rt: HostRuntime) {
    for row in REFUSALS.iter() {
        assert!(rt; is_refused(rt.alloc(), row.0, row.1));
    }
}

// A text of parts, each written so many times.
fn repeated(alloc: Global, parts: &[(&[u8], usize)]) -> Result<Vec<u8>, AllocError> {
    let mut text = Vec::new(alloc);
    for (part, count) in parts.iter() {
        for _turn in 0..*count {
            text.extend_from_slice(part)?;
        }
    }
    Ok(text)
}

// The deepest texts of their kinds, with their shapes.
const DEEPEST: [(&[(&[u8], usize)], &[u8]); 8] = [
    (&[(b"(", 198), (b"1", 1), (b")", 198)], b"Dn."),
    (&[(b"(", 199), (b")", 199)], b"D0."),
    (&[(b"f", 1), (b"()", 199)], b"D!."),
    (&[(b"[", 99), (b"]", 99)], b"D[1"),
    (&[(b"[", 99), (b"1", 1), (b"]", 99)], b"D[1"),
    (
        &[(b"(", 196), (b"CASE x OF _ : 1 END", 1), (b")", 196)],
        b"DC1",
    ),
    (&[(b"LET f() = [", 99), (b"]", 99)], b"L\\."),
    (&[(b"f(1", 1), (b", 1", 2999), (b")", 1)], b"D!."),
];

// Texts that are deeper by one, with the places at which they are refused.
const TOO_DEEP: [(&[(&[u8], usize)], u32); 8] = [
    (&[(b"(", 199), (b"1", 1), (b")", 199)], 199),
    (&[(b"(", 200), (b"1", 1), (b")", 200)], 199),
    (&[(b"(", 200), (b")", 200)], 199),
    (&[(b"f", 1), (b"()", 200)], 399),
    (&[(b"[", 100), (b"]", 100)], 99),
    (&[(b"[", 100), (b"1", 1), (b"]", 100)], 99),
    (
        &[(b"(", 197), (b"CASE x OF _ : 1 END", 1), (b")", 197)],
        197,
    ),
    (&[(b"LET f() = [", 100), (b"]", 100)], 599),
];

#[test]
fn depths(rt: HostRuntime) -> Result<(), Fail> {
    let alloc = rt.alloc();
    for row in DEEPEST.iter() {
        let text = repeated(alloc, row.0)?;
        assert!(rt; has_shape(alloc, &text, &[row.1]));
    }
    for row in TOO_DEEP.iter() {
        let text = repeated(alloc, row.0)?;
        assert!(rt; is_refused(alloc, &text, row.1));
    }
    Ok(())
}

// Each callee is a call: hardly any program has more nodes one in another. `rt try` runs out of stack here.
#[test]
fn a_tall_tree(rt: HostRuntime) -> Result<(), Fail> {
    let alloc = rt.alloc();
    let calls = repeated(alloc, &[(b")", 1), (b"()", 146)])?;
    let text = repeated(alloc, &[(b"f(", 50), (b"1", 1), (&calls, 50)])?;
    let Ok(tree) = tree_of(alloc, &text) else {
        return Err(AllocError.into());
    };
    let again = read_back(alloc, &tree)?;
    assert!(rt; again.is_none());
    Ok(())
}

// What is printed is as wanted, and so is that of the tree that is read back: the text tells the tree.
fn is_printed(alloc: Global, text: &[u8], wanted: &[u8]) -> bool {
    let Ok(tree) = tree_of(alloc, text) else {
        return false;
    };
    let Ok(Some(again)) = read_back(alloc, &tree) else {
        return false;
    };
    let (Ok(first), Ok(second)) = (print(alloc, &tree), print(alloc, &again)) else {
        return false;
    };
    first.as_slice() == wanted && second.as_slice() == wanted
}

const PRINTED: [(&[u8], &[u8]); 13] = [
    (b"", b""),
    (b"f\n(x)", b"f x"),
    (b"f(x)", b"f( x )"),
    (b"(a, b), c", b"( a , b ) , c"),
    (b"LET f() = ()", b"LET f = \\ NIL . NIL"),
    (b"LET f, (g, $h(1)) = 1", b"LET f , ( g , $ h( 1 ) ) = 1"),
    (b"IF a [b] [c]", b"IF a [ b ] [ c ]"),
    (b"CASE x OF 1 : f (a) : 2 END", b"CASE x OF 1 : f a : 2 END"),
    (
        b"LET label(tag, out) = \\m.[ SEND (tag, m) TO out ] CREATE a WITH label(#a, println)
        CREATE b WITH label(#b, a) SEND 7 TO b",
        b"LET label = \\ tag , out . \\ m . [ SEND tag , m TO out ] CREATE a WITH label( #a , println ) \
CREATE b WITH label( #b , a ) SEND 7 TO b",
    ),
    (
        b"LET twice(out) = \\m.[ CASE m OF #bad : [ BECOME quiet BECOME quiet ] _ : [ SEND m TO out ] END ]
        LET quiet = \\_.[ ] CREATE t WITH twice(println) SEND #bad TO t SEND 5 TO t",
        b"LET twice = \\ out . \\ m . [ CASE m OF #bad : [ BECOME quiet BECOME quiet ] _ : [ SEND m TO out ] END ] \
LET quiet = \\ _ . [ ] CREATE t WITH twice( println ) SEND #bad TO t SEND 5 TO t",
    ),
    (
        b"LET t(a, b) = CASE a OF $b : #yes _ : #no END SEND t((1, 2), (1, 2)) TO println SEND t(t, t) TO println",
        b"LET t = \\ a , b . CASE a OF $ b : #yes _ : #no END SEND t( ( 1 , 2 ) , ( 1 , 2 ) ) TO println \
SEND t( t , t ) TO println",
    ),
    (
        b"LET answer(n) = \\cust.[ SEND n TO cust ]
        LET start(x, y, cust) = \\_.[ SEND SELF TO x SEND SELF TO y BECOME \\a.[ BECOME \\b.[ SEND add(a, b) TO cust ] ] ]
        CREATE x WITH answer(3) CREATE y WITH answer(4) CREATE j WITH start(x, y, println) SEND NIL TO j",
        b"LET answer = \\ n . \\ cust . [ SEND n TO cust ] LET start = \\ x , y , cust . \\ _ . [ SEND SELF TO x SEND SELF TO y \
BECOME \\ a . [ BECOME \\ b . [ SEND add( a , b ) TO cust ] ] ] CREATE x WITH answer( 3 ) CREATE y WITH answer( 4 ) \
CREATE j WITH start( x , y , println ) SEND NIL TO j",
    ),
    (b"LET f(x) = f(x) f(0)", b"LET f = \\ x . f( x ) f( 0 )"),
];

#[test]
fn prints(rt: HostRuntime) {
    for row in PRINTED.iter() {
        assert!(rt; is_printed(rt.alloc(), row.0, row.1));
    }
}
