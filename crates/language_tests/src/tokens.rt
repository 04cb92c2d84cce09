//! Worked texts: what each lexes to, and where it is refused.

use hum_lex::{LexCause, LexError, lex};
use hum_syntax::{Token, TokenKind};
use std::alloc::{AllocError, Global};
use std::test::Fail;

fn tokens_of(alloc: Global, text: &[u8]) -> Result<Vec<Token>, LexError> {
    if text.len() < 100_000 {
        lex(alloc, text)
    } else {
        Err(LexError::NoMemory)
    }
}

// One byte for each kind.
fn letter(kind: &TokenKind) -> u8 {
    match kind {
        TokenKind::Number(_) => b'n',
        TokenKind::Keyword(_) => b'k',
        TokenKind::Wildcard => b'_',
        TokenKind::Undefined => b'?',
        TokenKind::Name(_) => b'x',
        TokenKind::Symbol(_) => b'#',
        TokenKind::Text(_) => b'"',
        TokenKind::CallParen => b'!',
        TokenKind::ParenLeft => b'(',
        TokenKind::ParenRight => b')',
        TokenKind::SquareLeft => b'[',
        TokenKind::SquareRight => b']',
        TokenKind::Comma => b',',
        TokenKind::Dot => b'.',
        TokenKind::Equals => b'=',
        TokenKind::Colon => b':',
        TokenKind::Dollar => b'$',
        TokenKind::Backslash => b'\\',
    }
}

fn has_kinds(alloc: Global, text: &[u8], kinds: &[u8]) -> bool {
    let Ok(tokens) = tokens_of(alloc, text) else {
        return false;
    };
    let mut same = tokens.len() == kinds.len();
    for (token, kind) in tokens.iter().zip(kinds.iter()) {
        same = same && letter(&token.kind) == *kind;
    }
    same
}

fn is_refused(alloc: Global, text: &[u8], at: u32, cause: LexCause) -> bool {
    match tokens_of(alloc, text) {
        Err(LexError::Refused(why)) => why.at == at && why.cause == cause,
        _ => false,
    }
}

// Whether the text is one text token with this one code point.
fn holds(alloc: Global, text: &[u8], point: char) -> bool {
    let Ok(tokens) = tokens_of(alloc, text) else {
        return false;
    };
    let mut found = false;
    for token in tokens.iter() {
        if let TokenKind::Text(held) = &token.kind {
            found = held.as_points() == [point].as_slice();
        }
    }
    found
}

const KINDS: [(&[u8], &[u8]); 29] = [
    (b"", b""),
    (b" \t\r\n", b""),
    (
        b"LET f(x) = \\y.[ SEND #a TO $z ] ? _",
        b"kx!x)=\\x.[k#k$x]?_",
    ),
    (b"f(", b"x!"),
    (b")(", b")!"),
    (b"](", b"]!"),
    (b"f (", b"x("),
    (b"f# c\n(", b"x("),
    (b"SELF(", b"k("),
    (b"#a(", b"#("),
    (b"1(", b"n("),
    (b"((", b"(("),
    (b"+ - --1 1a +1 -0 1 007", b"xxxxnnnn"),
    (b"a,b:c", b"x,x:x"),
    (b"#", b""),
    (b"1 # one\n2", b"nn"),
    (b"1 # to the end", b"n"),
    (b"1 #", b"n"),
    (b"1 # ", b"n"),
    (b"1 #\n", b"n"),
    (b"1#\n2", b"nn"),
    (b"# \x80\xFF any bytes \"\n1", b"n"),
    (b"#LET #1 #_ #?", b"####"),
    (b"\"\"", b"\""),
    (b"\"a\\\"b\\\\\" x", b"\"x"),
    (b"\"\\n\\t\"", b"\""),
    (b"-1073741824 1073741823", b"nn"),
    (b"LETx let", b"xx"),
    (b"__ ?? _?", b"xxx"),
];

#[test]
fn kinds_of_tokens(rt: HostRuntime) {
    for row in KINDS.iter() {
        assert!(rt; has_kinds(rt.alloc(), row.0, row.1));
    }
}

const REFUSALS: [(&[u8], u32, LexCause); 32] = [
    (b"SEND 1073741824 TO println", 5, LexCause::NumberRange),
    (b"-1073741825", 0, LexCause::NumberRange),
    (b"AFTER", 0, LexCause::NotInProfile),
    (b"a IN", 2, LexCause::NotInProfile),
    (b"a\x80", 1, LexCause::BadByte),
    (b"\x7F", 0, LexCause::BadByte),
    (b"\x00", 0, LexCause::BadByte),
    (b"1 #(", 2, LexCause::BadByte),
    (b"##", 0, LexCause::BadByte),
    (b"#\x80", 1, LexCause::BadByte),
    (b"a \"b", 2, LexCause::BadText),
    (b"\"a\\\"", 0, LexCause::BadText),
    (b"\"\x80", 0, LexCause::BadText),
    (b"\"a\\q\"", 2, LexCause::BadText),
    (b"\"\x1F\"", 1, LexCause::BadText),
    (b"\"\x7F\"", 1, LexCause::BadText),
    (b"\"a\n\"", 2, LexCause::BadText),
    (b"\"\x80\"", 1, LexCause::BadText),
    (b"\"\xC0\x80\"", 1, LexCause::BadText),
    (b"\"\xC2\"", 1, LexCause::BadText),
    (b"\"\xC1\xBF\"", 1, LexCause::BadText),
    (b"\"\xDF\xC0\"", 1, LexCause::BadText),
    (b"\"\xE0\x9F\xBF\"", 1, LexCause::BadText),
    (b"\"\xED\xA0\x80\"", 1, LexCause::BadText),
    (b"\"\xED\xBF\xBF\"", 1, LexCause::BadText),
    (b"\"\xF0\x8F\xBF\xBF\"", 1, LexCause::BadText),
    (b"\"\xF4\x90\x80\x80\"", 1, LexCause::BadText),
    (b"\"a\xF0\x9F\x98\"", 2, LexCause::BadText),
    (b"\"\xF5\x80\x80\x80\"", 1, LexCause::BadText),
    (b"\"\xC2\x9F\x80\"", 3, LexCause::BadText),
    (b"1 \x80 AFTER", 2, LexCause::BadByte),
    (b"1073741824 \x80", 0, LexCause::NumberRange),
];

#[test]
fn refusals(rt: HostRuntime) {
    for row in REFUSALS.iter() {
        assert!(rt; is_refused(rt.alloc(), row.0, row.1, row.2));
    }
}

// The first and last code points of each length in UTF-8, and those beside the surrogates.
const EDGES: [(&[u8], char); 8] = [
    (b"\"\xC2\x80\"", '\u{80}'),
    (b"\"\xDF\xBF\"", '\u{7FF}'),
    (b"\"\xE0\xA0\x80\"", '\u{800}'),
    (b"\"\xED\x9F\xBF\"", '\u{D7FF}'),
    (b"\"\xEE\x80\x80\"", '\u{E000}'),
    (b"\"\xEF\xBF\xBF\"", '\u{FFFF}'),
    (b"\"\xF0\x90\x80\x80\"", '\u{10000}'),
    (b"\"\xF4\x8F\xBF\xBF\"", '\u{10FFFF}'),
];

#[test]
fn edges_of_utf8(rt: HostRuntime) {
    for row in EDGES.iter() {
        assert!(rt; holds(rt.alloc(), row.0, row.1));
    }
}

// A text of one part, written so many times behind a front.
fn repeated(alloc: Global, front: &[u8], part: &[u8], count: usize) -> Result<Vec<u8>, AllocError> {
    let mut text = Vec::from_slice(alloc, front)?;
    for _turn in 0..count {
        text.extend_from_slice(part)?;
    }
    Ok(text)
}

fn has_tokens(alloc: Global, text: &[u8], count: usize) -> bool {
    match tokens_of(alloc, text) {
        Ok(tokens) => tokens.len() == count,
        Err(_) => false,
    }
}

// Runs of 128 bytes, and where they are refused with a byte more.
const RUNS: [(&[u8], &[u8], u32); 3] = [(b"", b"0", 0), (b"", b"x", 0), (b"#", b"x", 1)];

#[test]
fn longest_runs(rt: HostRuntime) -> Result<(), Fail> {
    let alloc = rt.alloc();
    for row in RUNS.iter() {
        let text = repeated(alloc, row.0, row.1, 128)?;
        assert!(rt; has_tokens(alloc, &text, 1));
        let longer = repeated(alloc, row.0, row.1, 129)?;
        assert!(rt; is_refused(alloc, &longer, row.2, LexCause::RunTooLong));
    }
    Ok(())
}

// How many tokens of a kind are light enough, and where one more is refused: marks, names, symbols and texts.
const WEIGHTS: [(&[u8], usize, u32); 4] = [
    (b",", 16000, 16000),
    (b"name ", 16000, 80000),
    (b"#a ", 8000, 24000),
    (b"\"\xC2\x80\"", 8000, 32000),
];

#[test]
fn largest_weights(rt: HostRuntime) -> Result<(), Fail> {
    let alloc = rt.alloc();
    for row in WEIGHTS.iter() {
        let text = repeated(alloc, b"", row.0, row.1)?;
        assert!(rt; has_tokens(alloc, &text, row.1));
        let heavier = repeated(alloc, &text, row.0, 1)?;
        assert!(rt; is_refused(alloc, &heavier, row.2, LexCause::TooLarge));
    }
    Ok(())
}

fn has_spans(alloc: Global, text: &[u8], spans: &[(u32, u32)]) -> bool {
    let Ok(tokens) = tokens_of(alloc, text) else {
        return false;
    };
    let mut same = tokens.len() == spans.len();
    for (token, span) in tokens.iter().zip(spans.iter()) {
        same = same && token.from == span.0 && token.to == span.1;
    }
    same
}

const SPANS: [(&[u8], &[(u32, u32)]); 3] = [
    (
        b" LET f(x)\n= 1 # c",
        &[(1, 4), (5, 6), (6, 7), (7, 8), (8, 9), (10, 11), (12, 13)],
    ),
    (b"\"\xC2\x80\\n\" #ab", &[(0, 6), (7, 10)]),
    (b"#c\n-12", &[(0, 2), (3, 6)]),
];

#[test]
fn spans(rt: HostRuntime) {
    for row in SPANS.iter() {
        assert!(rt; has_spans(rt.alloc(), row.0, row.1));
    }
}
