//! Worked texts: what each assembles to, and where it is refused.

use std::alloc::Global;
use std::test::Fail;
use uasm_read::{
    Module, Operand, ReadModuleError, UasmCause, lines_spell_operations, operations_have_lines,
    read_module, write_module,
};

// The two sponsors: `boot` starts one that runs out of cycles.
const SPIN: &[u8] = b".export boot
boot:
 sponsor new
 push 1000
 sponsor memory
 push 50
 sponsor cycles
 dup 1
 my self
 sponsor start
 push 0
 roll -2
 push #nil
 push spin
 actor create
 roll 2
 actor post
 my state
 push ctl
 actor become
 end commit
ctl:
 msg 0
 state 1
 actor send
 end commit
spin:
 debug
 ref spin
";

fn read(alloc: Global, text: &[u8]) -> Result<Module, ReadModuleError> {
    if text.len() < 10_000_000 {
        read_module(alloc, text)
    } else {
        Err(ReadModuleError::NoMemory)
    }
}

fn is_refused(alloc: Global, text: &[u8], line: u32, cause: UasmCause) -> bool {
    match read(alloc, text) {
        Err(ReadModuleError::Refused(why)) => why.line == line && why.cause == cause,
        _ => false,
    }
}

const REFUSALS: [(&[u8], u32, UasmCause); 44] = [
    (b"debug\nfrob 1", 2, UasmCause::NoOperation),
    (b"end commit\n9x", 2, UasmCause::BadLine),
    (b"end commit ; \xC3\xA9", 1, UasmCause::BadLine),
    (b"end commit\r", 1, UasmCause::BadOperand),
    (b"a : debug", 1, UasmCause::NoOperation),
    (b"a: debug", 1, UasmCause::BadLine),
    (b"9:", 1, UasmCause::BadLine),
    (b":", 1, UasmCause::BadLine),
    (b".import", 1, UasmCause::BadLine),
    (b".import a b", 1, UasmCause::BadLine),
    (b".export 7", 1, UasmCause::BadLine),
    (b".bss", 1, UasmCause::BadLine),
    (b"end commit\na:", 2, UasmCause::BadLine),
    (b"end commit\na:\na:\n", 2, UasmCause::BadLine),
    (b"boot:\n frob 1", 2, UasmCause::NoOperation),
    (b"a:\npush", 2, UasmCause::BadOperand),
    (b"a:\n.export 7", 2, UasmCause::BadLine),
    (b"end commit\na:\nb: x", 3, UasmCause::BadLine),
    (b"a:\npush\nend commit", 2, UasmCause::BadOperand),
    (b"ref a", 1, UasmCause::BadLine),
    (b"ref", 1, UasmCause::BadLine),
    (b"a:\ndebug\nref a\nref a", 4, UasmCause::BadLine),
    (
        b"end commit\nb:\nref b\ndebug\nref b",
        3,
        UasmCause::BadLine,
    ),
    (b"end commit\n.export a\nref a", 3, UasmCause::BadLine),
    (b"debug\nref", 2, UasmCause::BadOperand),
    (b"debug\nref 9", 2, UasmCause::BadOperand),
    (b"debug\nref a b", 2, UasmCause::BadOperand),
    (b"push 1073741824", 1, UasmCause::BadOperand),
    (b"push -1073741825", 1, UasmCause::BadOperand),
    (b"push +1", 1, UasmCause::BadOperand),
    (b"push #none", 1, UasmCause::BadOperand),
    (b"push a.b", 1, UasmCause::BadOperand),
    (b"dup 16", 1, UasmCause::BadOperand),
    (b"dup a", 1, UasmCause::BadOperand),
    (b"roll 0", 1, UasmCause::BadOperand),
    (b"depth 1", 1, UasmCause::BadOperand),
    (b"alu div", 1, UasmCause::BadOperand),
    (b"pair_t 1", 1, UasmCause::BadOperand),
    (b"cell 1 2 3 4 5", 1, UasmCause::BadOperand),
    (b".import a\na:\npair_t 1 1", 2, UasmCause::Twice),
    (b"a:\npair_t 1 1\na:\npair_t 1 1", 3, UasmCause::Twice),
    (b"debug\nend commit\npush b", 3, UasmCause::Unknown),
    (b".import a\n.export a", 2, UasmCause::Unknown),
    (
        b"end commit\ndebug ; then\n\npair_t 1 #nil",
        2,
        UasmCause::FallsOff,
    ),
];

#[test]
fn refusals(rt: HostRuntime) {
    for row in REFUSALS.iter() {
        assert!(rt; is_refused(rt.alloc(), row.0, row.1, row.2));
    }
}

// Whether a text has so many items, and this as the second and third word of the first one.
fn has_first(alloc: Global, text: &[u8], count: usize, number: i32, operand: i32) -> bool {
    let Ok(module) = read(alloc, text) else {
        return false;
    };
    let [first, ..] = module.items() else {
        return false;
    };
    let [_, x, y, _] = &first.cell;
    module.items().len() == count
        && matches!(x, Operand::Fix(n) if *n == number)
        && matches!(y, Operand::Fix(n) if *n == operand)
}

const LINES: [(&[u8], i32, i32); 34] = [
    (b"push -0007", 0, -7),
    (b"push 1073741823", 0, 1073741823),
    (b"push -1073741824", 0, -1073741824),
    (b"dup 0", 1, 0),
    (b"drop 4095", 2, 4095),
    (b"pick 1", 3, 1),
    (b"roll -15", 4, -15),
    (b"pair 15", 6, 15),
    (b"part 1", 7, 1),
    (b"nth -4095", 8, -4095),
    (b"quad 4", 9, 4),
    (b"quad -4", 9, -4),
    (b"get 3", 10, 3),
    (b"typeq 5", 11, 5),
    (b"eq 5", 12, 5),
    (b"cmp eq", 13, 0),
    (b"cmp ne", 13, 5),
    (b"alu not", 14, 0),
    (b"alu mul", 14, 6),
    (b"if 0", 15, 0),
    (b"msg 4095", 17, 4095),
    (b"state -1", 18, -1),
    (b"my state", 19, 2),
    (b"actor become", 20, 4),
    (b"end abort", 21, -1),
    (b"end commit", 21, 1),
    (b"dict del", 22, 4),
    (b"deque len", 23, 6),
    (b"sponsor stop", 24, 6),
    (b"assert 1", 25, 1),
    (b"\t actor\tsend \t; to it", 20, 0),
    (b"debug:\nactor post", 20, 1),
    (b"my self\n\n; nothing\nref here\nhere:", 19, 0),
    (b"cell #instr_t 21 1 -1", 21, 1),
];

#[test]
fn operations(rt: HostRuntime) -> Result<(), Fail> {
    for row in LINES.iter() {
        let mut text = Vec::from_slice(rt.alloc(), row.0)?;
        text.extend_from_slice(b"\nend stop\r\n")?;
        assert!(rt; has_first(rt.alloc(), &text, 2, row.1, row.2));
    }
    Ok(())
}

#[test]
fn modules(rt: HostRuntime) -> Result<(), Fail> {
    let module = read(rt.alloc(), SPIN).ok().expect(&rt, "a module");
    assert_eq!(rt; module.imports().len(), 0);
    assert_eq!(rt; module.exports().len(), 1);
    assert_eq!(rt; module.items().len(), 24);
    let last = module.items().last().expect(&rt, "an item");
    assert!(rt;
        matches!(&last.cell[3], Operand::Label(name) if name.bytes() == b"spin".as_slice())
    );
    let (imports, exports, items) = module.into_parts();
    assert!(rt; imports.into_vec().is_empty());
    assert_eq!(rt; exports.into_vec().len(), 1);
    assert_eq!(rt; items.into_vec().len(), 24);
    let mut long = Vec::from_slice(rt.alloc(), b"end commit\n")?;
    long.resize(1_048_576, b';')?;
    assert!(rt; read(rt.alloc(), &long).is_ok());
    long.push(b';')?;
    assert!(rt; is_refused(rt.alloc(), &long, 1, UasmCause::TooLong));
    Ok(())
}

// Texts, and what their modules are written as.
const WRITTEN: [(&[u8], &[u8]); 12] = [
    (b"", b""),
    (b"; nothing\n\n", b""),
    (
        b"a: ; first\n .export a\n\tpush\t-007\r\n\nref a\n.import b",
        b".import b\n.export a\na:\npush -7\nref a\n",
    ),
    (
        b"a:\nb:\n depth\n eq #block_t\n jump",
        b"a:\nb:\ndepth\neq #block_t\njump\n",
    ),
    (
        b"roll -2\nalu mul\nend abort",
        b"roll -2\nalu mul\nend abort\n",
    ),
    (b"cell #instr_t 21 -1 #?", b"end abort\n"),
    (b"cell #instr_t 21 -1 0", b"cell #instr_t 21 -1 0\n"),
    (b"a: \ncell #instr_t 16 #? a", b"a:\njump\nref a\n"),
    (
        b"a:\ncell #instr_t 0 a a\ncell #instr_t 0 a #?",
        b"a:\npush a\nref a\ncell #instr_t 0 a #?\n",
    ),
    (
        b"a:\ncell #instr_t 1 16 a\ncell #instr_t 27 0 a",
        b"a:\ncell #instr_t 1 16 a\ncell #instr_t 27 0 a\n",
    ),
    (
        b"cell #pair_t 1 #nil #?\ncell #pair_t 1 2 3",
        b"pair_t 1 #nil\ncell #pair_t 1 2 3\n",
    ),
    (
        b"push ref\nend stop\nref:\npair_t 1 1",
        b"push ref\nend stop\nref:\npair_t 1 1\n",
    ),
];

#[test]
fn written_texts(rt: HostRuntime) -> Result<(), Fail> {
    for row in WRITTEN.iter() {
        let module = read(rt.alloc(), row.0).ok().expect(&rt, "a module");
        assert_eq!(rt; write_module(rt.alloc(), &module)?.as_slice(), row.1);
    }
    Ok(())
}

#[test]
fn laws_have_no_body(_rt: HostRuntime) {
    lines_spell_operations();
    operations_have_lines();
}
