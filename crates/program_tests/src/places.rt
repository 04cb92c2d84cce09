//! Where the code of a program stands in its image, against numbers that were counted by hand in the table of templates.

use hum_emit::emit;
use hum_sim::{Compiled, compile};
use std::alloc::{AllocError, Global};
use std::test::Fail;
use uasm_read::{Item, Module};

// Each label with its ROM number. Before unit 0 stand the 16 constants and the 17 instructions of the first event. The units follow in
// their order, then the 168 instructions of the built-in functions and the 36 of the comparison, and then the routine `apply`.
const PLACES: [(&[u8], &[(&[u8], u32)]); 4] = [
    // A block ends with 2 instructions.
    (b"", &[(b"u0", 33), (b"apply", 33 + 2 + 204)]),
    // A `SEND` has 6 beside those of its value and its target, which have 2 and 1.
    (
        b"SEND 42 TO println",
        &[(b"u0", 33), (b"apply", 33 + 11 + 204)],
    ),
    // The group has 2 and the call 9. The function has 13, of which 9 match its argument.
    (
        b"LET f(x) = x SEND f(42) TO println",
        &[(b"u0", 33), (b"u1", 33 + 20), (b"apply", 53 + 13 + 204)],
    ),
    // The `IF` has 15, and 2 more as a statement. The block that it lacks is the last unit.
    (
        b"IF TRUE [ ]",
        &[
            (b"u0", 33),
            (b"u1", 33 + 19),
            (b"u2", 52 + 2),
            (b"apply", 54 + 2 + 204),
        ],
    ),
];

// The module of a program.
fn module_of(alloc: Global, compiled: &Compiled) -> Result<Module, AllocError> {
    let _image = compiled.image();
    emit(alloc, compiled.program())
}

fn has_label(item: &Item, label: &[u8]) -> bool {
    for name in item.labels.as_slice().iter() {
        if name.bytes() == label {
            return true;
        }
    }
    false
}

// The ROM number of the item with that label, where the module is linked alone.
fn number_of(module: &Module, label: &[u8]) -> Option<usize> {
    for (i, item) in module.items().iter().enumerate() {
        if has_label(item, label) {
            return i.checked_add(16);
        }
    }
    None
}

#[test]
fn code_stands_at_its_places(rt: HostRuntime) -> Result<(), Fail> {
    let alloc = rt.alloc();
    for (text, labels) in PLACES.iter() {
        let Ok(compiled) = compile(alloc, text) else {
            return Err(Fail::new("the text is refused"));
        };
        let module = module_of(alloc, &compiled)?;
        let places = compiled.places();
        assert_eq!(rt; places.len(), labels.len());
        for (place, (label, number)) in places.iter().zip(labels.iter()) {
            assert_eq!(rt; *place, *number);
            assert_eq!(rt; number_of(&module, label), Some(*number as usize));
        }
    }
    Ok(())
}
