use cap_words::*;
use std::test::Fail;

#[test]
fn words_are_spelled_by_their_bits(rt: HostRuntime) {
    assert_eq!(rt; Word::number_word(42).bits(), 0x8000_002A);
    assert_eq!(rt; Word::number_word(-1).bits(), 0xFFFF_FFFF);
    assert_eq!(rt; Word::number_word(-0x4000_0000).bits(), 0xC000_0000);
    assert_eq!(rt; Word::ram(5).bits(), 0x2000_0005);
    assert_eq!(rt; Word::cap(5).bits(), 0x6000_0005);
    assert_eq!(rt; Word::UNDEF.bits(), 0);
    assert_eq!(rt; Word::NIL.bits(), 1);
    assert_eq!(rt; Word::truth(false).bits(), 2);
    assert_eq!(rt; Word::truth(true).bits(), 3);
    assert_eq!(rt; Word::TYPE_T.bits(), 4);
    assert_eq!(rt; Word::PAIR_T.bits(), 10);
    assert_eq!(rt; Word::BLOCK_T.bits(), 15);
    for (n, bits) in [
        (0x3FFF_FFFF, Some(0xBFFF_FFFF)),
        (0x4000_0000, None),
        (-0x4000_0001, None),
    ] {
        assert_eq!(rt; Word::fix(n).map(|w| w.bits()), bits, "at {n}");
    }
}

#[test]
fn bits_of_rom_words_are_read(rt: HostRuntime) {
    let rows = [
        (0, Kind::Const, None, Some(0)),
        (15, Kind::Const, None, Some(15)),
        (16, Kind::Rom, None, Some(16)),
        (0x1FFF_FFFF, Kind::Rom, None, Some(0x1FFF_FFFF)),
        (0x8000_0000, Kind::Fix, Some(0), None),
        (0xBFFF_FFFF, Kind::Fix, Some(1_073_741_823), None),
        (0xC000_0000, Kind::Fix, Some(-1_073_741_824), None),
    ];
    for (bits, kind, number, place) in rows {
        let w = Word::rom_bits(bits).expect(&rt, "a ROM word");
        assert_eq!(rt; w.kind(), kind, "at {bits}");
        assert_eq!(rt; w.number(), number, "at {bits}");
        assert_eq!(rt; w.place(), place, "at {bits}");
    }
    for bits in [
        0x2000_0000,
        0x3FFF_FFFF,
        0x4000_0000,
        0x5FFF_FFFF,
        0x6000_0000,
        0x7FFF_FFFF,
    ] {
        assert!(rt; Word::rom_bits(bits).is_none(), "at {bits}");
    }
    assert_eq!(rt; Word::ram(7).kind(), Kind::Ram);
    assert_eq!(rt; Word::cap(7).kind(), Kind::Cap);
    assert_eq!(rt; Word::cap(7).place(), Some(7));
}

#[test]
fn arithmetic_wraps(rt: HostRuntime) {
    assert_eq!(rt; wrap_mul(65536, 65536), 0);
    assert_eq!(rt; wrap_mul(32768, 32768), -1_073_741_824);
    assert_eq!(rt; wrap_add(1_073_741_823, 1), -1_073_741_824);
    assert_eq!(rt; wrap_sub(-1_073_741_824, 1), 1_073_741_823);
    assert_eq!(rt; (compare(-1, 0), compare(3, 3), compare(4, 3)), (-1, 0, 1));
}

#[test]
fn names_have_1_to_128_visible_bytes(rt: HostRuntime) -> Result<(), Fail> {
    let rows = [
        (0, b'a', false),
        (1, b'a', true),
        (128, b'a', true),
        (129, b'a', false),
        (3, 32, false),
        (3, 33, true),
        (3, 126, true),
        (3, 127, false),
    ];
    for (length, byte, is_name) in rows {
        let name = Name::new(vec![in rt.alloc(); byte; length]?);
        assert_eq!(rt;
            name.map(|name| name.bytes().len()),
            if is_name { Some(length) } else { None },
            "{length} times {byte}"
        );
    }
    Ok(())
}
