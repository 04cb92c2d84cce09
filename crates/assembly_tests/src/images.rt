use std::alloc::Global;
use std::test::Fail;
use uasm_image::*;

// Two cells. The first one's word 1 and 2 are numbers, and the second one's word 1 names that cell.
const IMAGE: [u8; 44] = [
    0x55, 0x46, 0x51, 0x31, 2, 0, 0, 0, 16, 0, 0, 0, //
    9, 0, 0, 0, 0x15, 0, 0, 0x80, 1, 0, 0, 0x80, 0, 0, 0, 0, //
    10, 0, 0, 0, 17, 0, 0, 0, 1, 0, 0, 0, 0, 0, 0, 0,
];

// The image of one instruction, `end commit`.
const END_COMMIT: [u8; 28] = [
    0x55, 0x46, 0x51, 0x31, 1, 0, 0, 0, 16, 0, 0, 0, //
    9, 0, 0, 0, 0x15, 0, 0, 0x80, 1, 0, 0, 0x80, 0, 0, 0, 0,
];

const fn refused(at: u32, cause: ImageCause) -> Option<DecodeError> {
    Some(DecodeError::Refused(ImageRefused { at, cause }))
}

#[test]
fn the_image_of_one_cell_has_28_bytes(rt: HostRuntime) -> Result<(), Fail> {
    let alloc = rt.alloc();
    let image = decode(alloc, &END_COMMIT).ok().ok_or("an image")?;
    assert_eq!(rt; image.boot().bits(), 16);
    assert_eq!(rt; image.cells().len(), 1);
    for cell in image.cells() {
        assert_eq!(rt; cell.t.bits(), 9);
        assert_eq!(rt; cell.x.number(), Some(21));
        assert_eq!(rt; cell.y.number(), Some(1));
        assert_eq!(rt; cell.z.bits(), 0);
    }
    assert_eq!(rt; encode(alloc, &image)?.as_slice(), END_COMMIT.as_slice());
    Ok(())
}

#[test]
fn each_front_of_the_image_of_one_cell_is_truncated(rt: HostRuntime) {
    let alloc = rt.alloc();
    for len in 0..28 {
        let front = &END_COMMIT[..len];
        assert_eq!(rt;
            decode(alloc, front).err(),
            refused(len as u32, ImageCause::Truncated)
        );
    }
}

#[test]
fn an_image_cut_or_continued_is_refused(rt: HostRuntime) -> Result<(), Fail> {
    let alloc = rt.alloc();
    for len in 0..44 {
        let cut = &IMAGE[..len];
        assert_eq!(rt;
            decode(alloc, cut).err(),
            refused(len as u32, ImageCause::Truncated)
        );
    }
    let mut bytes = Vec::from_slice(alloc, &IMAGE)?;
    for _ in 0..5 {
        assert_eq!(rt; decode(alloc, &bytes).err().is_none(), bytes.len() == 44);
        bytes.push(0)?;
        assert_eq!(rt; decode(alloc, &bytes).err(), refused(44, ImageCause::Extra));
    }
    Ok(())
}

#[test]
fn a_changed_byte_is_told_at_its_number(rt: HostRuntime) {
    let alloc = rt.alloc();
    // Bytes, of which one has another bit 6, and what comes of it.
    let rows = [
        (0, 4, refused(0, ImageCause::Magic)),
        (4, 6, refused(44, ImageCause::Truncated)),
        (6, 8, refused(4, ImageCause::Count)),
        (8, 12, refused(8, ImageCause::Word)),
        (12, 16, refused(12, ImageCause::Word)),
        (16, 24, None),
        (24, 28, refused(24, ImageCause::Word)),
        (28, 32, refused(28, ImageCause::Word)),
        (32, 36, refused(32, ImageCause::Word)),
        (36, 40, refused(36, ImageCause::Word)),
        (40, 44, refused(40, ImageCause::Word)),
    ];
    for (from, to, expected) in rows {
        for at in from..to {
            let mut bytes = IMAGE;
            if let Some(byte) = bytes.get_mut(at) {
                *byte ^= 0x40;
            }
            assert_eq!(rt; decode(alloc, &bytes).err(), expected, "byte {at}");
        }
    }
}

// Whether bytes are refused at a place among them, or are those of the image that they are read as.
fn is_answered(alloc: Global, bytes: &[u8]) -> Result<bool, Fail> {
    match decode(alloc, bytes) {
        Ok(image) => Ok(encode(alloc, &image)?.as_slice() == bytes),
        Err(DecodeError::Refused(why)) => Ok(why.at as usize <= bytes.len()),
        Err(DecodeError::NoMemory) => Ok(false),
    }
}

#[test]
fn each_byte_may_have_any_value(rt: HostRuntime) -> Result<(), Fail> {
    let alloc = rt.alloc();
    for at in 0..44 {
        for value in 0..=255 {
            let mut bytes = IMAGE;
            if let Some(byte) = bytes.get_mut(at) {
                *byte = value;
            }
            assert!(rt; is_answered(alloc, &bytes)?, "{value} at {at}");
        }
    }
    Ok(())
}

#[test]
fn numbers_keep_their_rules(rt: HostRuntime) {
    let alloc = rt.alloc();
    // A place, the number that is put there, and what comes of it.
    let rows = [
        (0, 0x3251_4655, refused(0, ImageCause::Magic)),
        (4, 0, refused(4, ImageCause::Count)),
        (4, 1, refused(28, ImageCause::Extra)),
        (4, 1_048_560, refused(44, ImageCause::Truncated)),
        (4, 1_048_561, refused(4, ImageCause::Count)),
        (8, 15, refused(8, ImageCause::Word)),
        (8, 17, None),
        (8, 18, refused(8, ImageCause::Word)),
        (8, 0x8000_0010, refused(8, ImageCause::Word)),
        (12, 17, None),
        (12, 18, refused(12, ImageCause::Word)),
        (12, 0x1FFF_FFFF, refused(12, ImageCause::Word)),
        (12, 0x2000_0000, refused(12, ImageCause::Word)),
        (12, 0x4000_0000, refused(12, ImageCause::Word)),
        (12, 0x7FFF_FFFF, refused(12, ImageCause::Word)),
        (12, 0x8000_0000, None),
        (40, 0xFFFF_FFFF, None),
        (40, 0x6000_0000, refused(40, ImageCause::Word)),
    ];
    for (at, number, expected) in rows {
        let mut bytes = IMAGE;
        put(&mut bytes, at, number);
        assert_eq!(rt; decode(alloc, &bytes).err(), expected, "{number} at {at}");
    }
}

fn put(bytes: &mut [u8], at: usize, number: u32) {
    for (i, byte) in number.to_le_bytes().into_iter().enumerate() {
        if let Some(old) = at.checked_add(i).and_then(|place| bytes.get_mut(place)) {
            *old = byte;
        }
    }
}

#[test]
fn the_front_of_a_number_is_not_judged(rt: HostRuntime) {
    let alloc = rt.alloc();
    let rows = [
        (b"".as_slice(), refused(0, ImageCause::Truncated)),
        (b"UFQ", refused(3, ImageCause::Truncated)),
        (b"UX", refused(0, ImageCause::Magic)),
        (b"UFQ1\xFF\xFF\xFF", refused(7, ImageCause::Truncated)),
        (b"UFQ1\x01\0\0\0\xFF", refused(9, ImageCause::Truncated)),
        (
            b"UFQ1\x01\0\0\0\x10\0\0\0\xFF\xFF\xFF",
            refused(15, ImageCause::Truncated),
        ),
    ];
    for (bytes, expected) in rows {
        assert_eq!(rt; decode(alloc, bytes).err(), expected);
    }
}
