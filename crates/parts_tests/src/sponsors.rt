ghost use Rattle.cap_words.specs.Frame.{Among};
ghost use Rattle.vm_sponsor.specs.Ledger.{names};
ghost use Rattle.vm_sponsor.specs.Sheets.{Belongs};

use cap_words::{Quad, Word};
use instr_table::{Charge, Quota};
use quad_memory::{Image, Quads};
use std::alloc::Global;
use std::process::Abort;
use std::test::Fail;
use vm_sponsor::{Grant, NoMemory, RanOut, Running, Sheet, Short};

// An image of one cell.
fn image(alloc: Global) -> Result<Option<Image>, NoMemory> {
    let end = Quad {
        t: Word::INSTR_T,
        x: Word::UNDEF,
        y: Word::UNDEF,
        z: Word::UNDEF,
    };
    let boot = Word::rom_bits(16);
    let mut cells = Vec::new(alloc);
    cells.push(end)?;
    match boot {
        Some(word) => Ok(Image::new(word, cells)),
        None => Ok(None),
    }
}

// The sponsor of that number.
#[tactic(auto, using(crate::proofs::Named::shown_row_is_named))]
fn sponsor(rt: &impl Abort, sheet: &Sheet, quads: &Quads, k: u32) -> Word
    requires { Belongs quads.now.store sheet.now }
    ensures { Among result (names sheet.now.rows) }
{
    sheet.row(quads, k).expect(rt, "a row").sponsor
}

// What a sponsor holds.
fn held(rt: &impl Abort, sheet: &Sheet, quads: &Quads, k: u32) -> (u64, u64, u64)
    requires { Belongs quads.now.store sheet.now }
{
    let row = sheet.row(quads, k).expect(rt, "a row");
    (row.held.memory, row.held.events, row.held.cycles)
}

#[test]
fn amounts_move_between_sponsors(rt: HostRuntime) -> Result<(), Fail> {
    let image = image(rt.alloc())?.expect(&rt, "an image");
    let mut quads = Quads::with_room(rt.alloc(), &image, 4)?;
    let grant = Grant::new(10, 10, 10).expect(&rt, "a grant");
    let mut sheet = Sheet::with_root(rt.alloc(), 2, &mut quads, grant)?;
    let made = sheet.make(&mut quads);
    assert!(rt; made.is_some());
    let root = sponsor(&rt, &sheet, &quads, 0);
    let child = sponsor(&rt, &sheet, &quads, 1);
    let given = sheet.grant(&mut quads, root, child, Quota::Memory, 4);
    assert_eq!(rt; given, Ok(()));
    assert_eq!(rt; held(&rt, &sheet, &quads, 0), (6, 10, 10));
    assert_eq!(rt; held(&rt, &sheet, &quads, 1), (4, 0, 0));
    let root = sponsor(&rt, &sheet, &quads, 0);
    let child = sponsor(&rt, &sheet, &quads, 1);
    let short = sheet.grant(&mut quads, root, child, Quota::Memory, 7);
    assert_eq!(rt; short, Err(Short { held: 6 }));
    let root = sponsor(&rt, &sheet, &quads, 0);
    let itself = sheet.grant(&mut quads, root, root, Quota::Memory, 6);
    assert_eq!(rt; itself, Ok(()));
    assert_eq!(rt; held(&rt, &sheet, &quads, 0), (6, 10, 10));
    assert_eq!(rt; held(&rt, &sheet, &quads, 1), (4, 0, 0));
    let child = sponsor(&rt, &sheet, &quads, 1);
    assert_eq!(rt; sheet.held(&quads, child, Quota::Memory), 4);
    assert_eq!(rt; sheet.held(&quads, Word::NIL, Quota::Memory), 0);
    Ok(())
}

#[test]
fn sponsors_pay_start_and_stop(rt: HostRuntime) -> Result<(), Fail> {
    let image = image(rt.alloc())?.expect(&rt, "an image");
    let mut quads = Quads::with_room(rt.alloc(), &image, 6)?;
    let grant = Grant::new(10, 10, 10).expect(&rt, "a grant");
    let mut sheet = Sheet::with_root(rt.alloc(), 2, &mut quads, grant)?;
    assert!(rt; sheet.make(&mut quads).is_some());
    let root = sponsor(&rt, &sheet, &quads, 0);
    let charge = Charge {
        quads: 2,
        events: 11,
    };
    let paid = sheet.spend(&mut quads, root, charge);
    assert_eq!(rt;
        paid,
        Err(RanOut {
            kind: Quota::Events
        })
    );
    let root = sponsor(&rt, &sheet, &quads, 0);
    let charge = Charge {
        events: 3,
        ..charge
    };
    let paid = sheet.spend(&mut quads, root, charge);
    assert_eq!(rt; paid, Ok(()));
    assert_eq!(rt; held(&rt, &sheet, &quads, 0), (8, 7, 9));
    let child = sponsor(&rt, &sheet, &quads, 1);
    let signal = Word::cap(0);
    let started = sheet.start(&mut quads, child, signal);
    assert_eq!(rt; started, Ok(()));
    let child = sponsor(&rt, &sheet, &quads, 1);
    assert!(rt; sheet.running(&quads, child));
    let again = sheet.start(&mut quads, child, signal);
    assert_eq!(rt; again, Err(Running));
    let child = sponsor(&rt, &sheet, &quads, 1);
    let stopped = sheet.stop(&mut quads, child);
    assert!(rt; stopped == Some(signal));
    let root = sponsor(&rt, &sheet, &quads, 0);
    let child = sponsor(&rt, &sheet, &quads, 1);
    sheet.reclaim(&mut quads, root, child);
    assert_eq!(rt; held(&rt, &sheet, &quads, 0), (0, 0, 0));
    assert_eq!(rt; held(&rt, &sheet, &quads, 1), (8, 7, 9));
    Ok(())
}
