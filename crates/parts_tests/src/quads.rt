ghost use Rattle.std.specs.Prelude.{◌<◌};

use cap_words::{Quad, Word};
use quad_memory::*;
use std::alloc::Global;
use std::process::Abort;
use std::test::Fail;

const PAIR: Quad = Quad {
    t: Word::PAIR_T,
    x: Word::TRUE,
    y: Word::NIL,
    z: Word::UNDEF,
};

const ACTOR: ActorCell = ActorCell {
    code: Word::TRUE,
    state: Word::FALSE,
    mark: Word::UNDEF,
};

const EVENT: EventCell = EventCell {
    sponsor: Word::TRUE,
    target: Word::FALSE,
    message: Word::NIL,
    next: Word::UNDEF,
};

const SPONSOR: SponsorCell = SponsorCell {
    signal: Word::NIL,
    memory: Word::TYPE_T,
    events: Word::FIXNUM_T,
    cycles: Word::ACTOR_T,
    memory_spent: Word::SPONSOR_T,
    events_spent: Word::EVENT_T,
    cycles_spent: Word::INSTR_T,
};

const STOPPED: SponsorCell = SponsorCell {
    signal: Word::UNDEF,
    cycles_spent: Word::NIL,
    ..SPONSOR
};

const GIVEN: ActorCell = ActorCell {
    state: Word::NIL,
    ..ACTOR
};

const LINKED: EventCell = EventCell {
    next: Word::TRUE,
    ..EVENT
};

fn rom(rt: &impl Abort, n: u32) -> Word {
    Word::rom_bits(n).expect(rt, "a ROM word")
}

// Quads over an image of one cell.
fn quads(rt: &impl Abort, alloc: Global, ram: u32) -> Result<Quads, NoMemory>
    requires { ram < 100 }
{
    let image = Image::new(rom(rt, 16), vec![in alloc; PAIR]?).expect(rt, "an image");
    Quads::with_room(alloc, &image, ram)
}

#[test]
fn images_keep_their_rules(rt: HostRuntime) -> Result<(), Fail> {
    let alloc = rt.alloc();
    // One cell: the boot word is 16, and words are fixnums or below 17.
    let rows = [
        (1, rom(&rt, 16), Word::number_word(-1), true),
        (1, rom(&rt, 16), rom(&rt, 16), true),
        (1, rom(&rt, 16), rom(&rt, 17), false),
        (1, rom(&rt, 16), Word::ram(0), false),
        (1, rom(&rt, 16), Word::cap(0), false),
        (1, rom(&rt, 15), Word::NIL, false),
        (1, rom(&rt, 17), Word::NIL, false),
        (1, Word::number_word(16), Word::NIL, false),
        (1, Word::ram(16), Word::NIL, false),
        (0, rom(&rt, 16), Word::NIL, false),
        (3, rom(&rt, 18), rom(&rt, 18), true),
        (1_048_560, rom(&rt, 16), Word::NIL, true),
        (1_048_561, rom(&rt, 16), Word::NIL, false),
    ];
    for (i, (count, boot, z, is_image)) in rows.into_iter().enumerate() {
        let image = Image::new(boot, vec![in alloc; Quad { z, ..PAIR }; count]?);
        assert_eq!(rt; image.is_some(), is_image, "row {i}");
    }
    Ok(())
}

#[test]
fn an_image_has_its_boot_word_and_cells(rt: HostRuntime) -> Result<(), Fail> {
    let image = Image::new(rom(&rt, 16), vec![in rt.alloc(); PAIR]?).expect(&rt, "an image");
    assert!(rt; image.boot() == rom(&rt, 16));
    assert!(rt; image.cells().len() == 1);
    Ok(())
}

#[test]
fn quads_are_taken_until_the_room_is_used(rt: HostRuntime) -> Result<(), Fail> {
    let mut quads = quads(&rt, rt.alloc(), 4)?;
    assert!(rt; quads.put_actor(ACTOR) == Some(Word::cap(0)));
    assert!(rt; quads.put_event(EVENT) == Some(Word::cap(1)));
    assert!(rt; quads.put(PAIR) == Some(Word::ram(2)));
    assert!(rt; quads.put_sponsor(SPONSOR).is_none());
    assert!(rt; quads.put(PAIR) == Some(Word::ram(3)));
    assert!(rt; quads.put(PAIR).is_none());
    assert!(rt; quads.put_actor(ACTOR).is_none());
    assert!(rt; quads.put_event(EVENT).is_none());
    assert_eq!(rt; (quads.used(), quads.room()), (4, 4));
    Ok(())
}

#[test]
fn quads_are_taken_in_room_that_is_there(rt: HostRuntime) -> Result<(), Fail> {
    let mut quads = quads(&rt, rt.alloc(), 5)?;
    assert!(rt; quads.used() < quads.room());
    assert!(rt; quads.take(PAIR) == Word::ram(0));
    assert!(rt; quads.used() < quads.room());
    assert!(rt; quads.take_actor(ACTOR) == Word::cap(1));
    assert!(rt; quads.used() < quads.room());
    assert!(rt; quads.take_event(EVENT) == Word::cap(2));
    let used = quads.used();
    assert!(rt; used < 50 && used + 1 < quads.room());
    assert!(rt; quads.take_sponsor(SPONSOR) == Word::cap(3));
    assert!(rt; quads.used() == 5);
    Ok(())
}

// A sponsor at 0 and 1, an actor at 2, an event at 3, a pair at 4.
fn one_of_each(rt: &impl Abort, alloc: Global) -> Result<Quads, NoMemory> {
    let mut quads = quads(rt, alloc, 6)?;
    quads.put_sponsor(SPONSOR).expect(rt, "room");
    quads.put_actor(ACTOR).expect(rt, "room");
    quads.put_event(EVENT).expect(rt, "room");
    quads.put(PAIR).expect(rt, "room");
    Ok(quads)
}

#[test]
fn a_word_reads_what_it_was_given_for(rt: HostRuntime) -> Result<(), Fail> {
    let quads = one_of_each(&rt, rt.alloc())?;
    let rows = [
        (Word::NIL, None, None, None, None),
        (Word::number_word(4), None, None, None, None),
        (rom(&rt, 16), Some(PAIR), None, None, None),
        (rom(&rt, 17), None, None, None, None),
        (Word::cap(0), None, None, None, Some(SPONSOR)),
        (Word::cap(1), None, None, None, None),
        (Word::cap(2), None, Some(ACTOR), None, None),
        (Word::ram(2), None, None, None, None),
        (Word::cap(3), None, None, Some(EVENT), None),
        (Word::cap(4), None, None, None, None),
        (Word::ram(4), Some(PAIR), None, None, None),
        (Word::ram(5), None, None, None, None),
        (Word::cap(5), None, None, None, None),
    ];
    for (i, (w, cell, actor, event, sponsor)) in rows.into_iter().enumerate() {
        assert!(rt; quads.read(w) == cell, "row {i}");
        assert!(rt; quads.actor(w) == actor, "row {i}");
        assert!(rt; quads.event(w) == event, "row {i}");
        assert!(rt; quads.sponsor(w) == sponsor, "row {i}");
    }
    Ok(())
}

#[test]
fn cells_are_read_by_number(rt: HostRuntime) -> Result<(), Fail> {
    let quads = one_of_each(&rt, rt.alloc())?;
    for (n, t) in [(15, None), (16, Some(Word::PAIR_T)), (17, None)] {
        assert!(rt; quads.rom_at(n).map(|q| q.t) == t, "at {n}");
    }
    for (n, t) in [
        (0, Some(Word::NIL)),
        (1, Some(Word::SPONSOR_T)),
        (2, Some(Word::ACTOR_T)),
        (4, Some(Word::PAIR_T)),
        (5, None),
    ] {
        assert!(rt; quads.ram_at(n).map(|q| q.t) == t, "at {n}");
    }
    Ok(())
}

#[test]
fn a_cell_is_changed_alone(rt: HostRuntime) -> Result<(), Fail> {
    let mut quads = one_of_each(&rt, rt.alloc())?;
    let (sponsor, actor, event) = (Word::cap(0), Word::cap(2), Word::cap(3));
    assert!(rt; quads.sponsor(sponsor).is_some());
    quads.set_sponsor(sponsor, STOPPED);
    assert!(rt; quads.actor(actor).is_some());
    quads.set_actor(actor, GIVEN);
    assert!(rt; quads.event(event).is_some());
    quads.set_event(event, LINKED);
    assert!(rt; quads.sponsor(sponsor) == Some(STOPPED));
    assert!(rt; quads.actor(actor) == Some(GIVEN));
    assert!(rt; quads.event(event) == Some(LINKED));
    assert!(rt; quads.read(Word::ram(4)) == Some(PAIR));
    Ok(())
}
