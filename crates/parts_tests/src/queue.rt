ghost use Rattle.std.specs.Prelude.{◌≤◌};

use cap_words::{Quad, Word};
use event_queue::*;
use quad_memory::{ActorCell, EventCell, Image, Quads, SponsorCell};
use std::alloc::Global;
use std::process::Abort;
use std::test::Fail;

const CELL: Quad = Quad {
    t: Word::PAIR_T,
    x: Word::NIL,
    y: Word::NIL,
    z: Word::UNDEF,
};

// Room for so many quads.
fn quads(rt: &impl Abort, alloc: Global, room: u32) -> Result<Quads, NoMemory>
    requires { room ≤ 64 }
{
    let boot = Word::rom_bits(16).expect(rt, "a ROM word");
    let image = Image::new(boot, vec![in alloc; CELL]?).expect(rt, "an image");
    Quads::with_room(alloc, &image, room)
}

fn actor(rt: &impl Abort, quads: &mut Quads, mark: Word) -> Word {
    let cell = ActorCell {
        code: Word::FUNC_T,
        state: Word::NIL,
        mark,
    };
    quads.put_actor(cell).expect(rt, "room")
}

fn sponsor(rt: &impl Abort, quads: &mut Quads, signal: Word) -> Word {
    let none = Word::number_word(0);
    let cell = SponsorCell {
        signal,
        memory: none,
        events: none,
        cycles: none,
        memory_spent: none,
        events_spent: none,
        cycles_spent: none,
    };
    quads.put_sponsor(cell).expect(rt, "room")
}

fn event(rt: &impl Abort, quads: &mut Quads, sponsor: Word, target: Word, next: Word) -> Word {
    let cell = EventCell {
        sponsor,
        target,
        message: Word::NIL,
        next,
    };
    quads.put_event(cell).expect(rt, "room")
}

// Takes the message that starts next out of the ready ones.
fn dispatch(queue: &mut Queue, quads: &Quads) -> Option<u32> {
    let number = queue.first_ready(quads)?;
    queue.remove(number);
    Some(number)
}

#[test]
fn a_message_starts_where_its_target_is_idle_and_its_sponsor_runs(
    rt: HostRuntime,
) -> Result<(), Fail> {
    let mut quads = quads(&rt, rt.alloc(), 32)?;
    let idle = actor(&rt, &mut quads, Word::UNDEF);
    let busy = actor(&rt, &mut quads, Word::number_word(7));
    let unborn = actor(&rt, &mut quads, Word::NIL);
    let root = sponsor(&rt, &mut quads, Word::NIL);
    let signalling = sponsor(&rt, &mut quads, idle);
    let stopped = sponsor(&rt, &mut quads, Word::UNDEF);
    let rows = [
        (root, idle, true),
        (signalling, idle, true),
        (stopped, idle, false),
        (idle, idle, false),
        (root, busy, false),
        (root, unborn, false),
        (root, root, false),
    ];
    for (sponsor, target, starts) in rows {
        let event = event(&rt, &mut quads, sponsor, target, Word::NIL);
        let mut queue = Queue::with_room(rt.alloc(), 1)?;
        assert!(rt; queue.append(event) == 0);
        let want = if starts { Some(0) } else { None };
        assert!(rt; queue.first_ready(&quads) == want);
    }
    Ok(())
}

#[test]
fn messages_start_in_the_order_of_their_numbers(rt: HostRuntime) -> Result<(), Fail> {
    let mut quads = quads(&rt, rt.alloc(), 32)?;
    let root = sponsor(&rt, &mut quads, Word::NIL);
    let idle = actor(&rt, &mut quads, Word::UNDEF);
    let busy = actor(&rt, &mut quads, Word::number_word(7));
    let third = event(&rt, &mut quads, root, idle, Word::NIL);
    let second = event(&rt, &mut quads, root, busy, third);
    let first = event(&rt, &mut quads, root, idle, second);
    let mut queue = Queue::with_room(rt.alloc(), 4)?;
    assert!(rt; queue.append(third) == 0);
    append_all(&quads, &mut queue, first, 3);
    assert!(rt; queue.given() == 4);
    let events = [Some(third), Some(first), Some(second), Some(third), None];
    for (number, want) in events.into_iter().enumerate() {
        assert!(rt; queue.event(number as u32) == want);
    }
    for want in [Some(0), Some(1), Some(3), None] {
        assert!(rt; dispatch(&mut queue, &quads) == want);
    }
    let walk = [(None, Some(2)), (Some(1), Some(2)), (Some(2), None)];
    for (after, want) in walk {
        assert!(rt; queue.next_ready(after) == want);
    }
    Ok(())
}
