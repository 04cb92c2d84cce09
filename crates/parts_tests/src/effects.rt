ghost use Rattle.cap_words.specs.Store.{Store};
ghost use Rattle.vm_effects.specs.Gathered.{IsLinked, AreMade};

use cap_words::{Quad, Word};
use quad_memory::{ActorCell, EventCell, Image, NoMemory, Quads};
use std::alloc::Global;
use std::process::Abort;
use std::test::Fail;
use vm_effects::*;

const CELL: Quad = Quad {
    t: Word::PAIR_T,
    x: Word::NIL,
    y: Word::NIL,
    z: Word::UNDEF,
};

// The event's actor, while it is busy.
const BUSY: ActorCell = ActorCell {
    code: Word::FUNC_T,
    state: Word::TRUE,
    mark: Word::FALSE,
};

// Room for eight quads, of which the first one is the event's actor.
fn quads(rt: &impl Abort, alloc: Global) -> Result<Quads, NoMemory> {
    let boot = Word::rom_bits(16).expect(rt, "a ROM word");
    let image = Image::new(boot, vec![in alloc; CELL]?).expect(rt, "an image");
    let mut quads = Quads::with_room(alloc, &image, 8)?;
    quads.put_actor(BUSY).expect(rt, "room");
    Ok(quads)
}

fn message(content: Word, next: Word) -> EventCell {
    EventCell {
        sponsor: Word::SPONSOR_T,
        target: Word::ACTOR_T,
        message: content,
        next,
    }
}

fn send(rt: &impl Abort, effects: &mut Effects, quads: &mut Quads, content: Word)
    requires { IsLinked quads.old.store effects.old }
    ensures { IsLinked quads.new.store effects.new }
{
    assert!(rt; quads.used() < quads.room());
    effects.send(quads, message(content, Word::TRUE));
}

fn create(rt: &impl Abort, effects: &mut Effects, quads: &mut Quads, state: Word)
    requires { IsLinked quads.old.store effects.old }
    ensures { IsLinked quads.new.store effects.new }
{
    assert!(rt; quads.used() < quads.room());
    let word = effects.create(quads, Word::FUNC_T, state);
    assert!(rt; quads.actor(word).is_some());
}

// Commits an event whose actor is the first quad.
fn commit(rt: &impl Abort, effects: Effects, quads: &mut Quads) -> Released
    requires { IsLinked quads.old.store effects }
    ensures { AreMade quads.new.store result.actors result.first_actor }
{
    let mut effects = effects;
    let actor = Word::cap(0);
    assert!(rt; quads.actor(actor).is_some());
    match effects.assign(quads, actor, Word::NIL, Word::NIL) {
        Ok(()) => panic!(rt; "the event did not create its actor"),
        Err(NotFresh) => effects.commit(quads, actor),
    }
}

// A record with a behaviour.
fn with_behaviour(rt: &impl Abort) -> Effects
    ensures { (s : Store) → IsLinked s result }
{
    let mut effects = Effects::begin();
    let first = effects.become_with(Word::DICT_T, Word::NIL);
    let second = effects.become_with(Word::BLOCK_T, Word::TRUE);
    assert!(rt; first == Ok(()) && second == Err(Twice));
    effects
}

fn has_actors(quads: &Quads, rows: [(u32, Word, Word, Word); 3]) -> bool {
    rows.into_iter().all(|(place, code, state, mark)| {
        place < 8 && quads.actor(Word::cap(place)) == Some(ActorCell { code, state, mark })
    })
}

#[test]
fn a_commit_hands_out_both_lists(rt: HostRuntime) -> Result<(), Fail> {
    let mut quads = quads(&rt, rt.alloc())?;
    let mut effects = with_behaviour(&rt);
    send(&rt, &mut effects, &mut quads, Word::TRUE);
    create(&rt, &mut effects, &mut quads, Word::NIL);
    send(&rt, &mut effects, &mut quads, Word::FALSE);
    create(&rt, &mut effects, &mut quads, Word::FALSE);
    assert!(rt; effects.assign(&mut quads, Word::cap(4), Word::BLOCK_T, Word::TRUE) == Ok(()));
    let released = commit(&rt, effects, &mut quads);
    let want = Released {
        first_event: Word::cap(1),
        events: 2,
        first_actor: Word::cap(2),
        actors: 2,
    };
    assert!(rt; released == want);
    assert!(rt; quads.event(Word::cap(1)) == Some(message(Word::TRUE, Word::cap(3))));
    assert!(rt; quads.event(Word::cap(3)) == Some(message(Word::FALSE, Word::NIL)));
    let committed = [
        (0, Word::DICT_T, Word::NIL, Word::UNDEF),
        (2, Word::FUNC_T, Word::NIL, Word::cap(4)),
        (4, Word::BLOCK_T, Word::TRUE, Word::NIL),
    ];
    assert!(rt; has_actors(&quads, committed));
    make_idle(&mut quads, released.first_actor, released.actors);
    let idle = [
        (0, Word::DICT_T, Word::NIL, Word::UNDEF),
        (2, Word::FUNC_T, Word::NIL, Word::UNDEF),
        (4, Word::BLOCK_T, Word::TRUE, Word::UNDEF),
    ];
    assert!(rt; has_actors(&quads, idle));
    Ok(())
}

#[test]
fn a_dropped_event_changes_its_actors_mark_alone(rt: HostRuntime) -> Result<(), Fail> {
    let mut quads = quads(&rt, rt.alloc())?;
    let mut effects = with_behaviour(&rt);
    send(&rt, &mut effects, &mut quads, Word::TRUE);
    assert!(rt; quads.actor(Word::cap(0)).is_some());
    effects.drop_all(&mut quads, Word::cap(0));
    let idle = ActorCell {
        mark: Word::UNDEF,
        ..BUSY
    };
    assert!(rt; quads.actor(Word::cap(0)) == Some(idle));
    assert!(rt; quads.event(Word::cap(1)) == Some(message(Word::TRUE, Word::NIL)));
    Ok(())
}
