// The machine that an image boots to.

ghost use Rattle.std.specs.Prelude.{◌≡◌, ◌+◌, ◌≤◌, [], ◌∷◌, drop, IfOk, vec_capacity};
ghost use Rattle.cap_words.specs.Words.{Ram, Cap, undef};
ghost use Rattle.cap_words.specs.Store.{used, taken, cell_as};
ghost use Rattle.cap_words.specs.Seen.{seen, grown};
ghost use Rattle.cap_words.specs.Frame.{Framed};
ghost use Rattle.cap_words.specs.declared.word.Tag.TheVariants.{Ordinary};
ghost use Rattle.quad_memory.specs.Memory.{with_store};
ghost use Rattle.quad_memory.specs.Cells.{actor_cells};
ghost use Rattle.instr_table.specs.Lists.{pair_quad};
ghost use Rattle.vm_sponsor.specs.declared.amounts.Amounts.{Amounts};
ghost use Rattle.vm_sponsor.specs.Sheets.{root_account, sheet_of, Belongs};
ghost use Rattle.vm_turn.specs.State.{root, println_device, say_device};
ghost use Rattle.vm_turn.specs.Boot.{first_actor, boot_slots, booted};
ghost use Rattle.vm_machine.specs.View.{state_of};
ghost use Rattle.vm_machine.specs.Whole.{Whole};

use crate::NoMemory;
use crate::parts::{Known, Parts};
use cap_words::{Quad, Word};
use event_queue::Queue;
use quad_memory::{ActorCell, EventCell, Image, Quads};
use std::alloc::Global;
use vm_sponsor::{Grant, Sheet};

// How many sponsors there may be.
const SPONSORS: u32 = 65_536;

// The words of what boot takes for programs.
#[derive(Clone, Copy)]
struct BootWords {
    println: Word,
    say: Word,
    first: Word,
    event: Word,
}

// The machine that an image boots to, under a grant, with so many lanes. All memory is taken here.
pub(crate) fn boot(
    alloc: Global,
    image: &Image,
    grant: Grant,
    lanes: u32,
) -> Result<Parts, NoMemory>
    requires some_lanes { 1 ≤ lanes }
    requires lanes_limit { lanes ≤ 64 }
    ensures whole { IfOk result (λ p. Whole p) }
    ensures state { IfOk result (λ p. state_of p ≡ booted image.now grant lanes) }
    ensures grant { IfOk result (λ p. p.grant ≡ grant) }
    ensures rom { IfOk result (λ p. p.quads.store.rom ≡ image.now.cells) }
    ensures room { IfOk result (λ p. p.quads.room ≡ grant.memory + 16) }
{
    let room = grant.memory() + 16;
    let messages = grant.events() + 1;
    let mut quads = Quads::with_room(alloc, image, room)?;
    let sheet = Sheet::with_root(alloc, SPONSORS, &mut quads, grant)?;
    let root = root_of(&sheet, &quads);
    let words = take_actors(&mut quads, image.boot(), root);
    let known = Known {
        root,
        println: words.println,
        say: words.say,
    };
    let queue = first_queue(alloc, messages, words.event)?;
    let roll = first_roll(alloc, room, words)?;
    let flight = Vec::with_capacity(alloc, lanes as usize)?;
    let journal = Vec::with_capacity(alloc, messages as usize)?;
    Ok(Parts {
        quads,
        sheet,
        queue,
        roll,
        flight,
        lanes,
        journal,
        out_of: None,
        grant,
        known,
        stuck: false,
    })
}

// The word of the root sponsor, the only one at boot.
fn root_of(sheet: &Sheet, quads: &Quads) -> Word
    requires belongs { Belongs quads.now.store sheet.now }
    requires alone { (grant : Amounts) × (sheet_of quads.now.store sheet.now.rows ≡ root_account root grant ∷ []) }
    ensures { result ≡ root }
{
    match sheet.row(quads, 0) {
        Some(row) => row.sponsor,
        None => unreachable!(),
    }
}

// Takes the quads after the root sponsor's: the devices, the list of both from its end, the first actor with that list as its state, and
// message 0 for it under that sponsor.
fn take_actors(quads: &mut Quads, code: Word, sponsor: Word) -> BootWords
    requires used { used quads.old.store ≡ 2 }
    requires free { 8 ≤ quads.old.room }
    requires sponsor { sponsor ≡ root }
    ensures words { result ≡ record { println = println_device; say = say_device; first = first_actor; event = Cap 7 } }
    ensures seen { seen quads.new.store ≡ grown (seen quads.old.store) (drop 2 (boot_slots code)) }
    ensures frame { Framed quads.old.store quads.new.store [] }
    ensures room { quads.new.room ≡ quads.old.room }
{
    let println = take_idle(quads, Word::number_word(0), Word::UNDEF);
    let say = take_idle(quads, Word::number_word(1), Word::UNDEF);
    let end = take_pair(quads, say, Word::NIL);
    let devices = take_pair(quads, println, end);
    let first = take_idle(quads, code, devices);
    let event = quads.take_event(EventCell {
        sponsor,
        target: first,
        message: Word::NIL,
        next: Word::NIL,
    });
    BootWords {
        println,
        say,
        first,
        event,
    }
}

// Takes a quad for an idle actor.
fn take_idle(quads: &mut Quads, code: Word, state: Word) -> Word
    requires { used quads.old.store + 1 ≤ quads.old.room }
    ensures word { result ≡ Cap (used quads.old.store) }
    ensures after { quads.new ≡ with_store quads.old (taken quads.old.store (actor_cells (record { code = code; state = state; mark = undef }))) }
{
    quads.take_actor(ActorCell {
        code,
        state,
        mark: Word::UNDEF,
    })
}

// Takes a quad for a pair.
fn take_pair(quads: &mut Quads, head: Word, tail: Word) -> Word
    requires { used quads.old.store + 1 ≤ quads.old.room }
    ensures word { result ≡ Ram (used quads.old.store) }
    ensures after { quads.new ≡ with_store quads.old (taken quads.old.store (cell_as Ordinary (pair_quad head tail) ∷ [])) }
{
    quads.take(Quad {
        t: Word::PAIR_T,
        x: head,
        y: tail,
        z: Word::UNDEF,
    })
}

// Message 0, with room for so many messages.
fn first_queue(alloc: Global, messages: u32, event: Word) -> Result<Queue, NoMemory>
    requires { 1 ≤ messages }
    ensures { IfOk result (λ q. q ≡ record { given = event ∷ []; ready = 0 ∷ []; room = messages }) }
{
    let mut queue = Queue::with_room(alloc, messages)?;
    let _number = queue.append(event);
    Ok(queue)
}

// The committed actors at boot, with room for so many.
fn first_roll(alloc: Global, room: u32, words: BootWords) -> Result<Vec<Word>, NoMemory>
    requires { 3 ≤ room }
    ensures items { IfOk result (λ v. v.items ≡ words.first ∷ words.println ∷ words.say ∷ []) }
    ensures capacity { IfOk result (λ v. room ≤ vec_capacity v) }
{
    let mut roll = Vec::with_capacity(alloc, room as usize)?;
    roll.push(words.first)?;
    roll.push(words.println)?;
    roll.push(words.say)?;
    Ok(roll)
}
