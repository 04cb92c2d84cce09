// The quads of a machine.

ghost use Rattle.std.specs.Prelude.{◌≡◌, ◌+◌, ◌^◌, ◌<◌, ◌≤◌, if◌then◌else◌, nat_lt, List, length, [], ◌∷◌, ◌++◌, Some, None, IfOk, IsSome, slice_get, vec_len, vec_capacity};
ghost use Rattle.cap_words.specs.Words.{W, Ram, Cap, kind_of};
ghost use Rattle.cap_words.specs.Store.{Store, Cell, cell, opaque_cell, spent_cell, tagged, same_tag, rom_cell, used, taken, changed, cell_as, cap_place};
ghost use Rattle.quad_memory.specs.Memory.{with_store};
ghost use Rattle.quad_memory.specs.Cells.{actor_words, event_words, actor_cells, event_cells, sponsor_cells, actor_at, event_at, sponsor_at, sponsor_changed, ram_cell, cells_of};

use crate::cells::{
    ActorCell, EventCell, SponsorCell, actor_in, actor_quad, event_in, event_quad, held_quad,
    spent_quad, sponsor_in,
};
use crate::image::Image;
use cap_words::{Kind, Quad, Tag, Word};
use std::alloc::{AllocError as NoMemory, Global};
use std::marker::Model;

/// The quads of a machine: the cells of its image, and the RAM quads in the order in which they were taken.
///
/// Room for RAM is made once; no later call takes memory. A RAM quad costs 17 bytes.
#[derive(Drop)]
pub struct Quads {
    rom: Vec<Quad>,
    quads: Vec<Quad>,
    tags: Vec<Tag>,
    room: u32,
}

impl Model for Quads {
    ghost use Rattle.std.specs.Prelude.{◌≡◌, ◌≤◌, ◌^◌, ◌+◌, vec_len, vec_capacity};
    ghost use Rattle.quad_memory.specs.Memory.{Memory};
    ghost use Rattle.quad_memory.specs.Cells.{cells_of};

    ghost Value = { Memory };

    ghost view = { λ m. record { store = record { rom = m.rom.items; ram = cells_of m.tags.items m.quads.items }; room = m.room } };

    ghost invariant = { λ m. (vec_len m.tags ≡ vec_len m.quads) × (vec_len m.quads ≤ m.room) × (m.room ≤ vec_capacity m.quads) × (m.room ≤ vec_capacity m.tags) × (m.room ≤ 2 ^ 24 + 256) };
}

#[tactic(auto, using(crate::proofs::Columns::cells, crate::proofs::Known::known))]
impl Quads {
    /// The image's cells, with room for `ram` RAM quads, of which none is taken yet.
    pub fn with_room(alloc: Global, image: &Image, ram: u32) -> Result<Quads, NoMemory>
        requires { ram ≤ 2 ^ 24 + 256 }
        ensures { IfOk result (λ m. m ≡ record { store = record { rom = image.now.cells; ram = [] }; room = ram }) }
    {
        let quads = Vec::with_capacity(alloc, ram as usize)?;
        let tags = Vec::with_capacity(alloc, ram as usize)?;
        let rom = Vec::from_slice(alloc, image.cells())?;
        Ok(Quads {
            rom,
            quads,
            tags,
            room: ram,
        })
    }

    /// How many RAM quads are taken.
    pub fn used(&self) -> u32
        ensures { result ≡ used self.now.store }
    {
        self.quads.len() as u32
    }

    /// How many RAM quads there may be.
    pub fn room(&self) -> u32
        ensures value { result ≡ self.now.room }
        ensures bound { result ≤ 2 ^ 24 + 256 }
    {
        self.room
    }

    /// Takes a quad for an ordinary cell and gives its word, or None where all the room is used.
    pub fn put(&mut self, q: Quad) -> Option<Word>
        ensures word { result ≡ (if nat_lt (used self.old.store) self.old.room then Some (Ram (used self.old.store)) else None) }
        ensures after { self.new ≡ (if nat_lt (used self.old.store) self.old.room then with_store self.old (taken self.old.store (cell_as Tag.Ordinary q ∷ [])) else self.old) }
    {
        if self.used() < self.room {
            Some(self.take(q))
        } else {
            None
        }
    }

    /// Takes a quad for an ordinary cell and gives its word.
    pub fn take(&mut self, q: Quad) -> Word
        requires { used self.old.store < self.old.room }
        ensures word { result ≡ Ram (used self.old.store) }
        ensures after { self.new ≡ with_store self.old (taken self.old.store (cell_as Tag.Ordinary q ∷ [])) }
    {
        Word::ram(self.push(Tag::Ordinary, q))
    }

    /// Takes a quad for an actor and gives its word, or None where all the room is used.
    pub fn put_actor(&mut self, c: ActorCell) -> Option<Word>
        ensures word { result ≡ (if nat_lt (used self.old.store) self.old.room then Some (Cap (used self.old.store)) else None) }
        ensures after { self.new ≡ (if nat_lt (used self.old.store) self.old.room then with_store self.old (taken self.old.store (actor_cells c)) else self.old) }
    {
        if self.used() < self.room {
            Some(self.take_actor(c))
        } else {
            None
        }
    }

    /// Takes a quad for an actor and gives its word.
    pub fn take_actor(&mut self, c: ActorCell) -> Word
        requires { used self.old.store < self.old.room }
        ensures word { result ≡ Cap (used self.old.store) }
        ensures after { self.new ≡ with_store self.old (taken self.old.store (actor_cells c)) }
    {
        Word::cap(self.push(Tag::Actor, actor_quad(&c)))
    }

    /// Takes a quad for an event and gives its word, or None where all the room is used.
    pub fn put_event(&mut self, c: EventCell) -> Option<Word>
        ensures word { result ≡ (if nat_lt (used self.old.store) self.old.room then Some (Cap (used self.old.store)) else None) }
        ensures after { self.new ≡ (if nat_lt (used self.old.store) self.old.room then with_store self.old (taken self.old.store (event_cells c)) else self.old) }
    {
        if self.used() < self.room {
            Some(self.take_event(c))
        } else {
            None
        }
    }

    /// Takes a quad for an event and gives its word.
    pub fn take_event(&mut self, c: EventCell) -> Word
        requires { used self.old.store < self.old.room }
        ensures word { result ≡ Cap (used self.old.store) }
        ensures after { self.new ≡ with_store self.old (taken self.old.store (event_cells c)) }
    {
        Word::cap(self.push(Tag::Event, event_quad(&c)))
    }

    /// Takes two quads for a sponsor and gives its word, or None where less than two are left.
    pub fn put_sponsor(&mut self, c: SponsorCell) -> Option<Word>
        ensures word { result ≡ (if nat_lt (used self.old.store + 1) self.old.room then Some (Cap (used self.old.store)) else None) }
        ensures after { self.new ≡ (if nat_lt (used self.old.store + 1) self.old.room then with_store self.old (taken self.old.store (sponsor_cells c)) else self.old) }
    {
        if self.used() + 1 < self.room {
            Some(self.take_sponsor(c))
        } else {
            None
        }
    }

    /// Takes two quads for a sponsor and gives its word.
    pub fn take_sponsor(&mut self, c: SponsorCell) -> Word
        requires { used self.old.store + 1 < self.old.room }
        ensures word { result ≡ Cap (used self.old.store) }
        ensures after { self.new ≡ with_store self.old (taken self.old.store (sponsor_cells c)) }
    {
        let held = held_quad(&c);
        let spent = spent_quad(&c);
        let place = self.push(Tag::SponsorHeld, held);
        self.push(Tag::SponsorSpent, spent);
        Word::cap(place)
    }

    /// The quad that a program reads under a word: a ROM cell or an ordinary RAM cell, or None where the word names neither.
    pub fn read(&self, w: Word) -> Option<Quad>
        ensures { result ≡ cell self.now.store w }
    {
        match w.kind() {
            Kind::Rom => self.rom_at(w.place()?),
            Kind::Ram => cell_in(&self.tags, &self.quads, w.place()?, Tag::Ordinary),
            _ => None,
        }
    }

    /// The actor that a word names, or None where it names none.
    pub fn actor(&self, w: Word) -> Option<ActorCell>
        ensures { result ≡ actor_at self.now.store w }
    {
        Some(actor_in(&self.opaque(w, Tag::Actor)?))
    }

    /// The event that a word names, or None where it names none.
    pub fn event(&self, w: Word) -> Option<EventCell>
        ensures { result ≡ event_at self.now.store w }
    {
        Some(event_in(&self.opaque(w, Tag::Event)?))
    }

    /// The sponsor that a word names, or None where it names none.
    pub fn sponsor(&self, w: Word) -> Option<SponsorCell>
        ensures { result ≡ sponsor_at self.now.store w }
    {
        let held = self.opaque(w, Tag::SponsorHeld)?;
        let spent = self.spent(w)?;
        Some(sponsor_in(&held, &spent))
    }

    /// The actor that a word is known to name.
    pub fn known_actor(&self, w: Word) -> ActorCell
        requires { IsSome (actor_at self.now.store w) }
        ensures { actor_at self.now.store w ≡ Some result }
    {
        actor_in(&self.quad_at(known_place(w)))
    }

    /// The event that a word is known to name.
    pub fn known_event(&self, w: Word) -> EventCell
        requires { IsSome (event_at self.now.store w) }
        ensures { event_at self.now.store w ≡ Some result }
    {
        event_in(&self.quad_at(known_place(w)))
    }

    /// The sponsor that a word is known to name.
    pub fn known_sponsor(&self, w: Word) -> SponsorCell
        requires { IsSome (sponsor_at self.now.store w) }
        ensures { sponsor_at self.now.store w ≡ Some result }
    {
        let place = known_place(w);
        let held = self.quad_at(place);
        let spent = self.quad_at(place + 1);
        sponsor_in(&held, &spent)
    }

    /// Changes the actor that a word names.
    pub fn set_actor(&mut self, w: Word, c: ActorCell)
        requires { IsSome (actor_at self.old.store w) }
        ensures { self.new ≡ with_store self.old (changed self.old.store (cap_place w) (cell_as Tag.Actor (actor_words c))) }
    {
        self.change(known_place(w), Tag::Actor, actor_quad(&c));
    }

    /// Changes the event that a word names.
    pub fn set_event(&mut self, w: Word, c: EventCell)
        requires { IsSome (event_at self.old.store w) }
        ensures { self.new ≡ with_store self.old (changed self.old.store (cap_place w) (cell_as Tag.Event (event_words c))) }
    {
        self.change(known_place(w), Tag::Event, event_quad(&c));
    }

    /// Changes both quads of the sponsor that a word names.
    pub fn set_sponsor(&mut self, w: Word, c: SponsorCell)
        requires { IsSome (sponsor_at self.old.store w) }
        ensures { self.new ≡ with_store self.old (sponsor_changed self.old.store (cap_place w) c) }
    {
        let held = held_quad(&c);
        let spent = spent_quad(&c);
        let place = known_place(w);
        self.change(place, Tag::SponsorHeld, held);
        self.change(place + 1, Tag::SponsorSpent, spent);
    }

    /// The ROM cell of that number, or None where there is none.
    pub fn rom_at(&self, n: u32) -> Option<Quad>
        ensures { result ≡ rom_cell self.now.store.rom n }
    {
        if n < 16 {
            return None;
        }
        self.rom.get(n as usize - 16).copied()
    }

    /// The words of the RAM quad of that number, whatever it was taken for, or None where it is not taken.
    pub fn ram_at(&self, n: u32) -> Option<Quad>
        ensures { result ≡ ram_cell self.now.store.ram n }
    {
        self.quads.get(n as usize).copied()
    }

    // The quad that an opaque word names, where it was taken for this.
    fn opaque(&self, w: Word, tag: Tag) -> Option<Quad>
        ensures { result ≡ opaque_cell self.now.store tag w }
    {
        match w.kind() {
            Kind::Cap => cell_in(&self.tags, &self.quads, w.place()?, tag),
            _ => None,
        }
    }

    // The second quad of the sponsor that an opaque word names.
    fn spent(&self, w: Word) -> Option<Quad>
        ensures { result ≡ spent_cell self.now.store w }
    {
        match w.kind() {
            Kind::Cap => cell_in(&self.tags, &self.quads, w.place()? + 1, Tag::SponsorSpent),
            _ => None,
        }
    }

    // The words of a RAM quad that is taken, whatever it was taken for.
    fn quad_at(&self, place: u32) -> Quad
        requires { place < used self.now.store }
        ensures { ram_cell self.now.store.ram place ≡ Some result }
    {
        self.quads[place as usize]
    }

    // Changes the quad of that number.
    fn change(&mut self, place: u32, tag: Tag, q: Quad)
        requires { place < used self.old.store }
        ensures { self.new ≡ with_store self.old (changed self.old.store place (cell_as tag q)) }
    {
        self.tags[place as usize] = tag;
        self.quads[place as usize] = q;
    }

    // Takes a quad for this and gives its number.
    fn push(&mut self, tag: Tag, q: Quad) -> u32
        requires { used self.old.store < self.old.room }
        ensures place { result ≡ used self.old.store }
        ensures below { result < 2 ^ 29 }
        ensures after { self.new ≡ with_store self.old (taken self.old.store (cell_as tag q ∷ [])) }
    {
        let place = self.used();
        push_cell(&mut self.tags, &mut self.quads, tag, q);
        place
    }
}

// The number of the quad that a word names which is known to be opaque.
fn known_place(w: Word) -> u32
    requires { kind_of w ≡ Kind.Cap }
    ensures value { result ≡ cap_place w }
    ensures below { result < 2 ^ 29 }
{
    w.bits() - 0x6000_0000
}

// The quad at a place, where it was taken for this.
fn cell_in(tags: &[Tag], quads: &[Quad], place: u32, tag: Tag) -> Option<Quad>
    requires { length tags.now ≡ length quads.now }
    ensures { result ≡ tagged tag (slice_get (cells_of tags.now quads.now) place) }
{
    let at = place as usize;
    if at < quads.len() && is_same_tag(tags[at], tag) {
        Some(quads[at])
    } else {
        None
    }
}

fn is_same_tag(a: Tag, b: Tag) -> bool
    ensures { result ≡ same_tag a b }
{
    a == b
}

fn push_cell(tags: &mut Vec<Tag>, quads: &mut Vec<Quad>, tag: Tag, quad: Quad)
    requires tags_room { vec_len tags.old < vec_capacity tags.old }
    requires quads_room { vec_len quads.old < vec_capacity quads.old }
    ensures tags { tags.new.items ≡ tags.old.items ++ tag ∷ [] }
    ensures tags_len { vec_len tags.new ≡ vec_len tags.old + 1 }
    ensures tags_capacity { vec_capacity tags.old ≤ vec_capacity tags.new }
    ensures quads { quads.new.items ≡ quads.old.items ++ quad ∷ [] }
    ensures quads_len { vec_len quads.new ≡ vec_len quads.old + 1 }
    ensures quads_capacity { vec_capacity quads.old ≤ vec_capacity quads.new }
{
    match tags.push(tag) {
        Ok(()) => {}
        Err(_) => unreachable!(),
    }
    match quads.push(quad) {
        Ok(()) => {}
        Err(_) => unreachable!(),
    }
}

/// Ordinary cells never change: a word that reads a cell reads the same one after any quads were taken, and after an actor, an event
/// or a sponsor was changed.
pub fn ordinary_cells_stand()
    ensures taken { (s : Store) (cells : List Cell) (w : W) (q : Quad) → cell s w ≡ Some q → cell (taken s cells) w ≡ Some q }
    ensures actor { (s : Store) (w v : W) (c : ActorCell) → IsSome (actor_at s v) → cell (changed s (cap_place v) (cell_as Tag.Actor (actor_words c))) w ≡ cell s w }
    ensures event { (s : Store) (w v : W) (c : EventCell) → IsSome (event_at s v) → cell (changed s (cap_place v) (cell_as Tag.Event (event_words c))) w ≡ cell s w }
    ensures sponsor { (s : Store) (w v : W) (c : SponsorCell) → IsSome (sponsor_at s v) → cell (sponsor_changed s (cap_place v) c) w ≡ cell s w }
{}
