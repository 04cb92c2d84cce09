// Deliveries to devices.

ghost use Rattle.std.specs.Prelude.{◌≡◌, ◌<◌, ◌≤◌, Ok, IfOk};
ghost use Rattle.hum_outside.specs.Outside.{HasCause};
ghost use Rattle.cap_words.specs.Seen.{seen};
ghost use Rattle.vm_turn.specs.Piece.{most_leaves, tree, printed, said, piece};
ghost use Rattle.vm_devices.specs.Delivery.{Delivers};
ghost use Rattle.vm_devices.specs.declared.delivery.Done.TheVariants.{Refused};

use crate::NoMemory;
use crate::speech::{is_speech, put_speech};
use crate::tree::{MOST_LEAVES, is_small, put_tree};
use cap_words::Word;
use hum_outside::{Failed, Sink, put_all};
use quad_memory::Quads;
use std::alloc::Global;
use std::marker::Model;

/// How a delivery ended.
#[derive(Clone, Copy, Debug, PartialEq, Eq)]
pub enum Done {
    /// The device wrote what the message says.
    Committed,
    /// The device takes no such message, and wrote nothing.
    Refused,
}

/// A line could not be written whole.
#[derive(Clone, Copy, Debug, PartialEq, Eq)]
pub struct WriteFault;

impl From<Failed> for WriteFault {
    fn from(_: Failed) -> Self {
        WriteFault
    }
}

/// What a device works with: a stack of 65,536 words. Its memory is taken once; no later call takes any.
#[derive(Drop)]
pub struct Scratch {
    stack: Vec<Word>,
}

impl Model for Scratch {
    ghost use Rattle.std.specs.Prelude.{ℕ, ◌≤◌, vec_capacity};
    ghost use Rattle.vm_turn.specs.Piece.{most_leaves};

    ghost Value = { ℕ };

    ghost view = { λ s. vec_capacity s.stack };

    ghost invariant = { λ s. most_leaves ≤ vec_capacity s.stack };
}

impl Scratch {
    /// A stack with room for 65,536 words. A scratch is seen as the number of words that it has room for.
    pub fn new(alloc: Global) -> Result<Scratch, NoMemory>
        ensures { IfOk result (λ room. most_leaves ≤ room) }
    {
        let stack = Vec::with_capacity(alloc, MOST_LEAVES)?;
        Ok(Scratch { stack })
    }

    // Delivers a message to `println`.
    fn print<K: Sink>(
        &mut self,
        quads: &Quads,
        message: Word,
        out: &mut K,
    ) -> Result<Done, WriteFault>
        ensures written { Delivers (printed (seen quads.now.store) (tree (seen quads.now.store) message)) result
            (K.written out.old) (K.written out.new) }
        ensures quiet { result ≡ Ok Done.Refused → K.faults out.new ≡ K.faults out.old }
        ensures cause { HasCause (K.faults out.old) (K.faults out.new) result }
    {
        if !is_small(quads, message, &mut self.stack) {
            return Ok(Done::Refused);
        }
        put_tree(quads, message, &mut self.stack, out)?;
        put_all(out, b"\n")?;
        Ok(Done::Committed)
    }

    // Delivers a message to `say`.
    fn say<K: Sink>(
        &mut self,
        quads: &Quads,
        message: Word,
        out: &mut K,
    ) -> Result<Done, WriteFault>
        ensures written { Delivers (said (tree (seen quads.now.store) message)) result (K.written out.old) (K.written out.new) }
        ensures quiet { result ≡ Ok Done.Refused → K.faults out.new ≡ K.faults out.old }
        ensures cause { HasCause (K.faults out.old) (K.faults out.new) result }
    {
        if !is_small(quads, message, &mut self.stack) || !is_speech(quads, message) {
            return Ok(Done::Refused);
        }
        put_speech(quads, message, out)?;
        put_all(out, b"\n")?;
        Ok(Done::Committed)
    }
}

/// Delivers a message to a device: 0 is `println`, and 1 is `say`.
///
/// `Refused` comes exactly where the device takes no such message: where its tree is not a finite one of at most 65,536 leaves, or, at
/// `say`, not a list of Unicode scalar values that ends with `#nil`. Nothing was written then. `Committed` comes only where the whole line
/// was written. `WriteFault` comes only where the sink's count of faults rose, and then a front of the line was written. Whatever the
/// answer, the sink tells what was written exactly where it told it before.
pub fn deliver<K: Sink>(
    quads: &Quads,
    device: u32,
    message: Word,
    scratch: &mut Scratch,
    out: &mut K,
) -> Result<Done, WriteFault>
    requires { device < 2 }
    ensures written { Delivers (piece device (seen quads.now.store) message) result (K.written out.old) (K.written out.new) }
    ensures quiet { result ≡ Ok Done.Refused → K.faults out.new ≡ K.faults out.old }
    ensures cause { HasCause (K.faults out.old) (K.faults out.new) result }
{
    if device == 0 {
        scratch.print(quads, message, out)
    } else {
        scratch.say(quads, message, out)
    }
}
