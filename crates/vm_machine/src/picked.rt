// A machine whose picks the caller gives.

ghost use Rattle.std.specs.Prelude.{◌≡◌, ◌≤◌, IfOk};
ghost use Rattle.hum_outside.specs.Outside.{HasCause};
ghost use Rattle.vm_turn.specs.Boot.{booted};
ghost use Rattle.vm_turn.specs.Turn.{turn};
ghost use Rattle.vm_machine.specs.Turns.{Takes, Quiet};

use crate::NoMemory;
use crate::boot::boot;
use crate::parts::Parts;
use crate::turn::turn;
use hum_outside::Sink;
use quad_memory::Image;
use std::alloc::Global;
use std::marker::Model;
use vm_devices::{Scratch, WriteFault};
use vm_sponsor::Grant;
use vm_turn::Turn;

/// A machine that takes its turns by picks that the caller gives. It is seen as its state, in which what was written does not stand.
#[derive(Drop)]
pub struct Core {
    parts: Parts,
    scratch: Scratch,
}

impl Model for Core {
    ghost use Rattle.vm_turn.specs.State.{State};
    ghost use Rattle.vm_machine.specs.View.{state_of};
    ghost use Rattle.vm_machine.specs.Whole.{Whole};

    ghost Value = { State };

    ghost view = { λ c. state_of c.parts };

    ghost invariant = { λ c. Whole c.parts };
}

impl Core {
    /// The machine that the image boots to, under a grant, with 1 to 64 lanes. All memory is taken here: no turn takes any.
    pub fn boot(alloc: Global, image: &Image, grant: Grant, lanes: u32) -> Result<Core, NoMemory>
        requires some_lanes { 1 ≤ lanes }
        requires lanes_limit { lanes ≤ 64 }
        ensures { IfOk result (λ c. c ≡ booted image.now grant lanes) }
    {
        let parts = boot(alloc, image, grant, lanes)?;
        let scratch = Scratch::new(alloc)?;
        Ok(Core { parts, scratch })
    }

    /// One turn of the written machine: the first message that can go is dispatched where a lane is free, and else the event in flight that
    /// the pick says takes one instruction. What the turn writes is appended to `out`.
    ///
    /// Rest comes exactly where nothing is in flight and no message can go. Spent comes where the root sponsor ran out, in this call or
    /// before; later calls change nothing. Where a write fails the machine is as it was, and the message is still pending. A turn that
    /// writes nothing cannot fail so.
    pub fn turn_with<K: Sink>(&mut self, pick: u32, out: &mut K) -> Result<Turn, WriteFault>
        ensures turn { Takes (turn self.old pick) result self.old self.new (K.written out.old) (K.written out.new) }
        ensures quiet { Quiet (turn self.old pick) result (K.written out.old) (K.written out.new) (K.faults out.old) (K.faults out.new) }
        ensures cause { HasCause (K.faults out.old) (K.faults out.new) result }
    {
        turn(&mut self.parts, &mut self.scratch, pick, out)
    }
}
