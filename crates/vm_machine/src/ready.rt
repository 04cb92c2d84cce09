// Which message goes next.

ghost use Rattle.std.specs.Prelude.{◌≡◌, ◌<◌, length, option_map, IfSome};
ghost use Rattle.event_queue.specs.Starts.{StartsFirst};
ghost use Rattle.event_queue.specs.Waiting.{message_of};
ghost use Rattle.vm_turn.specs.Turn.{dispatchable};
ghost use Rattle.vm_machine.specs.View.{state_of};
ghost use Rattle.vm_machine.specs.Whole.{Whole};

use crate::parts::Parts;

// The number of the message that the next turn dispatches, if there is one. Where a search found none, the next one waits until something happened.
pub(crate) fn next_ready(parts: &mut Parts) -> Option<u32>
    requires whole { Whole parts.old }
    ensures whole { Whole parts.new }
    ensures state { state_of parts.new ≡ state_of parts.old }
    ensures same { parts.new ≡ record parts.old { stuck = parts.new.stuck } }
    ensures first { IfSome result (λ n. (length parts.old.flight.items < parts.old.lanes) × StartsFirst parts.old.quads.store parts.old.queue n) }
    ensures found { option_map (message_of parts.old.queue.given) result ≡ dispatchable (state_of parts.old) }
{
    if parts.stuck || parts.flight.len() >= parts.lanes as usize {
        return None;
    }
    let found = parts.queue.first_ready(&parts.quads);
    parts.stuck = found.is_none();
    found
}
