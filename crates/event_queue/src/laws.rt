// What the first ready message is to the written turn.

ghost use Rattle.event_queue.specs.Waiting.{FirstReadyGoesFirst};

/// Where the ready numbers stand for the messages that are not in flight, and the sheet has a row for each sponsor in the store, the first
/// ready message is the one that the written turn dispatches next.
pub fn first_ready_goes_first()
    ensures { FirstReadyGoesFirst }
{}
