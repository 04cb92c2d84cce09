// What is so of every run.

ghost use Rattle.vm_turn.specs.Laws.{TurnsEnd, AccountsAddUp, GrantsAreConserved, EventsStandOnce, LeastGoesFirst, OthersWait};
ghost use Rattle.vm_turn.specs.Changes.{TurnsChange};
ghost use Rattle.vm_turn.specs.Image.{ImagesStay, CodeStaysInImages, FlightsFitLanes};
ghost use Rattle.vm_turn.specs.Alone.{RootStaysAlone};
ghost use Rattle.vm_turn.specs.Roll.{RollsStand, EndedActorsRest};
ghost use Rattle.vm_turn.specs.Spending.{EventsSpendWhatIsPaid};
ghost use Rattle.vm_turn.specs.Authority.{EventsHaveBegun, EventsKeepAuthority, CommitsKeepAuthority, PostsKeepAuthority};

/// A machine with C cycles and E events completes at most `C + 2 (E + 1)` turns, whatever its image, its lanes and its picks: each
/// completed turn spends a cycle, dispatches a message or ends one.
pub fn turns_end()
    ensures { TurnsEnd }
{}

/// In every account, after every run, what was received of each kind is what was passed on, spent and is held.
pub fn accounts_add_up()
    ensures { AccountsAddUp }
{}

/// After every run as much of each kind is spent and held, over all sponsors, as was granted; and the quads that are taken leave room for
/// the memory that is held, in a store with room for the grant and the eight quads of boot.
pub fn grants_are_conserved()
    ensures { GrantsAreConserved }
{}

/// After every run the event of a word stands in one place at most: it is an unfinished message's, or an event in flight sent it, or it is
/// a prepared signal.
pub fn events_stand_once()
    ensures { EventsStandOnce }
{}

/// After every run the message that is dispatched next, a device's too, is the one with the least number of those that can go, and a lane is
/// free. A message can go that is not in flight, whose target is idle and whose sponsor runs.
pub fn least_goes_first()
    ensures { LeastGoesFirst }
{}

/// After every run in which a lane is free and no message is dispatched next, none can go.
pub fn others_wait()
    ensures { OthersWait }
{}

/// What a turn changes is told by its answer. An event begins where a lane is free, with the first message that can go. Else the event that
/// the pick chooses takes its next instruction, whose charge its sponsor can pay, and goes on, commits or fails as that row of the table says.
/// One that goes on changes its own lane, new quads and the sheet. One that fails or runs out adds its entry, ends its message and makes its
/// actor idle with the behaviour that it had: no other behaviour, and no roll, output or other message changes. One runs out where its sponsor
/// is short of the charge that is due; it is not charged, and its sponsor is stopped, whose prepared signal becomes a message. Bytes are written
/// by a device alone, for the first message that can go, and they are its piece; one that it refuses fails with 8. At rest nothing is in flight
/// and no message can be dispatched. The root's running out ends the run.
pub fn turns_change()
    ensures { TurnsChange }
{}

/// Each event that is in flight in a run was dispatched in one of its turns.
pub fn events_have_begun()
    ensures { EventsHaveBegun }
{}

/// At any moment of its flight an event gets at no actor or sponsor but those that its actor's code and state and its message got at when it
/// was dispatched, its own actor, and those that it made since. So it is of each word on its stack, as the controller that it gives to
/// `sponsor start`.
pub fn events_keep_authority()
    ensures { EventsKeepAuthority }
{}

/// So it is of each sponsor that an event names in `actor post`, also where it is the one that pays for the event.
pub fn posts_keep_authority()
    ensures { PostsKeepAuthority }
{}

/// After the turn that commits an event, what it handed on gets at no actor or sponsor but those: its actor's state and code, the actors that
/// it created with theirs, and the targets, contents and other sponsors of the messages that it sent.
pub fn commits_keep_authority()
    ensures { CommitsKeepAuthority }
{}

/// After every run the cells of the image are as they were.
pub fn images_stay()
    ensures { ImagesStay }
{}

/// After every run no RAM cell spells an operation: what is fetched comes from the image.
pub fn code_stays_in_images()
    ensures { CodeStaysInImages }
{}

/// After every run there are as many lanes as at boot, and no more events in flight.
pub fn flights_fit_lanes()
    ensures { FlightsFitLanes }
{}

/// Where no cell of the image spells an operation on sponsors the root stays the only sponsor: after every run it alone has an account, it
/// pays for each event in flight, each message that is not finished or that such an event sent is under it, and no signal is prepared.
pub fn root_stays_alone()
    ensures { RootStaysAlone }
{}

/// After every run the roll names each committed actor, and no other; it names none twice, and an actor that an event in flight created is not
/// on it. An actor of it is idle where no event in flight has it, and else busy with that event, the only one that has it. No event in flight
/// has a device.
pub fn rolls_stand()
    ensures { RollsStand }
{}

/// After a turn of a run that ends an event in flight, its actor is idle, and no event in flight has it.
pub fn ended_actors_rest()
    ensures { EndedActorsRest }
{}

/// What an event has spent is the sum of the charges of its turns: after every run all sponsors together have spent of each kind what the events
/// that ended and those in flight have.
pub fn events_spend_what_is_paid()
    ensures { EventsSpendWhatIsPaid }
{}
