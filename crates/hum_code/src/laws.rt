// What is so of all code that stands for a program.

ghost use Rattle.hum_code.specs.Laws.{EventsFollow, OpeningsFollow, ProgramsFollow, SentUnderOwn, StandingStays};

/// Code that stands for a program does what the program means, whatever others do between its instructions. An event of an actor with a
/// behaviour commits only where its delivery is decided as committed, with a record that stands for what was gathered; it fails only
/// where its delivery is decided as failed, with its code; the actors that it makes are numbered after the roll; and where s steps
/// decide its delivery, it ends so or goes on, and is at each of its instructions within 64(s + 1) cycles, 64(s + 1) quads and one
/// event for each message sent.
pub fn code_means_the_program()
    ensures { EventsFollow }
{}

/// The same of an event of the first actor, whose behaviour is the whole file in the outermost environment.
pub fn opening_means_the_file()
    ensures { OpeningsFollow }
{}

/// Each event in a store with the cells of an image that holds a program does what the program means: of an actor with a behaviour, and of the
/// first actor, which begins at the boot word.
pub fn programs_follow()
    ensures { ProgramsFollow }
{}

/// Each message that such an event has sent is under the event's own sponsor, where code stands in the image alone.
pub fn messages_are_under_the_payer()
    ensures { SentUnderOwn }
{}

/// What stands for a value, or for an environment, still does in each store that shows what was shown: further cells, changed actors, sponsors
/// and events, and a longer roll take nothing from it.
pub fn standing_stays()
    ensures { StandingStays }
{}
