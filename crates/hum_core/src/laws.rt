// What is so of the numbered languages.

ghost use Rattle.hum_core.specs.Laws.{ResolvedDecisionsStay, TestedDecisionsStay, ResolvedTreesMeanTheSame, LoweredTreesMeanTheSame, FormedTreesStand, ProgramsBeginAlike, ResolvedTreesAreFormed, BoundsAreTheSame, BoundsCountStepsAndSends, ScopedFilesStand};
ghost use Rattle.hum_core.specs.Programs.{ProgramsMeanTheirFiles};
ghost use Rattle.hum_core.specs.Sizes.{ProgramsAreSmall};

/// A written tree means what the numbered one does that it stands for: for environments that are alike and every number of steps the outcomes
/// of evaluation, matching and execution are alike, failures and undecided ones included, with as many steps left. So messages are delivered
/// alike, and a journal leads to configurations that are alike, in both directions.
pub fn resolved_trees_mean_the_same()
    ensures { ResolvedTreesMeanTheSame }
{}

/// A file in which the scope rule refuses no name stands for the numbered tree that it becomes, where the built-in functions and the devices
/// are in scope: its statements for unit 0, and the first actor's function for the first actor's behaviour.
pub fn scoped_files_stand()
    ensures { ScopedFilesStand }
{}

/// A numbered tree whose patterns are trees means what the one does whose patterns are their tests, in the same way.
pub fn lowered_trees_mean_the_same()
    ensures { LoweredTreesMeanTheSame }
{}

/// The units of each formed tree stand for what they become with tests, each for the unit of its own number.
pub fn formed_trees_stand()
    ensures { FormedTreesStand }
{}

/// A file that unit 0 stands for begins in a configuration that is alike to the one in which its numbered trees begin, with patterns and with
/// tests.
pub fn programs_begin_alike()
    ensures { ProgramsBeginAlike }
{}

/// What s steps decide of numbered trees whose patterns are trees, s + j steps decide so, with j more steps left; deliveries too.
pub fn resolved_decisions_stay()
    ensures { ResolvedDecisionsStay }
{}

/// What s steps decide of numbered trees whose patterns are tests, s + j steps decide so, with j more steps left; deliveries too.
pub fn tested_decisions_stay()
    ensures { TestedDecisionsStay }
{}

/// The numbered tree of each formed file is formed: tuples, `Case` and `If` have their parts, each number of a unit names one of the kind that
/// is meant, and unit 0 is a block.
pub fn resolved_trees_are_formed()
    ensures { ResolvedTreesAreFormed }
{}

/// The bounds of a delivery's cost are the same for a written program and for the numbered trees that it becomes, by each number of steps.
pub fn bounds_are_the_same()
    ensures { BoundsAreTheSame }
{}

/// More steps than decide a delivery have a greater bound, with the same events; a delivery that commits has one event for each message that
/// was gathered.
pub fn bounds_count_steps_and_sends()
    ensures { BoundsCountStepsAndSends }
{}

/// The program of each formed file in which no name is refused means what the file means. The two begin alike; what is alike has the same
/// output, numbers of actors and messages, and targets; what s steps decide of a delivery, or bound, at most s steps decide the same way after
/// it, or bound by no more; and what is decided or bounded after it is so before it, by some number of steps. A journal leads to
/// configurations that are alike, in both directions.
pub fn programs_mean_their_files()
    ensures { ProgramsMeanTheirFiles }
{}

/// The numbered program of a file, with its patterns as tests, is at most three times as large as the file's tree, and one more.
pub fn programs_are_small()
    ensures { ProgramsAreSmall }
{}
