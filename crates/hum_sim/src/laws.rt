//! What is so of each run of a program's image.

ghost use Rattle.hum_sim.specs.Turns.{TurnsKeepTheStanding};
ghost use Rattle.hum_sim.specs.Runs.{RunsFollowTheirJournals};
ghost use Rattle.hum_sim.specs.OneLane.{OutputIsTheTexts, RunsComeToRest};
ghost use Rattle.hum_sim.specs.Emitted.{CompiledImagesHoldTheirFiles};

/// For every pick, the next state stands for the same configuration of the file, or for the one that the entry's delivery makes of it that
/// the turn adds.
pub fn turns_keep_the_standing()
    ensures { TurnsKeepTheStanding }
{}

/// After every list of picks, under every grant and for every number of lanes, the state stands for the file's configuration after the
/// deliveries of its journal. They are in a legal order, and each event has spent no more than its delivery's bound. The root runs out only
/// for its cause.
pub fn runs_follow_their_journals()
    ensures { RunsFollowTheirJournals }
{}

/// With one lane, what is written after n events is a function of the text and n, where the root has not run out.
pub fn output_is_the_texts()
    ensures { OutputIsTheTexts }
{}

/// With one lane, where the deliveries in the order of their numbers come to rest, each decided, and their bounds fit the grant, the root
/// never runs out, and at rest the run has made these deliveries and stands for the configuration that they lead to.
pub fn runs_come_to_rest()
    ensures { RunsComeToRest }
{}

/// The image that the module of a file's program links to holds it, for each file that is formed and in which no name is refused.
pub fn compiled_images_hold_their_files()
    ensures { CompiledImagesHoldTheirFiles }
{}
