// What is so of every program.

ghost use Rattle.hum_meaning.specs.Laws.{EvaluationStays, MatchingStays, ExecutionStays, DepthIsEnough, DeliveriesStay, JournalsDecide, MessagesHaveTargets, EventsKeepSoundness, ReachableConfigurationsAreSound, EachNameIsJudged};
ghost use Rattle.hum_meaning.specs.Codes.{FailuresHaveCodes};

/// What s steps decide of an expression, s + j steps decide so, with j more steps left.
pub fn evaluation_stays()
    ensures { EvaluationStays }
{}

/// What s steps decide of a pattern and a value, s + j steps decide so, with j more steps left.
pub fn matching_stays()
    ensures { MatchingStays }
{}

/// What s steps decide of a block's statements, s + j steps decide so, with j more steps left.
pub fn execution_stays()
    ensures { ExecutionStays }
{}

/// At every depth above s, expressions, patterns and blocks have the outcome that s steps give them: a depth is no bound of its own.
pub fn depth_is_enough()
    ensures { DepthIsEnough }
{}

/// A delivery that s steps decide is the same for s + j steps.
pub fn deliveries_stay()
    ensures { DeliveriesStay }
{}

/// From the opening configuration of a file a journal leads to one configuration at most.
pub fn journals_decide()
    ensures { JournalsDecide }
{}

/// In a sound configuration each pending message has a target.
pub fn messages_have_targets()
    ensures { MessagesHaveTargets }
{}

/// A finished event, whatever its end is, makes a sound configuration of a sound one.
pub fn events_keep_soundness()
    ensures { EventsKeepSoundness }
{}

/// From the opening configuration of a file every journal leads to a sound configuration.
pub fn reachable_configurations_are_sound()
    ensures { ReachableConfigurationsAreSound }
{}

/// The scope rule has one verdict for each name of a file, in the order in which they are spelled.
pub fn each_name_is_judged()
    ensures { EachNameIsJudged }
{}

/// What an actor does fails with one of the codes 1 to 7, and a device that refuses with 8: evaluation, matching, execution and deliveries.
pub fn failures_have_codes()
    ensures { FailuresHaveCodes }
{}
