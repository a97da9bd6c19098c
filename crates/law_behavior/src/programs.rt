//! From what code proves of a call to what stands after it.

ghost use Rattle.law_behavior.specs.Doms.{AsidesLead, BuildsHold, CallsComeTo, CallsHold, GivenBuildsHold, HandlesLead};
ghost use Rattle.law_behavior.specs.Doms.{PassedComesNext, PassedLeads, RendersComeTo, RendersHold, RendersMakeOrFeed};
ghost use Rattle.law_behavior.specs.Doms.{RendersRerunInTurn, RendersRunOnce};
ghost use Rattle.law_behavior.specs.Doms.{RestsAlike, SettledHold, SpentHold, UnendedGrows, UnitsFollow, UnitsLead};
ghost use Rattle.law_behavior.specs.Carries.{AsidesDrawNone, BuildsCarryAnew, CallsCarryAnew, RendersCarryAnew, SpentCarryAnew};
ghost use Rattle.law_behavior.specs.Carries.{LogsKeepDrawn, SuspendedCarryAnew};
ghost use Rattle.law_behavior.specs.Muted.{AsidesShowNothing, EventsWriteNothing, StoppedWriteNothing};
ghost use Rattle.law_behavior.specs.Polls.{PolledComesNext, PollingLeads, PollsFollow, PollsLead};
ghost use Rattle.rt_model.specs.OneLog.{types};
ghost use Rattle.rt_model.specs.World.{Application};

/// A call that logs no entry leads on.
pub fn asides_lead<C, P, V, H, T, E, L>()
    ensures { (app : Application (types C P V H T E L)) (limits : _) (props : _) (whole : _) →
        AsidesLead app limits props whole }
{}

/// A call that takes unit after unit ends at the first state in which its test holds; its edits make
/// what shows then, and each scope is current or owed a run.
pub fn calls_hold<C, P, V, H, T, E, L>()
    ensures { (app : Application (types C P V H T E L)) → CallsHold app }
{}

/// A whole render processes events, and goes on to the first state in which nothing is seen or queued;
/// its edits make what shows then, and each scope is current or owed a run.
pub fn renders_hold<C, P, V, H, T, E, L>()
    ensures { (app : Application (types C P V H T E L)) → RendersHold app }
{}

/// A call whose units were spent leads on, with what is owed.
pub fn spent_hold<C, P, V, H, T, E, L>()
    ensures { (app : Application (types C P V H T E L)) → SpentHold app }
{}

/// After a call that settles all is current.
pub fn settled_hold<C, P, V, H, T, E, L>()
    ensures { (app : Application (types C P V H T E L)) → SettledHold app }
{}

/// A whole render that polls no task after its first rerun runs no body twice.
pub fn renders_run_once<C, P, V, H, T, E, L>()
    ensures { (app : Application (types C P V H T E L)) → RendersRunOnce app }
{}

/// Such a render reruns the scopes that are seen when the first rerun is taken, in their order.
pub fn renders_rerun_in_turn<C, P, V, H, T, E, L>()
    ensures { (app : Application (types C P V H T E L)) → RendersRerunInTurn app }
{}

/// Every body that a whole render runs without rerunning its scope is made, or fed what memoize
/// refuses.
pub fn renders_make_or_feed<C, P, V, H, T, E, L>()
    ensures { (app : Application (types C P V H T E L)) → RendersMakeOrFeed app }
{}

/// A call that stopped came to its fault.
pub fn calls_come_to<C, P, V, H, T, E, L>()
    ensures { (app : Application (types C P V H T E L)) → CallsComeTo app }
{}

/// A whole render that stopped after events were processed came to its fault.
pub fn renders_come_to<C, P, V, H, T, E, L>()
    ensures { (app : Application (types C P V H T E L)) → RendersComeTo app }
{}

/// One more entry, of a unit only where the test fails.
pub fn unended_grows<C, P, V, H, T, E, L>()
    ensures { (app : Application (types C P V H T E L)) → UnendedGrows app }
{}

/// The test of a call that goes on leaves a state at which the same comes next.
pub fn rests_alike<C, P, V, H, T, E, L>()
    ensures { RestsAlike (types C P V H T E L) }
{}

/// After a build its edits make what shows of an empty document, and a program's calls begin.
pub fn builds_hold<C, P, V, H, T, E, L>()
    ensures { (app : Application (types C P V H T E L)) → BuildsHold app }
{}

/// So it is after a build whose numbers begin where they are told to, and whose root provides values.
pub fn given_builds_hold<C, P, V, H, T, E, L>()
    ensures { (app : Application (types C P V H T E L)) → GivenBuildsHold app }
{}

/// What a render while suspended takes next is what comes next, once the rest was passed over.
pub fn passed_comes_next<C, P, V, H, T, E, L>()
    ensures { PassedComesNext (types C P V H T E L) }
{}

/// An event that was handled, until no listener waits, leads on.
pub fn handles_lead<C, P, V, H, T, E, L>()
    ensures { (app : Application (types C P V H T E L)) → HandlesLead app }
{}

/// What a render while suspended passes over leads on, and shows nothing new.
pub fn passed_leads<C, P, V, H, T, E, L>()
    ensures { (app : Application (types C P V H T E L)) → PassedLeads app }
{}

/// One unit of a render while suspended leads on, and its edits make what shows after it.
pub fn units_lead<C, P, V, H, T, E, L>()
    ensures { (app : Application (types C P V H T E L)) → UnitsLead app }
{}

/// Such a unit is one more unit of that render, which counts its units together.
pub fn units_follow<C, P, V, H, T, E, L>()
    ensures { (app : Application (types C P V H T E L)) → UnitsFollow app }
{}

/// What a poll of suspended work takes next is what comes next, once the rest was passed over.
pub fn polled_comes_next<C, P, V, H, T, E, L>()
    ensures { PolledComesNext (types C P V H T E L) }
{}

/// The tasks that a poll of suspended work passes over lead on, and show nothing new.
pub fn polling_leads<C, P, V, H, T, E, L>()
    ensures { (app : Application (types C P V H T E L)) → PollingLeads app }
{}

/// One poll of suspended work, by itself, leads on and shows nothing new.
pub fn polls_lead<C, P, V, H, T, E, L>()
    ensures { (app : Application (types C P V H T E L)) → PollsLead app }
{}

/// It is one more unit of a poll of suspended work, which counts its units together.
pub fn polls_follow<C, P, V, H, T, E, L>()
    ensures { (app : Application (types C P V H T E L)) → PollsFollow app }
{}

/// The edits of a call that takes unit after unit carry numbers of hidden nodes that are shown again, and
/// numbers that no edit carried before, whatever edits came before the call.
pub fn calls_carry_anew<C, P, V, H, T, E, L>()
    ensures { (app : Application (types C P V H T E L)) → CallsCarryAnew app }
{}

/// So do those of a whole render.
pub fn renders_carry_anew<C, P, V, H, T, E, L>()
    ensures { (app : Application (types C P V H T E L)) → RendersCarryAnew app }
{}

/// So do those of a call whose units were spent.
pub fn spent_carry_anew<C, P, V, H, T, E, L>()
    ensures { (app : Application (types C P V H T E L)) → SpentCarryAnew app }
{}

/// So do those of one unit of a render while suspended.
pub fn suspended_carry_anew<C, P, V, H, T, E, L>()
    ensures { (app : Application (types C P V H T E L)) → SuspendedCarryAnew app }
{}

/// So do those of a build, before which there are none.
pub fn builds_carry_anew<C, P, V, H, T, E, L>()
    ensures { (app : Application (types C P V H T E L)) → BuildsCarryAnew app }
{}

/// A call that logs no entry draws no number of an element.
pub fn asides_draw_none<C, P, V, H, T, E, L>()
    ensures { (app : Application (types C P V H T E L)) → AsidesDrawNone app }
{}

/// Along an accepted log what was drawn stays drawn.
pub fn logs_keep_drawn<C, P, V, H, T, E, L>()
    ensures { (app : Application (types C P V H T E L)) → LogsKeepDrawn app }
{}

/// A call that processes events writes nothing.
pub fn events_write_nothing<C, P, V, H, T, E, L>()
    ensures { (app : Application (types C P V H T E L)) → EventsWriteNothing app }
{}

/// Nor does one that came to a fault.
pub fn stopped_write_nothing<C, P, V, H, T, E, L>()
    ensures { (app : Application (types C P V H T E L)) → StoppedWriteNothing app }
{}

/// A call that logs no entry shows nothing new.
pub fn asides_show_nothing<C, P, V, H, T, E, L>()
    ensures { (app : Application (types C P V H T E L)) → AsidesShowNothing app }
{}
