//! From what code proves of a session to the headline.

ghost use Rattle.law_headline.specs.Calm.{CalmEntriesLeave};
ghost use Rattle.law_headline.specs.Sessions.{FinishedHold, RanIsHeadline, RanShows, RanToIsCameTo, RanToShows, SessionsHold};
ghost use Rattle.rt_model.specs.OneLog.{types};
ghost use Rattle.rt_model.specs.World.{Application};

/// Inputs, listeners, polls and effects change nothing that shows.
pub fn calm_entries_leave<C, P, V, H, T, E, L>()
    ensures { (app : Application (types C P V H T E L)) → CalmEntriesLeave app }
{}

/// The edits of a session that finished never fault, and after each report give what shows.
pub fn ran_shows<C, P, V, H, T, E, L>()
    ensures { (app : Application (types C P V H T E L)) → RanShows app }
{}

/// So do those of the finished reports of a session that came to a fault.
pub fn ran_to_shows<C, P, V, H, T, E, L>()
    ensures { (app : Application (types C P V H T E L)) → RanToShows app }
{}

/// A session that finished keeps the headline.
pub fn ran_is_headline<C, P, V, H, T, E, L>()
    ensures { (app : Application (types C P V H T E L)) → RanIsHeadline app }
{}

/// A session that came to a fault keeps it of its finished reports, and came to that fault.
pub fn ran_to_is_came_to<C, P, V, H, T, E, L>()
    ensures { (app : Application (types C P V H T E L)) → RanToIsCameTo app }
{}

/// Reports that were finished keep the headline's sentences, whatever came after them.
pub fn finished_hold<C, P, V, H, T, E, L>()
    ensures { (app : Application (types C P V H T E L)) → FinishedHold app }
{}

/// All of a session that code proves its part of: that it finished, came to a fault or broke off.
pub fn sessions_hold<C, P, V, H, T, E, L>()
    ensures { (app : Application (types C P V H T E L)) → SessionsHold app }
{}
