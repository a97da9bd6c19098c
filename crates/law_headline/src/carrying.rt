//! The numbers that the edits of units carry.

ghost use Rattle.law_headline.specs.Carried.{CutUnitsCarryAnew, HeadlinesCarryAnew, RerunsCarryAnew, UnitsCarryAnew};
ghost use Rattle.rt_model.specs.OneLog.{types};
ghost use Rattle.rt_model.specs.World.{Application};

/// The edits of a rerun carry numbers of hidden nodes that are shown again, and numbers that it drew.
pub fn reruns_carry_anew<C, P, V, H, T, E, L>()
    ensures { (app : Application (types C P V H T E L)) → RerunsCarryAnew app }
{}

/// So do the edits of each unit of a session, the build among them: no number comes that an earlier
/// edit carried, but those of hidden nodes.
pub fn units_carry_anew<C, P, V, H, T, E, L>()
    ensures { (app : Application (types C P V H T E L)) → UnitsCarryAnew app }
{}

/// So do the edits of a unit that limits cut, where they refuse the next scope that it would make.
pub fn cut_units_carry_anew<C, P, V, H, T, E, L>()
    ensures { (app : Application (types C P V H T E L)) → CutUnitsCarryAnew app }
{}

/// So do the edits of each unit of the reports of a session.
pub fn headlines_carry_anew<C, P, V, H, T, E, L>()
    ensures { (app : Application (types C P V H T E L)) → HeadlinesCarryAnew app }
{}
