//! Marks that are served one by one, each by what is known of the new tree so far.

ghost use Rattle.rt_model.specs.OneLog.{types};
ghost use Rattle.rt_model.specs.World.{Application};
ghost use Rattle.law_patch.specs.Appended.{AppendedAgrees};
ghost use Rattle.law_patch.specs.Behind.{MarksReadBehind};
ghost use Rattle.law_patch.specs.Fresh.{MarksReadFresh};
ghost use Rattle.law_patch.specs.SoFar.{ServedIsWritten, WrittenSoFar};

/// A mark reads of the new tree what was met in front of it.
pub fn marks_read_behind<C, P, V, H, T, E, L>()
    ensures { (app : Application (types C P V H T E L)) → MarksReadBehind app }
{}

/// Where something new comes or takes another one's place, only what came new in front is read.
pub fn marks_read_fresh<C, P, V, H, T, E, L>()
    ensures { (app : Application (types C P V H T E L)) → MarksReadFresh app }
{}

/// What is written there by what is known so far is what is written by what stands in the end.
pub fn written_so_far<C, P, V, H, T, E, L>()
    ensures { (app : Application (types C P V H T E L)) → WrittenSoFar app }
{}

/// So a patch that is served mark by mark writes what the definitions write of the two trees.
pub fn served_is_written<C, P, V, H, T, E, L>()
    ensures { (app : Application (types C P V H T E L)) → ServedIsWritten app }
{}

/// Where numbers and child scopes are only appended, a side so far agrees with that of the end at
/// each spot that it knows.
pub fn appended_agrees<C, P, V, H, T, E, L>()
    ensures { AppendedAgrees (types C P V H T E L) }
{}
