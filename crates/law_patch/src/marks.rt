//! What the marks of two trees come to.

ghost use Rattle.rt_model.specs.OneLog.{types};
ghost use Rattle.rt_model.specs.World.{Application};
ghost use Rattle.law_patch.specs.Agenda.{MarksDo};
ghost use Rattle.law_patch.specs.Events.{MarksAreEvents};
ghost use Rattle.law_patch.specs.Written.{MarksAreWritten, MarksBring};

/// What becomes of each place, by the marks, is what the runtime's walk over both trees finds.
pub fn marks_are_events<C, P, V, H, T, E, L>()
    ensures { (app : Application (types C P V H T E L)) → MarksAreEvents app }
{}

/// The marks do the agenda of the definitions: each number that is drawn, each child scope that is
/// fed or made, each that is dropped; the numbers that go are those that aren't kept.
pub fn marks_do<C, P, V, H, T, E, L>()
    ensures { (app : Application (types C P V H T E L)) → MarksDo app }
{}

/// What is written at the marks, one after another, is what the definitions write of the two trees.
pub fn marks_are_written<C, P, V, H, T, E, L>()
    ensures { (app : Application (types C P V H T E L)) → MarksAreWritten app }
{}

/// So it makes what the new tree shows of what the old one showed, wherever that stands.
pub fn marks_bring<C, P, V, H, T, E, L>()
    ensures { (app : Application (types C P V H T E L)) → MarksBring app }
{}
