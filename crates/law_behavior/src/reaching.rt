//! Where errors and look-ups go, and who is marked.

ghost use Rattle.law_behavior.specs.Errors.{ThrowsFillOnce};
ghost use Rattle.law_behavior.specs.Marking.{ProvidesPostReaders, WritesPostReaders};
ghost use Rattle.law_behavior.specs.Nearest.{NearestIsFound, NearestProvides, WaysAreShort};
ghost use Rattle.law_behavior.specs.Only.{WritesPostOnlyReaders};
ghost use Rattle.rt_model.specs.OneLog.{types};
ghost use Rattle.rt_model.specs.World.{Application};

/// What is found upwards, an error boundary or a suspense boundary, is the nearest one.
pub fn nearest_is_found<C, P, V, H, T, E, L>()
    ensures { NearestIsFound (types C P V H T E L) }
{}

/// A look-up of a context gives what the nearest scope provides, the asking one included.
pub fn nearest_provides<C, P, V, H, T, E, L>()
    ensures { NearestProvides (types C P V H T E L) }
{}

/// Where heights are right a look-up reaches each provider above.
pub fn ways_are_short<C, P, V, H, T, E, L>()
    ensures { WaysAreShort (types C P V H T E L) }
{}

/// A thrown error fills the nearest empty slot, and changes nothing where one keeps an error.
pub fn throws_fill_once<C, P, V, H, T, E, L>()
    ensures { ThrowsFillOnce (types C P V H T E L) }
{}

/// A write posts all readers of its cell, also where the value is equal to the one before.
pub fn writes_post_readers<C, P, V, H, T, E, L>()
    ensures { WritesPostReaders (types C P V H T E L) }
{}

/// What is posted after a write was posted before, or it is of a reader of the cell.
pub fn writes_post_only_readers<C, P, V, H, T, E, L>()
    ensures { WritesPostOnlyReaders (types C P V H T E L) }
{}

/// A context that is provided again marks its readers where the value differs, and nobody else.
pub fn provides_post_readers<C, P, V, H, T, E, L>()
    ensures { (app : Application (types C P V H T E L)) → ProvidesPostReaders app }
{}
