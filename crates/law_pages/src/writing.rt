//! What a listener leaves in a cell that it writes, whatever its application is.

ghost use Rattle.law_pages.specs.Writes.{HeardEntriesWrite};
ghost use Rattle.rt_model.specs.OneLog.{types};
ghost use Rattle.rt_model.specs.World.{Application};

/// The entry of a listener's call that writes a cell once, and doesn't drop it, leaves the value in it.
pub fn heard_entries_write<C, P, V, H, T, E, L>()
    ensures { (app : Application (types C P V H T E L)) → HeardEntriesWrite app }
{}
