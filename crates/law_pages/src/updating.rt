//! What pages leave of the values of cells, and what their listeners make of them.

ghost use Rattle.law_pages.specs.Keeps.{KeptPagesAskNothing, PagesKeepCells};
ghost use Rattle.law_pages.specs.Updates.{EventsUpdate, HeardEntriesUpdate, ListenersUpdate};
ghost use Rattle.rt_model.specs.OneLog.{types};

/// In an application of pages all but listeners and inputs that write leaves every cell whose owner
/// stays.
pub fn pages_keep_cells<C, P, V, H, T, E, L>()
    ensures { PagesKeepCells (types C P V H T E L) }
{}

/// A page whose scope has its cells asks for nothing, draws no number and meets no fault.
pub fn kept_pages_ask_nothing<C, P, V, H, T, E, L>()
    ensures { KeptPagesAskNothing (types C P V H T E L) }
{}

/// A listener of a page that hears an event leaves the values that its reply gives of them.
pub fn listeners_update<C, P, V, H, T, E, L>()
    ensures { ListenersUpdate (types C P V H T E L) }
{}

/// Where nothing else is at work the entry of such a call leaves them.
pub fn heard_entries_update<C, P, V, H, T, E, L>()
    ensures { HeardEntriesUpdate (types C P V H T E L) }
{}

/// A log from where listeners wait begins with their entries, after which the values are what the
/// listeners in turn make of them, and nobody waits.
pub fn events_update<C, P, V, H, T, E, L>()
    ensures { EventsUpdate (types C P V H T E L) }
{}
