//! The law.
ghost use Rattle.rt_model.specs.OneLog.{types};
ghost use Rattle.author_programs.specs.First.{FirstPagesShow};

/// Where every output is current, a scope of a page that has run once shows what the page's function
/// gives of the first values of the cells that it made.
pub fn first_pages_show<C, P, V, H, T, E, L>()
    ensures { FirstPagesShow (types C P V H T E L) }
{}
