//! What shows of a component that is a page, whatever the other components of its application are.

ghost use Rattle.law_pages.specs.OnePage.{OnePageShows, OneReadShows};
ghost use Rattle.rt_model.specs.OneLog.{types};

/// Where every output is current, a scope of a component that is a page shows what the page's
/// function gives of the present values.
pub fn one_page_shows<C, P, V, H, T, E, L>()
    ensures { OnePageShows (types C P V H T E L) }
{}

/// So does one whose body reads a cell and shows a function of it, of the cell's present value.
pub fn one_read_shows<C, P, V, H, T, E, L>()
    ensures { OneReadShows (types C P V H T E L) }
{}
