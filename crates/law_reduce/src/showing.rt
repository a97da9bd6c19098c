//! What shows after a report, of what the inputs made of the values.

ghost use Rattle.law_reduce.specs.Bodies.{BodiesShow, ReportsShowBodies};
ghost use Rattle.law_reduce.specs.Elm.{OwnPagesShow};
ghost use Rattle.law_reduce.specs.Shows.{FoldsShow, ReportsShowReduced};
ghost use Rattle.law_reduce.specs.Values.{PagesShowValues};
ghost use Rattle.rt_model.specs.OneLog.{types};

use law_behavior::marks_are_run;
use law_lasting::components_last;
use law_minding::cells_are_drawn;
use law_moves::fed_fit;

/// After each report a scope of a page whose hooks kept its cells shows the page's function of what
/// the input made of the values, where the cells that it reads stay.
pub fn reports_show_reduced<C, P, V, H, T, E, L>()
    ensures { ReportsShowReduced (types C P V H T E L) }
{}

/// Where after the build no cell comes and none goes, it shows after the last report the page's
/// function of the fold of all inputs.
pub fn folds_show<C, P, V, H, T, E, L>()
    ensures { FoldsShow (types C P V H T E L) }
{}

/// Where every output is current, a scope shows what its body's program answers in the present
/// world.
pub fn bodies_show<C, P, V, H, T, E, L>()
    ensures { BodiesShow (types C P V H T E L) }
{}

/// So it does after each report of a session whose headline holds.
pub fn reports_show_bodies<C, P, V, H, T, E, L>()
    ensures { ReportsShowBodies (types C P V H T E L) }
{}

/// From its first run on a scope of a page shows after each report what the page's function gives of
/// the present values, as long as nothing removes it.
pub fn pages_show_values<C, P, V, H, T, E, L>()
    ensures { PagesShowValues (types C P V H T E L) }
{
    // What a write marks is run, or it is gone.
    marks_are_run::<C, P, V, H, T, E, L>();
    // A page is handed that page, with other props or its own.
    fed_fit::<C, P, V, H, T, E, L>();
    components_last::<C, P, V, H, T, E, L>();
}

/// Elm's equation: a scope of a page that has run once when the build is reported, where its page
/// and whoever hears an input read no cells but its own, shows after the last report the page's
/// function of the fold of all inputs, if nothing removes it.
pub fn own_pages_show<C, P, V, H, T, E, L>()
    ensures { OwnPagesShow (types C P V H T E L) }
{
    // What a write marks is run, or it is gone.
    marks_are_run::<C, P, V, H, T, E, L>();
    // A page is handed that page, with other props or its own.
    fed_fit::<C, P, V, H, T, E, L>();
    components_last::<C, P, V, H, T, E, L>();
    // The numbers of the cells that its run made were drawn.
    cells_are_drawn::<C, P, V, H, T, E, L>();
}
