//! The scope of the application's root: that it stays, and what it shows at the end.

ghost use Rattle.law_elm.specs.RootShows.{ElmFolds, ElmShows, RepliesRead};
ghost use Rattle.law_elm.specs.Roots.{RootsLast};
ghost use Rattle.rt_model.specs.OneLog.{types};

use law_moves::children_fit_slots;
use law_reduce::{own_pages_show, root_stays};

/// In a session of pages in which nothing fails the scope of the application's root stays where it
/// stands when the build is reported, and no log removes it.
pub fn roots_last<C, P, V, H, T, E, L>()
    ensures { RootsLast (types C P V H T E L) }
{
    // What stands in the suspense boundary's tree is an error boundary, so the one that it has.
    children_fit_slots::<C, P, V, H, T, E, L>();
    // As long as that boundary has it in its tree it stays.
    root_stays::<C, P, V, H, T, E, L>();
}

/// Elm's equation: once it has run when the build is reported it shows after the last report the
/// function of its page of the fold of all inputs, where its page and whoever hears an input read no
/// cells but its own.
pub fn elm_shows<C, P, V, H, T, E, L>()
    ensures { ElmShows (types C P V H T E L) }
{
    roots_last::<C, P, V, H, T, E, L>();
    // So it is of any scope that nothing removes.
    own_pages_show::<C, P, V, H, T, E, L>();
}

/// The cells that the root's scope owns when the build is reported have after the last report what the
/// fold of all inputs makes of the values then, where whoever hears an input reads no others.
pub fn elm_folds<C, P, V, H, T, E, L>()
    ensures { ElmFolds (types C P V H T E L) }
{
    roots_last::<C, P, V, H, T, E, L>();
}

/// Where no listener of an application reads any cells but these, no one who hears an input does.
pub fn replies_read<C, P, V, H, T, E, L>()
    ensures { RepliesRead (types C P V H T E L) }
{}
