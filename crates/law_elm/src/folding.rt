//! Elm programs: all cells are the root's.

ghost use Rattle.law_elm.specs.Programs.{ElmProgramsFold, ElmProgramsShow};
ghost use Rattle.rt_model.specs.OneLog.{types};

use law_behavior::marks_are_run;
use law_lasting::components_last;
use law_minding::cells_are_drawn;
use law_moves::{children_fit_slots, fed_fit};
use law_reduce::root_stays;

/// In a session of an Elm program all cells are the root's once the build is reported and its scope
/// has them, no cell comes and none goes after that, and after the last report they have what the
/// fold of all inputs makes of them.
pub fn elm_programs_fold<C, P, V, H, T, E, L>()
    ensures { ElmProgramsFold (types C P V H T E L) }
{
    // The scope of the root's component stands where it has to, and no other one does.
    children_fit_slots::<C, P, V, H, T, E, L>();
    root_stays::<C, P, V, H, T, E, L>();
}

/// Elm's equation of an Elm program: once it has run when the build is reported the root shows after
/// the last report the function of its page of the fold of all inputs, where its page reads no cells
/// but its own. Nothing is asked of who hears an input, nor of logs.
pub fn elm_programs_show<C, P, V, H, T, E, L>()
    ensures { ElmProgramsShow (types C P V H T E L) }
{
    elm_programs_fold::<C, P, V, H, T, E, L>();
    children_fit_slots::<C, P, V, H, T, E, L>();
    root_stays::<C, P, V, H, T, E, L>();
    // It shows its page's function of present values.
    marks_are_run::<C, P, V, H, T, E, L>();
    fed_fit::<C, P, V, H, T, E, L>();
    components_last::<C, P, V, H, T, E, L>();
    cells_are_drawn::<C, P, V, H, T, E, L>();
}
