//! The values of cells after the last report, as a fold over the inputs.

ghost use Rattle.law_reduce.specs.Elm.{OwnCellsFold};
ghost use Rattle.law_reduce.specs.Folds.{PagesReduce};
ghost use Rattle.rt_model.specs.OneLog.{types};

/// Where after the build no cell comes and none goes, each value after the last report is that of
/// the fold of the inputs over the values after the build.
pub fn pages_reduce<C, P, V, H, T, E, L>()
    ensures { PagesReduce (types C P V H T E L) }
{}

/// Where whoever hears an input reads no cells but those that one scope owns after the build, and
/// no log removes it, each of these has after the last report the value of the fold of the inputs,
/// whatever cells of other scopes come and go.
pub fn own_cells_fold<C, P, V, H, T, E, L>()
    ensures { OwnCellsFold (types C P V H T E L) }
{}
