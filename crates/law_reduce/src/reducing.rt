//! What an input makes of the values of cells, from one report to the next.

ghost use Rattle.law_reduce.specs.Reduces.{OneHears, ReportsReduce};
ghost use Rattle.rt_model.specs.OneLog.{types};

/// From each report of a finished session to the next each cell whose owner stays goes from its
/// value to the one that the input makes of the values.
pub fn reports_reduce<C, P, V, H, T, E, L>()
    ensures { ReportsReduce (types C P V H T E L) }
{}

/// Where one listener alone hears an event the values become what it makes of them; where none does
/// they stay.
pub fn one_hears<C, P, V, H, T, E, L>()
    ensures { OneHears (types C P V H T E L) }
{}
