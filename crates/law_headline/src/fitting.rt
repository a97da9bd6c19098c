//! Outputs that pass the node test.

ghost use Rattle.law_headline.specs.Fitting.{FittingBring};
ghost use Rattle.rt_model.specs.OneLog.{types};

/// Of two outputs of one template that pass the node test, what is written of their attribute slots
/// makes the new attributes and listeners of the old ones.
pub fn fitting_bring<C, P, V, H, T, E, L>()
    ensures { FittingBring (types C P V H T E L) }
{}
