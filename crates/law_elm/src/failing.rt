//! Errors of boundaries: what keeps them away.

ghost use Rattle.law_elm.specs.ErrorsStayAway.{NoErrorComes};
ghost use Rattle.law_elm.specs.NoErrors.{PagesKeepNoError};
ghost use Rattle.rt_model.specs.OneLog.{types};
ghost use Rattle.rt_model.specs.World.{Application};

/// A boundary without an error has none until a call throws to it, or it is removed.
pub fn no_error_comes<C, P, V, H, T, E, L>()
    ensures { (app : Application (types C P V H T E L)) → NoErrorComes app }
{}

/// In an application of pages in whose trees nothing fails no scope ever keeps an error.
pub fn pages_keep_no_error<C, P, V, H, T, E, L>()
    ensures { PagesKeepNoError (types C P V H T E L) }
{}
