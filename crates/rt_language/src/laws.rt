//! Laws of every source.

ghost use Rattle.rt_language.specs.Laws.{SourcesAreLawful, ExpressionsLook, SourcesPollMemos};
ghost use Rattle.rt_language.specs.PrintedSays.{RowsSay, FaultRowsSay};
ghost use Rattle.rt_language.specs.Wide.{NarrowHaveTheirPaths, WideNeverFit};

/// The application of every source obeys the laws.
pub fn sources_are_lawful()
    ensures { SourcesAreLawful }
{}

/// What is computed of memos and resources names no error, payload, render count, scope or task, so
/// that it only looks; and the test of values decides.
pub fn expressions_look()
    ensures { ExpressionsLook }
{}

/// Every source polls its memos and resources as they are defined for every application.
pub fn sources_poll_memos()
    ensures { SourcesPollMemos }
{}

/// The headline holds of a row that computes, of every source.
pub fn rows_say()
    ensures { RowsSay }
{}

/// A row that ends in a fault comes to it as the definitions say, of every source.
pub fn fault_rows_say()
    ensures { FaultRowsSay }
{}

/// Where no row has more than 256 nodes, a view's template has just the paths of its slots.
pub fn narrow_have_their_paths()
    ensures { NarrowHaveTheirPaths }
{}

/// The tree of a view with a longer row passes no node test.
pub fn wide_never_fit()
    ensures { WideNeverFit }
{}
