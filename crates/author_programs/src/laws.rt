//! Laws of programs and of pages.
ghost use Rattle.rt_model.specs.OneLog.{types};
ghost use Rattle.author_programs.specs.Shows.{ShowsPresentValues};
ghost use Rattle.author_programs.specs.Means.{ComesToMeaning, GoesOnFromThere, PagesAreLawful, MemoizedAreLawful, CodedTests, EitherTests, PairTests, PlainTests};
ghost use Rattle.author_programs.specs.Author.{UnreadRunsNothing, HeardFromBelow, ReportsShowPages};
ghost use Rattle.author_programs.specs.Present.{CurrentPagesShow};

/// Whatever call it goes on from, a program means the answer and the call that it comes to.
pub fn programs_come_to_their_meaning<C, P, V, H, T, E, L, A>()
    ensures { ComesToMeaning (types C P V H T E L) A }
{}

/// A program and then another one come to what the second comes to, from where the first one did.
pub fn programs_go_on<C, P, V, H, T, E, L, A, B>()
    ensures { GoesOnFromThere (types C P V H T E L) A B }
{}

/// An application of pure answers is lawful where its tests decide.
pub fn pages_are_lawful<C, P, V, H, T, E, L>()
    ensures { PagesAreLawful (types C P V H T E L) }
{}

/// An application of programs is lawful where its tests decide, and where a component is taken to
/// mean the same with equal props.
pub fn memoized_are_lawful<C, P, V, H, T, E, L>()
    ensures { MemoizedAreLawful (types C P V H T E L) }
{}

/// A test of both parts decides pairs.
pub fn pair_tests<A, B>()
    ensures { PairTests A B }
{}

/// A test of each of two types decides what is of the one or of the other.
pub fn either_tests<A, B>()
    ensures { EitherTests A B }
{}

/// A test of what values are coded as decides, where the code can be read back.
pub fn coded_tests<A, B>()
    ensures { CodedTests A B }
{}

/// A page whose scope has its cells shows what its function gives of the present values.
pub fn pages_show_present_values<C, P, V, H, T, E, L>()
    ensures { ShowsPresentValues (types C P V H T E L) }
{}

/// Where every output is current, a scope whose hooks kept the cells of its page shows what the
/// page's function gives of the present values.
pub fn current_pages_show<C, P, V, H, T, E, L>()
    ensures { CurrentPagesShow (types C P V H T E L) }
{}

/// The tests of numbers, texts and of nothing decide.
pub fn plain_tests()
    ensures { PlainTests }
{}

/// After each report of a session whose headline holds, every scope of a page whose hooks kept its
/// cells shows what the page's function gives of the present values.
pub fn reports_show_pages<C, P, V, H, T, E, L>()
    ensures { ReportsShowPages (types C P V H T E L) }
{}

/// A write of a cell that is read nowhere changes nothing but the cells: no scope is marked and no
/// task woken.
pub fn unread_runs_nothing<C, P, V, H, T, E, L>()
    ensures { UnreadRunsNothing (types C P V H T E L) }
{}

/// Each listener that an event calls stands on the event's element or on one above it.
pub fn heard_from_below<C, P, V, H, T, E, L>()
    ensures { HeardFromBelow (types C P V H T E L) }
{}
