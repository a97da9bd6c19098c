//! Worked rows of what a program asks of a runtime that it keeps.

ghost use Rattle.lang_rows.specs.CallRows.{PausedRow, PolledNowRow, BatchRow, MarkedRow, PollRow, SpentRenderRow, FirstNumbersRow, RootContextsRow, BelowRow, PlacesRow, CountedRow};

/// A task that is paused isn't polled; once it is resumed it goes on.
pub fn paused_and_resumed()
    ensures { PausedRow }
{}

/// No look follows a poll that a program asks for.
pub fn polled_at_once()
    ensures { PolledNowRow }
{}

/// What an effect of a batch wrote has posted a mark.
pub fn batch_without_a_look()
    ensures { BatchRow }
{}

/// Marks from outside are seen at once, and what is seen is rerun in order.
pub fn marked_from_outside()
    ensures { MarkedRow }
{}

/// A poll of suspended work takes isomorphic tasks alone, until a scope is seen.
pub fn polls_suspended_work()
    ensures { PollRow }
{}

/// A suspended render counts its own units.
pub fn spends_the_units_of_a_render()
    ensures { SpentRenderRow }
{}

/// Numbers begin where a program says.
pub fn first_numbers()
    ensures { FirstNumbersRow }
{}

/// What the root provides before the build is found.
pub fn contexts_of_the_root()
    ensures { RootContextsRow }
{}

/// Which scopes stand below others.
pub fn below_others()
    ensures { BelowRow }
{}

/// Where the nodes of numbers stand.
pub fn places_of_numbers()
    ensures { PlacesRow }
{}

/// How often logs call the application.
pub fn counted_calls()
    ensures { CountedRow }
{}
