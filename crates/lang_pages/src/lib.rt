//! What a page of a source is spelt in: names that can be spelt, and nodes that are read back.
//!
//! The laws stand in specs/; the functions here claim that they hold.
#![tactic(auto)]

ghost use Rattle.lang_pages.specs.Pages.{NamesAreSpelt, NoneIsUnspelt, PutComesBack, SafeIsServable, SpeltComeBack};
ghost use Rattle.rt_model.specs.OneLog.{types};

/// A page of a source that bytes describe, or a piece of one, is never refused for a name that
/// can't be spelt.
pub fn pages_are_spelt()
    ensures names { NamesAreSpelt }
    ensures none { NoneIsUnspelt }
    ensures servable { SafeIsServable }
{}

/// What shows of an application is what is read of its spelling, where its names can be spelt and it
/// has at most 1,024 levels.
pub fn spellings_come_back<C, P, V, H, T, E, L>()
    ensures { SpeltComeBack (types C P V H T E L) }
{}

/// So it is with what stands in a page of a source that bytes describe, or in a piece of one.
pub fn pages_come_back()
    ensures { PutComesBack }
{}
