//! What printed lines tell of what is printed.
//!
//! The laws stand in specs/; the functions here claim what holds of them.
#![tactic(auto)]

ghost use Rattle.lang_lines.specs.Told.{LinesTell};
ghost use Rattle.lang_lines.specs.Named.{SourcesWritePlainly};
ghost use Rattle.lang_lines.specs.Runs.{ItemsTell, RunsTell, TextsTell, FaultTextsTell, EndsTell};
ghost use Rattle.lang_lines.specs.Read.{DescribedHaveNames, DescribedWritePlainly, DoneTell, EndedTell, SortsTell};

/// Reports of one number with one line are alike, but for whether a default was prevented.
pub fn lines_tell()
    ensures { LinesTell }
{}

/// The line of an edit, a report, a fault or a message that a drain took tells what it is the line
/// of: two of them with one line are the same.
pub fn items_tell()
    ensures { ItemsTell }
{}

/// The lines of such items, one after another, tell the list of them.
pub fn runs_tell()
    ensures { RunsTell }
{}

/// What a run prints tells its edits and its reports.
pub fn texts_tell()
    ensures { TextsTell }
{}

/// What a run prints that came to a fault tells its edits, its reports and the fault.
pub fn fault_texts_tell()
    ensures { FaultTextsTell }
{}

/// What a run prints tells whether it came to a fault.
pub fn ends_tell()
    ensures { EndsTell }
{}

/// Every session of a source whose views have names writes edits that are printed plainly.
pub fn sources_write_plainly()
    ensures { SourcesWritePlainly }
{}

/// The views of every source that bytes describe have names.
pub fn described_have_names()
    ensures { DescribedHaveNames }
{}

/// So the edits of its sessions are printed plainly: of those that were done, and of those that
/// came to a fault.
pub fn described_write_plainly()
    ensures { DescribedWritePlainly }
{}

/// What sessions of such sources print tells their edits and their reports, whether they came to a
/// fault, and which.
pub fn sessions_tell()
    ensures done { DoneTell }
    ensures ended { EndedTell }
    ensures sorts { SortsTell }
{}
