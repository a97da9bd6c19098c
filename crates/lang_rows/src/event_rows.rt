//! Worked rows of events that don't bubble, and of defaults that are prevented.

ghost use Rattle.lang_rows.specs.EventRows.{BubblingRow, PreventRow, DefaultRow};

/// 0 alone keeps an event from bubbling, and stopping ends only one that bubbles.
pub fn events_stay()
    ensures { BubblingRow }
{}

/// Who hears events whose default may be prevented.
pub fn prevented_events()
    ensures { PreventRow }
{}

/// Which reports say that the default was prevented.
pub fn defaults_are_prevented()
    ensures { DefaultRow }
{}
