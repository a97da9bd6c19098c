//! What a session keeps of the memo and of the resource. The function does nothing: what it claims
//! is its contract, which follows of the laws that it names.
ghost use Rattle.examples_derived.specs.Sentences.{DerivedAreKept};

use crate::derived::{Component, Formula, Tasks};
use crate::parts::Value;
use rt_author::{NoData, memoized_are_lawful, sessions_keep_memos};

/// A session keeps the memo and the resource that nobody else touches.
pub fn derived_are_kept()
    ensures { DerivedAreKept }
{
    memoized_are_lawful::<Component, NoData, Value, NoData, Tasks, NoData, NoData>();
    sessions_keep_memos::<Component, NoData, Value, NoData, Tasks, NoData, NoData, Formula>();
}
