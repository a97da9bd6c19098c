//! The law.
ghost use Rattle.lang_minding.specs.Kept.{SourcesKeepMemos};

use lang_script::TaskState;
use lang_views::{Deriving, Doing, Props, Value};
use law_minding::sessions_keep_memos;

/// Of the reports of each session of a source: each poll of a memo or of a resource is that of the
/// definitions, and one that nobody else touches is what its expression gives after each report
/// where its task is active.
pub fn sources_keep_memos()
    ensures { SourcesKeepMemos }
{
    sessions_keep_memos::<u64, Props, Value, Doing, TaskState, Doing, Value, Deriving>();
}
