//! Sessions of applications that have memos and resources, and what these are made of.
#![tactic(auto)]

mod keeping;

pub use author_deriving::{
    HasMemo, Load, MemoApp, MemoBodies, MemoTask, poll_memo, step_memo, use_memo, use_resource,
};
pub use keeping::memo_session;
pub use law_minding::{polls_are_done, sessions_keep_memos};
pub use rt_session::{Input, Limits, Report, SessionFault};
