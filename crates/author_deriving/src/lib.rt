//! Memos and resources: cells that a task keeps equal to a formula, or to what was loaded for the
//! present key. For every application.
#![tactic(auto)]

mod applications;
mod formulas;
mod polls;
mod settled;
mod task;
mod used;

pub use applications::{MemoApp, MemoBodies};
pub use formulas::HasMemo;
pub use polls::{poll_memo, step_memo};
pub use task::{Load, MemoTask};
pub use used::{use_memo, use_resource};
