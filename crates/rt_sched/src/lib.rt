//! What runs next: marked scopes and woken tasks by height and number, effects last.
#![tactic(auto)]

mod asked;
mod compared;
mod dirty;
mod effects;
mod line;
mod order;
mod place;
mod queues;
mod roll;
mod seating;
mod tree;
mod work;

pub use compared::{dirty_tasks_compare, effects_compare, orders_compare};
pub use dirty::DirtyTasks;
pub use effects::Effect;
pub use order::ScopeOrder;
pub use queues::Queues;
pub use work::Work;
