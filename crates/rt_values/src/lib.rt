//! The plain values of the workspace: numbers that name things, texts, lists, boxes, finished lists
//! whose copies share their items, and what can be copied and compared.
#![tactic(auto)]

mod boxed;
mod element;
mod list;
mod memory;
mod names;
mod naming;
mod part;
mod serials;
mod shared;
mod text;

pub use boxed::Boxed;
pub use element::ElementId;
pub use list::{List, copy_slice, same_slice};
pub use memory::{OutOfMemory, both};
pub use names::{ScopeId, Task};
pub use naming::is_name;
pub use part::Part;
pub use serials::Serials;
pub use shared::Shared;
pub use text::Text;
