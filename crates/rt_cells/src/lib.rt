//! The base of reactive state: tracked cells, who reads them, reactive contexts, and the plain
//! values that all crates above are made of.
#![tactic(auto)]

mod cells;
mod compared;
mod contexts;
mod faults;
mod links;
mod numbered;
mod places;
mod readers;
mod reads;
mod sources;
mod subscribers;

pub use cells::Cells;
pub use compared::{readers_compare, sources_compare};
pub use contexts::ReactiveContext;
pub use faults::CellsFault;
pub use readers::Readers;
pub use rt_values::{
    Boxed, List, OutOfMemory, Part, ScopeId, Serials, Task, Text, copy_slice, same_slice,
};
pub use sources::{Reader, Source, Target};
pub use subscribers::Subscribers;
