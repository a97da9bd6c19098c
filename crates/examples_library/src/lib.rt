//! Components for every application: a field with a label, which says what is wanted while nothing
//! is typed; a card with components in it; tabs; and a line that can be taken out.
#![tactic(auto)]

mod bodies;
mod cards;
mod faces;
mod kept;
mod laws;
mod pages;
mod parts;
mod tabbed;

pub use bodies::{field, typed_in};
pub use cards::{HasChildren, card};
pub use faces::field_at;
pub use kept::Line;
pub use laws::fields_show;
pub use pages::{field_reads, field_shows, typed_writes};
pub use parts::{FieldProps, Library, Made, Typed};
pub use tabbed::{tab, tabs};
