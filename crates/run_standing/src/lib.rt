//! What the scopes that a rerun changes were before it, and which child an item feeds.
#![tactic(auto)]

mod keeping;
mod standing;

pub use keeping::fed_by;
pub use standing::{first_kept, keep_where};
