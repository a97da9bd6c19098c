//! A small router, written with the calls of a `Cx`: the component at the top keeps the number of a
//! route in a cell and provides that cell as a context; links write it, and the page that stands
//! below them reads it.
#![tactic(auto)]

mod laws;
mod router;

pub use laws::{links_last, numbers_stay, route_lasts, rows_are_all, sessions_agree};
pub use router::{Component, Routed, Router};
