//! The places of a scope's tree, what stands at each, and what a scope keeps of it.
#![tactic(auto)]

mod drawn;
mod keys;
mod levels;
mod nodes;
mod ordered;
mod pairs;
mod piece;
mod place;
mod place_keys;
mod seats;
mod side;
mod spot;
mod trail;

pub use drawn::Drawn;
pub use levels::{LEVELS, down};
pub use nodes::{NodeAt, Nodes};
pub use ordered::in_order;
pub use piece::{Piece, path_below, pieces_of};
pub use place::{Kind, Place, Step, is_same_kind, is_same_place, place_inside, place_of_item};
pub use seats::Seats;
pub use side::{Side, SideName};
pub use spot::{Spot, spots};
pub use trail::{Path, Trail, is_on, place_on, stands_after, stands_at, steps_on, steps_to};
