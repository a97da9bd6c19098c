//! What shows of the scopes of a component runtime: the document, the listeners that an event
//! calls, and the edits that a unit writes.
#![tactic(auto)]

mod aimed;
mod asked;
mod calm;
mod climb;
mod comparing;
mod edited;
mod finding;
mod found;
mod given;
mod hearing;
mod inserting;
mod look;
mod numbered;
mod own;
mod pieces;
mod remembered;
mod rows;
mod scope_set;
mod showing;
mod sides;
mod slots;
mod sought;
mod still;
mod tops;
mod touching;
mod way;
mod writing;

pub use asked::GivenRows;
pub use given::{first_unknown, items_given, last_unknown, numbers_given, slot_given, tree_given};
pub use hearing::{Listener, heard};
pub use look::{Look, OtherSides, Stood};
pub use pieces::{Top, items_pieces, slot_pieces, tree_pieces};
pub use remembered::Remembered;
pub use rows::{nodes_of, view};
pub use sides::{removals, replaced_by};
pub use writing::{built, written, written_until};
