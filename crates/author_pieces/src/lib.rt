//! Trees as they nest: pieces, whose slots are numbered and whose paths are found.
#![tactic(auto)]

mod attrs;
mod breaches;
mod builtin;
mod filling;
mod kept;
mod numbering;
mod pieces;
mod shapes;
mod trees;

pub use attrs::{Attrs, and, empty_attrs, fixed, listens, open_attr, says};
pub use breaches::{BadMarkup, Breach};
pub use builtin::{error_boundary, fragment, several, suspense_boundary, when};
pub use filling::{Filling, Slots, fill};
pub use kept::Kept;
pub use pieces::{Piece, beside, child, element, empty_piece, hole, open_slot, shown, text};
pub use shapes::{Shape, ShapeAttribute};
pub use trees::{Unfit, checked, view};
