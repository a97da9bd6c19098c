//! From the bytes of a source to the checked source that they are, exactly where they are in its form;
//! its statements are read with the names in reach as places.
#![tactic(auto)]

mod binding;
mod definitions;
mod forms;
mod inputs;
mod plain;
mod reading;
mod signatures;
mod statements;
mod whole;

pub use forms::{Binder, Calling, Place, Plain, StatementForm, Word, form_in, stands};
pub use inputs::input;
pub use reading::{SOURCE_LIMIT, read_source};
pub use signatures::names_in;
pub use statements::read_block;
pub use whole::source_in;
