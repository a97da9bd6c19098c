//! Where bytes come from and where they go: the two traits at the edge of the program, in memory and over the standard streams.
#![tactic(auto)]

mod laws;
mod memory_out;
mod memory_source;
mod out;
mod reading;
mod rest;
mod schedule;
mod source;
mod standard_in;
mod standard_out;

pub use laws::fronts_are_of_bytes;
pub use memory_out::{BytesOut, SureOut};
pub use memory_source::{BytesSource, SureSource};
pub use out::{Out, OutError};
pub use reading::{MOST_BYTES, ReadError, read_all};
pub use source::{ReadFailed, Source};
pub use standard_in::StandardIn;
pub use standard_out::StandardOut;
