//! What rows name that isn't the program: each example, a runtime that is kept, and a memo in one.

use crate::keeping::kept;
use crate::memos::woken;
use crate::runs::{board, router, tally, template};
use rt_values::{List, OutOfMemory};
use std::alloc::Global;
use test_rows::Twins;

/// The examples.
pub(crate) struct Examples;

impl Twins for Examples {
    fn lines_of(alloc: Global, name: &str) -> Result<List<u8>, OutOfMemory> {
        match name {
            "template" => template(alloc),
            "router" => router(alloc),
            "board" => board(alloc),
            _ => tally(alloc),
        }
    }

    /// What it wrote, and what was found.
    fn kept(alloc: Global) -> Result<List<u8>, OutOfMemory> {
        let mut lines = List::new(alloc);
        let end = match kept(alloc, &mut lines) {
            Ok(height) => format!(in alloc; "height {height}\n")?,
            Err(fault) => format!(in alloc; "{fault}\n")?,
        };
        lines.append(List::from_slice(alloc, end.as_bytes())?)?;
        Ok(lines)
    }

    /// The units after each of three writes of the memo's cells.
    fn memo(alloc: Global) -> Result<List<u8>, OutOfMemory> {
        let end = match woken(alloc) {
            Ok(units) => units_line(alloc, units[0], units[1], units[2])?,
            Err(fault) => format!(in alloc; "{fault}\n")?,
        };
        List::from_slice(alloc, end.as_bytes())
    }
}

/// The line of the units after three writes.
fn units_line(alloc: Global, unread: u64, first: u64, second: u64) -> Result<String, OutOfMemory> {
    let line = format!(in alloc; "units {unread} {first} {second}\n")?;
    Ok(line)
}
