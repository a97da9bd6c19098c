//! The rows that changed.
ghost use Rattle.std.specs.Prelude.{◌≡◌, ◌<◌, ◌^◌, ◌++◌, [], length, bytes_eq, IfOk, OnOk};
ghost use Rattle.rt_text.specs.Screens.{changed_rows, unless_same};

use rt_values::{List, OutOfMemory, Part, Text};
use std::alloc::Global;

/// A row with its number, from 0 on.
#[derive(Debug, Drop)]
pub struct Row {
    pub at: u32,
    pub text: Text,
}

/// Puts a row behind these, unless it is the same as before.
fn put_changed(
    alloc: Global,
    rows: &mut List<Row>,
    at: u32,
    old: &Text,
    new: &Text,
) -> Result<(), OutOfMemory>
    ensures put { OnOk result (rows.new
        ≡ rows.old ++ unless_same (bytes_eq old.now new.now) at new.now []) }
{
    if old.as_str() == new.as_str() {
        return Ok(());
    }
    let text = new.copy(alloc)?;
    rows.push(Row { at, text })?;
    Ok(())
}

/// The new rows that differ from the old ones at the same place, in order.
pub(crate) fn changed(alloc: Global, old: &[Text], new: &[Text]) -> Result<List<Row>, OutOfMemory>
    requires few { length new.now < 2 ^ 32 }
    ensures changed { IfOk result (λ rows. rows ≡ changed_rows 0 old.now new.now) }
{
    let mut rows = List::new(alloc);
    for at in 0..old.len() {
        if at >= new.len() {
            return Ok(rows);
        }
        put_changed(alloc, &mut rows, at as u32, &old[at], &new[at])?;
    }
    Ok(rows)
}
