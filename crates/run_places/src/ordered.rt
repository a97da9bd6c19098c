//! Numbers in the order of their indices.

ghost use Rattle.std.specs.Prelude.{◌≡◌, IfOk};
ghost use Rattle.run_places.specs.Drawn.{under};

use crate::drawn::Drawn;
use rt_values::{List, OutOfMemory};
use std::alloc::Global;

/// The first number under each of so many indices, from 0 on; none where an index has none.
pub fn in_order(
    alloc: Global,
    drawn: &Drawn,
    count: usize,
) -> Result<List<Option<u64>>, OutOfMemory>
    ensures { IfOk result (λ numbers. numbers ≡ under drawn.now 0 count) }
{
    let mut numbers = List::with_room(alloc, count)?;
    for index in 0..count {
        numbers.push(drawn.get(index as u64))?;
    }
    Ok(numbers)
}
