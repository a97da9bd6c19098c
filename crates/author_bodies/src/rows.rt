//! Several reads and writes, one after another.
ghost use Rattle.std.specs.Prelude.{◌≡◌, IfOk, OnOk};
ghost use Rattle.rt_model.specs.World.{nothing};
ghost use Rattle.author_programs.specs.Cells as programs;
ghost use Rattle.author_bodies.specs.Comes.{Comes};

use crate::answers::or_out_of_memory;
use author_calls::Cx;
use rt_values::{List, OutOfMemory, Part};
use std::alloc::Global;
use tree_nodes::Parts;

/// The values of cells, in order.
#[tactic(auto, using(crate::proofs::Lists::listing))]
pub fn read_all<P: Parts, K>(
    alloc: Global,
    cx: &mut Cx<'_, P, K>,
    cells: &[u64],
) -> Result<List<Option<P::Value>>, OutOfMemory>
    ensures came { IfOk result (λ values. Comes cx.old cx.new
        (programs.all_read cells.now) values) }
    ensures world { cx.new.world ≡ cx.old.world }
{
    let mut values = List::new(alloc);
    for cell in cells {
        let value = or_out_of_memory(cx.read(alloc, *cell))?;
        values.push(value)?;
    }
    Ok(values)
}

/// Writes cells, in order.
#[tactic(auto, using(crate::proofs::Lists::listing))]
pub fn write_all<P: Parts, K>(
    alloc: Global,
    cx: &mut Cx<'_, P, K>,
    writes: &[(u64, P::Value)],
) -> Result<(), OutOfMemory>
    ensures came { OnOk result (Comes cx.old cx.new (programs.all_written writes.now) nothing) }
    ensures world { cx.new.world ≡ cx.old.world }
{
    for write in writes {
        let value = write.1.copy(alloc)?;
        or_out_of_memory(cx.write(write.0, value))?;
    }
    Ok(())
}
