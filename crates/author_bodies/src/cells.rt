//! Cells of a scope, whose numbers its hooks keep.
ghost use Rattle.std.specs.Prelude.{◌≡◌, ◌<◌, ◌-◌, IfOk};
ghost use Rattle.author_programs.specs.Cells as programs;
ghost use Rattle.author_bodies.specs.Comes.{Comes, Knows};

use crate::answers::unless_refused;
use author_calls::BodyCx;
use rt_values::OutOfMemory;
use std::alloc::Global;
use tree_nodes::Parts;

/// An application whose hooks keep the numbers of cells.
pub trait KeepsCells: Parts {
    ghost use Rattle.author_programs.specs.Cells.{Keeping};

    /// How they do.
    ghost keeping: { Keeping Self.Value };

    /// The kind of such hooks.
    fn cell_kind() -> u32
        ensures kind { result ≡ keeping.kind }
        ensures low { result < u32.MAX - 2 };

    /// The value that keeps the number of a cell.
    fn keep_cell(alloc: Global, cell: u64) -> Result<Self::Value, OutOfMemory>
        ensures keeps { IfOk result (λ value. value ≡ keeping.keeps cell) };

    /// The number of the cell that a value keeps.
    fn cell_in(value: &Self::Value) -> Option<u64>
        ensures kept { result ≡ keeping.kept value.now };
}

/// The cell that the next hook keeps; none where another hook stands there.
#[tactic(auto, using(crate::proofs::Refused::hooking))]
fn kept_cell<P: KeepsCells>(
    alloc: Global,
    cx: &mut BodyCx<'_, P>,
    number: u64,
) -> Result<Option<u64>, OutOfMemory>
    ensures came { IfOk result (λ cell. Knows cell cx.new (Comes cx.old cx.new
        (programs.kept_cell P.keeping number) cell)) }
    ensures world { cx.new.world ≡ cx.old.world }
{
    let value = P::keep_cell(alloc, number)?;
    match unless_refused(cx.use_hook(alloc, P::cell_kind(), value))? {
        Some(value) => Ok(P::cell_in(&value)),
        None => Ok(None),
    }
}

/// A cell of the scope, which is made at its first run; none where a call was refused.
#[tactic(auto, using(crate::proofs::Refused::hooking))]
pub fn own_cell<P: KeepsCells>(
    alloc: Global,
    cx: &mut BodyCx<'_, P>,
    first: P::Value,
) -> Result<Option<u64>, OutOfMemory>
    ensures came { IfOk result (λ cell. Knows cell cx.new (Comes cx.old cx.new
        (programs.own_cell P.keeping first) cell)) }
    ensures world { cx.new.world ≡ cx.old.world }
{
    if !cx.hook_is_new() {
        return Ok(kept_cell(alloc, cx, 0)?);
    }
    match unless_refused(cx.new_cell(first))? {
        Some(cell) => Ok(kept_cell(alloc, cx, cell)?),
        None => Ok(None),
    }
}
