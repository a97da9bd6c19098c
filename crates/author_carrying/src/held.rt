//! What a library does in an application that carries it: it stands in a tree, and it reads and
//! writes cells that hold its values.
ghost use Rattle.std.specs.Prelude.{◌≡◌, IfOk, OnOk};
ghost use Rattle.author_bodies.specs.Comes.{Comes};
ghost use Rattle.rt_model.specs.World.{nothing};
ghost use Rattle.author_carrying.specs.Carrying as carrying;

use crate::carries::Carries;
use author_bodies::or_out_of_memory;
use author_calls::Cx;
use author_pieces::{Piece, child};
use rt_values::OutOfMemory;
use std::alloc::Global;
use tree_nodes::Parts;

/// A component of a library, with its props, as a piece of a tree.
pub fn carried<L: Parts, P: Carries<L>>(
    alloc: Global,
    component: L::Component,
    props: L::Props,
) -> Result<Piece<P>, OutOfMemory>
    ensures piece { IfOk result (λ piece.
        piece ≡ carrying.carried P.carrying component props) }
{
    child(alloc, P::component_of(component), P::props_of(props))
}

/// What a cell holds of a library; none where it is gone, or holds something else.
#[tactic(auto, using(author_bodies::proofs::Rules::hooking))]
pub fn read_held<L: Parts, P: Carries<L>, K>(
    alloc: Global,
    cx: &mut Cx<'_, P, K>,
    cell: u64,
) -> Result<Option<L::Value>, OutOfMemory>
    ensures came { IfOk result (λ held. Comes cx.old cx.new
        (carrying.read_held P.carrying cell) held) }
    ensures fault { OnOk result (cx.new.fault ≡ cx.old.fault) }
    ensures world { cx.new.world ≡ cx.old.world }
{
    match or_out_of_memory(cx.read(alloc, cell))? {
        Some(value) => Ok(P::held_in(value)),
        None => Ok(None),
    }
}

/// Gives a cell a value of a library, once the call at work has returned.
#[tactic(auto, using(author_bodies::proofs::Rules::hooking))]
pub fn write_held<L: Parts, P: Carries<L>, K>(
    cx: &mut Cx<'_, P, K>,
    cell: u64,
    value: L::Value,
) -> Result<(), OutOfMemory>
    ensures came { OnOk result (Comes cx.old cx.new
        (carrying.write_held P.carrying cell value) nothing) }
    ensures fault { OnOk result (cx.new.fault ≡ cx.old.fault) }
    ensures world { cx.new.world ≡ cx.old.world }
{
    or_out_of_memory(cx.write(cell, P::value_of(value)))
}
