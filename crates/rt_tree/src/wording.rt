//! Where a node stands, as a step tells it.

ghost use Rattle.std.specs.Prelude.{◌≡◌, [], map, IfOk};
ghost use Rattle.run_named.specs.Named.{path_from, step_in, steps_from};
ghost use Rattle.run_places.specs.Places.{place_of};

use rt_values::{ElementId, List, OutOfMemory};
use run_named::name_place;
use run_places::{Place, SideName};
use std::alloc::Global;
use tree_nodes::Step;

/// The number of a node, the steps to the innermost template, and the path in it.
#[derive(Drop)]
pub(crate) struct Words {
    pub id: ElementId,
    pub steps: List<Step>,
    pub path: List<u8>,
}

/// The node with a number at a place, in these words.
pub(crate) fn named_steps(alloc: Global, id: ElementId, place: &Place) -> Result<Words, OutOfMemory>
    ensures id { IfOk result (λ words. words.id ≡ id) }
    ensures steps { IfOk result (λ words.
        map step_in words.steps ≡ steps_from 0 (place_of place.now)) }
    ensures path { IfOk result (λ words. words.path ≡ path_from [] (place_of place.now)) }
{
    let named = name_place(alloc, 0, SideName::Main, place, None)?;
    let steps = List::from_slice(alloc, named.steps.as_slice())?;
    let path = List::from_slice(alloc, named.path.as_slice())?;
    Ok(Words { id, steps, path })
}
