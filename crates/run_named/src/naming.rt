//! A place of a scope's tree in a program's words: steps by slots and positions, and a path.
ghost use Rattle.std.specs.Prelude.{◌≡◌, ◌++◌, ◌∷◌, [], map, take, true, IfOk, IfSome, OnOk};
ghost use Rattle.run_places.specs.Places.{place_of, side_name_of, step_of};
ghost use Rattle.rt_model.specs.State.{FallbackSide, same_side};
ghost use Rattle.run_named.specs.Named.{named_in, named_of, path_after, path_from, slot_after, slot_from, step_in, steps_at, steps_from};
ghost use Rattle.run_places.specs.declared.place.Step.TheVariants as inner;

use crate::paths::slot_at;
use rt_values::{List, OutOfMemory, ScopeId, Shared};
use run_places::{Place as At, SideName, Step as Inner};
use std::alloc::Global;
use tree_nodes::{Place, Step};

/// The place of a node on a side of a scope, in a program's words. It shares its steps with the
/// place that is near, where they are the same.
pub fn name_place(
    alloc: Global,
    scope: u64,
    side: SideName,
    place: &At,
    near: Option<&Place>,
) -> Result<Place, OutOfMemory>
    ensures named { IfOk result (λ named.
        named_in named ≡ named_of (scope, side_name_of side, place_of place.now)) }
{
    let (steps, path) = way_of(alloc, place, near)?;
    Ok(Place {
        scope: ScopeId(scope),
        fallback: is_fallback(side),
        steps,
        path,
    })
}

/// The steps to the innermost template, and the path in it.
fn way_of(
    alloc: Global,
    place: &At,
    near: Option<&Place>,
) -> Result<(Shared<Step>, Shared<u8>), OutOfMemory>
    ensures steps { IfOk result (λ way. map step_in way.0 ≡ steps_from 0 (place_of place.now)) }
    ensures path { IfOk result (λ way. way.1 ≡ path_from [] (place_of place.now)) }
{
    let (above, last) = place.parts();
    match last {
        Some(last) => way_below(alloc, above, last, near),
        None => way_at(alloc, above, near),
    }
}

/// The same of steps.
fn way_at(
    alloc: Global,
    above: &[Inner],
    near: Option<&Place>,
) -> Result<(Shared<Step>, Shared<u8>), OutOfMemory>
    ensures steps { IfOk result (λ way. map step_in way.0 ≡ steps_from 0 (place_of above.now)) }
    ensures path { IfOk result (λ way. way.1 ≡ path_from [] (place_of above.now)) }
{
    let steps = steps_near(alloc, above, near)?;
    let path = path_at(alloc, above)?;
    Ok((steps, path))
}

/// The same of steps and one more.
fn way_below(
    alloc: Global,
    above: &[Inner],
    last: &Inner,
    near: Option<&Place>,
) -> Result<(Shared<Step>, Shared<u8>), OutOfMemory>
    ensures steps { IfOk result (λ way.
        map step_in way.0 ≡ steps_from 0 (place_of (above.now ++ last.now ∷ []))) }
    ensures path { IfOk result (λ way.
        way.1 ≡ path_from [] (place_of (above.now ++ last.now ∷ []))) }
{
    match last {
        Inner::Inside { template: _, path } => {
            let steps = steps_near(alloc, above, near)?;
            let path = path.share()?;
            Ok((steps, path))
        }
        Inner::Item { position } => {
            let steps = steps_below(alloc, above, *position)?;
            let path = path_at(alloc, above)?;
            Ok((steps, path))
        }
    }
}

/// The steps to the innermost template, those of the place that is near where they are the same.
fn steps_near(
    alloc: Global,
    above: &[Inner],
    near: Option<&Place>,
) -> Result<Shared<Step>, OutOfMemory>
    ensures { IfOk result (λ steps. map step_in steps ≡ steps_from 0 (place_of above.now)) }
{
    if let Some(near) = near {
        if are_steps(near.steps.as_slice(), above) {
            return near.steps.share();
        }
    }
    let steps = steps_of(alloc, above)?;
    Shared::from_list(alloc, steps)
}

/// Whether these are the steps to the innermost template.
fn are_steps(steps: &[Step], above: &[Inner]) -> bool
    ensures { result ≡ true → map step_in steps.now ≡ steps_from 0 (place_of above.now) }
{
    let mut told = 0;
    let mut slot = 0;
    for step in above {
        match told_on(steps, told, slot, step) {
            Some(next) => told = next,
            None => return false,
        }
        slot = slot_after(step, slot);
    }
    told == steps.len()
}

/// How many of these steps are told with one step more, below the slot with this number. None where
/// another one would be told.
fn told_on(steps: &[Step], told: usize, slot: u64, step: &Inner) -> Option<usize>
    ensures { IfSome result (λ next. map step_in (take next steps.now)
        ≡ map step_in (take told steps.now) ++ steps_at slot (step_of step.now)) }
{
    match step {
        Inner::Inside { .. } => Some(told),
        Inner::Item { position } => {
            if told < steps.len() && is_step(steps[told], slot, *position) {
                Some(told + 1)
            } else {
                None
            }
        }
    }
}

/// Whether a step is that to an item of a slot.
fn is_step(step: Step, slot: u64, position: u64) -> bool
    ensures { result ≡ true → step_in step ≡ (slot, position) }
{
    step.slot == slot && step.position == position
}

/// The steps to an item of what stands at a place.
fn steps_below(alloc: Global, above: &[Inner], position: u64) -> Result<Shared<Step>, OutOfMemory>
    ensures { IfOk result (λ steps. map step_in steps
        ≡ steps_from 0 (place_of (above.now ++ inner.Item position ∷ []))) }
{
    let mut steps = steps_of(alloc, above)?;
    let slot = slot_of(above);
    steps.push(Step { slot, position })?;
    Shared::from_list(alloc, steps)
}

/// The number of the slot at the last template's path.
fn slot_of(place: &[Inner]) -> u64
    ensures { result ≡ slot_from 0 (place_of place.now) }
{
    let mut slot = 0;
    for step in place {
        slot = slot_after(step, slot);
    }
    slot
}

/// Whether a side is that of a fallback.
fn is_fallback(side: SideName) -> bool
    ensures { result ≡ same_side (side_name_of side) FallbackSide }
{
    match side {
        SideName::Fallback => true,
        SideName::Main => false,
        SideName::Children => false,
    }
}

/// The steps to the innermost template.
fn steps_of(alloc: Global, place: &[Inner]) -> Result<List<Step>, OutOfMemory>
    ensures { IfOk result (λ steps. map step_in steps ≡ steps_from 0 (place_of place.now)) }
{
    let mut steps = List::new(alloc);
    let mut slot = 0;
    for step in place {
        add_step(step, slot, &mut steps)?;
        slot = slot_after(step, slot);
    }
    Ok(steps)
}

/// Puts the step to an item after the others, below the slot with this number.
fn add_step(step: &Inner, slot: u64, steps: &mut List<Step>) -> Result<(), OutOfMemory>
    ensures { OnOk result (map step_in steps.new
        ≡ map step_in steps.old ++ steps_at slot (step_of step.now)) }
{
    match step {
        Inner::Inside { .. } => Ok(()),
        Inner::Item { position } => steps.push(Step {
            slot,
            position: *position,
        }),
    }
}

/// The number of the slot at a template's path, or the one before at an item.
fn slot_after(step: &Inner, slot: u64) -> u64
    ensures { result ≡ slot_after slot (step_of step.now) }
{
    match step {
        Inner::Inside { template, path } => { slot_at(template.node_paths(), path.as_slice()) }
        Inner::Item { .. } => slot,
    }
}

/// The path in the innermost template, in a list of its own.
fn path_at(alloc: Global, place: &[Inner]) -> Result<Shared<u8>, OutOfMemory>
    ensures { IfOk result (λ path. path ≡ path_from [] (place_of place.now)) }
{
    let path = List::from_slice(alloc, path_of(place))?;
    Shared::from_list(alloc, path)
}

/// The path in the innermost template.
fn path_of(place: &[Inner]) -> &[u8]
    ensures { result.now ≡ path_from [] (place_of place.now) }
{
    let mut path: &[u8] = &[];
    for step in place {
        path = path_after(step, path);
    }
    path
}

/// The path in a step's template, or the one before at an item.
fn path_after<'a>(step: &'a Inner, path: &'a [u8]) -> &'a [u8]
    ensures { result.now ≡ path_after path.now (step_of step.now) }
{
    match step {
        Inner::Inside {
            template: _,
            path: own,
        } => own.as_slice(),
        Inner::Item { .. } => path,
    }
}
