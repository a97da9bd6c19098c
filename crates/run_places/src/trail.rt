//! Where a walk through a scope's tree stands. It takes no memory, whereas a place is a list.

ghost use Rattle.std.specs.Prelude.{◌≡◌, ◌↔◌, ◌++◌, ◌∷◌, ◌+◌, [], length, IfOk, IsTrue, OnOk, IfSome};
ghost use Rattle.rt_model.specs.Tree.{same_place};
ghost use Rattle.run_places.specs.declared.place.Step.TheVariants as steps;
ghost use Rattle.run_places.specs.Places.{place_of};
ghost use Rattle.run_places.specs.Trails.{last_item, path_of, place_on, steps_of};

use crate::piece::byte;
use crate::place::{Place, Step, is_whole};
use rt_values::{List, OutOfMemory, Part, Shared, same_slice};
use std::alloc::Global;
use tree_nodes::Template;

/// How many known paths are looked at for one.
const LOOKS: usize = 8;

/// A node's place in a template: at its index, below its parent.
#[derive(Drop)]
pub enum Path<'a> {
    Top,
    Below(&'a Path<'a>, u64),
    /// All indices at once.
    Whole(&'a [u8]),
}

/// Where a walk stands in a scope's tree: at the root, at a place that was made, or a step below
/// where it stood.
#[derive(Drop)]
pub enum Trail<'a> {
    Root,
    Inside(&'a Trail<'a>, &'a Template, &'a Path<'a>),
    Item(&'a Trail<'a>, u64),
    /// All steps at once.
    At(&'a Shared<Step>),
}

/// Whether a path leads there.
#[tactic(auto, using(crate::proofs::Trails::trails))]
fn leads_to(path: &[u8], there: &Path<'_>) -> bool
    ensures { IsTrue result ↔ (path.now ≡ path_of there.now) }
{
    match (path, there) {
        ([], Path::Top) => true,
        ([front @ .., last], Path::Below(up, index)) => {
            u64::from(*last) == *index && leads_to(front, up)
        }
        (path, Path::Whole(whole)) => same_slice(path, whole),
        _ => false,
    }
}

/// Whether a place is where a walk stands.
pub fn is_on(place: &Place, trail: &Trail<'_>) -> bool
    ensures { result ≡ same_place (place_of place.now) (place_on trail.now) }
{
    parts_on(place, trail)
}

/// Whether a walk stands at a place.
pub fn stands_at(trail: &Trail<'_>, place: &Place) -> bool
    ensures { result ≡ same_place (place_on trail.now) (place_of place.now) }
{
    parts_on(place, trail)
}

/// Whether a walk stands where these steps lead.
pub fn stands_after(trail: &Trail<'_>, steps: &[Step]) -> bool
    ensures { result ≡ same_place (place_on trail.now) (place_of steps.now) }
{
    stands_on(steps, trail)
}

// Whether the two parts of a place lead to where a walk stands.
fn parts_on(place: &Place, trail: &Trail<'_>) -> bool
    ensures { IsTrue result ↔ (place.now ≡ steps_of trail.now) }
{
    let (above, last) = place.parts();
    match last {
        Some(last) => is_below(above, last, trail),
        None => stands_on(above, trail),
    }
}

// Whether these steps and one more lead to where a walk stands.
#[tactic(auto, using(crate::proofs::Trails::trails))]
fn is_below(above: &[Step], last: &Step, trail: &Trail<'_>) -> bool
    ensures { IsTrue result ↔ (above.now ++ last.now ∷ [] ≡ steps_of trail.now) }
{
    match trail {
        Trail::Root => false,
        Trail::Inside(up, template, path) => {
            is_inside(last, template, path) && stands_on(above, up)
        }
        Trail::Item(up, position) => is_item(last, *position) && stands_on(above, up),
        Trail::At(whole) => is_whole(above, last, whole.as_slice()),
    }
}

// Whether these steps lead to where a walk stands.
#[tactic(auto, using(crate::proofs::Trails::trails))]
fn stands_on(place: &[Step], trail: &Trail<'_>) -> bool
    ensures { IsTrue result ↔ (place.now ≡ steps_of trail.now) }
{
    match (place, trail) {
        ([], Trail::Root) => true,
        ([front @ .., last], Trail::Inside(above, template, path)) => {
            is_inside(last, template, path) && stands_on(front, above)
        }
        ([front @ .., last], Trail::Item(above, position)) => {
            is_item(last, *position) && stands_on(front, above)
        }
        (place, Trail::At(whole)) => same_slice(place, whole.as_slice()),
        (_, Trail::Root) => false,
        ([], Trail::Inside(_, _, _)) => false,
        ([], Trail::Item(_, _)) => false,
    }
}

// Whether a step leads to this node of a template.
fn is_inside(step: &Step, template: &Template, path: &Path<'_>) -> bool
    ensures { IsTrue result ↔ (step.now ≡ steps.Inside template.now (path_of path.now)) }
{
    match step {
        Step::Inside {
            template: own,
            path: own_path,
        } => leads_to(own_path.as_slice(), path) && own.same(template),
        Step::Item { .. } => false,
    }
}

// Whether a step leads to the item with this position.
fn is_item(step: &Step, position: u64) -> bool
    ensures { IsTrue result ↔ (step.now ≡ steps.Item position) }
{
    match step {
        Step::Inside { .. } => false,
        Step::Item { position: own } => *own == position,
    }
}

/// The position of the item in which a walk stands, 0 where it stands in none.
#[tactic(auto, using(crate::proofs::Trails::trails))]
pub(crate) fn item_on(trail: &Trail<'_>) -> u64
    ensures { result ≡ last_item (steps_of trail.now) }
{
    match trail {
        Trail::Root => 0,
        Trail::Inside(above, _, _) => item_on(above),
        Trail::Item(_, position) => *position,
        Trail::At(whole) => last_item(whole.as_slice()),
    }
}

/// The position of the item in which a place is, 0 where it is in none.
#[tactic(auto, using(crate::proofs::Trails::trails))]
pub(crate) fn item_of(place: &Place) -> u64
    ensures { result ≡ last_item place.now }
{
    let (above, last) = place.parts();
    match last {
        Some(Step::Item { position }) => *position,
        Some(Step::Inside { .. }) => last_item(above),
        None => last_item(above),
    }
}

// The same of steps.
#[tactic(auto, using(crate::proofs::Trails::trails))]
fn last_item(place: &[Step]) -> u64
    ensures { result ≡ last_item place.now }
{
    match place {
        [] => 0,
        [front @ .., last] => match last {
            Step::Inside { .. } => last_item(front),
            Step::Item { position } => *position,
        },
    }
}

/// How many steps lead to where a walk stands. More than a `usize` counts are answered as want of
/// memory.
#[tactic(auto, using(crate::proofs::Trails::trails))]
pub fn steps_to(trail: &Trail<'_>) -> Result<usize, OutOfMemory>
    ensures { IfOk result (λ count. count ≡ length (steps_of trail.now)) }
{
    match trail {
        Trail::Root => Ok(0),
        Trail::Inside(above, _, _) => one_more(steps_to(above)?),
        Trail::Item(above, _) => one_more(steps_to(above)?),
        Trail::At(whole) => Ok(whole.len()),
    }
}

fn one_more(count: usize) -> Result<usize, OutOfMemory>
    ensures { IfOk result (λ more. more ≡ count + 1) }
{
    match count.checked_add(1) {
        Some(more) => Ok(more),
        None => Err(OutOfMemory),
    }
}

/// The place where a walk stands.
#[tactic(auto, using(crate::proofs::Trails::trails))]
pub fn place_on(alloc: Global, trail: &Trail<'_>) -> Result<Place, OutOfMemory>
    ensures { IfOk result (λ place. place ≡ steps_of trail.now) }
{
    match trail {
        Trail::Root => Ok(Place::at(Shared::empty())),
        Trail::Inside(above, template, path) => {
            let last = step_inside(alloc, template, path)?;
            let above = steps_on(alloc, above)?;
            Ok(Place::below(above, last))
        }
        Trail::Item(above, position) => {
            let above = steps_on(alloc, above)?;
            Ok(Place::below(
                above,
                Step::Item {
                    position: *position,
                },
            ))
        }
        Trail::At(whole) => {
            let steps = whole.share()?;
            Ok(Place::at(steps))
        }
    }
}

/// The steps to where a walk stands, in one list.
#[tactic(auto, using(crate::proofs::Trails::trails))]
pub fn steps_on(alloc: Global, trail: &Trail<'_>) -> Result<Shared<Step>, OutOfMemory>
    ensures { IfOk result (λ steps. steps ≡ steps_of trail.now) }
{
    match trail {
        Trail::At(whole) => whole.share(),
        Trail::Root => Ok(Shared::empty()),
        Trail::Inside(_, _, _) => list_of(alloc, trail),
        Trail::Item(_, _) => list_of(alloc, trail),
    }
}

// The steps to where a walk stands, in a list of their own.
fn list_of(alloc: Global, trail: &Trail<'_>) -> Result<Shared<Step>, OutOfMemory>
    ensures { IfOk result (λ steps. steps ≡ steps_of trail.now) }
{
    let room = steps_to(trail)?;
    let mut steps = List::from_vec(Vec::with_capacity(alloc, room)?);
    add_steps(alloc, trail, &mut steps)?;
    Shared::from_list(alloc, steps)
}

// The step to a node of a template.
#[tactic(auto, using(crate::proofs::Trails::trails))]
fn step_inside(alloc: Global, template: &Template, path: &Path<'_>) -> Result<Step, OutOfMemory>
    ensures { IfOk result (λ step. step ≡ steps.Inside template.now (path_of path.now)) }
{
    let path = path_in(alloc, template.hints(), path)?;
    let template = template.copy(alloc)?;
    Ok(Step::Inside { template, path })
}

// Puts the steps to where a walk stands after these.
#[tactic(auto, using(crate::proofs::Trails::trails))]
fn add_steps(alloc: Global, trail: &Trail<'_>, steps: &mut List<Step>) -> Result<(), OutOfMemory>
    ensures { OnOk result (steps.new ≡ steps.old ++ steps_of trail.now) }
{
    match trail {
        Trail::Root => Ok(()),
        Trail::Inside(above, template, path) => {
            add_steps(alloc, above, steps)?;
            let step = step_inside(alloc, template, path)?;
            steps.push(step)
        }
        Trail::Item(above, position) => {
            add_steps(alloc, above, steps)?;
            steps.push(Step::Item {
                position: *position,
            })
        }
        Trail::At(whole) => add_copies(alloc, whole.as_slice(), steps),
    }
}

// Puts these steps after others.
fn add_copies(alloc: Global, whole: &[Step], steps: &mut List<Step>) -> Result<(), OutOfMemory>
    ensures { OnOk result (steps.new ≡ steps.old ++ whole.now) }
{
    for step in whole {
        steps.push(step.copy(alloc)?)?;
    }
    Ok(())
}

// The path to there, once more where it is among these.
fn path_in(alloc: Global, paths: &[Shared<u8>], there: &Path<'_>) -> Result<Shared<u8>, OutOfMemory>
    ensures { IfOk result (λ path. path ≡ path_of there.now) }
{
    match known_path(paths, there) {
        Some(path) => path.share(),
        None => path_on(alloc, there),
    }
}

// A path among some that leads there. A few are looked at, from where it can stand first where all
// paths of a template stand in order.
fn known_path<'a>(paths: &'a [Shared<u8>], there: &Path<'_>) -> Option<&'a Shared<u8>>
    ensures { IfSome result (λ path. path.now ≡ path_of there.now) }
{
    let first = nodes_before(there);
    for index in first..first.saturating_add(LOOKS) {
        if index >= paths.len() {
            return None;
        }
        if leads_to(paths[index].as_slice(), there) {
            return Some(&paths[index]);
        }
    }
    None
}

// So many nodes at least come before the one at a path: those above it, and one for each sibling.
fn nodes_before(there: &Path<'_>) -> usize {
    match there {
        Path::Top => 0,
        Path::Below(up, index) => nodes_before(up)
            .saturating_add(*index as usize)
            .saturating_add(one_at(up)),
        Path::Whole(_) => 0,
    }
}

// 1 where a node stands at a path, 0 at the top.
fn one_at(up: &Path<'_>) -> usize {
    match up {
        Path::Top => 0,
        Path::Below(_, _) => 1,
        Path::Whole(_) => 1,
    }
}

// The path to there.
#[tactic(auto, using(crate::proofs::Trails::trails))]
fn path_on(alloc: Global, there: &Path<'_>) -> Result<Shared<u8>, OutOfMemory>
    ensures { IfOk result (λ path. path ≡ path_of there.now) }
{
    let count = levels_to(there)?;
    let mut path = List::from_vec(Vec::with_capacity(alloc, count)?);
    add_path(there, &mut path)?;
    Shared::from_list(alloc, path)
}

// How many indices lead there.
#[tactic(auto, using(crate::proofs::Trails::trails))]
fn levels_to(there: &Path<'_>) -> Result<usize, OutOfMemory>
    ensures { IfOk result (λ count. count ≡ length (path_of there.now)) }
{
    match there {
        Path::Top => Ok(0),
        Path::Below(up, _) => one_more(levels_to(up)?),
        Path::Whole(whole) => Ok(whole.len()),
    }
}

// Puts the path to there after these indices.
#[tactic(auto, using(crate::proofs::Trails::trails))]
fn add_path(there: &Path<'_>, path: &mut List<u8>) -> Result<(), OutOfMemory>
    ensures { OnOk result (path.new ≡ path.old ++ path_of there.now) }
{
    match there {
        Path::Top => Ok(()),
        Path::Below(up, index) => {
            add_path(up, path)?;
            let index = byte(*index)?;
            path.push(index)
        }
        Path::Whole(whole) => add_indices(whole, path),
    }
}

// Puts these indices after others.
fn add_indices(whole: &[u8], path: &mut List<u8>) -> Result<(), OutOfMemory>
    ensures { OnOk result (path.new ≡ path.old ++ whole.now) }
{
    for index in whole {
        path.push(*index)?;
    }
    Ok(())
}
