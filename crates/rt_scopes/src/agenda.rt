//! A tree becomes the output of a side, and what that leads to.
ghost use Rattle.std.specs.Prelude.{◌≡◌, ◌++◌, true, Some, IfOk};
ghost use Rattle.rt_model.specs.OneLog.{types};
ghost use Rattle.rt_model.specs.World.{Application};
ghost use Rattle.rt_model.specs.Laws.{Tests};
ghost use Rattle.rt_model.specs.State.{Done};
ghost use Rattle.rt_model.specs.Run.{start_agenda as agenda_started};
ghost use Rattle.tree_mirror.specs.Sealed.{tree_of};
ghost use Rattle.run_places.specs.Places.{side_name_of, side_of as side_in};
ghost use Rattle.run_named.specs.Standings.{IsPicked};
ghost use Rattle.run_work.specs.Items.{work_of};
ghost use Rattle.run_state.specs.Drawn.{numbers_at, numbers_in};
ghost use Rattle.run_state.specs.Mirror.{state_of};
ghost use Rattle.run_state.specs.Sides.{FewerSeats};
ghost use Rattle.rt_scopes.specs.Agendas.{Patches};
ghost use Rattle.rt_scopes.specs.Stay.{AllStay};

use rt_values::{List, OutOfMemory};
use run_places::{Nodes, Seats, Side, SideName};
use run_state::{State, side_of};
use run_work::{Item, Patched, are_alike, walk_both};
use std::alloc::Global;
use tree_nodes::{Parts, VNode};

/// A tree becomes the kept output of a side of a live scope, which keeps the numbers and children
/// that match. The answer is its agenda: numbers, feeds and makes, then drops. Where all nodes stay
/// and no component is fed the side keeps all but its tree.
pub fn start_agenda<P: Parts>(
    alloc: Global,
    state: &mut State<P>,
    scope: u64,
    name: SideName,
    tree: VNode<P>,
) -> Result<List<Item<P>>, OutOfMemory>
    ensures { (app : Application
        (types P.Component P.Props P.Value P.Handler P.TaskState P.Effect P.Payload))
        → Tests P.Component app.same_component → IfOk result (λ work. (g : _) →
        agenda_started app (state_of g state.old) scope (side_name_of name) (tree_of tree)
        ≡ Done (state_of g state.new) (work_of work)) }
{
    let Some(found) = state.scope(scope) else {
        return Ok(List::new(alloc));
    };
    let was = side_of(found, name);
    if all_stay(was, &tree) {
        let side = kept_side(alloc, tree, was)?;
        state.swap_side(scope, name, side);
        return Ok(List::new(alloc));
    }
    let (work, side) = patched_side(alloc, scope, name, tree, was)?;
    state.put_side(scope, name, side);
    Ok(work)
}

/// Whether a new tree stands as a side's tree does, with no component in the trees and no child on
/// the side. Then no node comes or goes.
fn all_stay<P: Parts>(side: &Side<P>, tree: &VNode<P>) -> bool
    ensures { result ≡ true → (app : Application
        (types P.Component P.Props P.Value P.Handler P.TaskState P.Effect P.Payload))
        → Tests P.Component app.same_component → AllStay side.now tree.now }
{
    let Some(old) = &side.output else {
        return false;
    };
    if !side.children.as_slice().is_empty() {
        return false;
    }
    if !side.seats.as_slice().is_empty() {
        return false;
    }
    are_alike(old, tree)
}

/// A side with another tree, where all its nodes stay. All else it shares with the one that stood.
fn kept_side<P: Parts>(alloc: Global, tree: VNode<P>, was: &Side<P>) -> Result<Side<P>, OutOfMemory>
    requires stay { (app : Application
        (types P.Component P.Props P.Value P.Handler P.TaskState P.Effect P.Payload))
        → Tests P.Component app.same_component → AllStay was.now tree }
    ensures keeps { IfOk result (λ side.
        side_in side ≡ record (side_in was.now) { output = Some (tree_of tree) }) }
{
    let nodes = was.nodes.share()?;
    let seats = was.seats.share()?;
    let numbers = was.numbers.copy(alloc)?;
    let children = was.children.copy(alloc)?;
    let side = Side {
        output: Some(tree),
        nodes,
        seats,
        numbers,
        children,
    };
    Ok(side)
}

/// The agenda of a tree on a side of a scope, and the side with that tree.
fn patched_side<P: Parts>(
    alloc: Global,
    scope: u64,
    name: SideName,
    tree: VNode<P>,
    was: &Side<P>,
) -> Result<(List<Item<P>>, Side<P>), OutOfMemory>
    ensures patches { IfOk result (λ pair. Patches scope name tree was.now pair.0 pair.1) }
    ensures fewer { IfOk result (λ pair.
        IsPicked (side_in pair.1).numbers (side_in was.now).numbers) }
    ensures known { IfOk result (λ pair.
        numbers_at pair.1.nodes pair.1.numbers ≡ numbers_in pair.1.numbers) }
    ensures seats { IfOk result (λ pair. FewerSeats (side_in pair.1) (side_in was.now)) }
{
    let Patched {
        work: served,
        drops,
        nodes,
        seats,
        nodes_to,
        seats_to,
    } = walk_both(alloc, scope, name, was, &tree)?;
    let numbers = was.numbers.moved(alloc, nodes_to.as_slice())?;
    let children = was.children.moved(alloc, seats_to.as_slice())?;
    let nodes = Nodes::from_list(alloc, nodes)?;
    let seats = Seats::from_list(alloc, seats)?;
    let work = then_dropped(served, drops)?;
    let side = Side {
        output: Some(tree),
        nodes,
        seats,
        numbers,
        children,
    };
    Ok((work, side))
}

/// What is served, and behind it what is dropped.
fn then_dropped<P: Parts>(
    mut served: List<Item<P>>,
    dropped: List<Item<P>>,
) -> Result<List<Item<P>>, OutOfMemory>
    ensures { IfOk result (λ all. all ≡ served ++ dropped) }
{
    served.append(dropped)?;
    Ok(served)
}
