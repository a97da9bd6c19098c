//! Which child an item feeds, and when it keeps its output.
ghost use Rattle.std.specs.Prelude.{◌≡◌};
ghost use Rattle.rt_model.specs.Replay as replay;
ghost use Rattle.rt_model.specs.Tree.{Own};
ghost use Rattle.rt_model.specs.Values as values;
ghost use Rattle.tree_mirror.specs.Sealed.{component_of};
ghost use Rattle.run_state.specs.Mirror.{state_of};
ghost use Rattle.run_work.specs.Items.{item_of};
ghost use Rattle.run_standing.specs.Feeds as feeds;

use author_calls::App;
use rt_scopes::fed_child;
use rt_values::Part;
use run_state::State;
use run_work::Item;
use tree_nodes::VComponent;

/// Whether a component that is fed new props keeps its output: an error boundary never, a component
/// of the application where the application memoizes it, the others where their props are equal.
fn keeps_output<A: App>(app: &A, old: &VComponent<A>, new: &VComponent<A>) -> bool
    ensures { result
        ≡ values.keeps_output (A.meaning app.now) (component_of old.now) (component_of new.now) }
{
    match old {
        VComponent::App { component, props } => keeps_own(app, component, props, new),
        VComponent::ErrorBoundary(_) => false,
        VComponent::Root(_) => old.same(new),
        VComponent::Fragment(_) => old.same(new),
        VComponent::SuspenseBoundary(_) => old.same(new),
    }
}

/// Whether a component of the application keeps its output.
fn keeps_own<A: App>(
    app: &A,
    component: &A::Component,
    props: &A::Props,
    new: &VComponent<A>,
) -> bool
    ensures { result ≡ values.keeps_output (A.meaning app.now) (Own component.now props.now)
        (component_of new.now) }
{
    match new {
        VComponent::App {
            component: other,
            props: new_props,
        } => component.same(other) && app.memoize(component, props, new_props),
        VComponent::Root(_) => false,
        VComponent::Fragment(_) => false,
        VComponent::ErrorBoundary(_) => false,
        VComponent::SuspenseBoundary(_) => false,
    }
}

/// Whether a scope that is handed a component keeps its output.
fn keeps<A: App>(app: &A, state: &State<A>, scope: u64, component: &VComponent<A>) -> bool
    ensures { (g : _) → result
        ≡ replay.keeps (A.meaning app.now) (state_of g state.now) scope (component_of component.now) }
{
    match state.scope(scope) {
        Some(found) => keeps_output(app, &found.rest.component, component),
        None => false,
    }
}

/// The child that an item feeds, and whether it keeps its output. None where it is an item of
/// another kind, or no child is there.
pub fn fed_by<A: App>(app: &A, state: &State<A>, item: &Item<A>) -> Option<(u64, bool)>
    ensures { (g : _) → result
        ≡ feeds.feeds (A.meaning app.now) (state_of g state.now) (item_of item.now) }
{
    match item {
        Item::Draw { .. } => None,
        Item::Row { .. } => None,
        Item::Feed {
            scope,
            side,
            place,
            component,
        } => child_fed(
            app,
            state,
            fed_child(state, *scope, *side, place),
            component,
        ),
        Item::Make { .. } => None,
        Item::Drop { .. } => None,
    }
}

/// A child that is fed a component, and whether it keeps its output.
fn child_fed<A: App>(
    app: &A,
    state: &State<A>,
    child: Option<u64>,
    component: &VComponent<A>,
) -> Option<(u64, bool)>
    ensures { (g : _) → result ≡ feeds.child_fed (A.meaning app.now) (state_of g state.now)
        (component_of component.now) child }
{
    match child {
        Some(child) => Some((child, keeps(app, state, child, component))),
        None => None,
    }
}
