//! The built-in components: the body of a fragment, and the call of a built-in body in its scope.
ghost use Rattle.std.specs.Prelude.{◌≡◌, IsSome, IfSome};
ghost use Rattle.std.specs.Option.{option_copied};
ghost use Rattle.rt_model.specs.Lists.{at};
ghost use Rattle.rt_model.specs.Run.{call_body};
ghost use Rattle.tree_mirror.specs.Sealed.{component_of, element_of};
ghost use Rattle.rt_model.specs.Tree as model;
ghost use Rattle.tree_nodes.specs.declared.vnode.VComponent.TheVariants as components;
ghost use Rattle.rt_scopes.specs.Bodies.{Answers};
ghost use Rattle.rt_boundary.specs.Seen.{children_in};

use author_calls::{App, Calls};
use rt_scopes::Scopes;
use rt_values::ScopeId;
use run_state::Stop;
use tree_nodes::{Element, FragmentProps, Parts};

/// The body of a fragment, which answers its children.
pub fn Fragment<P: Parts>(props: FragmentProps<P>) -> Element<P>
    ensures children { result ≡ children_in props }
    // At the mirror the component is a fragment of what is answered.
    ensures meant { component_of (components.Fragment props) ≡ model.Fragment (element_of result) }
{
    let FragmentProps { children } = props;
    children.into_inner()
}

/// Calls the body of a built-in component in its live scope, of a suspense boundary that of its
/// fallback: what it read is kept, its tree is tested, what it asked for is done. The answer.
pub fn answer<A: App>(
    scopes: &mut Scopes<A>,
    app: &A,
    calls: &mut Calls,
    scope: ScopeId,
) -> Result<Element<A>, Stop>
    requires live { IsSome (at scopes.old.state.rows.table scope.0) }
    // Whatever follows the answer, it comes to that.
    ensures answered { IfSome (at scopes.old.state.rows.table scope.0) (λ found.
        Answers (λ w then_on. call_body (A.meaning app.now) w scope.0
        (component_of found.rest.component) then_on)
        scopes.old.state calls.old scopes.new.state calls.new result) }
{
    let Some(found) = scopes.state.scope(scope.0) else {
        unreachable!()
    };
    let component = found.rest.component.copy(scopes.alloc)?;
    scopes.call_component(app, calls, scope, &component)
}
