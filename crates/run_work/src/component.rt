//! Whether one component may take another one's place.

ghost use Rattle.std.specs.Prelude.{◌≡◌};
ghost use Rattle.tree_mirror.specs.Sealed.{component_of};
ghost use Rattle.run_work.specs.Found.{IsOwn, IsSame, is_error_boundary_in, is_fragment_in, is_root_in, is_suspense_boundary_in};

use rt_values::Part;
use tree_nodes::{Parts, VComponent};

/// Whether two components are the same, whatever their props.
#[tactic(auto, using(crate::proofs::Components::components))]
pub fn is_same_component<P: Parts>(old: &VComponent<P>, new: &VComponent<P>) -> bool
    ensures { IsSame result old.now new.now }
{
    match old {
        VComponent::App {
            component,
            props: _,
        } => is_own(component, new),
        VComponent::Fragment(_) => is_fragment(new),
        VComponent::ErrorBoundary(_) => is_error_boundary(new),
        VComponent::SuspenseBoundary(_) => is_suspense_boundary(new),
        VComponent::Root(_) => is_root(new),
    }
}

// Whether it is this component of the application.
#[tactic(auto, using(crate::proofs::Components::components))]
fn is_own<P: Parts>(component: &P::Component, new: &VComponent<P>) -> bool
    ensures { IsOwn result component.now new.now }
{
    match new {
        VComponent::App {
            component: other,
            props: _,
        } => component.same(other),
        VComponent::Fragment(_) => false,
        VComponent::ErrorBoundary(_) => false,
        VComponent::SuspenseBoundary(_) => false,
        VComponent::Root(_) => false,
    }
}

#[tactic(auto, using(crate::proofs::Components::components))]
fn is_fragment<P: Parts>(component: &VComponent<P>) -> bool
    ensures { result ≡ is_fragment_in (component_of component.now) }
{
    match component {
        VComponent::App { .. } => false,
        VComponent::Fragment(_) => true,
        VComponent::ErrorBoundary(_) => false,
        VComponent::SuspenseBoundary(_) => false,
        VComponent::Root(_) => false,
    }
}

#[tactic(auto, using(crate::proofs::Components::components))]
fn is_error_boundary<P: Parts>(component: &VComponent<P>) -> bool
    ensures { result ≡ is_error_boundary_in (component_of component.now) }
{
    match component {
        VComponent::App { .. } => false,
        VComponent::Fragment(_) => false,
        VComponent::ErrorBoundary(_) => true,
        VComponent::SuspenseBoundary(_) => false,
        VComponent::Root(_) => false,
    }
}

#[tactic(auto, using(crate::proofs::Components::components))]
fn is_suspense_boundary<P: Parts>(component: &VComponent<P>) -> bool
    ensures { result ≡ is_suspense_boundary_in (component_of component.now) }
{
    match component {
        VComponent::App { .. } => false,
        VComponent::Fragment(_) => false,
        VComponent::ErrorBoundary(_) => false,
        VComponent::SuspenseBoundary(_) => true,
        VComponent::Root(_) => false,
    }
}

#[tactic(auto, using(crate::proofs::Components::components))]
fn is_root<P: Parts>(component: &VComponent<P>) -> bool
    ensures { result ≡ is_root_in (component_of component.now) }
{
    match component {
        VComponent::App { .. } => false,
        VComponent::Fragment(_) => false,
        VComponent::ErrorBoundary(_) => false,
        VComponent::SuspenseBoundary(_) => false,
        VComponent::Root(_) => true,
    }
}
