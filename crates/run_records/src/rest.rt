//! What the runtime keeps of a scope, beside what a call can see of it.
ghost use Rattle.std.specs.Prelude.{◌≡◌};
ghost use Rattle.rt_model.specs.Tree.{is_error_boundary};
ghost use Rattle.tree_mirror.specs.Sealed.{component_of};

use crate::holders::Holders;
use crate::rows::ScopeRow;
use rt_cells::Source;
use rt_values::{Boxed, List, OutOfMemory, Text};
use run_places::{Side, SideName};
use std::alloc::Global;
use tree_nodes::{CapturedError, FragmentProps, Parts, RenderError, VComponent};

/// What else is kept of a scope.
#[derive(Drop)]
pub struct Rest<P: Parts> {
    /// With the props that it was handed last.
    pub component: VComponent<P>,
    /// The number of scopes above it.
    pub height: u32,
    /// The side of the parent that it was made on.
    pub below: SideName,
    pub main_side: Side<P>,
    pub children_side: Side<P>,
    pub fallback_side: Side<P>,
    /// What its last run read, in order.
    pub reads: List<Source>,
    /// It was shown at the end of the build or of a unit, so its effects may be done.
    pub mounted: bool,
    /// The effects that it has queued, in order.
    pub effects: List<P::Effect>,
    /// Of a suspense boundary: the side that shows, none while it is being made.
    pub shows: Option<SideName>,
    /// Of a suspense boundary: the tasks that hold it.
    pub holders: Holders,
    /// Of a suspense boundary: a suspended render passes over what is below it.
    pub frozen: bool,
    /// What is called when it turns to its children, with the scope of each.
    pub callbacks: List<(u64, P::Effect)>,
}

/// All that is kept of a scope.
#[derive(Drop)]
pub struct Scope<P: Parts> {
    pub row: ScopeRow<P>,
    pub rest: Rest<P>,
}

impl<P: Parts> Rest<P> {
    /// What is kept of a scope at its making, not yet run.
    pub(crate) fn new(
        alloc: Global,
        component: VComponent<P>,
        height: u32,
        below: SideName,
        shows: Option<SideName>,
    ) -> Rest<P> {
        Rest {
            component,
            height,
            below,
            main_side: Side::empty(alloc),
            children_side: Side::empty(alloc),
            fallback_side: Side::empty(alloc),
            reads: List::new(alloc),
            mounted: false,
            effects: List::new(alloc),
            shows,
            holders: Holders::new(alloc),
            frozen: false,
            callbacks: List::new(alloc),
        }
    }
}

/// Whether a component is an error boundary.
#[tactic(auto, using(crate::proofs::Boundaries::boundaries))]
pub fn is_error_boundary<P: Parts>(component: &VComponent<P>) -> bool
    ensures { result ≡ is_error_boundary (component_of component.now) }
{
    match component {
        VComponent::ErrorBoundary(_) => true,
        VComponent::App { .. } => false,
        VComponent::Fragment(_) => false,
        VComponent::SuspenseBoundary(_) => false,
        VComponent::Root(_) => false,
    }
}

/// The component of a row that was put in by itself: a fragment that shows nothing.
pub(crate) fn no_component<P: Parts>(alloc: Global) -> Result<VComponent<P>, OutOfMemory> {
    let error = RenderError::Error(CapturedError {
        serial: 0,
        text: Text::from_str(alloc, "")?,
    });
    let children = Boxed::new(alloc, Err(error))?;
    Ok(VComponent::Fragment(FragmentProps { children }))
}
