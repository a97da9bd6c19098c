//! What an author gives.
ghost use Rattle.std.specs.Prelude.{◌≡◌, IfOk, OnOk};
ghost use Rattle.tree_mirror.specs.Mirror.{tree_of};
ghost use Rattle.author_calls.specs.Answers.{event_of};

use crate::cells::KeepsCells;
use crate::paged::Paged;
use rt_values::{List, OutOfMemory, ScopeId};
use std::alloc::Global;
use tree_nodes::{Event, VNode};

/// An application of pure answers: components that keep cells, read cells and show a tree, and
/// listeners that read cells and write them. It has no tasks and no effects. Its types are those of
/// `Parts`, and stand below, so that a tree can be built by any function that these answers call.
pub trait Pages: KeepsCells {
    ghost use Rattle.rt_model.specs.OneLog.{types};
    ghost use Rattle.author_programs.specs.Means.{AllDecide};
    ghost use Rattle.author_programs.specs.Pages.{Pages as Answers};
    ghost use Rattle.author_bodies.specs.declared.no_data.NoData.{NoData};

    /// What its components and listeners are.
    ghost answers: { Self → Answers
        (types Self.Component Self.Props Self.Value Self.Handler NoData NoData Self.Payload) };

    /// The root component's props where none are handed in.
    ghost props_of_none: { Self → Self.Props };

    /// The root component.
    fn root(&self, alloc: Global) -> Result<Self::Component, OutOfMemory>
        ensures root { IfOk result (λ component. component ≡ (answers self.now).root) };

    /// The root component's props where none are handed in.
    fn empty_props(&self, alloc: Global) -> Result<Self::Props, OutOfMemory>
        ensures props { IfOk result (λ props. props ≡ props_of_none self.now) };

    /// The first values of a component's own cells.
    fn cells(
        &self,
        alloc: Global,
        component: &Self::Component,
        props: &Self::Props,
    ) -> Result<List<Self::Value>, OutOfMemory>
        ensures cells { IfOk result (λ cells.
            cells ≡ ((answers self.now).page component.now props.now).cells) };

    /// The cells that a component reads, of the numbers of its own ones.
    fn reads(
        &self,
        alloc: Global,
        component: &Self::Component,
        props: &Self::Props,
        own: &[u64],
    ) -> Result<List<u64>, OutOfMemory>
        ensures reads { IfOk result (λ cells.
            cells ≡ ((answers self.now).page component.now props.now).reads own.now) };

    /// What a component shows, of its scope, the numbers of its own cells, and the values that it
    /// read.
    fn shows(
        &self,
        alloc: Global,
        component: &Self::Component,
        props: &Self::Props,
        scope: ScopeId,
        own: &[u64],
        values: &[Option<Self::Value>],
    ) -> Result<VNode<Paged<Self>>, OutOfMemory>
        ensures shows { IfOk result (λ tree. tree_of tree
            ≡ ((answers self.now).page component.now props.now).shows scope.0 own.now values.now) };

    /// The cells that a listener reads.
    fn hears(
        &self,
        alloc: Global,
        handler: &Self::Handler,
        event: &Event<Self::Payload>,
    ) -> Result<List<u64>, OutOfMemory>
        ensures hears { IfOk result (λ cells.
            cells ≡ ((answers self.now).reply handler.now (event_of event.now)).reads) };

    /// The cells that it writes, of the values that it read. It leaves the event as it is to go on.
    fn writes(
        &self,
        alloc: Global,
        handler: &Self::Handler,
        event: &mut Event<Self::Payload>,
        values: &[Option<Self::Value>],
    ) -> Result<List<(u64, Self::Value)>, OutOfMemory>
        ensures writes { IfOk result (λ writes. writes
            ≡ ((answers self.now).reply handler.now (event_of event.old)).writes values.now) }
        ensures leaves { OnOk result (event_of event.new
            ≡ ((answers self.now).reply handler.now (event_of event.old)).leaves) };

    /// The tests decide.
    ghost decide: { (pages : Self) → AllDecide
        (types Self.Component Self.Props Self.Value Self.Handler NoData NoData Self.Payload)
        (answers pages) };
}
