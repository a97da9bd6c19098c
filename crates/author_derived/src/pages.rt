//! What an author gives of pages with derived cells.
ghost use Rattle.std.specs.Prelude.{◌≡◌, IfOk, OnOk};
ghost use Rattle.tree_mirror.specs.Mirror.{tree_of};
ghost use Rattle.author_calls.specs.Answers.{event_of};

use crate::paged::DerivedPaged;
use author_bodies::{Bodied, KeepsCells};
use rt_values::{List, OutOfMemory, ScopeId};
use std::alloc::Global;
use tree_nodes::{Event, VNode};

/// An application of pure answers whose components have derived cells beside their own ones. A
/// derived cell is kept equal to a function of the values of other cells. What it is kept by, its
/// formula, is the `TaskState` of `Parts`; there are no other tasks, and no effects.
pub trait DerivedPages: KeepsCells {
    ghost use Rattle.author_programs.specs.Means.{AllDecide};
    ghost use Rattle.author_derived.specs.Derived.{Derivations, derived_types};

    /// What its components, listeners and formulas are.
    ghost answers: { Self → Derivations (derived_types Self.Component Self.Props Self.Value Self.Handler
        Self.TaskState Self.Payload) Self.TaskState };

    /// The root component's props where none are handed in.
    ghost props_of_none: { Self → Self.Props };

    /// The root component.
    fn root(&self, alloc: Global) -> Result<Self::Component, OutOfMemory>
        ensures root { IfOk result (λ component. component ≡ (answers self.now).pages.root) };

    /// The root component's props where none are handed in.
    fn empty_props(&self, alloc: Global) -> Result<Self::Props, OutOfMemory>
        ensures props { IfOk result (λ props. props ≡ props_of_none self.now) };

    /// The first values of a component's own cells.
    fn cells(
        &self,
        alloc: Global,
        component: &Self::Component,
        props: &Self::Props,
    ) -> Result<List<Self::Value>, OutOfMemory>
        ensures cells { IfOk result (λ cells.
            cells ≡ ((answers self.now).pages.page component.now props.now).cells) };

    /// The formulas of a component's derived cells, of the numbers of its own ones.
    fn derived(
        &self,
        alloc: Global,
        component: &Self::Component,
        props: &Self::Props,
        own: &[u64],
    ) -> Result<List<Self::TaskState>, OutOfMemory>
        ensures derived { IfOk result (λ formulas.
            formulas ≡ (answers self.now).derived component.now props.now own.now) };

    /// The cells that a formula reads.
    fn sources(&self, alloc: Global, formula: &Self::TaskState) -> Result<List<u64>, OutOfMemory>
        ensures sources { IfOk result (λ cells. cells ≡ (answers self.now).sources formula.now) };

    /// The value of a derived cell, of those that its formula read.
    fn value(
        &self,
        alloc: Global,
        formula: &Self::TaskState,
        values: &[Option<Self::Value>],
    ) -> Result<Self::Value, OutOfMemory>
        ensures value { IfOk result (λ value.
            value ≡ (answers self.now).value formula.now values.now) };

    /// What a derived cell holds before its formula was computed for the first time.
    fn empty(&self, alloc: Global) -> Result<Self::Value, OutOfMemory>
        ensures empty { IfOk result (λ value. value ≡ (answers self.now).empty) };

    /// The cells that a component reads, of the numbers of its own cells and, behind these, of its
    /// derived ones.
    fn reads(
        &self,
        alloc: Global,
        component: &Self::Component,
        props: &Self::Props,
        all: &[u64],
    ) -> Result<List<u64>, OutOfMemory>
        ensures reads { IfOk result (λ cells.
            cells ≡ ((answers self.now).pages.page component.now props.now).reads all.now) };

    /// What a component shows, of its scope, of the same numbers, and of the values that it read.
    fn shows(
        &self,
        alloc: Global,
        component: &Self::Component,
        props: &Self::Props,
        scope: ScopeId,
        all: &[u64],
        values: &[Option<Self::Value>],
    ) -> Result<VNode<Bodied<DerivedPaged<Self>>>, OutOfMemory>
        ensures shows { IfOk result (λ tree. tree_of tree
            ≡ ((answers self.now).pages.page component.now props.now).shows
            scope.0 all.now values.now) };

    /// The cells that a listener reads.
    fn hears(
        &self,
        alloc: Global,
        handler: &Self::Handler,
        event: &Event<Self::Payload>,
    ) -> Result<List<u64>, OutOfMemory>
        ensures hears { IfOk result (λ cells.
            cells ≡ ((answers self.now).pages.reply handler.now (event_of event.now)).reads) };

    /// The cells that it writes, of the values that it read. It leaves the event as it is to go on.
    fn writes(
        &self,
        alloc: Global,
        handler: &Self::Handler,
        event: &mut Event<Self::Payload>,
        values: &[Option<Self::Value>],
    ) -> Result<List<(u64, Self::Value)>, OutOfMemory>
        ensures writes { IfOk result (λ writes. writes
            ≡ ((answers self.now).pages.reply handler.now (event_of event.old)).writes values.now) }
        ensures leaves { OnOk result (event_of event.new
            ≡ ((answers self.now).pages.reply handler.now (event_of event.old)).leaves) };

    /// The tests decide.
    ghost decide: { (pages : Self) → AllDecide
        (derived_types Self.Component Self.Props Self.Value Self.Handler Self.TaskState Self.Payload)
        (answers pages).pages };
}
