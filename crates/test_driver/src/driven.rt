//! What is driven: the calls of a dom over the application of a source, with plain answers.

use lang_script::{Script, TaskState};
use lang_views::{Doing, Props, Value};
use rt_edits::{DocNode, Mutations, WriteMutations};
use rt_inbox::Drained;
use rt_values::{ElementId, List, OutOfMemory, ScopeId, Task, Text};
use run_records::Firsts;
use run_reports::{Fault, Limits, Report};
use std::alloc::{AllocError, Global};
use tree_nodes::{CapturedError, Event, Place};

/// What is seen of a live scope itself.
#[derive(Clone, Copy, Debug, PartialEq, Eq)]
pub struct Scoped {
    pub height: u64,
    /// Whether it has a tree.
    pub built: bool,
}

/// What is seen of a suspense boundary.
#[derive(Clone, Copy, Debug, PartialEq, Eq)]
pub struct Boundary {
    pub frozen: bool,
    /// Whether its fallback shows.
    pub hidden: bool,
    /// Whether a suspended task holds it.
    pub held: bool,
}

/// What has the calls of a dom. Each does what that of its name does.
pub trait Driven {
    /// Why a call is refused.
    type Refused: Drop;

    /// Writes the line of a refusal.
    fn put_refused(
        alloc: Global,
        out: &mut String,
        refused: Self::Refused,
    ) -> Result<(), AllocError>;

    // How it begins and ends.

    /// A dom that isn't built yet, with the props that the root has where none are handed in.
    fn new(alloc: Global, script: Script, limits: Limits) -> Result<Self, Fault>;

    /// One that is built.
    fn prebuilt(alloc: Global, script: Script, limits: Limits) -> Result<Self, Fault>;

    /// One that isn't built yet, with these props.
    fn new_with_props(
        alloc: Global,
        script: Script,
        props: Props,
        limits: Limits,
    ) -> Result<Self, Fault>;

    /// One that isn't built yet, with these props, whose counters begin at these numbers.
    fn new_from(
        alloc: Global,
        script: Script,
        props: Props,
        limits: Limits,
        firsts: Firsts,
    ) -> Result<Self, Fault>;

    /// The dom, its root wrapper providing a value of a kind.
    fn with_root_context(self, kind: u32, value: Value) -> Result<Self, Fault>;

    /// All scopes go, and the dom with them. The application.
    fn close(self) -> Result<Script, Fault>;

    // What builds, renders and polls.

    /// The build, into a sink.
    fn rebuild<M: WriteMutations>(&mut self, to: &mut M) -> Result<Report, Self::Refused>;

    /// The build, into none.
    fn rebuild_in_place(&mut self) -> Result<Report, Self::Refused>;

    /// The build, and its edits.
    fn rebuild_to_vec(&mut self) -> Result<Mutations, Self::Refused>;

    /// Work until no scope is seen and no task is queued, into a sink.
    fn render_immediate<M: WriteMutations>(&mut self, to: &mut M) -> Result<Report, Self::Refused>;

    /// Work until no scope is seen and no task is queued, and its edits.
    fn render_immediate_to_vec(&mut self) -> Result<Mutations, Self::Refused>;

    /// A look, polls and a batch of effects.
    fn process_events(&mut self) -> Result<Report, Self::Refused>;

    /// All that is owed, into a sink.
    fn settle<M: WriteMutations>(&mut self, to: &mut M) -> Result<Report, Self::Refused>;

    /// Renders while suspended, into a sink. The boundaries that turned.
    fn render_suspense_immediate(
        &mut self,
        to: &mut Mutations,
    ) -> Result<List<ScopeId>, Self::Refused>;

    /// Whether it is ready.
    fn poll_work(&mut self, drained: &Drained) -> Result<bool, Self::Refused>;

    /// Whether it is ready.
    fn poll_suspense(&mut self, drained: &Drained) -> Result<bool, Self::Refused>;

    /// Whether the task is ready.
    fn poll_now(&mut self, task: Task) -> Result<bool, Self::Refused>;

    // What is told from outside.

    /// The listeners of an event are called. The event as they left it.
    fn handle_event(
        &mut self,
        name: &str,
        event: Event<Value>,
        element: ElementId,
    ) -> Result<Event<Value>, Self::Refused>;

    /// Marks a scope.
    fn mark_dirty(&mut self, scope: ScopeId) -> Result<(), Self::Refused>;

    /// Marks every scope.
    fn mark_all_dirty(&mut self) -> Result<(), Self::Refused>;

    /// Marks what a reactive context targets. Whether the context is there.
    fn mark_context(&mut self, context: u64) -> Result<bool, Self::Refused>;

    /// Writes a cell. Whether it is there.
    fn write(&mut self, cell: u64, value: Value) -> Result<bool, Self::Refused>;

    /// Ends a task. Whether it was live.
    fn cancel(&mut self, task: Task) -> Result<bool, Self::Refused>;

    /// Pauses a task.
    fn pause(&mut self, task: Task) -> Result<(), Self::Refused>;

    /// Makes a task active.
    fn resume(&mut self, task: Task) -> Result<(), Self::Refused>;

    /// Pauses a task or makes it active.
    fn set_active(&mut self, task: Task, active: bool) -> Result<(), Self::Refused>;

    /// Wakes a task.
    fn wake(&mut self, task: Task) -> Result<(), Self::Refused>;

    /// A new task of a scope.
    fn spawn(&mut self, scope: ScopeId, state: TaskState) -> Result<Option<Task>, Self::Refused>;

    /// A new task of a scope, which suspended renders poll too.
    fn spawn_isomorphic(
        &mut self,
        scope: ScopeId,
        state: TaskState,
    ) -> Result<Option<Task>, Self::Refused>;

    /// A new one, as `spawn` makes it.
    fn task_new(&mut self, scope: ScopeId, state: TaskState) -> Result<Option<Task>, Self::Refused>;

    /// Registers what is called when a boundary next turns.
    fn after_suspense_resolved(
        &mut self,
        boundary: ScopeId,
        effect: Doing,
    ) -> Result<(), Self::Refused>;

    /// Freezes a boundary.
    fn freeze(&mut self, boundary: ScopeId) -> Result<(), Self::Refused>;

    /// The root wrapper provides a value of a kind.
    fn provide_root_context(&mut self, kind: u32, value: Value) -> Result<(), Self::Refused>;

    /// Throws an error at a scope.
    fn throw_error(&mut self, scope: ScopeId, text: Text) -> Result<(), Self::Refused>;

    /// Gives an error to a boundary.
    fn insert_error(&mut self, boundary: ScopeId, text: Text) -> Result<(), Self::Refused>;

    /// Takes the error of a boundary.
    fn clear_errors(&mut self, boundary: ScopeId) -> Result<(), Self::Refused>;

    // What is asked.

    /// What is seen of a scope. None where it isn't live.
    fn scope(&self, scope: ScopeId) -> Option<Scoped>;

    /// The parent of a scope.
    fn parent_scope(&self, scope: ScopeId) -> Option<ScopeId>;

    /// How many scopes stand above one.
    fn height(&self, scope: ScopeId) -> Option<u64>;

    /// The nearest suspense boundary.
    fn suspense_context(&self, scope: ScopeId) -> Option<ScopeId>;

    /// Whether a scope stands below another one.
    fn is_descendant_of(&self, scope: ScopeId, other: ScopeId) -> bool;

    /// What is provided of a kind, from a scope upwards.
    fn consume_context(&self, scope: ScopeId, kind: u32) -> Option<&Value>;

    /// What a scope itself provides of a kind.
    fn has_context(&self, scope: ScopeId, kind: u32) -> Option<&Value>;

    /// The nodes of a scope.
    fn nodes_of(&self, scope: ScopeId) -> Result<Option<List<DocNode>>, OutOfMemory>;

    /// The nearest error boundary.
    fn error_context(&self, scope: ScopeId) -> Option<ScopeId>;

    /// The error that an error boundary holds.
    fn error(&self, boundary: ScopeId) -> Option<&CapturedError>;

    /// The scope as a suspense boundary. None where it is none.
    fn boundary(&self, scope: ScopeId) -> Option<Boundary>;

    /// The scope of a live task.
    fn task_scope(&self, task: Task) -> Option<ScopeId>;

    /// The task that was polled when a task was spawned.
    fn parent_task(&self, task: Task) -> Option<Task>;

    /// Whether a task is paused.
    fn paused(&self, task: Task) -> bool;

    /// The scopes that were passed over.
    fn skipped(&self) -> &[ScopeId];

    /// Whether suspended tasks remain.
    fn suspended_tasks_remaining(&self) -> bool;

    /// Where the node of a number stands.
    fn place_of(&self, element: ElementId) -> Option<&Place>;

    /// The value of a cell.
    fn read(&self, cell: u64) -> Option<&Value>;

    /// The live scopes.
    fn live_scopes(&self) -> Result<List<ScopeId>, OutOfMemory>;

    /// The document that shows.
    fn shown(&self) -> Result<List<DocNode>, OutOfMemory>;
}
