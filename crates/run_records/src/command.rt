//! What a call of an application asks for.

use crate::rows::Hook;
use rt_cells::{ReactiveContext, Source, Target};
use rt_values::{ScopeId, Task};
use tree_nodes::{CapturedError, Parts};

/// What a call asks for. It is done once the call has returned.
#[derive(Drop)]
pub enum Command<P: Parts> {
    /// One more hook of the caller's scope.
    KeepHook(Hook<P>),
    /// A cell of the caller's scope.
    NewCell {
        cell: u64,
        value: P::Value,
    },
    Write {
        cell: u64,
        value: P::Value,
    },
    DropCell {
        cell: u64,
    },
    /// A reactive context of the caller's scope.
    NewContext {
        context: ReactiveContext,
        target: Target,
    },
    /// The context has no source from then on.
    Reset {
        context: ReactiveContext,
    },
    /// One more source of the context.
    ReadInto {
        context: ReactiveContext,
        source: Source,
    },
    /// A task of the caller's scope, or of the root wrapper where it is to live for ever.
    Spawn {
        task: Task,
        state: P::TaskState,
        forever: bool,
        isomorphic: bool,
    },
    RemoveFuture {
        task: Task,
    },
    Wake {
        task: Task,
    },
    SetActive {
        task: Task,
        active: bool,
    },
    QueueEffect(P::Effect),
    /// A value of a kind, of the caller's scope or of the root wrapper.
    Provide {
        root: bool,
        kind: u32,
        value: P::Value,
    },
    /// A mark of a scope.
    Update {
        scope: ScopeId,
    },
    Throw(CapturedError),
    /// Clears the nearest error.
    ClearErrors,
    /// Runs once the caller's suspense boundary is shown.
    Resolved(P::Effect),
    /// Freezes the caller's suspense boundary.
    Freeze,
}
