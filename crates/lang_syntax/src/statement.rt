//! What a body, an action or a step does.

use crate::derived::Formula;
use crate::expression::Expression;
use rt_values::List;

/// When a body's hook calls its action.
#[derive(Clone, Copy, Debug, PartialEq, Eq)]
pub enum HookTime {
    AtRemoval,
    BeforeRender,
    AfterRender,
}

/// What kind of task is spawned.
#[derive(Clone, Copy, Debug, PartialEq, Eq)]
pub enum SpawnKind {
    Client,
    Isomorphic,
    Forever,
}

/// What may be done to a task.
#[derive(Clone, Copy, Debug, PartialEq, Eq)]
pub enum TaskAct {
    WakeUp,
    Cancel,
    Pause,
    Resume,
}

/// A statement after which the next one always follows.
#[derive(Debug, Drop)]
pub enum Simple {
    /// Binds the next variable.
    Let(Expression),
    EffectOf {
        action: u64,
        arguments: List<Expression>,
    },
    OnResolved {
        action: u64,
        arguments: List<Expression>,
    },
    FreezeBoundary,
    ProvideAs {
        kind: u64,
        value: Expression,
    },
    WriteTo {
        variable: u64,
        value: Expression,
    },
    Forget(u64),
    ActOn {
        act: TaskAct,
        variable: u64,
    },
    MarkScopeOf(Expression),
    ClearError,
    Stop,
    Prevent,
    Stay,
}

/// What a body, an action or a step does. Actions, tasks and kinds of contexts are places.
#[derive(Debug, Drop)]
pub enum Statement {
    Does(Simple),
    /// Binds the next variable, as do `UseCell`, `UseHook` and `UseDerived`.
    SpawnTask {
        task: u64,
        arguments: List<Expression>,
        kind: SpawnKind,
    },
    When {
        test: Expression,
        statements: List<Statement>,
    },
    ThrowText(Expression),
    /// What follows stands in bodies alone.
    UseCell(Expression),
    UseHook(Expression),
    /// The cell of a memo or of a resource.
    UseDerived(Formula),
    CallAt {
        time: HookTime,
        action: u64,
        arguments: List<Expression>,
    },
    FailWith(Expression),
    SuspendOn(u64),
}
