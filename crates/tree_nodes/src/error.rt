//! Why a body answered no tree.

ghost use Rattle.std.specs.Prelude.{◌≡◌, ◌↔◌, IsTrue, IfOk, Some, codes};
ghost use Rattle.tree_nodes.specs.Texts.{aborted_text, error_text, suspended_text};

use rt_values::{OutOfMemory, Part, ScopeId, Task, Text};
use std::alloc::Global;
use std::fmt;

/// Why a body answered no tree.
#[derive(Debug, Drop)]
pub enum RenderError {
    Error(CapturedError),
    Suspended(SuspendedFuture),
}

/// An error that a body, a task or a handler made.
#[derive(Debug, Drop)]
pub struct CapturedError {
    /// Errors that an application makes are numbered from 1.
    pub serial: u64,
    pub text: Text,
}

/// The task on which a body waits.
#[derive(Clone, Copy, Debug, PartialEq, Eq)]
pub struct SuspendedFuture {
    /// The scope whose body waits.
    pub origin: ScopeId,
    pub task: Task,
}

impl RenderError {
    /// The error of a body that broke off early, which no application made.
    pub fn aborted_early(alloc: Global) -> Result<RenderError, OutOfMemory>
        ensures { IfOk result (λ error. error ≡ RenderError.Error (record {
          serial = 0;
          text = aborted_text;
        })) }
    {
        Ok(RenderError::Error(CapturedError {
            serial: 0,
            text: Text::from_str(alloc, "Render aborted early")?,
        }))
    }

    /// Whether the two are equal.
    pub fn same(&self, other: &RenderError) -> bool
        ensures { IsTrue result ↔ (self.now ≡ other.now) }
    {
        match (self, other) {
            (RenderError::Error(left), RenderError::Error(right)) => left.same(right),
            (RenderError::Suspended(left), RenderError::Suspended(right)) => left.same(right),
            _ => false,
        }
    }

    /// An equal one.
    pub fn copy(&self, alloc: Global) -> Result<RenderError, OutOfMemory>
        ensures { IfOk result (λ copied. copied ≡ self.now) }
    {
        match self {
            RenderError::Error(error) => Ok(RenderError::Error(error.copy(alloc)?)),
            RenderError::Suspended(future) => Ok(RenderError::Suspended(*future)),
        }
    }
}

impl CapturedError {
    /// Whether serial and text are equal.
    pub fn same(&self, other: &CapturedError) -> bool
        ensures { IsTrue result ↔ (self.now ≡ other.now) }
    {
        self.serial == other.serial && self.text.same(&other.text)
    }

    /// An equal one.
    pub fn copy(&self, alloc: Global) -> Result<CapturedError, OutOfMemory>
        ensures { IfOk result (λ copied. copied ≡ self.now) }
    {
        Ok(CapturedError {
            serial: self.serial,
            text: self.text.copy(alloc)?,
        })
    }
}

impl SuspendedFuture {
    pub fn new(origin: ScopeId, task: Task) -> SuspendedFuture
        ensures origin { result.origin ≡ origin }
        ensures task { result.task ≡ task }
    {
        SuspendedFuture { origin, task }
    }

    pub fn task(&self) -> Task
        ensures { result ≡ self.now.task }
    {
        self.task
    }

    /// Whether origin and task are equal.
    pub fn same(&self, other: &SuspendedFuture) -> bool
        ensures { IsTrue result ↔ (self.now ≡ other.now) }
    {
        self.origin == other.origin && self.task == other.task
    }

    /// An equal one.
    pub fn copy(&self, _alloc: Global) -> Result<SuspendedFuture, OutOfMemory>
        ensures { IfOk result (λ copied. copied ≡ self.now) }
    {
        Ok(*self)
    }
}

impl From<CapturedError> for RenderError {
    ghost use Rattle.std.specs.Prelude.{◌≡◌};
    ghost use Rattle.tree_nodes.specs.declared.error.RenderError.TheVariants.{Error};

    ghost from_gives = { λ error made. made ≡ Error error };

    fn from(error: CapturedError) -> RenderError {
        RenderError::Error(error)
    }
}

impl fmt::Display for RenderError {
    ghost output = { λ error. Some (error_text error) };

    fn fmt<W: fmt::Write>(&self, f: &mut fmt::Formatter<W>) -> fmt::Result {
        match self {
            RenderError::Error(error) => write!(f, "Render aborted: {error}"),
            RenderError::Suspended(future) => {
                let task = future.task.0;
                write!(f, "Component suspended: task {task}")
            }
        }
    }
}

impl fmt::Display for CapturedError {
    ghost output = { λ error. Some error.text };

    fn fmt<W: fmt::Write>(&self, f: &mut fmt::Formatter<W>) -> fmt::Result {
        f.write_str(self.text.as_str())
    }
}

impl fmt::Display for SuspendedFuture {
    ghost output = { λ future. Some (suspended_text future) };

    fn fmt<W: fmt::Write>(&self, f: &mut fmt::Formatter<W>) -> fmt::Result {
        let task = self.task.0;
        write!(f, "SuspendedFuture {{ task: {task} }}")
    }
}
