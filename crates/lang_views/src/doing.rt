//! An action with its arguments, and a task between two polls.
ghost use Rattle.std.specs.Prelude.{◌≡◌};
ghost use Rattle.rt_language.specs.Statements.{doing, standing};

use crate::value::Value;
use rt_values::{List, OutOfMemory, Part};
use std::alloc::Global;
use std::marker::Model;

/// An action with its arguments: what a listener, an effect, a clean-up or a callback does.
#[derive(Debug, Drop)]
pub struct Doing {
    action: u64,
    arguments: List<Value>,
}

impl Model for Doing {
    ghost use Rattle.rt_language.specs.Expressions as language;

    ghost Value = { language.Doing };

    ghost view = { λ doing. record { action = doing.action; arguments = doing.arguments } };
}

impl Doing {
    pub fn new(action: u64, arguments: List<Value>) -> Doing
        ensures { result ≡ doing action arguments }
    {
        Doing { action, arguments }
    }

    /// The place of the action.
    pub fn action(&self) -> u64
        ensures { result ≡ self.now.action }
    {
        self.action
    }

    pub fn arguments(&self) -> &[Value]
        ensures { result.now ≡ self.now.arguments }
    {
        self.arguments.as_slice()
    }
}

impl Part for Doing {
    fn same(&self, other: &Doing) -> bool {
        self.action == other.action && self.arguments.same(&other.arguments)
    }

    fn copy(&self, alloc: Global) -> Result<Doing, OutOfMemory> {
        Ok(Doing {
            action: self.action,
            arguments: self.arguments.copy(alloc)?,
        })
    }
}

/// Where a task that runs its steps stands between two polls.
#[derive(Debug, Drop)]
pub struct Standing {
    task: u64,
    arguments: List<Value>,
    step: u64,
}

impl Model for Standing {
    ghost use Rattle.rt_language.specs.Expressions as language;

    ghost Value = { language.Standing };

    ghost view = { λ at. record { task = at.task; arguments = at.arguments; step = at.step } };
}

impl Standing {
    /// A task at its first step.
    pub fn new(task: u64, arguments: List<Value>) -> Standing
        ensures { result ≡ standing task arguments }
    {
        Standing {
            task,
            arguments,
            step: 0,
        }
    }

    /// The place of the task.
    pub fn task(&self) -> u64
        ensures { result ≡ self.now.task }
    {
        self.task
    }

    pub fn arguments(&self) -> &[Value]
        ensures { result.now ≡ self.now.arguments }
    {
        self.arguments.as_slice()
    }

    /// The step that the next poll runs, from 0 on.
    pub fn step(&self) -> u64
        ensures { result ≡ self.now.step }
    {
        self.step
    }

    /// The task at another step.
    pub fn at(self, step: u64) -> Standing
        ensures { result ≡ record self { step = step } }
    {
        let Standing {
            task,
            arguments,
            step: _,
        } = self;
        Standing {
            task,
            arguments,
            step,
        }
    }
}
