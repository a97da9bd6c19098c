//! Polls of tasks.
ghost use Rattle.std.specs.Prelude.{◌≡◌, ◌↔◌, IsTrue, Some, map, true, false, IfOk, OnOk};
ghost use Rattle.rt_model.specs.Laws.{Tests};
ghost use Rattle.rt_model.specs.Next.{is_active};
ghost use Rattle.rt_model.specs.OneLog.{types};
ghost use Rattle.rt_model.specs.State.{world_of};
ghost use Rattle.rt_model.specs.World.{Application};
ghost use Rattle.rt_model.specs.Replay as replay;
ghost use Rattle.author_calls.specs.Answers.{step_of};
ghost use Rattle.run_records.specs.Records.{command_of};
ghost use Rattle.run_reports.specs.Polls.{told_by};
ghost use Rattle.rt_scopes.specs.Outcomes.{Comes, no_work};
ghost use Rattle.rt_scopes.specs.Polls.{IsLeft, PollsApart};
ghost use Rattle.run_state.specs.Mirror.{state_of};

use crate::scopes::{Scopes, apart};
use author_calls::{App, Calls, Cx, Plain, TaskStep};
use rt_values::{List, OutOfMemory, ScopeId, Task};
use run_records::Command;
use run_reports::{Poll, poll_of};
use run_state::Stop;

impl<A: App> Scopes<A> {
    /// Polls a task: its wakes are spent, and a task that has ended goes. Whether it has ended, as of a
    /// task that isn't live. No look follows.
    pub fn poll_task(&mut self, app: &A, calls: &mut Calls, task: Task) -> Result<Poll<()>, Stop>
        ensures polled { Comes (λ w. replay.polled_apart (A.meaning app.now) w task.0)
            self.old.state calls.old self.new.state calls.new no_work result }
        ensures ready { IfOk result (λ polled. (g : _) →
            is_active (state_of g self.old.state) task.0 ≡ true →
            polled ≡ told_by
            (replay.ready_now (A.meaning app.now) (state_of g self.old.state) task.0)) }
    {
        self.state.unqueue(task.0);
        if !self.state.has_task(task.0) {
            return Ok(Poll::Ready(()));
        }
        let scope = self.state.scope_of_task(task.0);
        // A poll whose call was refused leaves no state to poll with.
        let Some(state) = self.state.take_state(task.0) else {
            return Err(Stop::OutOfMemory);
        };
        self.poll_in(app, calls, scope, task.0, state)
    }

    /// Polls a task of a scope whose state was taken out. Whether it has ended.
    fn poll_in(
        &mut self,
        app: &A,
        calls: &mut Calls,
        scope: u64,
        task: u64,
        state: A::TaskState,
    ) -> Result<Poll<()>, Stop>
        ensures polled { PollsApart (A.meaning app.now) self.old.state calls.old scope task state
            self.new.state calls.new result }
        ensures ready { IfOk result (λ polled. (g : _) → polled ≡ told_by
            (replay.is_ready (A.meaning app.now) ((A.meaning app.now).poll state
            (world_of (state_of g self.old.state) scope (Some task) false)).answer)) }
    {
        let world = self.state.world(Some(Task(task)), false);
        let cx = Cx::<A, Plain>::enter(self.alloc, calls, &world, ScopeId(scope));
        let turn = app.poll(self.alloc, state, cx)?;
        let (step, left) = apart(turn.parts());
        let commands = self.after_call(left)?;
        let ready = is_ready(&step);
        self.take_step(scope, task, step, commands)?;
        Ok(poll_of(ready))
    }

    /// A poll's commands are done, and the task goes on with another state or ends.
    fn take_step(
        &mut self,
        scope: u64,
        task: u64,
        step: TaskStep<A::TaskState>,
        commands: List<Command<A>>,
    ) -> Result<(), OutOfMemory>
        ensures { (app : Application
            (types A.Component A.Props A.Value A.Handler A.TaskState A.Effect A.Payload))
            → Tests A.Value app.same_value → OnOk result (IsLeft app self.old.state scope task
            (step_of step) (map command_of commands) self.new.state) }
    {
        match step {
            TaskStep::Pending(state) => {
                self.state.keep_state(task, state)?;
                self.state
                    .do_commands(self.alloc, scope, Some(task), commands)?;
                Ok(())
            }
            TaskStep::Ready => {
                self.state
                    .do_commands(self.alloc, scope, Some(task), commands)?;
                self.state.end(task)?;
                Ok(())
            }
        }
    }
}

/// Whether a task has ended with this step.
fn is_ready<S>(step: &TaskStep<S>) -> bool
    ensures { IsTrue result ↔ (step.now ≡ TaskStep.Ready) }
{
    match step {
        TaskStep::Ready => true,
        TaskStep::Pending(_) => false,
    }
}
