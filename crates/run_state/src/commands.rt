//! What the commands of a call change. What names something that isn't live changes nothing.
ghost use Rattle.std.specs.Prelude.{◌≡◌, ℕ, map, OnOk, true, if◌then◌else◌};
ghost use Rattle.rt_model.specs.OneLog.{types};
ghost use Rattle.rt_model.specs.World.{Application};
ghost use Rattle.rt_model.specs.Laws.{Tests};
ghost use Rattle.rt_model.specs.Commands.{command as done_by, commands as done_by_all};
ghost use Rattle.run_records.specs.Records.{command_of};
ghost use Rattle.run_state.specs.Mirror.{state_of};

use crate::names::Posted;
use crate::state::State;
use rt_cells::Source;
use rt_values::{List, OutOfMemory};
use run_records::Command;
use std::alloc::Global;
use tree_nodes::Parts;

impl<P: Parts> State<P> {
    /// The commands of a call in a scope, in order; `polled` is the task that was polled. What is read
    /// into a reactive context after its reset is done as one list.
    pub fn do_commands(
        &mut self,
        alloc: Global,
        scope: u64,
        polled: Option<u64>,
        commands: List<Command<P>>,
    ) -> Result<(), OutOfMemory>
        ensures { (app : Application (types P.Component P.Props P.Value P.Handler P.TaskState P.Effect P.Payload))
            → Tests P.Value app.same_value → OnOk result ((g : _) → state_of g self.new
            ≡ done_by_all app (state_of g self.old) scope polled (map command_of commands)) }
    {
        let mut left: Option<(u64, List<Source>)> = None;
        for command in commands.into_vec() {
            let later = self.command_after(alloc, scope, polled, left, command)?;
            left = later;
        }
        self.reread(alloc, left)
    }

    /// One command of a call in a scope.
    pub fn command(
        &mut self,
        alloc: Global,
        scope: u64,
        polled: Option<u64>,
        command: Command<P>,
    ) -> Result<(), OutOfMemory>
        ensures { (app : Application (types P.Component P.Props P.Value P.Handler P.TaskState P.Effect P.Payload))
            → Tests P.Value app.same_value → OnOk result ((g : _) → state_of g self.new
            ≡ done_by app (state_of g self.old) scope polled (command_of command)) }
    {
        match command {
            Command::KeepHook(hook) => self.keep_hook(scope, hook),
            Command::NewCell { cell, value } => self.new_cell(scope, cell, value),
            Command::Write { cell, value } => self.write_cell(cell, value),
            Command::DropCell { cell } => self.drop_cell(cell),
            Command::NewContext { context, target } => self.new_context(scope, context.0, target),
            Command::Reset { context } => self.reset_context(context.0),
            Command::ReadInto { context, source } => self.read_into(alloc, context.0, source),
            Command::Spawn {
                task,
                state,
                forever,
                isomorphic,
            } => self.spawn(polled, owner(forever, scope), task.0, state, isomorphic),
            Command::RemoveFuture { task } => self.end(task.0),
            Command::Wake { task } => self.post(Posted::Woken(task.0)),
            Command::SetActive { task, active } => self.set_active(task.0, active),
            Command::QueueEffect(effect) => self.queue_effect(scope, effect),
            Command::Provide { root, kind, value } => {
                self.provide_context(owner(root, scope), kind, value)
            }
            Command::Update { scope } => self.post(Posted::Mark(scope.0)),
            Command::Throw(error) => self.throw_error(scope, error),
            Command::ClearErrors => self.clear_error(scope),
            Command::Resolved(effect) => self.register(scope, effect),
            Command::Freeze => self.freeze(scope),
        }
    }
}

/// The root wrapper, where it is meant, and else the caller's scope.
fn owner(root: bool, scope: u64) -> u64
    ensures { result ≡ (if root then 0 else scope) }
{
    if root { 0 } else { scope }
}
