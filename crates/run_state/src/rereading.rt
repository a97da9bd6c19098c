//! A reactive context that was reset: what is read into it then is done at once, as one list. A poll
//! that reads what the last one read finds just that kept, and moves no link.
ghost use Rattle.std.specs.Prelude.{◌≡◌, ◌++◌, ◌∷◌, [], OnOk, IfOk};
ghost use Rattle.rt_model.specs.OneLog.{types};
ghost use Rattle.rt_model.specs.World as model;
ghost use Rattle.rt_model.specs.World.{Application};
ghost use Rattle.rt_model.specs.Laws.{Tests};
ghost use Rattle.rt_model.specs.Commands.{commands as done_by_all};
ghost use Rattle.run_records.specs.Records.{command_of, source_of};
ghost use Rattle.run_state.specs.Anew.{left_of, read_anew};
ghost use Rattle.run_state.specs.Mirror.{state_of};

use crate::state::State;
use rt_cells::{ReactiveContext, Reader, Source};
use rt_values::{List, OutOfMemory};
use run_records::Command;
use std::alloc::Global;
use tree_nodes::Parts;

impl<P: Parts> State<P> {
    /// One command after those that are left. What is left then is a reset and what was read since.
    pub(crate) fn command_after(
        &mut self,
        alloc: Global,
        scope: u64,
        polled: Option<u64>,
        left: Option<(u64, List<Source>)>,
        command: Command<P>,
    ) -> Result<Option<(u64, List<Source>)>, OutOfMemory>
        ensures { (app : Application (types P.Component P.Props P.Value P.Handler P.TaskState P.Effect P.Payload))
            → Tests P.Value app.same_value → IfOk result (λ later. (g : _) →
            done_by_all app (state_of g self.new) scope polled (left_of later)
            ≡ done_by_all app (state_of g self.old) scope polled (left_of left ++ command_of command ∷ [])) }
    {
        match command {
            Command::Reset { context } => self.reset_later(alloc, left, context.0),
            Command::ReadInto { context, source } => {
                self.read_later(alloc, left, context.0, source)
            }
            command => self.command_alone(alloc, scope, polled, left, command),
        }
    }

    /// What is left is done, and then a command.
    fn command_alone(
        &mut self,
        alloc: Global,
        scope: u64,
        polled: Option<u64>,
        left: Option<(u64, List<Source>)>,
        command: Command<P>,
    ) -> Result<Option<(u64, List<Source>)>, OutOfMemory>
        ensures { (app : Application (types P.Component P.Props P.Value P.Handler P.TaskState P.Effect P.Payload))
            → Tests P.Value app.same_value → IfOk result (λ later. (g : _) →
            done_by_all app (state_of g self.new) scope polled (left_of later)
            ≡ done_by_all app (state_of g self.old) scope polled (left_of left ++ command_of command ∷ [])) }
    {
        self.reread(alloc, left)?;
        self.command(alloc, scope, polled, command)?;
        Ok(None)
    }

    /// What is left is done, and a reset is left.
    fn reset_later(
        &mut self,
        alloc: Global,
        left: Option<(u64, List<Source>)>,
        context: u64,
    ) -> Result<Option<(u64, List<Source>)>, OutOfMemory>
        ensures { IfOk result (λ later. (g : _) (app : _) (scope : _) (polled : _) →
            done_by_all app (state_of g self.new) scope polled (left_of later)
            ≡ done_by_all app (state_of g self.old) scope polled
            (left_of left ++ model.Reset context ∷ [])) }
    {
        self.reread(alloc, left)?;
        Ok(Some((context, List::new(alloc))))
    }

    /// One more source is read, which is left where its context was reset.
    fn read_later(
        &mut self,
        alloc: Global,
        left: Option<(u64, List<Source>)>,
        context: u64,
        source: Source,
    ) -> Result<Option<(u64, List<Source>)>, OutOfMemory>
        ensures { IfOk result (λ later. (g : _) (app : _) (scope : _) (polled : _) →
            done_by_all app (state_of g self.new) scope polled (left_of later)
            ≡ done_by_all app (state_of g self.old) scope polled
            (left_of left ++ model.ReadInto context (source_of source) ∷ [])) }
    {
        match left {
            Some((former, sources)) => self.read_on(alloc, former, sources, context, source),
            None => self.read_alone(alloc, context, source),
        }
    }

    /// A source is read, and nothing is left.
    fn read_alone(
        &mut self,
        alloc: Global,
        context: u64,
        source: Source,
    ) -> Result<Option<(u64, List<Source>)>, OutOfMemory>
        ensures { IfOk result (λ later. (g : _) (app : _) (scope : _) (polled : _) →
            done_by_all app (state_of g self.new) scope polled (left_of later)
            ≡ done_by_all app (state_of g self.old) scope polled
            (model.ReadInto context (source_of source) ∷ [])) }
    {
        self.read_into(alloc, context, source)?;
        Ok(None)
    }

    /// One more source is read after a reset, which is left where it is read into the same context.
    fn read_on(
        &mut self,
        alloc: Global,
        former: u64,
        sources: List<Source>,
        context: u64,
        source: Source,
    ) -> Result<Option<(u64, List<Source>)>, OutOfMemory>
        ensures { IfOk result (λ later. (g : _) (app : _) (scope : _) (polled : _) →
            done_by_all app (state_of g self.new) scope polled (left_of later)
            ≡ done_by_all app (state_of g self.old) scope polled
            (read_anew former sources ++ model.ReadInto context (source_of source) ∷ [])) }
    {
        if former == context {
            let mut sources = sources;
            sources.push(source)?;
            return Ok(Some((context, sources)));
        }
        self.read_anew(alloc, former, sources.as_slice())?;
        self.read_alone(alloc, context, source)
    }

    /// What is left is done.
    pub(crate) fn reread(
        &mut self,
        alloc: Global,
        left: Option<(u64, List<Source>)>,
    ) -> Result<(), OutOfMemory>
        ensures { OnOk result ((g : _) (app : _) (scope : _) (polled : _) → state_of g self.new
            ≡ done_by_all app (state_of g self.old) scope polled (left_of left)) }
    {
        match left {
            Some(found) => self.read_anew(alloc, found.0, found.1.as_slice()),
            None => Ok(()),
        }
    }

    /// Gives a reactive context just these sources, in order of reading, where it stands.
    fn read_anew(
        &mut self,
        alloc: Global,
        context: u64,
        sources: &[Source],
    ) -> Result<(), OutOfMemory>
        ensures { OnOk result ((g : _) (app : _) (scope : _) (polled : _) → state_of g self.new
            ≡ done_by_all app (state_of g self.old) scope polled (read_anew context sources.now)) }
    {
        let Some(_target) = ReactiveContext(context).target(&self.cells) else {
            return Ok(());
        };
        self.cells
            .set_reads(alloc, Reader::Context(context), sources)?;
        self.read_order.anew(context, sources);
        Ok(())
    }
}
