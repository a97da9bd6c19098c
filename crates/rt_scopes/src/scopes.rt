//! The state on which an application is run. Each call takes the application and the count of its
//! calls, and keeps neither.
ghost use Rattle.std.specs.Prelude.{◌≡◌, Some, None, map, IfOk, IfErr, OnOk};
ghost use Rattle.rt_model.specs.Laws.{Tests};
ghost use Rattle.rt_model.specs.OneLog.{types};
ghost use Rattle.rt_model.specs.World.{Application};
ghost use Rattle.rt_model.specs.Commands.{commands as done_by_all};
ghost use Rattle.run_records.specs.Records.{command_of};
ghost use Rattle.run_records.specs.declared.faults.CxFault.{CxFault};
ghost use Rattle.run_state.specs.Mirror.{state_of};
ghost use Rattle.run_state.specs.Starts.{IsEmpty};
ghost use Rattle.rt_scopes.specs.Outcomes.{stop_of};

use author_calls::{App, Calls, TurnParts, no_calls};
use rt_values::{List, OutOfMemory, ScopeId};
use run_records::{Command, CxFault, Firsts};
use run_state::{Cause, State, Stop};
use std::alloc::Global;
use tree_nodes::Parts;

/// All that is kept between two calls of an application.
#[derive(Drop)]
pub struct Scopes<A: App> {
    pub alloc: Global,
    pub state: State<A>,
}

/// What is left of a call once its answer was taken.
#[derive(Drop)]
pub struct Left<P: Parts> {
    pub commands: List<Command<P>>,
    pub next: Firsts,
    pub fault: Option<CxFault>,
}

/// Takes the answer of a call that is no body.
pub(crate) fn apart<P: Parts, T>(parts: TurnParts<P, T>) -> (T, Left<P>)
    ensures answer { result.0 ≡ parts.answer }
    ensures commands { result.1.commands ≡ parts.commands }
    ensures next { result.1.next ≡ parts.next }
    ensures fault { result.1.fault ≡ parts.fault }
{
    let TurnParts {
        answer,
        reads: _,
        commands,
        next,
        fault,
    } = parts;
    let left = Left {
        commands,
        next,
        fault,
    };
    (answer, left)
}

/// What a refusal of a call leads to.
fn stop_of(refusal: CxFault) -> Stop
    ensures { result ≡ stop_of refusal }
{
    match refusal {
        CxFault::OutOfMemory => Stop::OutOfMemory,
        CxFault::IdsExhausted { what } => Stop::Fault(Cause::IdsExhausted { what }),
        CxFault::HookChanged {
            scope,
            index,
            kept,
            asked,
        } => Stop::Fault(Cause::HookChanged {
            scope: scope.0,
            index,
            kept,
            asked,
        }),
    }
}

impl<A: App> Scopes<A> {
    /// No scope yet, and no call. The counters begin at these numbers.
    pub fn new(alloc: Global, firsts: Firsts) -> Result<(Scopes<A>, Calls), OutOfMemory>
        ensures empty { IfOk result (λ made. IsEmpty firsts made.0.state) }
        ensures uncalled { IfOk result (λ made. made.1 ≡ 0) }
    {
        let scopes = Scopes {
            alloc,
            state: State::empty(alloc, firsts),
        };
        Ok((scopes, no_calls()))
    }

    /// Does what a call in a scope asked for, in order.
    pub fn do_commands(
        &mut self,
        scope: ScopeId,
        commands: List<Command<A>>,
    ) -> Result<(), OutOfMemory>
        ensures { (app : Application
            (types A.Component A.Props A.Value A.Handler A.TaskState A.Effect A.Payload))
            → Tests A.Value app.same_value → OnOk result ((g : _) →
            state_of g self.new.state
            ≡ done_by_all app (state_of g self.old.state) scope.0 None (map command_of commands)) }
    {
        self.state.do_commands(self.alloc, scope.0, None, commands)
    }

    /// Takes on the numbers that a call left, and gives its commands where it met no refusal.
    pub(crate) fn after_call(&mut self, left: Left<A>) -> Result<List<Command<A>>, Stop>
        ensures next { self.new.state ≡ record self.old.state { next = left.next } }
        ensures ok { IfOk result (λ commands. (commands ≡ left.commands) × (left.fault ≡ None)) }
        ensures cut { IfErr result (λ stop.
            (refusal : CxFault) × (left.fault ≡ Some refusal) × (stop ≡ stop_of refusal)) }
    {
        let Left {
            commands,
            next,
            fault,
        } = left;
        self.state.next = next;
        match fault {
            Some(refusal) => Err(stop_of(refusal)),
            None => Ok(commands),
        }
    }
}
