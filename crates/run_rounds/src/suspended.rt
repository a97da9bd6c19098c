//! Renders and polls while suspended, which count their own units.

ghost use Rattle.std.specs.Prelude.{◌≡◌, ◌+◌, ℕ, false, nat_eq, None, Some, is_some, IfOk, IfErr};
ghost use Rattle.law_behavior.specs.Doms.{LedTo};
ghost use Rattle.run_outside.specs.Ends.{Ends, Explains, fault_in};
ghost use Rattle.run_outside.specs.Short.{PartBy};
ghost use Rattle.rt_model.specs.Asides.{resting};
ghost use Rattle.rt_model.specs.State.{OutOfTurns};
ghost use Rattle.run_reports.specs.Seen.{limits_of};
ghost use Rattle.run_state.specs.Mirror.{state_of};
ghost use Rattle.run_rounds.specs.Rounds.{BrokeAlone, RestsAt};
ghost use Rattle.run_rounds.specs.Suspended.{PollsOn, RenderBroke, RendersOn, TookSome, UnitsOn, polled_next};

use crate::building::finish;
use author_calls::{App, Calls};
use rt_edits::{NoOpMutations, WriteMutations};
use rt_values::{List, ScopeId};
use run_answers::{polling_rest, rendering_rest, take_resolved};
use run_machine::Machine;
use run_outside::Ended;
use run_reports::Limits;
use run_state::{State, Stop};
use run_turns::sum;
use tree_nodes::Parts;

/// Takes the work that a suspended render may take, and passes over the rest. The boundaries that
/// turned to their children, by height.
pub fn render_suspended<A: App, M: WriteMutations>(
    machine: &mut Machine<A>,
    app: &A,
    calls: &mut Calls,
    limits: Limits,
    sink: &mut M,
) -> Result<List<ScopeId>, Ended>
    // From a machine at rest to which a program's calls have led.
    ensures renders { (props : _) (w : _) → RestsAt w machine.old calls.old →
        LedTo (A.meaning app.now) (limits_of limits) props false w →
        RendersOn (A.meaning app.now) (limits_of limits) w props
        (M.taken sink.old) (M.taken sink.new) result machine.new calls.new }
    // For want of memory, or at its sink.
    ensures breaks { IfErr result (λ ended. (props : _) (w : _) → fault_in ended ≡ None →
        RestsAt w machine.old calls.old →
        LedTo (A.meaning app.now) (limits_of limits) props false w →
        RenderBroke (A.meaning app.now) (limits_of limits) w
        (M.taken sink.old) (M.taken sink.new) (PartBy ended)) }
    ensures took { IfOk result (λ answer. TookSome (M.taken sink.old) (M.taken sink.new)
        (M.faults sink.old) (M.faults sink.new)) }
    ensures err { IfErr result (λ ended. Ends limits 0
        (M.taken sink.old) (M.taken sink.new) (M.faults sink.old) (M.faults sink.new) ended) }
{
    let mut units = 0u64;
    for _unit in 0..u64::MAX {
        rendering_rest(machine.scopes.alloc, &mut machine.scopes.state)?;
        if machine.scopes.state.found().is_none() {
            return Ok(take_resolved(machine.scopes.alloc, &mut machine.scopes.state)?);
        }
        units = counted(units, limits)?;
        one_unit(machine, app, calls, limits, sink)?;
    }
    Err(Ended::Run(Stop::OutOfMemory))
}

/// Polls the tasks that a suspended render may poll, while no scope is seen.
pub fn poll_suspended<A: App>(
    machine: &mut Machine<A>,
    app: &A,
    calls: &mut Calls,
    limits: Limits,
) -> Result<(), Ended>
    // From a machine at rest to which a program's calls have led.
    ensures polls { (props : _) (w : _) → RestsAt w machine.old calls.old →
        LedTo (A.meaning app.now) (limits_of limits) props false w →
        PollsOn (A.meaning app.now) (limits_of limits) w props result machine.new
        calls.new }
    // Nothing is written anywhere.
    ensures err { IfErr result (λ ended. Ends limits 0 None None 0 0 ended) }
{
    let mut units = 0u64;
    for _unit in 0..u64::MAX {
        polling_rest(machine.scopes.alloc, &mut machine.scopes.state)?;
        if !polls(&machine.scopes.state) {
            return Ok(());
        }
        units = counted(units, limits)?;
        let mut nowhere = NoOpMutations;
        one_unit(machine, app, calls, limits, &mut nowhere)?;
    }
    Err(Ended::Run(Stop::OutOfMemory))
}

/// Whether a task may be polled, while no scope is seen.
fn polls<P: Parts>(state: &State<P>) -> bool
    ensures { (g : _) → result ≡ is_some (polled_next (state_of g state.now)) }
{
    match state.first_seen() {
        Some(_scope) => false,
        None => state.found().is_some(),
    }
}

/// One more unit, where so many were not yet done.
fn counted(units: u64, limits: Limits) -> Result<u64, Ended>
    ensures counts { IfOk result (λ more.
        (more ≡ units + 1) × (nat_eq units limits.units ≡ false)) }
    ensures spent { IfErr result (λ ended. (fault : _) → fault_in ended ≡ Some fault →
        (fault ≡ OutOfTurns limits.units) × (units ≡ limits.units)) }
    ensures explains { IfErr result (λ ended.
        (before after : ℕ) → Explains limits before after ended) }
{
    if units == limits.units {
        return Err(Ended::OutOfTurns {
            units: limits.units,
        });
    }
    Ok(sum(units, 1)?)
}

/// The unit that comes next, by itself. No report tells of it.
fn one_unit<A: App, M: WriteMutations>(
    machine: &mut Machine<A>,
    app: &A,
    calls: &mut Calls,
    limits: Limits,
    sink: &mut M,
) -> Result<(), Ended>
    ensures unit { (props : _) (y : _) → RestsAt y machine.old calls.old →
        LedTo (A.meaning app.now) (limits_of limits) props false y →
        UnitsOn (A.meaning app.now) (limits_of limits) y (M.taken sink.old) (M.taken sink.new)
        result machine.new calls.new }
    ensures breaks { IfErr result (λ ended. (props : _) (y : _) → fault_in ended ≡ None →
        RestsAt y machine.old calls.old →
        LedTo (A.meaning app.now) (limits_of limits) props false y →
        BrokeAlone (A.meaning app.now) (limits_of limits) (resting y)
        (M.taken sink.old) (M.taken sink.new) (PartBy ended)) }
    ensures ok { IfOk result (λ done. TookSome (M.taken sink.old) (M.taken sink.new)
        (M.faults sink.old) (M.faults sink.new)) }
    ensures err { IfErr result (λ ended. Ends limits 0
        (M.taken sink.old) (M.taken sink.new) (M.faults sink.old) (M.faults sink.new) ended) }
{
    machine.units = 0;
    machine.default_enabled = true;
    // Something is owed here, so that a turn has something to do.
    let Some(written) = machine.turn(app, calls, limits, sink)? else {
        return Err(Ended::Run(Stop::OutOfMemory));
    };
    let more = finish(machine, app, calls, limits, sink)?;
    let edits = sum(written, more)?;
    let told = machine.report_of(edits);
    if told.log.is_empty() {
        return Err(Ended::Run(Stop::OutOfMemory));
    }
    Ok(())
}
