//! The build alone, and the end of what is at work.
ghost use Rattle.std.specs.Prelude.{◌≡◌, ◌<◌, true, false, [], None, IfOk, IfErr};
ghost use Rattle.rt_model.specs.Replay.{first_state, provided_all};
ghost use Rattle.rt_model.specs.World.{Firsts};
ghost use Rattle.run_outside.specs.Ends.{Ends, Took, fault_in};
ghost use Rattle.run_machine.specs.Machines.{IsFresh};
ghost use Rattle.run_machine.specs.Stands.{BrokeAt, StandsAt, counting};
ghost use Rattle.run_rounds.specs.Going.{FinishesAs};
ghost use Rattle.run_reports.specs.Counted.{CountsLog};
ghost use Rattle.run_reports.specs.Seen.{limits_of};
ghost use Rattle.run_rounds.specs.Rounds.{BuildCut, BuiltOn};
ghost use Rattle.run_state.specs.Mirror.{at_first, state_of};

use author_calls::{App, Calls};
use rt_edits::WriteMutations;
use rt_scopes::Known;
use run_machine::Machine;
use run_outside::Ended;
use run_reports::{Entry, Limits, Report};
use run_state::Stop;
use run_turns::sum;

/// Builds, and ends with the build: nothing that is owed then is taken. Its report.
pub fn build_report<A: App, M: WriteMutations>(
    machine: &mut Machine<A>,
    app: &A,
    calls: &mut Calls,
    limits: Limits,
    sink: &mut M,
) -> Result<Report, Ended>
    // From whatever numbers on, and whatever the root provides; elements have no number below 1.
    ensures builds { IfOk result (λ report. (props : _) (firsts : Firsts) (provided : _) →
        0 < firsts.elements → IsFresh machine.old →
        state_of at_first machine.old.scopes.state ≡ provided_all (A.meaning app.now)
        (first_state (A.meaning app.now).root props firsts) provided →
        calls.old ≡ 0 →
        BuiltOn (A.meaning app.now) (limits_of limits) props firsts provided
        (M.taken sink.old) (M.taken sink.new) report machine.new calls.new) }
    ensures cut { IfErr result (λ ended. (props : _) (firsts : Firsts) (provided : _) →
        0 < firsts.elements → IsFresh machine.old →
        state_of at_first machine.old.scopes.state ≡ provided_all (A.meaning app.now)
        (first_state (A.meaning app.now).root props firsts) provided →
        BuildCut (A.meaning app.now) (limits_of limits) props firsts provided
        (M.taken sink.old) (M.taken sink.new) ended) }
    ensures counts { IfOk result (λ report. CountsLog report) }
    ensures took { IfOk result (λ report. Took (M.taken sink.old) (M.taken sink.new)
        (M.faults sink.old) (M.faults sink.new) report.edits) }
    ensures err { IfErr result (λ ended. Ends limits 0
        (M.taken sink.old) (M.taken sink.new) (M.faults sink.old) (M.faults sink.new) ended) }
{
    machine.build(app, calls)?;
    let edits = finish(machine, app, calls, limits, sink)?;
    Ok(machine.report(Entry::Build, edits)?)
}

/// Goes on with the build or the unit at work until it has ended. The answer is how many edits were
/// written.
pub(crate) fn finish<A: App, M: WriteMutations>(
    machine: &mut Machine<A>,
    app: &A,
    calls: &mut Calls,
    limits: Limits,
    sink: &mut M,
) -> Result<u64, Ended>
    ensures finishes { (r : _) (edits : _) →
        StandsAt (A.meaning app.now) (limits_of limits) (counting r calls.old) edits machine.old →
        FinishesAs (A.meaning app.now) (limits_of limits) (counting r calls.new) edits
        (M.taken sink.old) (M.taken sink.new) machine.old machine.new result }
    // For want of memory, or at its sink: no unit was begun.
    ensures breaks { IfErr result (λ ended. (r : _) (edits : _) → fault_in ended ≡ None →
        StandsAt (A.meaning app.now) (limits_of limits) (counting r calls.old) edits machine.old →
        BrokeAt (A.meaning app.now) (limits_of limits) (counting r calls.new) edits
        (M.taken sink.old) (M.taken sink.new) ended machine.old) }
    ensures ok { IfOk result (λ taken. Took (M.taken sink.old) (M.taken sink.new)
        (M.faults sink.old) (M.faults sink.new) taken) }
    ensures err { IfErr result (λ ended. Ends limits 0
        (M.taken sink.old) (M.taken sink.new) (M.faults sink.old) (M.faults sink.new) ended) }
{
    let mut edits = 0u64;
    let mut known = Known::new(machine.scopes.alloc);
    for _turn in 0..u64::MAX {
        if rests(machine) {
            return Ok(edits);
        }
        // Something is at work here, so that a turn has something to do.
        let Some(written) = machine.turn_knowing(app, calls, limits, sink, &mut known)? else {
            return Err(Ended::Run(Stop::OutOfMemory));
        };
        edits = sum(edits, written)?;
    }
    Err(Ended::Run(Stop::OutOfMemory))
}

/// Whether neither the build nor a unit is at work.
pub(crate) fn rests<A: App>(machine: &Machine<A>) -> bool
    ensures rests { result ≡ true → (machine.now.work ≡ []) × (machine.now.first ≡ None) }
    ensures works { result ≡ false → machine.now.work ≡ [] → machine.now.first ≡ None → ⊥ }
{
    machine.work.is_empty() && machine.first.is_none()
}
