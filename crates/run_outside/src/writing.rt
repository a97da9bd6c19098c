//! Edits, written to the sink of a session.
ghost use Rattle.std.specs.Prelude.{◌≡◌, ◌∷◌, [], None, length, IfOk, IfErr, OnOk, OnErr};
ghost use Rattle.rt_edits.specs.Sinks.{grown};
ghost use Rattle.run_reports.specs.declared.limits.Limits.{Limits};
ghost use Rattle.run_outside.specs.Ends.{Took, Ends, fault_in, WrotePart};

use crate::ended::Ended;
use rt_edits::{Edit, SinkError, WriteMutations};
use run_state::Stop;
use std::alloc::Global;

/// Writes an edit to the sink.
fn write_edit<M: WriteMutations>(alloc: Global, edit: &Edit, sink: &mut M) -> Result<(), Ended>
    ensures ok { IfOk result (λ _. Took (M.taken sink.old) (M.taken sink.new)
        (M.faults sink.old) (M.faults sink.new) 1) }
    ensures told { OnOk result (M.taken sink.new ≡ grown (M.taken sink.old) (edit.now ∷ [])) }
    ensures err { IfErr result (λ ended. (limits : Limits) → Ends limits 0
        (M.taken sink.old) (M.taken sink.new) (M.faults sink.old) (M.faults sink.new) ended) }
    ensures cause { IfErr result (λ ended. fault_in ended ≡ None) }
    ensures left { OnErr result (M.taken sink.new ≡ M.taken sink.old) }
{
    match edit.write_to(alloc, sink) {
        Ok(()) => Ok(()),
        Err(SinkError::Failed) => Err(Ended::Sink),
        Err(SinkError::OutOfMemory) => Err(Ended::Run(Stop::OutOfMemory)),
    }
}

/// Writes edits to the sink. The answer is how many.
pub fn write_edits<M: WriteMutations>(
    alloc: Global,
    edits: &[Edit],
    sink: &mut M,
) -> Result<u64, Ended>
    ensures ok { IfOk result (λ taken. Took (M.taken sink.old) (M.taken sink.new)
        (M.faults sink.old) (M.faults sink.new) taken) }
    ensures told { OnOk result (M.taken sink.new ≡ grown (M.taken sink.old) edits.now) }
    ensures count { IfOk result (λ taken. taken ≡ length edits.now) }
    ensures err { IfErr result (λ ended. (limits : Limits) → Ends limits 0
        (M.taken sink.old) (M.taken sink.new) (M.faults sink.old) (M.faults sink.new) ended) }
    ensures cause { IfErr result (λ ended. fault_in ended ≡ None) }
    ensures part { IfErr result (λ ended.
        WrotePart edits.now (M.taken sink.old) (M.taken sink.new) ended) }
{
    for edit in edits {
        write_edit(alloc, edit, sink)?;
    }
    Ok(edits.len() as u64)
}
