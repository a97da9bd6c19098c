//! What a call has made and provided itself, as its commands tell.
ghost use Rattle.std.specs.Prelude.{◌≡◌, ℕ, List, [], IfOk};
ghost use Rattle.std.specs.Option.{option_copied};
ghost use Rattle.rt_model.specs.Lists.{at, first_of};
ghost use Rattle.rt_model.specs.Program.{own_context};
ghost use Rattle.run_records.specs.Records.{gathered};
ghost use Rattle.author_calls.specs.Calls.{and_cell, and_provided};

use rt_values::{OutOfMemory, Part, ScopeId};
use run_records::Command;
use std::alloc::Global;
use tree_nodes::Parts;

/// A copy of a value, where there is one.
pub(crate) fn copied<V: Part>(alloc: Global, value: Option<&V>) -> Result<Option<V>, OutOfMemory>
    ensures { IfOk result (λ copy. copy ≡ option_copied value.entry) }
{
    match value {
        Some(value) => Ok(Some(value.copy(alloc)?)),
        None => Ok(None),
    }
}

/// The first value of a cell, where the command makes that cell.
#[tactic(auto, using(crate::proofs::Piled::making))]
fn first_value<P: Parts>(command: &Command<P>, cell: u64) -> Option<&P::Value>
    ensures { (before : List (ℕ × P.Value)) → at (and_cell command.now before) cell
        ≡ first_of (option_copied result) (at before cell) }
{
    match command {
        Command::NewCell { cell: made, value } if *made == cell => Some(value),
        _ => None,
    }
}

/// The first value of a cell that a call made.
#[tactic(auto, using(crate::proofs::Piled::making))]
pub(crate) fn made_cell<P: Parts>(commands: &[Command<P>], cell: u64) -> Option<&P::Value>
    ensures { option_copied result ≡ at (gathered and_cell commands.now []) cell }
{
    let mut made = None;
    for command in commands {
        made = first_value(command, cell).or(made);
    }
    made
}

/// The value of a kind, where the command of a caller provides it at that scope.
#[tactic(auto, using(crate::proofs::Piled::making))]
fn provided_value<P: Parts>(
    command: &Command<P>,
    caller: ScopeId,
    scope: ScopeId,
    kind: u32,
) -> Option<&P::Value>
    ensures { (before : List (ℕ × ℕ × P.Value)) →
        own_context (and_provided caller.0 command.now before) kind scope.0
        ≡ first_of (option_copied result) (own_context before kind scope.0) }
{
    match command {
        Command::Provide {
            root,
            kind: provided,
            value,
        } => {
            let at = if *root { ScopeId::ROOT } else { caller };
            if *provided == kind && at == scope {
                Some(value)
            } else {
                None
            }
        }
        _ => None,
    }
}

/// What a call of the caller has provided of a kind at a scope.
#[tactic(auto, using(crate::proofs::Piled::making))]
pub(crate) fn made_context<P: Parts>(
    commands: &[Command<P>],
    caller: ScopeId,
    scope: ScopeId,
    kind: u32,
) -> Option<&P::Value>
    ensures { option_copied result
        ≡ own_context (gathered (and_provided caller.0) commands.now []) kind scope.0 }
{
    let mut made = None;
    for command in commands {
        made = provided_value(command, caller, scope, kind).or(made);
    }
    made
}
