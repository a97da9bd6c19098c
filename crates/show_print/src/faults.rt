//! The lines of faults.
ghost use Rattle.std.specs.Prelude.{◌≡◌, ◌++◌, IfOk, OnOk, Some, option_map};
ghost use Rattle.rt_language.specs.Lines.{counter_text, fault_text};
ghost use Rattle.rt_language.specs.Lines as language;
ghost use Rattle.run_records.specs.Records.{counter_of};
ghost use Rattle.run_reports.specs.Seen.{fault_of};

use crate::line::Line;
use crate::reports::put_word;
use rt_values::{List, OutOfMemory};
use run_records::Counter;
use run_reports::Fault;
use std::alloc::Global;

/// The line of a fault. Want of memory and a failed sink have none.
pub fn fault_line(alloc: Global, fault: Fault) -> Result<Option<List<u8>>, OutOfMemory>
    ensures line { IfOk result (λ line. line
        ≡ option_map (λ fault. language.line (fault_text fault)) (fault_of fault)) }
{
    let mut line = Line::new(alloc);
    match fault {
        Fault::OutOfMemory | Fault::SinkFault => return Ok(None),
        Fault::OutOfTurns { units } => {
            put_word(&mut line, "fault 3 OutOfTurns ", units)?;
        }
        Fault::TooDeep { height } => {
            put_word(&mut line, "fault 4 TooDeep ", height)?;
        }
        Fault::IdsExhausted { what } => {
            line.word("fault 5 IdsExhausted ")?;
            line.word(counter_name(what))?;
        }
        Fault::HookChanged {
            scope,
            index,
            kept,
            asked,
        } => {
            put_word(&mut line, "fault 6 HookChanged ", scope.0)?;
            put_word(&mut line, " ", index)?;
            put_word(&mut line, " ", kept as u64)?;
            put_word(&mut line, " ", asked as u64)?;
        }
        Fault::NoSuchTask { scope, task } => {
            put_word(&mut line, "fault 7 NoSuchTask ", scope.0)?;
            put_word(&mut line, " ", task.0)?;
        }
        Fault::BadNode { scope } => {
            put_word(&mut line, "fault 8 BadNode ", scope.0)?;
        }
    }
    Ok(Some(line.end()?))
}

/// The name of a counter.
fn counter_name(counter: Counter) -> &'static str
    ensures name { result.now ≡ counter_text (counter_of counter) }
{
    match counter {
        Counter::Scopes => "scopes",
        Counter::Tasks => "tasks",
        Counter::Cells => "cells",
        Counter::Contexts => "contexts",
        Counter::Elements => "elements",
        Counter::Errors => "errors",
        Counter::Renders => "renders",
    }
}
