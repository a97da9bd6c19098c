//! Sessions of a source, and of the generated application.
ghost use Rattle.std.specs.Prelude.{◌≡◌, ◌≤◌, None, Some, map, IfOk, IfErr};
ghost use Rattle.rt_language.specs.Generated as language;
ghost use Rattle.rt_language.specs.Meaning.{meaning_of, props_of, inputs_of};
ghost use Rattle.run_reports.specs.Seen.{fault_of, input_of, limits_of, report_of, usual};
ghost use Rattle.lang_syntax.specs.Mirror.{source_of};
ghost use Rattle.run_outside.specs.Sessions.{CameAt, Headlined};
ghost use Rattle.show_words.specs.declared.words.Wish.TheVariants as wishes;
ghost use Rattle.show_words.specs.Asked.{alone};
ghost use Rattle.show_words.specs.Kept.{KeepsMemos};
ghost use Rattle.show_words.specs.Ready.{MadeOf};
ghost use Rattle.show_words.specs.Runs.{HasHeadline, Prints};

use lang_script::Script;
use lang_syntax::Source as Described;
use lang_views::Props;
use rt_edits::{NoOpMutations, WriteMutations};
use rt_memo::{Input, Limits, Report, SessionFault, memo_session};
use rt_values::{List, OutOfMemory};
use run_reports::USUAL;
use show_print::{EditLines, fault_line};
use show_streams::Out;
use show_words::{
    Prepared, Stop, fault_said, generated, prepare, put_ended_printed, put_printed, said,
    summary_line,
};
use std::alloc::Global;

/// A session of a script, whose memos and resources are kept. What holds of it is said of each
/// source that the script is made of.
pub(crate) fn run_script<M: WriteMutations>(
    alloc: Global,
    script: Script,
    props: Props,
    inputs: List<Input<Script>>,
    sink: &mut M,
    limits: Limits,
) -> Result<List<Report>, SessionFault>
    ensures headline { (said : _) → MadeOf said script props (map input_of inputs) →
        IfOk result (λ reports. Headlined (meaning_of said) (props_of said) (inputs_of said.inputs)
        (limits_of limits) (M.taken sink.old) (M.taken sink.new) (map report_of reports)) }
    ensures memos { (said : _) → MadeOf said script props (map input_of inputs) →
        IfOk result (λ reports. KeepsMemos limits said (map report_of reports)) }
    ensures came_to { (said : _) → MadeOf said script props (map input_of inputs) →
        IfErr result (λ refused. (fault : _) → fault_of refused.fault ≡ Some fault →
        CameAt (meaning_of said) (props_of said) (inputs_of said.inputs)
        (limits_of limits) (M.taken sink.old) (M.taken sink.new) (map report_of refused.reports) fault) }
{
    memo_session(alloc, script, props, inputs, sink, limits)
}

/// Runs an application and prints what became of it; of a fault `line` says more.
pub fn run<O: Out>(
    alloc: Global,
    described: Described,
    limits: Limits,
    out: &mut O,
    line: &mut Option<String>,
) -> Result<(), Stop>
    ensures prints { Prints (wishes.Run limits) (alone (source_of described)) (O.puts out.old) (O.puts out.new)
        (O.faults out.old) (O.faults out.new) result }
{
    let Prepared {
        script,
        props,
        inputs,
    } = prepare(alloc, described)?;
    let mut sink = EditLines::new(alloc);
    match run_script(alloc, script, props, inputs, &mut sink, limits) {
        Ok(reports) => {
            put_printed(alloc, sink.lines(), reports.as_slice(), out)?;
            Ok(())
        }
        Err(SessionFault { fault, reports }) => {
            *line = said(fault_said(alloc, fault));
            let Some(last) = fault_line(alloc, fault)? else {
                return Err(Stop::OutOfMemory);
            };
            put_ended_printed(
                alloc,
                sink.lines(),
                reports.as_slice(),
                last.as_slice(),
                out,
            )?;
            Err(Stop::Fault)
        }
    }
}

/// The reports of the generated application's run.
fn make(alloc: Global, rows: u64) -> Result<List<Report>, OutOfMemory>
    requires few { rows ≤ 10000 }
    ensures headline { IfOk result (λ reports.
        HasHeadline usual (language.generated rows) None (map report_of reports)) }
    ensures memos { IfOk result (λ reports.
        KeepsMemos usual (language.generated rows) (map report_of reports)) }
{
    let described = generated(alloc, rows)?;
    let Prepared {
        script,
        props,
        inputs,
    } = prepare(alloc, described)?;
    let mut sink = NoOpMutations;
    match run_script(alloc, script, props, inputs, &mut sink, USUAL) {
        Ok(reports) => Ok(reports),
        Err(_ended) => Err(OutOfMemory),
    }
}

/// Runs the generated application of so many rows and prints a summary.
#[tactic(auto, using(crate::proofs::Runs::summed_up))]
pub fn sum_up<O: Out>(alloc: Global, rows: u64, out: &mut O) -> Result<(), Stop>
    requires few { rows ≤ 10000 }
    ensures prints { Prints (wishes.Make rows) (alone (language.generated rows)) (O.puts out.old) (O.puts out.new)
        (O.faults out.old) (O.faults out.new) result }
{
    let reports = make(alloc, rows)?;
    let line = summary_line(alloc, rows, reports.as_slice())?;
    out.put(line.as_bytes())?;
    Ok(())
}
