//! The verdict on the recorded run that a source describes.
ghost use Rattle.std.specs.Prelude.{◌≡◌, ◌++◌, string_bytes, IfOk, IfErr, OnOk};
ghost use Rattle.rt_audit.specs.Judging.{verdict_of};
ghost use Rattle.rt_language.specs.Lines as language;
ghost use Rattle.show_words.specs.Asked.{asked_of, RecordsNone};
ghost use Rattle.show_words.specs.Judged.{verdict_text, verdict_on, RecordedBy};
ghost use Rattle.show_words.specs.Runs.{ReadsFor, Prints};
ghost use Rattle.show_words.specs.declared.words.Wish.TheVariants as wishes;

use rt_audit::{Verdict, audit};
use rt_values::{OutOfMemory, Text};
use show_logs::{Run, read_run, refusal_of_run};
use show_streams::{Out, Source};
use show_words::{Prepared, Stop, bytes_of, prepare, said_where};
use std::alloc::{AllocError, Global};

/// The recorded run that a source describes. Where it is in another form, `line` says why.
pub fn read_recorded<S: Source>(
    alloc: Global,
    source: &mut S,
    line: &mut Option<String>,
) -> Result<Run, Stop>
    ensures recorded { IfOk result (λ run.
        RecordedBy (asked_of run) (S.left source.old) (S.left source.new)) }
    ensures reads { IfErr result (λ stop. ReadsFor RecordsNone (S.left source.old) (S.left source.new)
        (S.faults source.old) (S.faults source.new) stop) }
{
    let bytes = bytes_of(alloc, source, line)?;
    match read_run(alloc, bytes.as_slice()) {
        Ok(Some(run)) => Ok(run),
        Ok(None) => {
            *line = said_where(refusal_of_run(alloc, bytes.as_slice()));
            Err(Stop::Form)
        }
        Err(OutOfMemory) => Err(Stop::OutOfMemory),
    }
}

/// The verdict on a recorded run.
fn judged(alloc: Global, run: Run) -> Result<Verdict, OutOfMemory>
    ensures verdict { IfOk result (λ found. verdict_of found ≡ verdict_on (asked_of run)) }
{
    let Run { source, log } = run;
    let Prepared {
        script,
        props,
        inputs,
    } = prepare(alloc, source)?;
    audit(alloc, &script, props, inputs, log.as_slice())
}

/// Appends the words of a verdict.
fn put_verdict(line: &mut String, verdict: Verdict) -> Result<(), AllocError>
    ensures verdict { OnOk result (string_bytes line.new
        ≡ string_bytes line.old ++ verdict_text (verdict_of verdict)) }
{
    match verdict {
        Verdict::Accepted => line.push_str("accepted"),
        Verdict::Refused { report, entry } => {
            line.push_str("refused ")?;
            line.write(report)?;
            line.push_str(" ")?;
            line.write(entry)
        }
    }
}

/// The line of a verdict, with the newline that ends it.
fn verdict_line(alloc: Global, verdict: Verdict) -> Result<Text, OutOfMemory>
    ensures line { IfOk result (λ line. line ≡ language.line (verdict_text (verdict_of verdict))) }
{
    let mut line = String::new(alloc);
    put_verdict(&mut line, verdict)?;
    line.push_str("\n")?;
    Ok(Text::from_string(line))
}

/// Writes the verdict on a recorded run.
#[tactic(auto, using(crate::proofs::Judged::written))]
pub fn judge<O: Out>(alloc: Global, run: Run, out: &mut O) -> Result<(), Stop>
    ensures prints { Prints wishes.Audit (asked_of run) (O.puts out.old) (O.puts out.new)
        (O.faults out.old) (O.faults out.new) result }
{
    let verdict = judged(alloc, run)?;
    let line = verdict_line(alloc, verdict)?;
    out.put(line.as_bytes())?;
    Ok(())
}
