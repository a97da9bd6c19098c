//! The application that a source describes, and what is run of it.
ghost use Rattle.std.specs.Prelude.{map, IfOk, IfErr};
ghost use Rattle.run_reports.specs.Seen.{input_of};
ghost use Rattle.lang_syntax.specs.Mirror.{source_of};
ghost use Rattle.show_words.specs.Ready.{MadeOf};
ghost use Rattle.show_streams.specs.Reads.{IsWhole};
ghost use Rattle.show_words.specs.Runs.{DescribedBy, Reads, ReadsAny};

use crate::reason::Stop;
use lang_script::{Script, inputs_of};
use lang_sources::read_source;
use lang_syntax::Source as Described;
use lang_views::Props;
use rt_values::{List, OutOfMemory};
use run_reports::Input;
use show_logs::{refusal, too_long};
use show_streams::{ReadError, Source, read_all};
use std::alloc::Global;

/// Where bytes break the form, and what was wanted there; None where there is no memory to say it.
fn said_of(alloc: Global, bytes: &[u8]) -> Option<String> {
    said_where(refusal(alloc, bytes))
}

/// A line that may be said beside a status; None where there is no memory for it.
pub fn said_where(line: Result<Option<String>, OutOfMemory>) -> Option<String> {
    match line {
        Ok(line) => line,
        Err(OutOfMemory) => None,
    }
}

/// A line that is said beside a status; None where there is no memory for it.
pub fn said(line: Result<String, OutOfMemory>) -> Option<String> {
    match line {
        Ok(line) => Some(line),
        Err(OutOfMemory) => None,
    }
}

/// All bytes of a source. Where there are too many, `line` says so.
pub fn bytes_of<S: Source>(
    alloc: Global,
    source: &mut S,
    line: &mut Option<String>,
) -> Result<List<u8>, Stop>
    ensures whole { IfOk result (λ bytes. IsWhole bytes (S.left source.old) (S.left source.new)) }
    ensures reads { IfErr result (λ stop. ReadsAny (S.left source.old) (S.left source.new)
        (S.faults source.old) (S.faults source.new) stop) }
{
    match read_all(alloc, source) {
        Ok(bytes) => Ok(bytes),
        Err(ReadError::Failed) => Err(Stop::Source),
        Err(ReadError::TooLong) => {
            *line = said(too_long(alloc));
            Err(Stop::Form)
        }
        Err(ReadError::OutOfMemory) => Err(Stop::OutOfMemory),
    }
}

/// The application that a source describes. Where it is in another form, `line` says why.
pub fn read_application<S: Source>(
    alloc: Global,
    source: &mut S,
    line: &mut Option<String>,
) -> Result<Described, Stop>
    ensures described { IfOk result (λ described.
        DescribedBy (source_of described) (S.left source.old) (S.left source.new)) }
    ensures reads { IfErr result (λ stop. Reads (S.left source.old) (S.left source.new)
        (S.faults source.old) (S.faults source.new) stop) }
{
    let bytes = bytes_of(alloc, source, line)?;
    match read_source(alloc, bytes.as_slice()) {
        Ok(Some(described)) => Ok(described),
        Ok(None) => {
            *line = said_of(alloc, bytes.as_slice());
            Err(Stop::Form)
        }
        Err(OutOfMemory) => Err(Stop::OutOfMemory),
    }
}

/// An application that is ready to run.
pub struct Prepared {
    pub script: Script,
    pub props: Props,
    pub inputs: List<Input<Script>>,
}

/// The application of a source, with the props of its root and its inputs.
#[tactic(auto, using(crate::proofs::Preparing::made_of))]
pub fn prepare(alloc: Global, described: Described) -> Result<Prepared, OutOfMemory>
    ensures made { IfOk result (λ prepared. MadeOf (source_of described)
        prepared.script prepared.props (map input_of prepared.inputs)) }
{
    let inputs = inputs_of(alloc, described.inputs.as_slice())?;
    let script = Script::new(alloc, described)?;
    let props = script.props(alloc)?;
    Ok(Prepared {
        script,
        props,
        inputs,
    })
}
