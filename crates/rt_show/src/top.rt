//! The whole program over a source and an out.
ghost use Rattle.rt_show.specs.Statuses.{Comes, ReadsAsked, Shows};

use rt_values::Text;
use show_audits::{judge, read_recorded};
use show_logs::unknown_word;
use show_runs::{draw, run, sum_up};
use show_streams::{Out, Source};
use show_words::{Stop, Wish, read_application, said, wish_of};
use std::alloc::Global;

/// What the words ask for is done.
#[tactic(auto, using(crate::proofs::Coming::comings))]
fn shown<S: Source, O: Out>(
    alloc: Global,
    words: &[Text],
    source: &mut S,
    out: &mut O,
    line: &mut Option<String>,
) -> Result<(), Stop>
    ensures reads { ReadsAsked words.now (S.left source.old) (S.left source.new)
        (S.faults source.old) (S.faults source.new) }
    ensures comes { Comes words.now (S.left source.old) (S.left source.new)
        (O.puts out.old) (O.puts out.new)
        (S.faults source.old) (S.faults source.new) (O.faults out.old) (O.faults out.new) result }
{
    match wish_of(words) {
        None => {
            *line = said(unknown_word(alloc, words));
            Err(Stop::Words)
        }
        Some(Wish::Make(rows)) => sum_up(alloc, rows, out),
        Some(Wish::Audit) => {
            let run = read_recorded(alloc, source, line)?;
            judge(alloc, run, out)
        }
        Some(Wish::Run(limits)) => {
            let described = read_application(alloc, source, line)?;
            run(alloc, described, limits, out, line)
        }
        Some(Wish::Screen(size)) => {
            let described = read_application(alloc, source, line)?;
            draw(alloc, described, size, out, line)
        }
    }
}

/// Runs the application that a source describes, and writes its edits and reports; or the generated
/// application of so many rows, and writes a summary. The answer is the status.
pub fn show<S: Source, O: Out>(alloc: Global, words: &[Text], source: &mut S, out: &mut O) -> u8
    ensures shows { Shows words.now (S.left source.old) (S.left source.new)
        (O.puts out.old) (O.puts out.new)
        (S.faults source.old) (S.faults source.new) (O.faults out.old) (O.faults out.new) result }
{
    let mut line = None;
    show_and_say(alloc, words, source, out, &mut line)
}

/// `show`, where `line` may say more of status 2, 3 or 4: which word isn't known; where the source
/// breaks the form, what was wanted there and what was found; which fault ended the run.
pub fn show_and_say<S: Source, O: Out>(
    alloc: Global,
    words: &[Text],
    source: &mut S,
    out: &mut O,
    line: &mut Option<String>,
) -> u8
    ensures shows { Shows words.now (S.left source.old) (S.left source.new)
        (O.puts out.old) (O.puts out.new)
        (S.faults source.old) (S.faults source.new) (O.faults out.old) (O.faults out.new) result }
{
    match shown(alloc, words, source, out, line) {
        Ok(()) => 0,
        Err(stop) => stop.status(),
    }
}
