//! A source served as a page in pieces: its page, and then what each of its wakes turns.
ghost use Rattle.std.specs.Prelude.{◌≡◌, ◌≤◌, Err, false, map, option_map, true, IfErr, IfOk};
ghost use Rattle.lang_syntax.specs.Mirror.{source_of};
ghost use Rattle.rt_language.specs.Meaning.{meaning_of, props_of};
ghost use Rattle.run_reports.specs.Seen.{input_of, limits_of, usual};
ghost use Rattle.rt_served.specs.Faults.{CausedBy};
ghost use Rattle.rt_served.specs.Serving.{ComesTo, IsUnspelt, ServesAll, ServesPart};
ghost use Rattle.show_html.specs.Paging as paging;
ghost use Rattle.show_html.specs.Paging.{Pages, PagesAs, ShowsPaged, wake_in, wakes_in};
ghost use Rattle.show_words.specs.Ready.{MadeOf};
ghost use Rattle.show_words.specs.declared.reason.Stop.TheVariants as stops;

use lang_script::Script;
use lang_syntax::Source as Described;
use lang_views::Props;
use rt_served::{ServeFault, serve};
use rt_values::{List, OutOfMemory, Task, Text};
use run_reports::{Input, USUAL};
use show_logs::unknown_word;
use show_print::fault_line;
use show_streams::{Out, Source};
use show_words::{Prepared, Stop, fault_said, prepare, read_application, said};
use std::alloc::Global;

/// Whether the words are the one for a page in pieces.
pub fn asks_for_page(words: &[Text]) -> bool
    ensures asks { result ≡ paging.asks_for_page words.now }
{
    match words {
        [word] => word.as_str() == "--html",
        _ => false,
    }
}

/// The task that an input wakes, where it does that.
fn wake_of(input: &Input<Script>) -> Option<Task>
    ensures { option_map (λ task. task.0) result ≡ wake_in (input_of input.now) }
{
    match input {
        Input::Event { .. } => None,
        Input::Wake(task) => Some(*task),
        Input::Write { .. } => None,
        Input::Mark(_scope) => None,
        Input::Drain(_messages) => None,
    }
}

/// The tasks that inputs wake, where they do nothing else.
fn wakes_of(alloc: Global, inputs: &[Input<Script>]) -> Result<Option<List<Task>>, OutOfMemory>
    ensures wakes { IfOk result (λ found. option_map (map (λ task. task.0)) found
        ≡ wakes_in (map input_of inputs.now)) }
{
    let mut wakes = List::new(alloc);
    for input in inputs {
        match wake_of(input) {
            Some(task) => wakes.push(task)?,
            None => return Ok(None),
        }
    }
    Ok(Some(wakes))
}

/// What a source with other inputs lacks; None where there is no memory to say it.
fn no_wakes(alloc: Global) -> Option<String> {
    match String::from_str(alloc, "inputs: wanted wakes alone") {
        Ok(line) => Some(line),
        Err(_) => None,
    }
}

/// A script served. What holds of it is said of each source that the script is made of.
fn serve_script<O: Out>(
    alloc: Global,
    script: Script,
    props: Props,
    wakes: List<Task>,
    out: &mut O,
) -> Result<u64, ServeFault>
    ensures served { (said : _) (inputs : _) → MadeOf said script props inputs →
        IfOk result (λ count. ServesAll (meaning_of said) (limits_of usual) (props_of said)
        (map (λ task. task.0) wakes) (O.puts out.old) (O.puts out.new) count) }
    ensures part { (said : _) (inputs : _) → MadeOf said script props inputs →
        IfErr result (λ fault. ServesPart (meaning_of said) (limits_of usual) (props_of said)
        (map (λ task. task.0) wakes) (O.puts out.old) (O.puts out.new) fault) }
    ensures cause { (said : _) (inputs : _) → MadeOf said script props inputs →
        IfErr result (λ fault. CausedBy usual
        (λ f. ComesTo (meaning_of said) (limits_of usual) (props_of said) (map (λ task. task.0) wakes) f)
        (IsUnspelt (meaning_of said) (limits_of usual) (props_of said) (map (λ task. task.0) wakes))
        (O.faults out.old) (O.faults out.new) fault) }
    ensures counted { O.faults out.old ≤ O.faults out.new }
{
    serve(alloc, script, props, wakes, out, USUAL)
}

/// Serves an application; of a fault `line` says more.
fn run<O: Out>(
    alloc: Global,
    described: Described,
    out: &mut O,
    line: &mut Option<String>,
) -> Result<(), Stop>
    ensures pages { PagesAs (source_of described) (O.puts out.old) (O.puts out.new)
        (O.faults out.old) (O.faults out.new) result }
{
    let Prepared {
        script,
        props,
        inputs,
    } = prepare(alloc, described)?;
    let Some(wakes) = wakes_of(alloc, inputs.as_slice())? else {
        *line = no_wakes(alloc);
        return Err(Stop::Form);
    };
    match serve_script(alloc, script, props, wakes, out) {
        Ok(_count) => Ok(()),
        Err(ServeFault::Run(fault)) => {
            *line = said(fault_said(alloc, fault));
            let Some(last) = fault_line(alloc, fault)? else {
                return Err(Stop::OutOfMemory);
            };
            out.put(last.as_slice())?;
            Err(Stop::Fault)
        }
        Err(ServeFault::OutFault) => Err(Stop::Out),
        // Each name of a source can be spelt.
        Err(ServeFault::BadName) => Err(Stop::OutOfMemory),
        Err(ServeFault::OutOfMemory) => Err(Stop::OutOfMemory),
    }
}

/// What the one word asks for is done.
fn shown<S: Source, O: Out>(
    alloc: Global,
    words: &[Text],
    source: &mut S,
    out: &mut O,
    line: &mut Option<String>,
) -> Result<(), Stop>
    ensures unasked { paging.asks_for_page words.now ≡ false →
        (result ≡ Err stops.Words) × (O.puts out.new ≡ O.puts out.old)
        × (S.left source.new ≡ S.left source.old) × (S.faults source.new ≡ S.faults source.old) }
    ensures pages { paging.asks_for_page words.now ≡ true →
        Pages (S.left source.old) (S.left source.new) (O.puts out.old) (O.puts out.new)
        (S.faults source.old) (S.faults source.new) (O.faults out.old) (O.faults out.new) result }
{
    if !asks_for_page(words) {
        *line = said(unknown_word(alloc, words));
        return Err(Stop::Words);
    }
    let described = read_application(alloc, source, line)?;
    run(alloc, described, out, line)
}

/// Serves the application that a source describes as a page in pieces. It serves the one word
/// `--html`. The answer is the status.
pub fn show_paged<S: Source, O: Out>(
    alloc: Global,
    words: &[Text],
    source: &mut S,
    out: &mut O,
) -> u8
    ensures shows { ShowsPaged words.now (S.left source.old) (S.left source.new)
        (O.puts out.old) (O.puts out.new)
        (S.faults source.old) (S.faults source.new) (O.faults out.old) (O.faults out.new) result }
{
    let mut line = None;
    show_paged_and_say(alloc, words, source, out, &mut line)
}

/// `show_paged`, where `line` may say more of status 2, 3 or 4.
pub fn show_paged_and_say<S: Source, O: Out>(
    alloc: Global,
    words: &[Text],
    source: &mut S,
    out: &mut O,
    line: &mut Option<String>,
) -> u8
    ensures shows { ShowsPaged words.now (S.left source.old) (S.left source.new)
        (O.puts out.old) (O.puts out.new)
        (S.faults source.old) (S.faults source.new) (O.faults out.old) (O.faults out.new) result }
{
    match shown(alloc, words, source, out, line) {
        Ok(()) => 0,
        Err(stop) => stop.status(),
    }
}
