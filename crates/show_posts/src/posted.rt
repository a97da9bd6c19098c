//! The whole program over a source and an out, with the messages that the source's posters post.
ghost use Rattle.std.specs.Prelude.{◌≡◌, ◌≤◌, Some, None, Err, true, false, length, map, All, IfOk, IfErr};
ghost use Rattle.rt_language.specs.Meaning.{meaning_of, props_of};
ghost use Rattle.run_outside.specs.Sessions.{CameAt, Headlined};
ghost use Rattle.rt_model.specs.Merge.{ValidOverCuts, drained};
ghost use Rattle.run_reports.specs.Seen.{fault_of, limits_of, report_of, usual};
ghost use Rattle.show_posts.specs.Posting as posting;
ghost use Rattle.show_posts.specs.Posting.{HasPosters, Posts, PostsAs, ShowsPosted};
ghost use Rattle.show_words.specs.Ready.{MadeOf};
ghost use Rattle.show_words.specs.declared.reason.Stop.TheVariants as stops;
ghost use Rattle.lang_syntax.specs.Mirror.{source_of};
ghost use Rattle.rt_session.specs.Posted.{TookAll, TookFronts, drains_of, lists_of};

use crate::taking::{put_ended_posted, put_posted};
use lang_minding::sources_keep_memos;
use lang_script::{Script, posts_of};
use lang_syntax::Source as Described;
use lang_views::Props;
use rt_edits::{Mutations, WriteMutations};
use rt_inbox::{Gate, Post};
use rt_session::{Posted, PostedFault, session_posted};
use rt_values::{List, Text};
use run_reports::USUAL;
use show_logs::unknown_word;
use show_print::fault_line;
use show_streams::{Out, Source};
use show_words::{Prepared, Stop, fault_said, prepare, read_application, said};
use std::alloc::Global;
use std::sync::Wait;
use std::thread::Threads;

/// Whether the words are the one for a run that takes what the source's posters post.
pub fn asks_for_posters(words: &[Text]) -> bool
    ensures asks { result ≡ posting.asks_for_posters words.now }
{
    match words {
        [word] => word.as_str() == "--posters",
        _ => false,
    }
}

/// What a source without a list of posts lacks; None where there is no memory to say it.
fn no_posts(alloc: Global) -> Option<String> {
    match String::from_str(alloc, "posts: wanted at least one list, found none") {
        Ok(line) => Some(line),
        Err(_) => None,
    }
}

/// A posted session of a script. What holds of it is said of each source that the script is made of.
fn post_script<R: Threads + Wait + Sync, G: Gate, M: WriteMutations>(
    rt: &R,
    alloc: Global,
    script: Script,
    props: Props,
    posts: List<List<Post>>,
    gate: &G,
    sink: &mut M,
) -> Result<Posted, PostedFault>
    requires some { 1 ≤ length posts }
    requires few { length posts ≤ 1000 }
    requires short { All (λ list. length list ≤ 1000000) posts }
    ensures headline { (said : _) (inputs : _) → MadeOf said script props inputs →
        IfOk result (λ posted. Headlined (meaning_of said) (props_of said)
        (drained (drains_of posted.drains)) (limits_of usual)
        (M.taken sink.old) (M.taken sink.new) (map report_of posted.reports)) }
    ensures took_all { IfOk result (λ posted.
        TookAll posts usual.drain posted.drains posted.inbox) }
    ensures came_to { (said : _) (inputs : _) → MadeOf said script props inputs →
        IfErr result (λ refused. (fault : _) → fault_of refused.fault ≡ Some fault →
        CameAt (meaning_of said) (props_of said)
        (drained (drains_of refused.drains)) (limits_of usual)
        (M.taken sink.old) (M.taken sink.new) (map report_of refused.reports) fault) }
    ensures took_fronts { IfErr result (λ refused.
        TookFronts posts usual.drain refused.drains refused.fault) }
    ensures completes { (said : _) (inputs : _) → MadeOf said script props inputs →
        ValidOverCuts (meaning_of said) (props_of said) (lists_of posts) (limits_of usual) →
        IfErr result (λ refused. fault_of refused.fault ≡ None) }
{
    session_posted(rt, alloc, script, props, posts, gate, sink, USUAL)
}

/// Runs an application with its posters and prints what became of it; of a fault `line` says more.
fn run<R: Threads + Wait + Sync, O: Out, G: Gate>(
    rt: &R,
    alloc: Global,
    described: Described,
    out: &mut O,
    gate: &G,
    line: &mut Option<String>,
) -> Result<(), Stop>
    requires posters { HasPosters (source_of described) }
    ensures posts { PostsAs (source_of described) (O.puts out.old) (O.puts out.new)
        (O.faults out.old) (O.faults out.new) result }
{
    sources_keep_memos();
    let posts = posts_of(alloc, described.posts.as_slice())?;
    let Prepared {
        script,
        props,
        inputs: _,
    } = prepare(alloc, described)?;
    let mut sink = Mutations::default_list(alloc);
    match post_script(rt, alloc, script, props, posts, gate, &mut sink) {
        Ok(
            Posted {
                drains,
                reports,
                inbox: _,
            },
        ) => {
            put_posted(
                alloc,
                sink.edits(),
                reports.as_slice(),
                drains.as_slice(),
                out,
            )?;
            Ok(())
        }
        Err(
            PostedFault {
                fault,
                drains,
                reports,
            },
        ) => {
            *line = said(fault_said(alloc, fault));
            let Some(last) = fault_line(alloc, fault)? else {
                return Err(Stop::OutOfMemory);
            };
            put_ended_posted(
                alloc,
                sink.edits(),
                reports.as_slice(),
                drains.as_slice(),
                last.as_slice(),
                out,
            )?;
            Err(Stop::Fault)
        }
    }
}

/// What the one word asks for is done.
fn shown<R: Threads + Wait + Sync, S: Source, O: Out, G: Gate>(
    rt: &R,
    alloc: Global,
    words: &[Text],
    source: &mut S,
    out: &mut O,
    gate: &G,
    line: &mut Option<String>,
) -> Result<(), Stop>
    ensures unasked { posting.asks_for_posters words.now ≡ false →
        (result ≡ Err stops.Words) × (O.puts out.new ≡ O.puts out.old)
        × (S.left source.new ≡ S.left source.old) × (S.faults source.new ≡ S.faults source.old) }
    ensures posts { posting.asks_for_posters words.now ≡ true →
        Posts (S.left source.old) (S.left source.new) (O.puts out.old) (O.puts out.new)
        (S.faults source.old) (S.faults source.new) (O.faults out.old) (O.faults out.new) result }
{
    if !asks_for_posters(words) {
        *line = said(unknown_word(alloc, words));
        return Err(Stop::Words);
    }
    let described = read_application(alloc, source, line)?;
    if described.posts.is_empty() {
        *line = no_posts(alloc);
        return Err(Stop::Form);
    }
    run(rt, alloc, described, out, gate, line)
}

/// Runs the application that a source describes, while threads post what the source's posters post,
/// and writes its edits, its reports, and the messages that were taken. It serves the one word
/// `--posters`. It may wait, and a gate may hold it for ever. The answer is the status.
pub fn show_posted<R: Threads + Wait + Sync, S: Source, O: Out, G: Gate>(
    rt: &R,
    alloc: Global,
    words: &[Text],
    source: &mut S,
    out: &mut O,
    gate: &G,
) -> u8
    ensures shows { ShowsPosted words.now (S.left source.old) (S.left source.new)
        (O.puts out.old) (O.puts out.new)
        (S.faults source.old) (S.faults source.new) (O.faults out.old) (O.faults out.new) result }
{
    let mut line = None;
    show_posted_and_say(rt, alloc, words, source, out, gate, &mut line)
}

/// `show_posted`, where `line` may say more of status 2, 3 or 4.
pub fn show_posted_and_say<R: Threads + Wait + Sync, S: Source, O: Out, G: Gate>(
    rt: &R,
    alloc: Global,
    words: &[Text],
    source: &mut S,
    out: &mut O,
    gate: &G,
    line: &mut Option<String>,
) -> u8
    ensures shows { ShowsPosted words.now (S.left source.old) (S.left source.new)
        (O.puts out.old) (O.puts out.new)
        (S.faults source.old) (S.faults source.new) (O.faults out.old) (O.faults out.new) result }
{
    match shown(rt, alloc, words, source, out, gate, line) {
        Ok(()) => 0,
        Err(stop) => stop.status(),
    }
}
