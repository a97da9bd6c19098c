//! Putting the lines of messages that were taken, each by one call of the out.
ghost use Rattle.std.specs.Prelude.{◌++◌, ◌∷◌, [], map};
ghost use Rattle.rt_language.specs.Lines.{line, taken_text};
ghost use Rattle.tree_edits.specs.Documents.{edit_of};
ghost use Rattle.rt_model.specs.Lists.{joined};
ghost use Rattle.run_reports.specs.Seen.{message_of, report_of};
ghost use Rattle.show_posts.specs.Posting.{drain_lines, posted_text, taken_lines};
ghost use Rattle.show_streams.specs.Writes.{Writes};
ghost use Rattle.rt_session.specs.Posted.{drains_of};

use rt_edits::Edit;
use rt_inbox::Msg;
use rt_values::List;
use run_reports::Report;
use show_print::taken_line;
use show_streams::{Out, OutError};
use show_words::put_run;
use std::alloc::Global;

/// Puts the line of a message of the report with this number.
fn put_message<O: Out>(
    alloc: Global,
    number: u64,
    message: &Msg,
    out: &mut O,
) -> Result<(), OutError>
    ensures writes { Writes (line (taken_text number (message_of message.now)) ∷ [])
        (O.puts out.old) (O.puts out.new) (O.faults out.old) (O.faults out.new) result }
{
    let line = taken_line(alloc, number, message)?;
    out.put(line.as_slice())
}

/// Puts the lines of a drain's messages.
fn put_drain<O: Out>(alloc: Global, number: u64, drain: &[Msg], out: &mut O) -> Result<(), OutError>
    ensures writes { Writes (drain_lines number (map message_of drain.now))
        (O.puts out.old) (O.puts out.new) (O.faults out.old) (O.faults out.new) result }
{
    for message in drain {
        put_message(alloc, number, message, out)?;
    }
    Ok(())
}

/// Puts the lines of the messages of drains. The first drain has report 1.
fn put_drains<O: Out>(alloc: Global, drains: &[List<Msg>], out: &mut O) -> Result<(), OutError>
    ensures writes { Writes (joined (taken_lines 1 (drains_of drains.now)))
        (O.puts out.old) (O.puts out.new) (O.faults out.old) (O.faults out.new) result }
{
    for (at, drain) in drains.iter().enumerate() {
        put_drain(alloc, at as u64 + 1, drain.as_slice(), out)?;
    }
    Ok(())
}

/// Puts the lines of edits, those of reports, and those of messages.
#[tactic(auto, using(show_words::proofs::Puts::writes_first))]
pub fn put_posted<O: Out>(
    alloc: Global,
    edits: &[Edit],
    reports: &[Report],
    drains: &[List<Msg>],
    out: &mut O,
) -> Result<(), OutError>
    ensures writes { Writes (posted_text (map edit_of edits.now) (map report_of reports.now)
        (drains_of drains.now))
        (O.puts out.old) (O.puts out.new) (O.faults out.old) (O.faults out.new) result }
{
    put_run(alloc, edits, reports, out)?;
    put_drains(alloc, drains, out)
}

/// Puts the lines of edits, those of reports, those of messages, and one line more.
pub fn put_ended_posted<O: Out>(
    alloc: Global,
    edits: &[Edit],
    reports: &[Report],
    drains: &[List<Msg>],
    line: &[u8],
    out: &mut O,
) -> Result<(), OutError>
    ensures writes { Writes (posted_text (map edit_of edits.now) (map report_of reports.now)
        (drains_of drains.now) ++ line.now ∷ [])
        (O.puts out.old) (O.puts out.new) (O.faults out.old) (O.faults out.new) result }
{
    put_posted(alloc, edits, reports, drains, out)?;
    out.put(line)
}
