//! The lines of messages that posters posted and a drain took.
ghost use Rattle.std.specs.Prelude.{◌≡◌, ◌++◌, IfOk, OnOk};
ghost use Rattle.rt_language.specs.Lines as language;
ghost use Rattle.rt_language.specs.Lines.{post_text, taken_text};
ghost use Rattle.run_reports.specs.Seen.{post_of, message_of};

use crate::line::Line;
use crate::reports::put_word;
use rt_inbox::{Msg, Post};
use rt_values::{List, OutOfMemory};
use std::alloc::Global;

/// The line of a message that the drain of the report with this number took.
pub fn taken_line(alloc: Global, report: u64, message: &Msg) -> Result<List<u8>, OutOfMemory>
    ensures line { IfOk result (λ line. line
        ≡ language.line (taken_text report (message_of message.now))) }
{
    let mut line = Line::with_room(alloc)?;
    put_word(&mut line, "taken ", report)?;
    put_word(&mut line, " ", message.poster)?;
    put_word(&mut line, ":", message.seq)?;
    line.byte(b' ')?;
    put_post(&mut line, message.what)?;
    line.end()
}

/// Appends what a message asks for.
fn put_post(line: &mut Line, post: Post) -> Result<(), OutOfMemory>
    ensures post { OnOk result (line.new ≡ line.old ++ post_text (post_of post)) }
{
    match post {
        Post::Mark(scope) => put_word(line, "mark:", scope.0),
        Post::Wake(task) => put_word(line, "wake:", task.0),
        Post::AllDirty => line.word("all"),
    }
}
