//! The program over a source whose first line is an application and each further line an input.
ghost use Rattle.std.specs.Prelude.{◌≡◌, ◌≤◌, Err, None, Some, codes, IfOk, IfErr};
ghost use Rattle.show_answers.specs.Told.{text_form};
ghost use Rattle.show_lines.specs.Held.{unread};
ghost use Rattle.show_lines.specs.Lines.{ReadsLine};
ghost use Rattle.show_objects.specs.Objects.{object_form};
ghost use Rattle.show_stream.specs.Statuses as statuses;
ghost use Rattle.show_stream.specs.Statuses.{Comes, IsReading, LacksLine, OpensFirst, ShowsStreamed, form_asked};
ghost use Rattle.show_stream.specs.UnderWay.{IsUnderWay};
ghost use Rattle.show_streams.specs.Reads.{preceded};
ghost use Rattle.show_streams.specs.Writes.{grown};
ghost use Rattle.show_words.specs.declared.reason.Stop.TheVariants as stops;

use crate::streaming::Streaming;
use rt_values::{List, Text};
use show_lines::LineReader;
use show_logs::{refusal, too_long, unknown_word};
use show_objects::{ObjectLines, Tells};
use show_print::EditLines;
use show_streams::{Out, ReadError, Source};
use show_words::{Stop, said, said_where};
use std::alloc::Global;

/// Whether the words are this one alone.
fn is_word(words: &[Text], name: &str) -> bool
    ensures word { result ≡ statuses.is_word words.now name.now }
{
    match words {
        [word] => word.as_str() == name,
        _ => false,
    }
}

/// Whether the words are the one for an application that is given line by line, and told in lines of
/// text.
fn asks_for_text(words: &[Text]) -> bool
    ensures asks { result ≡ statuses.is_word words.now (codes "--stream") }
{
    is_word(words, "--stream")
}

/// The same, told in objects of JSON.
fn asks_for_objects(words: &[Text]) -> bool
    ensures asks { result ≡ statuses.is_word words.now (codes "--stream-json") }
{
    is_word(words, "--stream-json")
}

/// Whether the words are one for an application that is given line by line.
pub fn asks_for_stream(words: &[Text]) -> bool
    ensures asks { result ≡ statuses.asks_for_stream words.now }
{
    asks_for_text(words) || asks_for_objects(words)
}

/// The next line of a source. None at its end. Where a line is too long, `line` says so.
fn line_of<S: Source>(
    alloc: Global,
    reader: &mut LineReader,
    source: &mut S,
    line: &mut Option<String>,
) -> Result<Option<List<u8>>, Stop>
    ensures line { IfOk result (λ found. ReadsLine found
        (preceded (unread reader.old) (S.left source.old))
        (preceded (unread reader.new) (S.left source.new))) }
    ensures stops { IfErr result (λ stop. LacksLine
        (preceded (unread reader.old) (S.left source.old))
        (S.faults source.old) (S.faults source.new) stop) }
    ensures later { S.faults source.old ≤ S.faults source.new }
{
    match reader.next_line(source) {
        Ok(found) => Ok(found),
        Err(ReadError::Failed) => Err(Stop::Source),
        Err(ReadError::TooLong) => {
            *line = said(too_long(alloc));
            Err(Stop::Form)
        }
        Err(ReadError::OutOfMemory) => Err(Stop::OutOfMemory),
    }
}

/// Opens the application that the first line is.
fn opened<T: Tells, S: Source, O: Out>(
    alloc: Global,
    reader: &mut LineReader,
    source: &mut S,
    out: &mut O,
    line: &mut Option<String>,
) -> Result<Streaming, Stop>
    ensures opens { OpensFirst T.form (preceded (unread reader.old) (S.left source.old))
        (preceded (unread reader.new) (S.left source.new)) (O.puts out.old) (O.puts out.new)
        (S.faults source.old) (S.faults source.new) (O.faults out.old) (O.faults out.new) result }
    ensures later { S.faults source.old ≤ S.faults source.new }
    ensures written { O.faults out.old ≤ O.faults out.new }
{
    match line_of(alloc, reader, source, line)? {
        Some(first) => Streaming::open::<T, O>(alloc, first.as_slice(), out, line),
        None => {
            *line = said_where(refusal(alloc, &[]));
            Err(Stop::Form)
        }
    }
}

/// Answers each further line, up to the end of the source.
fn go_on<T: Tells, S: Source, O: Out, E: Eprint>(
    alloc: Global,
    streaming: &mut Streaming,
    reader: &mut LineReader,
    source: &mut S,
    out: &mut O,
    errors: &E,
    line: &mut Option<String>,
) -> Result<(), Stop>
    ensures goes_on { (start : _) (at : _) (first : _) (lines : _) (text : _) →
        IsReading first lines start (preceded (unread reader.old) (S.left source.old)) →
        IsUnderWay T.form first lines text streaming.old → O.puts out.old ≡ grown at text →
        Comes T.form start at (O.puts out.new) (S.faults source.old) (S.faults source.new)
        (O.faults out.old) (O.faults out.new) result }
{
    for _ in 0..u64::MAX {
        streaming.holds();
        let Some(bytes) = line_of(alloc, reader, source, line)? else {
            return Ok(());
        };
        streaming.answer::<T, O, E>(alloc, bytes.as_slice(), out, errors, line)?;
    }
    streaming.holds();
    Err(Stop::OutOfMemory)
}

/// Answers each line, up to the end of the source.
fn streamed<T: Tells, S: Source, O: Out, E: Eprint>(
    alloc: Global,
    source: &mut S,
    out: &mut O,
    errors: &E,
    line: &mut Option<String>,
) -> Result<(), Stop>
    ensures comes { Comes T.form (S.left source.old) (O.puts out.old) (O.puts out.new)
        (S.faults source.old) (S.faults source.new) (O.faults out.old) (O.faults out.new) result }
{
    let mut reader = LineReader::new(alloc);
    let mut streaming = opened::<T, S, O>(alloc, &mut reader, source, out, line)?;
    go_on::<T, S, O, E>(
        alloc,
        &mut streaming,
        &mut reader,
        source,
        out,
        errors,
        line,
    )
}

/// Answers each line in lines of text.
fn in_text<S: Source, O: Out, E: Eprint>(
    alloc: Global,
    source: &mut S,
    out: &mut O,
    errors: &E,
    line: &mut Option<String>,
) -> Result<(), Stop>
    ensures comes { Comes text_form (S.left source.old) (O.puts out.old) (O.puts out.new)
        (S.faults source.old) (S.faults source.new) (O.faults out.old) (O.faults out.new) result }
{
    streamed::<EditLines, S, O, E>(alloc, source, out, errors, line)
}

/// Answers each line in objects of JSON.
fn in_objects<S: Source, O: Out, E: Eprint>(
    alloc: Global,
    source: &mut S,
    out: &mut O,
    errors: &E,
    line: &mut Option<String>,
) -> Result<(), Stop>
    ensures comes { Comes object_form (S.left source.old) (O.puts out.old) (O.puts out.new)
        (S.faults source.old) (S.faults source.new) (O.faults out.old) (O.faults out.new) result }
{
    streamed::<ObjectLines, S, O, E>(alloc, source, out, errors, line)
}

/// What the one word asks for is done.
fn shown<S: Source, O: Out, E: Eprint>(
    alloc: Global,
    words: &[Text],
    source: &mut S,
    out: &mut O,
    errors: &E,
    line: &mut Option<String>,
) -> Result<(), Stop>
    ensures unasked { form_asked words.now ≡ None →
        (result ≡ Err stops.Words) × (O.puts out.new ≡ O.puts out.old)
        × (S.left source.new ≡ S.left source.old) × (S.faults source.new ≡ S.faults source.old) }
    ensures comes { (form : _) → form_asked words.now ≡ Some form →
        Comes form (S.left source.old) (O.puts out.old) (O.puts out.new)
        (S.faults source.old) (S.faults source.new) (O.faults out.old) (O.faults out.new) result }
{
    if asks_for_text(words) {
        return in_text(alloc, source, out, errors, line);
    }
    if asks_for_objects(words) {
        return in_objects(alloc, source, out, errors, line);
    }
    *line = said(unknown_word(alloc, words));
    Err(Stop::Words)
}

/// Runs the application that the first line of a source is, and answers each further line before the
/// next one is read. It serves the one word `--stream`, or `--stream-json`, where all is told in
/// objects of JSON; `line` may say more of status 2, 3 or 4, and `errors` is told of each line that is
/// no input why. The answer is the status.
pub fn show_streamed<S: Source, O: Out, E: Eprint>(
    alloc: Global,
    words: &[Text],
    source: &mut S,
    out: &mut O,
    errors: &E,
    line: &mut Option<String>,
) -> u8
    ensures shows { ShowsStreamed words.now (S.left source.old) (S.left source.new)
        (O.puts out.old) (O.puts out.new)
        (S.faults source.old) (S.faults source.new) (O.faults out.old) (O.faults out.new) result }
{
    match shown(alloc, words, source, out, errors, line) {
        Ok(()) => 0,
        Err(stop) => stop.status(),
    }
}
