//! The program: reads an application from standard input, runs it, and prints its edits and
//! reports.
#![tactic(auto)]

mod held;
mod stack;

use held::HeldOut;
use rt_inbox::NoGate;
use rt_show::{
    asks_for_page, asks_for_posters, asks_for_stream, show_and_say, show_paged_and_say,
    show_posted_and_say, show_streamed,
};
use rt_values::{List, Text};
use run_reports::USUAL;
use show_streams::{StandardIn, StandardOut, SureSource};
use show_words::{Wish, bytes_of, wish_of};
use stack::{Depths, deepest, depths_of, stack_of};
use std::alloc::{AllocError, Global};
use std::env;
use std::io::{Error, ErrorKind, Read};
use std::process::ExitCode;
use std::rt::Env;
use std::sync::Wait;
use std::thread::{Builder, Threads};

/// The status where memory is wanting, that of a stack too.
const NO_MEMORY: u8 = 7;

/// What a status means, where it isn't 0.
fn meaning(status: u8) -> Option<&'static str> {
    match status {
        0 => None,
        2 => Some(
            "status 2: the words aren't among --units N, --height N, --make N, --screen W H, --audit, --posters, --stream, --stream-json, --html",
        ),
        3 => Some("status 3: the source is too long, or isn't in the form of an application"),
        4 => Some("status 4: the run ended in the fault that was printed last"),
        5 => Some("status 5: standard input couldn't be read to its end"),
        6 => Some("status 6: standard output didn't take all that was printed"),
        _ => Some("status 7: out of memory"),
    }
}

/// The status where the words can't be had: a word that isn't text is none that the program knows.
fn status_of(error: &Error) -> u8 {
    match error.kind() {
        ErrorKind::InvalidData => 2,
        _ => NO_MEMORY,
    }
}

/// The words, without the program's name; or the status that the program ends with.
fn words_given<R: Env + AllocGlobal>(rt: &R) -> Result<Vec<Text>, u8> {
    let words = match env::args(rt) {
        Ok(words) => words,
        Err(error) => return Err(status_of(&error)),
    };
    let mut given = Vec::new(rt.alloc());
    for word in words.skip(1) {
        if given.push(Text::from_string(word)).is_err() {
            return Err(NO_MEMORY);
        }
    }
    Ok(given)
}

/// The whole program without threads, over the bytes of a source and standard output. The answer is
/// the status; of a source that isn't in the form, `refusal` is where and what was wanted there.
fn run<R: Print + AllocGlobal>(
    rt: &R,
    bytes: List<u8>,
    words: &[Text],
    refusal: &mut Option<String>,
) -> u8 {
    let mut source = SureSource::new(bytes);
    let mut out = HeldOut::new(rt.alloc(), StandardOut::new(rt));
    let status = show_and_say(rt.alloc(), words, &mut source, &mut out, refusal);
    out.ended(status)
}

/// The whole program with threads that post. The answer and `refusal` are those of `run`.
fn run_posted<R: Threads + Wait + Sync + Print + AllocGlobal>(
    rt: &R,
    bytes: List<u8>,
    words: &[Text],
    refusal: &mut Option<String>,
) -> u8 {
    let mut source = SureSource::new(bytes);
    let mut out = HeldOut::new(rt.alloc(), StandardOut::new(rt));
    let status = show_posted_and_say(
        rt,
        rt.alloc(),
        words,
        &mut source,
        &mut out,
        &NoGate,
        refusal,
    );
    out.ended(status)
}

/// The whole program line by line: each line is answered before the next one is read. The answer
/// and `refusal` are those of `run`.
fn run_streamed<R: Print + Eprint + AllocGlobal, I: Read + Drop>(
    rt: &R,
    reader: I,
    words: &[Text],
    refusal: &mut Option<String>,
) -> u8 {
    let mut source = StandardIn::new(reader);
    let mut out = StandardOut::new(rt);
    show_streamed(rt.alloc(), words, &mut source, &mut out, rt, refusal)
}

/// The whole program as a page in pieces, without threads. The answer and `refusal` are those of
/// `run`.
fn run_paged<R: Print + AllocGlobal>(
    rt: &R,
    bytes: List<u8>,
    words: &[Text],
    refusal: &mut Option<String>,
) -> u8 {
    let mut source = SureSource::new(bytes);
    let mut out = HeldOut::new(rt.alloc(), StandardOut::new(rt));
    let status = show_paged_and_say(rt.alloc(), words, &mut source, &mut out, refusal);
    out.ended(status)
}

/// Takes room and gives it back.
fn take_room(alloc: Global, bytes: usize) {
    let _taken: Result<Vec<u8>, AllocError> = Vec::with_capacity(alloc, bytes);
}

/// Takes room twice, and then gives both back.
fn take_twice(alloc: Global, bytes: usize) {
    let _first: Result<Vec<u8>, AllocError> = Vec::with_capacity(alloc, bytes);
    take_room(alloc, bytes);
}

/// Has the heap of this thread grow at once by 48 MiB. Else it grows page by page, with a call of the
/// system for each. Once the first room was given back, what is less than it comes from the heap, and
/// is kept there.
fn make_room(alloc: Global) {
    take_room(alloc, 31 << 20);
    take_twice(alloc, 24 << 20);
}

/// Runs what the words ask for over the bytes of the source, or over the reader where they ask for
/// a stream. The status; and of a source that isn't in the form, where and what was wanted there.
fn run_as_asked<R: Env + Threads + Wait + Sync + Print + Eprint + AllocGlobal, I: Read + Drop>(
    rt: &R,
    bytes: List<u8>,
    reader: I,
) -> (u8, Option<String>) {
    make_room(rt.alloc());
    let mut refusal = None;
    let status = match words_given(rt) {
        Ok(words) if asks_for_posters(words.as_slice()) => {
            run_posted(rt, bytes, words.as_slice(), &mut refusal)
        }
        Ok(words) if asks_for_page(words.as_slice()) => {
            run_paged(rt, bytes, words.as_slice(), &mut refusal)
        }
        Ok(words) if asks_for_stream(words.as_slice()) => {
            run_streamed(rt, reader, words.as_slice(), &mut refusal)
        }
        Ok(words) => run(rt, bytes, words.as_slice(), &mut refusal),
        Err(status) => status,
    };
    (status, refusal)
}

/// The greatest height of a scope in what the words ask for, where the source is so deep. A recorded
/// run has no limit of heights, but an entry of its log for each scope that is made.
fn height_of(words: &[Text], depths: Depths) -> u64 {
    match wish_of(words) {
        Some(Wish::Run(limits)) => u64::from(limits.height),
        Some(Wish::Audit) => depths.made.max(u64::from(USUAL.height)),
        _ => u64::from(USUAL.height),
    }
}

/// Whether the words ask for a source as a whole.
fn asks_for_source(words: &[Text]) -> bool {
    match wish_of(words) {
        Some(Wish::Make(_)) => false,
        Some(_) => true,
        None => asks_for_posters(words) || asks_for_page(words),
    }
}

/// What is read before the run, and the bytes of stack that the run is given; or the status, where
/// nothing is run. Of a stream nothing is read here: its source may be as deep as any.
fn read_for_run<R: Env + AllocGlobal, I: Read + Drop>(
    rt: &R,
    reader: I,
    refusal: &mut Option<String>,
) -> Result<(List<u8>, usize), u8> {
    let given = words_given(rt)?;
    let words = given.as_slice();
    let nothing = List::new(rt.alloc());
    if !asks_for_source(words) {
        return Ok((nothing, stack_of(height_of(words, deepest()), deepest())));
    }
    let mut source = StandardIn::new(reader);
    match bytes_of(rt.alloc(), &mut source, refusal) {
        Ok(bytes) => {
            let depths = depths_of(bytes.as_slice());
            Ok((bytes, stack_of(height_of(words, depths), depths)))
        }
        Err(stop) => Err(stop.status()),
    }
}

/// Ends with a status, of which a line is said where it isn't 0.
fn ended<R: Eprint>(rt: &R, status: u8, refusal: Option<String>) -> ExitCode {
    if let Some(line) = refusal {
        let _ = eprintln!(rt; "status {status}: {line}");
    } else if let Some(text) = meaning(status) {
        let _ = rt.eprintln(text);
    }
    ExitCode::from(status)
}

fn main(rt: HostRuntime) -> ExitCode {
    let mut refusal = None;
    let (bytes, stack) = match read_for_run(&rt, rt.reader(), &mut refusal) {
        Ok(read) => read,
        Err(status) => return ended(&rt, status, refusal),
    };
    // A deep document is shown, printed and dropped by calls as deep: they have a thread with room.
    let thread = Builder::new()
        .stack_size(stack)
        .spawn(&rt, move || run_as_asked(&rt, bytes, rt.reader()));
    let (status, refusal) = match thread {
        Ok(running) => running.join(&rt),
        // Without that room nothing is begun.
        Err(_) => (NO_MEMORY, None),
    };
    ended(&rt, status, refusal)
}
