//! Lines one after the other, of a source that is read piece by piece. No byte is looked at twice.
ghost use Rattle.std.specs.Prelude.{◌≡◌, ◌+◌, ◌<◌, ◌≤◌, ◌↔◌, [], drop, length, IfOk, IsErrOf, IsTrue, OnOk};
ghost use Rattle.show_lines.specs.Lines.{FirstIsLonger, IsLine, ReadsLine, line_length};
ghost use Rattle.show_lines.specs.Held.{MovesOn, MovesUp, SkipsNewline, TakesLast, none_held, unread};
ghost use Rattle.show_streams.specs.Reads.{preceded};

use rt_values::List;
use show_streams::{MOST_BYTES, ReadError, Source};
use std::alloc::{AllocError, Global};
use std::marker::Model;
use std::mem;

/// How many bytes are read at a time.
const ROOM: usize = 4096;

/// Where the first newline of bytes stands from a place on, or where they end.
fn end_of_line(bytes: &[u8], from: usize) -> usize
    requires { from ≤ length bytes.now }
    ensures after { from ≤ result }
    ensures within { result ≤ length bytes.now }
    ensures ends { result ≡ from + line_length (drop from bytes.now) }
{
    for at in from..bytes.len() {
        if bytes[at] == b'\n' {
            return at;
        }
    }
    bytes.len()
}

/// What was read of a source and handed out as no line yet.
#[derive(Drop)]
pub struct LineReader {
    alloc: Global,
    /// The front of a line whose end wasn't read yet.
    line: Vec<u8>,
    /// What was read last, of which a front has been taken.
    chunk: Vec<u8>,
    at: usize,
}

impl Model for LineReader {
    ghost use Rattle.std.specs.Prelude.{◌≤◌, drop, length};
    ghost use Rattle.show_lines.specs.Held.{Held};
    ghost use Rattle.show_lines.specs.Lines.{IsLine};

    ghost Value = { Held };

    ghost view = { λ reader. record { line = reader.line.items; rest = drop reader.at reader.chunk.items } };

    ghost invariant = { λ reader. (reader.at ≤ length reader.chunk.items) × IsLine reader.line.items };
}

impl LineReader {
    /// Nothing has been read yet.
    pub fn new(alloc: Global) -> LineReader
        ensures empty { result ≡ none_held }
    {
        LineReader {
            alloc,
            line: Vec::new(alloc),
            chunk: Vec::new(alloc),
            at: 0,
        }
    }

    /// The next line, without its newline; the last one may have none. None at the end.
    pub fn next_line<S: Source>(&mut self, source: &mut S) -> Result<Option<List<u8>>, ReadError>
        // What was read and not handed out stands before what is left of the source.
        ensures line { IfOk result (λ found. ReadsLine found
            (preceded (unread self.old) (S.left source.old))
            (preceded (unread self.new) (S.left source.new))) }

        // A read that failed took nothing, so that one may ask again.
        ensures failed { IsErrOf result ReadError.Failed →
            preceded (unread self.new) (S.left source.new)
            ≡ preceded (unread self.old) (S.left source.old) }
        ensures too_long { IsErrOf result ReadError.TooLong →
            FirstIsLonger MOST_BYTES (preceded (unread self.old) (S.left source.old)) }
        ensures later { S.faults source.old ≤ S.faults source.new }
        ensures cause { IsErrOf result ReadError.Failed → S.faults source.old < S.faults source.new }
    {
        for _ in 0..u64::MAX {
            self.take_up()?;
            if self.is_too_long() {
                return Err(ReadError::TooLong);
            }
            if self.skip_newline() {
                return Ok(Some(self.take_line()));
            }
            let more = self.read_more(source)?;
            if !more {
                return Ok(self.take_last());
            }
        }
        Err(ReadError::OutOfMemory)
    }

    /// Moves what was read behind the line so far, up to a newline.
    fn take_up(&mut self) -> Result<(), AllocError>
        ensures moves { OnOk result (MovesUp self.old self.new) }
    {
        let chunk = self.chunk.as_slice();
        let to = end_of_line(chunk, self.at);
        self.line.extend_from_slice(&chunk[self.at..to])?;
        self.at = to;
        Ok(())
    }

    /// Whether the line so far is longer than a source may be. It has no newline.
    fn is_too_long(&self) -> bool
        ensures longer { IsTrue result ↔ (MOST_BYTES < length self.now.line) }
        ensures plain { IsLine self.now.line }
    {
        self.line.len() > MOST_BYTES
    }

    /// Takes the newline off that stands behind the line so far. Whether anything stood there.
    fn skip_newline(&mut self) -> bool
        ensures skips { SkipsNewline result self.old self.new }
    {
        if self.at == self.chunk.len() {
            return false;
        }
        self.at += 1;
        true
    }

    /// Reads once, where all that was read has been moved. Whether there were bytes.
    fn read_more<S: Source>(&mut self, source: &mut S) -> Result<bool, ReadError>
        requires moved { self.old.rest ≡ [] }
        ensures moves { IfOk result (λ more. MovesOn more self.old self.new
            (S.left source.old) (S.left source.new)) }
        ensures failed { IsErrOf result ReadError.Failed →
            (self.new ≡ self.old) × (S.left source.new ≡ S.left source.old) }
        ensures known { IsErrOf result ReadError.TooLong → ⊥ }
        ensures later { S.faults source.old ≤ S.faults source.new }
        ensures cause { IsErrOf result ReadError.Failed → S.faults source.old < S.faults source.new }
    {
        let mut room = [0u8; ROOM];
        let Ok(count) = source.read(&mut room) else {
            return Err(ReadError::Failed);
        };
        self.at = 0;
        self.chunk.clear();
        self.chunk.extend_from_slice(&room[..count as usize])?;
        Ok(count > 0)
    }

    /// The line so far, which is empty then.
    fn take_line(&mut self) -> List<u8>
        ensures line { result ≡ self.old.line }
        ensures plain { IsLine result }
        ensures none { self.new.line ≡ [] }
        ensures rest { self.new.rest ≡ self.old.rest }
    {
        List::from_vec(mem::replace(&mut self.line, Vec::new(self.alloc)))
    }

    /// The line so far, if it has a byte.
    fn take_last(&mut self) -> Option<List<u8>>
        ensures last { TakesLast result self.old self.new }
    {
        if self.line.is_empty() {
            None
        } else {
            Some(self.take_line())
        }
    }
}
