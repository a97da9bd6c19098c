//! An out that holds what is put, and hands it on in large pieces.
ghost use Rattle.std.specs.Prelude.{◌≡◌, ◌<◌, ◌≤◌, None, IsErrOf};

use show_streams::{Out, OutError};
use std::alloc::Global;

/// So many bytes are handed on at once, or more.
const HELD: usize = 1 << 16;

/// Holds what is put to an out. It tells nothing of its puts, as standard output doesn't.
#[derive(Drop)]
pub struct HeldOut<O: Out> {
    out: O,
    held: Vec<u8>,
}

impl<O: Out> HeldOut<O> {
    pub fn new(alloc: Global, out: O) -> HeldOut<O> {
        HeldOut {
            out,
            held: Vec::new(alloc),
        }
    }

    /// Whether more is to be held before it is handed on.
    fn has_room(&self) -> bool {
        self.held.len() < HELD
    }

    /// Hands on what is held.
    fn finish(&mut self) -> Result<(), OutError>
        ensures later { O.faults self.old.out ≤ O.faults self.new.out }
        ensures cause { IsErrOf result OutError.Failed →
            O.faults self.old.out < O.faults self.new.out }
    {
        let done = self.out.put(self.held.as_slice());
        self.held.clear();
        done
    }

    /// Hands on what is held. The status of a run that ended with this one, and printed here.
    pub fn ended(self, status: u8) -> u8 {
        let mut last = self;
        match last.finish() {
            Ok(()) => status,
            Err(OutError::Failed) => 6,
            Err(OutError::OutOfMemory) => 7,
        }
    }
}

impl<O: Out> Out for HeldOut<O> {
    ghost puts = { λ _. None };

    ghost faults = { λ out. O.faults out.out };

    fn put(&mut self, bytes: &[u8]) -> Result<(), OutError> {
        self.held.extend_from_slice(bytes)?;
        if self.has_room() {
            return Ok(());
        }
        self.finish()
    }
}
