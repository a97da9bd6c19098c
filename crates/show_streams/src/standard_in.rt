//! Standard input as a source. It tells nothing of its content: what the system gives is trusted.
ghost use Rattle.std.specs.Prelude.{◌≡◌, ◌<◌, ◌≤◌, None, IfOk, OnErr};

use crate::source::{ReadFailed, Source};
use std::io::{ErrorKind, Read};

/// A reader of the system as a source, with a count of its failures.
#[derive(Drop)]
pub struct StandardIn<R: Read + Drop> {
    reader: R,
    faults: u64,
}

impl<R: Read + Drop> StandardIn<R> {
    pub fn new(reader: R) -> StandardIn<R>
        ensures none { result.faults ≡ 0 }
    {
        StandardIn { reader, faults: 0 }
    }

    // Counts a failure. A source that failed as often as the count can tell is at its end.
    fn failed(&mut self) -> Result<u64, ReadFailed>
        ensures nothing { IfOk result (λ count. count ≡ 0) }
        ensures later { self.old.faults ≤ self.new.faults }
        ensures cause { OnErr result (self.old.faults < self.new.faults) }
    {
        if self.faults == u64::MAX {
            return Ok(0);
        }
        self.faults += 1;
        Err(ReadFailed)
    }
}

impl<R: Read + Drop> Source for StandardIn<R> {
    ghost left = { λ _. None };

    ghost faults = { λ source. source.faults };

    fn read(&mut self, room: &mut [u8]) -> Result<u64, ReadFailed> {
        for _ in 0..u64::MAX {
            match self.reader.read(room) {
                Ok(count) => return Ok(count as u64),
                Err(error) if error.kind() == ErrorKind::Interrupted => {}
                Err(_) => return self.failed(),
            }
        }
        self.failed()
    }
}
