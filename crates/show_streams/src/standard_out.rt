//! Standard output as an out. It tells nothing of its puts: what the system takes is trusted.
ghost use Rattle.std.specs.Prelude.{◌≡◌, ◌<◌, ◌≤◌, None, IsErr, IsErrOf};

use crate::out::{Out, OutError};
use std::io::ErrorKind;

/// What a runtime prints to as an out, with a count of its failures.
#[derive(Drop)]
pub struct StandardOut<'a, R: Print> {
    runtime: &'a R,
    faults: u64,
}

impl<'a, R: Print> StandardOut<'a, R> {
    pub fn new(runtime: &'a R) -> StandardOut<'a, R>
        ensures none { result.faults ≡ 0 }
    {
        StandardOut { runtime, faults: 0 }
    }

    // Counts a failure. An out that failed as often as the count can tell wants memory for more.
    fn failed(&mut self) -> Result<(), OutError>
        ensures err { IsErr result }
        ensures later { self.old.faults ≤ self.new.faults }
        ensures cause { IsErrOf result OutError.Failed → self.old.faults < self.new.faults }
    {
        if self.faults == u64::MAX {
            return Err(OutError::OutOfMemory);
        }
        self.faults += 1;
        Err(OutError::Failed)
    }
}

impl<'a, R: Print> Out for StandardOut<'a, R> {
    ghost puts = { λ _. None };

    ghost faults = { λ out. out.faults };

    fn put(&mut self, bytes: &[u8]) -> Result<(), OutError> {
        let mut done = 0;
        for _ in 0..u64::MAX {
            if done == bytes.len() {
                return Ok(());
            }
            match self.runtime.write_some(&bytes[done..]) {
                Ok(count) if count > 0 => done += count,
                Err(error) if error.kind() == ErrorKind::Interrupted => {}
                _ => return self.failed(),
            }
        }
        self.failed()
    }
}
