//! Outs that keep in memory what was put, put by put.
ghost use Rattle.std.specs.Prelude.{◌≡◌, [], Some};
ghost use Rattle.show_streams.specs.Failures.{failures};

use crate::out::{Out, OutError};
use crate::schedule::Schedule;
use rt_values::List;
use std::alloc::Global;

/// Keeps what is put, of which some puts fail, and then keep nothing.
#[derive(Drop)]
pub struct BytesOut {
    alloc: Global,
    puts: List<List<u8>>,
    schedule: Schedule,
}

impl BytesOut {
    /// An empty out that fails at the numbered puts, counted from 1.
    pub fn new(alloc: Global, fails: List<u64>) -> BytesOut
        ensures empty { ⟦<BytesOut as Out>⟧.puts result ≡ Some [] }
        ensures none { ⟦<BytesOut as Out>⟧.faults result ≡ failures fails 0 }
    {
        BytesOut {
            alloc,
            puts: List::new(alloc),
            schedule: Schedule::new(fails),
        }
    }

    /// What each put that didn't fail was of, in order.
    pub fn puts(&self) -> &[List<u8>]
        ensures told { ⟦<BytesOut as Out>⟧.puts self.now ≡ Some result.now }
    {
        self.puts.as_slice()
    }
}

impl Out for BytesOut {
    ghost puts = { λ out. Some out.puts };

    ghost faults = { λ out. failures out.schedule.fails out.schedule.calls };

    #[tactic(auto, using(crate::proofs::OnePut::puts))]
    fn put(&mut self, bytes: &[u8]) -> Result<(), OutError> {
        if self.schedule.fails_next() {
            return Err(OutError::Failed);
        }
        let kept = List::from_slice(self.alloc, bytes)?;
        self.puts.push(kept)?;
        Ok(())
    }
}

/// Keeps what is put, and never fails.
#[derive(Drop)]
pub struct SureOut {
    alloc: Global,
    puts: List<List<u8>>,
}

impl SureOut {
    pub fn new(alloc: Global) -> SureOut
        ensures empty { ⟦<SureOut as Out>⟧.puts result ≡ Some [] }
    {
        SureOut {
            alloc,
            puts: List::new(alloc),
        }
    }

    /// What each put was of, in order.
    pub fn puts(&self) -> &[List<u8>]
        ensures told { ⟦<SureOut as Out>⟧.puts self.now ≡ Some result.now }
    {
        self.puts.as_slice()
    }
}

impl Out for SureOut {
    ghost puts = { λ out. Some out.puts };

    ghost faults = { λ _. 0 };

    #[tactic(auto, using(crate::proofs::OnePut::puts))]
    fn put(&mut self, bytes: &[u8]) -> Result<(), OutError> {
        let kept = List::from_slice(self.alloc, bytes)?;
        self.puts.push(kept)?;
        Ok(())
    }
}
