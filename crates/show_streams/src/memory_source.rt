//! Bytes in memory as sources.
ghost use Rattle.std.specs.Prelude.{◌≡◌, Some, drop};
ghost use Rattle.show_streams.specs.Failures.{failures};

use crate::rest::Rest;
use crate::schedule::Schedule;
use crate::source::{ReadFailed, Source};
use rt_values::List;

/// Bytes of which some reads fail, and then move nothing.
#[derive(Drop)]
pub struct BytesSource {
    rest: Rest,
    schedule: Schedule,
}

impl BytesSource {
    /// The source of these bytes that fails at the numbered reads, counted from 1.
    pub fn new(bytes: List<u8>, fails: List<u64>) -> BytesSource
        ensures whole { ⟦<BytesSource as Source>⟧.left result ≡ Some bytes }
        ensures none { ⟦<BytesSource as Source>⟧.faults result ≡ failures fails 0 }
    {
        BytesSource {
            rest: Rest::new(bytes),
            schedule: Schedule::new(fails),
        }
    }
}

impl Source for BytesSource {
    ghost left = { λ source. Some source.rest };

    ghost faults = { λ source. failures source.schedule.fails source.schedule.calls };

    fn read(&mut self, room: &mut [u8]) -> Result<u64, ReadFailed> {
        if self.schedule.fails_next() {
            return Err(ReadFailed);
        }
        Ok(self.rest.move_into(room))
    }
}

/// Bytes that are read without a failure.
#[derive(Drop)]
pub struct SureSource {
    rest: Rest,
}

impl SureSource {
    pub fn new(bytes: List<u8>) -> SureSource
        ensures whole { ⟦<SureSource as Source>⟧.left result ≡ Some bytes }
    {
        SureSource {
            rest: Rest::new(bytes),
        }
    }
}

impl Source for SureSource {
    ghost left = { λ source. Some source.rest };

    ghost faults = { λ _. 0 };

    fn read(&mut self, room: &mut [u8]) -> Result<u64, ReadFailed> {
        Ok(self.rest.move_into(room))
    }
}
