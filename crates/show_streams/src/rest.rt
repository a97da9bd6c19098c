//! Bytes in memory of which a front has been read. Clauses see the bytes that are left.
ghost use Rattle.std.specs.Prelude.{◌≡◌, ◌≤◌, ◌<◌, ◌++◌, [], length, take, drop};

use rt_values::List;
use std::marker::Model;

/// Bytes that are taken from the front.
#[derive(Drop)]
pub struct Rest {
    bytes: List<u8>,
    at: usize,
}

impl Model for Rest {
    ghost use Rattle.std.specs.Prelude.{◌≤◌, List, ℕ, length, drop};

    ghost Value = { List ℕ };

    ghost view = { λ rest. drop rest.at rest.bytes };

    ghost invariant = { λ rest. rest.at ≤ length rest.bytes };
}

impl Rest {
    pub fn new(bytes: List<u8>) -> Rest
        ensures whole { result ≡ bytes }
    {
        Rest { bytes, at: 0 }
    }

    /// Moves as many bytes as there are, or as the room has places, to the front of the room.
    pub fn move_into(&mut self, room: &mut [u8]) -> u64
        ensures moved { room.new ≡ take result self.old ++ drop result room.old }
        ensures left { self.new ≡ drop result self.old }
        ensures held { result ≤ length self.old }
        ensures within { result ≤ length room.old }
        ensures end { result ≡ 0 → 0 < length room.old → self.old ≡ [] }
    {
        let bytes = self.bytes.as_slice();
        let count = (bytes.len() - self.at).min(room.len());
        let end = self.at + count;
        room[..count].copy_from_slice(&bytes[self.at..end]);
        self.at = end;
        count as u64
    }
}
