//! Where bytes are read from.
ghost use Rattle.std.specs.Prelude.{◌≡◌, ◌≤◌, ◌<◌, ℕ, List, Option, length, IfOk, OnErr};
ghost use Rattle.show_streams.specs.Reads.{Moved, Ended};

/// A read that gave no byte because the source refused.
#[derive(Clone, Copy, Debug, PartialEq, Eq)]
pub struct ReadFailed;

/// Bytes that are read piece by piece.
pub trait Source: Drop {
    /// The bytes that are left to read, where the source tells them.
    ghost left: { Self → Option (List ℕ) };

    /// How many reads have failed.
    ghost faults: { Self → ℕ };

    /// Moves bytes into the front of `room` and answers how many. None into a room that has a
    /// place is the end.
    fn read(&mut self, room: &mut [u8]) -> Result<u64, ReadFailed>
        ensures within { IfOk result (λ count. count ≤ length room.old) }
        ensures moved { IfOk result (λ count. Moved count room.new (left self.old) (left self.new)) }
        ensures end { IfOk result (λ count. Ended count room.old (left self.old)) }
        ensures err { OnErr result (left self.new ≡ left self.old) }
        ensures later { faults self.old ≤ faults self.new }
        ensures cause { OnErr result (faults self.old < faults self.new) };
}
