//! What was put as bytes, one put behind the other.
ghost use Rattle.std.specs.Prelude.{◌≡◌, ℕ};
ghost use Rattle.std.specs.Prelude.{List as Items};
ghost use Rattle.std.specs.List.{concat};
ghost use Rattle.show_streams.specs.Writes.{AddsBytes, AddsFront, Puts, bytes_in, grown, longer};

/// Texts that were put are their bytes behind those that were there, and a front of texts is a front
/// of their bytes, wherever it ends.
pub fn fronts_are_of_bytes()
    ensures whole { (old : Puts) (texts : Items (Items ℕ))
        → bytes_in (grown old texts) ≡ longer (bytes_in old) (concat texts) }
    ensures front { (texts : Items (Items ℕ)) (old new : Puts) → AddsFront old new texts
        → AddsBytes (bytes_in old) (bytes_in new) (concat texts) }
{}
