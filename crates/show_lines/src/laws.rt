//! The lines of bytes, one after the other.
ghost use Rattle.std.specs.Prelude.{◌≡◌, ◌∷◌, ℕ, List as Items};
ghost use Rattle.show_lines.specs.Lines.{CutsLine, lines_of};

/// A line that is cut off bytes is the first of their lines, and those of the rest are the others.
pub fn lines_are_cut()
    ensures cut { (line all rest : Items ℕ) → CutsLine line all rest →
        lines_of all ≡ line ∷ lines_of rest }
{}
