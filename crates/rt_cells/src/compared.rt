//! How sources and readers compare.
ghost use Rattle.std.specs.Prelude.{◌≡◌, ◌↔◌, IsTrue};
ghost use Rattle.std.specs.Ordering.{is_lt};
ghost use Rattle.rt_cells.specs.Compared.{source_before, reader_before};

use crate::sources::{Reader, Source};

/// Sources are equal where they are the same, and come by kind and then by what they hold.
pub fn sources_compare(a: &Source, b: &Source)
    ensures equal { IsTrue (⟦<Source as PartialEq>⟧.eq a.now b.now) ↔ (a.now ≡ b.now) }
    ensures less { is_lt (⟦<Source as Ord>⟧.cmp a.now b.now) ≡ source_before a.now b.now }
{}

/// So are readers, scopes before reactive contexts.
pub fn readers_compare(a: &Reader, b: &Reader)
    ensures equal { IsTrue (⟦<Reader as PartialEq>⟧.eq a.now b.now) ↔ (a.now ≡ b.now) }
    ensures less { is_lt (⟦<Reader as Ord>⟧.cmp a.now b.now) ≡ reader_before a.now b.now }
{}
