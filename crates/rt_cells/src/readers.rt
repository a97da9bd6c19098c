//! The readers of a source, met one by one.
ghost use Rattle.std.specs.Prelude.{◌≡◌, ◌∷◌, [], map, MatchOption};
ghost use Rattle.std.specs.List.{take_while};
ghost use Rattle.std.specs.List.Sorted.{IsStrictlySortedBy};
ghost use Rattle.std.specs.BTreeSet.{keys_between};
ghost use Rattle.std.specs.declared.ops.Bound.TheVariants.{Included, Unbounded};
ghost use Rattle.rt_cells.specs.Orders.{same_place};
ghost use Rattle.rt_cells.specs.Links.{link_cmp};

use crate::links::FIRST_READER;
use crate::places::Place;
use crate::sources::Reader;
use std::collections::BTreeSet;
use std::collections::btree_set::Range;
use std::marker::Model;

/// The readers of one source, of which each is met once. One search found where they begin; meeting
/// one takes neither another search nor memory.
#[derive(Drop)]
pub struct Readers<'a> {
    /// What stands in the table from them on.
    links: Range<'a, (Place, Reader)>,
    place: Place,
}

impl<'a> Model for Readers<'a> {
    ghost use Rattle.std.specs.Prelude.{List, map};
    ghost use Rattle.std.specs.List.{take_while};
    ghost use Rattle.rt_cells.specs.declared.sources.Reader.{Reader as Meets};
    ghost use Rattle.rt_cells.specs.Orders.{same_place};

    ghost Value = { List Meets };

    ghost view = { λ readers. map (λ link. link.1)
        (take_while (λ link. same_place readers.place link.0) readers.links) };
}

impl<'a> Readers<'a> {
    /// The next one, which is met then.
    pub fn next(&mut self) -> Option<Reader>
        ensures next { MatchOption result (self.old ≡ []) (λ reader. self.old ≡ reader ∷ self.new) }
    {
        let link = self.links.next()?;
        if self.place == link.0 {
            Some(link.1)
        } else {
            None
        }
    }
}

/// Those who stand at a place, to be met.
pub fn readers_from(links: &BTreeSet<(Place, Reader)>, place: Place) -> Readers<'_>
    ensures front { result ≡ map (λ link. link.1)
        (take_while (λ link. same_place place link.0)
        (keys_between link_cmp (Included (place, FIRST_READER)) Unbounded links.now)) }
    ensures ordered { IsStrictlySortedBy link_cmp links.now.keys }
{
    Readers {
        links: links.range((place, FIRST_READER)..),
        place,
    }
}
