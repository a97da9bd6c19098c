//! The table of readers: each reader stands beside the place of each of its sources.
ghost use Rattle.std.specs.Prelude.{◌≡◌, ◌⊎◌, ◌||◌, ◌&&◌, not, map, IfOk, OnOk, OnErr};
ghost use Rattle.std.specs.List.{take_while};
ghost use Rattle.std.specs.List.Sorted.{IsStrictlySortedBy};
ghost use Rattle.std.specs.BTreeSet.{contains, keys_between};
ghost use Rattle.std.specs.declared.ops.Bound.TheVariants.{Included, Unbounded};
ghost use Rattle.rt_cells.specs.declared.sources.Reader.{Reader};
ghost use Rattle.rt_cells.specs.declared.places.Place.{Place};
ghost use Rattle.rt_cells.specs.declared.places.Place.TheVariants as place;
ghost use Rattle.rt_cells.specs.Orders.{source_cmp, same_place};
ghost use Rattle.rt_cells.specs.Places.{place_of, source_at};
ghost use Rattle.rt_cells.specs.Reads.{has, is_context_of};
ghost use Rattle.rt_cells.specs.Links.{link_cmp, is_linked, is_let_go};

use crate::places::{Place, place_of, source_at};
use crate::sources::{Reader, Source};
use rt_values::{OutOfMemory, ScopeId};
use std::alloc::Global;
use std::collections::BTreeSet;

/// The first of all readers.
pub const FIRST_READER: Reader = Reader::Scope(ScopeId(0));

/// Whether a source is among others.
pub fn is_among(sources: &[Source], source: Source) -> bool
    requires ascending { IsStrictlySortedBy source_cmp sources.now }
    ensures among { result ≡ has source sources.now }
{
    sources.binary_search(&source).is_ok()
}

/// Puts the reader beside each of the sources. Without memory some may be left in the table.
pub fn enter(
    links: &mut BTreeSet<(Place, Reader)>,
    reader: Reader,
    sources: &[Source],
) -> Result<(), OutOfMemory>
    ensures ok { OnOk result ((link : Place × Reader) →
        contains link_cmp links.new link
        ≡ (contains link_cmp links.old link || is_linked reader sources.now link)) }
    ensures err { OnErr result ((link : Place × Reader) →
        (contains link_cmp links.new link ≡ contains link_cmp links.old link)
        ⊎ (contains link_cmp links.new link
        ≡ (contains link_cmp links.old link || is_linked reader sources.now link))) }
{
    for source in sources {
        links.insert((place_of(*source), reader))?;
    }
    Ok(())
}

/// Takes the reader away from those of the sources that it doesn't keep.
pub fn leave(
    links: &mut BTreeSet<(Place, Reader)>,
    reader: Reader,
    sources: &[Source],
    kept: &[Source],
)
    requires ascending { IsStrictlySortedBy source_cmp kept.now }
    ensures left { (link : Place × Reader) →
        contains link_cmp links.new link ≡ (contains link_cmp links.old link
        && not (is_let_go reader kept.now sources.now link)) }
{
    for source in sources {
        if !is_among(kept, *source) {
            links.remove(&(place_of(*source), reader));
        }
    }
}

/// The readers that stand at a place, ascending.
pub fn readers_at(
    alloc: Global,
    links: &BTreeSet<(Place, Reader)>,
    place: Place,
) -> Result<Vec<Reader>, OutOfMemory>
    ensures front { IfOk result (λ readers. readers.items ≡ map (λ link. link.1)
        (take_while (λ link. same_place place link.0)
        (keys_between link_cmp (Included (place, FIRST_READER)) Unbounded links.now))) }
    ensures ordered { IsStrictlySortedBy link_cmp links.now.keys }
{
    let readers = links
        .range((place, FIRST_READER)..)
        .take_while(|link| place == link.0)
        .map(|link| link.1)
        .collect(alloc)?;
    Ok(readers)
}

/// Whether the place is that of what the scope provides of some kind.
fn is_provided_by(scope: ScopeId, place: Place) -> bool
    ensures provided { result ≡ is_context_of scope (source_at place) }
{
    match place {
        Place::Context(by, _) => scope == by,
        Place::Cell(_) | Place::Error(_) => false,
    }
}

/// The sources of every kind of the scope that stand in the table, once for each reader.
pub fn contexts_at(
    alloc: Global,
    links: &BTreeSet<(Place, Reader)>,
    scope: ScopeId,
) -> Result<Vec<Source>, OutOfMemory>
    ensures front { IfOk result (λ sources. sources.items ≡ map (λ link. source_at link.0)
        (take_while (λ link. is_context_of scope (source_at link.0))
        (keys_between link_cmp (Included (place.Context scope 0, FIRST_READER)) Unbounded
        links.now))) }
    ensures ordered { IsStrictlySortedBy link_cmp links.now.keys }
{
    let sources = links
        .range((Place::Context(scope, 0), FIRST_READER)..)
        .take_while(|link| is_provided_by(scope, link.0))
        .map(|link| source_at(link.0))
        .collect(alloc)?;
    Ok(sources)
}
