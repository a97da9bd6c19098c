//! Sources in the order of the table of readers: the contexts of one scope stand side by side.
ghost use Rattle.std.specs.Prelude.{◌≡◌};
ghost use Rattle.rt_cells.specs.Places.{place_of, source_at};

use crate::sources::Source;
use rt_values::ScopeId;

/// A source as the table of readers orders it: contexts by scope, and then by kind.
#[derive(Clone, Copy, PartialEq, Eq, PartialOrd, Ord)]
pub enum Place {
    Cell(u64),
    Error(ScopeId),
    Context(ScopeId, u32),
}

/// Where a source stands in the table of readers.
pub fn place_of(source: Source) -> Place
    ensures place { result ≡ place_of source }
{
    match source {
        Source::Cell(number) => Place::Cell(number),
        Source::Error(scope) => Place::Error(scope),
        Source::Context(kind, scope) => Place::Context(scope, kind),
    }
}

/// The source that stands at a place.
pub fn source_at(place: Place) -> Source
    ensures source { result ≡ source_at place }
{
    match place {
        Place::Cell(number) => Source::Cell(number),
        Place::Error(scope) => Source::Error(scope),
        Place::Context(scope, kind) => Source::Context(kind, scope),
    }
}
