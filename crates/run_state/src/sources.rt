//! Sources among those that were read.
ghost use Rattle.std.specs.Prelude.{◌≡◌, map};
ghost use Rattle.rt_model.specs.World.{same_source};
ghost use Rattle.rt_model.specs.Commands.{names_source};
ghost use Rattle.run_records.specs.Records.{source_of, newest_first};

use rt_cells::Source;
use rt_values::List;

/// Whether two are the same source.
pub fn is_same_source(left: Source, right: Source) -> bool
    ensures { result ≡ same_source (source_of left) (source_of right) }
{
    match (left, right) {
        (Source::Cell(cell), Source::Cell(other)) => cell == other,
        (Source::Error(scope), Source::Error(other)) => scope.0 == other.0,
        (Source::Context(kind, scope), Source::Context(other_kind, other)) => {
            kind == other_kind && scope.0 == other.0
        }
        _ => false,
    }
}

/// Whether a source is among these.
pub fn names_source(sources: &[Source], source: Source) -> bool
    ensures { result ≡ names_source (map source_of sources.now) (source_of source) }
{
    for named in sources {
        if is_same_source(*named, source) {
            return true;
        }
    }
    false
}

/// What was read, the newest first.
pub(crate) fn newest_first(reads: List<Source>) -> List<Source>
    ensures { map source_of result ≡ newest_first source_of reads }
{
    let mut items = reads.into_vec();
    items.reverse();
    List::from_vec(items)
}
