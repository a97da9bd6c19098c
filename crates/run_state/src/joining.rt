//! What joins a side of a scope: a number that is drawn, a child scope.
ghost use Rattle.std.specs.Prelude.{◌≡◌, Some, OnErr, OnOk};
ghost use Rattle.rt_model.specs.Lists.{at, put};
ghost use Rattle.run_records.specs.Kept.{each, scope_of};
ghost use Rattle.run_places.specs.Places.{kind_of, place_of, side_name_of};
ghost use Rattle.run_state.specs.Drawn.{beside_seats};
ghost use Rattle.run_state.specs.Sides.{OneSeat, more_child, more_number};

use rt_values::OutOfMemory;
use run_places::{Kind, Place, SideName};
use run_records::Scope;
use run_table::BoxedTable;
use tree_nodes::Parts;

/// Puts a number after those of a scope's side, where the scope is in the table. A refusal leaves the
/// table as it was.
pub(crate) fn put_number<P: Parts>(
    rows: &mut BoxedTable<Scope<P>>,
    scope: u64,
    side: SideName,
    place: &Place,
    kind: Kind,
    number: u64,
) -> Result<(), OutOfMemory>
    ensures put { OnOk result ((x : Scope P P.Component P.Props P.Value P.Handler P.TaskState P.Effect P.Payload)
        → at rows.old scope ≡ Some x → each scope_of rows.new ≡ put (each scope_of rows.old) scope
        (more_number (side_name_of side) (place_of place.now, kind_of kind, number) (scope_of x))) }
    ensures err { OnErr result (rows.new ≡ rows.old) }
{
    rows.change(
        scope,
        |found: &mut Scope<P>| -> Result<(), OutOfMemory>
            ensures pushed { OnOk result (scope_of found.new ≡ more_number (side_name_of side)
                (place_of place.entry.now, kind_of kind, number) (scope_of found.old)) }
            ensures err { OnErr result (found.new ≡ found.old) }
        { push_number(found, side, place, kind, number) },
    )
}

/// Puts a number after those of a side.
fn push_number<P: Parts>(
    scope: &mut Scope<P>,
    side: SideName,
    place: &Place,
    kind: Kind,
    number: u64,
) -> Result<(), OutOfMemory>
    ensures pushed { OnOk result (scope_of scope.new ≡ more_number (side_name_of side)
        (place_of place.now, kind_of kind, number) (scope_of scope.old)) }
    ensures err { OnErr result (scope.new ≡ scope.old) }
{
    match side {
        SideName::Main => scope.rest.main_side.draw(place, kind, number),
        SideName::Children => scope.rest.children_side.draw(place, kind, number),
        SideName::Fallback => scope.rest.fallback_side.draw(place, kind, number),
    }
}

/// Puts a child after those of a side.
pub(crate) fn push_child<P: Parts>(
    scope: &mut Scope<P>,
    side: SideName,
    place: &Place,
    child: u64,
) -> Result<(), OutOfMemory>
    ensures seated { OnOk result (scope_of scope.new ≡ more_child (side_name_of side)
        (place_of place.now, child) (scope_of scope.old)) }
    ensures one { OneSeat child scope.old scope.new }
    ensures stay { beside_seats scope.new ≡ beside_seats scope.old }
{
    match side {
        SideName::Main => scope.rest.main_side.seat(place, child),
        SideName::Children => scope.rest.children_side.seat(place, child),
        SideName::Fallback => scope.rest.fallback_side.seat(place, child),
    }
}
