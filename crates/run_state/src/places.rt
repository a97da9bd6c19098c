//! Where the numbers of the document stand.
ghost use Rattle.std.specs.Prelude.{◌≡◌, ◌<◌, ◌∷◌, [], ℕ, List, Some, true, drop, is_some, length, option_map, slice_get};
ghost use Rattle.std.specs.Option.{option_copied};
ghost use Rattle.rt_model.specs.Lists.{at, without};
ghost use Rattle.rt_model.specs.Queries.{node_place};
ghost use Rattle.rt_model.specs.State as model;
ghost use Rattle.rt_model.specs.State.{change, with_side};
ghost use Rattle.run_records.specs.Kept.{each, scope_of};
ghost use Rattle.run_named.specs.Named.{named_in, named_of};
ghost use Rattle.run_named.specs.Standings.{IsPicked, IsPlaced, starts, went, without_all};
ghost use Rattle.run_places.specs.Places.{side_name_of, side_of};
ghost use Rattle.run_state.specs.Drawn.{numbers_at, numbers_in};
ghost use Rattle.run_state.specs.Mirror.{state_of};
ghost use Rattle.run_state.specs.Sides.{FewerSeats, side_put};

use crate::scopes::{put_side, side_of};
use crate::state::State;
use rt_values::OutOfMemory;
use run_places::{NodeAt, Side, SideName};
use run_records::Scope;
use run_table::{BoxedTable, Shelf};
use tree_nodes::{Parts, Place};

impl<P: Parts> State<P> {
    /// Where the node with a number stands, in a program's words. None exactly where no live scope,
    /// hidden ones included, has it. It takes no memory.
    pub fn place_of(&self, number: u64) -> Option<&Place>
        ensures place { (g : _) → option_map named_in (option_copied result)
            ≡ option_map named_of (node_place (state_of g self.now) number) }
    {
        self.places.get(number)
    }

    /// Puts another side in the place of one of a live scope. What is drawn for it was drawn for that
    /// one, and stands at nodes that it knows; its children stood on that one. It takes no memory.
    pub fn put_side(&mut self, scope: u64, name: SideName, side: Side<P>)
        requires fewer { (x : Scope P P.Component P.Props P.Value P.Handler P.TaskState P.Effect P.Payload)
            → at self.old.rows.table scope ≡ Some x → IsPicked (side_of side).numbers
            (model.side_of (scope_of x) (side_name_of name)).numbers }
        requires known { numbers_at side.nodes side.numbers ≡ numbers_in side.numbers }
        requires seats { (x : Scope P P.Component P.Props P.Value P.Handler P.TaskState P.Effect P.Payload)
            → at self.old.rows.table scope ≡ Some x
            → FewerSeats (side_of side) (model.side_of (scope_of x) (side_name_of name)) }
        ensures put { (g : _) → state_of g self.new ≡ change (state_of g self.old) scope
            (λ x. with_side x (side_name_of name) (side_of side)) }
    {
        let Some(found) = self.rows.table.get(scope) else {
            return;
        };
        forget(
            &mut self.places,
            side_of(found, name),
            side.numbers.as_slice(),
        );
        let _done = self.rows.table.change(
            scope,
            |found: &mut Scope<P>| -> Result<(), OutOfMemory>
                ensures put { found.new ≡ side_put name side found.old }
            {
                put_side(found, name, side);
                Ok(())
            },
        );
    }

    /// Puts another side in the place of one of a live scope, for which the same is drawn at the
    /// same places, with children that stood on that one. It takes no memory.
    pub fn swap_side(&mut self, scope: u64, name: SideName, side: Side<P>)
        requires drawn { (x : Scope P P.Component P.Props P.Value P.Handler P.TaskState P.Effect P.Payload)
            → at self.old.rows.table scope ≡ Some x → (side_of side).numbers
            ≡ (model.side_of (scope_of x) (side_name_of name)).numbers }
        requires seats { (x : Scope P P.Component P.Props P.Value P.Handler P.TaskState P.Effect P.Payload)
            → at self.old.rows.table scope ≡ Some x
            → FewerSeats (side_of side) (model.side_of (scope_of x) (side_name_of name)) }
        ensures put { (g : _) → state_of g self.new ≡ change (state_of g self.old) scope
            (λ x. with_side x (side_name_of name) (side_of side)) }
    {
        let _done = self.rows.table.change(
            scope,
            |found: &mut Scope<P>| -> Result<(), OutOfMemory>
                ensures put { found.new ≡ side_put name side found.old }
            {
                put_side(found, name, side);
                Ok(())
            },
        );
    }
}

/// Takes out the rows of a scope, with the places of what is drawn for them.
pub(crate) fn remove_rows<P: Parts>(
    rows: &mut BoxedTable<Scope<P>>,
    places: &mut Shelf<Place>,
    scope: u64,
)
    ensures rows { rows.new ≡ without rows.old scope }
    ensures placed { IsPlaced (each scope_of rows.old) places.old
        → IsPlaced (each scope_of rows.new) places.new }
{
    while let Some(row) = rows.take_first(scope) {
        forget(places, &row.rest.main_side, &[]);
        forget(places, &row.rest.children_side, &[]);
        forget(places, &row.rest.fallback_side, &[]);
    }
}

/// Takes the places of what is drawn for a side out, but for those that stay, which are some of them in
/// the same order.
fn forget<P: Parts>(places: &mut Shelf<Place>, side: &Side<P>, stay: &[(u64, u64)])
    ensures { places.new ≡ without_all places.old
        (went (numbers_at side.now.nodes side.now.numbers) (numbers_in stay.now)) }
{
    let nodes = side.nodes.as_slice();
    let drawn = side.numbers.as_slice();
    forget_drawn(places, nodes, drawn, stay);
}

/// The same of what is drawn for these nodes.
fn forget_drawn(
    places: &mut Shelf<Place>,
    nodes: &[NodeAt],
    drawn: &[(u64, u64)],
    stay: &[(u64, u64)],
)
    ensures { places.new ≡ without_all places.old
        (went (numbers_at nodes.now drawn.now) (numbers_in stay.now)) }
{
    if stay.is_empty() {
        forget_all(places, nodes, drawn);
        return;
    }
    forget_but(places, nodes, drawn, stay);
}

/// The same where none stays, the last first.
fn forget_all(places: &mut Shelf<Place>, nodes: &[NodeAt], drawn: &[(u64, u64)])
    ensures { places.new ≡ without_all places.old (numbers_at nodes.now drawn.now) }
{
    for back in 0..drawn.len() {
        let index = drawn.len() - 1 - back;
        forget_one(places, nodes, &drawn[index]);
    }
}

/// Takes the place of one of them out.
fn forget_one(places: &mut Shelf<Place>, nodes: &[NodeAt], pair: &(u64, u64))
    ensures { places.new ≡ without_all places.old (numbers_at nodes.now (pair.now ∷ [])) }
{
    if !is_known(nodes, pair.0) {
        return;
    }
    places.remove(pair.1);
}

/// The same where some stay.
fn forget_but(
    places: &mut Shelf<Place>,
    nodes: &[NodeAt],
    drawn: &[(u64, u64)],
    stay: &[(u64, u64)],
)
    ensures { places.new ≡ without_all places.old
        (went (numbers_at nodes.now drawn.now) (numbers_in stay.now)) }
{
    let mut next = 0;
    for pair in drawn {
        next = forget_pair(places, nodes, pair, stay, next);
    }
}

/// Takes the place of one of them out, but where it is the next one that stays. The answer is which one
/// that is after it.
fn forget_pair(
    places: &mut Shelf<Place>,
    nodes: &[NodeAt],
    pair: &(u64, u64),
    stay: &[(u64, u64)],
    next: usize,
) -> usize
    ensures { (rest : List (ℕ × ℕ)) → without_all places.new
        (went (numbers_at nodes.now rest) (numbers_in (drop result stay.now)))
        ≡ without_all places.old
        (went (numbers_at nodes.now (pair.now ∷ rest)) (numbers_in (drop next stay.now))) }
{
    if !is_known(nodes, pair.0) {
        return next;
    }
    if stays(stay, next, pair.1) {
        return next + 1;
    }
    places.remove(pair.1);
    next
}

/// Whether a side knows a node under an index.
fn is_known(nodes: &[NodeAt], index: u64) -> bool
    ensures { result ≡ is_some (slice_get nodes.now index) }
{
    nodes.get(index as usize).is_some()
}

/// Whether the next one that stays has this number.
fn stays(stay: &[(u64, u64)], next: usize, number: u64) -> bool
    ensures is { result ≡ starts (numbers_in (drop next stay.now)) number }
    ensures within { result ≡ true → next < length stay.now }
{
    if next < stay.len() {
        number == stay[next].1
    } else {
        false
    }
}
