//! A mounted tree.

ghost use Rattle.std.specs.Prelude.{◌≡◌, ◌≢◌, ◌++◌, IfOk, None, OnOk, Some};
ghost use Rattle.std.specs.Option.{option_copied};
ghost use Rattle.rt_model.specs.Lists.{or_else};
ghost use Rattle.rt_model.specs.View.{side_view};
ghost use Rattle.run_places.specs.Places.{kind_of, place_of, side_of};
ghost use Rattle.run_places.specs.Sides.{and_child, and_number};
ghost use Rattle.tree_edits.specs.Documents.{forest_of};
ghost use Rattle.rt_tree.specs.Rows.{paired, put_under, rows_given};

use rt_edits::DocNode;
use rt_values::{ElementId, List, OutOfMemory, ScopeId};
use run_places::{Kind, Place, Side, Trail, in_order};
use run_shown::{GivenRows, tree_given};
use std::alloc::Global;
use tree_nodes::{Parts, VNode};

/// A mounted tree, with the number of each of its nodes and the child scope in each of its
/// component slots.
#[derive(Drop)]
pub struct Block<P: Parts> {
    /// The tree, its nodes with their numbers, its components with their child scopes.
    pub(crate) side: Side<P>,
    /// The tree is there.
    pub ghost there: { side.output ≢ None },
}

impl<P: Parts> Block<P> {
    ghost use Rattle.rt_tree.specs.Blocks.{children_of, numbers_of};

    pub fn tree(&self) -> &VNode<P>
        ensures tree { self.now.side.output ≡ Some result.now }
    {
        match &self.side.output {
            Some(tree) => tree,
            None => unreachable!(),
        }
    }

    /// The child scopes of its component slots, in the order of the tree.
    pub fn children(&self, alloc: Global) -> Result<List<ScopeId>, OutOfMemory>
        ensures children { IfOk result (λ children. children ≡ children_of self.now) }
    {
        let count = self.side.seats.as_slice().len();
        let found = in_order(alloc, &self.side.children, count)?;
        let mut children = List::with_room(alloc, count)?;
        for scope in found.as_slice() {
            children.push(ScopeId(or_none(*scope)))?;
        }
        Ok(children)
    }

    /// The numbers of its own nodes, in the order of the tree.
    pub fn numbers(&self, alloc: Global) -> Result<List<ElementId>, OutOfMemory>
        ensures numbers { IfOk result (λ numbers. numbers ≡ numbers_of self.now) }
    {
        let count = self.side.nodes.as_slice().len();
        let found = in_order(alloc, &self.side.numbers, count)?;
        let mut numbers = List::with_room(alloc, count)?;
        for number in found.as_slice() {
            numbers.push(ElementId(or_none(*number)))?;
        }
        Ok(numbers)
    }

    /// What it shows, with the numbers that its nodes have, where `children` are the nodes of each
    /// of its child scopes.
    pub fn nodes(
        &self,
        alloc: Global,
        children: List<List<DocNode>>,
    ) -> Result<List<DocNode>, OutOfMemory>
        ensures nodes { IfOk result (λ nodes. forest_of nodes ≡ side_view
            (λ t. rows_given (children_of self.now) children t) (side_of self.now.side)) }
    {
        let scopes = self.children(alloc)?;
        let given = rows_for(alloc, &scopes, children)?;
        tree_given(alloc, &self.side, &given, self.tree(), &Trail::Root)
    }

    /// A number is drawn for the node at a place.
    pub(crate) fn draw(&mut self, place: &Place, kind: Kind, number: u64) -> Result<(), OutOfMemory>
        ensures drawn { OnOk result (side_of self.new.side
            ≡ and_number (side_of self.old.side) (place_of place.now, kind_of kind, number)) }
        ensures tree { self.new.side.output ≡ self.old.side.output }
    {
        self.side.draw(place, kind, number)?;
        Ok(())
    }

    /// A child scope is made for the component at a place.
    pub(crate) fn seat(&mut self, place: &Place, child: u64) -> Result<(), OutOfMemory>
        ensures seated { OnOk result (side_of self.new.side
            ≡ and_child (side_of self.old.side) (place_of place.now, child)) }
        ensures tree { self.new.side.output ≡ self.old.side.output }
    {
        self.side.seat(place, child)?;
        Ok(())
    }
}

// Rows under the scopes that they are given for, in order.
fn rows_for(
    alloc: Global,
    scopes: &List<ScopeId>,
    rows: List<List<DocNode>>,
) -> Result<GivenRows, OutOfMemory>
    ensures { IfOk result (λ given. given.rows ≡ paired scopes.now rows) }
{
    let mut given = GivenRows::none(alloc);
    for row in rows.into_vec() {
        let count = given.rows.len();
        put_next(&mut given, scopes.get(count), row)?;
    }
    Ok(given)
}

// Puts a row under the next scope, if there is one.
fn put_next(
    given: &mut GivenRows,
    scope: Option<&ScopeId>,
    row: List<DocNode>,
) -> Result<(), OutOfMemory>
    ensures { OnOk result (given.new.rows
        ≡ given.old.rows ++ put_under (option_copied scope.entry) row) }
{
    match scope {
        Some(scope) => given.put(scope.0, row),
        None => Ok(()),
    }
}

// A number, 0 for none.
fn or_none(number: Option<u64>) -> u64
    ensures { result ≡ or_else 0 number }
{
    match number {
        Some(number) => number,
        None => 0,
    }
}
