//! Who is asked for the nodes of a child scope.

ghost use Rattle.std.specs.Prelude.{◌≡◌, ◌++◌, OnOk};
ghost use Rattle.rt_model.specs.Document.{join_rows};
ghost use Rattle.tree_edits.specs.Documents.{forest_of};
ghost use Rattle.run_shown.specs.Given.{given_to};
ghost use Rattle.run_shown.specs.Tops.{tops_of};

use crate::look::Look;
use rt_edits::DocNode;
use rt_values::{List, OutOfMemory, copy_slice};
use std::alloc::Global;
use tree_nodes::Parts;

/// Rows of nodes that were given, each for a child scope.
#[derive(Drop)]
pub struct GivenRows {
    pub rows: List<(u64, List<DocNode>)>,
}

/// Who is asked.
#[derive(Drop)]
pub(crate) enum Asked<'a, P: Parts> {
    /// A look, which goes at most so many scopes deep.
    Look(&'a Look<'a, P>, u64),
    /// Rows that were given.
    Given(&'a GivenRows),
}

/// Puts the nodes that were given for a scope after the others; none were where it has no row.
pub(crate) fn show_given(
    alloc: Global,
    given: &GivenRows,
    scope: u64,
    row: &mut List<DocNode>,
) -> Result<(), OutOfMemory>
    ensures { OnOk result (forest_of row.new
        ≡ join_rows (forest_of row.old) (given_to given.now scope)) }
{
    for pair in given.rows.as_slice() {
        if pair.0 == scope {
            return add_copies(alloc, pair.1.as_slice(), row);
        }
    }
    Ok(())
}

/// Puts the numbers of the top nodes that were given for a scope after the others.
pub(crate) fn add_given(
    given: &GivenRows,
    scope: u64,
    tops: &mut List<u64>,
) -> Result<(), OutOfMemory>
    ensures { OnOk result (tops.new ≡ tops.old ++ tops_of (given_to given.now scope)) }
{
    for pair in given.rows.as_slice() {
        if pair.0 == scope {
            return add_numbers(pair.1.as_slice(), tops);
        }
    }
    Ok(())
}

// Puts the numbers of nodes after the others.
fn add_numbers(nodes: &[DocNode], tops: &mut List<u64>) -> Result<(), OutOfMemory>
    ensures { OnOk result (tops.new ≡ tops.old ++ tops_of (forest_of nodes.now)) }
{
    for node in nodes {
        tops.push(node.id.0)?;
    }
    Ok(())
}

// Puts copies of nodes after the others.
fn add_copies(alloc: Global, nodes: &[DocNode], row: &mut List<DocNode>) -> Result<(), OutOfMemory>
    ensures { OnOk result (row.new ≡ row.old ++ nodes.now) }
{
    row.append(List::from_vec(copy_slice(alloc, nodes)?))
}
