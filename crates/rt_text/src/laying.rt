//! The nodes of a document written to lines, each with all that stands below it.
ghost use Rattle.std.specs.Prelude.{◌≡◌, OnOk};
ghost use Rattle.tree_edits.specs.Documents.{content_of, forest_below, forest_of};
ghost use Rattle.rt_text.specs.Layout.{before, after, laid};

use crate::lines::Writer;
use rt_edits::{DocKind, DocNode};
use rt_values::OutOfMemory;
use std::alloc::Global;

/// Writes a node.
#[cycle(laying)]
#[tactic(auto, using(tree_documents::proofs::Nodes::node_parts))]
fn lay(alloc: Global, width: usize, writer: &mut Writer, kind: &DocKind) -> Result<(), OutOfMemory>
    ensures laid { OnOk result (writer.new ≡ after (content_of kind.now)
        (laid width (forest_below kind.now) (before width (content_of kind.now) writer.old))) }
{
    match kind {
        DocKind::Element {
            tag,
            namespace: _,
            attrs: _,
            listeners: _,
            children,
        } => {
            writer.begin(alloc, tag)?;
            lay_all(alloc, width, writer, children.as_slice())?;
            writer.end(alloc, tag)
        }
        DocKind::Text(text) => writer.write(alloc, width, text),
        DocKind::Placeholder => Ok(()),
    }
}

/// Writes nodes one after another.
#[cycle(laying)]
pub(crate) fn lay_all(
    alloc: Global,
    width: usize,
    writer: &mut Writer,
    nodes: &[DocNode],
) -> Result<(), OutOfMemory>
    ensures laid { OnOk result (writer.new ≡ laid width (forest_of nodes.now) writer.old) }
{
    for node in nodes {
        lay(alloc, width, writer, &node.kind)?;
    }
    Ok(())
}
