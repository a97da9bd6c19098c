//! Nodes that were read, written again.
ghost use Rattle.std.specs.Prelude.{◌≡◌, ◌++◌, OnOk};
ghost use Rattle.rt_html.specs.Reading.{plain_below, plain_content, plain_row};
ghost use Rattle.rt_html.specs.Spelling.{html, node_html};

use crate::plain::Plain;
use crate::spelling::{put_closing, put_opening};
use crate::writer::Writer;
use rt_values::OutOfMemory;

/// Appends a node.
#[cycle(again)]
#[tactic(auto, using(crate::proofs::Plains::plain_parts))]
fn put_plain(writer: &mut Writer, node: &Plain) -> Result<(), OutOfMemory>
    ensures node { OnOk result (writer.new
        ≡ writer.old ++ node_html (plain_content node.now) (html (plain_below node.now))) }
{
    match node {
        Plain::Element {
            tag,
            namespace,
            attrs,
            children,
        } => {
            put_opening(writer, namespace, tag, attrs.as_slice())?;
            put_row(writer, children.as_slice())?;
            put_closing(writer, namespace, tag)
        }
        Plain::Text(text) => {
            writer.word("<!--t-->")?;
            writer.escaped(text.as_str())
        }
        Plain::Placeholder => writer.word("<!--p-->"),
    }
}

/// Appends nodes, one after another.
#[cycle(again)]
pub(crate) fn put_row(writer: &mut Writer, nodes: &[Plain]) -> Result<(), OutOfMemory>
    ensures nodes { OnOk result (writer.new ≡ writer.old ++ html (plain_row nodes.now)) }
{
    for node in nodes {
        put_plain(writer, node)?;
    }
    Ok(())
}
