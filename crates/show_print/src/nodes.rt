//! The text of document nodes.
ghost use Rattle.std.specs.Prelude.{◌≡◌, ◌++◌, OnOk, map};
ghost use Rattle.tree_edits.specs.Documents.{doc_attribute_of, content_of, forest_below, forest_of};
ghost use Rattle.rt_language.specs.Lines.{spaced, attribute_text, listener_text, node_text, node_texts};

use crate::line::Line;
use rt_edits::{DocAttr, DocKind, DocNode};
use rt_values::{OutOfMemory, Text};
use std::alloc::Global;

/// Appends each attribute with a space before it.
fn put_attributes(alloc: Global, line: &mut Line, attributes: &[DocAttr]) -> Result<(), OutOfMemory>
    ensures attributes { OnOk result (line.new
        ≡ line.old ++ spaced (map attribute_text (map doc_attribute_of attributes.now))) }
{
    for attribute in attributes {
        line.byte(b' ')?;
        line.name(&attribute.namespace, &attribute.name)?;
        line.byte(b'=')?;
        line.quoted(alloc, &attribute.value)?;
    }
    Ok(())
}

/// Appends the name of each listener with a space before it.
fn put_listeners(line: &mut Line, listeners: &[Text]) -> Result<(), OutOfMemory>
    ensures listeners { OnOk result (line.new ≡ line.old ++ spaced (map listener_text listeners.now)) }
{
    for name in listeners {
        line.word(" @")?;
        line.word(name.as_str())?;
    }
    Ok(())
}

/// Appends a node of this kind and number.
#[cycle(node)]
fn put_kind(alloc: Global, line: &mut Line, number: u64, kind: &DocKind) -> Result<(), OutOfMemory>
    ensures node { OnOk result (line.new
        ≡ line.old ++ node_text number (content_of kind.now) (node_texts (forest_below kind.now))) }
{
    match kind {
        DocKind::Element {
            tag,
            namespace,
            attrs,
            listeners,
            children,
        } => {
            line.byte(b'(')?;
            line.name(namespace, tag)?;
            line.numbered(number)?;
            put_attributes(alloc, line, attrs.as_slice())?;
            put_listeners(line, listeners.as_slice())?;
            put_nodes(alloc, line, children.as_slice())?;
            line.byte(b')')
        }
        DocKind::Text(text) => {
            line.quoted(alloc, text)?;
            line.numbered(number)
        }
        DocKind::Placeholder => {
            line.byte(b'_')?;
            line.numbered(number)
        }
    }
}

/// Appends each node with a space before it.
#[cycle(node)]
pub(crate) fn put_nodes(
    alloc: Global,
    line: &mut Line,
    nodes: &[DocNode],
) -> Result<(), OutOfMemory>
    ensures nodes { OnOk result (line.new ≡ line.old ++ spaced (node_texts (forest_of nodes.now))) }
{
    for node in nodes {
        line.byte(b' ')?;
        put_kind(alloc, line, node.id.0, &node.kind)?;
    }
    Ok(())
}
