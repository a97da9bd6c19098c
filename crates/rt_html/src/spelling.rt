//! Nodes in HTML, each with all that stands below it.
ghost use Rattle.std.specs.Prelude.{◌≡◌, ◌++◌, ◌↔◌, map, false, OnOk, IfOk, IsErrOf};
ghost use Rattle.std.specs.List.{flat_map};
ghost use Rattle.tree_edits.specs.Documents.{content_of, doc_attribute_of, forest_below, forest_of};
ghost use Rattle.rt_html.specs.Spelling as spelling;
ghost use Rattle.rt_html.specs.Spelling.{attribute_html, closing, node_html, opening};

use crate::error::HtmlError;
use crate::names::are_namable;
use crate::writer::Writer;
use rt_edits::{DocAttr, DocKind, DocNode};
use rt_values::{OutOfMemory, Text};
use std::alloc::Global;

/// Appends attributes.
fn put_attributes(writer: &mut Writer, attributes: &[DocAttr]) -> Result<(), OutOfMemory>
    ensures { OnOk result (writer.new
        ≡ writer.old ++ flat_map attribute_html (map doc_attribute_of attributes.now)) }
{
    for attribute in attributes {
        writer.word(" ")?;
        writer.name(&attribute.namespace, &attribute.name)?;
        writer.word("=\"")?;
        writer.escaped(attribute.value.as_str())?;
        writer.word("\"")?;
    }
    Ok(())
}

/// Appends how an element begins.
pub(crate) fn put_opening(
    writer: &mut Writer,
    namespace: &Option<Text>,
    tag: &Text,
    attributes: &[DocAttr],
) -> Result<(), OutOfMemory>
    ensures { OnOk result (writer.new
        ≡ writer.old ++ opening namespace.now tag.now (map doc_attribute_of attributes.now)) }
{
    writer.word("<")?;
    writer.name(namespace, tag)?;
    put_attributes(writer, attributes)?;
    writer.word(">")
}

/// Appends how an element ends.
pub(crate) fn put_closing(
    writer: &mut Writer,
    namespace: &Option<Text>,
    tag: &Text,
) -> Result<(), OutOfMemory>
    ensures { OnOk result (writer.new ≡ writer.old ++ closing namespace.now tag.now) }
{
    writer.word("</")?;
    writer.name(namespace, tag)?;
    writer.word(">")
}

/// Appends a node.
#[cycle(spelt)]
#[tactic(auto, using(tree_documents::proofs::Nodes::node_parts))]
fn put_kind(writer: &mut Writer, kind: &DocKind) -> Result<(), OutOfMemory>
    ensures node { OnOk result (writer.new
        ≡ writer.old ++ node_html (content_of kind.now) (spelling.html (forest_below kind.now))) }
{
    match kind {
        DocKind::Element {
            tag,
            namespace,
            attrs,
            listeners: _,
            children,
        } => {
            put_opening(writer, namespace, tag, attrs.as_slice())?;
            put_nodes(writer, children.as_slice())?;
            put_closing(writer, namespace, tag)
        }
        DocKind::Text(text) => {
            writer.word("<!--t-->")?;
            writer.escaped(text.as_str())
        }
        DocKind::Placeholder => writer.word("<!--p-->"),
    }
}

/// Appends nodes, one after another.
#[cycle(spelt)]
pub(crate) fn put_nodes(writer: &mut Writer, nodes: &[DocNode]) -> Result<(), OutOfMemory>
    ensures nodes { OnOk result (writer.new ≡ writer.old ++ spelling.html (forest_of nodes.now)) }
{
    for node in nodes {
        put_kind(writer, &node.kind)?;
    }
    Ok(())
}

/// Nodes in HTML, without their numbers and listeners.
pub fn write_html(alloc: Global, nodes: &[DocNode]) -> Result<Text, HtmlError>
    ensures html { IfOk result (λ text. text ≡ spelling.html (forest_of nodes.now)) }
    ensures bad_name { IsErrOf result HtmlError.BadName
        ↔ (spelling.are_namable (forest_of nodes.now) ≡ false) }
{
    if !are_namable(nodes) {
        return Err(HtmlError::BadName);
    }
    let mut writer = Writer::new(alloc);
    put_nodes(&mut writer, nodes)?;
    Ok(writer.into_text())
}
