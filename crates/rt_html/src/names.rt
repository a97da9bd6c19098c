//! Which nodes can be spelt: names are looked at before a byte is written.
ghost use Rattle.std.specs.Prelude.{◌≡◌, ◌&&◌, map};
ghost use Rattle.tree_edits.specs.Documents.{content_of, doc_attribute_of, forest_below, forest_of};
ghost use Rattle.rt_html.specs.Spelling as spelling;

use rt_edits::{DocAttr, DocKind, DocNode};
use rt_values::{Text, is_name};

/// Whether a namespace is a name, where there is one.
pub(crate) fn is_namespace(namespace: &Option<Text>) -> bool
    ensures { result ≡ spelling.is_namespace namespace.now }
{
    match namespace {
        None => true,
        Some(namespace) => is_name(namespace.as_str()),
    }
}

/// Whether the names and namespaces of attributes can be spelt.
pub(crate) fn attributes_namable(attributes: &[DocAttr]) -> bool
    ensures { result ≡ spelling.attributes_namable (map doc_attribute_of attributes.now) }
{
    for attribute in attributes {
        if !(is_name(attribute.name.as_str()) && is_namespace(&attribute.namespace)) {
            return false;
        }
    }
    true
}

/// Whether the names of a node, and of all that stands below it, can be spelt.
#[cycle(namable)]
#[tactic(auto, using(tree_documents::proofs::Nodes::node_parts))]
fn is_namable(kind: &DocKind) -> bool
    ensures { result ≡ (spelling.is_namable (content_of kind.now)
        && spelling.are_namable (forest_below kind.now)) }
{
    match kind {
        DocKind::Element {
            tag,
            namespace,
            attrs,
            listeners: _,
            children,
        } => {
            is_name(tag.as_str())
                && is_namespace(namespace)
                && attributes_namable(attrs.as_slice())
                && are_namable(children.as_slice())
        }
        DocKind::Text(_text) => true,
        DocKind::Placeholder => true,
    }
}

/// Whether the names of nodes, with all that stands below them, can be spelt: each tag, name and
/// namespace has at least one byte, and ASCII letters, digits, `-` and `_` alone.
#[cycle(namable)]
pub fn are_namable(nodes: &[DocNode]) -> bool
    ensures namable { result ≡ spelling.are_namable (forest_of nodes.now) }
{
    for node in nodes {
        if !is_namable(&node.kind) {
            return false;
        }
    }
    true
}
