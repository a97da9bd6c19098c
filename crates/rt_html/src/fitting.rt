//! Whether nodes that were read may be read: their names, the order of attributes, their levels.
ghost use Rattle.std.specs.Prelude.{◌≡◌, ◌&&◌, map};
ghost use Rattle.rt_model.specs.Document.{earlier_key, earlier_namespace};
ghost use Rattle.rt_model.specs.Lists.{earlier_text, same_numbers, same_option};
ghost use Rattle.tree_edits.specs.Documents.{doc_attribute_of};
ghost use Rattle.rt_html.specs.Reading as reading;
ghost use Rattle.rt_html.specs.Reading.{attributes_ascend, before_first, plain_below, plain_content, plain_row};
ghost use Rattle.rt_html.specs.Spelling as spelling;

use crate::names::{attributes_namable, is_namespace};
use crate::plain::Plain;
use rt_edits::DocAttr;
use rt_values::{Text, is_name};

/// Whether a text comes before another one, by bytes.
#[tactic(auto, using(crate::proofs::Orders::orders))]
fn is_earlier(text: &Text, other: &Text) -> bool
    ensures { result ≡ earlier_text text.now other.now }
{
    text.as_str().cmp(&other.as_str()).is_lt()
}

/// Whether two texts are the same.
#[tactic(auto, using(crate::proofs::Orders::orders))]
fn is_same(text: &Text, other: &Text) -> bool
    ensures { result ≡ same_numbers text.now other.now }
{
    text.as_str().cmp(&other.as_str()).is_eq()
}

/// Whether a namespace comes before another one: none comes first.
fn is_earlier_namespace(namespace: &Option<Text>, other: &Option<Text>) -> bool
    ensures { result ≡ earlier_namespace namespace.now other.now }
{
    match (namespace, other) {
        (None, None) => false,
        (None, Some(_other)) => true,
        (Some(_namespace), None) => false,
        (Some(namespace), Some(other)) => is_earlier(namespace, other),
    }
}

/// Whether two namespaces are the same.
fn is_same_namespace(namespace: &Option<Text>, other: &Option<Text>) -> bool
    ensures { result ≡ same_option same_numbers namespace.now other.now }
{
    match (namespace, other) {
        (None, None) => true,
        (None, Some(_other)) => false,
        (Some(_namespace), None) => false,
        (Some(namespace), Some(other)) => is_same(namespace, other),
    }
}

/// Whether an attribute comes before another one: by namespace, and then by name.
fn is_before(attr: &DocAttr, other: &DocAttr) -> bool
    ensures { result ≡ earlier_key (doc_attribute_of attr.now) (doc_attribute_of other.now) }
{
    is_earlier_namespace(&attr.namespace, &other.namespace)
        || (is_same_namespace(&attr.namespace, &other.namespace)
            && is_earlier(&attr.name, &other.name))
}

/// Whether an attribute comes before the first of others, where there is one.
fn is_before_first(attr: &DocAttr, later: &[DocAttr]) -> bool
    ensures { result ≡ before_first (doc_attribute_of attr.now)
        (map doc_attribute_of later.now) }
{
    later.is_empty() || is_before(attr, &later[0])
}

/// Whether each attribute comes before the next one.
fn ascend(attrs: &[DocAttr]) -> bool
    ensures { result ≡ reading.ascend (map doc_attribute_of attrs.now) }
{
    for at in 0..attrs.len() {
        if !is_before_first(&attrs[at], &attrs[at + 1..]) {
            return false;
        }
    }
    true
}

/// Whether a node is fit, with at most so many levels below it.
#[cycle(fitting)]
#[tactic(auto, using(crate::proofs::Plains::plain_parts))]
fn is_fit(levels: u32, node: &Plain) -> bool
    ensures { result ≡ (spelling.is_namable (plain_content node.now)
        && (attributes_ascend (plain_content node.now)
        && reading.are_fit levels (plain_below node.now))) }
{
    match node {
        Plain::Element {
            tag,
            namespace,
            attrs,
            children,
        } => {
            is_name(tag.as_str())
                && is_namespace(namespace)
                && attributes_namable(attrs.as_slice())
                && ascend(attrs.as_slice())
                && are_fit(levels, children.as_slice())
        }
        Plain::Text(_text) => true,
        Plain::Placeholder => true,
    }
}

/// Whether nodes are fit, with at most so many levels.
#[cycle(fitting)]
pub(crate) fn are_fit(levels: u32, nodes: &[Plain]) -> bool
    ensures { result ≡ reading.are_fit levels (plain_row nodes.now) }
{
    for node in nodes {
        if levels == 0 {
            return false;
        }
        if !is_fit(levels - 1, node) {
            return false;
        }
    }
    true
}
