//! The objects of document nodes.
ghost use Rattle.std.specs.Prelude.{◌≡◌, ◌++◌, OnOk, map};
ghost use Rattle.json.specs.Json.{array};
ghost use Rattle.json.specs.Tree.{json_tokens};
ghost use Rattle.tree_edits.specs.Documents.{content_of, doc_attribute_of, forest_below, forest_of};
ghost use Rattle.show_objects.specs.Objects.{attribute_items, attribute_json, name_items, node_items, node_json};

use crate::object::Object;
use rt_edits::{DocAttr, DocKind, DocNode};
use rt_values::{OutOfMemory, Text};

/// Appends an attribute.
fn put_attribute(object: &mut Object, attribute: &DocAttr) -> Result<(), OutOfMemory>
    ensures attribute { OnOk result (object.new
        ≡ object.old ++ json_tokens (attribute_json (doc_attribute_of attribute.now))) }
{
    object.begin()?;
    object.worded("name", attribute.name.as_str())?;
    object.maybe("ns", &attribute.namespace)?;
    object.worded("value", attribute.value.as_str())?;
    object.close()
}

/// Appends a list of attributes.
fn put_attributes(object: &mut Object, attributes: &[DocAttr]) -> Result<(), OutOfMemory>
    ensures attributes { OnOk result (object.new ≡ object.old
        ++ json_tokens (array (attribute_items (map doc_attribute_of attributes.now)))) }
{
    object.begin_list()?;
    for attribute in attributes {
        put_attribute(object, attribute)?;
    }
    object.close_list()
}

/// Appends a list of the names of listeners.
fn put_listeners(object: &mut Object, listeners: &[Text]) -> Result<(), OutOfMemory>
    ensures listeners { OnOk result (object.new
        ≡ object.old ++ json_tokens (array (name_items listeners.now))) }
{
    object.begin_list()?;
    for name in listeners {
        object.text(name.as_str())?;
    }
    object.close_list()
}

/// Appends a node of this kind and number.
#[cycle(node)]
fn put_kind(object: &mut Object, id: u64, kind: &DocKind) -> Result<(), OutOfMemory>
    ensures node { OnOk result (object.new ≡ object.old
        ++ json_tokens (node_json id (content_of kind.now) (node_items (forest_below kind.now)))) }
{
    object.begin()?;
    match kind {
        DocKind::Element {
            tag,
            namespace,
            attrs,
            listeners,
            children,
        } => {
            object.worded("el", tag.as_str())?;
            object.maybe("ns", namespace)?;
            object.counted("id", id)?;
            object.key("attrs")?;
            put_attributes(object, attrs.as_slice())?;
            object.key("on")?;
            put_listeners(object, listeners.as_slice())?;
            object.key("kids")?;
            put_nodes(object, children.as_slice())?;
            object.close()
        }
        DocKind::Text(text) => {
            object.worded("text", text.as_str())?;
            object.counted("id", id)?;
            object.close()
        }
        DocKind::Placeholder => {
            object.flag("hole", true)?;
            object.counted("id", id)?;
            object.close()
        }
    }
}

/// Appends a list of nodes.
#[cycle(node)]
pub(crate) fn put_nodes(object: &mut Object, nodes: &[DocNode]) -> Result<(), OutOfMemory>
    ensures nodes { OnOk result (object.new
        ≡ object.old ++ json_tokens (array (node_items (forest_of nodes.now)))) }
{
    object.begin_list()?;
    for node in nodes {
        put_kind(object, node.id.0, &node.kind)?;
    }
    object.close_list()
}
