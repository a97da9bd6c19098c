//! The lines of edits.
ghost use Rattle.std.specs.Prelude.{◌≡◌, ◌++◌, ◌∷◌, [], IfOk, OnOk, codes, decimal};
ghost use Rattle.json.specs.Tree.{json_tokens};
ghost use Rattle.json.specs.Token.{begin_object, key, number, string};
ghost use Rattle.rt_model.specs.Document.{RemoveNode, SetAttribute, SetNodeText};
ghost use Rattle.show_answers.specs.Told.{ToldEdit};
ghost use Rattle.show_objects.specs.Objects.{edit_json, forest_json, listener_json, object_form};
ghost use Rattle.tree_edits.specs.Documents.{edit_of, forest_of};

use crate::nodes::put_nodes;
use crate::object::Object;
use rt_edits::{DocNode, Edit};
use rt_values::{List, OutOfMemory, Text};
use std::alloc::Global;

/// The line of an edit.
pub fn edit_object(alloc: Global, edit: &Edit) -> Result<List<u8>, OutOfMemory>
    ensures line { IfOk result (λ line. line ≡ object_form (ToldEdit (edit_of edit.now))) }
{
    let mut object = Object::new(alloc);
    put_edit(&mut object, edit)?;
    object.end()
}

/// Appends an edit.
fn put_edit(object: &mut Object, edit: &Edit) -> Result<(), OutOfMemory>
    ensures edit { OnOk result (object.new
        ≡ object.old ++ json_tokens (edit_json (edit_of edit.now))) }
{
    match edit {
        Edit::AppendChildren { id, nodes } => put_forest(object, "append", id.0, nodes),
        Edit::ReplaceNodeWith { id, nodes } => put_forest(object, "replace", id.0, nodes),
        Edit::InsertNodesAfter { id, nodes } => put_forest(object, "after", id.0, nodes),
        Edit::RemoveNode { id } => put_removal(object, id.0),
        Edit::SetNodeText { id, text } => put_text(object, id.0, text),
        Edit::SetAttribute {
            id,
            name,
            namespace,
            value,
        } => put_attribute(object, id.0, name, namespace, value),
        Edit::CreateEventListener { id, name } => put_listener(object, "listen", id.0, name),
        Edit::RemoveEventListener { id, name } => put_listener(object, "unlisten", id.0, name),
    }
}

/// Begins the object of an edit: its word, and the number of the node that it names.
fn begin_edit(object: &mut Object, word: &str, id: u64) -> Result<(), OutOfMemory>
    ensures begins { OnOk result (object.new ≡ object.old
        ++ begin_object ∷ key (codes "edit") ∷ string word.now ∷ key (codes "id")
        ∷ number (decimal id) ∷ []) }
{
    object.begin()?;
    object.worded("edit", word)?;
    object.counted("id", id)
}

/// Appends an edit that puts nodes somewhere.
fn put_forest(
    object: &mut Object,
    word: &str,
    id: u64,
    nodes: &List<DocNode>,
) -> Result<(), OutOfMemory>
    ensures edit { OnOk result (object.new
        ≡ object.old ++ json_tokens (forest_json word.now id (forest_of nodes.now))) }
{
    begin_edit(object, word, id)?;
    object.key("nodes")?;
    put_nodes(object, nodes.as_slice())?;
    object.close()
}

/// Appends an edit that takes a node away.
fn put_removal(object: &mut Object, id: u64) -> Result<(), OutOfMemory>
    ensures edit { OnOk result (object.new
        ≡ object.old ++ json_tokens (edit_json (RemoveNode id))) }
{
    begin_edit(object, "remove", id)?;
    object.close()
}

/// Appends what gives a node a text.
fn put_text(object: &mut Object, id: u64, text: &Text) -> Result<(), OutOfMemory>
    ensures edit { OnOk result (object.new
        ≡ object.old ++ json_tokens (edit_json (SetNodeText id text.now))) }
{
    begin_edit(object, "text", id)?;
    object.worded("text", text.as_str())?;
    object.close()
}

/// Appends what sets an attribute or takes it away.
fn put_attribute(
    object: &mut Object,
    id: u64,
    name: &Text,
    namespace: &Option<Text>,
    value: &Option<Text>,
) -> Result<(), OutOfMemory>
    ensures edit { OnOk result (object.new ≡ object.old
        ++ json_tokens (edit_json (SetAttribute id name.now namespace.now value.now))) }
{
    begin_edit(object, "attr", id)?;
    object.worded("name", name.as_str())?;
    object.maybe("ns", namespace)?;
    object.maybe("value", value)?;
    object.close()
}

/// Appends an edit of a listener.
fn put_listener(object: &mut Object, word: &str, id: u64, name: &Text) -> Result<(), OutOfMemory>
    ensures edit { OnOk result (object.new
        ≡ object.old ++ json_tokens (listener_json word.now id name.now)) }
{
    begin_edit(object, word, id)?;
    object.worded("name", name.as_str())?;
    object.close()
}
