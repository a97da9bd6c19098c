//! The lines of edits.
ghost use Rattle.std.specs.Prelude.{◌≡◌, ◌++◌, IfOk, OnOk, codes};
ghost use Rattle.tree_edits.specs.Documents.{edit_of, forest_of};
ghost use Rattle.rt_model.specs.Document.{SetAttribute, SetNodeText};
ghost use Rattle.rt_language.specs.Lines.{numbered, value_text, edit_text, node_texts, spaced};
ghost use Rattle.rt_language.specs.Lines as language;

use crate::line::Line;
use crate::nodes::put_nodes;
use rt_edits::{DocNode, Edit};
use rt_values::{List, OutOfMemory, Text};
use std::alloc::Global;

/// The line of an edit.
pub fn edit_line(alloc: Global, edit: &Edit) -> Result<List<u8>, OutOfMemory>
    ensures line { IfOk result (λ line. line ≡ language.line (edit_text (edit_of edit.now))) }
{
    let mut line = Line::with_room(alloc)?;
    put_edit(alloc, &mut line, edit)?;
    line.end()
}

/// Appends an edit.
fn put_edit(alloc: Global, line: &mut Line, edit: &Edit) -> Result<(), OutOfMemory>
    ensures edit { OnOk result (line.new ≡ line.old ++ edit_text (edit_of edit.now)) }
{
    match edit {
        Edit::AppendChildren { id, nodes } => put_forest(alloc, line, "append ", id.0, nodes),
        Edit::ReplaceNodeWith { id, nodes } => put_forest(alloc, line, "replace ", id.0, nodes),
        Edit::InsertNodesAfter { id, nodes } => put_forest(alloc, line, "after ", id.0, nodes),
        Edit::RemoveNode { id } => put_place(line, "remove ", id.0),
        Edit::SetNodeText { id, text } => put_text(alloc, line, id.0, text),
        Edit::SetAttribute {
            id,
            name,
            namespace,
            value,
        } => put_attribute(alloc, line, id.0, name, namespace, value),
        Edit::CreateEventListener { id, name } => put_listener(line, "listen ", id.0, name),
        Edit::RemoveEventListener { id, name } => put_listener(line, "unlisten ", id.0, name),
    }
}

/// The line of an edit that puts nodes somewhere, by its word.
pub(crate) fn forest_line(
    alloc: Global,
    word: &str,
    number: u64,
    nodes: &List<DocNode>,
) -> Result<List<u8>, OutOfMemory>
    ensures line { IfOk result (λ line. line ≡ language.line
        (word.now ++ numbered number ++ spaced (node_texts (forest_of nodes.now)))) }
{
    let mut line = Line::with_room(alloc)?;
    put_forest(alloc, &mut line, word, number, nodes)?;
    line.end()
}

/// The line of an edit that says a number alone, by its word.
pub(crate) fn place_line(alloc: Global, word: &str, number: u64) -> Result<List<u8>, OutOfMemory>
    ensures line { IfOk result (λ line. line ≡ language.line (word.now ++ numbered number)) }
{
    let mut line = Line::with_room(alloc)?;
    put_place(&mut line, word, number)?;
    line.end()
}

/// The line of an edit that gives a text.
pub(crate) fn text_line(alloc: Global, number: u64, text: &Text) -> Result<List<u8>, OutOfMemory>
    ensures line { IfOk result (λ line. line ≡ language.line
        (edit_text (SetNodeText number text.now))) }
{
    let mut line = Line::with_room(alloc)?;
    put_text(alloc, &mut line, number, text)?;
    line.end()
}

/// The line of an edit that sets an attribute or takes it away.
pub(crate) fn attribute_line(
    alloc: Global,
    number: u64,
    name: &Text,
    namespace: &Option<Text>,
    value: &Option<Text>,
) -> Result<List<u8>, OutOfMemory>
    ensures line { IfOk result (λ line. line ≡ language.line
        (edit_text (SetAttribute number name.now namespace.now value.now))) }
{
    let mut line = Line::with_room(alloc)?;
    put_attribute(alloc, &mut line, number, name, namespace, value)?;
    line.end()
}

/// The line of an edit that begins or ends to listen, by its word.
pub(crate) fn listener_line(
    alloc: Global,
    word: &str,
    number: u64,
    name: &Text,
) -> Result<List<u8>, OutOfMemory>
    ensures line { IfOk result (λ line. line ≡ language.line
        (word.now ++ numbered number ++ codes " " ++ name.now)) }
{
    let mut line = Line::with_room(alloc)?;
    put_listener(&mut line, word, number, name)?;
    line.end()
}

/// Appends the word of an edit, the node that it names, and the nodes that it puts there.
fn put_forest(
    alloc: Global,
    line: &mut Line,
    word: &str,
    number: u64,
    nodes: &List<DocNode>,
) -> Result<(), OutOfMemory>
    ensures edit { OnOk result (line.new
        ≡ line.old ++ (word.now ++ numbered number ++ spaced (node_texts (forest_of nodes.now)))) }
{
    put_place(line, word, number)?;
    put_nodes(alloc, line, nodes.as_slice())
}

/// Appends what gives a node a text.
fn put_text(alloc: Global, line: &mut Line, number: u64, text: &Text) -> Result<(), OutOfMemory>
    ensures edit { OnOk result (line.new
        ≡ line.old ++ edit_text (SetNodeText number text.now)) }
{
    put_place(line, "text ", number)?;
    line.byte(b' ')?;
    line.quoted(alloc, text)
}

/// Appends what sets an attribute or takes it away.
fn put_attribute(
    alloc: Global,
    line: &mut Line,
    number: u64,
    name: &Text,
    namespace: &Option<Text>,
    value: &Option<Text>,
) -> Result<(), OutOfMemory>
    ensures edit { OnOk result (line.new
        ≡ line.old ++ edit_text (SetAttribute number name.now namespace.now value.now)) }
{
    put_place(line, "attr ", number)?;
    line.byte(b' ')?;
    line.name(namespace, name)?;
    put_value(alloc, line, value)
}

/// Appends the word of an edit, the node that it names, and the name of a listener.
fn put_listener(line: &mut Line, word: &str, number: u64, name: &Text) -> Result<(), OutOfMemory>
    ensures edit { OnOk result (line.new
        ≡ line.old ++ (word.now ++ numbered number ++ codes " " ++ name.now)) }
{
    put_place(line, word, number)?;
    line.byte(b' ')?;
    line.word(name.as_str())
}

/// Appends the word of an edit, and the node that it names.
fn put_place(line: &mut Line, word: &str, number: u64) -> Result<(), OutOfMemory>
    ensures place { OnOk result (line.new ≡ line.old ++ (word.now ++ numbered number)) }
{
    line.word(word)?;
    line.numbered(number)
}

/// Appends what an attribute becomes.
fn put_value(alloc: Global, line: &mut Line, value: &Option<Text>) -> Result<(), OutOfMemory>
    ensures value { OnOk result (line.new ≡ line.old ++ value_text value.now) }
{
    match value {
        Some(value) => {
            line.byte(b'=')?;
            line.quoted(alloc, value)
        }
        None => line.word(" none"),
    }
}
