//! An edit made in place: the node that it names is sought from the roots down, and what stands
//! there is changed.
ghost use Rattle.std.specs.Prelude.{◌≡◌, ◌<◌, ◌++◌, [], ◌∷◌, take, drop, vec_len, OnOk, OnErr};
ghost use Rattle.rt_edits.specs.Nodes.{numbers, numbers_below, has, changed, changed_below};
ghost use Rattle.rt_edits.specs.Document.{within, kind_after, node_after, instead, valued};
ghost use Rattle.rt_edits.specs.Ordered.{text_order, put_in, taken_out};
ghost use Rattle.rt_edits.specs.Changing.{with_first, Changes, ChangesBelow};
ghost use Rattle.rt_edits.specs.declared.edit.Edit.TheVariants as edits;

use crate::doc_node::{DocAttr, DocKind, DocNode};
use crate::edit::Edit;
use crate::ordered::{put_attribute, put_listener, take_attribute, take_listener};
use rt_values::{List, OutOfMemory, Text};
use std::mem;

/// Gives an element more children, after its own.
#[tactic(auto, using(crate::proofs::Rows::parts))]
fn append_to(kind: DocKind, more: List<DocNode>) -> (DocKind, Result<(), OutOfMemory>)
    ensures ok { OnOk result.1 (result.0 ≡
        within (λ parts. record parts { children = parts.children ++ more }) kind) }
    ensures err { OnErr result.1 (result.0 ≡ kind) }
{
    match kind {
        DocKind::Element {
            tag,
            namespace,
            attrs,
            listeners,
            mut children,
        } => {
            let done = children.append(more);
            let kind = DocKind::Element {
                tag,
                namespace,
                attrs,
                listeners,
                children,
            };
            (kind, done)
        }
        DocKind::Text(text) => (DocKind::Text(text), Ok(())),
        DocKind::Placeholder => (DocKind::Placeholder, Ok(())),
    }
}

/// Gives an attribute a value among others, or takes it away.
fn set_among(
    attrs: List<DocAttr>,
    name: Text,
    namespace: Option<Text>,
    value: Option<Text>,
) -> (List<DocAttr>, Result<(), OutOfMemory>)
    ensures ok { OnOk result.1 (result.0 ≡ valued name namespace value attrs) }
    ensures err { OnErr result.1 (result.0 ≡ attrs) }
{
    let mut attrs = attrs.into_vec();
    match value {
        Some(value) => {
            let attr = DocAttr {
                name,
                namespace,
                value,
            };
            let done = put_attribute(&mut attrs, attr);
            (List::from_vec(attrs), done)
        }
        None => {
            take_attribute(&mut attrs, &name, &namespace);
            (List::from_vec(attrs), Ok(()))
        }
    }
}

/// Gives an element's attribute a value, or takes it away.
#[tactic(auto, using(crate::proofs::Rows::parts))]
fn set_attribute_of(
    kind: DocKind,
    name: Text,
    namespace: Option<Text>,
    value: Option<Text>,
) -> (DocKind, Result<(), OutOfMemory>)
    ensures ok { OnOk result.1 (result.0 ≡
        within (λ parts. record parts { attrs = valued name namespace value parts.attrs }) kind) }
    ensures err { OnErr result.1 (result.0 ≡ kind) }
{
    match kind {
        DocKind::Element {
            tag,
            namespace: own,
            attrs,
            listeners,
            children,
        } => {
            let (attrs, done) = set_among(attrs, name, namespace, value);
            let kind = DocKind::Element {
                tag,
                namespace: own,
                attrs,
                listeners,
                children,
            };
            (kind, done)
        }
        DocKind::Text(text) => (DocKind::Text(text), Ok(())),
        DocKind::Placeholder => (DocKind::Placeholder, Ok(())),
    }
}

/// Makes an element listen to events of a name.
#[tactic(auto, using(crate::proofs::Rows::parts))]
fn listen_to(kind: DocKind, name: Text) -> (DocKind, Result<(), OutOfMemory>)
    ensures ok { OnOk result.1 (result.0 ≡ within (λ parts.
        record parts { listeners = put_in (text_order name) name parts.listeners }) kind) }
    ensures err { OnErr result.1 (result.0 ≡ kind) }
{
    match kind {
        DocKind::Element {
            tag,
            namespace,
            attrs,
            listeners,
            children,
        } => {
            let mut listeners = listeners.into_vec();
            let done = put_listener(&mut listeners, name);
            let kind = DocKind::Element {
                tag,
                namespace,
                attrs,
                listeners: List::from_vec(listeners),
                children,
            };
            (kind, done)
        }
        DocKind::Text(text) => (DocKind::Text(text), Ok(())),
        DocKind::Placeholder => (DocKind::Placeholder, Ok(())),
    }
}

/// Makes an element listen to events of a name no more.
#[tactic(auto, using(crate::proofs::Rows::parts))]
fn listen_no_more(kind: DocKind, name: &Text) -> DocKind
    ensures kind { result ≡ within (λ parts.
        record parts { listeners = taken_out (text_order name.now) parts.listeners }) kind }
{
    match kind {
        DocKind::Element {
            tag,
            namespace,
            attrs,
            listeners,
            children,
        } => {
            let mut listeners = listeners.into_vec();
            take_listener(&mut listeners, name);
            DocKind::Element {
                tag,
                namespace,
                attrs,
                listeners: List::from_vec(listeners),
                children,
            }
        }
        DocKind::Text(text) => DocKind::Text(text),
        DocKind::Placeholder => DocKind::Placeholder,
    }
}

/// Makes an edit of a node itself.
fn edit_kind(kind: DocKind, edit: Edit) -> (DocKind, Result<(), OutOfMemory>)
    ensures ok { OnOk result.1 (result.0 ≡ kind_after edit kind) }
    ensures err { OnErr result.1 (result.0 ≡ kind) }
{
    match edit {
        Edit::AppendChildren { nodes, .. } => append_to(kind, nodes),
        Edit::ReplaceNodeWith { .. } => (kind, Ok(())),
        Edit::InsertNodesAfter { .. } => (kind, Ok(())),
        Edit::RemoveNode { .. } => (kind, Ok(())),
        Edit::SetNodeText { text, .. } => (DocKind::Text(text), Ok(())),
        Edit::SetAttribute {
            name,
            namespace,
            value,
            ..
        } => set_attribute_of(kind, name, namespace, value),
        Edit::CreateEventListener { name, .. } => listen_to(kind, name),
        Edit::RemoveEventListener { name, .. } => (listen_no_more(kind, &name), Ok(())),
    }
}

/// Makes an edit of a node itself, in its place.
fn edit_node(node: &mut DocNode, edit: Edit) -> Result<(), OutOfMemory>
    ensures ok { OnOk result (node.new ≡ node_after edit node.old) }
    ensures err { OnErr result (node.new ≡ node.old) }
{
    let kind = mem::replace(&mut node.kind, DocKind::Placeholder);
    let (kind, done) = edit_kind(kind, edit);
    node.kind = kind;
    done
}

/// Makes an edit of the node at an index.
#[tactic(auto, using(crate::proofs::Found::at_place))]
fn edit_at(row: &mut Vec<DocNode>, at: usize, edit: Edit) -> Result<(), OutOfMemory>
    requires within { at < vec_len row.old }
    ensures ok { OnOk result (row.new.items ≡ take at row.old.items ++
        with_first (λ node. node_after edit node ∷ []) (drop at row.old.items)) }
    ensures err { OnErr result (row.new.items ≡ row.old.items) }
{
    edit_node(&mut row[at], edit)?;
    Ok(())
}

/// Takes the node at an index away.
#[tactic(auto, using(crate::proofs::Found::remove_at))]
fn remove_at(row: &mut Vec<DocNode>, at: usize)
    requires within { at < vec_len row.old }
    ensures removed { row.new.items ≡ take at row.old.items ++
        with_first (λ node. []) (drop at row.old.items) }
{
    row.remove(at);
}

/// Puts nodes in the place of the one at an index.
#[tactic(auto, using(crate::proofs::Found::at_place))]
fn replace_at(row: &mut Vec<DocNode>, at: usize, nodes: List<DocNode>) -> Result<(), OutOfMemory>
    requires within { at < vec_len row.old }
    ensures ok { OnOk result (row.new.items ≡ take at row.old.items ++
        with_first (λ node. nodes) (drop at row.old.items)) }
    ensures err { OnErr result (row.new.items ≡ row.old.items) }
{
    row.splice(at..at + 1, nodes.into_vec())?;
    Ok(())
}

/// Puts nodes after the one at an index.
#[tactic(auto, using(crate::proofs::Found::at_place))]
fn insert_after(row: &mut Vec<DocNode>, at: usize, nodes: List<DocNode>) -> Result<(), OutOfMemory>
    requires within { at < vec_len row.old }
    ensures ok { OnOk result (row.new.items ≡ take at row.old.items ++
        with_first (λ node. node ∷ nodes) (drop at row.old.items)) }
    ensures err { OnErr result (row.new.items ≡ row.old.items) }
{
    row.splice(at + 1..at + 1, nodes.into_vec())?;
    Ok(())
}

/// Makes an edit of the node at an index.
fn change_at(row: &mut Vec<DocNode>, at: usize, edit: Edit) -> Result<(), OutOfMemory>
    requires within { at < vec_len row.old }
    ensures ok { OnOk result (row.new.items ≡ take at row.old.items ++
        with_first (instead edit) (drop at row.old.items)) }
    ensures err { OnErr result (row.new.items ≡ row.old.items) }
{
    match edit {
        Edit::AppendChildren { id, nodes } => edit_at(row, at, Edit::AppendChildren { id, nodes }),
        Edit::ReplaceNodeWith { nodes, .. } => replace_at(row, at, nodes),
        Edit::InsertNodesAfter { nodes, .. } => insert_after(row, at, nodes),
        Edit::RemoveNode { .. } => {
            remove_at(row, at);
            Ok(())
        }
        Edit::SetNodeText { id, text } => edit_at(row, at, Edit::SetNodeText { id, text }),
        Edit::SetAttribute {
            id,
            name,
            namespace,
            value,
        } => edit_at(
            row,
            at,
            Edit::SetAttribute {
                id,
                name,
                namespace,
                value,
            },
        ),
        Edit::CreateEventListener { id, name } => {
            edit_at(row, at, Edit::CreateEventListener { id, name })
        }
        Edit::RemoveEventListener { id, name } => {
            edit_at(row, at, Edit::RemoveEventListener { id, name })
        }
    }
}

#[cycle(change)]
#[tactic(auto, using(crate::proofs::Rows::kinds))]
fn change_kind(
    kind: DocKind,
    number: u64,
    edit: Edit,
) -> (DocKind, Result<Option<Edit>, OutOfMemory>)
    ensures changes { ChangesBelow number edit kind result.0 result.1 }
{
    match kind {
        DocKind::Element {
            tag,
            namespace,
            attrs,
            listeners,
            children,
        } => {
            let mut children = children.into_vec();
            let done = change_row(&mut children, number, edit);
            let kind = DocKind::Element {
                tag,
                namespace,
                attrs,
                listeners,
                children: List::from_vec(children),
            };
            (kind, done)
        }
        DocKind::Text(text) => (DocKind::Text(text), Ok(Some(edit))),
        DocKind::Placeholder => (DocKind::Placeholder, Ok(Some(edit))),
    }
}

#[cycle(change)]
fn change_below(node: &mut DocNode, number: u64, edit: Edit) -> Result<Option<Edit>, OutOfMemory>
    ensures id { node.new.id ≡ node.old.id }
    ensures changes { ChangesBelow number edit node.old.kind node.new.kind result }
{
    let kind = mem::replace(&mut node.kind, DocKind::Placeholder);
    let (kind, done) = change_kind(kind, number, edit);
    node.kind = kind;
    done
}

/// Makes an edit of the first node of a number, or hands the edit back where there is none.
#[cycle(change)]
#[tactic(auto, using(crate::proofs::Found::at_place))]
pub fn change_row(
    row: &mut Vec<DocNode>,
    number: u64,
    edit: Edit,
) -> Result<Option<Edit>, OutOfMemory>
    ensures changes { Changes number edit row.old.items row.new.items result }
{
    let mut edit = edit;
    for at in 0..row.len() {
        if row[at].id.0 == number {
            change_at(row, at, edit)?;
            return Ok(None);
        }
        match change_below(&mut row[at], number, edit)? {
            None => return Ok(None),
            Some(back) => edit = back,
        }
    }
    Ok(Some(edit))
}
