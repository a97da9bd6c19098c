//! Steps and nodes as text: each step after a blank and before `;`, nodes as
//! `(tag#1 name="value" @listener "text"#2 _#3)`, places as `slot.position` of each step, then the
//! path.

use rt_edits::{DocAttr, DocKind, DocNode, Edit};
use rt_tree::{PatchStep, Step};
use rt_values::Text;
use std::alloc::AllocError;
use tree_nodes::Parts;

fn print_attrs(out: &mut String, attrs: &[DocAttr]) -> Result<(), AllocError> {
    for attr in attrs {
        let (name, value) = (attr.name.as_str(), attr.value.as_str());
        write!(out, " {name}=\"{value}\"")?;
    }
    Ok(())
}

fn print_listeners(out: &mut String, listeners: &[Text]) -> Result<(), AllocError> {
    for name in listeners {
        let name = name.as_str();
        write!(out, " @{name}")?;
    }
    Ok(())
}

#[cycle(print)]
fn print_node(out: &mut String, node: &DocNode) -> Result<(), AllocError> {
    let number = node.id.0;
    match &node.kind {
        DocKind::Element {
            tag,
            attrs,
            listeners,
            children,
            ..
        } => {
            let tag = tag.as_str();
            write!(out, "({tag}#{number}")?;
            print_attrs(out, attrs.as_slice())?;
            print_listeners(out, listeners.as_slice())?;
            print_nodes(out, children.as_slice())?;
            out.push_str(")")
        }
        DocKind::Text(text) => {
            let text = text.as_str();
            write!(out, "\"{text}\"#{number}")
        }
        DocKind::Placeholder => write!(out, "_#{number}"),
    }
}

/// Each node after a blank.
#[cycle(print)]
pub(crate) fn print_nodes(out: &mut String, nodes: &[DocNode]) -> Result<(), AllocError> {
    for node in nodes {
        out.push_str(" ")?;
        print_node(out, node)?;
    }
    Ok(())
}

fn print_place(out: &mut String, steps: &[Step], path: &[u8]) -> Result<(), AllocError> {
    for step in steps {
        let (slot, position) = (step.slot, step.position);
        write!(out, " {slot}.{position}")?;
    }
    for index in path {
        let index = *index;
        write!(out, " {index}")?;
    }
    Ok(())
}

fn print_edit(out: &mut String, edit: &Edit) -> Result<(), AllocError> {
    match edit {
        Edit::AppendChildren { id, nodes } => {
            let id = id.0;
            write!(out, "append #{id}")?;
            print_nodes(out, nodes.as_slice())
        }
        Edit::ReplaceNodeWith { id, nodes } => {
            let id = id.0;
            write!(out, "replace #{id}")?;
            print_nodes(out, nodes.as_slice())
        }
        Edit::InsertNodesAfter { id, nodes } => {
            let id = id.0;
            write!(out, "after #{id}")?;
            print_nodes(out, nodes.as_slice())
        }
        Edit::RemoveNode { id } => {
            let id = id.0;
            write!(out, "remove #{id}")
        }
        Edit::SetNodeText { id, text } => {
            let (id, text) = (id.0, text.as_str());
            write!(out, "text #{id} \"{text}\"")
        }
        Edit::SetAttribute {
            id,
            name,
            value,
            ..
        } => {
            let (id, name) = (id.0, name.as_str());
            match value {
                Some(value) => {
                    let value = value.as_str();
                    write!(out, "attr #{id} {name}=\"{value}\"")
                }
                None => write!(out, "attr #{id} {name} none"),
            }
        }
        Edit::CreateEventListener { id, name } => {
            let (id, name) = (id.0, name.as_str());
            write!(out, "listen #{id} {name}")
        }
        Edit::RemoveEventListener { id, name } => {
            let (id, name) = (id.0, name.as_str());
            write!(out, "unlisten #{id} {name}")
        }
    }
}

fn print_words<P: Parts>(out: &mut String, step: &PatchStep<P>) -> Result<(), AllocError> {
    match step {
        PatchStep::Make(_) => out.push_str("make"),
        PatchStep::Feed { scope, .. } => {
            let scope = scope.0;
            write!(out, "feed {scope}")
        }
        PatchStep::Nodes(scope) => {
            let scope = scope.0;
            write!(out, "nodes {scope}")
        }
        PatchStep::Edit(edit) => print_edit(out, edit),
        PatchStep::Remove(scope) => {
            let scope = scope.0;
            write!(out, "remove {scope}")
        }
        PatchStep::Drawn { id, steps, path } => {
            let id = id.0;
            write!(out, "drawn #{id}")?;
            print_place(out, steps.as_slice(), path.as_slice())
        }
        PatchStep::Gone { id } => {
            let id = id.0;
            write!(out, "gone #{id}")
        }
        PatchStep::Done => out.push_str("done"),
    }
}

/// A step.
pub(crate) fn print_step<P: Parts>(
    out: &mut String,
    step: &PatchStep<P>,
) -> Result<(), AllocError> {
    out.push_str(" ")?;
    print_words(out, step)?;
    out.push_str(";")
}
