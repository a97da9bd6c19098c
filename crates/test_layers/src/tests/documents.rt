//! The document and the sinks: refused edits, thousands of edits, and a sink that fails.

use rt_tree::{DocFault, DocKind, DocNode, Document, Edit, ElementId, FailingMutations, SinkError};
use rt_values::{List, OutOfMemory, Text};
use std::alloc::Global;
use std::test::Fail;

fn text(alloc: Global) -> Result<Text, OutOfMemory> {
    Text::from_str(alloc, "onclick")
}

/// A text with this number.
fn one(alloc: Global, number: u64) -> Result<List<DocNode>, OutOfMemory> {
    let id = ElementId(number);
    let kind = DocKind::Text(text(alloc)?);
    let mut nodes = List::new(alloc);
    nodes.push(DocNode { id, kind })?;
    Ok(nodes)
}

/// Element 1 with text 2 in it.
fn element(alloc: Global) -> Result<Edit, OutOfMemory> {
    let kind = DocKind::Element {
        tag: text(alloc)?,
        namespace: None,
        attrs: List::new(alloc),
        listeners: List::new(alloc),
        children: one(alloc, 2)?,
    };
    let mut nodes = List::new(alloc);
    let id = ElementId(1);
    nodes.push(DocNode { id, kind })?;
    let id = ElementId(0);
    Ok(Edit::AppendChildren { id, nodes })
}

/// An edit of a node, which may carry a text with a number.
fn edit(alloc: Global, kind: usize, node: u64, number: u64) -> Result<Edit, OutOfMemory> {
    let id = ElementId(node);
    Ok(match kind {
        0 => Edit::AppendChildren {
            id,
            nodes: one(alloc, number)?,
        },
        1 => Edit::ReplaceNodeWith {
            id,
            nodes: one(alloc, number)?,
        },
        2 => Edit::InsertNodesAfter {
            id,
            nodes: one(alloc, number)?,
        },
        3 => Edit::RemoveNode { id },
        4 => Edit::SetNodeText {
            id,
            text: text(alloc)?,
        },
        5 => Edit::SetAttribute {
            id,
            name: text(alloc)?,
            namespace: None,
            value: None,
        },
        6 => Edit::CreateEventListener {
            id,
            name: text(alloc)?,
        },
        _ => Edit::RemoveEventListener {
            id,
            name: text(alloc)?,
        },
    })
}

/// Edits of that document, by kind, node and number, each with its fault.
static REFUSED: [(usize, u64, u64, DocFault); 6] = [
    (3, 9, 0, DocFault::UnknownId),
    (4, 1, 0, DocFault::WrongKind),
    (1, 0, 3, DocFault::WrongKind),
    (0, 1, 2, DocFault::RepeatedId),
    (0, 2, 3, DocFault::WrongKind),
    (7, 1, 0, DocFault::WrongKind),
];

#[test]
fn refused_edits_have_their_faults(rt: HostRuntime) -> Result<(), Fail> {
    let alloc = rt.alloc();
    let mut document = Document::empty(alloc);
    assert!(rt; document.apply(alloc, &element(alloc)?).is_ok());
    for (kind, node, number, fault) in &REFUSED {
        let edit = edit(alloc, *kind, *node, *number)?;
        assert_eq!(rt; document.apply(alloc, &edit), Err(*fault), "{kind} {node}");
    }
    Ok(())
}

#[test]
fn thousands_of_edits_are_made(rt: HostRuntime) -> Result<(), Fail> {
    let alloc = rt.alloc();
    let mut document = Document::empty(alloc);
    for step in 0..6000 {
        let (kind, node, number) = if step < 3000 {
            (0, 0, step + 1)
        } else {
            (4, step - 2999, 0)
        };
        let edit = edit(alloc, kind, node, number)?;
        assert!(rt; document.apply(alloc, &edit).is_ok());
    }
    assert_eq!(rt; document.nodes().len(), 3000);
    Ok(())
}

#[test]
fn a_sink_fails_at_the_given_call(rt: HostRuntime) -> Result<(), Fail> {
    let alloc = rt.alloc();
    let mut sink = FailingMutations::new(alloc, List::from_slice(alloc, &[4])?);
    for kind in 0..8 {
        let want = if kind == 3 {
            Err(SinkError::Failed)
        } else {
            Ok(())
        };
        let edit = edit(alloc, kind, 1, 2)?;
        assert_eq!(rt; edit.write_to(alloc, &mut sink), want, "{kind}");
    }
    assert_eq!(rt; sink.edits().len(), 7);
    Ok(())
}
