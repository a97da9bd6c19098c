//! The objects of the eight edits, and of nodes in one another.

use rt_edits::{DocAttr, DocKind, DocNode, Edit};
use rt_values::{ElementId, List, OutOfMemory, Text};
use show_objects::edit_object;
use std::alloc::Global;
use std::test::Fail;

fn text(alloc: Global, text: &str) -> Result<Text, OutOfMemory> {
    Text::from_str(alloc, text)
}

/// An attribute of a namespace.
fn attribute(alloc: Global) -> Result<DocAttr, OutOfMemory> {
    Ok(DocAttr {
        name: text(alloc, "href")?,
        namespace: Some(text(alloc, "xlink")?),
        value: text(alloc, "a \"b\"\n")?,
    })
}

/// An element of a namespace, with an attribute, a listener, a text and a placeholder.
fn picture(alloc: Global) -> Result<List<DocNode>, OutOfMemory> {
    let mut attrs = List::new(alloc);
    attrs.push(attribute(alloc)?)?;
    let mut listeners = List::new(alloc);
    listeners.push(text(alloc, "onclick")?)?;
    let mut children = List::new(alloc);
    children.push(DocNode {
        id: ElementId(2),
        kind: DocKind::Text(text(alloc, "\u{e9}\u{1}\\")?),
    })?;
    children.push(DocNode {
        id: ElementId(18446744073709551615),
        kind: DocKind::Placeholder,
    })?;
    let mut nodes = List::new(alloc);
    nodes.push(DocNode {
        id: ElementId(1),
        kind: DocKind::Element {
            tag: text(alloc, "svg")?,
            namespace: Some(text(alloc, "s")?),
            attrs,
            listeners,
            children,
        },
    })?;
    nodes.push(DocNode {
        id: ElementId(4),
        kind: DocKind::Element {
            tag: text(alloc, "p")?,
            namespace: None,
            attrs: List::new(alloc),
            listeners: List::new(alloc),
            children: List::new(alloc),
        },
    })?;
    Ok(nodes)
}

const NODES: &str =
    "[{\"el\":\"svg\",\"ns\":\"s\",\"id\":1,\"attrs\":[{\"name\":\"href\",\"ns\":\"xlink\",\"value\":\"a \\\"b\\\"\\n\"}],\"on\":[\"onclick\"],\"kids\":[{\"text\":\"\u{e9}\\u0001\\\\\",\"id\":2},{\"hole\":true,\"id\":18446744073709551615}]},{\"el\":\"p\",\"ns\":null,\"id\":4,\"attrs\":[],\"on\":[],\"kids\":[]}]";

/// The eight edits.
fn edits(alloc: Global) -> Result<List<Edit>, OutOfMemory> {
    let id = ElementId(7);
    let mut edits = List::new(alloc);
    let nodes = picture(alloc)?;
    edits.push(Edit::AppendChildren { id, nodes })?;
    let nodes = List::new(alloc);
    edits.push(Edit::ReplaceNodeWith { id, nodes })?;
    let nodes = List::new(alloc);
    edits.push(Edit::InsertNodesAfter { id, nodes })?;
    edits.push(Edit::RemoveNode { id })?;
    edits.push(Edit::SetNodeText {
        id,
        text: text(alloc, "1")?,
    })?;
    edits.push(Edit::SetAttribute {
        id,
        name: text(alloc, "class")?,
        namespace: None,
        value: Some(text(alloc, "x")?),
    })?;
    edits.push(Edit::SetAttribute {
        id,
        name: text(alloc, "red")?,
        namespace: Some(text(alloc, "style")?),
        value: None,
    })?;
    edits.push(Edit::CreateEventListener {
        id,
        name: text(alloc, "onclick")?,
    })?;
    edits.push(Edit::RemoveEventListener {
        id,
        name: text(alloc, "onclick")?,
    })?;
    Ok(edits)
}

const LINES: [&str; 8] = [
    "{\"edit\":\"replace\",\"id\":7,\"nodes\":[]}\n",
    "{\"edit\":\"after\",\"id\":7,\"nodes\":[]}\n",
    "{\"edit\":\"remove\",\"id\":7}\n",
    "{\"edit\":\"text\",\"id\":7,\"text\":\"1\"}\n",
    "{\"edit\":\"attr\",\"id\":7,\"name\":\"class\",\"ns\":null,\"value\":\"x\"}\n",
    "{\"edit\":\"attr\",\"id\":7,\"name\":\"red\",\"ns\":\"style\",\"value\":null}\n",
    "{\"edit\":\"listen\",\"id\":7,\"name\":\"onclick\"}\n",
    "{\"edit\":\"unlisten\",\"id\":7,\"name\":\"onclick\"}\n",
];

#[test]
fn each_edit_is_one_object(rt: HostRuntime) -> Result<(), Fail> {
    let alloc = rt.alloc();
    let edits = edits(alloc)?;
    for at in 0..LINES.len() {
        let line = match edits.as_slice().get(at + 1) {
            Some(edit) => edit_object(alloc, edit)?,
            None => List::new(alloc),
        };
        assert_eq!(rt; line.as_slice(), LINES[at].as_bytes(), "the edit {at}");
    }
    Ok(())
}

#[test]
fn nodes_stand_in_one_another(rt: HostRuntime) -> Result<(), Fail> {
    let alloc = rt.alloc();
    let edits = edits(alloc)?;
    let line = match edits.as_slice().get(0) {
        Some(edit) => edit_object(alloc, edit)?,
        None => List::new(alloc),
    };
    let mut wanted = String::new(alloc);
    wanted.push_str("{\"edit\":\"append\",\"id\":7,\"nodes\":")?;
    wanted.push_str(NODES)?;
    wanted.push_str("}\n")?;
    assert_eq!(rt; line.as_slice(), wanted.as_bytes());
    Ok(())
}
