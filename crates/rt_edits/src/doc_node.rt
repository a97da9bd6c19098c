//! The nodes of a document.
ghost use Rattle.std.specs.Prelude.{◌≡◌, ◌↔◌, IsTrue, IfOk};

use rt_values::{ElementId, List, OutOfMemory, Part, Text};
use std::alloc::Global;

/// An attribute with its value.
#[derive(Debug, Drop)]
pub struct DocAttr {
    pub name: Text,
    pub namespace: Option<Text>,
    pub value: Text,
}

/// A node of the document with all that stands below it.
#[cycle(doc)]
#[derive(Debug, Drop)]
pub struct DocNode {
    pub id: ElementId,
    pub kind: DocKind,
}

/// What a node of the document is.
#[cycle(doc)]
#[derive(Debug, Drop)]
pub enum DocKind {
    Element {
        tag: Text,
        namespace: Option<Text>,
        /// Ordered by namespace, none first, and then by name, both by bytes.
        attrs: List<DocAttr>,
        /// The names of the events that it listens to, ordered by bytes.
        listeners: List<Text>,
        children: List<DocNode>,
    },
    Text(Text),
    Placeholder,
}

impl Part for DocAttr {
    fn same(&self, other: &DocAttr) -> bool {
        self.name.same(&other.name)
            && self.namespace.same(&other.namespace)
            && self.value.same(&other.value)
    }

    fn copy(&self, alloc: Global) -> Result<DocAttr, OutOfMemory> {
        Ok(DocAttr {
            name: self.name.copy(alloc)?,
            namespace: self.namespace.copy(alloc)?,
            value: self.value.copy(alloc)?,
        })
    }
}

impl DocNode {
    /// An equal node, with all that stands below it.
    #[cycle(copy_doc_node)]
    pub fn copy(&self, alloc: Global) -> Result<DocNode, OutOfMemory>
        ensures copy { IfOk result (λ copied. copied ≡ self.now) }
    {
        Ok(DocNode {
            id: self.id,
            kind: self.kind.copy(alloc)?,
        })
    }
}

impl DocKind {
    /// An equal kind, with all that stands below it.
    #[cycle(copy_doc_node)]
    pub fn copy(&self, alloc: Global) -> Result<DocKind, OutOfMemory>
        ensures copy { IfOk result (λ copied. copied ≡ self.now) }
    {
        match self {
            DocKind::Element {
                tag,
                namespace,
                attrs,
                listeners,
                children,
            } => Ok(DocKind::Element {
                tag: tag.copy(alloc)?,
                namespace: namespace.copy(alloc)?,
                attrs: attrs.copy(alloc)?,
                listeners: listeners.copy(alloc)?,
                children: copy_nodes(alloc, children.as_slice())?,
            }),
            DocKind::Text(text) => Ok(DocKind::Text(text.copy(alloc)?)),
            DocKind::Placeholder => Ok(DocKind::Placeholder),
        }
    }
}

/// Equal nodes in the same order.
#[cycle(copy_doc_node)]
pub fn copy_nodes(alloc: Global, nodes: &[DocNode]) -> Result<List<DocNode>, OutOfMemory>
    ensures copy { IfOk result (λ copied. copied ≡ nodes.now) }
{
    let mut copied = List::new(alloc);
    for node in nodes {
        copied.push(node.copy(alloc)?)?;
    }
    Ok(copied)
}

impl DocNode {
    /// Whether the two nodes are equal, with all that stands below them.
    #[cycle(same_doc_node)]
    pub fn same(&self, other: &DocNode) -> bool
        ensures same { IsTrue result ↔ (self.now ≡ other.now) }
    {
        self.id == other.id && self.kind.same(&other.kind)
    }
}

impl DocKind {
    /// Whether the two kinds are equal, with all that stands below them.
    #[cycle(same_doc_node)]
    pub fn same(&self, other: &DocKind) -> bool
        ensures same { IsTrue result ↔ (self.now ≡ other.now) }
    {
        match (self, other) {
            (
                DocKind::Element {
                    tag,
                    namespace,
                    attrs,
                    listeners,
                    children,
                },
                DocKind::Element {
                    tag: other_tag,
                    namespace: other_namespace,
                    attrs: other_attrs,
                    listeners: other_listeners,
                    children: other_children,
                },
            ) => {
                tag.same(other_tag)
                    && namespace.same(other_namespace)
                    && attrs.same(other_attrs)
                    && listeners.same(other_listeners)
                    && same_nodes(children.as_slice(), other_children.as_slice())
            }
            (DocKind::Text(text), DocKind::Text(other_text)) => text.same(other_text),
            (DocKind::Placeholder, DocKind::Placeholder) => true,
            _ => false,
        }
    }
}

/// Whether two slices hold equal nodes in the same order.
#[cycle(same_doc_node)]
pub fn same_nodes(left: &[DocNode], right: &[DocNode]) -> bool
    ensures same { IsTrue result ↔ (left.now ≡ right.now) }
{
    if left.len() != right.len() {
        return false;
    }
    for at in 0..left.len() {
        if !left[at].same(&right[at]) {
            return false;
        }
    }
    true
}

impl Part for DocNode {
    fn same(&self, other: &DocNode) -> bool {
        DocNode::same(self, other)
    }

    fn copy(&self, alloc: Global) -> Result<DocNode, OutOfMemory> {
        DocNode::copy(self, alloc)
    }
}
