//! Templates: the static part of a tree, with numbered slots in it.

ghost use Rattle.std.specs.Prelude.{◌≡◌, ◌↔◌, ◌∷◌, [], IsTrue, IfOk};

use crate::hints::hints_of;
use crate::written::{Form, form_of, is_same_form};
use rt_values::{List, OutOfMemory, Part, Shared, Text, both};
use std::alloc::Global;
use std::marker::Model;
use std::rc::Rc;

/// What a template is made of. Slots are numbered from 0 as they are met depth first: an element,
/// its attributes, its children.
#[derive(Drop)]
pub struct TemplateParts {
    pub roots: List<TemplateNode>,
    /// The path of each node slot. A path begins with the root's index, and goes on with the index
    /// of a child at each level below.
    pub node_paths: List<List<u8>>,
    /// The path of the element of each attribute slot.
    pub attr_paths: List<List<u8>>,
}

/// What all copies of a template share: its parts, what was written of them, and paths of its
/// nodes.
#[derive(Drop)]
pub(crate) struct Written {
    parts: TemplateParts,
    form: Form,
    hints: List<Shared<u8>>,
}

/// The static part of a tree. A look whether two templates are equal compares what was written of
/// them once, with no walk through their nodes; all copies share it.
#[derive(Drop)]
pub struct Template {
    written: Rc<Written>,
}

impl Model for Template {
    ghost use Rattle.std.specs.Prelude.{◌≡◌};
    ghost use Rattle.std.specs.Coded.{codes};
    ghost use Rattle.tree_nodes.specs.contracts.template.TemplateNode as node;
    ghost use Rattle.tree_nodes.specs.declared.template.TemplateParts.{TemplateParts};
    ghost use Rattle.tree_nodes.specs.Forms.{form_of};

    ghost Value = { TemplateParts };

    ghost coded = { Prim.hlevel (codes, node.the_row.coded) };

    ghost view = { λ template. ((template.written).value).parts };

    ghost invariant = { λ template.
        ((template.written).value).form ≡ form_of ((template.written).value).parts };
}

/// A node of a template.
#[derive(Drop)]
pub enum TemplateNode {
    Element {
        tag: Text,
        namespace: Option<Text>,
        attrs: Shared<TemplateAttribute>,
        children: Shared<TemplateNode>,
    },
    Text {
        text: Text,
    },
    /// The node slot with this number.
    Dynamic {
        id: u64,
    },
}

/// An attribute of a template's element.
#[derive(Drop)]
pub enum TemplateAttribute {
    Static {
        name: Text,
        namespace: Option<Text>,
        value: Text,
    },
    /// The attribute slot with this number.
    Dynamic {
        id: u64,
    },
}

impl Template {
    /// The template that is made of these parts.
    pub fn new(alloc: Global, parts: TemplateParts) -> Result<Template, OutOfMemory>
        ensures parts { IfOk result (λ template. template ≡ parts) }
    {
        let form = form_of(alloc, &parts)?;
        let hints = hints_of(alloc, parts.roots.as_slice())?;
        let written = Written { parts, form, hints };
        let written = Rc::new(alloc, written)?;
        Ok(Template { written })
    }

    /// The template of one root, with a node slot at one path.
    pub fn of_one(
        alloc: Global,
        root: TemplateNode,
        path: List<u8>,
    ) -> Result<Template, OutOfMemory>
        ensures parts { IfOk result (λ template. template ≡ record {
          roots = root ∷ [];
          node_paths = path ∷ [];
          attr_paths = [];
        }) }
    {
        let mut roots = List::new(alloc);
        roots.push(root)?;
        let mut node_paths = List::new(alloc);
        node_paths.push(path)?;
        let parts = TemplateParts {
            roots,
            node_paths,
            attr_paths: List::new(alloc),
        };
        Ok(Template::new(alloc, parts)?)
    }

    /// Its roots.
    pub fn roots(&self) -> &[TemplateNode]
        ensures nodes { result.now ≡ self.now.roots }
    {
        self.written.as_ref().parts.roots.as_slice()
    }

    /// The path of each node slot.
    pub fn node_paths(&self) -> &[List<u8>]
        ensures items { result.now ≡ self.now.node_paths }
    {
        self.written.as_ref().parts.node_paths.as_slice()
    }

    /// The path of the element of each attribute slot.
    pub fn attr_paths(&self) -> &[List<u8>]
        ensures items { result.now ≡ self.now.attr_paths }
    {
        self.written.as_ref().parts.attr_paths.as_slice()
    }

    /// Paths of the nodes, depth first, for who wants one that is made already. Those with an index
    /// that no byte tells aren't among them. Nothing is said of them: each is to be tested.
    pub fn hints(&self) -> &[Shared<u8>] {
        self.written.as_ref().hints.as_slice()
    }

    /// Whether roots and paths are equal.
    pub fn same(&self, other: &Template) -> bool
        ensures { IsTrue result ↔ (self.now ≡ other.now) }
    {
        is_same_form(&self.written.as_ref().form, &other.written.as_ref().form)
    }

    /// The same template once more.
    pub fn copy(&self, _alloc: Global) -> Result<Template, OutOfMemory>
        ensures { IfOk result (λ copied. copied ≡ self.now) }
    {
        let written = self.written.clone()?;
        Ok(Template { written })
    }
}

/// Whether two lists of nodes are equal.
#[cycle(same)]
fn same_nodes(left: &[TemplateNode], right: &[TemplateNode]) -> bool
    ensures { IsTrue result ↔ (left.now ≡ right.now) }
{
    if left.len() != right.len() {
        return false;
    }
    for at in 0..left.len() {
        if !left[at].same(&right[at]) {
            return false;
        }
    }
    true
}

impl TemplateNode {
    /// Whether the two are equal, children included.
    #[cycle(same)]
    pub fn same(&self, other: &TemplateNode) -> bool
        ensures { IsTrue result ↔ (self.now ≡ other.now) }
    {
        match self {
            TemplateNode::Element {
                tag,
                namespace,
                attrs,
                children,
            } => match other {
                TemplateNode::Element {
                    tag: other_tag,
                    namespace: other_namespace,
                    attrs: other_attrs,
                    children: other_children,
                } => {
                    tag.same(other_tag)
                        && namespace.same(other_namespace)
                        && attrs.same(other_attrs)
                        && same_nodes(children.as_slice(), other_children.as_slice())
                }
                _ => false,
            },
            TemplateNode::Text { text } => match other {
                TemplateNode::Text { text: other_text } => text.same(other_text),
                _ => false,
            },
            TemplateNode::Dynamic { id } => match other {
                TemplateNode::Dynamic { id: other_id } => *id == *other_id,
                _ => false,
            },
        }
    }

    /// An equal node, children included.
    pub fn copy(&self, alloc: Global) -> Result<TemplateNode, OutOfMemory>
        ensures { IfOk result (λ copied. copied ≡ self.now) }
    {
        match self {
            TemplateNode::Element {
                tag,
                namespace,
                attrs,
                children,
            } => {
                let names = both(tag.copy(alloc), namespace.copy(alloc));
                let lists = both(attrs.share(), children.share());
                let ((tag, namespace), (attrs, children)) = both(names, lists)?;
                Ok(TemplateNode::Element {
                    tag,
                    namespace,
                    attrs,
                    children,
                })
            }
            TemplateNode::Text { text } => Ok(TemplateNode::Text {
                text: text.copy(alloc)?,
            }),
            TemplateNode::Dynamic { id } => Ok(TemplateNode::Dynamic { id: *id }),
        }
    }
}

impl Part for TemplateAttribute {
    fn same(&self, other: &TemplateAttribute) -> bool {
        match (self, other) {
            (
                TemplateAttribute::Static {
                    name,
                    namespace,
                    value,
                },
                TemplateAttribute::Static {
                    name: other_name,
                    namespace: other_namespace,
                    value: other_value,
                },
            ) => {
                name.same(other_name) && namespace.same(other_namespace) && value.same(other_value)
            }
            (TemplateAttribute::Dynamic { id }, TemplateAttribute::Dynamic { id: other_id }) => *id
                == *other_id,
            _ => false,
        }
    }

    fn copy(&self, alloc: Global) -> Result<TemplateAttribute, OutOfMemory> {
        match self {
            TemplateAttribute::Static {
                name,
                namespace,
                value,
            } => {
                let names = both(name.copy(alloc), namespace.copy(alloc));
                let ((name, namespace), value) = both(names, value.copy(alloc))?;
                Ok(TemplateAttribute::Static {
                    name,
                    namespace,
                    value,
                })
            }
            TemplateAttribute::Dynamic { id } => Ok(TemplateAttribute::Dynamic { id: *id }),
        }
    }
}
