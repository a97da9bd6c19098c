//! The template of a list of view nodes, with its paths.
ghost use Rattle.std.specs.Prelude.{◌≡◌, ◌++◌, [], ◌∷◌, length, IfOk, OnOk, map};
ghost use Rattle.rt_model.specs.Tree.{from_slot};
ghost use Rattle.tree_mirror.specs.Mirror.{attribute_in};
ghost use Rattle.tree_mirror.specs.Sealed as mirror;
ghost use Rattle.rt_language.specs.Views as views;
ghost use Rattle.rt_language.specs.Views.{template_in_bytes, template_nodes};
ghost use Rattle.lang_syntax.specs.Mirror as source;
ghost use Rattle.lang_views.specs.Built.{AttributeBuilt, AttributesBuilt, NodeBuilt, RowBuilt};

use lang_syntax::{ViewAttribute, ViewNode};
use rt_values::{List, OutOfMemory, Part, Shared};
use std::alloc::Global;
use tree_nodes::{Template, TemplateAttribute, TemplateNode, TemplateParts};

/// A template as far as it is built. Slots are numbered as they are met.
#[derive(Drop)]
struct Paths {
    node_paths: List<List<u8>>,
    attr_paths: List<List<u8>>,
    /// The path of the node that is built.
    path: List<u8>,
}

/// The template with these nodes as its roots.
pub(crate) fn template_of(alloc: Global, roots: &[ViewNode]) -> Result<Template, OutOfMemory>
    ensures template { IfOk result (λ template.
        mirror.template_of template ≡ template_in_bytes (template_nodes 0 0 (source.view_of roots.now))) }
{
    let mut paths = Paths {
        node_paths: List::new(alloc),
        attr_paths: List::new(alloc),
        path: List::new(alloc),
    };
    let roots = row_of(alloc, &mut paths, roots)?;
    let template = finished(alloc, roots, paths)?;
    Ok(template)
}

/// The template with these roots, and with the paths that were met.
fn finished(alloc: Global, roots: List<TemplateNode>, paths: Paths) -> Result<Template, OutOfMemory>
    ensures template { IfOk result (λ template. template ≡ record {
      roots = roots;
      node_paths = paths.node_paths;
      attr_paths = paths.attr_paths;
    }) }
{
    let Paths {
        node_paths,
        attr_paths,
        path: _,
    } = paths;
    let parts = TemplateParts {
        roots,
        node_paths,
        attr_paths,
    };
    Ok(Template::new(alloc, parts)?)
}

/// The nodes of a template that these nodes give, below the present path. A node past the 256th,
/// which no tree that fits has, is given the path of that one.
#[cycle(template)]
fn row_of(
    alloc: Global,
    paths: &mut Paths,
    nodes: &[ViewNode],
) -> Result<List<TemplateNode>, OutOfMemory>
    ensures built { IfOk result (λ made.
        RowBuilt paths.old paths.new (source.view_of nodes.now) (mirror.nodes_of made)) }
{
    let mut made = List::new(alloc);
    let mut index: usize = 0;
    for node in nodes {
        paths.path.push(step_of(index))?;
        let node = node_of(alloc, paths, node)?;
        let _step = paths.path.pop();
        made.push(node)?;
        index = index.saturating_add(1);
    }
    Ok(made)
}

/// The same as the children of an element.
#[cycle(template)]
fn kids_of(
    alloc: Global,
    paths: &mut Paths,
    nodes: &[ViewNode],
) -> Result<Shared<TemplateNode>, OutOfMemory>
    ensures built { IfOk result (λ made.
        RowBuilt paths.old paths.new (source.view_of nodes.now) (mirror.nodes_of made)) }
{
    let made = row_of(alloc, paths, nodes)?;
    let finished = Shared::from_list(alloc, made)?;
    Ok(finished)
}

/// The step of a path to the node at an index, the greatest one for those past it.
fn step_of(index: usize) -> u8
    ensures step { result ≡ views.step_of index }
{
    match u8::try_from(index) {
        Ok(step) => step,
        Err(_) => u8::MAX,
    }
}

/// The node of a template at the present path.
#[cycle(template)]
fn node_of(alloc: Global, paths: &mut Paths, node: &ViewNode) -> Result<TemplateNode, OutOfMemory>
    ensures built { IfOk result (λ made.
        NodeBuilt paths.old paths.new (source.node_before node.now) (mirror.node_before made)) }
{
    match node {
        ViewNode::Text(text) => Ok(TemplateNode::Text {
            text: text.copy(alloc)?,
        }),
        ViewNode::Element {
            tag,
            namespace,
            attributes,
            kids,
        } => {
            let attrs = attributes_of(alloc, paths, attributes.as_slice())?;
            let children = kids_of(alloc, paths, kids.as_slice())?;
            Ok(TemplateNode::Element {
                tag: tag.copy(alloc)?,
                namespace: namespace.copy(alloc)?,
                attrs,
                children,
            })
        }
        ViewNode::Slot(_) => {
            let id = paths.node_paths.len() as u64;
            let path = paths.path.copy(alloc)?;
            paths.node_paths.push(path)?;
            Ok(TemplateNode::Dynamic { id })
        }
    }
}

/// The attributes of the element at the present path.
fn attributes_of(
    alloc: Global,
    paths: &mut Paths,
    attributes: &[ViewAttribute],
) -> Result<Shared<TemplateAttribute>, OutOfMemory>
    ensures built { IfOk result (λ made. AttributesBuilt paths.old paths.new
        (map source.attribute_of attributes.now) (map attribute_in made)) }
{
    let mut made = List::new(alloc);
    for attribute in attributes {
        let attribute = attribute_of(alloc, paths, attribute)?;
        made.push(attribute)?;
    }
    let finished = Shared::from_list(alloc, made)?;
    Ok(finished)
}

/// One attribute of the element at the present path.
fn attribute_of(
    alloc: Global,
    paths: &mut Paths,
    attribute: &ViewAttribute,
) -> Result<TemplateAttribute, OutOfMemory>
    ensures built { IfOk result (λ made. AttributeBuilt paths.old paths.new
        (source.attribute_of attribute.now) (attribute_in made)) }
{
    match attribute {
        ViewAttribute::Static { name, value } => Ok(TemplateAttribute::Static {
            name: name.copy(alloc)?,
            namespace: None,
            value: value.copy(alloc)?,
        }),
        ViewAttribute::Slot { .. } => next_slot(alloc, paths),
        ViewAttribute::Listener { .. } => next_slot(alloc, paths),
    }
}

/// The next attribute slot, of the element at the present path.
fn next_slot(alloc: Global, paths: &mut Paths) -> Result<TemplateAttribute, OutOfMemory>
    ensures slot { IfOk result (λ made. attribute_in made ≡ from_slot (length paths.old.attr_paths)) }
    ensures path { OnOk result (paths.new ≡ record paths.old {
      attr_paths = paths.old.attr_paths ++ paths.old.path ∷ [];
    }) }
{
    let id = paths.attr_paths.len() as u64;
    let path = paths.path.copy(alloc)?;
    paths.attr_paths.push(path)?;
    Ok(TemplateAttribute::Dynamic { id })
}
