//! The template of shapes: slots are numbered, and paths are noted, as they are met.
ghost use Rattle.std.specs.Prelude.{◌≡◌, ◌++◌, ◌∷◌, [], IfOk, map};
ghost use Rattle.author_pieces.specs.Numbering as numbering;

use crate::shapes::{Shape, ShapeAttribute};
use rt_values::{List, OutOfMemory, Part, Shared};
use std::alloc::Global;
use tree_nodes::{Template, TemplateAttribute, TemplateNode, TemplateParts};

/// The paths of the slots that were met.
#[derive(Drop)]
pub(crate) struct Paths {
    pub(crate) node_paths: List<List<u8>>,
    pub(crate) attr_paths: List<List<u8>>,
}

/// The template with these roots.
pub(crate) fn template_of(alloc: Global, roots: &[Shape]) -> Result<Template, OutOfMemory>
    ensures template { IfOk result (λ template. template ≡ numbering.template_of roots.now) }
{
    let mut paths = Paths {
        node_paths: List::new(alloc),
        attr_paths: List::new(alloc),
    };
    let roots = row_of(alloc, &mut paths, &[], roots)?;
    let template = finished(alloc, roots, paths)?;
    Ok(template)
}

/// The template with these roots, and the paths that were met.
fn finished(alloc: Global, roots: List<TemplateNode>, paths: Paths) -> Result<Template, OutOfMemory>
    ensures template { IfOk result (λ template. template ≡ numbering.finished (roots, paths)) }
{
    let Paths {
        node_paths,
        attr_paths,
    } = paths;
    let parts = TemplateParts {
        roots,
        node_paths,
        attr_paths,
    };
    Template::new(alloc, parts)
}

/// The step of a path to the node at an index; the last one for those past the 256th.
fn step_of(index: usize) -> u8
    ensures step { result ≡ numbering.step_of index }
{
    match u8::try_from(index) {
        Ok(step) => step,
        Err(_) => u8::MAX,
    }
}

/// The path of the node at an index below a path.
pub(crate) fn below(alloc: Global, above: &[u8], index: usize) -> Result<List<u8>, OutOfMemory>
    ensures path { IfOk result (λ path. path ≡ numbering.below above.now index) }
{
    let mut path = List::from_slice(alloc, above)?;
    path.push(step_of(index))?;
    Ok(path)
}

/// The nodes of these shapes, below a path.
#[cycle(numbered)]
#[tactic(auto, using(crate::proofs::Rows::made))]
fn row_of(
    alloc: Global,
    paths: &mut Paths,
    above: &[u8],
    shapes: &[Shape],
) -> Result<List<TemplateNode>, OutOfMemory>
    ensures row { IfOk result (λ row. (row, paths.new)
        ≡ numbering.among (map numbering.numbered shapes.now) above.now 0 paths.old) }
{
    let mut row = List::new(alloc);
    for index in 0..shapes.len() {
        let node = node_of(alloc, paths, above, index, &shapes[index])?;
        row.push(node)?;
    }
    Ok(row)
}

/// The node of a shape, at an index below a path.
#[cycle(numbered)]
#[tactic(auto, using(crate::proofs::Rows::made))]
fn node_of(
    alloc: Global,
    paths: &mut Paths,
    above: &[u8],
    index: usize,
    shape: &Shape,
) -> Result<TemplateNode, OutOfMemory>
    ensures node { IfOk result (λ node. (node, paths.new)
        ≡ numbering.numbered shape.now (numbering.below above.now index) paths.old) }
{
    match shape {
        Shape::Words(text) => Ok(TemplateNode::Text {
            text: text.copy(alloc)?,
        }),
        Shape::Hole => {
            let path = below(alloc, above, index)?;
            let id = paths.node_paths.len() as u64;
            paths.node_paths.push(path)?;
            Ok(TemplateNode::Dynamic { id })
        }
        Shape::Element { tag, attrs, kids } => {
            let path = below(alloc, above, index)?;
            let attrs = attrs_of(alloc, paths, path.as_slice(), attrs.as_slice())?;
            let kids = row_of(alloc, paths, path.as_slice(), kids.as_slice())?;
            Ok(TemplateNode::Element {
                tag: tag.copy(alloc)?,
                namespace: None,
                attrs: Shared::from_list(alloc, attrs)?,
                children: Shared::from_list(alloc, kids)?,
            })
        }
    }
}

/// The attributes of the element at a path.
fn attrs_of(
    alloc: Global,
    paths: &mut Paths,
    path: &[u8],
    attrs: &[ShapeAttribute],
) -> Result<List<TemplateAttribute>, OutOfMemory>
    ensures row { IfOk result (λ row. (row, paths.new)
        ≡ numbering.attrs_at path.now attrs.now paths.old) }
{
    let mut row = List::new(alloc);
    for index in 0..attrs.len() {
        let attr = attr_of(alloc, paths, path, &attrs[index])?;
        row.push(attr)?;
    }
    Ok(row)
}

/// An attribute of the element at a path.
fn attr_of(
    alloc: Global,
    paths: &mut Paths,
    path: &[u8],
    attr: &ShapeAttribute,
) -> Result<TemplateAttribute, OutOfMemory>
    ensures attr { IfOk result (λ made. (made, paths.new)
        ≡ numbering.attr_at path.now attr.now paths.old) }
{
    match attr {
        ShapeAttribute::Fixed { name, value } => Ok(TemplateAttribute::Static {
            name: name.copy(alloc)?,
            namespace: None,
            value: value.copy(alloc)?,
        }),
        ShapeAttribute::Open => {
            let own = List::from_slice(alloc, path)?;
            let id = paths.attr_paths.len() as u64;
            paths.attr_paths.push(own)?;
            Ok(TemplateAttribute::Dynamic { id })
        }
    }
}
