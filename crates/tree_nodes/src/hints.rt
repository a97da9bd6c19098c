//! Paths of the nodes of a template, made once.

ghost use Rattle.std.specs.Prelude.{◌≡◌, ◌∷◌, ◌++◌, [], IfOk};

use crate::template::TemplateNode;
use rt_values::{List, OutOfMemory, Shared};
use std::alloc::Global;

/// The paths of nodes, with those of the nodes below, depth first. Those with an index that no byte
/// tells are left out.
pub(crate) fn hints_of(
    alloc: Global,
    nodes: &[TemplateNode],
) -> Result<List<Shared<u8>>, OutOfMemory> {
    let mut paths = List::new(alloc);
    add_paths(alloc, &[], nodes, &mut paths)?;
    Ok(paths)
}

/// Puts the paths of nodes after others, with those of the nodes below.
#[cycle(paths)]
fn add_paths(
    alloc: Global,
    up: &[u8],
    nodes: &[TemplateNode],
    paths: &mut List<Shared<u8>>,
) -> Result<(), OutOfMemory> {
    for index in 0..nodes.len() {
        if index < 256 {
            add_path(alloc, up, index as u8, &nodes[index], paths)?;
        }
    }
    Ok(())
}

/// Puts the path of the node with this index after others, with those of the nodes below.
#[cycle(paths)]
fn add_path(
    alloc: Global,
    up: &[u8],
    index: u8,
    node: &TemplateNode,
    paths: &mut List<Shared<u8>>,
) -> Result<(), OutOfMemory> {
    let path = path_below(alloc, up, index)?;
    paths.push(path.share()?)?;
    match node {
        TemplateNode::Element { children, .. } => {
            add_paths(alloc, path.as_slice(), children.as_slice(), paths)
        }
        TemplateNode::Text { .. } => Ok(()),
        TemplateNode::Dynamic { .. } => Ok(()),
    }
}

/// A path that goes one index further.
fn path_below(alloc: Global, up: &[u8], index: u8) -> Result<Shared<u8>, OutOfMemory>
    ensures { IfOk result (λ path. path ≡ up.now ++ index ∷ []) }
{
    let mut path = Vec::with_capacity(alloc, up.len())?;
    path.extend_from_slice(up)?;
    path.push(index)?;
    Shared::from_list(alloc, List::from_vec(path))
}
