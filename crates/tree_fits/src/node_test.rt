//! The node test: whether a template and the values of its slots belong together.

ghost use Rattle.std.specs.Prelude.{◌≡◌, ◌≤◌, [], length};
ghost use Rattle.std.specs.List.{slice_index_or};
ghost use Rattle.tree_nodes.specs.BlockTest.{block_fits};
ghost use Rattle.tree_nodes.specs.NodeTest.{component_fits_within, element_fits_within, fits, fits_within, node_fits_within};
ghost use Rattle.tree_nodes.specs.Places.{HasPlacesApart};

use crate::block::block_fits;
use rt_values::List;
use tree_nodes::{DynamicNode, Element, Parts, VComponent, VNode};

/// How many levels a tree may have, from its roots down through what its slots hold.
const LEVELS: usize = 128;

/// Whether a tree passes the node test: its slots are numbered from 0 as they are met depth first
/// and have the listed paths, each has its value, a template has 1 to 256 roots and an element at
/// most 256 children and no two attributes of one name, no listener has a namespace, and nothing
/// stands below the 128th level. The trees in its slots are tested too.
pub fn fits<P: Parts>(node: &VNode<P>) -> bool
    ensures test { result ≡ fits node.now }

    // Whatever the answer, no place of the tree's nodes stands twice, nor of its component slots.
    ensures apart { HasPlacesApart node.now }
{
    tree_fits(node, LEVELS)
}

#[cycle(fits)]
fn tree_fits<P: Parts>(tree: &VNode<P>, levels: usize) -> bool
    requires { levels ≤ 128 }
    ensures { result ≡ fits_within tree.now levels }
{
    if !is_block(tree, levels) {
        return false;
    }
    let paths = tree.template.node_paths();
    for (slot, node) in tree.dynamic_nodes.as_slice().iter().enumerate() {
        if !node_fits(node, levels.saturating_sub(depth_of(paths, slot))) {
            return false;
        }
    }
    true
}

#[cycle(fits)]
fn node_fits<P: Parts>(node: &DynamicNode<P>, levels: usize) -> bool
    requires { levels ≤ 128 }
    ensures { result ≡ node_fits_within node.now levels }
{
    match node {
        DynamicNode::Text(_) => true,
        DynamicNode::Placeholder => true,
        DynamicNode::Component(component) => component_fits(component, levels),
        DynamicNode::Fragment(trees) => {
            for tree in trees.as_slice() {
                if !tree_fits(tree, levels) {
                    return false;
                }
            }
            true
        }
    }
}

#[cycle(fits)]
fn component_fits<P: Parts>(component: &VComponent<P>, levels: usize) -> bool
    requires { levels ≤ 128 }
    ensures { result ≡ component_fits_within component.now levels }
{
    match component {
        VComponent::App { .. } => true,
        VComponent::Fragment(props) => element_fits(props.children.get(), levels),
        VComponent::ErrorBoundary(props) => element_fits(props.children.get(), levels),
        VComponent::SuspenseBoundary(props) => element_fits(props.children.get(), levels),
        VComponent::Root(_) => true,
    }
}

#[cycle(fits)]
fn element_fits<P: Parts>(children: &Element<P>, levels: usize) -> bool
    requires { levels ≤ 128 }
    ensures { result ≡ element_fits_within children.now levels }
{
    match children {
        Ok(tree) => tree_fits(tree, levels),
        Err(_) => true,
    }
}

// How many levels down a slot stands.
fn depth_of(paths: &[List<u8>], slot: usize) -> usize
    ensures { result ≡ length (slice_index_or paths.now slot []) }
{
    if slot < paths.len() {
        paths[slot].len()
    } else {
        0
    }
}

// Whether a tree without what stands in its slots fits.
fn is_block<P: Parts>(tree: &VNode<P>, levels: usize) -> bool
    requires { levels ≤ 128 }
    ensures { result ≡ block_fits tree.now.template (length tree.now.dynamic_nodes)
        tree.now.dynamic_attrs levels }
{
    block_fits(
        &tree.template,
        tree.dynamic_nodes.len(),
        tree.dynamic_attrs.as_slice(),
        levels,
    )
}
