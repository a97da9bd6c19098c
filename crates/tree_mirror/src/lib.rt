//! Which value of the definitions each value of the code is: templates, trees and answers.
//!
//! The definitions stand in specs/; the function here claims what holds of them.
#![tactic(auto)]

mod one;

ghost use Rattle.tree_mirror.specs.ByParts.{TreeByParts};
ghost use Rattle.tree_nodes.specs.declared.vnode.VNode.{VNode};

pub use one::components_are_one;

/// The value of a tree is made of those of its template, its attributes and what stands in its slots.
pub fn tree_by_parts<P, C, Q, V, H, T, E, L>()
    ensures { (tree : VNode P C Q V H T E L) → TreeByParts tree }
{}
