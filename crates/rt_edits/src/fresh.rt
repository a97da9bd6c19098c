//! Whether nodes may come into a document: each number is new and comes once.
ghost use Rattle.std.specs.Prelude.{◌≡◌, ◌∷◌};
ghost use Rattle.std.specs.List.{list_any};
ghost use Rattle.rt_edits.specs.Nodes.{numbers, numbers_below, rising, greatest};
ghost use Rattle.rt_edits.specs.Document.{is_barred};

use crate::doc_node::{DocKind, DocNode};
use crate::search::any_barred;

/// The greatest number in nodes, or 0 where there is none.
#[cycle(highest)]
#[tactic(auto, using(crate::proofs::Rising::greatest_next))]
fn highest(nodes: &[DocNode]) -> u64
    ensures greatest { result ≡ greatest (numbers nodes.now) }
{
    let mut most = 0u64;
    for node in nodes {
        most = most.max(node.id.0).max(highest_below(&node.kind));
    }
    most
}

#[cycle(highest)]
#[tactic(auto, using(crate::proofs::Rows::kinds))]
fn highest_below(kind: &DocKind) -> u64
    ensures greatest { result ≡ greatest (numbers_below kind.now) }
{
    match kind {
        DocKind::Element { children, .. } => highest(children.as_slice()),
        DocKind::Text(_) => 0,
        DocKind::Placeholder => 0,
    }
}

/// The last number in nodes, where each is greater than the one before it and the first than
/// `above`.
#[cycle(rises)]
#[tactic(auto, using(crate::proofs::Rising::rising_next))]
fn rises(nodes: &[DocNode], above: u64) -> Option<u64>
    ensures rising { result ≡ rising above (numbers nodes.now) }
{
    let mut last = above;
    for node in nodes {
        match rises_at(node, last) {
            Some(next) => last = next,
            None => return None,
        }
    }
    Some(last)
}

#[cycle(rises)]
fn rises_at(node: &DocNode, above: u64) -> Option<u64>
    ensures rising { result ≡ rising above (node.now.id.0 ∷ numbers_below node.now.kind) }
{
    if above < node.id.0 {
        rises_below(&node.kind, node.id.0)
    } else {
        None
    }
}

#[cycle(rises)]
#[tactic(auto, using(crate::proofs::Rows::kinds))]
fn rises_below(kind: &DocKind, above: u64) -> Option<u64>
    ensures rising { result ≡ rising above (numbers_below kind.now) }
{
    match kind {
        DocKind::Element { children, .. } => rises(children.as_slice(), above),
        DocKind::Text(_) => Some(above),
        DocKind::Placeholder => Some(above),
    }
}

/// Whether a number of the nodes is 0, comes twice or is in the document. Numbers that rise from
/// above all of the document's, as those that a runtime draws, are gone through once.
pub fn clashes(nodes: &[DocNode], document: &[DocNode]) -> bool
    ensures clashes { result ≡
        list_any (is_barred (numbers document.now) (numbers nodes.now)) (numbers nodes.now) }
{
    match rises(nodes, highest(document)) {
        Some(_) => false,
        None => any_barred(nodes, nodes, document),
    }
}
