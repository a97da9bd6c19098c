//! Where numbers stand in a document.
ghost use Rattle.std.specs.Prelude.{◌≡◌, min, if◌then◌else◌};
ghost use Rattle.std.specs.List.{list_any};
ghost use Rattle.std.specs.Option.{option_copied};
ghost use Rattle.rt_edits.specs.Nodes.{numbers, numbers_below, has, times, found, found_below};
ghost use Rattle.rt_edits.specs.Document.{is_barred};

use crate::doc_node::{DocKind, DocNode};

/// What the first node of a number is, in document order.
#[cycle(find)]
#[tactic(auto, using(crate::proofs::Next::found_next))]
pub fn find(nodes: &[DocNode], number: u64) -> Option<&DocKind>
    ensures found { option_copied result ≡ found number nodes.now }
{
    for node in nodes {
        if node.id.0 == number {
            return Some(&node.kind);
        }
        if let Some(kind) = find_below(&node.kind, number) {
            return Some(kind);
        }
    }
    None
}

#[cycle(find)]
#[tactic(auto, using(crate::proofs::Rows::kinds))]
fn find_below(kind: &DocKind, number: u64) -> Option<&DocKind>
    ensures found { option_copied result ≡ found_below number kind.now }
{
    match kind {
        DocKind::Element { children, .. } => find(children.as_slice(), number),
        DocKind::Text(_) => None,
        DocKind::Placeholder => None,
    }
}

/// Whether a node has this number.
#[cycle(contains)]
#[tactic(auto, using(crate::proofs::Next::has_next))]
pub fn contains_number(nodes: &[DocNode], number: u64) -> bool
    ensures has { result ≡ has number (numbers nodes.now) }
{
    for node in nodes {
        if node.id.0 == number || is_below(&node.kind, number) {
            return true;
        }
    }
    false
}

#[cycle(contains)]
#[tactic(auto, using(crate::proofs::Rows::kinds))]
fn is_below(kind: &DocKind, number: u64) -> bool
    ensures has { result ≡ has number (numbers_below kind.now) }
{
    match kind {
        DocKind::Element { children, .. } => contains_number(children.as_slice(), number),
        DocKind::Text(_) => false,
        DocKind::Placeholder => false,
    }
}

fn one_if(here: bool) -> u8
    ensures one { result ≡ (if here then 1 else 0) }
{
    if here { 1 } else { 0 }
}

/// How often a number stands in nodes, where twice stands for more.
#[cycle(times)]
#[tactic(auto, using(crate::proofs::Next::times_next))]
fn count_number(nodes: &[DocNode], number: u64) -> u8
    ensures times { result ≡ min 2 (times number (numbers nodes.now)) }
{
    let mut total = 0;
    for node in nodes {
        total = 2u8.min(total + one_if(node.id.0 == number) + count_below(&node.kind, number));
    }
    total
}

#[cycle(times)]
#[tactic(auto, using(crate::proofs::Rows::kinds))]
fn count_below(kind: &DocKind, number: u64) -> u8
    ensures times { result ≡ min 2 (times number (numbers_below kind.now)) }
{
    match kind {
        DocKind::Element { children, .. } => count_number(children.as_slice(), number),
        DocKind::Text(_) => 0,
        DocKind::Placeholder => 0,
    }
}

/// Whether a node of this number can't come with others into a document: it is 0, stands in the
/// document, or comes twice.
fn is_barred(number: u64, all: &[DocNode], document: &[DocNode]) -> bool
    ensures barred { result ≡ is_barred (numbers document.now) (numbers all.now) number }
{
    number == 0 || contains_number(document, number) || count_number(all, number) == 2
}

/// Whether one of the nodes has a number that is barred.
#[cycle(barred)]
#[tactic(auto, using(crate::proofs::Next::any_next))]
pub fn any_barred(nodes: &[DocNode], all: &[DocNode], document: &[DocNode]) -> bool
    ensures barred { result ≡
        list_any (is_barred (numbers document.now) (numbers all.now)) (numbers nodes.now) }
{
    for node in nodes {
        if is_barred(node.id.0, all, document) || barred_below(&node.kind, all, document) {
            return true;
        }
    }
    false
}

#[cycle(barred)]
#[tactic(auto, using(crate::proofs::Rows::kinds))]
fn barred_below(kind: &DocKind, all: &[DocNode], document: &[DocNode]) -> bool
    ensures barred { result ≡
        list_any (is_barred (numbers document.now) (numbers all.now)) (numbers_below kind.now) }
{
    match kind {
        DocKind::Element { children, .. } => any_barred(children.as_slice(), all, document),
        DocKind::Text(_) => false,
        DocKind::Placeholder => false,
    }
}
