//! What a walk through a template meets, depth first.

ghost use Rattle.std.specs.Prelude.{◌≡◌, ◌++◌, ◌∷◌, [], map, true, IfOk, OnOk};
ghost use Rattle.tree_mirror.specs.Mirror.{attribute_in};
ghost use Rattle.run_places.specs.Pieces.{met_element, node_met, piece_of, row_met};

use rt_values::{List, OutOfMemory, Part, Shared, both, same_slice};
use std::alloc::Global;
use tree_nodes::{TemplateAttribute, TemplateNode};

/// One thing that is met, with its path.
#[derive(Drop)]
pub enum Piece {
    /// An element, with its attributes.
    Element {
        path: Shared<u8>,
        attrs: Shared<TemplateAttribute>,
    },
    /// A text.
    Text {
        path: Shared<u8>,
    },
    /// The node slot with this number.
    Slot {
        id: u64,
        path: Shared<u8>,
    },
}

/// What is met in a template with these roots. A path that is among the hints, where its node comes
/// in the walk, isn't made again.
pub fn pieces_of(
    alloc: Global,
    roots: &[TemplateNode],
    hints: &[Shared<u8>],
) -> Result<List<Piece>, OutOfMemory>
    ensures { IfOk result (λ pieces. map piece_of pieces ≡ row_met [] 0 roots.now) }
{
    let mut pieces = List::new(alloc);
    add_pieces(alloc, roots, &[], hints, &mut pieces)?;
    Ok(pieces)
}

#[cycle(pieces)]
#[tactic(auto, using(crate::proofs::Walks::walks))]
fn add_pieces(
    alloc: Global,
    nodes: &[TemplateNode],
    up: &[u8],
    hints: &[Shared<u8>],
    pieces: &mut List<Piece>,
) -> Result<(), OutOfMemory>
    ensures { OnOk result (map piece_of pieces.new
        ≡ map piece_of pieces.old ++ row_met up.now 0 nodes.now) }
{
    for index in 0..nodes.len() {
        add_node(alloc, &nodes[index], up, index as u64, hints, pieces)?;
    }
    Ok(())
}

#[cycle(pieces)]
#[tactic(auto, using(crate::proofs::Walks::walks))]
fn add_node(
    alloc: Global,
    node: &TemplateNode,
    up: &[u8],
    index: u64,
    hints: &[Shared<u8>],
    pieces: &mut List<Piece>,
) -> Result<(), OutOfMemory>
    ensures { OnOk result (map piece_of pieces.new
        ≡ map piece_of pieces.old ++ node_met up.now index node.now) }
{
    let path = hinted_path(alloc, hints, pieces.len(), up, index)?;
    match node {
        TemplateNode::Element {
            tag: _,
            namespace: _,
            attrs,
            children,
        } => {
            push_element(alloc, &path, attrs, pieces)?;
            add_pieces(alloc, children.as_slice(), path.as_slice(), hints, pieces)
        }
        TemplateNode::Text { text: _ } => pieces.push(Piece::Text { path }),
        TemplateNode::Dynamic { id } => pieces.push(Piece::Slot { id: *id, path }),
    }
}

// One more element.
#[tactic(auto, using(crate::proofs::Walks::walks))]
fn push_element(
    alloc: Global,
    path: &Shared<u8>,
    attrs: &Shared<TemplateAttribute>,
    pieces: &mut List<Piece>,
) -> Result<(), OutOfMemory>
    ensures { OnOk result (map piece_of pieces.new
        ≡ map piece_of pieces.old ++ met_element path.now (map attribute_in attrs.now) ∷ []) }
{
    let (path, attrs) = both(path.share(), attrs.share())?;
    pieces.push(Piece::Element { path, attrs })
}

// The path of a child, which is shared where it is the hint at a place.
fn hinted_path(
    alloc: Global,
    hints: &[Shared<u8>],
    at: usize,
    up: &[u8],
    index: u64,
) -> Result<Shared<u8>, OutOfMemory>
    ensures { IfOk result (λ path. path ≡ up.now ++ index ∷ []) }
{
    if at < hints.len() && is_child(hints[at].as_slice(), up, index) {
        return hints[at].share();
    }
    path_below(alloc, up, index)
}

// Whether a path is that of the child with an index, below the node with the path `up`.
fn is_child(path: &[u8], up: &[u8], index: u64) -> bool
    ensures { result ≡ true → path.now ≡ up.now ++ index ∷ [] }
{
    match path {
        [front @ .., last] => u64::from(*last) == index && same_slice(front, up),
        _ => false,
    }
}

/// The path of the child with an index, below the node with the path `up`. An index that no byte
/// tells is answered as want of memory: no node has one.
pub fn path_below(alloc: Global, up: &[u8], index: u64) -> Result<Shared<u8>, OutOfMemory>
    ensures { IfOk result (λ path. path ≡ up.now ++ index ∷ []) }
{
    let mut path = List::from_slice(alloc, up)?;
    let index = byte(index)?;
    path.push(index)?;
    Shared::from_list(alloc, path)
}

/// A number as a byte, or want of memory.
pub(crate) fn byte(number: u64) -> Result<u8, OutOfMemory>
    ensures { IfOk result (λ byte. byte ≡ number) }
{
    if number < 256 {
        Ok(number as u8)
    } else {
        Err(OutOfMemory)
    }
}
