//! Pieces: nodes as they nest, with what stands in their slots.
ghost use Rattle.std.specs.Prelude.{◌≡◌, IfOk};
ghost use Rattle.author_pieces.specs.Had.{HadBoth};
ghost use Rattle.author_pieces.specs.Markup as markup;

use crate::attrs::Attrs;
use crate::shapes::{Shape, ShapeAttribute, together};
use rt_values::{List, OutOfMemory, Text, both};
use std::alloc::Global;
use tree_nodes::{Attribute, DynamicNode, Parts, VComponent};

/// Nodes beside one another: their shapes, and what stands in their slots, in document order.
#[derive(Drop)]
pub struct Piece<P: Parts> {
    pub shapes: List<Shape>,
    pub nodes: List<DynamicNode<P>>,
    pub attrs: List<List<Attribute<P>>>,
}

/// No node yet.
fn none_yet<P: Parts>(alloc: Global) -> Piece<P>
    ensures piece { result ≡ markup.empty_piece }
{
    Piece {
        shapes: List::new(alloc),
        nodes: List::new(alloc),
        attrs: List::new(alloc),
    }
}

/// No node.
pub fn empty_piece<P: Parts>(alloc: Global) -> Result<Piece<P>, OutOfMemory>
    ensures piece { IfOk result (λ piece. piece ≡ markup.empty_piece) }
{
    Ok(none_yet(alloc))
}

/// A text that stays.
pub fn text<P: Parts>(alloc: Global, words: &str) -> Result<Piece<P>, OutOfMemory>
    ensures piece { IfOk result (λ piece. piece ≡ markup.text words.now) }
{
    let mut piece = none_yet(alloc);
    piece
        .shapes
        .push(Shape::Words(Text::from_str(alloc, words)?))?;
    Ok(piece)
}

/// A slot, of a constant part that is kept: what stands in it comes when it is filled.
pub fn open_slot<P: Parts>(alloc: Global) -> Result<Piece<P>, OutOfMemory>
    ensures piece { IfOk result (λ piece. piece ≡ markup.open_slot) }
{
    let mut piece = none_yet(alloc);
    piece.shapes.push(Shape::Hole)?;
    Ok(piece)
}

/// A slot, and what stands in it.
pub fn hole<P: Parts>(alloc: Global, node: DynamicNode<P>) -> Result<Piece<P>, OutOfMemory>
    ensures piece { IfOk result (λ piece. piece ≡ markup.hole node) }
{
    let mut piece = none_yet(alloc);
    piece.shapes.push(Shape::Hole)?;
    piece.nodes.push(node)?;
    Ok(piece)
}

/// A text that may change.
pub fn shown<P: Parts>(alloc: Global, words: Text) -> Result<Piece<P>, OutOfMemory>
    ensures piece { IfOk result (λ piece. piece ≡ markup.shown words) }
{
    hole(alloc, DynamicNode::Text(words))
}

/// A component of the application, with its props.
pub fn child<P: Parts>(
    alloc: Global,
    component: P::Component,
    props: P::Props,
) -> Result<Piece<P>, OutOfMemory>
    ensures piece { IfOk result (λ piece. piece ≡ markup.child component props) }
{
    hole(
        alloc,
        DynamicNode::Component(VComponent::App { component, props }),
    )
}

/// One piece, and after it another.
fn joined<P: Parts>(first: Piece<P>, second: Piece<P>) -> Result<Piece<P>, OutOfMemory>
    ensures piece { IfOk result (λ piece. piece ≡ markup.beside first second) }
{
    let shapes = together(first.shapes, second.shapes);
    let nodes = together(first.nodes, second.nodes);
    let attrs = together(first.attrs, second.attrs);
    let (shapes, (nodes, attrs)) = both(shapes, both(nodes, attrs))?;
    Ok(Piece {
        shapes,
        nodes,
        attrs,
    })
}

/// One piece, and after it another, as the words answer them.
pub fn beside<P: Parts>(
    first: Result<Piece<P>, OutOfMemory>,
    second: Result<Piece<P>, OutOfMemory>,
) -> Result<Piece<P>, OutOfMemory>
    ensures piece { IfOk result (λ piece. HadBoth first second (λ a b.
        piece ≡ markup.beside a b)) }
{
    let (first, second) = both(first, second)?;
    Ok(joined(first, second)?)
}

/// The shape of an element around others.
fn around_shapes(
    alloc: Global,
    tag: &str,
    attrs: List<ShapeAttribute>,
    kids: List<Shape>,
) -> Result<List<Shape>, OutOfMemory>
    ensures shapes { IfOk result (λ shapes. shapes ≡ markup.around tag.now attrs kids) }
{
    let tag = Text::from_str(alloc, tag)?;
    let mut shapes = List::new(alloc);
    shapes.push(Shape::Element { tag, attrs, kids })?;
    Ok(shapes)
}

/// An element around a piece.
fn around<P: Parts>(
    alloc: Global,
    tag: &str,
    own: Attrs<P>,
    kids: Piece<P>,
) -> Result<Piece<P>, OutOfMemory>
    ensures piece { IfOk result (λ piece. piece ≡ markup.element tag.now own kids) }
{
    let shapes = around_shapes(alloc, tag, own.shapes, kids.shapes);
    let attrs = together(own.slots, kids.attrs);
    let (shapes, attrs) = both(shapes, attrs)?;
    Ok(Piece {
        shapes,
        nodes: kids.nodes,
        attrs,
    })
}

/// An element with its attributes around a piece, as the words answer them.
pub fn element<P: Parts>(
    alloc: Global,
    tag: &str,
    own: Result<Attrs<P>, OutOfMemory>,
    kids: Result<Piece<P>, OutOfMemory>,
) -> Result<Piece<P>, OutOfMemory>
    ensures piece { IfOk result (λ piece. HadBoth own kids (λ own kids.
        piece ≡ markup.element tag.now own kids)) }
{
    let (own, kids) = both(own, kids)?;
    Ok(around(alloc, tag, own, kids)?)
}
