//! The tree of a piece.
ghost use Rattle.std.specs.Prelude.{◌≡◌, IfOk};
ghost use Rattle.author_pieces.specs.Answered.{Checked, Tells, Tested};
ghost use Rattle.author_pieces.specs.Had.{Had};
ghost use Rattle.author_pieces.specs.Markup as markup;

use crate::breaches::{BadMarkup, bad_markup};
use crate::numbering::template_of;
use crate::pieces::Piece;
use rt_values::{OutOfMemory, Shared, both};
use std::alloc::Global;
use tree_fits::fits;
use tree_nodes::{Parts, VNode};

/// Why there is no tree.
#[derive(Debug, Drop)]
pub enum Unfit {
    OutOfMemory,
    /// The piece's tree doesn't pass the node test.
    BadMarkup(BadMarkup),
}

/// The tree of a piece, whose nodes are its roots.
fn tree_of<P: Parts>(alloc: Global, piece: Piece<P>) -> Result<VNode<P>, OutOfMemory>
    ensures tree { IfOk result (λ tree. tree ≡ markup.view piece) }
{
    let Piece {
        shapes,
        nodes,
        attrs,
    } = piece;
    let template = template_of(alloc, shapes.as_slice());
    let slots = both(
        Shared::from_list(alloc, nodes),
        Shared::from_list(alloc, attrs),
    );
    let (template, (dynamic_nodes, dynamic_attrs)) = both(template, slots)?;
    Ok(VNode {
        template,
        dynamic_nodes,
        dynamic_attrs,
    })
}

/// The tree of a piece, as the words answer it.
pub fn view<P: Parts>(
    alloc: Global,
    piece: Result<Piece<P>, OutOfMemory>,
) -> Result<VNode<P>, OutOfMemory>
    ensures tree { IfOk result (λ tree. Had piece (λ piece. tree ≡ markup.view piece)) }
{
    let piece = piece?;
    Ok(tree_of(alloc, piece)?)
}

/// The tree of a piece, if it passes the node test; else the first rule that it breaks, and where.
pub fn checked<P: Parts>(
    alloc: Global,
    piece: Result<Piece<P>, OutOfMemory>,
) -> Result<VNode<P>, Unfit>
    ensures checked { Checked result piece }
{
    match piece {
        Ok(piece) => tested(alloc, piece),
        Err(_) => Err(Unfit::OutOfMemory),
    }
}

/// The same of a piece that there was memory for.
fn tested<P: Parts>(alloc: Global, piece: Piece<P>) -> Result<VNode<P>, Unfit>
    ensures tested { Tested result (markup.view piece) }
{
    match tree_of(alloc, piece) {
        Ok(tree) => {
            if fits(&tree) {
                Ok(tree)
            } else {
                Err(refusal(alloc, &tree))
            }
        }
        Err(_) => Err(Unfit::OutOfMemory),
    }
}

/// Why a tree doesn't pass the node test.
fn refusal<P: Parts>(alloc: Global, tree: &VNode<P>) -> Unfit
    ensures told { Tells result tree.now }
{
    match bad_markup(alloc, tree) {
        Ok(bad) => Unfit::BadMarkup(bad),
        Err(_) => Unfit::OutOfMemory,
    }
}
