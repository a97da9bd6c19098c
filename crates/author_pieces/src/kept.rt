//! The constant part of trees, numbered once.
ghost use Rattle.std.specs.Prelude.{◌≡◌, IfOk};
ghost use Rattle.author_pieces.specs.Had.{Had};
ghost use Rattle.author_pieces.specs.Numbering.{template_of};

use crate::numbering::template_of;
use crate::pieces::Piece;
use crate::shapes::Shape;
use rt_values::{List, OutOfMemory};
use std::alloc::Global;
use std::marker::Model;
use tree_nodes::{Parts, Template};

/// The constant part of trees: numbered once, for all trees that have it. A contract sees the
/// shapes that it is of.
#[derive(Drop)]
pub struct Kept {
    template: Template,
    shapes: List<Shape>,
}

impl Model for Kept {
    ghost use Rattle.std.specs.Prelude.{List as Items, ◌≡◌};
    ghost use Rattle.std.specs.Coded.{coded_list};
    ghost use Rattle.author_pieces.specs.Numbering.{template_of};
    ghost use Rattle.author_pieces.specs.declared.shapes.Shape.{Shape};
    ghost use Rattle.author_pieces.specs.contracts.shapes.Shape as shape;

    ghost Value = { Items Shape };

    ghost coded = { coded_list shape.the_row.coded };

    ghost view = { λ kept. kept.shapes };

    ghost invariant = { λ kept. kept.template ≡ template_of kept.shapes };
}

impl Kept {
    /// The constant part of the trees of a piece, as the words answer it; what stands in its slots
    /// goes.
    pub fn new<P: Parts>(
        alloc: Global,
        piece: Result<Piece<P>, OutOfMemory>,
    ) -> Result<Kept, OutOfMemory>
        ensures shapes { IfOk result (λ kept. Had piece (λ piece. kept ≡ piece.shapes)) }
    {
        let Piece { shapes, .. } = piece?;
        let template = template_of(alloc, shapes.as_slice())?;
        Ok(Kept { template, shapes })
    }

    /// Its template once more.
    pub(crate) fn template(&self, alloc: Global) -> Result<Template, OutOfMemory>
        ensures template { IfOk result (λ template. template ≡ template_of self.now) }
    {
        self.template.copy(alloc)
    }
}
