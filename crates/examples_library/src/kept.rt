//! A line that can be taken out, whose constant part is made once.
ghost use Rattle.std.specs.Prelude.{◌≡◌, IfOk};

use crate::parts::Made;
use rt_author::{
    Filling, Kept, Part, Parts, ScopeId, Text, VNode, element, empty_attrs, fill, open_attr,
    open_slot, row, text,
};
use std::alloc::Global;
use std::marker::Model;

/// What stays of a line, for all lines: a button that takes it out. A contract sees nothing of it.
#[derive(Drop)]
pub struct Line {
    kept: Kept,
}

impl Model for Line {
    ghost use Rattle.std.specs.Prelude.{ℕ, ◌≡◌};
    ghost use Rattle.examples_library.specs.Shapes.{line_shapes};

    ghost Value = { ℕ };

    ghost view = { λ _. 0 };

    ghost invariant = { λ line. line.kept ≡ line_shapes };
}

impl Line {
    ghost use Rattle.examples_library.specs.Meaning as meaning;

    /// Makes it, with slots for the words and for the button's listener.
    pub fn new<P: Parts>(alloc: Global) -> Made<Line> {
        let remove = element(alloc, "button", open_attr(alloc), text(alloc, "remove"));
        let slots = row![open_slot(alloc), remove];
        let line = element(alloc, "li", empty_attrs(alloc), slots);
        let kept = Kept::new::<P>(alloc, line)?;
        Ok(Line { kept })
    }

    /// The line of these words, with a button whose clicks a handler hears.
    pub fn of<P: Parts>(
        &self,
        alloc: Global,
        scope: ScopeId,
        words: &Text,
        removes: P::Handler,
    ) -> Made<VNode<P>>
        ensures tree { IfOk result (λ tree. tree ≡ meaning.line scope.0 words.now removes) }
    {
        let words = words.copy(alloc)?;
        let empty: Filling<P> = Filling::new(alloc);
        let removes = empty.listens(alloc, "onclick", scope, removes);
        fill(alloc, &self.kept, removes.shows(words))
    }
}
