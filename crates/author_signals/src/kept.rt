//! Signals that the scope's tasks keep: a memo, and a resource.
ghost use Rattle.std.specs.Prelude.{◌≡◌, false, true, IfOk};
ghost use Rattle.author_bodies.specs.Comes.{Comes, Knows};
ghost use Rattle.author_formulas.specs.Memos as memos;
ghost use Rattle.author_signals.specs.Signals as signals;

use crate::signal::Signal;
use author_bodies::KeepsCells;
use author_calls::BodyCx;
use author_deriving::{HasMemo, use_memo, use_resource};
use rt_values::OutOfMemory;
use std::alloc::Global;

impl Signal {
    /// The signal of a memo of the scope, which a task keeps equal to the formula. It is empty at
    /// the scope's first run; none where a call was refused.
    pub fn memo<P: KeepsCells, S: HasMemo<P>>(
        app: &S,
        alloc: Global,
        cx: &mut BodyCx<'_, P>,
        formula: S::Formula,
    ) -> Result<Option<Signal>, OutOfMemory>
        ensures came { IfOk result (λ signal. Knows signal cx.new (Comes cx.old cx.new
            (memos.own_memo P.keeping S.state (S.formulas app.now).empty formula false)
            (signals.cell_in signal))) }
        ensures world { cx.new.world ≡ cx.old.world }
    {
        match use_memo(app, alloc, cx, formula)? {
            Some(cell) => Ok(Some(Signal(cell))),
            None => Ok(None),
        }
    }

    /// The signal of a resource of the scope, which a task loads for the formula's value. It is
    /// empty until that is loaded; none where a call was refused.
    pub fn resource<P: KeepsCells, S: HasMemo<P>>(
        app: &S,
        alloc: Global,
        cx: &mut BodyCx<'_, P>,
        formula: S::Formula,
    ) -> Result<Option<Signal>, OutOfMemory>
        ensures came { IfOk result (λ signal. Knows signal cx.new (Comes cx.old cx.new
            (memos.own_memo P.keeping S.state (S.formulas app.now).empty formula true)
            (signals.cell_in signal))) }
        ensures world { cx.new.world ≡ cx.old.world }
    {
        match use_resource(app, alloc, cx, formula)? {
            Some(cell) => Ok(Some(Signal(cell))),
            None => Ok(None),
        }
    }
}
