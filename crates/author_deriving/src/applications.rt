//! Applications that have memos and resources.
ghost use Rattle.std.proofs.Common.{ap};
ghost use Rattle.rt_model.specs.Program.{call_means};

use crate::formulas::HasMemo;
use author_bodies::{Bodied, Bodies, KeepsCells};
use author_calls::App;

/// An application that polls its memos and resources as they are defined.
pub trait MemoApp: App + KeepsCells {
    ghost use Rattle.author_formulas.specs.Memos.{PollsMemos};

    /// Who computes them.
    type Memos: HasMemo<Self>;

    /// Who computes those of an application.
    ghost memos: { Self → Self.Memos };

    /// In the state of each of them a poll means that of the definitions.
    ghost polls: { (app : Self) → PollsMemos
        (Self.Memos.formulas (memos app)) (Self.meaning app) Self.Memos.state };
}

/// Bodies that poll their memos and resources as they are defined.
pub trait MemoBodies: Bodies + HasMemo<Bodied<Self>> {
    ghost use Rattle.std.specs.Prelude.{◌≡◌};
    ghost use Rattle.rt_model.specs.Program.{done};
    ghost use Rattle.rt_model.specs.World.{pending};
    ghost use Rattle.author_programs.specs.Sequence.{go_on};
    ghost use Rattle.author_formulas.specs.Memos.{MemoTask as TaskOf, memo_polled};

    /// In the state of each of them the program of a poll is that of the definitions.
    ghost polls: { (bodies : Self) (task : TaskOf Self.Value Self.Formula)
        → (Self.programs bodies).poll (Self.state task)
        ≡ go_on (memo_polled (Self.formulas bodies) task) (λ next. done (pending (Self.state next))) };
}

impl<B: MemoBodies> MemoApp for Bodied<B> {
    type Memos = B;

    ghost memos = { λ app. app.bodies };

    ghost polls = { λ app task w. ap (λ p. call_means p w) (B.polls app.bodies task) };
}
