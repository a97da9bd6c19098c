//! The cells of a scope, own and derived ones.
ghost use Rattle.std.specs.Prelude.{◌≡◌, IfOk};
ghost use Rattle.author_bodies.specs.Comes.{Comes, Knows};
ghost use Rattle.author_programs.specs.Pages as programs;
ghost use Rattle.author_derived.specs.Derived as meaning;

use author_bodies::{KeepsCells, own_cell};
use author_calls::BodyCx;
use author_deriving::{HasMemo, use_memo};
use rt_values::{List, OutOfMemory, Part};
use std::alloc::Global;

/// The own cells of the scope; none where a call was refused.
#[tactic(auto, using(author_bodies::proofs::Lists::listing))]
pub(crate) fn own_cells<P: KeepsCells>(
    alloc: Global,
    cx: &mut BodyCx<'_, P>,
    firsts: &[P::Value],
) -> Result<Option<List<u64>>, OutOfMemory>
    ensures came { IfOk result (λ own. Knows own cx.new (Comes cx.old cx.new
        (programs.own_cells P.keeping firsts.now) own)) }
    ensures world { cx.new.world ≡ cx.old.world }
{
    let mut own = List::new(alloc);
    for first in firsts {
        let value = first.copy(alloc)?;
        match own_cell(alloc, cx, value)? {
            Some(cell) => own.push(cell)?,
            None => return Ok(None),
        }
    }
    Ok(Some(own))
}

/// The derived cells behind those so far; none where a call was refused.
#[tactic(auto, using(author_bodies::proofs::Rules::hooking))]
pub(crate) fn derived_behind<P: KeepsCells, S: HasMemo<P>>(
    app: &S,
    alloc: Global,
    cx: &mut BodyCx<'_, P>,
    own: List<u64>,
    formulas: List<S::Formula>,
) -> Result<Option<List<u64>>, OutOfMemory>
    ensures came { IfOk result (λ all. Knows all cx.new (Comes cx.old cx.new
        (meaning.derived_behind P.keeping S.state (S.formulas app.now).empty formulas own) all)) }
    ensures world { cx.new.world ≡ cx.old.world }
{
    let mut all = own;
    for formula in formulas.into_vec() {
        let made = use_memo(app, alloc, cx, formula)?;
        match made {
            Some(cell) => all.push(cell)?,
            None => return Ok(None),
        }
    }
    Ok(Some(all))
}
