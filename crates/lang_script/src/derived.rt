//! The statements of a body that keep a memo or a resource.
ghost use Rattle.std.specs.Prelude.{◌≡◌, ◌<◌, ◌-◌, IfOk, OnOk};
ghost use Rattle.author_bodies.specs.Comes.{Comes};
ghost use Rattle.author_bodies.specs.Comes as calls;
ghost use Rattle.author_programs.specs.Cells as programs;
ghost use Rattle.rt_language.specs.Formulas as formulas;
ghost use Rattle.rt_language.specs.Sequence.{go_on};
ghost use Rattle.rt_language.specs.Statements as meanings;
ghost use Rattle.rt_language.specs.Syntax as language;
ghost use Rattle.lang_syntax.specs.Mirror.{derived_of};
ghost use Rattle.lang_script.specs.Seen.{caller_of, frame_of, outcome_of, Knows, Follows};

use crate::caller::{Frame, Outcome};
use crate::memos::{CELL, Deriver, cell_in};
use crate::script::Script;
use author_bodies::unless_refused;
use author_calls::BodyCx;
use author_deriving::{use_memo, use_resource};
use lang_syntax::{Derived, Formula};
use lang_views::{Deriving, Value};
use rt_values::OutOfMemory;
use std::alloc::Global;

/// Binds the cell of a memo or of a resource, which is made with its task on first use.
#[tactic(auto, using(crate::proofs::Derivings::first_derived))]
pub(crate) fn use_derived(
    alloc: Global,
    cx: &mut BodyCx<'_, Script>,
    frame: &mut Frame<'_>,
    formula: &Formula,
) -> Result<Outcome, OutOfMemory>
    ensures came { IfOk result (λ o. Knows o cx.new (Comes cx.old cx.new
        (meanings.perform (caller_of frame.old.by) (frame_of frame.old) (language.UseDerived (derived_of formula.now)))
        (outcome_of o (frame_of frame.new)))) }
    ensures world { cx.new.world ≡ cx.old.world }
    ensures follows { OnOk result (Follows frame.old frame.new) }
{
    if !cx.hook_is_new() {
        return Ok(keep_derived(alloc, cx, frame)?);
    }
    Ok(make_derived(alloc, cx, frame, formula)?)
}

/// Binds the cell of one that is made.
#[tactic(auto, using(crate::proofs::Derivings::binding_cells))]
fn make_derived(
    alloc: Global,
    cx: &mut BodyCx<'_, Script>,
    frame: &mut Frame<'_>,
    formula: &Formula,
) -> Result<Outcome, OutOfMemory>
    ensures came { IfOk result (λ o. Knows o cx.new (Comes cx.old cx.new
        (meanings.perform (caller_of frame.old.by) (frame_of frame.old) (language.UseDerived (derived_of formula.now)))
        (outcome_of o (frame_of frame.new)))) }
    ensures world { cx.new.world ≡ cx.old.world }
    ensures follows { OnOk result (Follows frame.old frame.new) }
{
    match derived_cell(alloc, cx, frame, formula)? {
        Some(cell) => {
            frame.bind(Value::cell(cell))?;
            Ok(Outcome::WentOn)
        }
        None => Ok(Outcome::Refused),
    }
}

/// Binds the cell that the hook of a memo or of a resource keeps.
#[tactic(auto, using(crate::proofs::Derivings::binding_cells))]
fn keep_derived(
    alloc: Global,
    cx: &mut BodyCx<'_, Script>,
    frame: &mut Frame<'_>,
) -> Result<Outcome, OutOfMemory>
    ensures came { IfOk result (λ o. Knows o cx.new (Comes cx.old cx.new
        (go_on (programs.kept_cell formulas.keeping 0) (λ cell. meanings.bound_cell (frame_of frame.old) cell))
        (outcome_of o (frame_of frame.new)))) }
    ensures world { cx.new.world ≡ cx.old.world }
    ensures follows { OnOk result (Follows frame.old frame.new) }
{
    match kept_cell(alloc, cx)? {
        Some(cell) => {
            frame.bind(Value::cell(cell))?;
            Ok(Outcome::WentOn)
        }
        None => Ok(Outcome::Refused),
    }
}

/// The cell of a memo or of a resource, with what the variables hold.
fn derived_cell(
    alloc: Global,
    cx: &mut BodyCx<'_, Script>,
    frame: &Frame<'_>,
    formula: &Formula,
) -> Result<Option<u64>, OutOfMemory>
    ensures came { IfOk result (λ cell. calls.Knows cell cx.new (Comes cx.old cx.new
        (formulas.derived_cell frame.now.held (derived_of formula.now)) cell)) }
    ensures world { cx.new.world ≡ cx.old.world }
{
    let of = Deriving::new(alloc, frame.held.as_slice(), formula)?;
    if is_loaded(formula) {
        Ok(use_resource(&Deriver, alloc, cx, of)?)
    } else {
        Ok(use_memo(&Deriver, alloc, cx, of)?)
    }
}

/// Whether it is a resource.
fn is_loaded(formula: &Formula) -> bool
    ensures { result ≡ formulas.is_loaded (derived_of formula.now) }
{
    match formula.derived() {
        Derived::Value(_) => false,
        Derived::Load { .. } => true,
    }
}

/// The cell that the next hook keeps; none where another hook stands there.
#[tactic(auto, using(crate::proofs::Derivings::keeping_cells))]
fn kept_cell(alloc: Global, cx: &mut BodyCx<'_, Script>) -> Result<Option<u64>, OutOfMemory>
    ensures came { IfOk result (λ cell. calls.Knows cell cx.new (Comes cx.old cx.new
        (programs.kept_cell formulas.keeping 0) cell)) }
    ensures world { cx.new.world ≡ cx.old.world }
{
    match unless_refused(cx.use_hook(alloc, CELL, Value::cell(0)))? {
        Some(kept) => Ok(cell_in(&kept)),
        None => Ok(None),
    }
}
