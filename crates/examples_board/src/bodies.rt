//! What the board's components, its task, its effects and its listeners do.
#![tactic(auto, using(rt_author::proofs::Rules::hooking))]

ghost use Rattle.std.specs.Prelude.{◌≡◌, IfOk, OnOk};
ghost use Rattle.rt_author.specs.Words.{Comes, ComesIfRemembered, Knows, element_of, nothing, step_of};
ghost use Rattle.examples_board.specs.Meaning as meaning;

use crate::board::Boarded;
use crate::faces::{desk_face, line, refusal_face};
use crate::parts::{Cells, Loading};
use examples_library::Made;
use rt_author::{
    BodyCx, Cx, Element, RenderError, Signal, TaskStep, Text, VNode, or_out_of_memory, own_cell,
    own_pair, unless_refused,
};
use std::alloc::Global;

/// What a body answers.
pub(crate) type Answer = Made<Element<Boarded>>;

/// What a step of the task answers.
pub(crate) type Step = Made<TaskStep<Loading>>;

/// What a task, an effect or a listener calls.
pub(crate) type Call<'a> = Cx<'a, Boarded>;

/// What a body calls.
pub(crate) type Body<'a> = BodyCx<'a, Boarded>;

/// The desk keeps its two cells, and reads how many entries the log has.
pub(crate) fn desk(alloc: Global, cx: &mut Body<'_>) -> Answer
    ensures came { IfOk result (λ answer.
        ComesIfRemembered cx.old cx.new meaning.desk (element_of answer)) }
    ensures world { cx.new.world ≡ cx.old.world }
{
    let Some(pair) = own_pair(alloc, cx, 0, 0)? else {
        return Ok(VNode::empty(alloc)?);
    };
    let (tries, log) = (pair.source.0, pair.derived.0);
    let entries = Signal(log).get(alloc, cx)?;
    Ok(Ok(desk_face(alloc, Cells { tries, log }, entries)?))
}

/// A clean-up is kept, which raises a cell; none where another hook stands there.
#[tactic(auto, using(crate::proofs::Refusals::cleaning))]
fn cleaned(log: u64, cx: &mut Body<'_>) -> Made<Option<()>>
    ensures came { IfOk result (λ kept.
        Knows kept cx.new (Comes cx.old cx.new (meaning.cleaned log) kept)) }
    ensures world { cx.new.world ≡ cx.old.world }
{
    match unless_refused(cx.use_drop(log))? {
        Some(()) => Ok(Some(())),
        None => Ok(None),
    }
}

/// The news keep a clean-up, which logs that they went, and read how often someone has tried again.
pub(crate) fn news(alloc: Global, cells: Cells, cx: &mut Body<'_>) -> Answer
    ensures came { IfOk result (λ answer.
        ComesIfRemembered cx.old cx.new (meaning.news cells) (element_of answer)) }
    ensures world { cx.new.world ≡ cx.old.world }
{
    let Some(()) = cleaned(cells.log, cx)? else {
        return Ok(VNode::empty(alloc)?);
    };
    let tries = Signal(cells.tries).get(alloc, cx)?;
    Ok(told(alloc, cells.log, tries, cx)?)
}

/// Where the cell is there, the news, or an error until someone has tried again.
fn told(alloc: Global, log: u64, tries: Option<u64>, cx: &mut Body<'_>) -> Answer
    ensures came { IfOk result (λ answer.
        ComesIfRemembered cx.old cx.new (meaning.told log tries) (element_of answer)) }
    ensures world { cx.new.world ≡ cx.old.world }
{
    match tries {
        Some(0) => refused(alloc, cx),
        Some(_) => arrived(alloc, log, cx),
        None => Ok(VNode::empty(alloc)?),
    }
}

/// An error in the place of a tree.
#[tactic(auto, using(rt_author::proofs::Rules::throwing))]
fn refused(alloc: Global, cx: &mut Body<'_>) -> Answer
    ensures came { IfOk result (λ answer.
        ComesIfRemembered cx.old cx.new meaning.refused (element_of answer)) }
    ensures world { cx.new.world ≡ cx.old.world }
{
    let words = Text::from_str(alloc, "no news yet")?;
    match unless_refused(cx.captured(words))? {
        Some(error) => Ok(Err(RenderError::Error(error))),
        None => Ok(VNode::empty(alloc)?),
    }
}

/// The news. Once they show, an effect logs that they came.
#[tactic(auto, using(rt_author::proofs::Rules::spawning))]
fn arrived(alloc: Global, log: u64, cx: &mut Body<'_>) -> Answer
    ensures came { IfOk result (λ answer.
        ComesIfRemembered cx.old cx.new (meaning.arrived log) (element_of answer)) }
    ensures world { cx.new.world ≡ cx.old.world }
{
    or_out_of_memory(cx.queue_effect(log))?;
    Ok(Ok(line(alloc, "news")?))
}

/// The handler of the error boundary: the words of the error, and a button.
#[tactic(auto, using(rt_author::proofs::Rules::throwing, rt_author::proofs::Rules::looking))]
pub(crate) fn refusal(alloc: Global, cells: Cells, cx: &mut Body<'_>) -> Answer
    ensures came { IfOk result (λ answer.
        ComesIfRemembered cx.old cx.new (meaning.refusal cells) (element_of answer)) }
    ensures world { cx.new.world ≡ cx.old.world }
{
    let error = or_out_of_memory(cx.error(alloc))?;
    let scope = cx.current_scope_id();
    Ok(Ok(refusal_face(alloc, scope, cells, error)?))
}

/// The letter keeps its cell, and is read in it.
pub(crate) fn letter(alloc: Global, cx: &mut Body<'_>) -> Answer
    ensures came { IfOk result (λ answer.
        ComesIfRemembered cx.old cx.new meaning.letter (element_of answer)) }
    ensures world { cx.new.world ≡ cx.old.world }
{
    let Some(cell) = own_cell(alloc, cx, 0)? else {
        return Ok(VNode::empty(alloc)?);
    };
    let letters = Signal(cell).get(alloc, cx)?;
    Ok(opened(alloc, cell, letters, cx)?)
}

/// Where the cell is there, the letter, or a suspension until one has come.
fn opened(alloc: Global, cell: u64, letters: Option<u64>, cx: &mut Body<'_>) -> Answer
    ensures came { IfOk result (λ answer.
        ComesIfRemembered cx.old cx.new (meaning.opened cell letters) (element_of answer)) }
    ensures world { cx.new.world ≡ cx.old.world }
{
    match letters {
        Some(0) => awaits(alloc, cell, cx),
        Some(_) => Ok(Ok(line(alloc, "a letter")?)),
        None => Ok(VNode::empty(alloc)?),
    }
}

/// A suspension on the task that fetches the letter.
#[tactic(auto, using(rt_author::proofs::Rules::spawning, rt_author::proofs::Rules::looking))]
fn awaits(alloc: Global, cell: u64, cx: &mut Body<'_>) -> Answer
    ensures came { IfOk result (λ answer.
        ComesIfRemembered cx.old cx.new (meaning.awaits cell) (element_of answer)) }
    ensures world { cx.new.world ≡ cx.old.world }
{
    match unless_refused(cx.spawn(Loading::Asks(cell)))? {
        Some(task) => Ok(cx.suspend(task)),
        None => Ok(VNode::empty(alloc)?),
    }
}

/// A step of the task: it asks, and at the next wake the letter is there.
pub(crate) fn fetch(state: Loading, cx: &mut Call<'_>) -> Step
    ensures came { IfOk result (λ step.
        ComesIfRemembered cx.old cx.new (meaning.fetch state) (step_of step)) }
    ensures world { cx.new.world ≡ cx.old.world }
{
    match state {
        Loading::Asks(cell) => Ok(TaskStep::Pending(Loading::Waits(cell))),
        Loading::Waits(cell) => {
            or_out_of_memory(cx.write(cell, 1))?;
            Ok(TaskStep::Ready)
        }
    }
}

/// A cell is raised by one, where it is there.
pub(crate) fn raise(alloc: Global, cell: u64, cx: &mut Call<'_>) -> Made<()>
    ensures came { OnOk result (Comes cx.old cx.new (meaning.raise cell) nothing) }
    ensures world { cx.new.world ≡ cx.old.world }
{
    match Signal(cell).get(alloc, cx)? {
        Some(number) => Signal(cell).set(cx, number.saturating_add(1)),
        None => Ok(()),
    }
}
