//! The application: what its components show, and what its memos and resources are of.
#![tactic(auto, using(rt_author::proofs::Rules::hooking))]

ghost use Rattle.std.specs.Prelude.{◌≡◌, IfOk};
ghost use Rattle.rt_author.specs.Words.{Comes, ComesIfRemembered, as_task, element_of, task_of};
ghost use Rattle.examples_derived.specs.Meaning as meaning;

use crate::parts::{Made, Value, no_words, or_empty};
use rt_author::{
    Bodied, Bodies, BodyCx, Cx, Element, Event, HasMemo, KeepsCells, Load, MemoBodies, MemoTask,
    NoData, Part, Parts, Signal, TaskStep, Text, VNode, own_cell, shown, step_memo, use_memo,
    use_resource, view,
};
use std::alloc::Global;

/// What the application is made of: the component at its top.
#[derive(Drop)]
pub struct Derived {
    pub root: Component,
}

/// The application.
pub type Deriving = Bodied<Derived>;

/// Where a task stands.
pub type Tasks = MemoTask<Value, Formula>;

/// What a body answers.
pub type Answer = Made<Element<Deriving>>;

/// What a body calls.
pub type Body<'a> = BodyCx<'a, Deriving>;

/// A component.
#[derive(Clone, Copy, PartialEq, Eq)]
pub enum Component {
    /// It shows a memo of its two cells.
    Chosen,
    /// It shows what is loaded for its cell.
    Loaded,
}

#[rattlefmt::skip]
impl Part for Component {
    fn same(&self, other: &Component) -> bool { *self == *other }
    fn copy(&self, _alloc: Global) -> Made<Component> { Ok(*self) }
}

/// What a memo or a resource is of, by the numbers of cells.
#[derive(Clone, Copy, PartialEq, Eq)]
pub enum Formula {
    /// The second one where the first one is a number other than 0, else 0.
    Chosen { first: u64, second: u64 },
    /// A greeting of who stands in a cell, loaded at the second step.
    Greeting(u64),
}

/// The value of a cell; no words where it is gone.
fn value_in(alloc: Global, cx: &mut Cx<'_, Deriving>, cell: u64) -> Made<Value>
    ensures came { IfOk result (λ value. Comes cx.old cx.new (meaning.value_in cell) value) }
    ensures world { cx.new.world ≡ cx.old.world }
{
    let read = Signal(cell).get(alloc, cx)?;
    Ok(or_empty(alloc, read)?)
}

/// The value of a cell, unless it isn't asked for: then 0, and the cell isn't read.
fn value_unless(alloc: Global, cx: &mut Cx<'_, Deriving>, off: bool, cell: u64) -> Made<Value>
    ensures came { IfOk result (λ value. Comes cx.old cx.new (meaning.value_unless off cell) value) }
    ensures world { cx.new.world ≡ cx.old.world }
{
    if off {
        return Ok(Value::Number(0));
    }
    Ok(value_in(alloc, cx, cell)?)
}

/// The second of two cells, where the first one is a number other than 0, else 0.
fn chosen(alloc: Global, cx: &mut Cx<'_, Deriving>, first: u64, second: u64) -> Made<Value>
    ensures came { IfOk result (λ value. Comes cx.old cx.new (meaning.chosen first second) value) }
    ensures world { cx.new.world ≡ cx.old.world }
{
    let value = value_in(alloc, cx, first)?;
    let off = value.is_zero();
    Ok(value_unless(alloc, cx, off, second)?)
}

/// A greeting.
fn greeting(alloc: Global, key: &Value) -> Made<Value>
    ensures words { IfOk result (λ value. value ≡ meaning.greeting key.now) }
{
    let name = key.words(alloc)?;
    let mut words = String::new(alloc);
    words.push_str("got ")?;
    words.push_str(name.as_str())?;
    Ok(Value::Words(Text::from_string(words)))
}

/// A tree that shows a value; a placeholder where it is gone.
fn face(alloc: Global, read: Option<Value>) -> Made<VNode<Deriving>>
    ensures tree { IfOk result (λ tree. tree ≡ meaning.face read) }
{
    match read {
        Some(value) => {
            let words = value.words(alloc)?;
            Ok(view(alloc, shown(alloc, words))?)
        }
        None => Ok(VNode::placeholder(alloc)?),
    }
}

/// What is shown of a cell that a task keeps.
fn showing(alloc: Global, cx: &mut Body<'_>, cell: u64) -> Answer
    ensures came { IfOk result (λ answer.
        Comes cx.old cx.new (meaning.showing cell) (element_of answer)) }
    ensures world { cx.new.world ≡ cx.old.world }
{
    let read = Signal(cell).get(alloc, cx)?;
    Ok(Ok(face(alloc, read)?))
}

/// Two cells, and a memo of them that is shown.
fn choosing(app: &Derived, alloc: Global, cx: &mut Body<'_>) -> Answer
    ensures came { IfOk result (λ answer.
        ComesIfRemembered cx.old cx.new meaning.choosing (element_of answer)) }
    ensures world { cx.new.world ≡ cx.old.world }
{
    let Some(first) = own_cell(alloc, cx, Value::Number(0))? else {
        return Ok(VNode::empty(alloc)?);
    };
    Ok(choosing_of(app, alloc, cx, first)?)
}

/// The second cell, and the memo, where the first cell is had.
fn choosing_of(app: &Derived, alloc: Global, cx: &mut Body<'_>, first: u64) -> Answer
    ensures came { IfOk result (λ answer.
        ComesIfRemembered cx.old cx.new (meaning.choosing_of first) (element_of answer)) }
    ensures world { cx.new.world ≡ cx.old.world }
{
    let Some(second) = own_cell(alloc, cx, Value::Number(0))? else {
        return Ok(VNode::empty(alloc)?);
    };
    Ok(memo_of(app, alloc, cx, Formula::Chosen { first, second })?)
}

/// A memo that is shown.
fn memo_of(app: &Derived, alloc: Global, cx: &mut Body<'_>, formula: Formula) -> Answer
    ensures came { IfOk result (λ answer.
        ComesIfRemembered cx.old cx.new (meaning.memo_of formula) (element_of answer)) }
    ensures world { cx.new.world ≡ cx.old.world }
{
    let Some(memo) = use_memo(app, alloc, cx, formula)? else {
        return Ok(VNode::empty(alloc)?);
    };
    Ok(showing(alloc, cx, memo)?)
}

/// Who is greeted first.
fn first_name(alloc: Global) -> Made<Value>
    ensures name { IfOk result (λ value. value ≡ meaning.first_name) }
{
    Ok(Value::Words(Text::from_str(alloc, "a")?))
}

/// A cell, and what is loaded for it.
fn loading(app: &Derived, alloc: Global, cx: &mut Body<'_>) -> Answer
    ensures came { IfOk result (λ answer.
        ComesIfRemembered cx.old cx.new meaning.loading (element_of answer)) }
    ensures world { cx.new.world ≡ cx.old.world }
{
    let first = first_name(alloc)?;
    let Some(name) = own_cell(alloc, cx, first)? else {
        return Ok(VNode::empty(alloc)?);
    };
    Ok(resource_of(app, alloc, cx, Formula::Greeting(name))?)
}

/// A resource that is shown.
fn resource_of(app: &Derived, alloc: Global, cx: &mut Body<'_>, formula: Formula) -> Answer
    ensures came { IfOk result (λ answer.
        ComesIfRemembered cx.old cx.new (meaning.resource_of formula) (element_of answer)) }
    ensures world { cx.new.world ≡ cx.old.world }
{
    let Some(loaded) = use_resource(app, alloc, cx, formula)? else {
        return Ok(VNode::empty(alloc)?);
    };
    Ok(showing(alloc, cx, loaded)?)
}

#[rattlefmt::skip]
impl HasMemo<Deriving> for Derived {
    type Formula = Formula;

    ghost formulas = { λ _. meaning.formulas };

    ghost state = { λ task. as_task task };

    fn memo_state(task: Tasks) -> Tasks
        ensures state { result ≡ as_task (task_of task) }
    {
        task
    }

    fn compute(&self, alloc: Global, formula: &Formula, cx: &mut Cx<'_, Deriving>) -> Made<Value> {
        match formula {
            Formula::Chosen { first, second } => chosen(alloc, cx, *first, *second),
            Formula::Greeting(cell) => value_in(alloc, cx, *cell),
        }
    }

    fn load(&self, alloc: Global, _formula: &Formula, key: &Value, step: u64) -> Made<Load<Value>> {
        if step < 1 {
            return Ok(Load::Wait);
        }
        Ok(Load::Done(greeting(alloc, key)?))
    }

    fn empty(&self, alloc: Global) -> Made<Value> { no_words(alloc) }

    ghost look = { λ _. meaning.looks };
}

impl MemoBodies for Derived {
    ghost polls = { λ bodies task. meaning.polls bodies.root task };
}

impl Parts for Derived {
    type Component = Component;

    type Props = NoData;

    type Value = Value;

    type Handler = NoData;

    type TaskState = Tasks;

    type Effect = NoData;

    type Payload = NoData;
}

#[rattlefmt::skip]
impl KeepsCells for Derived {
    ghost keeping = { meaning.keeping };

    fn cell_kind() -> u32 { 0 }
    fn keep_cell(_alloc: Global, cell: u64) -> Made<Value> { Ok(Value::Number(cell)) }
    fn cell_in(value: &Value) -> Option<u64> {
        match value {
            Value::Number(cell) => Some(*cell),
            Value::Words(_) => None,
        }
    }
}

#[rattlefmt::skip]
impl Bodies for Derived {
    ghost programs = { λ bodies. meaning.programs bodies.root };

    ghost props_of_none = { λ _. meaning.none };

    ghost decide = { λ bodies. meaning.decides bodies.root };

    fn root(&self, _alloc: Global) -> Made<Component> { Ok(self.root) }
    fn empty_props(&self, _alloc: Global) -> Made<NoData> { Ok(NoData) }

    fn body(
        &self,
        alloc: Global,
        component: &Component,
        _props: &NoData,
        cx: &mut Body<'_>,
    ) -> Answer {
        match component {
            Component::Chosen => choosing(self, alloc, cx),
            Component::Loaded => loading(self, alloc, cx),
        }
    }

    fn step(
        &self,
        alloc: Global,
        state: Tasks,
        cx: &mut Cx<'_, Deriving>,
    ) -> Made<TaskStep<Tasks>> {
        step_memo(self, alloc, state, cx)
    }

    fn effect(&self, _alloc: Global, _effect: &NoData, _cx: &mut Cx<'_, Deriving>) -> Made<()> {
        Ok(())
    }

    fn hear(
        &self,
        _alloc: Global,
        _handler: &NoData,
        _event: &mut Event<NoData>,
        _cx: &mut Cx<'_, Deriving>,
    ) -> Made<()> {
        Ok(())
    }
}
