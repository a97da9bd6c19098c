//! The application that pages with derived cells make.
ghost use Rattle.std.specs.Prelude.{◌≡◌, IfOk, OnOk};
ghost use Rattle.tree_mirror.specs.Mirror.{element_of};
ghost use Rattle.author_bodies.specs.Comes.{Comes, ComesIfRemembered, Knows};
ghost use Rattle.author_deriving.specs.Task.{as_task, task_of};
ghost use Rattle.author_derived.specs.Derived as meaning;
ghost use Rattle.author_derived.specs.Decides.{derivations_decide, formulas_look, polls_memos};

use crate::gathering::{derived_behind, own_cells};
use crate::pages::DerivedPages;
use author_bodies::{Bodied, Bodies, KeepsCells, NoData, read_all, write_all};
use author_calls::{BodyCx, Cx, TaskStep};
use author_deriving::{HasMemo, Load, MemoBodies, MemoTask, step_memo};
use rt_values::{List, OutOfMemory};
use std::alloc::Global;
use tree_nodes::{Element, Event, Parts, VNode};

/// The bodies of these pages: `Bodied<DerivedPaged<S>>` is the application.
#[derive(Drop)]
pub struct DerivedPaged<S: Parts> {
    pub pages: S,
}

impl<S: Parts> Parts for DerivedPaged<S> {
    type Component = S::Component;

    type Props = S::Props;

    type Value = S::Value;

    type Handler = S::Handler;

    type TaskState = MemoTask<S::Value, S::TaskState>;

    type Effect = NoData;

    type Payload = S::Payload;
}

impl<S: KeepsCells> KeepsCells for DerivedPaged<S> {
    ghost keeping = { S.keeping };

    fn cell_kind() -> u32 {
        S::cell_kind()
    }

    fn keep_cell(alloc: Global, cell: u64) -> Result<S::Value, OutOfMemory> {
        S::keep_cell(alloc, cell)
    }

    fn cell_in(value: &S::Value) -> Option<u64> {
        S::cell_in(value)
    }
}

impl<S: DerivedPages> HasMemo<Bodied<DerivedPaged<S>>> for DerivedPaged<S> {
    type Formula = S::TaskState;

    ghost formulas = { λ bodies. meaning.formulas_of (S.answers bodies.pages) };

    ghost state = { λ task. as_task task };

    fn memo_state(task: MemoTask<S::Value, S::TaskState>) -> MemoTask<S::Value, S::TaskState>
        ensures state { result ≡ as_task (task_of task) }
    {
        task
    }

    #[tactic(auto, using(author_bodies::proofs::Rules::hooking))]
    fn compute(
        &self,
        alloc: Global,
        formula: &S::TaskState,
        cx: &mut Cx<'_, Bodied<DerivedPaged<S>>>,
    ) -> Result<S::Value, OutOfMemory> {
        let sources = self.pages.sources(alloc, formula)?;
        let values = read_all(alloc, cx, sources.as_slice())?;
        Ok(self.pages.value(alloc, formula, values.as_slice())?)
    }

    fn load(
        &self,
        _alloc: Global,
        _formula: &S::TaskState,
        _key: &S::Value,
        _step: u64,
    ) -> Result<Load<S::Value>, OutOfMemory> {
        Ok(Load::Wait)
    }

    fn empty(&self, alloc: Global) -> Result<S::Value, OutOfMemory> {
        self.pages.empty(alloc)
    }

    ghost look = { λ bodies. formulas_look (S.answers bodies.pages) (S.decide bodies.pages).values };
}

impl<S: DerivedPages> DerivedPaged<S> {
    /// The cells of a component's scope, its own ones and behind them the derived ones; none where
    /// a call was refused.
    #[tactic(auto, using(author_bodies::proofs::Rules::hooking))]
    fn all_cells(
        &self,
        alloc: Global,
        cx: &mut BodyCx<'_, Bodied<DerivedPaged<S>>>,
        component: &S::Component,
        props: &S::Props,
    ) -> Result<Option<List<u64>>, OutOfMemory>
        ensures came { IfOk result (λ all. Knows all cx.new (Comes cx.old cx.new
            (meaning.all_cells S.keeping (λ task. as_task task) (S.answers self.now.pages)
            component.now props.now) all)) }
        ensures world { cx.new.world ≡ cx.old.world }
    {
        let firsts = self.pages.cells(alloc, component, props)?;
        let Some(own) = own_cells(alloc, cx, firsts.as_slice())? else {
            return Ok(None);
        };
        let formulas = self.pages.derived(alloc, component, props, own.as_slice())?;
        Ok(derived_behind(self, alloc, cx, own, formulas)?)
    }

    /// The answer of a component's body.
    #[tactic(auto, using(author_bodies::proofs::Lists::listing))]
    fn answer(
        &self,
        alloc: Global,
        cx: &mut BodyCx<'_, Bodied<DerivedPaged<S>>>,
        component: &S::Component,
        props: &S::Props,
    ) -> Result<Element<Bodied<DerivedPaged<S>>>, OutOfMemory>
        ensures came { IfOk result (λ answer. ComesIfRemembered cx.old cx.new
            (meaning.derived_body S.keeping (λ task. as_task task) (S.answers self.now.pages)
            component.now props.now) (element_of answer)) }
        ensures world { cx.new.world ≡ cx.old.world }
    {
        let Some(all) = self.all_cells(alloc, cx, component, props)? else {
            return Ok(VNode::empty(alloc)?);
        };
        let reads = self.pages.reads(alloc, component, props, all.as_slice())?;
        let values = read_all(alloc, cx, reads.as_slice())?;
        let scope = cx.current_scope_id();
        let tree = self.pages.shows(
            alloc,
            component,
            props,
            scope,
            all.as_slice(),
            values.as_slice(),
        )?;
        Ok(Ok(tree))
    }
}

impl<S: DerivedPages> Bodies for DerivedPaged<S> {
    ghost programs = { λ bodies. meaning.programs_of_derived S.keeping (S.answers bodies.pages) };

    ghost props_of_none = { λ bodies. S.props_of_none bodies.pages };

    ghost decide = { λ bodies. derivations_decide
        S.keeping (S.answers bodies.pages) (S.decide bodies.pages) };

    fn root(&self, alloc: Global) -> Result<S::Component, OutOfMemory> {
        self.pages.root(alloc)
    }

    fn empty_props(&self, alloc: Global) -> Result<S::Props, OutOfMemory> {
        self.pages.empty_props(alloc)
    }

    fn body(
        &self,
        alloc: Global,
        component: &S::Component,
        props: &S::Props,
        cx: &mut BodyCx<'_, Bodied<DerivedPaged<S>>>,
    ) -> Result<Element<Bodied<DerivedPaged<S>>>, OutOfMemory> {
        self.answer(alloc, cx, component, props)
    }

    fn step(
        &self,
        alloc: Global,
        state: MemoTask<S::Value, S::TaskState>,
        cx: &mut Cx<'_, Bodied<DerivedPaged<S>>>,
    ) -> Result<TaskStep<MemoTask<S::Value, S::TaskState>>, OutOfMemory> {
        step_memo(self, alloc, state, cx)
    }

    #[tactic(auto, using(author_bodies::proofs::Rules::hooking))]
    fn effect(
        &self,
        _alloc: Global,
        _effect: &NoData,
        _cx: &mut Cx<'_, Bodied<DerivedPaged<S>>>,
    ) -> Result<(), OutOfMemory> {
        Ok(())
    }

    #[tactic(auto, using(author_bodies::proofs::Rules::hooking))]
    fn hear(
        &self,
        alloc: Global,
        handler: &S::Handler,
        event: &mut Event<S::Payload>,
        cx: &mut Cx<'_, Bodied<DerivedPaged<S>>>,
    ) -> Result<(), OutOfMemory> {
        let reads = self.pages.hears(alloc, handler, event)?;
        let values = read_all(alloc, cx, reads.as_slice())?;
        let writes = self.pages.writes(alloc, handler, event, values.as_slice())?;
        Ok(write_all(alloc, cx, writes.as_slice())?)
    }
}

impl<S: DerivedPages> MemoBodies for DerivedPaged<S> {
    ghost polls = { λ bodies task. polls_memos S.keeping (S.answers bodies.pages) task };
}
