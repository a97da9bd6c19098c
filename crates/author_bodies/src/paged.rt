//! The application that pages make.
ghost use Rattle.std.specs.Prelude.{◌≡◌, ◌≢◌, true, false, Some, IfOk, OnOk};
ghost use Rattle.tree_mirror.specs.Mirror.{element_of};
ghost use Rattle.author_calls.specs.Answers.{event_of, step_of, no_answer};
ghost use Rattle.author_calls.specs.Calls.{meaning_of};
ghost use Rattle.run_records.specs.Records.{world_of};
ghost use Rattle.author_calls.specs.Turn.{begun, HadMemory};
ghost use Rattle.author_bodies.specs.Comes.{Comes, ComesIfRemembered, Knows};
ghost use Rattle.author_programs.specs.Pages.{meaning_of_pages, page_body};
ghost use Rattle.author_programs.specs.Pages as programs;
ghost use Rattle.author_programs.proofs.Lawful.{pages_are_lawful};

use crate::cells::{KeepsCells, own_cell};
use crate::no_data::NoData;
use crate::pages::Pages;
use crate::rows::{read_all, write_all};
use author_calls::{App, BodyCx, BodyTurn, Cx, TaskStep, Turn};
use rt_values::{List, OutOfMemory, Part};
use std::alloc::Global;
use tree_nodes::{Element, Event, Parts, VNode};

/// The application of these pages.
#[derive(Drop)]
pub struct Paged<S: Parts> {
    pub pages: S,
}

impl<S: Parts> Parts for Paged<S> {
    type Component = S::Component;

    type Props = S::Props;

    type Value = S::Value;

    type Handler = S::Handler;

    type TaskState = NoData;

    type Effect = NoData;

    type Payload = S::Payload;
}

impl<S: KeepsCells> KeepsCells for Paged<S> {
    ghost keeping = { S.keeping };

    fn cell_kind() -> u32 {
        S::cell_kind()
    }

    fn keep_cell(alloc: Global, cell: u64) -> Result<S::Value, OutOfMemory> {
        S::keep_cell(alloc, cell)
    }

    fn cell_in(value: &S::Value) -> Option<u64> {
        S::cell_in(value)
    }
}

/// The cells of the scope; none where a call was refused.
#[tactic(auto, using(crate::proofs::Lists::listing))]
fn own_cells<S: Pages>(
    alloc: Global,
    cx: &mut BodyCx<'_, Paged<S>>,
    firsts: &[S::Value],
) -> Result<Option<List<u64>>, OutOfMemory>
    ensures came { IfOk result (λ own. Knows own cx.new (Comes cx.old cx.new
        (programs.own_cells S.keeping firsts.now) own)) }
    ensures world { cx.new.world ≡ cx.old.world }
{
    let mut own = List::new(alloc);
    for first in firsts {
        let value = first.copy(alloc)?;
        match own_cell(alloc, cx, value)? {
            Some(cell) => own.push(cell)?,
            None => return Ok(None),
        }
    }
    Ok(Some(own))
}

impl<S: Pages> Paged<S> {
    /// The answer of a component's body.
    #[tactic(auto, using(crate::proofs::Lists::listing))]
    fn answer(
        &self,
        alloc: Global,
        cx: &mut BodyCx<'_, Paged<S>>,
        component: &S::Component,
        props: &S::Props,
    ) -> Result<Element<Paged<S>>, OutOfMemory>
        ensures came { IfOk result (λ answer. ComesIfRemembered cx.old cx.new
            (page_body S.keeping
            ((S.answers self.now.pages).page component.now props.now))
            (element_of answer)) }
        ensures world { cx.new.world ≡ cx.old.world }
    {
        let firsts = self.pages.cells(alloc, component, props)?;
        let Some(own) = own_cells(alloc, cx, firsts.as_slice())? else {
            return Ok(VNode::empty(alloc)?);
        };
        let reads = self.pages.reads(alloc, component, props, own.as_slice())?;
        let values = read_all(alloc, cx, reads.as_slice())?;
        let scope = cx.current_scope_id();
        let tree = self.pages.shows(
            alloc,
            component,
            props,
            scope,
            own.as_slice(),
            values.as_slice(),
        )?;
        Ok(Ok(tree))
    }
}

impl<S: Pages> App for Paged<S> {
    ghost meaning = { λ a. meaning_of_pages S.keeping (S.answers a.pages) };

    ghost props_of_none = { λ a. S.props_of_none a.pages };

    ghost lawful = { λ a. pages_are_lawful _ S.keeping (S.answers a.pages) (S.decide a.pages) };

    fn root(&self, alloc: Global) -> Result<S::Component, OutOfMemory> {
        self.pages.root(alloc)
    }

    fn empty_props(&self, alloc: Global) -> Result<S::Props, OutOfMemory> {
        self.pages.empty_props(alloc)
    }

    fn render(
        &self,
        alloc: Global,
        component: &S::Component,
        props: &S::Props,
        cx: BodyCx<'_, Paged<S>>,
    ) -> Result<BodyTurn<Paged<S>>, OutOfMemory>
        requires fresh { cx ≡ begun true cx.world }
        ensures shows { IfOk result (λ turn. turn.world ≡ cx.entry.world) }
        ensures means { IfOk result (λ turn. HadMemory turn.meaning →
            meaning_of element_of turn.meaning
            ≡ (meaning_of_pages S.keeping (S.answers self.now.pages)).body component.now props.now
            (world_of cx.entry.world)) }
    {
        let mut cx = cx;
        let answer = self.answer(alloc, &mut cx, component, props)?;
        Ok(cx.finish(answer))
    }

    fn poll(
        &self,
        _alloc: Global,
        state: NoData,
        cx: Cx<'_, Paged<S>>,
    ) -> Result<Turn<Paged<S>, TaskStep<NoData>>, OutOfMemory>
        requires fresh { cx ≡ begun false cx.world }
        ensures shows { IfOk result (λ turn. turn.world ≡ cx.entry.world) }
        ensures means { IfOk result (λ turn. HadMemory turn.meaning →
            meaning_of step_of turn.meaning
            ≡ (meaning_of_pages S.keeping (S.answers self.now.pages)).poll state (world_of cx.entry.world)) }
    {
        Ok(cx.finish(TaskStep::Ready))
    }

    fn run_effect(
        &self,
        _alloc: Global,
        effect: &NoData,
        cx: Cx<'_, Paged<S>>,
    ) -> Result<Turn<Paged<S>, ()>, OutOfMemory>
        requires fresh { cx ≡ begun false cx.world }
        ensures shows { IfOk result (λ turn. turn.world ≡ cx.entry.world) }
        ensures means { IfOk result (λ turn. HadMemory turn.meaning →
            meaning_of no_answer turn.meaning
            ≡ (meaning_of_pages S.keeping (S.answers self.now.pages)).effect effect.now
            (world_of cx.entry.world)) }
    {
        Ok(cx.finish(()))
    }

    fn handle(
        &self,
        alloc: Global,
        handler: &S::Handler,
        event: &mut Event<S::Payload>,
        cx: Cx<'_, Paged<S>>,
    ) -> Result<Turn<Paged<S>, ()>, OutOfMemory>
        requires fresh { cx ≡ begun false cx.world }
        ensures shows { IfOk result (λ turn. turn.world ≡ cx.entry.world) }
        ensures means { IfOk result (λ turn. HadMemory turn.meaning →
            meaning_of (λ _. event_of event.new) turn.meaning
            ≡ (meaning_of_pages S.keeping (S.answers self.now.pages)).handle handler.now
            (event_of event.old) (world_of cx.entry.world)) }
    {
        let mut cx = cx;
        let reads = self.pages.hears(alloc, handler, event)?;
        let values = read_all(alloc, &mut cx, reads.as_slice())?;
        let writes = self.pages.writes(alloc, handler, event, values.as_slice())?;
        write_all(alloc, &mut cx, writes.as_slice())?;
        Ok(cx.finish(()))
    }

    fn memoize(&self, _component: &S::Component, old: &S::Props, new: &S::Props) -> bool {
        old.same(new)
    }
}
