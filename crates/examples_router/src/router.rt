//! The router's components and its links.
ghost use Rattle.std.specs.Prelude.{◌≡◌, IfOk};
ghost use Rattle.rt_author.specs.Words.{ComesIfRemembered, element_of};
ghost use Rattle.examples_router.specs.Meaning as meaning;
ghost use Rattle.examples_router.specs.Meaning.{body, programs, decides};
ghost use Rattle.examples_router.specs.declared.router.Component.TheVariants as components;

use rt_author::{
    Bodied, Bodies, BodyCx, Cx, Element, Event, KeepsCells, NoData, OutOfMemory, Part, Parts,
    ScopeId, TaskStep, Text, VNode, child, element, empty_attrs, listens, or_out_of_memory,
    own_cell, row, shown, view,
};
use std::alloc::Global;

/// The kind of the context that provides the cell of the route.
const PATH: u32 = 0;

/// What the application is made of.
#[derive(Drop)]
pub struct Router;

/// The application.
pub type Routed = Bodied<Router>;

/// A component.
#[derive(Clone, Copy, PartialEq, Eq)]
pub enum Component {
    /// The links, with the page below them.
    Top,
    /// A link to the route that its props name.
    Link,
    /// The page of the present route.
    Page,
}

#[rattlefmt::skip]
impl Part for Component {
    fn same(&self, other: &Component) -> bool { *self == *other }
    fn copy(&self, _alloc: Global) -> Result<Component, OutOfMemory> { Ok(*self) }
}

/// The name of a route.
fn name_of(route: u64, other: &'static str) -> &'static str
    ensures name { result.now ≡ meaning.name_of route other.now }
{
    if route == 0 {
        "Home"
    } else if route == 1 {
        "Plants"
    } else {
        other
    }
}

/// The links and the page below them.
fn all(alloc: Global) -> Result<VNode<Routed>, OutOfMemory>
    ensures tree { IfOk result (λ tree. tree ≡ meaning.all) }
{
    let all = row![
        child(alloc, Component::Link, 0),
        child(alloc, Component::Link, 1),
        child(alloc, Component::Link, 2),
        child(alloc, Component::Page, 0),
    ];
    view(alloc, all)
}

/// A link to a route.
fn link(alloc: Global, scope: ScopeId, to: u64) -> Result<VNode<Routed>, OutOfMemory>
    ensures tree { IfOk result (λ tree. tree ≡ meaning.link scope.0 to) }
{
    let words = Text::from_str(alloc, name_of(to, "Nowhere"))?;
    let goes = listens(alloc, "onclick", scope, to);
    view(alloc, element(alloc, "a", goes, shown(alloc, words)))
}

/// The page of a route.
fn heading(alloc: Global, route: u64) -> Result<VNode<Routed>, OutOfMemory>
    ensures tree { IfOk result (λ tree. tree ≡ meaning.heading route) }
{
    let words = Text::from_str(alloc, name_of(route, "Not found"))?;
    view(
        alloc,
        element(alloc, "h1", empty_attrs(alloc), shown(alloc, words)),
    )
}

/// The body at the top.
#[tactic(auto, using(rt_author::proofs::Rules::hooking, rt_author::proofs::Rules::looking))]
fn top(alloc: Global, cx: &mut BodyCx<'_, Routed>) -> Result<Element<Routed>, OutOfMemory>
    ensures came { IfOk result (λ answer.
        ComesIfRemembered cx.old cx.new (body components.Top 0) (element_of answer)) }
    ensures world { cx.new.world ≡ cx.old.world }
{
    let Some(cell) = own_cell(alloc, cx, 0)? else {
        return Ok(VNode::empty(alloc)?);
    };
    or_out_of_memory(cx.provide_context(PATH, cell))?;
    Ok(Ok(all(alloc)?))
}

/// The body of the page.
#[tactic(auto, using(rt_author::proofs::Rules::hooking, rt_author::proofs::Rules::looking))]
fn page(alloc: Global, cx: &mut BodyCx<'_, Routed>) -> Result<Element<Routed>, OutOfMemory>
    ensures came { IfOk result (λ answer.
        ComesIfRemembered cx.old cx.new (body components.Page 0) (element_of answer)) }
    ensures world { cx.new.world ≡ cx.old.world }
{
    let Some(cell) = or_out_of_memory(cx.try_consume_context(alloc, PATH))? else {
        return Ok(VNode::empty(alloc)?);
    };
    match or_out_of_memory(cx.read(alloc, cell))? {
        Some(route) => Ok(Ok(heading(alloc, route)?)),
        None => Ok(VNode::empty(alloc)?),
    }
}

impl Parts for Router {
    type Component = Component;

    /// The route of a link.
    type Props = u64;

    /// A route, or the number of the cell that keeps it.
    type Value = u64;

    /// The route that a link leads to.
    type Handler = u64;

    type TaskState = NoData;

    type Effect = NoData;

    type Payload = NoData;
}

impl KeepsCells for Router {
    ghost keeping = { meaning.keeping };

    fn cell_kind() -> u32 {
        0
    }

    fn keep_cell(_alloc: Global, cell: u64) -> Result<u64, OutOfMemory> {
        Ok(cell)
    }

    fn cell_in(value: &u64) -> Option<u64> {
        Some(*value)
    }
}

impl Bodies for Router {
    ghost programs = { λ _. programs };

    ghost props_of_none = { λ _. 0 };

    ghost decide = { λ _. decides };

    fn root(&self, _alloc: Global) -> Result<Component, OutOfMemory> {
        Ok(Component::Top)
    }

    fn empty_props(&self, _alloc: Global) -> Result<u64, OutOfMemory> {
        Ok(0)
    }

    #[tactic(auto, using(rt_author::proofs::Rules::hooking, rt_author::proofs::Rules::looking))]
    fn body(
        &self,
        alloc: Global,
        component: &Component,
        props: &u64,
        cx: &mut BodyCx<'_, Routed>,
    ) -> Result<Element<Routed>, OutOfMemory> {
        match component {
            Component::Top => top(alloc, cx),
            Component::Link => {
                let scope = cx.current_scope_id();
                Ok(Ok(link(alloc, scope, *props)?))
            }
            Component::Page => page(alloc, cx),
        }
    }

    #[tactic(auto, using(rt_author::proofs::Rules::hooking))]
    fn step(
        &self,
        _alloc: Global,
        _state: NoData,
        _cx: &mut Cx<'_, Routed>,
    ) -> Result<TaskStep<NoData>, OutOfMemory> {
        Ok(TaskStep::Ready)
    }

    #[tactic(auto, using(rt_author::proofs::Rules::hooking))]
    fn effect(
        &self,
        _alloc: Global,
        _effect: &NoData,
        _cx: &mut Cx<'_, Routed>,
    ) -> Result<(), OutOfMemory> {
        Ok(())
    }

    #[tactic(auto, using(rt_author::proofs::Rules::hooking, rt_author::proofs::Rules::looking))]
    fn hear(
        &self,
        alloc: Global,
        handler: &u64,
        _event: &mut Event<NoData>,
        cx: &mut Cx<'_, Routed>,
    ) -> Result<(), OutOfMemory> {
        match or_out_of_memory(cx.try_consume_context(alloc, PATH))? {
            Some(cell) => or_out_of_memory(cx.write(cell, *handler)),
            None => Ok(()),
        }
    }
}
