//! The button with a derived cell: it says whether its number is many. That is derived of the
//! number, and the button reads that alone: so it is run again only where it says something else.
ghost use Rattle.std.specs.Prelude.{◌≡◌, IfOk};
ghost use Rattle.std.specs.Option.{option_copied};
ghost use Rattle.examples_template.specs.Counting as meaning;
ghost use Rattle.examples_template.specs.Meaning as template;

use crate::application::raised;
use rt_author::{
    Bodied, DerivedPaged, DerivedPages, Event, KeepsCells, List, NoData, OutOfMemory, Parts,
    ScopeId, Text, VNode, element, listens, one, shown, view,
};
use std::alloc::Global;

/// What the application is made of.
#[derive(Drop)]
pub struct Tally;

/// The application.
pub type Tallied = Bodied<DerivedPaged<Tally>>;

/// What is made, or want of memory.
pub type Made<T> = Result<T, OutOfMemory>;

/// The application.
pub fn tallying() -> Tallied {
    let bodies = DerivedPaged { pages: Tally };
    Bodied { bodies }
}

impl Parts for Tally {
    /// There is one component.
    type Component = NoData;

    type Props = NoData;

    type Value = u64;

    /// The cell that is raised.
    type Handler = u64;

    /// The cell of which it is derived whether it is many.
    type TaskState = u64;

    type Effect = NoData;

    type Payload = NoData;
}

#[rattlefmt::skip]
impl KeepsCells for Tally {
    ghost keeping = { template.keeping };

    fn cell_kind() -> u32 { 0 }
    fn keep_cell(_alloc: Global, cell: u64) -> Made<u64> { Ok(cell) }
    fn cell_in(value: &u64) -> Option<u64> { Some(*value) }
}

#[rattlefmt::skip]
impl DerivedPages for Tally {
    ghost answers = { λ _. meaning.answers };

    ghost props_of_none = { λ _. meaning.none };

    ghost decide = { λ _. meaning.decides };

    fn root(&self, _alloc: Global) -> Made<NoData> { Ok(NoData) }
    fn empty_props(&self, _alloc: Global) -> Made<NoData> { Ok(NoData) }
    fn empty(&self, _alloc: Global) -> Made<u64> { Ok(0) }

    fn cells(&self, alloc: Global, _component: &NoData, _props: &NoData) -> Made<List<u64>> {
        one(alloc, 0)
    }

    fn derived(
        &self,
        alloc: Global,
        _component: &NoData,
        _props: &NoData,
        own: &[u64],
    ) -> Made<List<u64>> {
        listed(alloc, own.get(0))
    }

    fn sources(&self, alloc: Global, count: &u64) -> Made<List<u64>> {
        one(alloc, *count)
    }

    fn value(&self, _alloc: Global, _count: &u64, values: &[Option<u64>]) -> Made<u64> {
        Ok(many(values.get(0)))
    }

    fn reads(
        &self,
        alloc: Global,
        _component: &NoData,
        _props: &NoData,
        all: &[u64],
    ) -> Made<List<u64>> {
        listed(alloc, all.get(1))
    }

    fn shows(
        &self,
        alloc: Global,
        _component: &NoData,
        _props: &NoData,
        scope: ScopeId,
        all: &[u64],
        values: &[Option<u64>],
    ) -> Made<VNode<Tallied>> {
        face(alloc, scope, all.get(0), values.get(0))
    }

    fn hears(&self, alloc: Global, handler: &u64, _event: &Event<NoData>) -> Made<List<u64>> {
        one(alloc, *handler)
    }

    fn writes(
        &self,
        alloc: Global,
        handler: &u64,
        _event: &mut Event<NoData>,
        values: &[Option<u64>],
    ) -> Made<List<(u64, u64)>> {
        raised(alloc, *handler, values.get(0))
    }
}

/// A cell, where it is had.
fn listed(alloc: Global, cell: Option<&u64>) -> Made<List<u64>>
    ensures listed { IfOk result (λ cells. cells ≡ meaning.listed (option_copied cell.entry)) }
{
    match cell {
        Some(cell) => one(alloc, *cell),
        None => Ok(List::new(alloc)),
    }
}

/// Whether a count is many, as a value.
fn many(count: Option<&Option<u64>>) -> u64
    ensures many { result ≡ meaning.many (option_copied count.entry) }
{
    match count {
        Some(Some(count)) => is_many(*count),
        _ => 0,
    }
}

/// 1 where a count is many, else 0.
fn is_many(count: u64) -> u64
    ensures is_many { result ≡ meaning.is_many count }
{
    if count > 1 { 1 } else { 0 }
}

/// What the component shows: the button, where its cells have values.
fn face(
    alloc: Global,
    scope: ScopeId,
    count: Option<&u64>,
    said: Option<&Option<u64>>,
) -> Made<VNode<Tallied>>
    ensures tree { IfOk result (λ tree.
        tree ≡ meaning.face scope.0 (option_copied count.entry) (option_copied said.entry)) }
{
    let Some(count) = count else {
        return VNode::placeholder(alloc);
    };
    match said {
        Some(Some(said)) => button(alloc, scope, *count, *said),
        _ => VNode::placeholder(alloc),
    }
}

/// The button of a scope, by the cell that it raises and what it says.
fn button(alloc: Global, scope: ScopeId, count: u64, said: u64) -> Made<VNode<Tallied>>
    ensures tree { IfOk result (λ tree. tree ≡ meaning.button scope.0 count said) }
{
    let words = Text::from_str(alloc, word(said))?;
    let raises = listens(alloc, "onclick", scope, count);
    view(alloc, element(alloc, "button", raises, shown(alloc, words)))
}

/// The words for a derived value.
fn word(many: u64) -> &'static str
    ensures word { result.now ≡ meaning.word many }
{
    if many == 0 { "few" } else { "many" }
}
