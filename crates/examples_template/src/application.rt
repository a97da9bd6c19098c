//! The component and its listener.
ghost use Rattle.std.specs.Prelude.{◌≡◌, IfOk};
ghost use Rattle.std.specs.Option.{option_copied};
ghost use Rattle.examples_template.specs.Meaning as meaning;

use rt_author::{
    Event, KeepsCells, List, NoData, OutOfMemory, Paged, Pages, Parts, ScopeId, Text, VNode,
    element, listens, shown, view,
};
use std::alloc::Global;

/// The application.
#[derive(Drop)]
pub struct Application;

impl Parts for Application {
    /// There is one component.
    type Component = NoData;

    type Props = NoData;

    type Value = u64;

    /// The cell that is raised.
    type Handler = u64;

    type TaskState = NoData;

    type Effect = NoData;

    type Payload = NoData;
}

impl KeepsCells for Application {
    ghost keeping = { meaning.keeping };

    fn cell_kind() -> u32 {
        0
    }

    fn keep_cell(_alloc: Global, cell: u64) -> Result<u64, OutOfMemory> {
        Ok(cell)
    }

    fn cell_in(value: &u64) -> Option<u64> {
        Some(*value)
    }
}

impl Pages for Application {
    ghost answers = { λ _. meaning.answers };

    ghost props_of_none = { λ _. meaning.nothing };

    ghost decide = { λ _. meaning.decides };

    fn root(&self, _alloc: Global) -> Result<NoData, OutOfMemory> {
        Ok(NoData)
    }

    fn empty_props(&self, _alloc: Global) -> Result<NoData, OutOfMemory> {
        Ok(NoData)
    }

    fn cells(
        &self,
        alloc: Global,
        _component: &NoData,
        _props: &NoData,
    ) -> Result<List<u64>, OutOfMemory> {
        List::from_slice(alloc, &[0])
    }

    fn reads(
        &self,
        alloc: Global,
        _component: &NoData,
        _props: &NoData,
        own: &[u64],
    ) -> Result<List<u64>, OutOfMemory> {
        List::from_slice(alloc, own)
    }

    fn shows(
        &self,
        alloc: Global,
        _component: &NoData,
        _props: &NoData,
        scope: ScopeId,
        own: &[u64],
        values: &[Option<u64>],
    ) -> Result<VNode<Paged<Application>>, OutOfMemory> {
        present(alloc, scope, own.get(0), values.get(0))
    }

    fn hears(
        &self,
        alloc: Global,
        handler: &u64,
        _event: &Event<NoData>,
    ) -> Result<List<u64>, OutOfMemory> {
        List::from_slice(alloc, &[*handler])
    }

    fn writes(
        &self,
        alloc: Global,
        handler: &u64,
        _event: &mut Event<NoData>,
        values: &[Option<u64>],
    ) -> Result<List<(u64, u64)>, OutOfMemory> {
        raised(alloc, *handler, values.get(0))
    }
}

/// A button that shows a number and raises its cell.
fn button(
    alloc: Global,
    scope: ScopeId,
    cell: u64,
    number: u64,
) -> Result<VNode<Paged<Application>>, OutOfMemory>
    ensures tree { IfOk result (λ tree. tree ≡ meaning.button scope.0 cell number) }
{
    let words = Text::from_string(format!(in alloc; "{number}")?);
    let raises = listens(alloc, "onclick", scope, cell);
    view(alloc, element(alloc, "button", raises, shown(alloc, words)))
}

/// The button, where its cell has a value.
fn present(
    alloc: Global,
    scope: ScopeId,
    cell: Option<&u64>,
    value: Option<&Option<u64>>,
) -> Result<VNode<Paged<Application>>, OutOfMemory>
    ensures tree { IfOk result (λ tree.
        tree ≡ meaning.present scope.0 (option_copied cell.entry) (option_copied value.entry)) }
{
    let Some(cell) = cell else {
        return VNode::placeholder(alloc);
    };
    match value {
        Some(Some(number)) => button(alloc, scope, *cell, *number),
        _ => VNode::placeholder(alloc),
    }
}

/// The write that raises a cell, up to the greatest number.
pub(crate) fn raised(
    alloc: Global,
    cell: u64,
    value: Option<&Option<u64>>,
) -> Result<List<(u64, u64)>, OutOfMemory>
    ensures writes { IfOk result (λ writes.
        writes ≡ meaning.raised cell (option_copied value.entry)) }
{
    match value {
        Some(Some(number)) => List::from_slice(alloc, &[(cell, number.saturating_add(1))]),
        _ => Ok(List::new(alloc)),
    }
}
