//! The way down to what a removal takes first, with the children of the scopes on it. It is kept from one
//! removal to the next, so that no scope's children are listed twice and no step is made twice.
ghost use Rattle.std.specs.Prelude.{◌≡◌, ◌++◌, ◌∷◌, ◌-◌, ◌≤◌, ℕ, [], true, length, reverse, IfOk, IfSome, OnOk};
ghost use Rattle.rt_model.specs.Removal.{first_leaf, next_removed as first_removed};
ghost use Rattle.run_state.specs.Mirror.{state_of};
ghost use Rattle.rt_scopes.specs.Knowing.{Goes, IsKnown, Knows, Leads, front_of, last_live, live_of};

use crate::children::children_below;
use rt_values::{List, OutOfMemory};
use run_state::State;
use std::alloc::Global;
use std::mem;
use tree_nodes::Parts;

/// Scopes on a way down, each the first child of the one before it, with the children that each had
/// when they were listed, the first one last. Those of them that are live are its children still.
#[derive(Drop)]
pub struct Known {
    /// Each scope with its children. Contracts alone look at them outside of here.
    pub rows: Vec<(u64, List<u64>)>,
}

impl Known {
    /// Nothing is known.
    pub fn new(alloc: Global) -> Known
        ensures empty { result.rows.items ≡ [] }
    {
        Known {
            rows: Vec::new(alloc),
        }
    }

    /// Nothing is known any more.
    pub fn clear(&mut self)
        ensures empty { self.new.rows.items ≡ [] }
    {
        self.rows.clear();
    }

    /// Where the way down from a scope goes on, and the children of the scope there, the first one last.
    /// That is the last row, which is taken off, where the rows begin at the scope, and otherwise the
    /// scope itself. Of so many scopes a way has so many at most.
    fn start<P: Parts>(
        &mut self,
        alloc: Global,
        state: &State<P>,
        scope: u64,
        count: usize,
    ) -> Result<(u64, List<u64>), OutOfMemory>
        requires knows { (g : _) → Knows (state_of g state.now) self.old.rows.items }
        ensures leads { IfOk result (λ row. (g : _) →
            Leads (state_of g state.now) self.new.rows.items row.0) }
        ensures own { IfOk result (λ row. (g : _) → IsKnown (state_of g state.now) row) }
        ensures way { IfOk result (λ row. (g : _) →
            first_leaf (state_of g state.now) (count - length self.new.rows.items) row.0
            ≡ first_leaf (state_of g state.now) count scope) }
    {
        if let Some(row) = self.resumed(scope, count) {
            return Ok(row);
        }
        self.rows.clear();
        let left = listed(alloc, state, scope)?;
        Ok((scope, left))
    }

    /// The last row, taken off, where the rows begin at a scope and aren't more than so many.
    fn resumed(&mut self, scope: u64, count: usize) -> Option<(u64, List<u64>)>
        ensures own { IfSome result (λ row. self.old.rows.items ≡ self.new.rows.items ++ row ∷ []) }
        ensures begins { IfSome result (λ row. front_of self.new.rows.items row.0 ≡ scope) }
        ensures within { IfSome result (λ row. length self.new.rows.items ≤ count) }
    {
        if begins_at(self.rows.as_slice(), scope, count) {
            self.rows.pop()
        } else {
            None
        }
    }
}

/// Whether rows begin at a scope, and aren't more than so many.
fn begins_at(rows: &[(u64, List<u64>)], scope: u64, count: usize) -> bool
    ensures begins { result ≡ true → (t : ℕ) → front_of rows.now t ≡ scope }
    ensures within { result ≡ true → length rows.now ≤ count }
{
    if rows.len() > count {
        return false;
    }
    match rows.first() {
        Some(row) => row.0 == scope,
        None => false,
    }
}

/// The scope that a removal takes first. What is known of the way to it spares it a look at trees, and
/// what it finds is known then.
pub fn next_removed<P: Parts>(
    alloc: Global,
    state: &State<P>,
    scope: u64,
    known: &mut Known,
) -> Result<u64, OutOfMemory>
    requires knows { (g : _) → Knows (state_of g state.now) known.old.rows.items }
    ensures leaf { IfOk result (λ leaf. (g : _) →
        leaf ≡ first_removed (state_of g state.now) scope) }
    ensures goes { IfOk result (λ leaf. (g : _) →
        Goes (state_of g state.now) known.new.rows.items leaf) }
{
    let count = state.rows.table.as_slice().len();
    let (mut leaf, mut left) = known.start(alloc, state, scope, count)?;
    let from = known.rows.as_slice().len();
    for _step in from..count {
        let Some(child) = first_left(state, &mut left)? else {
            return Ok(leaf);
        };
        let below = listed(alloc, state, child)?;
        let above = mem::replace(&mut left, below);
        known.rows.push((leaf, above))?;
        leaf = child;
    }
    known.clear();
    Ok(leaf)
}

/// The children of a scope, the first one last.
fn listed<P: Parts>(alloc: Global, state: &State<P>, scope: u64) -> Result<List<u64>, OutOfMemory>
    ensures { IfOk result (λ left. (g : _) → IsKnown (state_of g state.now) (scope, left)) }
{
    let mut children = children_below(alloc, state, scope)?.into_vec();
    children.reverse();
    Ok(List::from_vec(children))
}

/// The last one of these that is live, where one is. Those behind it are taken off.
fn first_left<P: Parts>(state: &State<P>, left: &mut List<u64>) -> Result<Option<u64>, OutOfMemory>
    ensures first { IfOk result (λ first. (g : _) →
        first ≡ last_live (state_of g state.now) left.old) }
    ensures same { OnOk result ((g : _) → live_of (state_of g state.now) (reverse left.new)
        ≡ live_of (state_of g state.now) (reverse left.old)) }
{
    while let Some(scope) = left.pop() {
        if state.is_live(scope) {
            left.push(scope)?;
            return Ok(Some(scope));
        }
    }
    Ok(None)
}
