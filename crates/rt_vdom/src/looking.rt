//! What a program asks of a dom, without memory.
ghost use Rattle.std.specs.Prelude.{◌≡◌, IfOk, IfSome, is_some, map, option_map, option_and_then};
ghost use Rattle.std.specs.Option.{option_copied};
ghost use Rattle.rt_model.specs.Lists.{at};
ghost use Rattle.rt_model.specs.Queries as queries;
ghost use Rattle.rt_model.specs.Removal.{numbers_of};
ghost use Rattle.rt_model.specs.State as model;
ghost use Rattle.rt_model.specs.View as views;
ghost use Rattle.tree_edits.specs.Documents.{forest_of};
ghost use Rattle.run_records.specs.Records.{number_of};
ghost use Rattle.run_named.specs.Named.{named_in, named_of};
ghost use Rattle.run_state.specs.Outputs.{scope_seen};
ghost use Rattle.rt_vdom.specs.Doms.{HasRoot, IsCurrent, StateIn};

use crate::dom::VirtualDom;
use author_calls::App;
use rt_boundary::SuspenseContext;
use rt_edits::DocNode;
use rt_scopes::{ScopeState, Scopes, get_scope};
use rt_values::{ElementId, List, OutOfMemory, ScopeId, Task};
use run_answers::{is_descendant, live_scopes, named, provided_above, provided_here, value_of};
use run_shown::{Look, nodes_of};
use tree_nodes::Place;

impl<A: App> VirtualDom<A> {
    /// A live scope. None where it isn't live; no dom is refused. In dioxus-core
    /// `VirtualDom::get_scope`.
    pub fn get_scope(&self, id: ScopeId) -> Option<ScopeState<'_, A>>
        ensures scope { (g : _) →
            option_map scope_seen result ≡ at (StateIn g self.now).scopes id.0 }
        ensures number { IfSome result (λ state. state.id ≡ id) }
    {
        get_scope(&self.machine.scopes.state, id)
    }

    /// The root wrapper, scope 0. None at most of a dom that has failed; no dom is refused. In
    /// dioxus-core `VirtualDom::base_scope`.
    pub fn base_scope(&self) -> Option<ScopeState<'_, A>>
        ensures scope { (g : _) → option_map scope_seen result ≡ at (StateIn g self.now).scopes 0 }
        ensures number { IfSome result (λ state. (state.id).0 ≡ 0) }
        ensures live { HasRoot (λ app. A.meaning app) (is_some result) self.now }
    {
        get_scope(&self.machine.scopes.state, ScopeId(0))
    }

    /// All that the dom keeps. Wherever it stands for a state each live scope is current, or it is
    /// owed a run, or was passed over. dioxus-core has no such call.
    pub fn scopes(&self) -> &Scopes<A>
        ensures scopes { result.now ≡ self.now.machine.scopes }
        ensures current { IsCurrent (λ app. A.meaning app) self.now }
    {
        &self.machine.scopes
    }

    /// The parent of a live scope. None of the root wrapper, and of a scope that isn't live; no dom
    /// is refused. In dioxus-core the runtime's `parent_scope`.
    pub fn parent_scope(&self, scope: ScopeId) -> Option<ScopeId>
        ensures parent { (g : _) → number_of result
            ≡ model.parent_of (StateIn g self.now).scopes scope.0 }
    {
        match self.machine.scopes.state.scope(scope.0) {
            Some(found) => found.row.parent,
            None => None,
        }
    }

    /// Whether a live scope stands below another one. No scope stands below itself. In dioxus-core
    /// the runtime's `is_descendant_of`.
    pub fn is_descendant_of(&self, us: ScopeId, other: ScopeId) -> bool
        ensures below { (g : _) →
            result ≡ queries.is_descendant (StateIn g self.now) us.0 other.0 }
    {
        is_descendant(&self.machine.scopes.state, us.0, other.0)
    }

    /// Where the node of a number stands. None exactly where no live scope, hidden ones included,
    /// has a node with that number. dioxus-core has no such call.
    pub fn place_of(&self, id: ElementId) -> Option<&Place>
        ensures place { (g : _) → option_map named_in (option_copied result)
            ≡ option_map named_of (queries.node_place (StateIn g self.now) id.0) }
    {
        self.machine.scopes.state.place_of(id.0)
    }

    /// The number of scopes above a live scope. None where it isn't live; no dom is refused. In
    /// dioxus-core the runtime's `height`.
    pub fn height(&self, id: ScopeId) -> Option<u32>
        ensures height { (g : _) → result
            ≡ option_map (λ scope. scope.height) (at (StateIn g self.now).scopes id.0) }
    {
        match self.machine.scopes.state.scope(id.0) {
            Some(found) => Some(found.rest.height),
            None => None,
        }
    }

    /// The scope with which a task ends. None where the task isn't live; no dom is refused.
    /// dioxus-core has no such call.
    pub fn task_scope(&self, task: Task) -> Option<ScopeId>
        ensures scope { (g : _) → number_of result
            ≡ option_map (λ row. row.scope) (at (StateIn g self.now).tasks task.0) }
    {
        match self.machine.scopes.state.tasks.get(task.0) {
            Some(row) => Some(ScopeId(row.scope)),
            None => None,
        }
    }

    /// The task that was polled when a live task was spawned. None where there was none, and where
    /// the task isn't live. In dioxus-core the runtime's `parent_task`.
    pub fn parent_task(&self, task: Task) -> Option<Task>
        ensures parent { (g : _) → option_map (λ parent. parent.0) result
            ≡ option_and_then (λ row. row.parent) (at (StateIn g self.now).tasks task.0) }
    {
        match self.machine.scopes.state.tasks.get(task.0) {
            Some(row) => named(row.parent),
            None => None,
        }
    }

    /// The nearest suspense boundary from a scope upwards. None where there is none. In dioxus-core
    /// the runtime's `suspense_context`.
    pub fn suspense_context(&self, scope: ScopeId) -> Option<SuspenseContext>
        ensures nearest { (g : _) → option_map (λ context. context.scope.0) result
            ≡ model.suspense_context (StateIn g self.now) scope.0 }
    {
        match self.machine.scopes.state.suspense_context(scope.0) {
            Some(boundary) => Some(SuspenseContext {
                scope: ScopeId(boundary),
            }),
            None => None,
        }
    }

    /// What the nearest scope provides of a kind, from this one upwards. None where no scope does;
    /// no reader is noted. In dioxus-core the runtime's `consume_context`, which answers a value of
    /// a type.
    pub fn consume_context(&self, id: ScopeId, kind: u32) -> Option<&A::Value>
        ensures provided { (g : _) → option_copied result
            ≡ queries.provided_above (StateIn g self.now) id.0 kind }
    {
        provided_above(&self.machine.scopes.state, id.0, kind)
    }

    /// What a scope itself provides of a kind. None where it provides none, and where it isn't
    /// live; no reader is noted. In dioxus-core the runtime's `has_context`.
    pub fn has_context(&self, id: ScopeId, kind: u32) -> Option<&A::Value>
        ensures provided { (g : _) → option_copied result
            ≡ queries.provided_here (StateIn g self.now) id.0 kind }
    {
        provided_here(&self.machine.scopes.state, id.0, kind)
    }

    /// The value of a cell. None where it isn't there; no reader is noted, and no dom is refused.
    /// dioxus-core has no such call: cells are a library's there.
    pub fn read(&self, cell: u64) -> Option<&A::Value>
        ensures value { (g : _) → option_copied result
            ≡ option_map (λ row. row.value) (at (StateIn g self.now).cells cell) }
    {
        value_of(&self.machine.scopes.state, cell)
    }

    /// The live scopes, in the order in which the definitions list them. Refused for want of memory
    /// alone. dioxus-core has no such call.
    pub fn live_scopes(&self) -> Result<List<ScopeId>, OutOfMemory>
        ensures scopes { IfOk result (λ scopes. (g : _) →
            map (λ scope. scope.0) scopes ≡ numbers_of (StateIn g self.now).scopes) }
    {
        live_scopes(self.machine.scopes.alloc, &self.machine.scopes.state)
    }

    /// The document that shows. Refused for want of memory alone. dioxus-core has no such call: a
    /// renderer has the document there.
    pub fn shown(&self) -> Result<List<DocNode>, OutOfMemory>
        ensures shown { IfOk result (λ nodes. (g : _) →
            forest_of nodes ≡ views.view (StateIn g self.now)) }
    {
        self.nodes_at(0)
    }

    /// The nodes of a scope as the document has them, or would have them where the scope is hidden.
    /// None where it isn't live. Refused for want of memory alone. dioxus-core has no such call.
    pub fn nodes_of(&self, id: ScopeId) -> Result<Option<List<DocNode>>, OutOfMemory>
        ensures nodes { IfOk result (λ found. IfSome found (λ nodes. (g : _) →
            forest_of nodes ≡ views.nodes_of (StateIn g self.now) id.0)) }
        ensures live { IfOk result (λ found. (g : _) →
            is_some found ≡ model.is_live (StateIn g self.now) id.0) }
    {
        if self.machine.scopes.state.is_live(id.0) {
            Ok(Some(self.nodes_at(id.0)?))
        } else {
            Ok(None)
        }
    }

    /// The nodes of a scope.
    fn nodes_at(&self, scope: u64) -> Result<List<DocNode>, OutOfMemory>
        ensures { IfOk result (λ nodes. (g : _) →
            forest_of nodes ≡ views.nodes_of (StateIn g self.now) scope) }
    {
        let look = Look::now(&self.machine.scopes.state.rows);
        nodes_of(self.machine.scopes.alloc, &look, scope)
    }
}
