//! A dom over the application of a source, as it is driven.

use lang_script::{Script, TaskState};
use lang_views::{Doing, Props, Value};
use rt_cells::ReactiveContext;
use rt_edits::{DocNode, Mutations, WriteMutations};
use rt_inbox::Drained;
use rt_values::{ElementId, List, OutOfMemory, ScopeId, Task, Text};
use rt_vdom::{
    DomFault, ErrorContext, Fault, Limits, Poll, Report, SuspenseContext, TaskCalls, VirtualDom,
    task_new,
};
use run_records::Firsts;
use std::alloc::{AllocError, Global};
use test_driver::{Boundary, Driven, Scoped, put_fault};
use tree_nodes::{CapturedError, Event, Place};

/// A dom that is driven.
pub(crate) struct Kept {
    dom: VirtualDom<Script>,
}

/// It is kept, where it was made.
fn once_made(made: Result<VirtualDom<Script>, Fault>) -> Result<Kept, Fault> {
    match made {
        Ok(dom) => Ok(Kept { dom }),
        Err(fault) => Err(fault),
    }
}

/// Whether what was polled is ready.
fn is_ready(polled: Result<Poll<()>, DomFault>) -> Result<bool, DomFault> {
    match polled {
        Ok(Poll::Ready(())) => Ok(true),
        Ok(Poll::Pending) => Ok(false),
        Err(fault) => Err(fault),
    }
}

impl Driven for Kept {
    type Refused = DomFault;

    fn put_refused(alloc: Global, out: &mut String, refused: DomFault) -> Result<(), AllocError> {
        match refused {
            DomFault::NotBuilt => out.push_str("NotBuilt\n"),
            DomFault::AlreadyBuilt => out.push_str("AlreadyBuilt\n"),
            DomFault::Failed => out.push_str("Failed\n"),
            DomFault::Run(fault) => put_fault(alloc, out, fault),
        }
    }

    fn new(alloc: Global, script: Script, limits: Limits) -> Result<Kept, Fault> {
        once_made(VirtualDom::new(alloc, script, limits))
    }

    fn prebuilt(alloc: Global, script: Script, limits: Limits) -> Result<Kept, Fault> {
        once_made(VirtualDom::prebuilt(alloc, script, limits))
    }

    fn new_with_props(
        alloc: Global,
        script: Script,
        props: Props,
        limits: Limits,
    ) -> Result<Kept, Fault> {
        once_made(VirtualDom::new_with_props(alloc, script, props, limits))
    }

    fn new_from(
        alloc: Global,
        script: Script,
        props: Props,
        limits: Limits,
        firsts: Firsts,
    ) -> Result<Kept, Fault> {
        once_made(VirtualDom::new_from(alloc, script, props, limits, firsts))
    }

    fn with_root_context(self, kind: u32, value: Value) -> Result<Kept, Fault> {
        let Kept { dom } = self;
        once_made(dom.with_root_context(kind, value))
    }

    fn close(self) -> Result<Script, Fault> {
        let Kept { dom } = self;
        dom.close()
    }

    fn rebuild<M: WriteMutations>(&mut self, to: &mut M) -> Result<Report, DomFault> {
        self.dom.rebuild(to)
    }

    fn rebuild_in_place(&mut self) -> Result<Report, DomFault> {
        self.dom.rebuild_in_place()
    }

    fn rebuild_to_vec(&mut self) -> Result<Mutations, DomFault> {
        self.dom.rebuild_to_vec()
    }

    fn render_immediate<M: WriteMutations>(&mut self, to: &mut M) -> Result<Report, DomFault> {
        self.dom.render_immediate(to)
    }

    fn render_immediate_to_vec(&mut self) -> Result<Mutations, DomFault> {
        self.dom.render_immediate_to_vec()
    }

    fn process_events(&mut self) -> Result<Report, DomFault> {
        self.dom.process_events()
    }

    fn settle<M: WriteMutations>(&mut self, to: &mut M) -> Result<Report, DomFault> {
        self.dom.settle(to)
    }

    fn render_suspense_immediate(&mut self, to: &mut Mutations) -> Result<List<ScopeId>, DomFault> {
        self.dom.render_suspense_immediate(to)
    }

    fn poll_work(&mut self, drained: &Drained) -> Result<bool, DomFault> {
        is_ready(self.dom.poll_work(drained))
    }

    fn poll_suspense(&mut self, drained: &Drained) -> Result<bool, DomFault> {
        is_ready(self.dom.poll_suspense(drained))
    }

    fn poll_now(&mut self, task: Task) -> Result<bool, DomFault> {
        is_ready(task.poll_now(&mut self.dom))
    }

    fn handle_event(
        &mut self,
        name: &str,
        event: Event<Value>,
        element: ElementId,
    ) -> Result<Event<Value>, DomFault> {
        self.dom.handle_event(name, event, element)
    }

    fn mark_dirty(&mut self, scope: ScopeId) -> Result<(), DomFault> {
        self.dom.mark_dirty(scope)
    }

    fn mark_all_dirty(&mut self) -> Result<(), DomFault> {
        self.dom.mark_all_dirty()
    }

    fn mark_context(&mut self, context: u64) -> Result<bool, DomFault> {
        self.dom.mark_context(ReactiveContext(context))
    }

    fn write(&mut self, cell: u64, value: Value) -> Result<bool, DomFault> {
        self.dom.write(cell, value)
    }

    fn cancel(&mut self, task: Task) -> Result<bool, DomFault> {
        task.cancel(&mut self.dom)
    }

    fn pause(&mut self, task: Task) -> Result<(), DomFault> {
        task.pause(&mut self.dom)
    }

    fn resume(&mut self, task: Task) -> Result<(), DomFault> {
        task.resume(&mut self.dom)
    }

    fn set_active(&mut self, task: Task, active: bool) -> Result<(), DomFault> {
        task.set_active(&mut self.dom, active)
    }

    fn wake(&mut self, task: Task) -> Result<(), DomFault> {
        task.wake(&mut self.dom)
    }

    fn spawn(&mut self, scope: ScopeId, state: TaskState) -> Result<Option<Task>, DomFault> {
        self.dom.spawn(scope, state)
    }

    fn spawn_isomorphic(
        &mut self,
        scope: ScopeId,
        state: TaskState,
    ) -> Result<Option<Task>, DomFault> {
        self.dom.spawn_isomorphic(scope, state)
    }

    fn task_new(&mut self, scope: ScopeId, state: TaskState) -> Result<Option<Task>, DomFault> {
        task_new(&mut self.dom, scope, state)
    }

    fn after_suspense_resolved(
        &mut self,
        boundary: ScopeId,
        effect: Doing,
    ) -> Result<(), DomFault> {
        self.dom
            .after_suspense_resolved(SuspenseContext { scope: boundary }, effect)
    }

    fn freeze(&mut self, boundary: ScopeId) -> Result<(), DomFault> {
        self.dom.freeze(SuspenseContext { scope: boundary })
    }

    fn provide_root_context(&mut self, kind: u32, value: Value) -> Result<(), DomFault> {
        self.dom.provide_root_context(kind, value)
    }

    fn throw_error(&mut self, scope: ScopeId, text: Text) -> Result<(), DomFault> {
        self.dom.throw_error(scope, text)
    }

    fn insert_error(&mut self, boundary: ScopeId, text: Text) -> Result<(), DomFault> {
        self.dom
            .insert_error(ErrorContext { scope: boundary }, text)
    }

    fn clear_errors(&mut self, boundary: ScopeId) -> Result<(), DomFault> {
        self.dom.clear_errors(ErrorContext { scope: boundary })
    }

    fn scope(&self, scope: ScopeId) -> Option<Scoped> {
        match self.dom.get_scope(scope) {
            Some(found) => Some(Scoped {
                height: u64::from(found.height()),
                built: found.try_root_node().is_some(),
            }),
            None => None,
        }
    }

    fn parent_scope(&self, scope: ScopeId) -> Option<ScopeId> {
        self.dom.parent_scope(scope)
    }

    fn height(&self, scope: ScopeId) -> Option<u64> {
        match self.dom.height(scope) {
            Some(height) => Some(u64::from(height)),
            None => None,
        }
    }

    fn suspense_context(&self, scope: ScopeId) -> Option<ScopeId> {
        match self.dom.suspense_context(scope) {
            Some(context) => Some(context.scope),
            None => None,
        }
    }

    fn is_descendant_of(&self, scope: ScopeId, other: ScopeId) -> bool {
        self.dom.is_descendant_of(scope, other)
    }

    fn consume_context(&self, scope: ScopeId, kind: u32) -> Option<&Value> {
        self.dom.consume_context(scope, kind)
    }

    fn has_context(&self, scope: ScopeId, kind: u32) -> Option<&Value> {
        self.dom.has_context(scope, kind)
    }

    fn nodes_of(&self, scope: ScopeId) -> Result<Option<List<DocNode>>, OutOfMemory> {
        self.dom.nodes_of(scope)
    }

    fn error_context(&self, scope: ScopeId) -> Option<ScopeId> {
        match ErrorContext::of(self.dom.scopes(), scope) {
            Some(context) => Some(context.scope),
            None => None,
        }
    }

    fn error(&self, boundary: ScopeId) -> Option<&CapturedError> {
        let context = ErrorContext { scope: boundary };
        context.error(self.dom.scopes())
    }

    fn boundary(&self, scope: ScopeId) -> Option<Boundary> {
        let scopes = self.dom.scopes();
        match SuspenseContext::downcast_suspense_boundary_from_scope(scopes, scope) {
            Some(context) => Some(Boundary {
                frozen: context.frozen(scopes),
                hidden: context.is_suspended(scopes),
                held: context.has_suspended_tasks(scopes),
            }),
            None => None,
        }
    }

    fn task_scope(&self, task: Task) -> Option<ScopeId> {
        self.dom.task_scope(task)
    }

    fn parent_task(&self, task: Task) -> Option<Task> {
        self.dom.parent_task(task)
    }

    fn paused(&self, task: Task) -> bool {
        task.paused(&self.dom)
    }

    fn skipped(&self) -> &[ScopeId] {
        self.dom.skipped()
    }

    fn suspended_tasks_remaining(&self) -> bool {
        self.dom.suspended_tasks_remaining()
    }

    fn place_of(&self, element: ElementId) -> Option<&Place> {
        self.dom.place_of(element)
    }

    fn read(&self, cell: u64) -> Option<&Value> {
        self.dom.read(cell)
    }

    fn live_scopes(&self) -> Result<List<ScopeId>, OutOfMemory> {
        self.dom.live_scopes()
    }

    fn shown(&self) -> Result<List<DocNode>, OutOfMemory> {
        self.dom.shown()
    }
}
