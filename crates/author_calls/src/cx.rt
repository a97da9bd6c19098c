//! A call under way.
ghost use Rattle.std.specs.Prelude.{◌≡◌, ◌+◌, min, true, false};
ghost use Rattle.author_calls.specs.Turn.{begun, ended};
ghost use Rattle.run_records.specs.Enter.{world_of};

mod cells;
mod contexts;
mod errors;
mod given;
mod hooks;
mod reactive;
mod steps;
mod tasks;

use crate::calls::Calls;
use crate::turn::{Turn, TurnParts};
use rt_cells::{Cells, ReactiveContext, Source};
use rt_values::{List, ScopeId, Task};
use run_records::{Command, CxFault, Firsts, Rows, World};
use std::alloc::Global;
use std::marker::{Model, PhantomData};
use std::snapshot::Snapshot;
use tree_nodes::Parts;

/// A call that keeps no hooks.
#[derive(Drop)]
pub struct Plain;

/// A body.
#[derive(Drop)]
pub struct InBody;

/// A call under way, of the kind `K`.
#[derive(Drop)]
pub struct Cx<'a, P: Parts, K = Plain> {
    kind: PhantomData<K>,
    rows: &'a Rows<P>,
    cells: &'a Cells<P::Value>,
    first: Firsts,
    task: Option<Task>,
    rendering: bool,
    scope: ScopeId,
    /// Whether it is a body, whose reads are recorded.
    in_body: bool,
    /// The index of the next hook.
    index: u64,
    /// The reactive contexts that reads go to, the last one first of all.
    into: List<ReactiveContext>,
    reads: List<Source>,
    /// What was read into reactive contexts, or by a call that is no body.
    aside: List<Source>,
    /// What is asked for. What the call made or provided is found here again.
    commands: List<Command<P>>,
    next: Firsts,
    fault: Option<CxFault>,
}

/// A body under way.
pub type BodyCx<'a, P> = Cx<'a, P, InBody>;

impl<'a, P: Parts, K> Model for Cx<'a, P, K> {
    ghost use Rattle.author_calls.specs.Turn.{Call};
    ghost use Rattle.run_records.specs.World.{rows_in, boundaries_in};

    ghost Value = { Call P P.Component P.Props P.Value P.Handler P.TaskState P.Effect P.Payload };

    ghost view = { λ c. record {
      world = record { scope = c.scope; rows = rows_in c.rows.now.table; boundaries = boundaries_in c.rows.now.table; cells = c.cells.now.cells; next = c.first; task = c.task; rendering = c.rendering };
      in_body = c.in_body;
      index = c.index;
      into = c.into;
      reads = c.reads;
      aside = c.aside;
      commands = c.commands;
      next = c.next;
      fault = c.fault;
    } };
}

impl<'a, P: Parts> Cx<'a, P> {
    /// Begins a call that is no body, in a scope.
    pub fn enter(
        alloc: Global,
        calls: &mut Calls,
        world: &World<'a, P>,
        scope: ScopeId,
    ) -> Cx<'a, P>
        ensures begun { result ≡ begun false (world_of world.now scope) }
        ensures counted { calls.new ≡ min (calls.old + 1) u64.MAX }
    {
        calls.raise();
        Cx::begin(alloc, world, scope, false)
    }
}

impl<'a, P: Parts> Cx<'a, P, InBody> {
    /// Begins the body of a scope.
    pub fn enter(
        alloc: Global,
        calls: &mut Calls,
        world: &World<'a, P>,
        scope: ScopeId,
    ) -> BodyCx<'a, P>
        ensures begun { result ≡ begun true (world_of world.now scope) }
        ensures counted { calls.new ≡ min (calls.old + 1) u64.MAX }
    {
        calls.raise();
        Cx::begin(alloc, world, scope, true)
    }

    /// The calls that every `Cx` has.
    pub fn all(&mut self) -> &mut BodyCx<'a, P>
        ensures same { result.ghost_name ≡ self.entry.ghost_name }
        ensures value { result.now ≡ self.old }
    {
        self
    }
}

impl<'a, P: Parts, K> Cx<'a, P, K> {
    /// A call at its start.
    fn begin(alloc: Global, world: &World<'a, P>, scope: ScopeId, in_body: bool) -> Cx<'a, P, K>
        ensures { result ≡ begun in_body (world_of world.now scope) }
    {
        Cx {
            kind: PhantomData,
            rows: world.rows,
            cells: world.cells,
            first: world.next,
            task: world.task,
            rendering: world.rendering,
            scope,
            in_body,
            index: 0,
            into: List::new(alloc),
            reads: List::new(alloc),
            aside: List::new(alloc),
            commands: List::new(alloc),
            next: world.next,
            fault: None,
        }
    }

    /// Ends the call with its answer.
    pub fn finish<T>(self, answer: T) -> Turn<P, T>
        ensures { result ≡ ended self.entry answer }
    {
        let rows = Snapshot::of(self.rows);
        let cells = Snapshot::of(self.cells);
        let Cx {
            kind: _,
            rows: _,
            cells: _,
            first,
            task,
            rendering,
            scope,
            in_body: _,
            index: _,
            into: _,
            reads,
            aside,
            commands,
            next,
            fault,
        } = self;
        Turn {
            rows,
            cells,
            first,
            task,
            rendering,
            scope,
            aside,
            parts: TurnParts {
                answer,
                reads,
                commands,
                next,
                fault,
            },
        }
    }
}
