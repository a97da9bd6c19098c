//! Signals: cells to be read and written, and read for a reactive context.
ghost use Rattle.std.specs.Prelude.{◌≡◌, IfOk, OnOk};
ghost use Rattle.author_bodies.specs.Comes.{Comes, ComesIfRemembered, Knows};
ghost use Rattle.rt_model.specs.World.{nothing};
ghost use Rattle.author_signals.specs.Signals as signals;

use author_bodies::{KeepsCells, or_out_of_memory, own_cell, unless_refused};
use author_calls::{BodyCx, Cx};
use rt_cells::{ReactiveContext, Target};
use rt_values::OutOfMemory;
use std::alloc::Global;
use tree_nodes::Parts;

/// A signal, by the number of its cell. `own_cell` makes the cell.
#[derive(Clone, Copy, PartialEq, Eq)]
pub struct Signal(pub u64);

/// A signal of a scope, and another one that is derived of it.
#[derive(Clone, Copy, PartialEq, Eq)]
pub struct Pair {
    /// Whether the scope runs for the first time.
    pub is_new: bool,
    pub source: Signal,
    pub derived: Signal,
}

impl Signal {
    /// Its value; none where the cell is gone. A body that reads it is run again once it is set.
    #[tactic(auto, using(author_bodies::proofs::Rules::hooking))]
    pub fn get<P: Parts, K>(
        &self,
        alloc: Global,
        cx: &mut Cx<'_, P, K>,
    ) -> Result<Option<P::Value>, OutOfMemory>
        ensures came { IfOk result (λ value. Comes cx.old cx.new (signals.get self.now.0) value) }
        ensures fault { OnOk result (cx.new.fault ≡ cx.old.fault) }
        ensures world { cx.new.world ≡ cx.old.world }
    {
        or_out_of_memory(cx.read(alloc, self.0))
    }

    /// Gives it a value, once the call at work has returned.
    #[tactic(auto, using(author_bodies::proofs::Rules::hooking))]
    pub fn set<P: Parts, K>(
        &self,
        cx: &mut Cx<'_, P, K>,
        value: P::Value,
    ) -> Result<(), OutOfMemory>
        ensures came { OnOk result (Comes cx.old cx.new (signals.set self.now.0 value) nothing) }
        ensures fault { OnOk result (cx.new.fault ≡ cx.old.fault) }
        ensures world { cx.new.world ≡ cx.old.world }
    {
        or_out_of_memory(cx.write(self.0, value))
    }

    /// Gives it a value, unless that is the one that it has.
    #[tactic(auto, using(author_bodies::proofs::Rules::hooking))]
    pub fn set_unless<P: Parts, K>(
        &self,
        cx: &mut Cx<'_, P, K>,
        same: bool,
        value: P::Value,
    ) -> Result<(), OutOfMemory>
        ensures came { OnOk result (Comes cx.old cx.new
            (signals.set_unless same self.now.0 value) nothing) }
        ensures fault { OnOk result (cx.new.fault ≡ cx.old.fault) }
        ensures world { cx.new.world ≡ cx.old.world }
    {
        if same {
            return Ok(());
        }
        self.set(cx, value)
    }

    /// Its value, read for a reactive context that has no other source from then on: whom the
    /// context tells is told once the signal is set.
    #[tactic(auto, using(author_bodies::proofs::Rules::reacting))]
    pub fn get_in<P: Parts, K>(
        &self,
        alloc: Global,
        cx: &mut Cx<'_, P, K>,
        context: ReactiveContext,
    ) -> Result<Option<P::Value>, OutOfMemory>
        ensures came { IfOk result (λ value. Comes cx.old cx.new
            (signals.get_in context.0 self.now.0) value) }
        ensures fault { OnOk result (cx.new.fault ≡ cx.old.fault) }
        ensures world { cx.new.world ≡ cx.old.world }
    {
        or_out_of_memory(cx.reset_and_run_in(context))?;
        let value = or_out_of_memory(cx.read(alloc, self.0))?;
        or_out_of_memory(cx.leave())?;
        Ok(value)
    }

    /// Its value, for a task that is woken once it is set: the value is read in the context that the
    /// task has, or in one that is made for it. None where no context is had, or the cell is gone.
    #[tactic(auto, using(author_bodies::proofs::Rules::reacting))]
    pub fn follow<P: Parts, K>(
        &self,
        alloc: Global,
        cx: &mut Cx<'_, P, K>,
        had: Option<ReactiveContext>,
    ) -> Result<Option<(ReactiveContext, P::Value)>, OutOfMemory>
        ensures came { IfOk result (λ found. Knows found cx.new (Comes cx.old cx.new
            (signals.follow self.now.0 had) (signals.found_in found))) }
        ensures world { cx.new.world ≡ cx.old.world }
    {
        let Some(context) = still_waking(cx, had)? else {
            return Ok(None);
        };
        match self.get_in(alloc, cx, context)? {
            Some(value) => Ok(Some((context, value))),
            None => Ok(None),
        }
    }
}

/// Two signals of the scope, made at its first run; none where a call was refused.
#[tactic(auto, using(author_bodies::proofs::Rules::hooking))]
pub fn own_pair<P: KeepsCells>(
    alloc: Global,
    cx: &mut BodyCx<'_, P>,
    first: P::Value,
    second: P::Value,
) -> Result<Option<Pair>, OutOfMemory>
    ensures came { IfOk result (λ pair. Knows pair cx.new (Comes cx.old cx.new
        (signals.own_pair P.keeping first second) pair)) }
    ensures world { cx.new.world ≡ cx.old.world }
{
    let is_new = cx.hook_is_new();
    let Some(source) = own_cell(alloc, cx, first)? else {
        return Ok(None);
    };
    let Some(derived) = own_cell(alloc, cx, second)? else {
        return Ok(None);
    };
    let (source, derived) = (Signal(source), Signal(derived));
    Ok(Some(Pair {
        is_new,
        source,
        derived,
    }))
}

/// A reactive context that wakes the task at work; none outside of tasks, and where it was refused.
#[tactic(auto, using(author_bodies::proofs::Rules::reacting))]
pub fn waking<P: Parts, K>(cx: &mut Cx<'_, P, K>) -> Result<Option<ReactiveContext>, OutOfMemory>
    ensures came { IfOk result (λ context. Knows context cx.new (Comes cx.old cx.new
        signals.waking (signals.number_in context))) }
    ensures world { cx.new.world ≡ cx.old.world }
{
    match cx.current_task() {
        Some(task) => unless_refused(cx.new_context(Target::Task(task))),
        None => Ok(None),
    }
}

/// The context that a task has; a new one that wakes it, where it has none.
#[tactic(auto, using(author_bodies::proofs::Rules::reacting))]
pub fn still_waking<P: Parts, K>(
    cx: &mut Cx<'_, P, K>,
    had: Option<ReactiveContext>,
) -> Result<Option<ReactiveContext>, OutOfMemory>
    ensures came { IfOk result (λ context. Knows context cx.new (Comes cx.old cx.new
        (signals.still_waking had) (signals.number_in context))) }
    ensures world { cx.new.world ≡ cx.old.world }
{
    match had {
        Some(context) => Ok(Some(context)),
        None => waking(cx),
    }
}

/// Spawns a task at the scope's first run.
#[tactic(auto, using(author_bodies::proofs::Rules::spawning))]
pub fn spawn_once<P: Parts, K>(
    cx: &mut Cx<'_, P, K>,
    is_new: bool,
    state: P::TaskState,
) -> Result<(), OutOfMemory>
    ensures came { OnOk result (ComesIfRemembered cx.old cx.new
        (signals.spawn_once is_new state) nothing) }
    ensures world { cx.new.world ≡ cx.old.world }
{
    if !is_new {
        return Ok(());
    }
    match unless_refused(cx.spawn(state))? {
        Some(_task) => Ok(()),
        None => Ok(()),
    }
}
