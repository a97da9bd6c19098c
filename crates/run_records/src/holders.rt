//! The tasks that hold a suspense boundary.
ghost use Rattle.std.specs.Prelude.{◌≡◌, ◌<◌, ◌↔◌, ◌++◌, ◌∷◌, [], length, get_or, map, nat_eq, not, IsTrue, IfSome, IfNone, OnOk, OnErr, true, false};
ghost use Rattle.std.specs.List.{list_any};
ghost use Rattle.rt_model.specs.Lists.{kept_by};
ghost use Rattle.run_records.specs.Futures.{holder_of};

use rt_values::{List, OutOfMemory, ScopeId, Task};
use std::alloc::Global;
use std::marker::Model;
use tree_nodes::SuspendedFuture;

/// Tasks that hold a suspense boundary, in order of joining. A clause sees each as its number with that of
/// the scope whose body waits for it.
#[derive(Drop)]
pub struct Holders {
    futures: List<SuspendedFuture>,
}

impl Model for Holders {
    ghost use Rattle.std.specs.Prelude.{List, ℕ, map};
    ghost use Rattle.run_records.specs.Futures.{holder_of};

    ghost Value = { List (ℕ × ℕ) };

    ghost view = { λ holders. map holder_of holders.futures };
}

impl Holders {
    /// No task.
    pub fn new(alloc: Global) -> Holders
        ensures empty { result ≡ [] }
    {
        Holders {
            futures: List::new(alloc),
        }
    }

    /// Each task with the scope whose body waits for it.
    pub fn as_slice(&self) -> &[SuspendedFuture]
        ensures futures { map holder_of result.now ≡ self.now }
    {
        self.futures.as_slice()
    }

    pub fn is_empty(&self) -> bool
        ensures empty { IsTrue result ↔ (self.now ≡ []) }
    {
        self.futures.is_empty()
    }

    /// Whether a task is among them.
    pub fn has(&self, task: u64) -> bool
        ensures { result ≡ list_any (λ h. nat_eq h.0 task) self.now }
    {
        is_among(self.futures.as_slice(), task)
    }

    /// One more task at the end, with the scope whose body waits for it.
    pub fn push(&mut self, task: u64, origin: u64) -> Result<(), OutOfMemory>
        ensures ok { OnOk result (self.new ≡ self.old ++ (task, origin) ∷ []) }
        ensures err { OnErr result (self.new ≡ self.old) }
    {
        self.futures.push(SuspendedFuture {
            origin: ScopeId(origin),
            task: Task(task),
        })?;
        Ok(())
    }

    /// Takes a task out wherever it stands.
    pub fn drop_task(&mut self, task: u64)
        ensures { self.new ≡ kept_by (λ h. not (nat_eq h.0 task)) self.old }
    {
        drop_task(&mut self.futures, task);
    }
}

/// Whether a task is waited for.
fn is_among(futures: &[SuspendedFuture], task: u64) -> bool
    ensures { result ≡ list_any (λ future. nat_eq future.task.0 task) futures.now }
{
    for future in futures {
        if future.task.0 == task {
            return true;
        }
    }
    false
}

/// Where a task stands first.
fn task_in(futures: &[SuspendedFuture], task: u64) -> Option<usize>
    ensures within { IfSome result (λ index. index < length futures.now) }
    ensures own { IfSome result (λ index. (d : _) →
        nat_eq (get_or futures.now index d).task.0 task ≡ true) }
    ensures none { IfNone result (list_any (λ future. nat_eq future.task.0 task) futures.now
        ≡ false) }
{
    for index in 0..futures.len() {
        if futures[index].task.0 == task {
            return Some(index);
        }
    }
    None
}

/// Takes a task out wherever it stands.
fn drop_task(futures: &mut List<SuspendedFuture>, task: u64)
    ensures { map holder_of futures.new
        ≡ kept_by (λ h. not (nat_eq h.0 task)) (map holder_of futures.old) }
{
    while let Some(index) = task_in(futures.as_slice(), task) {
        futures.remove(index);
    }
}
