//! The order in which scopes and tasks come up.
ghost use Rattle.std.specs.Prelude.{◌≡◌, ℕ, nat_eq, option_map};
ghost use Rattle.rt_model.specs.Next.{is_before, scope_of_task, is_active, first_seen, found, next_at_rest, least, with_effects};
ghost use Rattle.rt_model.specs.Next as model;
ghost use Rattle.run_records.specs.Kept.{scope_of};
ghost use Rattle.run_state.specs.Effects.{comes_up, effects_at, has_effects};
ghost use Rattle.run_state.specs.Names.{work_of};
ghost use Rattle.run_state.specs.Mirror.{scopes_of, state_of};
ghost use Rattle.run_state.specs.Orders.{StandFor, order_of, taken_of};
ghost use Rattle.run_owed.specs.Stands.{queued_line, seen_orders};
ghost use Rattle.rt_sched.specs.Order.{order_before};
ghost use Rattle.rt_sched.specs.Queues.{next_work};

use crate::names::Work;
use crate::state::State;
use rt_sched::Work as Queued;
use run_records::Scope;
use tree_nodes::Parts;

impl<P: Parts> State<P> {
    /// Whether a scope comes before another: by height, and then by number.
    pub fn is_before(&self, scope: u64, other: u64) -> bool
        ensures { result ≡ is_before (scopes_of self.now.rows.table) scope other }
    {
        let (height, other_height) = (self.height_of(scope), self.height_of(other));
        height < other_height || (height == other_height && scope < other)
    }

    /// The scope whose order a task has.
    #[tactic(auto, using(crate::proofs::Each::eaches))]
    pub fn scope_of_task(&self, task: u64) -> u64
        ensures { (g : _) → result ≡ scope_of_task (state_of g self.now) task }
    {
        match self.tasks.get(task) {
            Some(row) => row.scope,
            None => 0,
        }
    }

    /// Whether a task is live and isn't paused.
    #[tactic(auto, using(crate::proofs::Each::eaches))]
    pub fn is_active(&self, task: u64) -> bool
        ensures { (g : _) → result ≡ is_active (state_of g self.now) task }
    {
        match self.tasks.get(task) {
            Some(row) => row.active,
            None => false,
        }
    }

    /// The seen scope of the least order.
    pub fn first_seen(&self) -> Option<u64>
        ensures { (g : _) → result ≡ first_seen (state_of g self.now) }
    {
        self.owed.first_seen()
    }

    /// The scope or task that comes up, as the queues answer it: the lesser of the two, the task on equal
    /// order.
    pub fn found(&self) -> Option<Work>
        ensures { (g : _) → option_map work_of result ≡ found (state_of g self.now) }
    {
        match self.owed.next_work() {
            Some(work) => Some(numbered(work)),
            None => None,
        }
    }

    /// The order of the queues is that by which work comes; they hold what is seen and queued, and what they
    /// answer next is what comes up.
    #[inline(always)]
    pub fn queues_agree(&self)
        ensures orders { (s t : ℕ) → is_before (scopes_of self.now.rows.table) s t
            ≡ order_before (order_of (scopes_of self.now.rows.table) s)
            (order_of (scopes_of self.now.rows.table) t) }
        ensures stand { (g : _) → StandFor (state_of g self.now) (seen_orders self.now.owed)
            (queued_line self.now.owed) }
        ensures next { (g : _) → option_map taken_of (next_work (seen_orders self.now.owed)
            (queued_line self.now.owed)) ≡ found (state_of g self.now) }
    {
        self.owed.stand_sorted();
    }

    /// The mounted scope of the least order that has queued effects. Those that have some are met in their
    /// order, up to the first that is mounted.
    pub fn first_with_effects(&self) -> Option<u64>
        ensures { result ≡ least (λ s t. is_before (scopes_of self.now.rows.table) s t)
            (with_effects (scopes_of self.now.rows.table)) }
    {
        let mut left = self.effects.iter();
        while let Some(rank) = left.next() {
            if self.comes_up(rank.0, rank.1) {
                return Some(rank.1);
            }
        }
        None
    }

    /// Whether a scope of a height is live and mounted and has queued effects.
    fn comes_up(&self, height: u64, scope: u64) -> bool
        ensures { result ≡ comes_up (scopes_of self.now.rows.table) height scope }
    {
        is_level(height, self.height_of(scope)) && self.effects_at(scope)
    }

    /// Whether a scope is live, mounted and has queued effects.
    #[tactic(auto, using(crate::proofs::Each::eaches))]
    fn effects_at(&self, scope: u64) -> bool
        ensures { result ≡ effects_at (scopes_of self.now.rows.table) scope }
    {
        match self.scope(scope) {
            Some(found) => has_effects(found),
            None => false,
        }
    }

    /// The effects of the least mounted scope that has some.
    pub(crate) fn next_effects(&self) -> Option<Work>
        ensures { option_map work_of result ≡ option_map model.RunEffects
            (least (λ s t. is_before (scopes_of self.now.rows.table) s t)
            (with_effects (scopes_of self.now.rows.table))) }
    {
        match self.first_with_effects() {
            Some(scope) => Some(Work::RunEffects(scope)),
            None => None,
        }
    }

    /// What comes next of a state at rest: the least seen scope or queued task, else the effects of the
    /// least mounted scope that has some.
    pub fn next_at_rest(&self) -> Option<Work>
        ensures { (g : _) → option_map work_of result ≡ next_at_rest (state_of g self.now) }
    {
        match self.found() {
            Some(work) => Some(work),
            None => self.next_effects(),
        }
    }
}

/// What the queues answer, by its number.
fn numbered(work: Queued) -> Work
    ensures { work_of result ≡ taken_of work }
{
    match work {
        Queued::RerunScope(order) => Work::RerunScope(order.id().0),
        Queued::PollTask(task) => Work::PollTask(task.0),
    }
}

/// Whether a scope is mounted and has queued effects.
fn has_effects<P: Parts>(scope: &Scope<P>) -> bool
    ensures { result ≡ has_effects (scope_of scope.now) }
{
    match scope.rest.effects.get(0) {
        Some(_effect) => scope.rest.mounted,
        None => false,
    }
}

/// Whether two heights are the same.
fn is_level(height: u64, other: u64) -> bool
    ensures { result ≡ nat_eq height other }
{
    height == other
}
