//! Whether something is owed, of a state that stays as it is.
ghost use Rattle.std.specs.Prelude.{◌≡◌, is_some};
ghost use Rattle.rt_model.specs.Next.{drops, found, owes};
ghost use Rattle.run_state.specs.Mirror.{state_of};
ghost use Rattle.run_owed.specs.Lists.{wakes_in};
ghost use Rattle.run_owed.specs.Orders.{first_number};
ghost use Rattle.run_owed.specs.Stands.{queued_in_turn, woken_in_turn};
ghost use Rattle.run_answers.specs.Owed.{after_last, any_active, comes_later, comes_up, is_owed, turns_up};

use run_state::State;
use tree_nodes::Parts;

/// Whether something is owed.
pub(crate) fn owes<P: Parts>(state: &State<P>) -> bool
    ensures { (g : _) → result ≡ owes (state_of g state.now) }
{
    is_owed(state)
}

/// The same, told of what is there.
fn is_owed<P: Parts>(state: &State<P>) -> bool
    ensures { (g : _) → result ≡ is_owed (state_of g state.now) }
{
    comes_up(state) || comes_later(state)
}

/// Whether something comes up after a look, or a batch of effects is left.
fn comes_later<P: Parts>(state: &State<P>) -> bool
    ensures { (g : _) → result ≡ comes_later (state_of g state.now) }
{
    turns_up(state) || state.first_with_effects().is_some()
}

/// Whether a scope or a task comes up once paused tasks are dropped.
pub(crate) fn finds<P: Parts>(state: &State<P>) -> bool
    ensures { (g : _) → result
        ≡ is_some (found (drops (state_of g state.now).queued (state_of g state.now))) }
{
    comes_up(state)
}

/// Whether a scope is seen, or a queued task is active.
fn comes_up<P: Parts>(state: &State<P>) -> bool
    ensures { (g : _) → result ≡ comes_up (state_of g state.now) }
{
    !state.owed.sees_none() || any_queued(state)
}

/// Whether a queued task is active. They are met one by one.
fn any_queued<P: Parts>(state: &State<P>) -> bool
    ensures { (g : _) → result
        ≡ any_active (state_of g state.now).tasks (state_of g state.now).queued }
{
    let mut last = None;
    while let Some(task) = queued_after(state, last) {
        if state.is_active(task) {
            return true;
        }
        last = Some(task);
    }
    false
}

/// The first queued task, or the first one behind the last that was met.
fn queued_after<P: Parts>(state: &State<P>, last: Option<u64>) -> Option<u64>
    ensures { result ≡ first_number (after_last last (queued_in_turn state.now.owed)) }
{
    match last {
        Some(task) => state.owed.queued_behind(task),
        None => state.owed.next_queued(),
    }
}

/// Whether a look would see a scope, or queue a task that is active.
fn turns_up<P: Parts>(state: &State<P>) -> bool
    ensures { (g : _) → result ≡ turns_up (state_of g state.now).scopes (state_of g state.now).tasks
        (state_of g state.now).posted }
{
    state.owed.has_marks() || any_woken(state)
}

/// Whether a task of which a wake is posted is active. They are met one by one.
fn any_woken<P: Parts>(state: &State<P>) -> bool
    ensures { (g : _) → result
        ≡ any_active (state_of g state.now).tasks (wakes_in (state_of g state.now).posted) }
{
    let mut last = None;
    while let Some(task) = woken_after(state, last) {
        if state.is_active(task) {
            return true;
        }
        last = Some(task);
    }
    false
}

/// The first task of which a wake is posted, or the first one behind the last that was met.
fn woken_after<P: Parts>(state: &State<P>, last: Option<u64>) -> Option<u64>
    ensures { result ≡ first_number (after_last last (woken_in_turn state.now.owed)) }
{
    match last {
        Some(task) => state.owed.woken_behind(task),
        None => state.owed.next_woken(),
    }
}
