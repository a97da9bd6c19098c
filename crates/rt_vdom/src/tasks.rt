//! Tasks, as a program calls them.
ghost use Rattle.std.specs.Prelude.{◌≡◌, ◌&&◌, ℕ, true, false, not, IfOk, IfErr, is_some, option_map};
ghost use Rattle.rt_model.specs.Lists.{at};
ghost use Rattle.rt_model.specs.Commands.{activated, end, post};
ghost use Rattle.rt_model.specs.Next.{is_active};
ghost use Rattle.rt_model.specs.State.{Woken};
ghost use Rattle.rt_vdom.specs.Calls.{CausesAt, Does, FailsOn, Keeps, LeavesAll, PollsNow, RanNoUnit};
ghost use Rattle.rt_vdom.specs.Calls.{WantsBuilt, WantsMemory, WantsNothing, WantsTask, spawned_by, task_spawned};
ghost use Rattle.rt_vdom.specs.Doms.{StateIn};

use crate::dom::VirtualDom;
use author_calls::App;
use rt_values::{OutOfMemory, ScopeId, Task};
use run_answers::{DomFault, Stage, after};
use run_outside::Ended;
use run_reports::{Counter, Fault, Poll};
use run_state::Posted;

/// The calls on a task of a dom.
pub trait TaskCalls {
    /// The task's number.
    ghost number: { Self → ℕ };

    /// Ends the task. False where it isn't live, and then nothing changes. Refused of a dom that
    /// isn't built or has failed, which stays as it was; after want of memory it has failed. In
    /// dioxus-core `Task::cancel`, which answers nothing.
    fn cancel<A: App>(self, dom: &mut VirtualDom<A>) -> Result<bool, DomFault>
        ensures ended { Does (λ app. A.meaning app) (λ w. end w (number self)) dom.old dom.new result }
        ensures live { IfOk result (λ live. (g : _) →
            live ≡ is_some (at (StateIn g dom.old).tasks (number self))) }
        ensures refused { WantsBuilt WantsMemory dom.old dom.new result }
        ensures owned { Keeps dom.old dom.new }
        ensures fails { FailsOn dom.new result };

    /// Pauses the task, which isn't polled until it is resumed. Refused of a dom that isn't built
    /// or has failed, and of no other; it stays as it was. In dioxus-core `Task::pause`.
    fn pause<A: App>(&self, dom: &mut VirtualDom<A>) -> Result<(), DomFault>
        ensures activated { Does (λ app. A.meaning app)
            (λ w. activated w (number self.now) false (at w.tasks (number self.now)))
            dom.old dom.new result }
        ensures refused { WantsBuilt WantsNothing dom.old dom.new result }
        ensures owned { Keeps dom.old dom.new }
        ensures kept { LeavesAll dom.old dom.new result };

    /// Makes the task active. A change from paused to active wakes it. Refused of a dom that isn't
    /// built or has failed, and of no other; it stays as it was. In dioxus-core `Task::resume`.
    fn resume<A: App>(&self, dom: &mut VirtualDom<A>) -> Result<(), DomFault>
        ensures activated { Does (λ app. A.meaning app)
            (λ w. activated w (number self.now) true (at w.tasks (number self.now)))
            dom.old dom.new result }
        ensures refused { WantsBuilt WantsNothing dom.old dom.new result }
        ensures owned { Keeps dom.old dom.new }
        ensures kept { LeavesAll dom.old dom.new result };

    /// Pauses the task or makes it active. Refused of a dom that isn't built or has failed, and of
    /// no other; it stays as it was. In dioxus-core `Task::set_active`.
    fn set_active<A: App>(&self, dom: &mut VirtualDom<A>, active: bool) -> Result<(), DomFault>
        ensures activated { Does (λ app. A.meaning app)
            (λ w. activated w (number self.now) active (at w.tasks (number self.now)))
            dom.old dom.new result }
        ensures refused { WantsBuilt WantsNothing dom.old dom.new result }
        ensures owned { Keeps dom.old dom.new }
        ensures kept { LeavesAll dom.old dom.new result };

    /// Wakes the task: it is queued at the next look. Refused of a dom that isn't built or has
    /// failed, and of no other; it stays as it was. In dioxus-core `Task::wake`.
    fn wake<A: App>(&self, dom: &mut VirtualDom<A>) -> Result<(), DomFault>
        ensures woken { Does (λ app. A.meaning app) (λ w. post w (Woken (number self.now)))
            dom.old dom.new result }
        ensures refused { WantsBuilt WantsNothing dom.old dom.new result }
        ensures owned { Keeps dom.old dom.new }
        ensures kept { LeavesAll dom.old dom.new result };

    /// Whether the task is live and paused; no dom is refused. In dioxus-core `Task::paused`.
    fn paused<A: App>(&self, dom: &VirtualDom<A>) -> bool
        ensures paused { (g : _) → result
            ≡ (is_some (at (StateIn g dom.now).tasks (number self.now))
            && not (is_active (StateIn g dom.now) (number self.now))) };

    /// Polls the task at once, where it is live and active. No look follows. Ready where it isn't
    /// live, pending where it is paused. Refused of a dom that isn't built or has failed, which
    /// stays as it was; after a fault it has failed. In dioxus-core `Task::poll_now`, which may be
    /// called inside of a body, too.
    fn poll_now<A: App>(&self, dom: &mut VirtualDom<A>) -> Result<Poll<()>, DomFault>
        ensures polled { PollsNow (λ app. A.meaning app) (number self.now) dom.old dom.new result }
        ensures refused { WantsBuilt RanNoUnit dom.old dom.new result }
        ensures owned { Keeps dom.old dom.new }
        ensures fails { FailsOn dom.new result }
        ensures caused { IfErr result (λ fault. CausesAt dom.old.limits 0 0 fault) };
}

impl TaskCalls for Task {
    ghost number = { λ task. task.0 };

    fn cancel<A: App>(self, dom: &mut VirtualDom<A>) -> Result<bool, DomFault> {
        dom.cancel_task(self)
    }

    fn pause<A: App>(&self, dom: &mut VirtualDom<A>) -> Result<(), DomFault> {
        dom.activate_task(*self, false)
    }

    fn resume<A: App>(&self, dom: &mut VirtualDom<A>) -> Result<(), DomFault> {
        dom.activate_task(*self, true)
    }

    fn set_active<A: App>(&self, dom: &mut VirtualDom<A>, active: bool) -> Result<(), DomFault> {
        dom.activate_task(*self, active)
    }

    fn wake<A: App>(&self, dom: &mut VirtualDom<A>) -> Result<(), DomFault> {
        dom.wake_task(*self)
    }

    fn paused<A: App>(&self, dom: &VirtualDom<A>) -> bool {
        dom.is_paused(*self)
    }

    fn poll_now<A: App>(&self, dom: &mut VirtualDom<A>) -> Result<Poll<()>, DomFault> {
        dom.poll_task_now(*self)
    }
}

/// A new task of a scope, as the dom's `spawn` makes it. None where the scope isn't live. Refused
/// of a dom that isn't built or has failed, where tasks have no number left, and for want of
/// memory; all stays as it was. In dioxus-core `Task::new`.
pub fn task_new<A: App>(
    dom: &mut VirtualDom<A>,
    scope: ScopeId,
    state: A::TaskState,
) -> Result<Option<Task>, DomFault>
    ensures spawned { Does (λ app. A.meaning app) (λ w. spawned_by w scope.0 state false)
        dom.old dom.new result }
    ensures number { IfOk result (λ task. (g : _) →
        option_map (λ t. t.0) task ≡ task_spawned (StateIn g dom.old) scope.0) }
    ensures refused { WantsBuilt (WantsTask dom.old scope.0) dom.old dom.new result }
    ensures owned { Keeps dom.old dom.new }
    ensures kept { LeavesAll dom.old dom.new result }
{
    dom.spawn(scope, state)
}

impl<A: App> VirtualDom<A> {
    /// A new task of a scope, active and woken. None where the scope isn't live, and then nothing
    /// changes. Refused of a dom that isn't built or has failed, where tasks have no number left,
    /// and for want of memory; all stays as it was. In dioxus-core the runtime's `spawn`.
    pub fn spawn(&mut self, scope: ScopeId, state: A::TaskState) -> Result<Option<Task>, DomFault>
        ensures spawned { Does (λ app. A.meaning app) (λ w. spawned_by w scope.0 state false)
            self.old self.new result }
        ensures number { IfOk result (λ task. (g : _) →
            option_map (λ t. t.0) task ≡ task_spawned (StateIn g self.old) scope.0) }
        ensures refused { WantsBuilt (WantsTask self.old scope.0) self.old self.new result }
        ensures owned { Keeps self.old self.new }
        ensures kept { LeavesAll self.old self.new result }
    {
        self.spawn_kind(scope, state, false)
    }

    /// A new task of a scope, active and woken, which suspended renders poll too. None where the
    /// scope isn't live, and then nothing changes. Refused of a dom that isn't built or has failed,
    /// where tasks have no number left, and for want of memory; all stays as it was. In dioxus-core
    /// the runtime's `spawn_isomorphic`.
    pub fn spawn_isomorphic(
        &mut self,
        scope: ScopeId,
        state: A::TaskState,
    ) -> Result<Option<Task>, DomFault>
        ensures spawned { Does (λ app. A.meaning app) (λ w. spawned_by w scope.0 state true)
            self.old self.new result }
        ensures number { IfOk result (λ task. (g : _) →
            option_map (λ t. t.0) task ≡ task_spawned (StateIn g self.old) scope.0) }
        ensures refused { WantsBuilt (WantsTask self.old scope.0) self.old self.new result }
        ensures owned { Keeps self.old self.new }
        ensures kept { LeavesAll self.old self.new result }
    {
        self.spawn_kind(scope, state, true)
    }

    /// A new task of a scope, of this kind.
    fn spawn_kind(
        &mut self,
        scope: ScopeId,
        task_state: A::TaskState,
        isomorphic: bool,
    ) -> Result<Option<Task>, DomFault>
        ensures spawned { Does (λ app. A.meaning app)
            (λ w. spawned_by w scope.0 task_state isomorphic) self.old self.new result }
        ensures number { IfOk result (λ task. (g : _) →
            option_map (λ t. t.0) task ≡ task_spawned (StateIn g self.old) scope.0) }
        ensures refused { WantsBuilt (WantsTask self.old scope.0) self.old self.new result }
        ensures owned { Keeps self.old self.new }
        ensures kept { LeavesAll self.old self.new result }
    {
        match self.stage {
            Stage::Failed => Err(DomFault::Failed),
            Stage::Fresh => Err(DomFault::NotBuilt),
            Stage::Built => self.spawn_in(scope.0, task_state, isomorphic),
        }
    }

    /// A new task of a scope, where that is live.
    fn spawn_in(
        &mut self,
        scope: u64,
        task_state: A::TaskState,
        isomorphic: bool,
    ) -> Result<Option<Task>, DomFault>
        ensures spawned { Does (λ app. A.meaning app)
            (λ w. spawned_by w scope task_state isomorphic) self.old self.new result }
        ensures number { IfOk result (λ task. (g : _) →
            option_map (λ t. t.0) task ≡ task_spawned (StateIn g self.old) scope) }
        ensures refused { IfErr result (λ fault. WantsTask self.old scope fault) }
        ensures owned { Keeps self.old self.new }
        ensures kept { LeavesAll self.old self.new result }
    {
        self.leads();
        let state = &mut self.machine.scopes.state;
        if !state.is_live(scope) {
            return Ok(None);
        }
        let task = state.next.tasks;
        let Some(next) = after(task) else {
            return Err(DomFault::Run(Fault::IdsExhausted {
                what: Counter::Tasks,
            }));
        };
        state.next.tasks = next;
        match state.spawn_asked(scope, task, task_state, isomorphic) {
            Ok(()) => Ok(Some(Task(task))),
            Err(OutOfMemory) => {
                state.next.tasks = task;
                Err(DomFault::Run(Fault::OutOfMemory))
            }
        }
    }

    /// Ends a task. False where it isn't live.
    fn cancel_task(&mut self, task: Task) -> Result<bool, DomFault>
        ensures ended { Does (λ app. A.meaning app) (λ w. end w task.0) self.old self.new result }
        ensures live { IfOk result (λ live. (g : _) →
            live ≡ is_some (at (StateIn g self.old).tasks task.0)) }
        ensures refused { WantsBuilt WantsMemory self.old self.new result }
        ensures owned { Keeps self.old self.new }
        ensures fails { FailsOn self.new result }
    {
        self.leads();
        match self.stage {
            Stage::Failed => Err(DomFault::Failed),
            Stage::Fresh => Err(DomFault::NotBuilt),
            Stage::Built => {
                let live = self.machine.scopes.state.has_task(task.0);
                match self.machine.scopes.state.end(task.0) {
                    Ok(()) => Ok(live),
                    Err(OutOfMemory) => Err(self.out_of_memory()),
                }
            }
        }
    }

    /// Pauses a task or makes it active.
    fn activate_task(&mut self, task: Task, active: bool) -> Result<(), DomFault>
        ensures activated { Does (λ app. A.meaning app)
            (λ w. activated w task.0 active (at w.tasks task.0)) self.old self.new result }
        ensures refused { WantsBuilt WantsNothing self.old self.new result }
        ensures owned { Keeps self.old self.new }
        ensures kept { LeavesAll self.old self.new result }
    {
        self.leads();
        match self.stage {
            Stage::Failed => Err(DomFault::Failed),
            Stage::Fresh => Err(DomFault::NotBuilt),
            Stage::Built => match self.machine.scopes.state.activate_asked(task.0, active) {
                Ok(()) => Ok(()),
                Err(OutOfMemory) => Err(DomFault::Run(Fault::OutOfMemory)),
            },
        }
    }

    /// Wakes a task.
    fn wake_task(&mut self, task: Task) -> Result<(), DomFault>
        ensures woken { Does (λ app. A.meaning app) (λ w. post w (Woken task.0))
            self.old self.new result }
        ensures refused { WantsBuilt WantsNothing self.old self.new result }
        ensures owned { Keeps self.old self.new }
        ensures kept { LeavesAll self.old self.new result }
    {
        self.leads();
        match self.stage {
            Stage::Failed => Err(DomFault::Failed),
            Stage::Fresh => Err(DomFault::NotBuilt),
            Stage::Built => match self.machine.scopes.state.post(Posted::Woken(task.0)) {
                Ok(()) => Ok(()),
                Err(OutOfMemory) => Err(DomFault::Run(Fault::OutOfMemory)),
            },
        }
    }

    /// Whether a task is live and paused.
    fn is_paused(&self, task: Task) -> bool
        ensures paused { (g : _) → result ≡ (is_some (at (StateIn g self.now).tasks task.0)
            && not (is_active (StateIn g self.now) task.0)) }
    {
        let state = &self.machine.scopes.state;
        state.has_task(task.0) & !state.is_active(task.0)
    }

    /// Polls a task where it is live and active. No look follows.
    fn poll_task_now(&mut self, task: Task) -> Result<Poll<()>, DomFault>
        ensures polled { PollsNow (λ app. A.meaning app) task.0 self.old self.new result }
        ensures refused { WantsBuilt RanNoUnit self.old self.new result }
        ensures owned { Keeps self.old self.new }
        ensures fails { FailsOn self.new result }
        ensures caused { IfErr result (λ fault. CausesAt self.old.limits 0 0 fault) }
    {
        match self.stage {
            Stage::Failed => Err(DomFault::Failed),
            Stage::Fresh => Err(DomFault::NotBuilt),
            Stage::Built => self.poll_at_once(task),
        }
    }

    /// Polls a task where it is live and active: a paused one is pending, one that isn't live is ready.
    fn poll_at_once(&mut self, task: Task) -> Result<Poll<()>, DomFault>
        ensures polled { PollsNow (λ app. A.meaning app) task.0 self.old self.new result }
        ensures refused { IfErr result (λ fault. RanNoUnit fault) }
        ensures owned { Keeps self.old self.new }
        ensures fails { self.old.stage ≡ Stage.Built → FailsOn self.new result }
        ensures caused { IfErr result (λ fault. CausesAt self.old.limits 0 0 fault) }
    {
        let state = &self.machine.scopes.state;
        if !state.has_task(task.0) {
            return Ok(Poll::Ready(()));
        }
        if !state.is_active(task.0) {
            return Ok(Poll::Pending);
        }
        match self
            .machine
            .scopes
            .poll_task(&self.app, &mut self.calls, task)
        {
            Ok(polled) => Ok(polled),
            Err(stop) => Err(self.ended(Ended::Run(stop))),
        }
    }
}
