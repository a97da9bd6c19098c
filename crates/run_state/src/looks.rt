//! Looks: what was posted becomes seen or queued; paused tasks that come up are dropped.
ghost use Rattle.std.specs.Prelude.{◌≡◌, IfOk, IsOk, OnOk, option_map};
ghost use Rattle.rt_model.specs.Next.{look, paused, found, drops, at_rest, next_at_rest};
ghost use Rattle.run_state.specs.Names.{work_of};
ghost use Rattle.run_state.specs.Mirror.{state_of};

use crate::names::Work;
use crate::state::State;
use rt_values::OutOfMemory;
use std::alloc::Global;
use tree_nodes::Parts;

impl<P: Parts> State<P> {
    /// All that is posted becomes seen or queued, once each. Marks and wakes of what is gone are passed
    /// over. It takes no memory.
    pub fn look(&mut self, _alloc: Global) -> Result<(), OutOfMemory>
        ensures ok { IsOk result }
        ensures looked { OnOk result ((g : _) →
            state_of g self.new ≡ look (state_of g self.old)) }
    {
        self.owed.look();
        Ok(())
    }

    /// The task that comes up, where that is a paused one.
    fn paused(&self, up: Option<Work>) -> Option<u64>
        ensures { (g : _) → result ≡ paused (state_of g self.now) (option_map work_of up) }
    {
        match up {
            Some(Work::PollTask(task)) => {
                if self.is_active(task) {
                    None
                } else {
                    Some(task)
                }
            }
            Some(Work::RerunScope(_)) => None,
            Some(Work::RunEffects(_)) => None,
            None => None,
        }
    }

    /// Drops paused tasks that come up, and answers what comes up then.
    pub fn drop_paused(&mut self) -> Option<Work>
        ensures dropped { (g : _) →
            state_of g self.new ≡ drops (state_of g self.old).queued (state_of g self.old) }
        ensures next { (g : _) → option_map work_of result ≡ found (state_of g self.new) }
    {
        let mut up = self.found();
        while let Some(task) = self.paused(up) {
            self.owed.unqueue(task);
            up = self.found();
        }
        up
    }

    /// Drops paused tasks that come up, and looks where nothing is left. The answer is what comes
    /// up then.
    pub fn at_rest(&mut self, alloc: Global) -> Result<Option<Work>, OutOfMemory>
        ensures ok { IsOk result }
        ensures rest { OnOk result ((g : _) →
            state_of g self.new ≡ at_rest (state_of g self.old)) }
        ensures next { IfOk result (λ work. (g : _) →
            option_map work_of work ≡ found (state_of g self.new)) }
    {
        match self.drop_paused() {
            Some(work) => Ok(Some(work)),
            None => {
                self.look(alloc)?;
                Ok(self.drop_paused())
            }
        }
    }

    /// The same, and where nothing comes up the effects of the least mounted scope that has some.
    pub fn next_work(&mut self, alloc: Global) -> Result<Option<Work>, OutOfMemory>
        ensures ok { IsOk result }
        ensures rest { OnOk result ((g : _) →
            state_of g self.new ≡ at_rest (state_of g self.old)) }
        ensures next { IfOk result (λ work. (g : _) →
            option_map work_of work ≡ next_at_rest (state_of g self.new)) }
    {
        match self.at_rest(alloc)? {
            Some(work) => Ok(Some(work)),
            None => Ok(self.next_effects()),
        }
    }
}
