//! What a call is given. None of these takes memory.
ghost use Rattle.std.specs.Prelude.{◌≡◌, Err};
ghost use Rattle.rt_model.specs.Program.{parent_in};
ghost use Rattle.tree_nodes.specs.declared.error.RenderError.TheVariants.{Suspended};
ghost use Rattle.run_records.specs.Records.{number_of};
ghost use Rattle.run_records.specs.Records.{given_of};

use crate::cx::Cx;
use rt_values::{ScopeId, Task};
use tree_nodes::{Element, Parts, RenderError, SuspendedFuture};

impl<'a, P: Parts, K> Cx<'a, P, K> {
    /// The caller's scope. In dioxus-core `current_scope_id`.
    pub fn current_scope_id(&self) -> ScopeId
        ensures { result ≡ self.now.world.scope }
    {
        self.scope
    }

    /// The parent of the caller's scope. None of the root wrapper. In dioxus-core `parent_scope`.
    #[tactic(auto, using(run_records::proofs::RowsAt::found))]
    pub fn parent_scope(&self) -> Option<ScopeId>
        ensures { number_of result
            ≡ parent_in (given_of self.now.world).parents (given_of self.now.world).scope }
    {
        self.rows.parent(self.scope)
    }

    /// The task that is being polled. None in another call. In dioxus-core the runtime's
    /// `current_task`.
    pub fn current_task(&self) -> Option<Task>
        ensures { result ≡ self.now.world.task }
    {
        self.task
    }

    /// Whether a patch is running. In dioxus-core `vdom_is_rendering`, which a build sets in the
    /// root's own run alone.
    pub fn vdom_is_rendering(&self) -> bool
        ensures { result ≡ (given_of self.now.world).rendering }
    {
        self.rendering
    }

    /// A suspension of the caller's scope on a task, which a body answers. In dioxus-core
    /// `suspend`.
    pub fn suspend(&self, task: Task) -> Element<P>
        ensures { result ≡ Err (Suspended (record {
          origin = self.now.world.scope;
          task = task;
        })) }
    {
        Err(RenderError::Suspended(SuspendedFuture::new(self.scope, task)))
    }
}
