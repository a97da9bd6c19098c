//! Listeners of events.
ghost use Rattle.std.specs.Prelude.{◌≡◌};
ghost use Rattle.rt_scopes.specs.Hearings.{Hears};

use crate::scopes::{Scopes, apart};
use author_calls::{App, Calls, Cx, Plain};
use rt_values::ScopeId;
use run_state::Stop;
use tree_nodes::Event;

impl<A: App> Scopes<A> {
    /// Calls a listener's handler with an event, in the scope that it belongs to, and then does
    /// what it asked for.
    pub fn call_handler(
        &mut self,
        app: &A,
        calls: &mut Calls,
        scope: ScopeId,
        handler: &A::Handler,
        event: &mut Event<A::Payload>,
    ) -> Result<(), Stop>
        ensures heard { Hears (A.meaning app.now) self.old.state calls.old scope.0 handler.now
            event.old self.new.state calls.new event.new result }
    {
        let world = self.state.world(None, false);
        let cx = Cx::<A, Plain>::enter(self.alloc, calls, &world, scope);
        let turn = app.handle(self.alloc, handler, event, cx)?;
        let ((), left) = apart(turn.parts());
        let commands = self.after_call(left)?;
        self.do_commands(scope, commands)?;
        Ok(())
    }
}
