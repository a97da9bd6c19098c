//! What scopes provide.
ghost use Rattle.std.specs.Prelude.{◌≡◌, map, OnOk, OnErr};
ghost use Rattle.std.specs.Option.{option_copied};
ghost use Rattle.rt_model.specs.Lists.{at, put};
ghost use Rattle.rt_model.specs.State.{change};
ghost use Rattle.rt_model.specs.Commands.{provide_context};
ghost use Rattle.run_records.specs.Kept.{provided_of};
ghost use Rattle.rt_model.specs.OneLog.{types};
ghost use Rattle.rt_model.specs.World.{Application};
ghost use Rattle.rt_model.specs.Laws.{Tests};
ghost use Rattle.run_records.specs.Provisions.{put_provided};
ghost use Rattle.run_state.specs.Provided.{provides_now};
ghost use Rattle.run_state.specs.Drawn.{kept_for};
ghost use Rattle.run_state.specs.Mirror.{state_of};

use crate::state::State;
use rt_cells::Source;
use rt_values::{OutOfMemory, Part, ScopeId};
use run_records::{Provisions, Scope};
use tree_nodes::Parts;

/// The first value of a kind.
fn provided_in<P: Parts>(contexts: &Provisions<P>, kind: u32) -> Option<&P::Value>
    ensures { option_copied result ≡ at (map provided_of contexts.now) kind }
{
    contexts.get(kind)
}

impl<P: Parts> State<P> {
    /// A live scope provides a value of a kind. Those who read that are marked where it was absent or
    /// differs.
    pub fn provide_context(
        &mut self,
        scope: u64,
        kind: u32,
        value: P::Value,
    ) -> Result<(), OutOfMemory>
        ensures provided { (app : Application (types P.Component P.Props P.Value P.Handler P.TaskState P.Effect P.Payload))
            → Tests P.Value app.same_value → OnOk result ((g : _) → state_of g self.new
            ≡ provide_context app (state_of g self.old) scope kind value) }
        ensures err { OnErr result (self.new ≡ self.old) }
    {
        let Some(same) = self.provides(scope, kind, &value) else {
            return Ok(());
        };
        self.put_context(scope, kind, value)?;
        if same {
            Ok(())
        } else {
            self.tell(Source::Context(kind, ScopeId(scope)))
        }
    }

    /// Whether a live scope provides this value of a kind already.
    pub(crate) fn provides(&self, scope: u64, kind: u32, value: &P::Value) -> Option<bool>
        ensures { (app : Application (types P.Component P.Props P.Value P.Handler P.TaskState P.Effect P.Payload))
            → Tests P.Value app.same_value → (g : _) → result
            ≡ provides_now app (state_of g self.now) scope kind value.now }
    {
        let Some(found) = self.scope(scope) else {
            return None;
        };
        match provided_in(&found.row.contexts, kind) {
            Some(old) => Some(old.same(value)),
            None => Some(false),
        }
    }

    /// Puts a value among what a live scope provides.
    fn put_context(&mut self, scope: u64, kind: u32, value: P::Value) -> Result<(), OutOfMemory>
        ensures put { OnOk result ((g : _) → state_of g self.new
            ≡ change (state_of g self.old) scope
            (λ x. record x { contexts = put x.contexts kind value })) }
        ensures err { OnErr result (self.new ≡ self.old) }
    {
        self.change_asked(
            scope,
            |found: &mut Scope<P>| -> Result<(), OutOfMemory>
                ensures changed { OnOk result (found.new ≡ record found.old {
                  row = record found.old.row {
                    contexts = put_provided found.old.row.contexts kind value;
                  };
                }) }
                ensures stay { kept_for found.new ≡ kept_for found.old }
                ensures err { OnErr result (found.new ≡ found.old) }
            { found.row.contexts.put(kind, value) },
        )
    }
}
