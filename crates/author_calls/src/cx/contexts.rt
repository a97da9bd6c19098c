//! Contexts: provided, and looked up through the scopes above.
ghost use Rattle.std.specs.Prelude.{◌≡◌, ◌+◌, None, Some, IfOk, IfErr, OnOk, length, true, false};
ghost use Rattle.rt_model.specs.Program.{own_context, provides, look_up, look_here, looked_up};
ghost use Rattle.run_records.specs.Records.{given_of, world_of};
ghost use Rattle.author_calls.specs.Calls.{call_of};
ghost use Rattle.author_programs.specs.Reads.{looked_at};
ghost use Rattle.author_calls.specs.Steps.{WantedMemory, LostMemory};

use crate::cx::Cx;
use crate::made::{copied, made_context};
use rt_cells::Source;
use rt_values::{OutOfMemory, ScopeId};
use run_records::{Command, CxFault};
use std::alloc::Global;
use tree_nodes::Parts;

impl<'a, P: Parts, K> Cx<'a, P, K> {
    /// Provides a value of a kind at the caller's scope. Refused for want of memory alone, which
    /// the turn keeps as its fault where it is the first; nothing else changes. In dioxus-core
    /// `provide_context`, where the kind is the value's type, and which answers the value.
    pub fn provide_context(&mut self, kind: u32, value: P::Value) -> Result<(), CxFault>
        ensures call { OnOk result (call_of self.new
            ≡ provides (world_of self.old.world) (call_of self.old) false kind value) }
        ensures fault { OnOk result (self.new.fault ≡ self.old.fault) }
        ensures err { IfErr result (WantedMemory self.old self.new) }
        ensures world { self.new.world ≡ self.old.world }
    {
        self.say(Command::Provide {
            root: false,
            kind,
            value,
        })
    }

    /// Provides a value of a kind at the root wrapper. Refused for want of memory alone, which the
    /// turn keeps as its fault where it is the first; nothing else changes. In dioxus-core
    /// `provide_root_context`.
    pub fn provide_root_context(&mut self, kind: u32, value: P::Value) -> Result<(), CxFault>
        ensures call { OnOk result (call_of self.new
            ≡ provides (world_of self.old.world) (call_of self.old) true kind value) }
        ensures fault { OnOk result (self.new.fault ≡ self.old.fault) }
        ensures err { IfErr result (WantedMemory self.old self.new) }
        ensures world { self.new.world ≡ self.old.world }
    {
        self.say(Command::Provide {
            root: true,
            kind,
            value,
        })
    }

    /// What the nearest scope provides of a kind, the caller's scope first. None where no scope
    /// does. In a body each scope on the way is noted as read. Refused for want of memory alone,
    /// which the turn keeps as its fault where it is the first. In dioxus-core
    /// `try_consume_context`, and `consume_context`, which panics where this answers none; neither
    /// notes a read.
    pub fn try_consume_context(
        &mut self,
        alloc: Global,
        kind: u32,
    ) -> Result<Option<P::Value>, CxFault>
        ensures value { IfOk result (λ value. value
            ≡ (look_up (world_of self.old.world) None kind (call_of self.old)).value) }
        ensures call { OnOk result (call_of self.new
            ≡ (look_up (world_of self.old.world) None kind (call_of self.old)).call) }
        ensures fault { OnOk result (self.new.fault ≡ self.old.fault) }
        ensures err { IfErr result (LostMemory self.old self.new) }
        ensures world { self.new.world ≡ self.old.world }
    {
        self.look_up(alloc, self.scope, kind)
    }

    /// What the nearest scope provides of a kind, the named scope first. None where no scope does.
    /// Refused for want of memory alone, which the turn keeps as its fault where it is the first.
    /// In dioxus-core `consume_context_from_scope`.
    pub fn consume_context_from_scope(
        &mut self,
        alloc: Global,
        scope: ScopeId,
        kind: u32,
    ) -> Result<Option<P::Value>, CxFault>
        ensures value { IfOk result (λ value. value
            ≡ (look_up (world_of self.old.world) (Some scope.0) kind (call_of self.old)).value) }
        ensures call { OnOk result (call_of self.new
            ≡ (look_up (world_of self.old.world) (Some scope.0) kind (call_of self.old)).call) }
        ensures fault { OnOk result (self.new.fault ≡ self.old.fault) }
        ensures err { IfErr result (LostMemory self.old self.new) }
        ensures world { self.new.world ≡ self.old.world }
    {
        self.look_up(alloc, scope, kind)
    }

    /// What the caller's scope itself provides of a kind. None where it provides none. Refused for
    /// want of memory alone, which the turn keeps as its fault where it is the first. In
    /// dioxus-core `has_context`.
    pub fn has_context(&mut self, alloc: Global, kind: u32) -> Result<Option<P::Value>, CxFault>
        ensures value { IfOk result (λ value. value
            ≡ (look_here (world_of self.old.world) kind (call_of self.old)).value) }
        ensures call { OnOk result (call_of self.new
            ≡ (look_here (world_of self.old.world) kind (call_of self.old)).call) }
        ensures fault { OnOk result (self.new.fault ≡ self.old.fault) }
        ensures err { IfErr result (LostMemory self.old self.new) }
        ensures world { self.new.world ≡ self.old.world }
    {
        self.look_at(alloc, self.scope, kind)
    }

    /// Looks a kind up from a scope upwards.
    #[tactic(auto, using(crate::proofs::Climbs::looking))]
    fn look_up(
        &mut self,
        alloc: Global,
        from: ScopeId,
        kind: u32,
    ) -> Result<Option<P::Value>, CxFault>
        ensures value { IfOk result (λ value. value ≡ (looked_up (world_of self.old.world) kind
            (length (given_of self.old.world).parents + 1) from.0 (call_of self.old)).value) }
        ensures call { OnOk result (call_of self.new ≡ (looked_up (world_of self.old.world) kind
            (length (given_of self.old.world).parents + 1) from.0 (call_of self.old)).call) }
        ensures fault { OnOk result (self.new.fault ≡ self.old.fault) }
        ensures err { IfErr result (LostMemory self.old self.new) }
        ensures world { self.new.world ≡ self.old.world }
    {
        let rows = self.rows;
        let mut scope = from;
        for _steps in 0..rows.len() as u128 + 1 {
            if let Some(value) = self.look_at(alloc, scope, kind)? {
                return Ok(Some(value));
            }
            match rows.parent(scope) {
                Some(parent) => scope = parent,
                None => return Ok(None),
            }
        }
        Ok(None)
    }

    /// What one scope provides of a kind. What the call itself has provided is no read.
    fn look_at(
        &mut self,
        alloc: Global,
        scope: ScopeId,
        kind: u32,
    ) -> Result<Option<P::Value>, CxFault>
        ensures value { IfOk result (λ value. value
            ≡ (looked_at (world_of self.old.world) kind scope.0 (call_of self.old)).value) }
        ensures call { OnOk result (call_of self.new
            ≡ (looked_at (world_of self.old.world) kind scope.0 (call_of self.old)).call) }
        ensures fault { OnOk result (self.new.fault ≡ self.old.fault) }
        ensures err { IfErr result (LostMemory self.old self.new) }
        ensures world { self.new.world ≡ self.old.world }
    {
        let own = self.own_context(alloc, scope, kind);
        if let Some(value) = self.or_refuse(own)? {
            return Ok(Some(value));
        }
        self.note(Source::Context(kind, scope))?;
        let provided = copied(alloc, self.rows.provided(scope, kind));
        let value = self.or_refuse(provided)?;
        Ok(value)
    }

    /// A copy of what the call itself has provided of a kind at a scope.
    fn own_context(
        &self,
        alloc: Global,
        scope: ScopeId,
        kind: u32,
    ) -> Result<Option<P::Value>, OutOfMemory>
        ensures { IfOk result (λ value.
            value ≡ own_context (call_of self.now).provided kind scope.0) }
    {
        let commands = self.commands.as_slice();
        let value = copied(alloc, made_context(commands, self.scope, scope, kind))?;
        Ok(value)
    }
}
