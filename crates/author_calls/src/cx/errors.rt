//! Errors and marks: the nearest error, errors that are thrown, scopes that are marked.
ghost use Rattle.std.specs.Prelude.{◌≡◌, ◌↔◌, IsTrue, IfOk, IfErr, OnOk, Err, Some, option_map};
ghost use Rattle.std.specs.Option.{option_copied};
ghost use Rattle.rt_model.specs.Program.{faults, says, drew_error, nearest_boundary, error_in, noted_error};
ghost use Rattle.rt_model.specs.World as model;
ghost use Rattle.rt_model.specs.World.{at_end};
ghost use Rattle.tree_mirror.specs.Mirror.{error_of};
ghost use Rattle.run_records.specs.Records.{number_of};
ghost use Rattle.run_records.specs.Records.{given_of, world_of};
ghost use Rattle.author_calls.specs.Calls.{call_of};
ghost use Rattle.author_calls.specs.Steps.{WantedMemory, LostMemory, DrawsNone, IsTold};

use crate::cx::Cx;
use rt_cells::Source;
use rt_values::{OutOfMemory, ScopeId, Text};
use run_records::{Command, Counter, CxFault};
use std::alloc::Global;
use tree_nodes::{CapturedError, Parts};

impl<'a, P: Parts, K> Cx<'a, P, K> {
    /// The error that the nearest error boundary keeps, which is noted as read. None where it keeps
    /// none, and where there is no boundary. Refused for want of memory alone, which the turn keeps
    /// as its fault where it is the first. In dioxus-core `ErrorContext::error`.
    pub fn error(&mut self, alloc: Global) -> Result<Option<CapturedError>, CxFault>
        ensures value { IfOk result (λ error. option_map error_of error
            ≡ error_in (world_of self.old.world) (nearest_boundary (given_of self.old.world))) }
        ensures call { OnOk result (call_of self.new
            ≡ noted_error (call_of self.old) (nearest_boundary (given_of self.old.world))) }
        ensures fault { OnOk result (self.new.fault ≡ self.old.fault) }
        ensures err { IfErr result (LostMemory self.old self.new) }
        ensures world { self.new.world ≡ self.old.world }
    {
        let Some(boundary) = self.nearest_boundary() else {
            return Ok(None);
        };
        let error = copied_error(alloc, self.rows.error(boundary));
        let error = self.or_refuse(error)?;
        self.note(Source::Error(boundary))?;
        Ok(error)
    }

    /// The nearest error boundary, the caller's scope included.
    #[tactic(auto, using(crate::proofs::Climbs::bounding))]
    fn nearest_boundary(&self) -> Option<ScopeId>
        ensures { number_of result ≡ nearest_boundary (given_of self.now.world) }
    {
        let mut scope = self.scope;
        for _steps in 0..self.rows.len() {
            if self.rows.is_boundary(scope) {
                return Some(scope);
            }
            match self.rows.parent(scope) {
                Some(parent) => scope = parent,
                None => return None,
            }
        }
        None
    }

    /// An error with the next serial number. It takes no memory. Refused where errors have no
    /// number left, and then the turn keeps it as its fault where it is the first. In dioxus-core
    /// `CapturedError::new`, `msg`, `from_display` and `from_boxed`.
    #[tactic(auto, using(crate::proofs::Told::telling))]
    pub fn captured(&mut self, text: Text) -> Result<CapturedError, CxFault>
        ensures value { IfOk result (λ error.
            error ≡ record { serial = self.old.next.errors; text = text }) }
        ensures call { OnOk result (call_of self.new ≡ drew_error (call_of self.old)) }
        ensures at_end { (result ≡ Err (CxFault.IdsExhausted Counter.Errors))
            ↔ IsTrue (at_end self.old.next.errors) }
        ensures fault { OnOk result (self.new.fault ≡ self.old.fault) }
        ensures err { IfErr result (DrawsNone Counter.Errors self.old self.new) }
        ensures told { IfErr result (IsTold
            (faults (call_of self.old) (model.CounterAtEnd model.Errors)) self.old self.new) }
        ensures world { self.new.world ≡ self.old.world }
    {
        let serial = self.next.errors;
        if serial == u64::MAX {
            return Err(self.refuse(CxFault::IdsExhausted {
                what: Counter::Errors,
            }));
        }
        self.next.errors = serial + 1;
        Ok(CapturedError { serial, text })
    }

    /// Throws an error to the nearest error boundary, which keeps it where it kept none. Refused
    /// for want of memory alone, which the turn keeps as its fault where it is the first; nothing
    /// else changes. In dioxus-core `throw_error`.
    pub fn throw_error(&mut self, error: CapturedError) -> Result<(), CxFault>
        ensures call { OnOk result
            (call_of self.new ≡ says (call_of self.old) (model.Throw (error_of error))) }
        ensures fault { OnOk result (self.new.fault ≡ self.old.fault) }
        ensures err { IfErr result (WantedMemory self.old self.new) }
        ensures world { self.new.world ≡ self.old.world }
    {
        self.say(Command::Throw(error))
    }

    /// Clears the error that the nearest error boundary keeps. Refused for want of memory alone,
    /// which the turn keeps as its fault where it is the first; nothing else changes. In
    /// dioxus-core `ErrorContext::clear_errors`.
    pub fn clear_errors(&mut self) -> Result<(), CxFault>
        ensures call { OnOk result (call_of self.new ≡ says (call_of self.old) model.ClearErrors) }
        ensures fault { OnOk result (self.new.fault ≡ self.old.fault) }
        ensures err { IfErr result (WantedMemory self.old self.new) }
        ensures world { self.new.world ≡ self.old.world }
    {
        self.say(Command::ClearErrors)
    }

    /// Posts a mark of the caller's scope. Refused for want of memory alone, which the turn keeps
    /// as its fault where it is the first; nothing else changes. In dioxus-core `needs_update`.
    pub fn needs_update(&mut self) -> Result<(), CxFault>
        ensures call { OnOk result (call_of self.new
            ≡ says (call_of self.old) (model.Update (self.old.world.scope).0)) }
        ensures fault { OnOk result (self.new.fault ≡ self.old.fault) }
        ensures err { IfErr result (WantedMemory self.old self.new) }
        ensures world { self.new.world ≡ self.old.world }
    {
        let scope = self.scope;
        self.say(Command::Update { scope })
    }

    /// Posts a mark of a scope; of one that isn't live nothing changes. Refused for want of memory
    /// alone, which the turn keeps as its fault where it is the first; nothing else changes. In
    /// dioxus-core `needs_update_any`.
    pub fn needs_update_any(&mut self, scope: ScopeId) -> Result<(), CxFault>
        ensures call { OnOk result
            (call_of self.new ≡ says (call_of self.old) (model.Update scope.0)) }
        ensures fault { OnOk result (self.new.fault ≡ self.old.fault) }
        ensures err { IfErr result (WantedMemory self.old self.new) }
        ensures world { self.new.world ≡ self.old.world }
    {
        self.say(Command::Update { scope })
    }
}

/// A copy of an error, where there is one.
fn copied_error(
    alloc: Global,
    error: Option<&CapturedError>,
) -> Result<Option<CapturedError>, OutOfMemory>
    ensures { IfOk result (λ copy. copy ≡ option_copied error.entry) }
{
    match error {
        Some(error) => Ok(Some(error.copy(alloc)?)),
        None => Ok(None),
    }
}
