//! What the calls of a `Cx` are made of: a refusal, a command.
ghost use Rattle.std.specs.Prelude.{◌≡◌, IfOk, IfErr, OnOk, Ok};
ghost use Rattle.author_calls.specs.Calls.{call_of};
ghost use Rattle.author_calls.specs.Steps.{refused, with_command, asked, WantedMemory};

use crate::cx::Cx;
use rt_values::OutOfMemory;
use run_records::{Command, CxFault};
use tree_nodes::Parts;

impl<'a, P: Parts, K> Cx<'a, P, K> {
    /// Keeps a refusal, where it is the first one.
    pub(crate) fn refuse(&mut self, fault: CxFault) -> CxFault
        ensures fault { result ≡ fault }
        ensures refused { self.new ≡ refused self.old fault }
    {
        if self.fault.is_none() {
            self.fault = Some(fault);
        }
        fault
    }

    /// What was made, where there was memory for it.
    pub(crate) fn or_refuse<T>(&mut self, made: Result<T, OutOfMemory>) -> Result<T, CxFault>
        ensures ok { IfOk result (λ value. (made ≡ Ok value) × (self.new ≡ self.old)) }
        ensures err { IfErr result (WantedMemory self.old self.new) }
    {
        match made {
            Ok(value) => Ok(value),
            Err(OutOfMemory) => Err(self.refuse(CxFault::OutOfMemory)),
        }
    }

    /// Asks for something.
    #[tactic(auto, using(crate::proofs::Gathered::said))]
    pub(crate) fn say(&mut self, command: Command<P>) -> Result<(), CxFault>
        ensures ok { OnOk result (self.new ≡ with_command self.old command) }
        ensures call { OnOk result (call_of self.new ≡ asked self.old command) }
        ensures err { IfErr result (WantedMemory self.old self.new) }
        ensures world { self.new.world ≡ self.old.world }
    {
        match self.commands.push(command) {
            Ok(()) => Ok(()),
            Err(_) => Err(self.refuse(CxFault::OutOfMemory)),
        }
    }
}
