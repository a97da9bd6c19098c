//! Hooks of a body: by index, each with its kind, never replaced.
ghost use Rattle.std.specs.Prelude.{◌≡◌, ◌+◌, ◌-◌, ◌<◌, ◌^◌, true, false, not, nat_le, length, Some, IfOk, IfErr, OnOk, OnSome, option_map};
ghost use Rattle.std.specs.Option.{option_copied};
ghost use Rattle.rt_model.specs.Program.{kind_of, hooked, hook_value, hook_stands};
ghost use Rattle.rt_model.specs.World as model;
ghost use Rattle.rt_model.specs.World.{clean_up_kind, before_render_kind, after_render_kind};
ghost use Rattle.run_records.specs.Records.{hook_of};
ghost use Rattle.run_records.specs.Records.{given_of, world_of};
ghost use Rattle.author_calls.specs.Calls.{call_of};
ghost use Rattle.author_calls.specs.Hooks.{is_changed, kept, held_or, standing, standing_after, both_stand, HookRefused, PairRefused};
ghost use Rattle.author_calls.specs.Steps.{first_refusal, WantedMemory, IsTold};

use crate::cx::{Cx, InBody};
use rt_values::{OutOfMemory, Part};
use run_records::{AFTER_RENDER, BEFORE_RENDER, CLEAN_UP, Command, CxFault, Hook};
use std::alloc::Global;
use tree_nodes::{ListenerCallback, Parts};

impl<'a, P: Parts> Cx<'a, P, InBody> {
    /// Whether no hook stands at the next index yet. dioxus-core has no such call: it calls a
    /// closure then.
    #[tactic(auto, using(crate::proofs::Hooked::hooking))]
    pub fn hook_is_new(&self) -> bool
        ensures { result ≡ nat_le (length (given_of self.now.world).hooks) self.now.index }
    {
        self.rows.hooks(self.scope).len() as u64 <= self.index
    }

    /// How often the body has answered a tree. In dioxus-core `generation`.
    pub fn generation(&self) -> u64
        ensures { result ≡ (given_of self.now.world).renders }
    {
        self.rows.renders(self.scope)
    }

    /// A listener of the caller's scope. In dioxus-core `ListenerCallback::new`, which finds the
    /// scope itself.
    pub fn listener(&self, handler: P::Handler) -> ListenerCallback<P>
        ensures { result ≡ record { origin = self.now.world.scope; handler = handler } }
    {
        ListenerCallback {
            origin: self.scope,
            handler,
        }
    }

    /// The value that is kept at the next index; the first one is kept there where there is none.
    /// Refused as `HookChanged` where a hook of another kind stands at the index, and for want of
    /// memory; the turn keeps the first refusal as its fault. In dioxus-core `use_hook`, which
    /// takes a closure.
    #[tactic(auto, using(crate::proofs::Hooked::hooking))]
    pub fn use_hook(
        &mut self,
        alloc: Global,
        kind: u32,
        initial: P::Value,
    ) -> Result<P::Value, CxFault>
        requires kind { kind < u32.MAX - 2 }
        ensures value { IfOk result (λ value.
            hook_value kind initial (standing self.old) ≡ Some value) }
        ensures call { OnOk result (call_of self.new
            ≡ hooked (world_of self.old.world) (call_of self.old) kind
            (model.HookValue kind initial) (standing self.old)) }
        ensures changed { is_changed result ≡ not (hook_stands kind (standing self.old)) }
        ensures index { OnOk result (self.new.index ≡ self.old.index + 1) }
        ensures fault { OnOk result (self.new.fault ≡ self.old.fault) }
        ensures err { IfErr result (HookRefused kind self.old self.new) }
        ensures told { IfErr result (IsTold
            (hooked (world_of self.old.world) (call_of self.old) kind
            (model.HookValue kind initial) (standing self.old)) self.old self.new) }
        ensures world { self.new.world ≡ self.old.world }
    {
        self.meet(kind)?;
        let value = self.first_or_kept(alloc, &initial);
        let value = self.or_refuse(value)?;
        self.keep(Hook::Value(kind, initial))?;
        Ok(value)
    }

    /// Keeps an effect that is done when the scope is removed. Refused as `HookChanged` where a
    /// hook of another kind stands at the index, and for want of memory; the turn keeps the first
    /// refusal as its fault. In dioxus-core `use_drop`, which takes a closure.
    pub fn use_drop(&mut self, clean: P::Effect) -> Result<(), CxFault>
        ensures call { OnOk result (call_of self.new
            ≡ hooked (world_of self.old.world) (call_of self.old) clean_up_kind
            (model.HookEffect clean_up_kind clean) (standing self.old)) }
        ensures changed { is_changed result ≡ not (hook_stands clean_up_kind (standing self.old)) }
        ensures fault { OnOk result (self.new.fault ≡ self.old.fault) }
        ensures err { IfErr result (HookRefused clean_up_kind self.old self.new) }
        ensures told { IfErr result (IsTold
            (hooked (world_of self.old.world) (call_of self.old) clean_up_kind
            (model.HookEffect clean_up_kind clean) (standing self.old)) self.old self.new) }
        ensures world { self.new.world ≡ self.old.world }
    {
        self.effect_hook(CLEAN_UP, clean)
    }

    /// Keeps an effect that is done before each later run of the scope. Refused as `HookChanged`
    /// where a hook of another kind stands at the index, and for want of memory; the turn keeps the
    /// first refusal as its fault. In dioxus-core `use_before_render`, which takes a closure.
    pub fn use_before_render(&mut self, hook: P::Effect) -> Result<(), CxFault>
        ensures call { OnOk result (call_of self.new
            ≡ hooked (world_of self.old.world) (call_of self.old) before_render_kind
            (model.HookEffect before_render_kind hook) (standing self.old)) }
        ensures changed { is_changed result
            ≡ not (hook_stands before_render_kind (standing self.old)) }
        ensures fault { OnOk result (self.new.fault ≡ self.old.fault) }
        ensures err { IfErr result (HookRefused before_render_kind self.old self.new) }
        ensures told { IfErr result (IsTold
            (hooked (world_of self.old.world) (call_of self.old) before_render_kind
            (model.HookEffect before_render_kind hook) (standing self.old)) self.old self.new) }
        ensures world { self.new.world ≡ self.old.world }
    {
        self.effect_hook(BEFORE_RENDER, hook)
    }

    /// Keeps an effect that is done after the commands of each run of the scope. Refused as
    /// `HookChanged` where a hook of another kind stands at the index, and for want of memory; the
    /// turn keeps the first refusal as its fault. In dioxus-core `use_after_render`, which takes a
    /// closure.
    pub fn use_after_render(&mut self, hook: P::Effect) -> Result<(), CxFault>
        ensures call { OnOk result (call_of self.new
            ≡ hooked (world_of self.old.world) (call_of self.old) after_render_kind
            (model.HookEffect after_render_kind hook) (standing self.old)) }
        ensures changed { is_changed result
            ≡ not (hook_stands after_render_kind (standing self.old)) }
        ensures fault { OnOk result (self.new.fault ≡ self.old.fault) }
        ensures err { IfErr result (HookRefused after_render_kind self.old self.new) }
        ensures told { IfErr result (IsTold
            (hooked (world_of self.old.world) (call_of self.old) after_render_kind
            (model.HookEffect after_render_kind hook) (standing self.old)) self.old self.new) }
        ensures world { self.new.world ≡ self.old.world }
    {
        self.effect_hook(AFTER_RENDER, hook)
    }

    /// A value that is kept, and a clean-up after it, at two indices. Refused as `HookChanged`
    /// where a hook of another kind stands at the index, and for want of memory; the turn keeps the
    /// first refusal as its fault. In dioxus-core `use_hook_with_cleanup`, whose clean-up is given
    /// the value.
    #[tactic(auto, using(crate::proofs::Hooked::pairing))]
    pub fn use_hook_with_cleanup(
        &mut self,
        alloc: Global,
        kind: u32,
        initial: P::Value,
        clean: P::Effect,
    ) -> Result<P::Value, CxFault>
        requires kind { kind < u32.MAX - 2 }
        ensures value { IfOk result (λ value.
            hook_value kind initial (standing self.old) ≡ Some value) }
        ensures call { OnOk result (call_of self.new
            ≡ hooked (world_of self.old.world)
            (hooked (world_of self.old.world) (call_of self.old) kind
            (model.HookValue kind initial) (standing self.old))
            clean_up_kind (model.HookEffect clean_up_kind clean) (standing_after self.old)) }
        ensures kept { OnOk result (both_stand kind self.old ≡ true) }
        ensures changed { is_changed result ≡ true → both_stand kind self.old ≡ false }
        ensures fault { OnOk result (self.new.fault ≡ self.old.fault) }
        ensures err { IfErr result (λ fault.
            self.new.fault ≡ first_refusal self.old.fault fault) }
        ensures why { IfErr result (PairRefused kind self.old) }
        ensures world { self.new.world ≡ self.old.world }
    {
        let value = self.use_hook(alloc, kind, initial)?;
        self.use_drop(clean)?;
        Ok(value)
    }

    /// Keeps an effect under a kind.
    #[tactic(auto, using(crate::proofs::Hooked::hooking))]
    fn effect_hook(&mut self, kind: u32, effect: P::Effect) -> Result<(), CxFault>
        ensures call { OnOk result (call_of self.new
            ≡ hooked (world_of self.old.world) (call_of self.old) kind
            (model.HookEffect kind effect) (standing self.old)) }
        ensures changed { is_changed result ≡ not (hook_stands kind (standing self.old)) }
        ensures fault { OnOk result (self.new.fault ≡ self.old.fault) }
        ensures err { IfErr result (HookRefused kind self.old self.new) }
        ensures told { IfErr result (IsTold
            (hooked (world_of self.old.world) (call_of self.old) kind
            (model.HookEffect kind effect) (standing self.old)) self.old self.new) }
        ensures world { self.new.world ≡ self.old.world }
    {
        self.meet(kind)?;
        self.keep(Hook::Effect(kind, effect))
    }

    /// Refuses a hook where one of another kind stands at its index. The hook counts as used.
    #[tactic(auto, using(crate::proofs::Told::telling))]
    fn meet(&mut self, kind: u32) -> Result<(), CxFault>
        ensures ok { OnOk result (self.new ≡ self.old) }
        ensures changed { is_changed result ≡ not (hook_stands kind (standing self.old)) }
        ensures stands { OnOk result (hook_stands kind (standing self.old) ≡ true) }
        ensures fault { OnOk result (self.new.fault ≡ self.old.fault) }
        ensures err { IfErr result (HookRefused kind self.old self.new) }
        ensures told { IfErr result (λ fault. (hook : _) → IsTold
            (hooked (world_of self.old.world) (call_of self.old) kind
            hook (standing self.old)) self.old self.new fault) }
        ensures world { self.new.world ≡ self.old.world }
    {
        match self.kept_kind() {
            Some(kept) if kept != kind => {
                let fault = self.refuse(CxFault::HookChanged {
                    scope: self.scope,
                    index: self.index,
                    kept,
                    asked: kind,
                });
                self.index += 1;
                Err(fault)
            }
            _ => Ok(()),
        }
    }

    /// Keeps a hook where none stands at its index.
    fn keep(&mut self, hook: Hook<P>) -> Result<(), CxFault>
        ensures call { OnOk result (call_of self.new
            ≡ kept (call_of self.old) (hook_of hook) (standing self.old)) }
        ensures index { OnOk result (self.new.index ≡ self.old.index + 1) }
        ensures fault { OnOk result (self.new.fault ≡ self.old.fault) }
        ensures err { IfErr result (WantedMemory self.old self.new) }
        ensures world { self.new.world ≡ self.old.world }
    {
        // A hook past the greatest index would need more memory than there is.
        let Some(next) = self.index.checked_add(1) else {
            return Err(self.refuse(CxFault::OutOfMemory));
        };
        if self.kept_kind().is_none() {
            self.say(Command::KeepHook(hook))?;
        }
        self.index = next;
        Ok(())
    }

    /// A copy of the first value, or of the value that is kept at the index.
    fn first_or_kept(&self, alloc: Global, initial: &P::Value) -> Result<P::Value, OutOfMemory>
        ensures { IfOk result (λ value. held_or initial.now (standing self.now) ≡ Some value) }
    {
        match self.standing() {
            None => initial.copy(alloc),
            Some(Hook::Value(_, value)) => value.copy(alloc),
            // Effects are kept under kinds that no value is asked for by, so this is never met.
            Some(Hook::Effect(_, _)) => Err(OutOfMemory),
        }
    }

    /// The kind of the hook at the index, where one stands there.
    fn kept_kind(&self) -> Option<u32>
        ensures kind { result ≡ option_map kind_of (standing self.now) }
        ensures within { OnSome result (self.now.index < 2 ^ 64 - 1) }
    {
        match self.standing() {
            Some(Hook::Value(kind, _)) => Some(*kind),
            Some(Hook::Effect(kind, _)) => Some(*kind),
            None => None,
        }
    }

    /// The hook at the index, where one stands there.
    #[tactic(auto, using(crate::proofs::Hooked::hooking))]
    fn standing(&self) -> Option<&Hook<P>>
        ensures hook { option_map hook_of (option_copied result) ≡ standing self.now }
        ensures within { OnSome result (self.now.index < 2 ^ 64 - 1) }
    {
        self.rows.hooks(self.scope).get(self.index as usize)
    }
}
