//! What each mark leads to.

ghost use Rattle.std.specs.Prelude.{ℕ, ◌≡◌, ◌≢◌, ◌∷◌, ◌++◌, [], ◌+◌, ◌-◌, ◌^◌, map, Some, IfErr, IfNone, IfOk, IfSome, OnOk};
ghost use Rattle.run_named.specs.Named.{path_from, step_in, steps_from};
ghost use Rattle.run_places.specs.Places.{kind_of, place_of, side_of};
ghost use Rattle.run_places.specs.Sides.{and_number, child_in, number_in};
ghost use Rattle.rt_tree.specs.Asks.{asked_at};
ghost use Rattle.rt_tree.specs.Awaits.{awaited, awaits, no_answer};
ghost use Rattle.rt_model.specs.OneLog.{types};
ghost use Rattle.rt_model.specs.Run.{drop_at};
ghost use Rattle.rt_model.specs.State.{SideName};
ghost use Rattle.rt_model.specs.World.{Application};
ghost use Rattle.run_met.specs.Mets.{mark_of};
ghost use Rattle.rt_tree.specs.Counts.{at_end, deeds, one_if, other_of, others};
ghost use Rattle.rt_tree.specs.Does.{Does, StillFor};
ghost use Rattle.rt_tree.specs.Drawing.{IsComing};
ghost use Rattle.rt_tree.specs.Endings.{LeavesBy, drops_left, gone_left};
ghost use Rattle.rt_tree.specs.Served.{FirstAsks, Keeps, Leaves, Silent, Turned, Written, marks_left};
ghost use Rattle.rt_tree.specs.Told.{IfDone, IfDrawn, IfNodes, UnlessDrawn};
ghost use Rattle.rt_tree.specs.Wrote.{FirstOf, IfAsks, IfAsksFor, IfNothing, UnlessAsks, wrote_awaits};

use crate::patch::{Patch, Phase};
use crate::step::{PatchStep, TreeFault};
use crate::wording::{Words, named_steps};
use rt_edits::Edit;
use rt_values::{ElementId, List, OutOfMemory, ScopeId, Serials};
use run_met::Met;
use run_places::{Kind, Place, Trail};
use std::alloc::Global;
use std::collections::VecDeque;
use tree_nodes::Parts;

/// What a mark that is only written leads to.
#[derive(Drop)]
pub(crate) enum Wrote {
    /// A scope is asked for its nodes first.
    Asks(ScopeId),
    /// The first of its edits.
    First(Edit),
    Nothing,
}

impl<P: Parts> Patch<P> {
    /// One mark, and the step that it leads to. What is only written leads to none where the block
    /// isn't shown.
    pub(crate) fn turn(
        &mut self,
        alloc: Global,
        met: Met<P>,
        ids: &mut Serials,
    ) -> Result<Option<PatchStep<P>>, TreeFault>
        requires free { awaited self.now.phase ≡ no_answer }
        requires spent { self.now.edits.items ≡ [] }
        ensures awaits { IfOk result (λ told. IfSome told (λ step.
            awaited self.exit.now.phase ≡ awaits step)) }
        ensures free { IfOk result (λ told. IfNone told (awaited self.exit.now.phase ≡ no_answer)) }
        ensures spent { IfOk result (λ told. IfNone told (self.exit.now.edits.items ≡ [])) }
        ensures plan { IfOk result (λ told. IfNone told (
            self.exit.now.plan.items ≡ self.entry.now.plan.items)) }
        ensures tree { self.exit.now.new.side.output ≡ self.entry.now.new.side.output }

        // The mark is written by what both blocks have then, and nothing of these changes where it
        // leads to no step.
        ensures some { IfOk result (λ told. IfSome told (λ step. (app : Application
            (types P.Component P.Props P.Value P.Handler P.TaskState P.Effect P.Payload)) →
            Turned app (mark_of met) self.entry.now step self.exit.now)) }
        ensures none { IfOk result (λ told. IfNone told ((app : Application
            (types P.Component P.Props P.Value P.Handler P.TaskState P.Effect P.Payload)) →
            Silent app (mark_of met) self.entry.now self.exit.now)) }
        ensures keeps { IfOk result (λ told. IfNone told (Keeps self.entry.now self.exit.now)) }

        // A scope that is asked is the one that its mark asks, and other steps do what it leads to.
        ensures asks { IfOk result (λ told. IfSome told (λ step.
            IfNodes step (λ scope. FirstAsks self.exit.now scope))) }
        ensures does { IfOk result (λ told. IfSome told (λ step.
            Does (mark_of met) self.entry.now step self.exit.now)) }
        ensures leaves { IfOk result (λ told. IfSome told (λ step.
            Leaves self.entry.now self.exit.now)) }
        ensures still { IfOk result (λ told. StillFor
            (side_of self.entry.now.old).children told (mark_of met)) }

        // What a mark drops, and the number that goes, are left for the end.
        ensures ends { IfOk result (λ told.
            LeavesBy told (mark_of met) self.entry.now self.exit.now) }

        // A number is drawn by one kind of step alone, and is the one that comes next.
        ensures drawn { IfOk result (λ told. IfSome told (λ step.
            IfDrawn step (λ id. id.0 ≡ ids.old))) }
        ensures rises { IfOk result (λ told. IfSome told (λ step.
            IfDrawn step (λ id. ids.new ≡ ids.old + 1))) }
        ensures undrawn { IfOk result (λ told. IfSome told (λ step.
            UnlessDrawn step (ids.new ≡ ids.old))) }
        ensures untouched { IfOk result (λ told. IfNone told (ids.new ≡ ids.old)) }
        ensures goes_on { IfOk result (λ told. IfSome told (λ step. IfDone step ⊥)) }

        // A step that is neither an edit nor a question is one fewer of them.
        ensures fewer { IfOk result (λ told.
            deeds (side_of self.entry.now.old).children (mark_of met) + others self.entry.now
            ≡ other_of told + others self.exit.now) }

        // None is drawn at the end, and a fault comes there alone, at a node that comes.
        ensures end { IfErr result (λ fault.
            fault ≡ TreeFault.IdsExhausted → ids.old ≡ 2 ^ 64 - 1) }
        ensures coming { IfErr result (λ fault.
            fault ≡ TreeFault.IdsExhausted → IsComing (mark_of met)) }
        ensures before_end { IfOk result (λ told. IfSome told (λ step.
            IfDrawn step (λ id. ids.old ≢ 2 ^ 64 - 1))) }
    {
        match met {
            Met::Stays { .. } => Ok(None),
            Met::Goes { place, kind } => {
                self.go(alloc, &place, kind)?;
                Ok(None)
            }
            Met::Comes { place, kind } => {
                let Words { id, steps, path } = self.draw(alloc, &place, kind, ids)?;
                Ok(Some(PatchStep::Drawn { id, steps, path }))
            }
            Met::Fed { place, next, .. } => match self.old.child_at(&place) {
                Some(child) => Ok(Some(PatchStep::Feed {
                    scope: ScopeId(child),
                    component: next,
                })),
                None => Ok(None),
            },
            Met::Left { place, .. } => {
                self.leave(&place)?;
                Ok(None)
            }
            Met::Made { place, next } => {
                self.phase = Phase::Make(place);
                Ok(Some(PatchStep::Make(next)))
            }
            written => match self.write(alloc, written)? {
                Wrote::Asks(scope) => Ok(Some(PatchStep::Nodes(scope))),
                Wrote::First(edit) => Ok(Some(PatchStep::Edit(edit))),
                Wrote::Nothing => Ok(None),
            },
        }
    }

    // The number of a node that goes is told at the end.
    fn go(&mut self, alloc: Global, place: &Place, kind: Kind) -> Result<(), OutOfMemory>
        ensures phase { self.exit.now.phase ≡ self.entry.now.phase }
        ensures keeps { Keeps self.entry.now self.exit.now }
        ensures behind { OnOk result (at_end self.exit.now ≡ at_end self.entry.now + 1) }
        ensures told { OnOk result (gone_left self.exit.now ≡ gone_left self.entry.now
            ++ number_in self.entry.now.old (place_of place.now) (kind_of kind) ∷ []) }
        ensures drops { self.exit.now.drops ≡ self.entry.now.drops }
        ensures edits { self.exit.now.edits.items ≡ self.entry.now.edits.items }
        ensures plan { self.exit.now.plan.items ≡ self.entry.now.plan.items }
        ensures tree { self.exit.now.new.side.output ≡ self.entry.now.new.side.output }
    {
        let steps = place.steps(alloc)?;
        let number = self.old.number_on(&Trail::At(&steps), kind);
        self.gone.push_back(ElementId(number))?;
        Ok(())
    }

    // Draws a number for a new node.
    fn draw(
        &mut self,
        alloc: Global,
        place: &Place,
        kind: Kind,
        ids: &mut Serials,
    ) -> Result<Words, TreeFault>
        ensures number { IfOk result (λ words. words.id.0 ≡ ids.old) }
        ensures steps { IfOk result (λ words.
            map step_in words.steps ≡ steps_from 0 (place_of place.now)) }
        ensures path { IfOk result (λ words. words.path ≡ path_from [] (place_of place.now)) }
        ensures drawn { OnOk result (side_of self.exit.now.new.side
            ≡ and_number (side_of self.entry.now.new.side) (place_of place.now, kind_of kind, ids.old)) }
        ensures phase { self.exit.now.phase ≡ self.entry.now.phase }
        ensures edits { self.exit.now.edits.items ≡ self.entry.now.edits.items }
        ensures plan { self.exit.now.plan.items ≡ self.entry.now.plan.items }
        ensures tree { self.exit.now.new.side.output ≡ self.entry.now.new.side.output }
        ensures behind { at_end self.exit.now ≡ at_end self.entry.now }
        ensures drops { self.exit.now.drops ≡ self.entry.now.drops }
        ensures gone { self.exit.now.gone ≡ self.entry.now.gone }
        ensures was { self.exit.now.old ≡ self.entry.now.old }
        ensures rows { self.exit.now.given ≡ self.entry.now.given }
        ensures shows { self.exit.now.shown ≡ self.entry.now.shown }

        // The number stays drawn after a fault, which comes at the last one.
        ensures rises { OnOk result (ids.new ≡ ids.old + 1) }
        ensures before_end { OnOk result (ids.old ≢ 2 ^ 64 - 1) }
        ensures end { IfErr result (λ fault.
            fault ≡ TreeFault.IdsExhausted → ids.old ≡ 2 ^ 64 - 1) }
    {
        let Some(number) = ids.next() else {
            return Err(TreeFault::IdsExhausted);
        };
        self.new.draw(place, kind, number)?;
        Ok(named_steps(alloc, ElementId(number), place)?)
    }

    // The child scope of a component that goes is dropped at the end.
    fn leave(&mut self, place: &Place) -> Result<(), OutOfMemory>
        ensures phase { self.exit.now.phase ≡ self.entry.now.phase }
        ensures keeps { Keeps self.entry.now self.exit.now }
        ensures behind { OnOk result (at_end self.exit.now
            ≡ at_end self.entry.now + one_if (child_in self.entry.now.old (place_of place.now))) }
        ensures dropped { OnOk result ((scope : ℕ) (side : SideName) →
            drops_left scope side self.exit.now ≡ drops_left scope side self.entry.now
            ++ drop_at scope side (child_in self.entry.now.old (place_of place.now))) }
        ensures gone { self.exit.now.gone ≡ self.entry.now.gone }
        ensures edits { self.exit.now.edits.items ≡ self.entry.now.edits.items }
        ensures plan { self.exit.now.plan.items ≡ self.entry.now.plan.items }
        ensures tree { self.exit.now.new.side.output ≡ self.entry.now.new.side.output }
    {
        match self.old.child_at(place) {
            Some(child) => {
                self.drops.push_back(ScopeId(child))?;
                Ok(())
            }
            None => Ok(()),
        }
    }

    // What is written at a mark, where the block is shown. Where a scope has to be asked for its
    // nodes first, the mark stays in front of the others.
    fn write(&mut self, alloc: Global, met: Met<P>) -> Result<Wrote, OutOfMemory>
        requires free { awaited self.now.phase ≡ no_answer }
        requires spent { self.now.edits.items ≡ [] }
        ensures awaits { IfOk result (λ wrote. awaited self.exit.now.phase ≡ wrote_awaits wrote) }
        ensures spent { IfOk result (λ wrote. IfNothing wrote (self.exit.now.edits.items ≡ [])) }
        ensures plan { IfOk result (λ wrote.
            UnlessAsks wrote (self.exit.now.plan.items ≡ self.entry.now.plan.items)) }
        ensures front { IfOk result (λ wrote.
            IfAsks wrote (marks_left self.exit.now ≡ mark_of met ∷ marks_left self.entry.now)) }
        ensures tree { self.exit.now.new.side.output ≡ self.entry.now.new.side.output }

        // It is written by what both blocks have, and nothing of these changes.
        ensures written { IfOk result (λ wrote. (app : Application
            (types P.Component P.Props P.Value P.Handler P.TaskState P.Effect P.Payload)) →
            Written app (mark_of met) self.entry.now wrote self.exit.now) }
        ensures keeps { IfOk result (λ wrote.
            IfNothing wrote (Keeps self.entry.now self.exit.now)) }

        // A scope that is asked is the one that the mark asks.
        ensures asks { IfOk result (λ wrote. IfAsksFor wrote (λ scope.
            asked_at self.exit.now (mark_of met) ≡ Some scope.0)) }
        ensures behind { at_end self.exit.now ≡ at_end self.entry.now }
        ensures drops { self.exit.now.drops ≡ self.entry.now.drops }
        ensures gone { self.exit.now.gone ≡ self.entry.now.gone }
        ensures was { self.exit.now.old ≡ self.entry.now.old }
        ensures new { self.exit.now.new.side ≡ self.entry.now.new.side }
        ensures rows { self.exit.now.given ≡ self.entry.now.given }
        ensures shows { self.exit.now.shown ≡ self.entry.now.shown }
    {
        if !self.shown {
            return Ok(Wrote::Nothing);
        }
        match self.unknown_at(alloc, &met)? {
            Some(scope) => {
                let scope = ScopeId(scope);
                self.plan.push_front(met)?;
                self.phase = Phase::Asked(scope);
                Ok(Wrote::Asks(scope))
            }
            None => {
                let edits = self.written_at(alloc, &met)?;
                Ok(self.keep(edits))
            }
        }
    }

    // Keeps the edits of a mark, but for the first of them.
    fn keep(&mut self, edits: List<Edit>) -> Wrote
        ensures first { FirstOf edits result self.exit.now.edits.items }
        ensures others { self.exit.now ≡ record self.entry.now { edits = self.exit.now.edits } }
    {
        self.edits = VecDeque::from_vec(edits.into_vec());
        match self.edits.pop_front() {
            Some(edit) => Wrote::First(edit),
            None => Wrote::Nothing,
        }
    }
}
