//! What changes on the sides of scopes: numbers, children, the side that shows.
ghost use Rattle.std.specs.Prelude.{◌≡◌, ℕ, true, ◌++◌, ◌∷◌, [], OnOk, IfOk, IfErr, Ok, Err, Some, None};
ghost use Rattle.rt_model.specs.Lists.{at, drop_number as drop_from};
ghost use Rattle.rt_model.specs.World.{Scopes, at_end};
ghost use Rattle.rt_model.specs.State as model;
ghost use Rattle.rt_model.specs.State.{change, effects_of, height_of};
ghost use Rattle.rt_model.specs.State.{Done, Cut, IdsExhausted};
ghost use Rattle.rt_model.specs.Replay.{draw_number};
ghost use Rattle.run_state.specs.Effects.{callbacks_of, has_rank};
ghost use Rattle.run_state.specs.Names.{fault_of};
ghost use Rattle.run_state.specs.Mounts.{IsSeated, ways_of};
ghost use Rattle.run_state.specs.Sides.{OneSeat, more_child, more_number};
ghost use Rattle.tree_mirror.specs.Sealed.{component_of};
ghost use Rattle.run_records.specs.Kept.{scope_of};
ghost use Rattle.run_places.specs.Places.{kind_of, place_of, side_name_of};
ghost use Rattle.run_state.specs.Made.{IsMade};
ghost use Rattle.run_state.specs.Drawn.{beside_lists, beside_seats, kept_for, turned_for};
ghost use Rattle.run_state.specs.Mirror.{scopes_of, state_of};

use crate::entering::Coming;
use crate::held::{next_height, next_number};
use crate::joining::{push_child, put_number};
use crate::names::{Cause, Stop};
use crate::numbers::drop_number;
use crate::state::State;
use rt_values::{List, OutOfMemory, Part};
use run_named::name_place;
use run_places::{Kind, Place, SideName};
use run_records::{Counter, Scope};
use std::alloc::Global;
use tree_nodes::{Parts, VComponent};

impl<P: Parts> State<P> {
    /// A number of the document for a place of a scope's side.
    pub fn draw_number(
        &mut self,
        alloc: Global,
        scope: u64,
        side: SideName,
        place: &Place,
        kind: Kind,
    ) -> Result<(), Stop>
        ensures done { OnOk result ((g : _) →
            draw_number (state_of g self.old) scope (side_name_of side) (place_of place.now) (kind_of kind)
            ≡ Done (state_of g self.new) []) }
        ensures cut { (what : Cause) → IfErr result (λ stop. stop ≡ Stop.Fault what → (g : _) →
            draw_number (state_of g self.old) scope (side_name_of side) (place_of place.now) (kind_of kind)
            ≡ Cut (state_of g self.new) (fault_of what)) }
    {
        let number = self.next.elements;
        let Some(next) = next_number(number) else {
            return Err(Stop::Fault(Cause::IdsExhausted {
                what: Counter::Elements,
            }));
        };
        self.next.elements = next;
        self.add_number(alloc, scope, side, place, kind, number)?;
        Ok(())
    }

    /// Puts a number after those of a scope's side, and where it stands among the places. A number that
    /// stands already, which none does, is want of memory.
    fn add_number(
        &mut self,
        alloc: Global,
        scope: u64,
        side: SideName,
        place: &Place,
        kind: Kind,
        number: u64,
    ) -> Result<(), OutOfMemory>
        ensures { OnOk result ((g : _) → state_of g self.new
            ≡ change (state_of g self.old) scope
            (λ x. more_number (side_name_of side) (place_of place.now, kind_of kind, number) x)) }
    {
        if !self.is_live(scope) {
            return Ok(());
        }
        if self.places.get(number).is_some() {
            return Err(OutOfMemory);
        }
        let named = name_place(alloc, scope, side, place, self.places.last())?;
        self.places.push(number, named)?;
        match put_number(&mut self.rows.table, scope, side, place, kind, number) {
            Ok(()) => Ok(()),
            Err(OutOfMemory) => {
                self.places.remove(number);
                Err(OutOfMemory)
            }
        }
    }

    /// Makes a scope under a parent, which knows it at its place, and answers its number. It isn't run.
    /// Nothing is made, and None is the answer, where the parent is gone.
    pub fn with_new_scope(
        &mut self,
        alloc: Global,
        parent: u64,
        side: SideName,
        place: Place,
        component: VComponent<P>,
    ) -> Result<Option<u64>, Stop>
        ensures made { (child : ℕ) → result ≡ Ok (Some child) → (g : _) →
            IsMade (state_of g self.old) parent (side_name_of side) (place_of place)
            (component_of component) child (state_of g self.new) }
        ensures gone { result ≡ Ok None → (g : _) →
            (at (state_of g self.old).scopes parent ≡ None)
            × (state_of g self.new ≡ state_of g self.old) }
        ensures cut { (what : Cause) → result ≡ Err (Stop.Fault what) → (g : _) →
            (fault_of what ≡ IdsExhausted Scopes) × (at_end (state_of g self.old).next_scope ≡ true)
            × (state_of g self.new ≡ state_of g self.old) }
    {
        let Some(found) = self.scope(parent) else {
            return Ok(None);
        };
        let Some(height) = next_height(found.rest.height) else {
            return Err(Stop::OutOfMemory);
        };
        let number = self.next_scope;
        let Some(next) = next_number(number) else {
            return Err(Stop::Fault(Cause::IdsExhausted {
                what: Counter::Scopes,
            }));
        };
        let coming = Coming {
            component,
            parent: Some(parent),
            height,
            below: side,
        };
        self.push_scope(alloc, next, coming)?;
        self.add_child_at(parent, side, &place, number)?;
        Ok(Some(number))
    }

    /// Puts a child after those of a side of its parent.
    fn add_child_at(
        &mut self,
        scope: u64,
        side: SideName,
        place: &Place,
        child: u64,
    ) -> Result<(), OutOfMemory>
        requires known { IsSeated (ways_of self.old.rows.table) self.old.next_scope scope child }
        ensures { OnOk result ((g : _) → state_of g self.new
            ≡ change (state_of g self.old) scope
            (λ x. more_child (side_name_of side) (place_of place.now, child) x)) }
    {
        self.rows.table.change(
            scope,
            |found: &mut Scope<P>| -> Result<(), OutOfMemory>
                ensures seated { OnOk result (scope_of found.new
                    ≡ more_child (side_name_of side) (place_of place.entry.now, child) (scope_of found.old)) }
                ensures one { OneSeat child found.old found.new }
                ensures stay { beside_seats found.new ≡ beside_seats found.old }
            { push_child(found, side, place, child) },
        )
    }

    /// A live scope is handed another component of its kind.
    pub fn put_component(&mut self, scope: u64, component: VComponent<P>) -> Result<(), OutOfMemory>
        ensures { OnOk result ((g : _) → state_of g self.new
            ≡ change (state_of g self.old) scope
            (λ x. record x { component = component_of component })) }
    {
        self.change_scope(
            scope,
            |found: &mut Scope<P>| -> Result<(), OutOfMemory>
                ensures changed { OnOk result (found.new ≡ record found.old {
                  rest = record found.old.rest { component = component };
                }) }
                ensures stay { kept_for found.new ≡ kept_for found.old }
            {
                found.rest.component = component;
                Ok(())
            },
        )
    }

    /// The fallback of a boundary shows; it counts as turned to its children no more.
    pub fn show_fallback(&mut self, boundary: u64) -> Result<(), OutOfMemory>
        ensures { OnOk result ((g : _) → state_of g self.new
            ≡ change (record (state_of g self.old) {
              resolved = drop_from (state_of g self.old).resolved boundary;
            }) boundary (λ x. record x { shows = Some model.FallbackSide })) }
    {
        drop_number(&mut self.resolved, boundary);
        self.show(boundary, SideName::Fallback)
    }

    /// A side of a boundary shows.
    pub(crate) fn show(&mut self, boundary: u64, side: SideName) -> Result<(), OutOfMemory>
        ensures { OnOk result ((g : _) → state_of g self.new
            ≡ change (state_of g self.old) boundary
            (λ x. record x { shows = Some (side_name_of side) })) }
    {
        self.turn_scope(
            boundary,
            |found: &mut Scope<P>| -> Result<(), OutOfMemory>
                ensures changed { OnOk result (found.new ≡ record found.old {
                  rest = record found.old.rest { shows = Some side };
                }) }
                ensures stay { turned_for found.new ≡ turned_for found.old }
            {
                found.rest.shows = Some(side);
                Ok(())
            },
        )
    }

    /// A boundary counts as turned to its children, and its callbacks are taken out, each with its
    /// scope.
    pub fn resolve(
        &mut self,
        alloc: Global,
        boundary: u64,
    ) -> Result<List<(u64, P::Effect)>, OutOfMemory>
        ensures turned { OnOk result ((g : _) → state_of g self.new
            ≡ change (record (state_of g self.old) {
              resolved = (state_of g self.old).resolved ++ boundary ∷ [];
            }) boundary (λ x. record x { callbacks = [] })) }
        ensures callbacks { IfOk result (λ callbacks. (g : _) →
            callbacks ≡ callbacks_of (state_of g self.old) boundary) }
    {
        let callbacks = self.callbacks_of(alloc, boundary)?;
        self.resolved.push(boundary)?;
        self.drop_callbacks(alloc, boundary)?;
        Ok(callbacks)
    }

    /// The callbacks that wait for a live boundary's turn, each with its scope.
    fn callbacks_of(
        &self,
        alloc: Global,
        boundary: u64,
    ) -> Result<List<(u64, P::Effect)>, OutOfMemory>
        ensures { IfOk result (λ callbacks. (g : _) →
            callbacks ≡ callbacks_of (state_of g self.now) boundary) }
    {
        match self.scope(boundary) {
            Some(found) => copy_callbacks(alloc, found.rest.callbacks.as_slice()),
            None => Ok(List::new(alloc)),
        }
    }

    /// No callback waits for a boundary's turn any more.
    fn drop_callbacks(&mut self, alloc: Global, boundary: u64) -> Result<(), OutOfMemory>
        ensures { OnOk result ((g : _) → state_of g self.new
            ≡ change (state_of g self.old) boundary (λ x. record x { callbacks = [] })) }
    {
        self.change_scope(
            boundary,
            |found: &mut Scope<P>| -> Result<(), OutOfMemory>
                ensures changed { OnOk result (found.new ≡ record found.old {
                  rest = record found.old.rest { callbacks = [] };
                }) }
                ensures stay { kept_for found.new ≡ kept_for found.old }
            {
                found.rest.callbacks = List::new(alloc);
                Ok(())
            },
        )
    }

    /// The effects that a live scope has queued are taken out.
    pub fn take_effects(
        &mut self,
        alloc: Global,
        scope: u64,
    ) -> Result<List<P::Effect>, OutOfMemory>
        ensures taken { OnOk result ((g : _) → state_of g self.new
            ≡ change (state_of g self.old) scope (λ x. record x { effects = [] })) }
        ensures effects { IfOk result (λ effects. (g : _) →
            effects ≡ effects_of (state_of g self.old) scope) }
    {
        let effects = self.effects_of(alloc, scope)?;
        self.drop_effects(alloc, scope)?;
        Ok(effects)
    }

    /// The effects that a live scope has queued, in order.
    fn effects_of(&self, alloc: Global, scope: u64) -> Result<List<P::Effect>, OutOfMemory>
        ensures { IfOk result (λ effects. (g : _) →
            effects ≡ effects_of (state_of g self.now) scope) }
    {
        match self.scope(scope) {
            Some(found) => found.rest.effects.copy(alloc),
            None => Ok(List::new(alloc)),
        }
    }

    /// No effect of a live scope is queued any more.
    pub(crate) fn drop_effects(&mut self, alloc: Global, scope: u64) -> Result<(), OutOfMemory>
        ensures { OnOk result ((g : _) → state_of g self.new
            ≡ change (state_of g self.old) scope (λ x. record x { effects = [] })) }
    {
        let height = self.height_of(scope);
        if !self.effects.has(height, scope) {
            return Ok(());
        }
        self.clear_effects(alloc, scope)?;
        self.effects.remove(height, scope);
        Ok(())
    }

    /// The same of a scope that is listed with its height as one with queued effects, and stays so.
    fn clear_effects(&mut self, alloc: Global, scope: u64) -> Result<(), OutOfMemory>
        requires listed { has_rank self.old.effects
            (height_of (scopes_of self.old.rows.table) scope) scope ≡ true }
        ensures cleared { OnOk result ((g : _) → state_of g self.new
            ≡ change (state_of g self.old) scope (λ x. record x { effects = [] })) }
        ensures effects { self.new.effects ≡ self.old.effects }
    {
        self.change_listed(
            scope,
            |found: &mut Scope<P>| -> Result<(), OutOfMemory>
                ensures changed { OnOk result (found.new ≡ record found.old {
                  rest = record found.old.rest { effects = [] };
                }) }
                ensures stay { beside_lists found.new ≡ beside_lists found.old }
                ensures holders { found.new.rest.holders ≡ found.old.rest.holders }
            {
                found.rest.effects = List::new(alloc);
                Ok(())
            },
        )
    }
}

/// A copy of callbacks with their scopes.
fn copy_callbacks<E: Part>(
    alloc: Global,
    callbacks: &[(u64, E)],
) -> Result<List<(u64, E)>, OutOfMemory>
    ensures { IfOk result (λ copied. copied ≡ callbacks.now) }
{
    let mut copied = List::new(alloc);
    for callback in callbacks {
        copied.push((callback.0, callback.1.copy(alloc)?))?;
    }
    Ok(copied)
}
