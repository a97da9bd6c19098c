//! Who is entered, and of these who is ready and who is posted. Room in all lines is taken when one
//! is entered.
ghost use Rattle.std.specs.Prelude.{◌≡◌, ◌∷◌, [], ◌↔◌, IsTrue, MatchOption, IfSome, OnOk, OnErr, Some, false};
ghost use Rattle.rt_sched.specs.Lines.{Row, Joins, Leaves, has_number, waits, with_waiting, without_waiting, order_in, orders_of, behind, first_in, first_order, first_under};
ghost use Rattle.rt_sched.specs.Due.{NoneEarlier};
ghost use Rattle.rt_sched.specs.Rosters.{Roster, AreLines, HasMembers, SameMembers, stands_under, all_waiting, without_under};

use crate::line::Line;
use crate::order::ScopeOrder;
use rt_values::OutOfMemory;
use std::alloc::Global;
use std::marker::Model;
use std::mem;

/// Entered numbers with their orders, the ready ones and the posted ones.
#[derive(Drop)]
pub struct Roll {
    entered: Line,
    ready: Line,
    posted: Line,
}

impl Model for Roll {
    ghost use Rattle.rt_sched.specs.Rosters.{Roster};

    ghost Value = { Roster };

    ghost use Rattle.rt_sched.specs.Rosters.{AreLines};

    ghost view = { λ roll. record {
      entered = roll.entered.waiting;
      ready = roll.ready.waiting;
      posted = roll.posted.waiting;
    } };

    ghost invariant = { λ roll. AreLines roll.entered roll.ready roll.posted };
}

impl Roll {
    pub fn new(alloc: Global) -> Roll
        ensures empty { result ≡ record { entered = []; ready = []; posted = [] } }
    {
        Roll {
            entered: Line::new(alloc),
            ready: Line::new(alloc),
            posted: Line::new(alloc),
        }
    }

    /// Enters a number under an order. One that is entered stays as it is.
    pub fn enter(
        &mut self,
        alloc: Global,
        number: u64,
        order: ScopeOrder,
    ) -> Result<(), OutOfMemory>
        ensures ok { OnOk result (self.new
            ≡ record self.old { entered = with_waiting order number self.old.entered }) }
        ensures err { OnErr result (self.new ≡ self.old) }
    {
        if self.entered.order_of(number).is_some() {
            return Ok(());
        }
        enter_all(
            alloc,
            number,
            &mut self.entered,
            &mut self.ready,
            &mut self.posted,
        )?;
        self.entered.push(number, order);
        Ok(())
    }

    /// An entered number is ready, the last of its order. One that is ready stays where it is.
    pub fn push(&mut self, number: u64, order: ScopeOrder)
        requires entered { IsTrue (stands_under number order self.old.entered) }
        ensures ready { self.new
            ≡ record self.old { ready = with_waiting order number self.old.ready } }
    {
        self.ready.push(number, order);
    }

    /// An entered number is posted, the last of its order. One that is posted stays where it is.
    pub fn post(&mut self, number: u64, order: ScopeOrder)
        requires entered { IsTrue (stands_under number order self.old.entered) }
        ensures posted { self.new
            ≡ record self.old { posted = with_waiting order number self.old.posted } }
    {
        self.posted.push(number, order);
    }

    /// All that are posted become ready. Where none is ready the two lines change places, and none
    /// is moved.
    pub fn look(&mut self)
        ensures looked { self.new ≡ record self.old {
          ready = all_waiting self.old.posted self.old.ready;
          posted = [];
        } }
    {
        if self.ready.is_empty() {
            self.posted.comes_so();
            mem::swap(&mut self.ready, &mut self.posted);
            return;
        }
        move_all(&mut self.posted, &mut self.ready);
    }

    /// Takes out the first that is ready, with its order.
    pub fn pop_first(&mut self) -> Option<(ScopeOrder, u64)>
        ensures others { self.new ≡ record self.old { ready = self.new.ready } }
        ensures first { MatchOption result ((self.old.ready ≡ []) × (self.new.ready ≡ []))
            (λ first. self.old.ready ≡ first ∷ self.new.ready) }
        ensures least { IfSome result (λ first. NoneEarlier first.0 (orders_of self.old.ready)) }
    {
        self.ready.pop_first()
    }

    /// The order of the first that is ready.
    pub fn first_order(&self) -> Option<ScopeOrder>
        ensures first { result ≡ first_order self.now.ready }
        ensures least { IfSome result (λ order. NoneEarlier order (orders_of self.now.ready)) }
    {
        self.ready.first_order()
    }

    /// The first that is ready, with its order.
    pub fn first(&self) -> Option<(ScopeOrder, u64)>
        ensures first { result ≡ first_in self.now.ready }
    {
        self.ready.first()
    }

    /// The first that is ready behind a number. `None` where the number isn't ready.
    pub fn first_behind(&self, number: u64) -> Option<(ScopeOrder, u64)>
        ensures first { result ≡ first_in (behind number self.now.ready) }
    {
        self.ready.first_behind(number)
    }

    /// The first that is posted, with its order.
    pub fn first_posted(&self) -> Option<(ScopeOrder, u64)>
        ensures first { result ≡ first_in self.now.posted }
    {
        self.posted.first()
    }

    /// The first that is posted behind a number. `None` where the number isn't posted.
    pub fn posted_behind(&self, number: u64) -> Option<(ScopeOrder, u64)>
        ensures first { result ≡ first_in (behind number self.now.posted) }
    {
        self.posted.first_behind(number)
    }

    /// The first that was entered under an order.
    pub fn entered_under(&self, order: &ScopeOrder) -> Option<u64>
        ensures first { result ≡ first_under order.now self.now.entered }
    {
        self.entered.first_under(order)
    }

    /// Whether a number is ready.
    pub fn is_ready(&self, number: u64) -> bool
        ensures ready { result ≡ waits number self.now.ready }
    {
        self.ready.has(number)
    }

    /// The order under which a number is entered, if it is.
    pub fn order_of(&self, number: u64) -> Option<ScopeOrder>
        ensures order { result ≡ order_in number self.now.entered }
    {
        self.entered.order_of(number)
    }

    /// Whether a number is entered under an order.
    pub fn has(&self, number: u64, order: &ScopeOrder) -> bool
        ensures has { result ≡ stands_under number order.now self.now.entered }
    {
        match self.entered.order_of(number) {
            Some(entered) => *order == entered,
            None => false,
        }
    }

    /// A number isn't ready any more. Where it is posted it stays so.
    pub fn withdraw(&mut self, number: u64)
        ensures withdrawn { self.new
            ≡ record self.old { ready = without_waiting number self.old.ready } }
    {
        self.ready.remove(number);
    }

    /// A number is neither ready nor posted.
    pub fn start(&mut self, number: u64)
        ensures started { self.new ≡ record self.old {
          ready = without_waiting number self.old.ready;
          posted = without_waiting number self.old.posted;
        } }
    {
        self.ready.remove(number);
        self.posted.remove(number);
    }

    /// A number is no longer entered, nor ready, nor posted.
    pub fn forget(&mut self, number: u64)
        ensures forgotten { self.new ≡ record {
          entered = without_waiting number self.old.entered;
          ready = without_waiting number self.old.ready;
          posted = without_waiting number self.old.posted;
        } }
    {
        forget_all(number, &mut self.entered, &mut self.ready, &mut self.posted);
    }

    /// All that are entered under an order are no longer entered, nor ready, nor posted.
    pub fn forget_under(&mut self, order: &ScopeOrder)
        ensures forgotten { self.new ≡ record {
          entered = without_under order.now self.old.entered;
          ready = without_under order.now self.old.ready;
          posted = without_under order.now self.old.posted;
        } }
    {
        while let Some(number) = self.entered.first_under(order) {
            forget_all(number, &mut self.entered, &mut self.ready, &mut self.posted);
        }
    }

    /// Whether none is ready.
    pub fn none_ready(&self) -> bool
        ensures none { IsTrue result ↔ (self.now.ready ≡ []) }
    {
        self.ready.is_empty()
    }

    /// Whether none is posted.
    pub fn none_posted(&self) -> bool
        ensures none { IsTrue result ↔ (self.now.posted ≡ []) }
    {
        self.posted.is_empty()
    }

    /// Whether none is ready or posted.
    pub fn is_quiet(&self) -> bool
        ensures quiet { IsTrue result ↔ ((self.now.ready ≡ []) × (self.now.posted ≡ [])) }
    {
        self.ready.is_empty() && self.posted.is_empty()
    }
}

// Enters a number in three lines, or in none.
fn enter_all(
    alloc: Global,
    number: u64,
    first: &mut Line,
    second: &mut Line,
    third: &mut Line,
) -> Result<(), OutOfMemory>
    requires new { (has_number number first.old.members ≡ false)
        × (has_number number second.old.members ≡ false)
        × (has_number number third.old.members ≡ false) }
    requires absent { (waits number first.old.waiting ≡ false)
        × (waits number second.old.waiting ≡ false) }
    ensures waiting { (first.new.waiting ≡ first.old.waiting)
        × (second.new.waiting ≡ second.old.waiting)
        × (third.new.waiting ≡ third.old.waiting) }
    ensures ok { OnOk result (Joins number first.old.members first.new.members
        × Joins number second.old.members second.new.members
        × Joins number third.old.members third.new.members) }
    ensures err { OnErr result (SameMembers first.old.members first.new.members
        × SameMembers second.old.members second.new.members
        × SameMembers third.old.members third.new.members) }
{
    first.enter(alloc, number)?;
    if let Err(refused) = second.enter(alloc, number) {
        first.forget(number);
        return Err(refused);
    }
    if let Err(refused) = third.enter(alloc, number) {
        first.forget(number);
        second.forget(number);
        return Err(refused);
    }
    Ok(())
}

// Takes a number out of three lines of one roll.
fn forget_all(number: u64, entered: &mut Line, ready: &mut Line, posted: &mut Line)
    requires lines { AreLines entered.old ready.old posted.old }
    ensures lines { AreLines entered.new ready.new posted.new }
    ensures entered { entered.new.waiting ≡ without_waiting number entered.old.waiting }
    ensures ready { ready.new.waiting ≡ without_waiting number ready.old.waiting }
    ensures posted { posted.new.waiting ≡ without_waiting number posted.old.waiting }
{
    entered.forget(number);
    ready.forget(number);
    posted.forget(number);
}

// Lets all that wait in one line wait in another instead, in turn.
fn move_all(from: &mut Line, to: &mut Line)
    requires members { (q : _) → has_number q from.old.members ≡ has_number q to.old.members }
    ensures from { from.new ≡ record from.old { waiting = [] } }
    ensures to { to.new
        ≡ record to.old { waiting = all_waiting from.old.waiting to.old.waiting } }
{
    while let Some((order, number)) = from.pop_first() {
        to.push(number, order);
    }
}
