//! The queue under its rule, and the steps that an inbox takes on it.
ghost use Rattle.std.specs.Prelude.{◌≡◌, ◌+◌, ◌-◌, ◌<◌, ◌^◌, [], IfErr, IfNone, IfOk, IfSome, OnOk};
ghost use Rattle.std.specs.Prelude.{List as Items};
ghost use Rattle.crossbeam_queue.specs.SegTies.{IsSegPassOf};
ghost use Rattle.rt_inbox.specs.declared.message.Msg.{Msg};
ghost use Rattle.rt_inbox.specs.declared.view.View.TheVariants.{Owning};
ghost use Rattle.rt_inbox.specs.Rule.{Owns, Posts, WasAt, with_post, with_taken, with_poster};
ghost use Rattle.rt_inbox.specs.Rule.{with_joined, next_poster, message_of};

use crate::message::{Msg, Post};
use crate::view::View;
use crossbeam_queue::protocol::{Join, Lesson, Outcome, Protocol, Split};
use crossbeam_queue::{RuledSegQueue, SegPass};
use run_counted::Counted;
use std::alloc::{AllocError, Global};
use std::sync::Wait;

/// The queue and the passes fit together.
pub struct Fits;

impl Protocol<Msg, View> for Fits {
    ghost use Rattle.std.specs.Prelude.{[]};
    ghost use Rattle.rt_inbox.specs.declared.view.View.TheVariants.{Owning};
    ghost use Rattle.rt_inbox.specs.Rule.{Delivers};

    ghost holds = { Delivers };

    ghost first = { Owning [] 0 [] };
}

/// A poster's pass is made, or joined to the owner's.
pub struct Passing;

impl Split<View> for Passing {
    ghost use Rattle.rt_inbox.specs.Rule.{with_poster, next_poster};

    ghost left = { with_poster };

    ghost right = { next_poster };
}

impl Join<View> for Passing {
    ghost use Rattle.rt_inbox.specs.declared.view.View.TheVariants.{Spent};
    ghost use Rattle.rt_inbox.specs.Rule.{with_joined};

    ghost both = { with_joined };

    ghost spent = { Spent };
}

/// A post is accepted.
pub struct Accepting;

impl Outcome<Msg, View> for Accepting {
    ghost use Rattle.rt_inbox.specs.Rule.{with_post};

    ghost then = { λ v m w. w ≡ with_post m.what v };
}

/// A message is taken, or the queue is found empty.
pub struct Taking;

impl Outcome<Msg, View> for Taking {
    ghost use Rattle.std.specs.Prelude.{List as Items};
    ghost use Rattle.rt_inbox.specs.declared.message.Msg.{Msg as Message};
    ghost use Rattle.rt_inbox.specs.Rule.{with_taken, WasAt};

    ghost then = { λ v m w. (w ≡ with_taken m v) × ((items : Items Message) × WasAt items w) };
}

impl Lesson<Msg, View> for Taking {
    ghost use Rattle.rt_inbox.specs.Rule.{WasAt};

    ghost fact = { λ v items. WasAt items v };
}

/// The queue of all posters.
pub type Line = RuledSegQueue<Msg, View, Fits>;

/// What one thread knows of the queue. It has no bytes.
pub type Seat = SegPass<Msg, View>;

/// What the owner knows of the queue, with the count of its pops that found none.
pub type OwnerSeat = Counted<Msg, View>;

/// An empty queue, with the owner's pass.
pub fn open(alloc: Global) -> Result<(Line, OwnerSeat), AllocError>
    ensures own { IfOk result (λ r. IsSegPassOf r.0 r.1.pass) }
    ensures view { IfOk result (λ r. r.1.pass.me.view.client ≡ Owning [] 0 []) }
    ensures nones { IfOk result (λ r. r.1.nones ≡ 0) }
{
    OwnerSeat::open::<Fits>(alloc)
}

/// Makes the next poster's pass.
pub fn make(line: &Line, owner: &mut OwnerSeat) -> Seat
    requires own { IsSegPassOf line.now owner.old.pass }
    requires owns { Owns owner.old.pass.me.view.client }
    ensures own { IsSegPassOf line.now owner.new.pass × IsSegPassOf line.now result }
    ensures owner { owner.new.pass.me.view.client ≡ with_poster owner.old.pass.me.view.client }
    ensures poster { result.me.view.client ≡ next_poster owner.old.pass.me.view.client }
    ensures nones { owner.new.nones ≡ owner.old.nones }
{
    owner.another::<Fits, Passing>(line)
}

/// Joins a poster's pass to the owner's.
pub fn join(line: &Line, owner: &mut Seat, poster: Seat)
    requires own { IsSegPassOf line.now owner.old × IsSegPassOf line.now poster }
    requires owns { Owns owner.old.me.view.client }
    requires posts { Posts poster.me.view.client }
    ensures own { IsSegPassOf line.now owner.new }
    ensures owner { owner.new.me.view.client
        ≡ with_joined owner.old.me.view.client poster.me.view.client }
{
    line.absorb::<Passing>(owner, poster);
}

/// Posts a poster's next message in one step. Want of memory alone refuses it.
pub fn push<R: Wait>(rt: &R, line: &Line, poster: &mut Seat, message: Msg) -> Result<(), Msg>
    requires own { IsSegPassOf line.now poster.old }
    requires posts { Posts poster.old.me.view.client }
    requires next { message ≡ message_of poster.old.me.view.client message.what }
    ensures own { IsSegPassOf line.now poster.new }
    ensures ok { OnOk result
        (poster.new.me.view.client ≡ with_post message.what poster.old.me.view.client) }
    ensures err { IfErr result
        (λ m. (m ≡ message) × (poster.new.me.view.client ≡ poster.old.me.view.client)) }
{
    line.push_as::<Accepting, R>(rt, poster, message)
}

/// Takes the message at the front in one step, if there is one.
pub fn pop<R: Wait>(rt: &R, line: &Line, owner: &mut Seat) -> Option<Msg>
    requires own { IsSegPassOf line.now owner.old }
    requires owns { Owns owner.old.me.view.client }
    ensures own { IsSegPassOf line.now owner.new }
    ensures some { IfSome result
        (λ m. (owner.new.me.view.client ≡ with_taken m owner.old.me.view.client)
        × ((items : Items Msg) × WasAt items owner.new.me.view.client)) }
    ensures none { IfNone result ((owner.new.me.view.client ≡ owner.old.me.view.client)
        × WasAt [] owner.new.me.view.client) }
{
    line.pop_as::<Taking, R>(rt, owner)
}

/// The same of the owner's counted pass. Where there is none the count rises.
pub fn pop_counted<R: Wait>(rt: &R, line: &Line, owner: &mut OwnerSeat) -> Option<Msg>
    requires own { IsSegPassOf line.now owner.old.pass }
    requires owns { Owns owner.old.pass.me.view.client }
    requires countable { owner.old.nones < 2 ^ 64 - 1 }
    ensures own { IsSegPassOf line.now owner.new.pass }
    ensures some { IfSome result
        (λ m. (owner.new.pass.me.view.client ≡ with_taken m owner.old.pass.me.view.client)
        × (owner.new.nones ≡ owner.old.nones)) }
    ensures none { IfNone result
        ((owner.new.pass.me.view.client ≡ owner.old.pass.me.view.client)
        × WasAt [] owner.new.pass.me.view.client × (owner.new.nones ≡ owner.old.nones + 1)) }
{
    owner.pop::<Fits, Taking, R>(rt, line)
}
