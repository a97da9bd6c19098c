//! A poster's end: it posts, and keeps what was accepted.
ghost use Rattle.std.specs.Prelude.{◌≡◌, ◌<◌, ◌^◌, ◌++◌, ◌∷◌, [], length, IfErr, OnOk};
ghost use Rattle.rt_inbox.specs.Ends.{IsNotifierOf, number_of, posts_of};

use crate::inbox::Inbox;
use crate::line::{Seat, push};
use crate::message::{Msg, Post, Refused};
use std::sync::Wait;

/// Posts messages to the owner of its inbox, and keeps those that were accepted.
#[derive(Drop)]
pub struct Notifier {
    pub(crate) pass: Seat,
    pub(crate) number: u64,
    pub(crate) accepted: Vec<Post>,
}

impl Notifier {
    /// Posts in one step, or hands the post back. Want of memory alone refuses it, and then nothing
    /// is posted.
    pub fn post<R: Wait>(&mut self, rt: &R, inbox: &Inbox, what: Post) -> Result<(), Refused>
        requires own { IsNotifierOf inbox.now self.old }
        requires few { length (posts_of self.old) < 2 ^ 40 }
        ensures own { IsNotifierOf inbox.now self.new }
        ensures number { number_of self.new ≡ number_of self.old }
        ensures accepted { OnOk result (posts_of self.new ≡ posts_of self.old ++ what ∷ []) }
        ensures refused { IfErr result
            (λ r. (r.what ≡ what) × (posts_of self.new ≡ posts_of self.old)) }
    {
        if self.accepted.reserve(1).is_err() {
            return Err(Refused { what });
        }
        let message = Msg {
            poster: self.number,
            seq: self.accepted.len() as u64,
            what,
        };
        match push(rt, &inbox.line, &mut self.pass, message) {
            Ok(()) => {
                self.accepted.push_reserved(what);
                Ok(())
            }
            Err(_) => Err(Refused { what }),
        }
    }

    /// How many posts were accepted.
    pub fn accepted(&self) -> u64
        ensures count { result ≡ length (posts_of self.now) }
    {
        self.accepted.len() as u64
    }
}
