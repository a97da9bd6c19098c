//! One list posted by one thread, up to the first post that is refused.
ghost use Rattle.std.specs.Prelude.{◌≡◌, ◌≤◌, ◌++◌, [], true, length};
ghost use Rattle.std.specs.Thread.{IsSync};
ghost use Rattle.rt_inbox.specs.Ends.{IsNotifierOf, number_of, posts_of};
ghost use Rattle.rt_inbox.specs.Posted.{AllReady, AllPosted, IsReady, HasPosted};

use crate::gate::Gate;
use crate::inbox::Inbox;
use crate::message::Post;
use crate::notifier::Notifier;
use rt_values::List;
use std::sync::Wait;
use std::thread::{Threads, for_each_mut};

/// Who posts, and what.
#[derive(Drop)]
pub struct Poster {
    pub notifier: Notifier,
    /// What the gate is told of it.
    pub number: u64,
    /// What it is to post, in order.
    pub posts: List<Post>,
    /// Whether all of that was accepted.
    pub accepted: bool,
}

/// Posts one after another, with the gate called round each, up to a post that is refused. Whether
/// none was.
fn post_all<R: Wait, G: Gate>(
    rt: &R,
    inbox: &Inbox,
    gate: &G,
    number: u64,
    notifier: &mut Notifier,
    posts: &[Post],
) -> bool
    requires own { IsNotifierOf inbox.now notifier.old }
    requires nothing { posts_of notifier.old ≡ [] }
    requires few { length posts.now ≤ 1000000 }
    ensures own { IsNotifierOf inbox.now notifier.new }
    ensures number { number_of notifier.new ≡ number_of notifier.old }
    ensures front { (rest : _) × (posts_of notifier.new ++ rest ≡ posts.now) }
    ensures all { result ≡ true → posts_of notifier.new ≡ posts.now }
{
    for what in posts {
        let seq = notifier.accepted();
        gate.before(number, seq);
        let posted = notifier.post(rt, inbox, *what);
        gate.after(number, seq);
        if posted.is_err() {
            return false;
        }
    }
    true
}

impl Poster {
    /// Posts its list, and keeps whether all of it was accepted.
    fn post<R: Wait, G: Gate>(&mut self, rt: &R, inbox: &Inbox, gate: &G)
        requires ready { IsReady inbox.now self.old }
        ensures posted { HasPosted inbox.now self.old self.new }
    {
        self.accepted = post_all(
            rt,
            inbox,
            gate,
            self.number,
            &mut self.notifier,
            self.posts.as_slice(),
        );
    }
}

/// Lets each poster post its list in a thread of its own, and comes back once all have ended. Where
/// a thread can't be started its list is posted in this one.
pub fn post_lists<R: Threads + Wait + Sync, G: Gate>(
    rt: &R,
    inbox: &Inbox,
    gate: &G,
    posters: &mut [Poster],
)
    requires ready { AllReady inbox.now posters.old }
    ensures posted { AllPosted inbox.now posters.old posters.new }
{
    let count = posters.len();
    if count == 0 {
        return;
    }
    for_each_mut(
        rt,
        posters,
        count,
        &|_at: usize, poster: &mut Poster|
            requires { IsReady inbox.now poster.old }
            ensures { HasPosted inbox.entry.now poster.old poster.new }
        { poster.post(rt, inbox, gate) },
    );
}
