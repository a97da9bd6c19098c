//! The posters of an inbox, each with the list that it is to post.
ghost use Rattle.std.specs.Prelude.{◌≡◌, ◌≤◌, [], length, map, All, IfOk};
ghost use Rattle.rt_inbox.specs.declared.inbox.Inbox.{Inbox};
ghost use Rattle.rt_inbox.specs.Ends.{IsNotifierOf, posts_of};
ghost use Rattle.rt_inbox.specs.Posted.{AllReady, notifier_of, list_of};

use crate::message::Post;
use crate::notifier::Notifier;
use crate::posters::Poster;
use rt_values::{List, OutOfMemory, Part};
use std::alloc::Global;

/// A poster for each list, with the notifier at the same place.
fn paired(
    alloc: Global,
    notifiers: List<Notifier>,
    posts: &[List<Post>],
) -> Result<List<Poster>, OutOfMemory>
    requires each { length notifiers ≡ length posts.now }
    ensures notifiers { IfOk result (λ posters. map notifier_of posters ≡ notifiers) }
    ensures lists { IfOk result (λ posters. map list_of posters ≡ posts.now) }
{
    let mut posters = List::new(alloc);
    for notifier in notifiers.into_vec() {
        let at = posters.len();
        let list = posts[at].copy(alloc)?;
        posters.push(Poster {
            notifier,
            number: at as u64,
            posts: list,
            accepted: false,
        })?;
    }
    Ok(posters)
}

/// A poster for each list, with the notifier at the same place. They are ready where the notifiers
/// are an inbox's own that have posted nothing, and no list has more than a million posts.
pub fn posters_for(
    alloc: Global,
    notifiers: List<Notifier>,
    posts: &[List<Post>],
) -> Result<List<Poster>, OutOfMemory>
    requires each { length notifiers ≡ length posts.now }
    ensures notifiers { IfOk result (λ posters. map notifier_of posters ≡ notifiers) }
    ensures lists { IfOk result (λ posters. map list_of posters ≡ posts.now) }
    ensures ready { IfOk result (λ posters. (inbox : Inbox) → All (IsNotifierOf inbox) notifiers →
        All (λ n. posts_of n ≡ []) notifiers → All (λ l. length l ≤ 1000000) posts.now →
        AllReady inbox posters) }
{
    let posters = paired(alloc, notifiers, posts)?;
    Ok(posters)
}
