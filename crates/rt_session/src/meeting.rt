//! Posters and the inbox's owner meet: the posters post while the owner drains, and then the inbox
//! is ended.
ghost use Rattle.std.specs.Prelude.{◌≡◌, ◌≤◌, ◌<◌, ℕ, [], true, length, map, slice_index_or, vec_capacity, All, IfOk};
ghost use Rattle.rt_inbox.specs.Ends.{IsOwnerOf, taken_of};
ghost use Rattle.rt_model.specs.Lists.{joined};
ghost use Rattle.rt_inbox.specs.Posted.{AllPosted, AllReady, notifier_of};
ghost use Rattle.rt_session.specs.Meetings.{AllTaken, Convened, HasTaken, HavePosted, HoldsAs, MeetsAs, OwnsAs};
ghost use Rattle.rt_session.specs.Sittings.{Awaits, IsUnbuilt, TakesIn};

use crate::sitting::Sitting;
use author_calls::App;
use rt_edits::WriteMutations;
use rt_inbox::{
    Drained, Gate, Inbox, Notifier, Owner, Post, Poster, Taken, finish, post_beside, posters_for,
};
use rt_values::{List, OutOfMemory};
use run_outside::Ended;
use run_reports::Limits;
use std::alloc::Global;
use std::sync::Wait;
use std::thread::Threads;

/// So many drains that found nothing end the owner's part.
const NONES: u64 = 1000;

/// How many posts there are.
fn count_of(posts: &[List<Post>]) -> u64 {
    let mut count = 0u64;
    for list in posts {
        count = count.saturating_add(list.len() as u64);
    }
    count
}

/// Drains once and takes in what was drained. How many messages that was.
fn serve<R: Wait, A: App, M: WriteMutations>(
    rt: &R,
    alloc: Global,
    inbox: &Inbox,
    owner: &mut Owner,
    app: &A,
    sitting: &mut Sitting<A>,
    sink: &mut M,
    limits: Limits,
) -> Result<u64, Ended>
    requires own { IsOwnerOf inbox.now owner.old }
    ensures own { IsOwnerOf inbox.now owner.new }
    ensures takes { (props : _) (before : _) (faults : _) →
        Awaits (A.meaning app.now) limits props before faults
        (M.taken sink.old) (M.faults sink.old) sitting.old →
        TakesIn (A.meaning app.now) limits props before faults
        (M.taken sink.new) (M.faults sink.new) sitting.new result }
    ensures taken { taken_of owner.old ≡ joined sitting.old.drains →
        HasTaken owner.new sitting.new.drains result }
{
    let Drained {
        messages,
        emptied: _,
    } = owner.drain(rt, alloc, inbox, limits.drain)?;
    let count = messages.len() as u64;
    sitting.take_drained(alloc, app, messages, sink, limits)?;
    Ok(count)
}

/// Drains and takes in what was drained, until the wanted number of messages was taken or too many
/// drains found nothing.
fn attend<R: Wait, A: App, M: WriteMutations>(
    rt: &R,
    alloc: Global,
    inbox: &Inbox,
    owner: &mut Owner,
    app: &A,
    sitting: &mut Sitting<A>,
    sink: &mut M,
    limits: Limits,
    wanted: u64,
) -> Result<(), Ended>
    requires own { IsOwnerOf inbox.now owner.old }
    ensures own { IsOwnerOf inbox.now owner.new }
    ensures takes { (props : _) (before : _) (faults : _) →
        Awaits (A.meaning app.now) limits props before faults
        (M.taken sink.old) (M.faults sink.old) sitting.old →
        TakesIn (A.meaning app.now) limits props before faults
        (M.taken sink.new) (M.faults sink.new) sitting.new result }
    ensures taken { taken_of owner.old ≡ joined sitting.old.drains →
        HasTaken owner.new sitting.new.drains result }
{
    let mut taken = 0u64;
    let mut nones = 0u64;
    for _ in rt.forever() {
        if taken >= wanted || nones >= NONES {
            return Ok(());
        }
        let count = serve(rt, alloc, inbox, owner, app, sitting, sink, limits)?;
        if count == 0 {
            nones = nones.saturating_add(1);
        }
        taken = taken.saturating_add(count);
    }
    unreachable!()
}

/// The owner's part: the build, and then the drains.
fn own<R: Wait, A: App, M: WriteMutations>(
    rt: &R,
    alloc: Global,
    inbox: &Inbox,
    owner: &mut Owner,
    app: &A,
    sitting: &mut Sitting<A>,
    sink: &mut M,
    limits: Limits,
    wanted: u64,
) -> Result<(), Ended>
    requires own { IsOwnerOf inbox.now owner.old }
    ensures owns { OwnsAs (A.meaning app.now) limits inbox.now owner.old owner.new
        (M.taken sink.old) (M.faults sink.old) (M.taken sink.new) (M.faults sink.new)
        sitting.old sitting.new result }
{
    sitting.build(app, sink, limits)?;
    attend(rt, alloc, inbox, owner, app, sitting, sink, limits, wanted)
}

/// The posters post in threads of their own, while the owner's part is done in this one. It comes
/// back once both are done.
fn beside<R: Threads + Wait + Sync, A: App, G: Gate, M: WriteMutations>(
    rt: &R,
    alloc: Global,
    inbox: &Inbox,
    gate: &G,
    posters: &mut [Poster],
    owner: &mut Owner,
    app: &A,
    sitting: &mut Sitting<A>,
    sink: &mut M,
    limits: Limits,
    wanted: u64,
) -> Result<(), Ended>
    requires own { IsOwnerOf inbox.now owner.old }
    requires ready { AllReady inbox.now posters.old }
    ensures posted { AllPosted inbox.now posters.old posters.new }
    ensures owns { OwnsAs (A.meaning app.now) limits inbox.now owner.old owner.new
        (M.taken sink.old) (M.faults sink.old) (M.taken sink.new) (M.faults sink.new)
        sitting.old sitting.new result }
{
    post_beside(
        rt,
        inbox,
        gate,
        posters,
        &mut || -> Result<(), Ended>
            requires { IsOwnerOf inbox.now owner.now }
            ensures { OwnsAs (A.meaning app.entry.now) limits inbox.entry.now owner.entry.now owner.exit.now
                (M.taken sink.entry.now) (M.faults sink.entry.now) (M.taken sink.exit.now) (M.faults sink.exit.now)
                sitting.entry.now sitting.exit.now result }
        { own(rt, alloc, inbox, owner, app, sitting, sink, limits, wanted) },
    )
}

/// Whether all posts of all posters were accepted.
fn all_accepted(posters: &[Poster]) -> bool
    ensures all { result ≡ true → (k : ℕ) (d : _) → k < length posters.now →
        (slice_index_or posters.now k d).accepted ≡ true }
{
    for poster in posters {
        if !poster.accepted {
            return false;
        }
    }
    true
}

/// The posters' ends, for which there is room.
fn ends_of(posters: Vec<Poster>, room: Vec<Notifier>) -> List<Notifier>
    requires empty { room.items ≡ [] }
    requires room { length posters.items ≤ vec_capacity room }
    ensures ends { result ≡ map notifier_of posters.items }
{
    let mut ends = room;
    for poster in posters {
        let Poster {
            notifier,
            number: _,
            posts: _,
            accepted: _,
        } = poster;
        ends.push_reserved(notifier);
    }
    List::from_vec(ends)
}

/// An inbox with its owner, a poster for each list, and room for the posters' ends.
fn convene(
    alloc: Global,
    posts: &List<List<Post>>,
) -> Result<(Inbox, Owner, Vec<Poster>, Vec<Notifier>), OutOfMemory>
    requires some { 1 ≤ length posts.now }
    requires few { length posts.now ≤ 1000 }
    requires short { All (λ list. length list ≤ 1000000) posts.now }
    ensures convened { IfOk result (λ made. Convened posts.now made.0 made.1 made.2 made.3) }
{
    let (inbox, owner, notifiers) = Inbox::new(alloc, posts.len() as u64)?;
    let posters = posters_for(alloc, notifiers, posts.as_slice())?;
    let room = Vec::with_capacity(alloc, posts.len())?;
    Ok((inbox, owner, posters.into_vec(), room))
}

/// Ends the inbox once all posters are done. A post that was refused is told as want of memory.
fn end<R: Wait>(
    rt: &R,
    alloc: Global,
    inbox: Inbox,
    owner: Owner,
    posters: Vec<Poster>,
    room: Vec<Notifier>,
    posts: &List<List<Post>>,
) -> Result<Taken, OutOfMemory>
    requires own { IsOwnerOf inbox owner }
    requires posted { HavePosted inbox posts.now posters.items }
    requires empty { room.items ≡ [] }
    requires room { length posts.now ≤ vec_capacity room }
    ensures taken { IfOk result (AllTaken posts.now owner) }
{
    let accepted = all_accepted(posters.as_slice());
    let ends = ends_of(posters, room);
    let Ok(taken) = finish(rt, alloc, inbox, owner, ends) else {
        return Err(OutOfMemory);
    };
    if accepted {
        Ok(taken)
    } else {
        Err(OutOfMemory)
    }
}

/// The build, the drains beside the posters, and the end of the inbox.
fn meet<R: Threads + Wait + Sync, A: App, G: Gate, M: WriteMutations>(
    rt: &R,
    alloc: Global,
    app: &A,
    posts: &List<List<Post>>,
    gate: &G,
    sitting: &mut Sitting<A>,
    sink: &mut M,
    limits: Limits,
) -> Result<Taken, Ended>
    requires some { 1 ≤ length posts.now }
    requires few { length posts.now ≤ 1000 }
    requires short { All (λ list. length list ≤ 1000000) posts.now }
    requires drain { 1 ≤ limits.drain }
    ensures meets { (props : _) → IsUnbuilt (A.meaning app.now) props sitting.old →
        MeetsAs (A.meaning app.now) limits props posts.now
        (M.taken sink.old) (M.faults sink.old) (M.taken sink.new) (M.faults sink.new)
        sitting.new result }
{
    let (inbox, mut owner, mut posters, room) = convene(alloc, posts)?;
    let wanted = count_of(posts.as_slice());
    let all = posters.as_mut_slice();
    let ended = beside(
        rt, alloc, &inbox, gate, all, &mut owner, app, sitting, sink, limits, wanted,
    );
    let taken = end(rt, alloc, inbox, owner, posters, room, posts)?;
    ended?;
    Ok(taken)
}

/// The whole meeting, and then what was left in the inbox.
pub(crate) fn hold<R: Threads + Wait + Sync, A: App, G: Gate, M: WriteMutations>(
    rt: &R,
    alloc: Global,
    app: &A,
    posts: &List<List<Post>>,
    gate: &G,
    sitting: &mut Sitting<A>,
    sink: &mut M,
    limits: Limits,
) -> Result<Taken, Ended>
    requires some { 1 ≤ length posts.now }
    requires few { length posts.now ≤ 1000 }
    requires short { All (λ list. length list ≤ 1000000) posts.now }
    requires drain { 1 ≤ limits.drain }
    ensures holds { (props : _) → IsUnbuilt (A.meaning app.now) props sitting.old →
        HoldsAs (A.meaning app.now) limits props posts.now
        (M.taken sink.old) (M.faults sink.old) (M.taken sink.new) (M.faults sink.new)
        sitting.new.drains sitting.new.reports result }
{
    let taken = meet(rt, alloc, app, posts, gate, sitting, sink, limits)?;
    sitting.take_left(alloc, app, taken.left(), sink, limits)?;
    Ok(taken)
}
