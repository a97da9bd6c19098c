//! The loop, and the posters beside it.
ghost use Rattle.std.specs.Prelude.{IfOk};
ghost use Rattle.rt_app.specs.InboxEnds.{IsOwnerOf};
ghost use Rattle.rt_app.specs.Posters.{AllReady};

use crate::running::{POSTS, Running, Served};
use rt_app::dom::DomFault;
use rt_app::{
    App, Bell, Event, Inbox, List, OutOfMemory, Owner, Post, Poster, ScopeId, post_beside,
    posters_for, two,
};
use std::alloc::Global;
use std::sync::Wait;
use std::thread::Threads;
use std::time::Duration;

/// The loop drains at most so often.
const DRAINS: u64 = 1_000;

/// It sleeps so many milliseconds at most at a time, since no post comes where no thread could be
/// started.
const NAP: u64 = 20;

/// Takes posts in until all were taken. Where there are none it sleeps until the bell has rung.
fn serve<R: Wait, S: Served>(
    rt: &R,
    alloc: Global,
    inbox: &Inbox,
    bell: &Bell,
    owner: &mut Owner,
    running: &mut S,
) -> Result<(), DomFault>
    requires own { IsOwnerOf inbox.now owner.old }
    ensures own { IsOwnerOf inbox.now owner.new }
{
    for _drain in 0..DRAINS {
        if running.taken() >= POSTS {
            return Ok(());
        }
        // Before the drain, so that a post behind it ends the sleep.
        let rung = bell.rung();
        let drained = owner.drain(rt, alloc, inbox, 2)?;
        running.take_in(&drained)?;
        if drained.emptied {
            bell.wait(rt, rung, Duration::from_millis(NAP));
        }
    }
    Ok(())
}

/// The posters post in threads of their own while the runtime is served in this one.
fn serve_beside<R: Threads + Wait + Sync, S: Served>(
    rt: &R,
    alloc: Global,
    inbox: &Inbox,
    bell: &Bell,
    posters: &mut [Poster],
    owner: &mut Owner,
    running: &mut S,
) -> Result<(), DomFault>
    requires own { IsOwnerOf inbox.now owner.old }
    requires ready { AllReady inbox.now posters.old }
    ensures own { IsOwnerOf inbox.now owner.new }
{
    post_beside(
        rt,
        inbox,
        bell,
        posters,
        &mut || -> Result<(), DomFault>
            requires { IsOwnerOf inbox.now owner.now }
            ensures { IsOwnerOf inbox.entry.now owner.exit.now }
        { serve(rt, alloc, inbox, bell, owner, running) },
    )
}

/// An inbox with its owner, and two posters: both mark the button's scope, so that it runs again.
fn convened(alloc: Global) -> Result<(Inbox, Owner, Vec<Poster>), OutOfMemory>
    ensures owner { IfOk result (λ made. IsOwnerOf made.0 made.1) }
    ensures ready { IfOk result (λ made. AllReady made.0 made.2.items) }
{
    let mark = Post::Mark(ScopeId(3));
    let first = two(alloc, mark, mark)?;
    let second = two(alloc, mark, mark)?;
    let posts = two(alloc, first, second)?;
    let (inbox, owner, notifiers) = Inbox::new(alloc, 2)?;
    let posters = posters_for(alloc, notifiers, posts.as_slice())?;
    Ok((inbox, owner, posters.into_vec()))
}

/// A runtime is built, and served until all posts were taken. The rows that show then, as lines.
fn run<R: Threads + Wait + Sync, S: Served>(
    rt: &R,
    alloc: Global,
    running: &mut S,
) -> Result<List<u8>, DomFault> {
    running.build()?;
    let (inbox, mut owner, mut posters) = convened(alloc)?;
    let bell = Bell::new();
    let all = posters.as_mut_slice();
    serve_beside(rt, alloc, &inbox, &bell, all, &mut owner, running)?;
    // Where no thread could be started the posts come behind the loop.
    serve(rt, alloc, &inbox, &bell, &mut owner, running)?;
    running.lines(alloc)
}

/// An application is built, served until all posts were taken, and closed whatever came; with the
/// first of them the click comes. The rows that show at its end, as lines.
pub fn looped<R: Threads + Wait + Sync, A: App>(
    rt: &R,
    alloc: Global,
    app: A,
    click: Event<A::Payload>,
) -> Result<List<u8>, DomFault> {
    let mut running = Running::new(alloc, app, click)?;
    let lines = run(rt, alloc, &mut running);
    let closed = running.close();
    let lines = lines?;
    closed?;
    Ok(lines)
}
