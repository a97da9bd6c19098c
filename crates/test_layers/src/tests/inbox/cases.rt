//! The worked case, and ends that go to threads.
ghost use Rattle.std.specs.Prelude.{◌≡◌};

use super::calls::{drain, end, mark, msg, post, took, two_posters, wake};
use rt_inbox::Post;

#[test]
fn each_posters_messages_come_in_its_order(rt: HostRuntime) {
    let alloc = rt.alloc();
    let (inbox, mut owner, mut first, mut second) = two_posters(&rt, alloc);
    post(&rt, &inbox, &mut first, mark(3));
    post(&rt, &inbox, &mut first, wake(1));
    post(&rt, &inbox, &mut first, Post::AllDirty);
    post(&rt, &inbox, &mut second, mark(4));
    let drained = drain(&rt, alloc, &inbox, &mut owner, 2);
    took(
        &rt,
        &drained,
        &[msg(0, 0, mark(3)), msg(0, 1, wake(1))],
        false,
    );
    let drained = drain(&rt, alloc, &inbox, &mut owner, 2);
    took(
        &rt,
        &drained,
        &[msg(0, 2, Post::AllDirty), msg(1, 0, mark(4))],
        false,
    );
    let drained = drain(&rt, alloc, &inbox, &mut owner, 2);
    took(&rt, &drained, &[], true);
    let taken = end(&rt, alloc, inbox, owner, first, second);
    assert_eq!(rt; taken.left(), [].as_slice());
    assert_eq!(rt; taken.taken().len(), 4);
}

// What may go to another thread.
fn sent<T: Send>(value: T) -> T
    ensures same { result ≡ value }
{
    value
}

// What threads may share.
fn shared<T: Sync>(value: &T) -> &T
    ensures same { result.now ≡ value.now }
{
    value
}

#[test]
fn the_ends_go_to_threads_that_share_the_inbox(rt: HostRuntime) {
    let alloc = rt.alloc();
    let (inbox, owner, first, second) = two_posters(&rt, alloc);
    let mut owner = sent(owner);
    let mut first = sent(first);
    post(&rt, shared(&inbox), &mut first, Post::AllDirty);
    let drained = drain(&rt, alloc, shared(&inbox), &mut owner, 1);
    took(&rt, &drained, &[msg(0, 0, Post::AllDirty)], false);
    end(&rt, alloc, inbox, owner, first, second);
}
