//! What a poll answers.
ghost use Rattle.std.specs.Prelude.{◌≡◌};
ghost use Rattle.run_reports.specs.Polls.{told_by};

/// That a task has ended, or there is something to do; or that the caller may wait.
#[derive(Clone, Copy, Debug, PartialEq, Eq)]
pub enum Poll<T> {
    Ready(T),
    Pending,
}

/// Ready, or pending.
pub fn poll_of(ready: bool) -> Poll<()>
    ensures { result ≡ told_by ready }
{
    if ready {
        Poll::Ready(())
    } else {
        Poll::Pending
    }
}
