//! What a poll answers.
ghost use Rattle.std.specs.Prelude.{◌≡◌};
ghost use Rattle.run_answers.specs.Polls.{answers};

use run_reports::Poll;

/// Pending where nothing is to be done.
pub(crate) fn pending_where(waits: bool) -> Poll<()>
    ensures { result ≡ answers waits }
{
    if waits {
        Poll::Pending
    } else {
        Poll::Ready(())
    }
}
