//! What follows for a session from what is proved of its run.
ghost use Rattle.law_headline.specs.Sessions.{SessionsHold};

use author_calls::App;
use law_headline::sessions_hold;

/// The law of sessions, of an application.
pub(crate) fn laws_of<A: App>(app: &A)
    ensures { SessionsHold (A.meaning app.now) }
{
    sessions_hold::<
        A::Component,
        A::Props,
        A::Value,
        A::Handler,
        A::TaskState,
        A::Effect,
        A::Payload,
    >();
}
