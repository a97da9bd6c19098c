//! Messages from threads: posts go in, and one owner takes them; posters as threads of their own, each
//! of which posts its list while the owner drains.
#![tactic(auto)]

mod bell;
mod gate;
mod inbox;
mod laws;
mod line;
mod making;
mod meeting;
mod message;
mod notifier;
mod owner;
mod posters;
mod taken;
mod view;

pub use bell::Bell;
pub use gate::{Gate, NoGate};
pub use inbox::Inbox;
pub use laws::steps_keep_the_rule;
pub use making::posters_for;
pub use meeting::{meet, post_beside};
pub use message::{Drained, Msg, Post, Refused};
pub use notifier::Notifier;
pub use owner::Owner;
pub use posters::{Poster, post_lists};
pub use taken::{Taken, finish};
