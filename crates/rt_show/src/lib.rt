//! The whole program over any source of bytes and any out: from an application to its edits and
//! reports.
#![tactic(auto)]

mod top;

pub use show_html::{asks_for_page, show_paged, show_paged_and_say};
pub use show_posts::{asks_for_posters, show_posted, show_posted_and_say};
pub use show_stream::{asks_for_stream, show_streamed};
pub use show_words::{failures_agree, listeners_agree, most_bytes_agree, run_texts_agree};
pub use top::{show, show_and_say};
