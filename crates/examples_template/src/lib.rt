//! An application to start from: one component, which keeps a number in a cell and shows it on a
//! button that raises it.
#![tactic(auto)]

mod application;
mod laws;
mod tally;

pub use application::Application;
pub use laws::{button_shows_fold, cells_fold, click_raises, one_click, report_raises, root_shows};
pub use tally::{Made, Tallied, Tally, tallying};
