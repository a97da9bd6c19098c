//! What a click and a call that settles leave of a runtime that is kept, whose application is the
//! one to start from. The function does nothing: what it claims is its contract, which follows of
//! the laws that it names.
ghost use Rattle.examples_loop.specs.Sentences.{ClickSettles};

use examples_template::click_raises;
use rt_app::dom::{calls_reduce, handled_update, settled_show};
use rt_app::{NoData, pages_are_lawful};

/// After a click that is handled and a call that settles, the number is one more, and the button
/// shows it.
pub fn click_settles()
    ensures { ClickSettles }
{
    click_raises();
    handled_update::<NoData, NoData, u64, u64, NoData, NoData, NoData>();
    calls_reduce::<NoData, NoData, u64, u64, NoData, NoData, NoData>();
    settled_show::<NoData, NoData, u64, u64, NoData, NoData, NoData>();
    pages_are_lawful::<NoData, NoData, u64, u64, NoData, NoData, NoData>();
}
