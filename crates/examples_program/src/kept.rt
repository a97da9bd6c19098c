//! The loop: a runtime that is kept, and posters in threads of their own.

use examples_loop::looped;
use examples_template::Application;
use rt_app::dom::DomFault;
use rt_app::{Event, List, NoData, Paged};
use std::alloc::Global;
use std::sync::Wait;
use std::thread::Threads;

/// The rows that show once all posts were taken, as lines.
pub(crate) fn printed<R: Threads + Wait + Sync>(
    rt: &R,
    alloc: Global,
) -> Result<List<u8>, DomFault> {
    let app = Paged { pages: Application };
    looped(rt, alloc, app, Event::new(NoData, true))
}
