//! A runtime that a program keeps: an application is built, told of a click, rendered, written to,
//! settled, looked at and closed. What it writes comes as lines.

use examples_template::Application;
use rt_app::dom::{DomFault, VirtualDom};
use rt_app::{Edit, ElementId, Event, Limits, List, Mutations, NoData, Paged, ScopeId};
use show_print::edit_line;
use std::alloc::Global;

/// The scope of the application's component, below the root wrapper and its two boundaries.
const COMPONENT: ScopeId = ScopeId(3);

/// Appends the lines of what a call wrote.
fn put_edits(alloc: Global, lines: &mut List<u8>, edits: &[Edit]) -> Result<(), DomFault> {
    for edit in edits {
        lines.append(edit_line(alloc, edit)?)?;
    }
    Ok(())
}

/// The runtime.
type Kept = VirtualDom<Paged<Application>>;

/// An application that isn't built yet.
fn made(alloc: Global) -> Result<Kept, DomFault> {
    Ok(VirtualDom::new(alloc, Paged { pages: Application }, Limits::usual())?)
}

/// It is built once, and what shows is written to a list.
fn builds(alloc: Global, lines: &mut List<u8>, dom: &mut Kept) -> Result<(), DomFault> {
    let built = dom.rebuild_to_vec()?;
    put_edits(alloc, lines, built.edits())
}

/// A click at the button, and what shows after it.
fn clicks(alloc: Global, lines: &mut List<u8>, dom: &mut Kept) -> Result<(), DomFault> {
    dom.handle_event("click", Event::new(NoData, true), ElementId(1))?;
    let raised = dom.render_immediate_to_vec()?;
    put_edits(alloc, lines, raised.edits())
}

/// A greater value from outside, and all that is owed, over a sink of the program's own.
fn writes(alloc: Global, lines: &mut List<u8>, dom: &mut Kept) -> Result<(), DomFault> {
    let count = dom.read(1).copied().unwrap_or(0);
    dom.write(1, count.saturating_add(39))?;
    let mut sink = Mutations::default_list(alloc);
    dom.settle(&mut sink)?;
    put_edits(alloc, lines, sink.edits())
}

/// All that is done while it is there. The height of the component's scope.
fn uses(alloc: Global, lines: &mut List<u8>, dom: &mut Kept) -> Result<u64, DomFault> {
    builds(alloc, lines, dom)?;
    clicks(alloc, lines, dom)?;
    writes(alloc, lines, dom)?;
    Ok(u64::from(dom.height(COMPONENT).unwrap_or(0)))
}

/// Makes the runtime, uses it and closes it, and appends the lines of what it wrote. The height of
/// the component's scope, or the first fault.
pub(crate) fn kept(alloc: Global, lines: &mut List<u8>) -> Result<u64, DomFault> {
    let mut dom = made(alloc)?;
    let height = uses(alloc, lines, &mut dom);
    dom.close()?;
    height
}
