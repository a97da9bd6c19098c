//! A memo in a runtime that is kept: cells are written from outside, and the units that follow are
//! counted.

use examples_derived::{Component, Derived, Deriving, Value};
use rt_app::dom::{DomFault, VirtualDom};
use rt_app::{Bodied, Limits, NoOpMutations};
use std::alloc::Global;

/// The runtime: its application has a memo of two cells.
type Kept = VirtualDom<Deriving>;

/// A memo that isn't built yet.
fn made(alloc: Global) -> Result<Kept, DomFault> {
    let root = Component::Chosen;
    let app = Bodied {
        bodies: Derived { root },
    };
    Ok(VirtualDom::new(alloc, app, Limits::usual())?)
}

/// It is built, and its task is polled, so that its memo is computed.
fn settle(dom: &mut Kept) -> Result<(), DomFault> {
    dom.rebuild_in_place()?;
    dom.settle(&mut NoOpMutations)?;
    Ok(())
}

/// The units of what a write of a cell leads to.
fn units_after(dom: &mut Kept, cell: u64, number: u64) -> Result<u64, DomFault> {
    dom.write(cell, Value::Number(number))?;
    let report = dom.settle(&mut NoOpMutations)?;
    Ok(report.units)
}

/// The units after each of three writes: of the second cell while the first one is 0, of the first
/// one, and of the second one while the first one is 1.
fn units_of(dom: &mut Kept) -> Result<[u64; 3], DomFault> {
    settle(dom)?;
    let unread = units_after(dom, 2, 5)?;
    let first = units_after(dom, 1, 1)?;
    let second = units_after(dom, 2, 6)?;
    Ok([unread, first, second])
}

/// Makes the runtime, writes its cells and closes it. The units after each of three writes: the
/// second cell wakes the task only while its memo reads it.
pub(crate) fn woken(alloc: Global) -> Result<[u64; 3], DomFault> {
    let mut dom = made(alloc)?;
    let units = units_of(&mut dom);
    dom.close()?;
    units
}
