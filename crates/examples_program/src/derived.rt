//! The memo and the resource: a session of each.

use examples_derived::{Component, Derived, Deriving, Value};
use examples_lines::lines_of;
use rt_app::{
    Bodied, Input, Limits, List, Mutations, NoData, OutOfMemory, Task, Text, memo_session,
};
use std::alloc::Global;

/// The lines of a session with a component at its top.
fn lines(
    alloc: Global,
    root: Component,
    inputs: List<Input<Deriving>>,
) -> Result<List<u8>, OutOfMemory> {
    let app = Bodied {
        bodies: Derived { root },
    };
    let mut sink = Mutations::default_list(alloc);
    let ended = memo_session(alloc, app, NoData, inputs, &mut sink, Limits::usual());
    lines_of(alloc, &sink, ended)
}

/// A write of a number.
fn number(cell: u64, number: u64) -> Input<Deriving> {
    Input::Write {
        cell,
        value: Value::Number(number),
    }
}

/// The memo: the second cell is written while the first one is 0, then the first one, and then the
/// second one twice with one number.
fn chosen(alloc: Global) -> Result<List<u8>, OutOfMemory> {
    let mut inputs = List::new(alloc);
    inputs.push(number(2, 5))?;
    inputs.push(number(1, 1))?;
    inputs.push(number(2, 6))?;
    inputs.push(number(2, 6))?;
    lines(alloc, Component::Chosen, inputs)
}

/// The resource: its key is written, and its task is woken until it is loaded.
fn loaded(alloc: Global) -> Result<List<u8>, OutOfMemory> {
    let name = Value::Words(Text::from_str(alloc, "b")?);
    let mut inputs = List::new(alloc);
    inputs.push(Input::Write {
        cell: 1,
        value: name,
    })?;
    inputs.push(Input::Wake(Task(1)))?;
    lines(alloc, Component::Loaded, inputs)
}

/// The lines of both.
pub(crate) fn printed(alloc: Global) -> Result<List<u8>, OutOfMemory> {
    let mut all = chosen(alloc)?;
    all.append(loaded(alloc)?)?;
    Ok(all)
}
