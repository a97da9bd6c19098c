//! The list: words are typed and added, and an item is taken out.

use examples_lines::{click, lines};
use examples_list::{Shopping, no_props};
use rt_app::{ElementId, Input, List, OutOfMemory, Paged, Text};
use std::alloc::Global;

/// Words that are typed in an element.
fn typed(alloc: Global, words: &str, element: u64) -> Result<Input<Paged<Shopping>>, OutOfMemory> {
    Ok(Input::Event {
        name: Text::from_str(alloc, "input")?,
        payload: Text::from_str(alloc, words)?,
        element: ElementId(element),
        bubbles: true,
    })
}

/// A click at an element.
fn clicked(alloc: Global, element: u64) -> Result<Input<Paged<Shopping>>, OutOfMemory> {
    click(alloc, Text::from_str(alloc, "")?, element)
}

/// The lines of a session: two items are added, and the first is taken out.
pub(crate) fn printed(alloc: Global) -> Result<List<u8>, OutOfMemory> {
    let mut inputs = List::new(alloc);
    inputs.push(clicked(alloc, 5)?)?;
    inputs.push(typed(alloc, "milk", 3)?)?;
    inputs.push(clicked(alloc, 5)?)?;
    inputs.push(typed(alloc, "bread", 3)?)?;
    inputs.push(clicked(alloc, 5)?)?;
    inputs.push(clicked(alloc, 12)?)?;
    let pages = Shopping::new(alloc)?;
    lines(alloc, Paged { pages }, no_props(alloc)?, inputs)
}
