//! What the list shows.
ghost use Rattle.std.specs.Prelude.{◌≡◌, IfOk};
ghost use Rattle.std.specs.List.{slice_get};
ghost use Rattle.examples_list.specs.Meaning as meaning;

use crate::listed::Listed;
use crate::parts::{Change, Value, items_in};
use examples_library::{FieldProps, Line, Made, field_at};
use rt_author::{
    List, Piece, ScopeId, Text, VNode, element, empty_attrs, listens, row, several, text, view,
};
use std::alloc::Global;

/// A tree of the list.
pub(crate) type Tree = Made<VNode<Listed>>;

/// Trees beside one another.
type Lines = Made<List<VNode<Listed>>>;

/// The items, in order: each with a button that takes it out.
fn lines(alloc: Global, line: &Line, scope: ScopeId, items: u64, words: &[Text]) -> Lines
    ensures lines { IfOk result (λ lines. lines ≡ meaning.lines scope.0 items 0 words.now) }
{
    let mut lines = List::new(alloc);
    for index in 0..words.len() {
        let at = index as u64;
        let removes = Change::Remove { items, at };
        lines.push(line.of::<Listed>(alloc, scope, &words[index], removes)?)?;
    }
    Ok(lines)
}

/// The field for what is wanted.
fn draft_field(alloc: Global, cell: u64) -> Made<Piece<Listed>>
    ensures piece { IfOk result (λ piece. piece ≡ meaning.draft_field cell) }
{
    Ok(field_at(alloc, FieldProps::new(alloc, cell, "Wanted", "Say what")?)?)
}

/// The button that adds what was typed.
fn add_button(alloc: Global, scope: ScopeId, draft: u64, items: u64) -> Made<Piece<Listed>>
    ensures piece { IfOk result (λ piece. piece ≡ meaning.add_button scope.0 draft items) }
{
    let adds = listens(alloc, "onclick", scope, Change::Add { draft, items });
    element(alloc, "button", adds, text(alloc, "Add"))
}

/// The field, a button, and the items.
fn whole(alloc: Global, line: &Line, scope: ScopeId, draft: u64, items: u64, words: &[Text]) -> Tree
    ensures tree { IfOk result (λ tree. tree ≡ meaning.whole scope.0 draft items words.now) }
{
    let lines = lines(alloc, line, scope, items, words)?;
    let add = add_button(alloc, scope, draft, items);
    let list = element(alloc, "ul", empty_attrs(alloc), several(alloc, lines));
    view(alloc, row![draft_field(alloc, draft), add, list])
}

/// What is shown of the numbers of the two cells, and of the items that were read.
pub(crate) fn present(
    alloc: Global,
    line: &Line,
    scope: ScopeId,
    own: &[u64],
    values: &[Option<Value>],
) -> Tree
    ensures tree { IfOk result (λ tree. tree ≡ meaning.present scope.0
        (slice_get own.now 0) (slice_get own.now 1) (meaning.items_in (slice_get values.now 0))) }
{
    match (own.get(0), own.get(1), items_in(alloc, values.get(0))?) {
        (Some(draft), Some(items), Some(words)) => {
            whole(alloc, line, scope, *draft, *items, words.as_slice())
        }
        _ => VNode::placeholder(alloc),
    }
}
