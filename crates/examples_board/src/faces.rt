//! What the board's components show.
ghost use Rattle.std.specs.Prelude.{◌≡◌, IfOk};
ghost use Rattle.examples_board.specs.Meaning as meaning;

use crate::board::Boarded;
use crate::parts::{Cells, Component, given};
use examples_library::Made;
use rt_author::{
    CapturedError, ErrorHandler, Fallback, Piece, ScopeId, Text, VNode, child, element,
    empty_attrs, error_boundary, listens, row, shown, suspense_boundary, text, view,
};
use std::alloc::Global;

/// A tree of the board.
pub(crate) type Tree = Made<VNode<Boarded>>;

/// A component without children, as a tree.
fn alone(alloc: Global, component: Component, cells: Cells) -> Tree
    ensures tree { IfOk result (λ tree. tree ≡ meaning.alone component cells) }
{
    view(alloc, child(alloc, component, given(cells)))
}

/// The news within an error boundary, whose handler is the refusal.
fn guarded(alloc: Global, cells: Cells) -> Made<Piece<Boarded>>
    ensures piece { IfOk result (λ piece. piece ≡ meaning.guarded cells) }
{
    let news = alone(alloc, Component::News, cells)?;
    let handler = ErrorHandler::Component(Component::Refusal, given(cells));
    error_boundary(alloc, Ok(news), handler)
}

/// The letter within a suspense boundary.
fn awaited(alloc: Global, cells: Cells) -> Made<Piece<Boarded>>
    ensures piece { IfOk result (λ piece. piece ≡ meaning.awaited cells) }
{
    let letter = alone(alloc, Component::Letter, cells)?;
    let fallback = Fallback::Component(Component::Waiting, given(cells));
    suspense_boundary(alloc, Ok(letter), fallback)
}

/// How many entries the log has.
fn log_at(alloc: Global, entries: u64) -> Made<Piece<Boarded>>
    ensures piece { IfOk result (λ piece. piece ≡ meaning.log_at entries) }
{
    let words = Text::from_string(format!(in alloc; "{entries} entries")?);
    element(alloc, "p", empty_attrs(alloc), shown(alloc, words))
}

/// The desk: the news, the letter, and the log.
fn desk_at(alloc: Global, cells: Cells, entries: u64) -> Tree
    ensures tree { IfOk result (λ tree. tree ≡ meaning.desk_at cells entries) }
{
    let below = row![awaited(alloc, cells), log_at(alloc, entries)];
    Ok(view(alloc, row![guarded(alloc, cells), below])?)
}

/// The desk, where the cell of the log is there.
pub(crate) fn desk_face(alloc: Global, cells: Cells, entries: Option<u64>) -> Tree
    ensures tree { IfOk result (λ tree. tree ≡ meaning.desk_face cells entries) }
{
    match entries {
        Some(entries) => Ok(desk_at(alloc, cells, entries)?),
        None => Ok(VNode::placeholder(alloc)?),
    }
}

/// A line of these words.
pub(crate) fn line(alloc: Global, words: &str) -> Tree
    ensures tree { IfOk result (λ tree. tree ≡ meaning.line words.now) }
{
    let line = element(alloc, "p", empty_attrs(alloc), text(alloc, words));
    view(alloc, line)
}

/// The words of a refusal, and a button that tries again.
fn refusal_at(alloc: Global, scope: ScopeId, cells: Cells, words: Text) -> Tree
    ensures tree { IfOk result (λ tree. tree ≡ meaning.refusal_at scope.0 cells words) }
{
    let tries = listens(alloc, "onclick", scope, cells);
    let button = element(alloc, "button", tries, text(alloc, "try again"));
    Ok(view(alloc, row![shown(alloc, words), button])?)
}

/// An error that was caught, where there is one.
type Caught = Option<CapturedError>;

/// They show where there is an error.
pub(crate) fn refusal_face(alloc: Global, scope: ScopeId, cells: Cells, error: Caught) -> Tree
    ensures tree { IfOk result (λ tree. tree
        ≡ meaning.refusal_face scope.0 cells (meaning.words_of error)) }
{
    match error {
        Some(error) => Ok(refusal_at(alloc, scope, cells, error.text)?),
        None => Ok(VNode::placeholder(alloc)?),
    }
}
