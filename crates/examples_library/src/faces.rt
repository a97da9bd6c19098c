//! What a field shows, and the field as a piece of a tree.
ghost use Rattle.std.specs.Prelude.{◌≡◌, IfOk};
ghost use Rattle.examples_library.specs.Meaning as meaning;

use crate::parts::{FieldProps, Library, Made, Typed};
use rt_author::{
    Carries, NoData, Part, Parts, Piece, ScopeId, Text, VNode, attrs, carried, element,
    empty_attrs, empty_piece, listens, row, says, shown, view, when,
};
use std::alloc::Global;

/// A field, as a piece of a tree.
pub fn field_at<P: Carries<Library>>(alloc: Global, props: FieldProps) -> Made<Piece<P>>
    ensures piece { IfOk result (λ piece. piece ≡ meaning.field_at P.carrying props) }
{
    carried::<Library, P>(alloc, NoData, props)
}

/// What is said of a text: a refusal while there is none.
fn said<P: Parts>(alloc: Global, text: &Text, refusal: &Text) -> Made<Piece<P>>
    ensures piece { IfOk result (λ piece. piece ≡ meaning.said text.now refusal.now) }
{
    if text.is_empty() {
        shown(alloc, refusal.copy(alloc)?)
    } else {
        when(alloc, None)
    }
}

/// The tree of a field.
fn face<P: Carries<Library>>(
    alloc: Global,
    scope: ScopeId,
    props: &FieldProps,
    text: Text,
) -> Made<VNode<P>>
    ensures tree { IfOk result (λ tree. tree ≡ meaning.face P.carrying scope.0 props.now text) }
{
    let words = props.label.copy(alloc)?;
    let said = said(alloc, &text, &props.refusal);
    let typed = P::handler_of(Typed { cell: props.cell });
    let own = attrs![
        listens(alloc, "oninput", scope, typed),
        says(alloc, "value", text),
    ];
    let label = element(alloc, "label", empty_attrs(alloc), shown(alloc, words));
    let input = element(alloc, "input", own, empty_piece(alloc));
    Ok(view(alloc, row![label, input, said])?)
}

/// What a field shows of what its cell holds: a placeholder where that is no text, or is gone.
pub(crate) fn present<P: Carries<Library>>(
    alloc: Global,
    scope: ScopeId,
    props: &FieldProps,
    held: Option<Text>,
) -> Made<VNode<P>>
    ensures tree { IfOk result (λ tree. tree ≡ meaning.present P.carrying scope.0 props.now held) }
{
    match held {
        Some(text) => Ok(face(alloc, scope, props, text)?),
        None => Ok(VNode::placeholder(alloc)?),
    }
}
