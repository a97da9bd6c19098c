//! A field in an application of pages: it has no cells of its own.
ghost use Rattle.std.specs.Prelude.{◌≡◌, IfOk};
ghost use Rattle.std.specs.Option.{option_copied};
ghost use Rattle.examples_library.specs.Meaning as meaning;

use crate::faces::present;
use crate::parts::{FieldProps, Library, Made, Typed};
use rt_author::{Carries, List, Part, ScopeId, VNode, one};
use std::alloc::Global;

/// The cells that a field reads.
pub fn field_reads(alloc: Global, props: &FieldProps) -> Made<List<u64>>
    ensures reads { IfOk result (λ cells. cells ≡ meaning.field_reads props.now) }
{
    one(alloc, props.cell)
}

/// What it shows, of its scope and of the value that it read.
pub fn field_shows<P: Carries<Library>>(
    alloc: Global,
    scope: ScopeId,
    props: &FieldProps,
    value: Option<&Option<P::Value>>,
) -> Made<VNode<P>>
    ensures tree { IfOk result (λ tree. tree
        ≡ meaning.field_shows P.carrying scope.0 props.now (option_copied value.entry)) }
{
    match value {
        Some(Some(value)) => Ok(present(alloc, scope, props, P::held_in(value.copy(alloc)?))?),
        _ => Ok(VNode::placeholder(alloc)?),
    }
}

/// What its listener writes, of what the event carries.
pub fn typed_writes<P: Carries<Library>>(
    alloc: Global,
    typed: &Typed,
    payload: &P::Payload,
) -> Made<List<(u64, P::Value)>>
    ensures writes { IfOk result (λ writes. writes
        ≡ meaning.typed_writes P.carrying typed.now (P.carrying.payload payload.now)) }
{
    match P::payload_in(alloc, payload)? {
        Some(text) => Ok(one(alloc, (typed.cell, P::value_of(text)))?),
        None => Ok(List::new(alloc)),
    }
}
