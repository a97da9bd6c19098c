//! A field in an application of bodies: its body, and its listener.
ghost use Rattle.std.specs.Prelude.{◌≡◌, IfOk, OnOk};
ghost use Rattle.rt_author.specs.Words.{Comes, element_of, event_of};
ghost use Rattle.examples_library.specs.Meaning as meaning;

use crate::faces::present;
use crate::parts::{FieldProps, Library, Made, Typed};
use rt_author::{Carries, Cx, Element, Event, read_held, write_held};
use std::alloc::Global;

/// The body of a field.
#[tactic(auto, using(rt_author::proofs::Rules::hooking))]
pub fn field<P: Carries<Library>, K>(
    alloc: Global,
    props: &FieldProps,
    cx: &mut Cx<'_, P, K>,
) -> Made<Element<P>>
    ensures came { IfOk result (λ answer. Comes cx.old cx.new
        (meaning.field P P.carrying props.now) (element_of answer)) }
    ensures fault { OnOk result (cx.new.fault ≡ cx.old.fault) }
    ensures world { cx.new.world ≡ cx.old.world }
{
    let held = read_held::<Library, P, K>(alloc, cx, props.cell)?;
    let scope = cx.current_scope_id();
    Ok(Ok(present(alloc, scope, props, held)?))
}

/// The listener of a field: what is typed is written to its cell. The event goes on.
#[tactic(auto, using(rt_author::proofs::Rules::hooking))]
pub fn typed_in<P: Carries<Library>, K>(
    alloc: Global,
    typed: &Typed,
    event: &Event<P::Payload>,
    cx: &mut Cx<'_, P, K>,
) -> Made<()>
    ensures came { OnOk result (Comes cx.old cx.new
        (meaning.typed_in P.carrying typed.now (event_of event.now)) (event_of event.now)) }
    ensures fault { OnOk result (cx.new.fault ≡ cx.old.fault) }
    ensures world { cx.new.world ≡ cx.old.world }
{
    match P::payload_in(alloc, &event.payload)? {
        Some(text) => write_held::<Library, P, K>(cx, typed.cell, text),
        None => Ok(()),
    }
}
