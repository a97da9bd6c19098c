//! Tabs: functions of nodes, which need nothing of an application.
ghost use Rattle.std.specs.Prelude.{◌≡◌, IfOk};
ghost use Rattle.rt_author.specs.Had.{Had};
ghost use Rattle.examples_library.specs.Meaning as meaning;

use crate::parts::Made;
use rt_author::{
    List, Parts, Piece, ScopeId, Text, VNode, element, empty_attrs, listens, row, several, shown,
    view,
};
use std::alloc::Global;

/// A tab: its name where it is chosen, else a button whose clicks a handler hears.
pub fn tab<P: Parts>(
    alloc: Global,
    name: Text,
    chosen: bool,
    scope: ScopeId,
    choose: P::Handler,
) -> Made<VNode<P>>
    ensures tree { IfOk result (λ tree. tree ≡ meaning.tab name chosen scope.0 choose) }
{
    if chosen {
        let plain = element(alloc, "b", empty_attrs(alloc), shown(alloc, name));
        view(alloc, plain)
    } else {
        let chooses = listens(alloc, "onclick", scope, choose);
        view(alloc, element(alloc, "button", chooses, shown(alloc, name)))
    }
}

/// Tabs in a bar, and below them what the chosen one shows.
pub fn tabs<P: Parts>(alloc: Global, bar: List<VNode<P>>, below: Made<Piece<P>>) -> Made<VNode<P>>
    ensures tree { IfOk result (λ tree. Had below (λ below. tree ≡ meaning.tabs bar below)) }
{
    let names = element(alloc, "nav", empty_attrs(alloc), several(alloc, bar));
    Ok(view(alloc, row![names, below])?)
}
