//! A card: a title, and below it the components that stand in it.
ghost use Rattle.std.specs.Prelude.{◌≡◌, IfOk};
ghost use Rattle.examples_library.specs.Meaning as meaning;

use crate::parts::Made;
use rt_author::{
    Bodied, Given, Inside, List, Paged, Part, Parts, Text, VNode, child, element, empty_attrs, row,
    several, shown, view,
};
use std::alloc::Global;

/// An application whose props have children.
pub trait HasChildren: Parts {
    ghost use Rattle.rt_author.specs.Given.{Given};

    /// What a component is given of its own.
    type Own: Part;

    /// The props of a component, of what it is given.
    ghost giving: { Given Self.Component Self.Own → Self.Props };

    /// The props of a component, of what it is given.
    fn given_props(given: Given<Self::Component, Self::Own>) -> Self::Props
        ensures props { result ≡ giving given };
}

impl<B: HasChildren> HasChildren for Bodied<B> {
    type Own = B::Own;

    ghost giving = { B.giving };

    fn given_props(given: Given<B::Component, B::Own>) -> B::Props
        ensures props { result ≡ B.giving given }
    {
        B::given_props(given)
    }
}

impl<S: HasChildren> HasChildren for Paged<S> {
    type Own = S::Own;

    ghost giving = { S.giving };

    fn given_props(given: Given<S::Component, S::Own>) -> S::Props
        ensures props { result ≡ S.giving given }
    {
        S::given_props(given)
    }
}

/// A component that stands in a card, as a tree.
fn inner<P: HasChildren>(alloc: Global, item: &Inside<P::Component, P::Own>) -> Made<VNode<P>>
    ensures tree { IfOk result (λ tree. tree ≡ meaning.inner P.giving item.now) }
{
    let component = item.component.copy(alloc)?;
    let given = item.given.copy(alloc)?;
    view(alloc, child(alloc, component, P::given_props(given)))
}

/// All that stand in it, in order.
fn all_inner<P: HasChildren>(
    alloc: Global,
    inside: &[Inside<P::Component, P::Own>],
) -> Made<List<VNode<P>>>
    ensures trees { IfOk result (λ trees. trees ≡ meaning.all_inner P.giving inside.now) }
{
    let mut trees = List::new(alloc);
    for item in inside {
        trees.push(inner::<P>(alloc, item)?)?;
    }
    Ok(trees)
}

/// The tree of a card.
pub fn card<P: HasChildren>(
    alloc: Global,
    title: &Text,
    inside: &[Inside<P::Component, P::Own>],
) -> Made<VNode<P>>
    ensures tree { IfOk result (λ tree. tree ≡ meaning.card P.giving title.now inside.now) }
{
    let title = title.copy(alloc)?;
    let trees = all_inner::<P>(alloc, inside)?;
    let heading = element(alloc, "h2", empty_attrs(alloc), shown(alloc, title));
    let kids = row![heading, several(alloc, trees)];
    Ok(view(alloc, element(alloc, "section", empty_attrs(alloc), kids))?)
}
