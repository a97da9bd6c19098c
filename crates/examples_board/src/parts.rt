//! What the board is made of: its components, what they are given, and the state of its task.
ghost use Rattle.std.specs.Prelude.{◌≡◌};
ghost use Rattle.examples_board.specs.Meaning as meaning;

use examples_library::Made;
use rt_author::{Given, Inside, Part, Shared};
use std::alloc::Global;

/// A component.
#[derive(Clone, Copy, PartialEq, Eq)]
pub enum Component {
    /// A card with the components that stand in it.
    Card,
    /// The news in an error boundary, the letter in a suspense boundary, and the log.
    Desk,
    /// The news. They are refused until someone has tried again.
    News,
    /// What shows of a refusal: its words, and a button that tries again.
    Refusal,
    /// The letter, for which it waits.
    Letter,
    /// What shows until the letter is there.
    Waiting,
}

#[rattlefmt::skip]
impl Part for Component {
    fn same(&self, other: &Component) -> bool { *self == *other }
    fn copy(&self, _alloc: Global) -> Made<Component> { Ok(*self) }
}

/// The cells of a desk.
#[derive(Clone, Copy, PartialEq, Eq)]
pub struct Cells {
    /// How often someone has tried again.
    pub tries: u64,
    /// How many entries the log has.
    pub log: u64,
}

#[rattlefmt::skip]
impl Part for Cells {
    fn same(&self, other: &Cells) -> bool { *self == *other }
    fn copy(&self, _alloc: Global) -> Made<Cells> { Ok(*self) }
}

/// The state of the task that fetches the letter. Each names the cell of the letter.
#[derive(Clone, Copy, PartialEq, Eq)]
pub enum Loading {
    /// It isn't asked for yet.
    Asks(u64),
    /// It comes with the next wake.
    Waits(u64),
}

/// What a component is given.
pub type Props = Given<Component, Cells>;

/// What a component without children is given.
pub fn given(own: Cells) -> Props
    ensures given { result ≡ meaning.given own }
{
    let inside = Shared::empty();
    Given { own, inside }
}

/// The cells of who has none.
pub(crate) const NONE: Cells = Cells { tries: 0, log: 0 };

/// What the card at the top is given: a desk stands in it.
pub fn standing(alloc: Global) -> Made<Props> {
    let component = Component::Desk;
    let given = given(NONE);
    let inside = Shared::one(alloc, Inside { component, given })?;
    Ok(Given { own: NONE, inside })
}
