//! The application.
#![tactic(auto, using(rt_author::proofs::Rules::hooking))]

ghost use Rattle.std.specs.Prelude.{◌≡◌, IfOk};
ghost use Rattle.examples_board.specs.Meaning as meaning;

use crate::bodies::{Answer, Body, Call, Step, desk, fetch, letter, news, raise, refusal};
use crate::faces::{Tree, line};
use crate::parts::{Cells, Component, Loading, NONE, Props, given};
use examples_library::{HasChildren, Made, card};
use rt_author::{Bodied, Bodies, Event, KeepsCells, NoData, Parts, Text, or_out_of_memory};
use std::alloc::Global;

/// What the application is made of.
#[derive(Drop)]
pub struct Board;

/// The application.
pub type Boarded = Bodied<Board>;

/// The card at the top.
fn top(alloc: Global, props: &Props) -> Tree
    ensures tree { IfOk result (λ tree. tree ≡ meaning.top props.now) }
{
    let title = Text::from_str(alloc, "Board")?;
    card::<Boarded>(alloc, &title, props.inside.as_slice())
}

impl Parts for Board {
    type Component = Component;

    type Props = Props;

    /// A count, or the number of the cell that keeps it.
    type Value = u64;

    /// What the button that tries again is told.
    type Handler = Cells;

    type TaskState = Loading;

    /// The cell that is raised.
    type Effect = u64;

    type Payload = NoData;
}

#[rattlefmt::skip]
impl KeepsCells for Board {
    ghost keeping = { meaning.keeping };

    fn cell_kind() -> u32 { 0 }
    fn keep_cell(_alloc: Global, cell: u64) -> Made<u64> { Ok(cell) }
    fn cell_in(value: &u64) -> Option<u64> { Some(*value) }
}

#[rattlefmt::skip]
impl HasChildren for Board {
    type Own = Cells;

    ghost giving = { λ given. given };

    fn given_props(given: Props) -> Props
        ensures props { result ≡ given }
    { given }
}

#[rattlefmt::skip]
impl Bodies for Board {
    ghost programs = { λ _. meaning.programs };

    ghost props_of_none = { λ _. meaning.given meaning.none };

    ghost decide = { λ _. meaning.decides };

    fn root(&self, _alloc: Global) -> Made<Component> { Ok(Component::Card) }
    fn empty_props(&self, _alloc: Global) -> Made<Props> { Ok(given(NONE)) }

    fn body(&self, alloc: Global, which: &Component, props: &Props, cx: &mut Body<'_>) -> Answer {
        match which {
            Component::Card => Ok(Ok(top(alloc, props)?)),
            Component::Desk => desk(alloc, cx),
            Component::News => news(alloc, props.own, cx),
            Component::Refusal => refusal(alloc, props.own, cx),
            Component::Letter => letter(alloc, cx),
            Component::Waiting => Ok(Ok(line(alloc, "waiting")?)),
        }
    }

    fn step(&self, _alloc: Global, state: Loading, cx: &mut Call<'_>) -> Step { fetch(state, cx) }

    fn effect(&self, alloc: Global, effect: &u64, cx: &mut Call<'_>) -> Made<()> {
        raise(alloc, *effect, cx)
    }

    #[tactic(auto, using(rt_author::proofs::Rules::throwing))]
    fn hear(
        &self, alloc: Global, handler: &Cells, _event: &mut Event<NoData>, cx: &mut Call<'_>,
    ) -> Made<()> {
        raise(alloc, handler.tries, cx)?;
        or_out_of_memory(cx.clear_errors())
    }
}
