//! The worked cases, the ends of the counters, and a million readers.

use super::steps::{BODY, FIRST, SCOPE, Step, are_answered, is_answered, is_seen};
use rt_cells::{
    Cells, ReactiveContext, Reader, ScopeId, Serials, Source, Subscribers, Target, Task,
};
use std::alloc::Global;

const ONE: Source = Source::Cell(1);

const TWO: Source = Source::Cell(2);

const THREE: Source = Source::Cell(3);

const TASK: Target = Target::Task(Task(5));

const READERS: &[Step] = &[
    Step::Makes(3, 10, 1),
    Step::Makes(3, 20, 2),
    Step::Sets(&[TWO, ONE, TWO]),
    Step::Begins,
    Step::Subscribes(2),
    Step::Reads(&[ONE, TWO]),
    Step::ReadBy(2, &[BODY, Reader::Context(1)]),
    Step::Clears,
    Step::ReadBy(2, &[BODY]),
    Step::Tells(Target::Scope(SCOPE)),
    Step::Sets(&[TWO]),
    Step::ReadBy(1, &[]),
    Step::Makes(7, 30, 3),
    Step::Adds(3),
    Step::Adds(3),
    Step::Reads(&[TWO, THREE]),
];

const DROPPED_READER: &[Step] = &[
    Step::Makes(3, 10, 1),
    Step::Makes(3, 20, 2),
    Step::Sets(&[ONE, TWO]),
    Step::Begins,
    Step::Subscribes(2),
    Step::DropsBody,
    Step::Reads(&[]),
    Step::ReadBy(1, &[]),
    Step::ReadBy(2, &[Reader::Context(1)]),
];

const CELL_NOT_THERE: &[Step] = &[
    Step::Makes(3, 10, 1),
    Step::Writes(1, 11, true),
    Step::Writes(9, 12, false),
    Step::Holds(1, Some(11)),
    Step::Holds(9, None),
    Step::Drops(1, Some(11)),
    Step::Drops(1, None),
];

const OWNED: &[Step] = &[
    Step::Makes(3, 10, 1),
    Step::Makes(3, 20, 2),
    Step::Makes(7, 30, 3),
    Step::Owns(7, &[3]),
    Step::Owns(3, &[1, 2]),
];

const CONTEXT_GONE: &[Step] = &[
    Step::Makes(3, 10, 1),
    Step::Sets(&[ONE]),
    Step::Begins,
    Step::Subscribes(1),
    Step::DropsContexts,
    Step::IsGone,
    Step::Subscribes(1),
    Step::Clears,
    Step::IsGone,
    Step::ReadBy(1, &[BODY]),
];

const TARGET: &[Step] = &[Step::BeginsFor(TASK), Step::Tells(TASK)];

const ENTERED: &[Step] = &[
    Step::Makes(3, 10, 1),
    Step::Enters(4, true),
    Step::Enters(4, false),
    Step::Enters(2, false),
    Step::BeginsAt(5),
    Step::Enters(u64::MAX, false),
    Step::DropsContexts,
    Step::Enters(5, false),
    Step::Enters(7, true),
    Step::ReadBy(1, &[]),
];

const LOOKED_UP: &[Step] = &[
    Step::LooksUp(9, 0, 4),
    Step::LookedUp(4, &[Source::Context(0, ScopeId(4))]),
    Step::LookedUp(3, &[]),
];

const LAST_NUMBERS: &[Step] = &[
    Step::Makes(3, 10, u64::MAX - 1),
    Step::BeginsAt(u64::MAX - 1),
    Step::IsSpent,
];

/// What new cells answer, by the numbers at which their counters stand.
const CASES: [(u64, &[Step]); 9] = [
    (1, READERS),
    (1, DROPPED_READER),
    (1, CELL_NOT_THERE),
    (1, OWNED),
    (1, CONTEXT_GONE),
    (1, TARGET),
    (1, ENTERED),
    (1, LOOKED_UP),
    (u64::MAX - 1, LAST_NUMBERS),
];

#[test]
fn calls_of_cells_are_answered(rt: HostRuntime) {
    for (place, (first, steps)) in CASES.iter().enumerate() {
        assert!(rt; are_answered(rt.alloc(), *first, *steps), "case {place}");
    }
}

#[test]
fn serials_end_before_the_greatest_number(rt: HostRuntime) {
    let mut serials = Serials::starting(u64::MAX - 1);
    let drawn = [serials.next(), serials.next(), serials.next()];
    assert!(rt; drawn == [Some(u64::MAX - 1), None, None]);
}

// What a set of subscribers holds once four are added, of whom one is there already, and the
// third is removed.
fn has_first_two(mut subscribers: Subscribers) -> bool {
    let are_added = subscribers.add(ReactiveContext(2)).is_ok()
        & subscribers.add(FIRST).is_ok()
        & subscribers.add(ReactiveContext(2)).is_ok()
        & subscribers.add(ReactiveContext(3)).is_ok();
    subscribers.remove(&ReactiveContext(3));
    are_added & (subscribers.visit() == [FIRST, ReactiveContext(2)].as_slice())
}

#[test]
fn subscribers_are_a_set(rt: HostRuntime) {
    assert!(rt; has_first_two(Subscribers::new(rt.alloc())));
}

#[test]
fn a_noop_set_stays_empty(rt: HostRuntime) {
    let mut subscribers = Subscribers::new_noop(rt.alloc());
    let is_added = subscribers.add(FIRST).is_ok();
    assert!(rt; is_added & subscribers.visit().is_empty());
}

// How many cells there are.
const CELLS: u64 = 1_000_000;

// Cells from 1 on, each of a scope of the same number, which reads it.
fn are_made_and_read(alloc: Global, cells: &mut Cells<u64>) -> bool {
    let mut is_well = true;
    for number in 1..=CELLS {
        is_well = is_well & is_made_and_read(alloc, cells, number);
    }
    is_well
}

fn is_made_and_read(alloc: Global, cells: &mut Cells<u64>, number: u64) -> bool {
    let reader = Reader::Scope(ScopeId(number));
    is_answered(alloc, cells, Step::Makes(number, number, number))
        & cells
            .set_reads(alloc, reader, &[Source::Cell(number)])
            .is_ok()
}

fn are_found(alloc: Global, cells: &Cells<u64>) -> bool {
    let mut is_well = true;
    for number in 1..=CELLS {
        let readers = [Reader::Scope(ScopeId(number))];
        is_well = is_well & is_seen(alloc, cells, Step::ReadBy(number, &readers));
    }
    is_well
}

// A table that goes through all that it holds at each call doesn't come to an end here.
#[test]
fn a_million_readers_are_found_one_by_one(rt: HostRuntime) {
    let mut cells = Cells::new(rt.alloc(), 1, 1);
    let is_well = are_made_and_read(rt.alloc(), &mut cells) & are_found(rt.alloc(), &cells);
    assert!(rt; is_well);
}
