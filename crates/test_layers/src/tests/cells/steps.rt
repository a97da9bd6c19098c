//! Calls of the cells as data, each with the answer that is wanted of it.

use rt_cells::{
    Cells, CellsFault, List, OutOfMemory, ReactiveContext, Reader, Readers, ScopeId, Source, Target,
};
use std::alloc::Global;

pub(crate) const SCOPE: ScopeId = ScopeId(3);

/// What the body of the scope reads.
pub(crate) const BODY: Reader = Reader::Scope(SCOPE);

/// Whom a reactive context tells that is entered.
const TARGET: Target = Target::Scope(SCOPE);

/// The first reactive context.
pub(crate) const FIRST: ReactiveContext = ReactiveContext(1);

/// One call. Scopes and cells are named by their numbers; the body is that of scope 3, and the
/// reactive context is the first one, which is made for that scope.
#[derive(Clone, Copy)]
pub(crate) enum Step<'a> {
    /// A cell of a scope, with its value; its number is the last.
    Makes(u64, u64, u64),
    /// Of a cell, with the value that it is to have, and whether it is there.
    Writes(u64, u64, bool),
    Holds(u64, Option<u64>),
    /// Of a cell, with the value that comes out.
    Drops(u64, Option<u64>),
    /// The cells of a scope.
    Owns(u64, &'a [u64]),
    /// The body's sources, in place of the former ones.
    Sets(&'a [Source]),
    /// One more cell for the body to read.
    Adds(u64),
    /// The body reads nothing.
    DropsBody,
    /// What the body reads.
    Reads(&'a [Source]),
    /// Who reads a cell, in a list and met one by one.
    ReadBy(u64, &'a [Reader]),
    /// Some scope looks up what a scope provides of a kind.
    LooksUp(u64, u32, u64),
    /// What some reader looked up of a scope.
    LookedUp(u64, &'a [Source]),
    /// The first reactive context, which tells its scope.
    Begins,
    /// A reactive context of that number.
    BeginsAt(u64),
    /// The reactive context, which tells that target.
    BeginsFor(Target),
    /// A reactive context of that number, which was drawn elsewhere, and whether it is taken.
    Enters(u64, bool),
    Subscribes(u64),
    Clears,
    /// The reactive contexts of scope 3 go.
    DropsContexts,
    Tells(Target),
    IsGone,
    /// There is no number left for a cell, nor for a reactive context.
    IsSpent,
}

/// Whether new cells, whose counters stand at the number, answer each of these steps as it wants.
pub(crate) fn are_answered(alloc: Global, first: u64, steps: &[Step]) -> bool {
    let mut cells = Cells::new(alloc, first, first);
    answer(alloc, &mut cells, steps)
}

fn answer(alloc: Global, cells: &mut Cells<u64>, steps: &[Step]) -> bool {
    let mut is_well = true;
    for step in steps {
        is_well = is_well & is_answered(alloc, cells, *step);
    }
    is_well
}

/// Makes a call, and says whether it was answered as the step wants it.
pub(crate) fn is_answered(alloc: Global, cells: &mut Cells<u64>, step: Step) -> bool {
    match step {
        Step::Makes(owner, value, number) => cells.new_cell(ScopeId(owner), value) == Ok(number),
        Step::Writes(cell, value, live) => cells.write(cell, value) == live,
        Step::Drops(cell, want) => cells.drop_cell(cell) == want,
        Step::Sets(sources) => cells.set_reads(alloc, BODY, sources).is_ok(),
        Step::Adds(cell) => cells.add_read(alloc, BODY, Source::Cell(cell)).is_ok(),
        Step::DropsBody => {
            cells.drop_reader(BODY);
            true
        }
        Step::LooksUp(reader, kind, scope) => cells
            .add_read(
                alloc,
                Reader::Scope(ScopeId(reader)),
                Source::Context(kind, ScopeId(scope)),
            )
            .is_ok(),
        _ => is_context_answered(alloc, cells, step),
    }
}

fn is_context_answered(alloc: Global, cells: &mut Cells<u64>, step: Step) -> bool {
    match step {
        Step::Begins => ReactiveContext::new(cells, SCOPE) == Ok(FIRST),
        Step::BeginsAt(number) => {
            ReactiveContext::new(cells, SCOPE) == Ok(ReactiveContext(number))
        }
        Step::BeginsFor(target) => {
            ReactiveContext::new_with_callback(cells, SCOPE, target) == Ok(FIRST)
        }
        Step::Enters(number, taken) => {
            cells.enter_context(SCOPE, number, TARGET).is_ok() == taken
        }
        Step::Subscribes(cell) => FIRST.subscribe(alloc, cells, Source::Cell(cell)).is_ok(),
        Step::Clears => {
            FIRST.clear_subscribers(cells);
            true
        }
        Step::DropsContexts => {
            cells.drop_contexts(SCOPE);
            true
        }
        Step::IsSpent => {
            (cells.new_cell(SCOPE, 0) == Err(CellsFault::IdsExhausted))
                & (ReactiveContext::new(cells, SCOPE) == Err(CellsFault::IdsExhausted))
        }
        _ => is_seen(alloc, cells, step),
    }
}

/// Whether the cells answer what a step wants of them.
pub(crate) fn is_seen(alloc: Global, cells: &Cells<u64>, step: Step) -> bool {
    match step {
        Step::Holds(cell, want) => cells.get(cell).copied() == want,
        Step::Owns(scope, want) => is_list(cells.owned(alloc, ScopeId(scope)), want),
        Step::Reads(want) => cells.reads_of(BODY) == want,
        Step::ReadBy(cell, want) => {
            let source = Source::Cell(cell);
            is_list(cells.readers_of(alloc, source), want) & are_met(cells.readers(source), want)
        }
        Step::LookedUp(scope, want) => is_list(cells.context_sources(alloc, ScopeId(scope)), want),
        Step::Tells(target) => {
            (FIRST.origin_scope(cells) == Some(SCOPE)) & (FIRST.target(cells) == Some(target))
        }
        _ => FIRST.origin_scope(cells).is_none() & FIRST.target(cells).is_none(),
    }
}

// Whether just these readers are met.
fn are_met(mut readers: Readers, want: &[Reader]) -> bool {
    let mut are_those = true;
    for reader in want {
        are_those = are_those & (readers.next() == Some(*reader));
    }
    are_those & readers.next().is_none()
}

// Whether the answer is a list of just these items, and no want of memory.
fn is_list<T: PartialEq + Drop>(answer: Result<List<T>, OutOfMemory>, want: &[T]) -> bool {
    match answer {
        Ok(list) => list.as_slice() == want,
        Err(_) => false,
    }
}
