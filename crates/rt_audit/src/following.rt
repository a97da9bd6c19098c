//! The runtime beside a list, turn by turn.
ghost use Rattle.std.specs.Prelude.{◌≡◌, map, take, IfOk};
ghost use Rattle.run_reports.specs.Seen.{entry_of, limits_of};
ghost use Rattle.run_machine.specs.Stands.{StandsAt, without_count};
ghost use Rattle.rt_audit.specs.Fronts.{IsFront};
ghost use Rattle.rt_audit.specs.Finding.{boundless, ComesTo, IsBehind, Says, TurnsTo, Keeps, at_rest};
ghost use Rattle.rt_audit.specs.Judging.{FindsIn, JudgesOf};

use crate::comparing::{number_behind, parted};
use author_calls::{App, Calls};
use rt_edits::NoOpMutations;
use rt_values::OutOfMemory;
use run_machine::Machine;
use run_outside::Ended;
use run_reports::{Entry, Limits};
use run_state::Stop;

/// How far a run goes: no count of units and no height ends it.
const BOUNDLESS: Limits = Limits {
    units: u64::MAX,
    height: u32::MAX,
    drain: u64::MAX,
};

/// What a turn comes to.
#[derive(Clone, Copy)]
pub(crate) enum Turn {
    /// A move was made.
    Moved,
    /// Nothing is left to do.
    Rested,
    /// A fault ended the run.
    Faulted,
}

/// What is found of a list.
#[derive(Clone, Copy)]
pub(crate) enum Found {
    /// So many entries were noted, and are those of the list; there is more to do.
    SoFar(usize),
    /// The list is good.
    Good,
    /// The list isn't good from the entry of this number on.
    Bad(u64),
}

/// What a turn comes to, by what the machine answers. At the limits, which no run reaches, memory
/// is wanting.
fn come_to(turned: Result<Option<u64>, Ended>) -> Result<Turn, OutOfMemory>
    ensures comes { IfOk result (ComesTo turned) }
{
    match turned {
        Ok(Some(_)) => Ok(Turn::Moved),
        Ok(None) => Ok(Turn::Rested),
        Err(Ended::Run(Stop::Fault(_))) => Ok(Turn::Faulted),
        Err(_) => Err(OutOfMemory),
    }
}

/// One turn, whose edits nobody wants.
fn turn_once<A: App>(
    machine: &mut Machine<A>,
    app: &A,
    calls: &mut Calls,
) -> Result<Turn, OutOfMemory>
    ensures turns { (r : _) (edits : _) →
        StandsAt (A.meaning app.now) (limits_of boundless) (without_count r) edits machine.old →
        IfOk result (λ turn. TurnsTo (A.meaning app.now) (limits_of boundless) (without_count r)
        turn machine.new) }
{
    let mut sink = NoOpMutations;
    let turned = machine.turn(app, calls, BOUNDLESS, &mut sink);
    come_to(turned)
}

/// What is found of a list where nothing is left to do and so many entries were noted, all of them
/// those of the list; `number` is that of the next one.
fn found_at_rest(good: usize, all: usize, number: u64) -> Found
    ensures { result ≡ at_rest good all number }
{
    if good == all {
        Found::Good
    } else {
        Found::Bad(number)
    }
}

/// A list that isn't good behind so many entries that come after the opening one.
fn bad_behind(good: usize) -> Result<Found, OutOfMemory>
    ensures bad { IfOk result (IsBehind good) }
{
    let number = number_behind(good)?;
    Ok(Found::Bad(number))
}

/// What is found of a list where all entries that were noted are those of the list.
fn found_at_end(turn: Turn, noted: &[Entry], list: &[Entry]) -> Result<Found, OutOfMemory>
    ensures says { IsFront (map entry_of noted.now) (map entry_of list.now) →
        IfOk result (Says turn (map entry_of noted.now) (map entry_of list.now)) }
{
    let good = noted.len();
    let all = list.len();
    let number = number_behind(good)?;
    match turn {
        Turn::Moved => Ok(Found::SoFar(good)),
        Turn::Rested => Ok(found_at_rest(good, all, number)),
        Turn::Faulted => Ok(Found::Bad(number)),
    }
}

/// What is found of a list after a turn; so many entries were compared before it.
fn found_after(
    turn: Turn,
    noted: &[Entry],
    list: &[Entry],
    seen: usize,
) -> Result<Found, OutOfMemory>
    ensures says { IsFront (take seen (map entry_of noted.now)) (map entry_of list.now) →
        IfOk result (Says turn (map entry_of noted.now) (map entry_of list.now)) }
{
    match parted(noted, list, seen) {
        Some(at) => bad_behind(at),
        None => found_at_end(turn, noted, list),
    }
}

/// One turn beside a list.
fn follow_once<A: App>(
    machine: &mut Machine<A>,
    app: &A,
    calls: &mut Calls,
    list: &[Entry],
    seen: usize,
) -> Result<Found, OutOfMemory>
    ensures finds { (r : _) →
        Keeps (A.meaning app.now) (limits_of boundless) (without_count r) (map entry_of list.now) seen
        machine.old →
        IfOk result (FindsIn (A.meaning app.now) (limits_of boundless) (without_count r)
        (map entry_of list.now) machine.new) }
{
    let turn = turn_once(machine, app, calls)?;
    found_after(turn, machine.course.entries.as_slice(), list, seen)
}

/// The run beside a list, up to where the list is good or stops. The number of the entry from which
/// on it isn't good.
pub(crate) fn follow<A: App>(
    machine: &mut Machine<A>,
    app: &A,
    calls: &mut Calls,
    list: &[Entry],
) -> Result<Option<u64>, OutOfMemory>
    ensures judges { (r : _) →
        Keeps (A.meaning app.now) (limits_of boundless) (without_count r) (map entry_of list.now) 0
        machine.old →
        IfOk result (JudgesOf (A.meaning app.now) (limits_of boundless) (without_count r)
        (map entry_of list.now) machine.new) }
{
    let mut seen = 0;
    for _turn in 0..u64::MAX {
        let found = follow_once(machine, app, calls, list, seen)?;
        match found {
            Found::SoFar(noted) => seen = noted,
            Found::Bad(entry) => return Ok(Some(entry)),
            Found::Good => {
                // The entries are compared: the next report begins without any.
                machine.report(Entry::Build, 0)?;
                return Ok(None);
            }
        }
    }
    Err(OutOfMemory)
}
