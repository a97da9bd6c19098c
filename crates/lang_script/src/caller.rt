//! Who runs statements, and what they have at hand.
ghost use Rattle.std.specs.Prelude.{◌≡◌, ◌++◌, [], ◌∷◌, ◌≤◌, false, take, length, pos, IfOk, OnOk, MatchOption};
ghost use Rattle.rt_language.specs.Expressions as meanings;
ghost use Rattle.rt_language.specs.Values.{NumberValue, CellValue, TaskValue};
ghost use Rattle.lang_script.specs.Held.{IsNoCell, IsNoTask, IsNoScope};
ghost use Rattle.lang_script.specs.Seen.{caller_of};

use crate::script::Script;
use lang_views::{Content, Value};
use rt_values::{List, OutOfMemory, Part, ScopeId, Task};
use std::alloc::Global;
use std::mem;
use tree_nodes::Element;

/// How many names most calls bind at most.
const NAMES: usize = 4;

/// Who evaluates.
#[derive(Drop)]
pub(crate) enum Caller<'a> {
    Body {
        /// How often the body has answered a tree.
        generation: u64,
    },
    Listener {
        /// What the event carries.
        payload: &'a Value,
    },
    /// An effect, a clean-up, a render hook or a task.
    Other,
}

/// A call at work: what its variables hold, and what its statements have asked for.
#[derive(Drop)]
pub(crate) struct Frame<'a> {
    pub by: Caller<'a>,
    pub held: List<Value>,
    /// The event goes no further.
    pub stopped: bool,
    /// The event's default is prevented.
    pub prevented: bool,
    /// The step isn't advanced by this poll.
    pub stays: bool,
}

/// The room for so many arguments, and for the names that most calls bind besides.
fn room_for(arguments: usize) -> usize {
    if arguments == 0 {
        0
    } else {
        arguments.saturating_add(NAMES)
    }
}

/// The values of arguments, with room for the names that are bound behind them.
fn held_of(alloc: Global, arguments: &[Value]) -> Result<List<Value>, OutOfMemory>
    ensures held { IfOk result (λ held. held ≡ arguments.now) }
{
    let mut held = List::with_room(alloc, room_for(arguments.len()))?;
    for value in arguments {
        held.push(value.copy(alloc)?)?;
    }
    Ok(held)
}

impl<'a> Frame<'a> {
    /// A frame at the start of a call with these arguments.
    pub fn new(alloc: Global, by: Caller<'a>, arguments: &[Value]) -> Result<Frame<'a>, OutOfMemory>
        ensures by { IfOk result (λ frame. frame.by ≡ by.entry) }
        ensures held { IfOk result (λ frame. frame.held ≡ arguments.now) }
        ensures stopped { IfOk result (λ frame. frame.stopped ≡ false) }
        ensures prevented { IfOk result (λ frame. frame.prevented ≡ false) }
        ensures stays { IfOk result (λ frame. frame.stays ≡ false) }
    {
        let held = held_of(alloc, arguments)?;
        Ok(Frame {
            by,
            held,
            stopped: false,
            prevented: false,
            stays: false,
        })
    }

    /// Binds the next variable.
    pub fn bind(&mut self, value: Value) -> Result<(), OutOfMemory>
        ensures bound { OnOk result (self.new ≡ record self.old { held = self.old.held ++ value ∷ [] }) }
        ensures by { self.new.by ≡ self.old.by }
    {
        self.held.push(value)
    }

    /// Unbinds all variables but the first ones.
    pub fn keep(&mut self, alloc: Global, count: usize)
        ensures kept { self.new ≡ record self.old { held = take count self.old.held } }
    {
        let mut held = mem::replace(&mut self.held, List::new(alloc)).into_vec();
        held.truncate(count);
        self.held = List::from_vec(held);
    }
}

/// How statements end.
#[derive(Drop)]
pub(crate) enum Outcome {
    /// The next statement follows.
    WentOn,
    /// A body ended early with this answer.
    Ended(Element<Script>),
    /// A call was refused.
    Refused,
}

/// The value of a variable, none where none is bound at that place.
#[tactic(auto, using(crate::proofs::Places::placed))]
pub(crate) fn held_by(alloc: Global, held: &[Value], variable: u64) -> Result<Value, OutOfMemory>
    ensures value { IfOk result (λ value. value ≡ meanings.held_by held.now variable) }
{
    match held.get(variable as usize) {
        Some(value) => value.copy(alloc),
        None => Ok(Value::none()),
    }
}

/// The cell that a variable holds.
#[tactic(auto, using(crate::proofs::Places::placed))]
pub(crate) fn held_cell(held: &[Value], variable: u64) -> Option<u64>
    ensures cell { MatchOption result (IsNoCell (meanings.held_by held.now variable))
        (λ cell. meanings.held_by held.now variable ≡ CellValue cell) }
{
    match held.get(variable as usize) {
        Some(value) => match value.content() {
            Content::Cell(cell) => Some(*cell),
            Content::None => None,
            Content::Number(_) => None,
            Content::Text(_) => None,
            Content::Task(_) => None,
        },
        None => None,
    }
}

/// The task that a variable holds.
#[tactic(auto, using(crate::proofs::Places::placed))]
pub(crate) fn held_task(held: &[Value], variable: u64) -> Option<Task>
    ensures task { MatchOption result (IsNoTask (meanings.held_by held.now variable))
        (λ task. meanings.held_by held.now variable ≡ TaskValue task.0) }
{
    match held.get(variable as usize) {
        Some(value) => match value.content() {
            Content::Task(task) => Some(Task(*task)),
            Content::None => None,
            Content::Number(_) => None,
            Content::Text(_) => None,
            Content::Cell(_) => None,
        },
        None => None,
    }
}

/// The scope with the number of a value, where that isn't below 0.
pub(crate) fn scope_in(value: &Value) -> Option<ScopeId>
    ensures { MatchOption result (IsNoScope value.now) (λ scope. value.now ≡ NumberValue (pos scope.0)) }
{
    match value.content() {
        Content::Number(number) => {
            if *number < 0 {
                return None;
            }
            Some(ScopeId(*number as u64))
        }
        Content::None => None,
        Content::Text(_) => None,
        Content::Cell(_) => None,
        Content::Task(_) => None,
    }
}
