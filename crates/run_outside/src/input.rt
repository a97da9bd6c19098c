//! Inputs, and the listeners that an event calls.
ghost use Rattle.std.specs.Prelude.{◌≡◌, ◌∷◌, ◌++◌, [], map, IfOk, OnOk};
ghost use Rattle.rt_model.specs.Heard.{heard};
ghost use Rattle.rt_model.specs.Replay.{post_message, post_messages, taken_in, then_looked, further};
ghost use Rattle.author_calls.specs.Answers.{event_of};
ghost use Rattle.run_reports.specs.Seen.{input_of, message_of, post_of};
ghost use Rattle.rt_model.specs.Queries.{node_place};
ghost use Rattle.run_state.specs.Drawn.{standing_scope};
ghost use Rattle.run_state.specs.Mirror.{state_of};
ghost use Rattle.run_shown.specs.Hearing.{listener_in, listeners_of};
ghost use Rattle.run_outside.specs.Among.{are_live};
ghost use Rattle.run_outside.specs.Hearings.{has_waiting, listeners_in, live_listeners, silent, hearing_at, TakesWaiting};

use crate::awaiting::Awaiting;
use crate::hearing::Hearing;
use author_calls::App;
use rt_inbox::{Msg, Post};
use rt_values::{ElementId, List, OutOfMemory, Text};
use run_reports::Input;
use run_shown::{Listener, Look, heard};
use run_state::{Posted, State};
use std::alloc::Global;
use std::mem;
use tree_nodes::{Event, Parts};

/// Takes an input in. What is heard then.
pub fn take_in<A: App>(
    alloc: Global,
    state: &mut State<A>,
    hearing: Option<Hearing<A>>,
    input: Input<A>,
) -> Result<Option<Hearing<A>>, OutOfMemory>
    ensures taken { IfOk result (λ next. (g : _) (m : _) →
        taken_in (hearing_at m (state_of g state.old) (silent hearing)) (input_of input)
        ≡ hearing_at m (state_of g state.new) next) }
{
    match input {
        Input::Event {
            name,
            payload,
            element,
            bubbles,
        } => {
            let listeners = hearers(alloc, state, &name, element, bubbles)?;
            Ok(Some(Hearing {
                event: Event::new(payload, bubbles),
                bubbles,
                listeners,
            }))
        }
        Input::Wake(task) => {
            state.post(Posted::Woken(task.0))?;
            Ok(silent(alloc, hearing))
        }
        Input::Write { cell, value } => {
            state.write_cell(cell, value)?;
            Ok(silent(alloc, hearing))
        }
        Input::Mark(scope) => {
            state.post(Posted::Mark(scope.0))?;
            Ok(silent(alloc, hearing))
        }
        Input::Drain(messages) => {
            post_messages(state, messages.as_slice())?;
            Ok(silent(alloc, hearing))
        }
    }
}

/// What is heard on, where no listener waits any more.
fn silent<A: App>(alloc: Global, hearing: Option<Hearing<A>>) -> Option<Hearing<A>>
    ensures { result ≡ silent hearing }
{
    match hearing {
        Some(hearing) => Some(Hearing {
            event: hearing.event,
            bubbles: hearing.bubbles,
            listeners: Awaiting::new(alloc),
        }),
        None => None,
    }
}

/// The listeners of an event, in order.
pub fn hearers<P: Parts>(
    alloc: Global,
    state: &State<P>,
    name: &Text,
    element: ElementId,
    bubbles: bool,
) -> Result<Awaiting<Listener<P>>, OutOfMemory>
    ensures { IfOk result (λ listeners. (g : _) → listeners_of listeners
        ≡ heard (state_of g state.now) name.now element.0 bubbles) }
{
    let look = Look::now(&state.rows);
    let holder = holder_of(state, element.0);
    let listeners = heard(alloc, &look, holder, name, element.0, bubbles)?;
    Awaiting::of(alloc, listeners)
}

/// The scope in which a node stands, hidden ones included.
fn holder_of<P: Parts>(state: &State<P>, number: u64) -> Option<u64>
    ensures { (g : _) → result ≡ standing_scope (node_place (state_of g state.now) number) }
{
    match state.place_of(number) {
        Some(place) => Some(place.scope.0),
        None => None,
    }
}

/// Does what messages ask for, in order.
pub fn post_messages<P: Parts>(state: &mut State<P>, messages: &[Msg]) -> Result<(), OutOfMemory>
    ensures { OnOk result ((g : _) → state_of g state.new
        ≡ post_messages (state_of g state.old) (map message_of messages.now)) }
{
    for message in messages {
        post_message(state, message)?;
    }
    Ok(())
}

/// Does what a message asks for.
fn post_message<P: Parts>(state: &mut State<P>, message: &Msg) -> Result<(), OutOfMemory>
    ensures { OnOk result ((g : _) → state_of g state.new
        ≡ post_message (state_of g state.old) (post_of message.now.what)) }
{
    match message.what {
        Post::Mark(scope) => state.post(Posted::Mark(scope.0)),
        Post::Wake(task) => state.post(Posted::Woken(task.0)),
        Post::AllDirty => state.post_all(),
    }
}

/// Whether a listener waits whose scope is live.
fn waits<P: Parts>(state: &State<P>, listeners: &Awaiting<Listener<P>>) -> bool
    ensures { (g : _) → result ≡ has_waiting (state_of g state.now) (listeners_of listeners.now) }
{
    has_live(state, listeners.last_first())
}

/// Whether one of these is of a live scope.
fn has_live<P: Parts>(state: &State<P>, listeners: &[Listener<P>]) -> bool
    ensures { (g : _) → result ≡ has_waiting (state_of g state.now) (listeners_of listeners.now) }
{
    for listener in listeners {
        if state.is_live(listener.origin) {
            return true;
        }
    }
    false
}

/// The listeners whose scopes are live, in order.
fn live_ones<P: Parts>(
    alloc: Global,
    state: &State<P>,
    listeners: List<Listener<P>>,
) -> Result<List<Listener<P>>, OutOfMemory>
    ensures { IfOk result (λ live. (g : _) → listeners_of live
        ≡ live_listeners (state_of g state.now) (listeners_of listeners)) }
{
    let mut live = List::new(alloc);
    for listener in listeners.into_vec() {
        add_live(state, listener, &mut live)?;
    }
    Ok(live)
}

/// Puts a listener at the end, where its scope is live.
fn add_live<P: Parts>(
    state: &State<P>,
    listener: Listener<P>,
    live: &mut List<Listener<P>>,
) -> Result<(), OutOfMemory>
    ensures { OnOk result ((g : _) → listeners_of live.new
        ≡ listeners_of live.old ++ live_listeners (state_of g state.now) (listener_in listener ∷ [])) }
{
    if state.is_live(listener.origin) {
        live.push(listener)
    } else {
        Ok(())
    }
}

/// Whether all these scopes are live.
fn are_live<P: Parts>(state: &State<P>, scopes: &[u64]) -> bool
    ensures { (g : _) → result ≡ are_live (state_of g state.now) scopes.now }
{
    for index in 0..scopes.len() {
        if !state.is_live(scopes[index]) {
            return false;
        }
    }
    true
}

/// Leaves the listeners whose scopes are live. Where all are it asks once for each scope.
fn leave_live<P: Parts>(
    alloc: Global,
    state: &State<P>,
    listeners: &mut Awaiting<Listener<P>>,
) -> Result<(), OutOfMemory>
    ensures { OnOk result ((g : _) → listeners_of listeners.new
        ≡ live_listeners (state_of g state.now) (listeners_of listeners.old)) }
{
    if are_live(state, listeners.scopes()) {
        return Ok(());
    }
    let all = mem::replace(listeners, Awaiting::new(alloc));
    let live = live_ones(alloc, state, all.into_list())?;
    *listeners = Awaiting::of(alloc, live)?;
    Ok(())
}

/// Takes the first listener that waits, and leaves the others that wait. Where none waits all stay.
pub fn first_waiting<P: Parts>(
    alloc: Global,
    state: &State<P>,
    listeners: &mut Awaiting<Listener<P>>,
) -> Result<Option<Listener<P>>, OutOfMemory>
    ensures { IfOk result (λ first. (g : _) →
        TakesWaiting (state_of g state.now) first listeners.old listeners.new) }
{
    if !waits(state, listeners) {
        return Ok(None);
    }
    leave_live(alloc, state, listeners)?;
    Ok(listeners.take_first())
}

/// A look, unless a listener waits.
pub fn look_where_quiet<A: App>(
    alloc: Global,
    state: &mut State<A>,
    hearing: &Option<Hearing<A>>,
) -> Result<(), OutOfMemory>
    ensures { OnOk result ((g : _) (m : _) →
        then_looked (hearing_at m (state_of g state.old) hearing.now)
        ≡ hearing_at m (state_of g state.new) hearing.now) }
{
    if any_waits(state, hearing) {
        return Ok(());
    }
    state.look(alloc)
}

/// Whether a listener waits of an event on its way.
fn any_waits<A: App>(state: &State<A>, hearing: &Option<Hearing<A>>) -> bool
    ensures { (g : _) → result ≡ has_waiting (state_of g state.now) (listeners_in hearing.now) }
{
    match hearing {
        Some(hearing) => waits(state, &hearing.listeners),
        None => false,
    }
}

/// The listeners that wait further, after one left the event like this.
pub fn further<P: Parts>(
    alloc: Global,
    bubbles: bool,
    event: &Event<P::Payload>,
    listeners: Awaiting<Listener<P>>,
) -> Awaiting<Listener<P>>
    ensures { (app : _) (m : _) → listeners_of result
        ≡ further app (record m { bubbles = bubbles }) (event_of event.now) (listeners_of listeners) }
{
    if bubbles && !event.propagates {
        Awaiting::new(alloc)
    } else {
        listeners
    }
}
