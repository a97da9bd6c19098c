//! Calls given as words. Each group answers whether it has the call.

use crate::asked::{put_held, put_places, put_query};
use crate::driven::Driven;
use crate::telling::{
    put_done, put_flag, put_poll, put_reported, put_resolved, put_task, put_value, put_vec,
};
use crate::words::{drained_of, number, small, value_of, values_from, word};
use lang_script::TaskState;
use lang_views::{Doing, Standing};
use rt_edits::{FailingMutations, Mutations};
use rt_values::{ElementId, List, OutOfMemory, ScopeId, Task, Text};
use std::alloc::{AllocError, Global};
use tree_nodes::Event;

/// Does a call, and writes what it answers.
pub(crate) fn call<D: Driven>(
    alloc: Global,
    out: &mut String,
    dom: &mut D,
    words: &[&str],
) -> Result<(), OutOfMemory> {
    let known = builds(alloc, out, dom, words)?
        || renders(alloc, out, dom, words)?
        || polls(alloc, out, dom, words)?
        || marks(alloc, out, dom, words)?
        || tells_task(alloc, out, dom, words)?
        || asks(alloc, out, dom, words)?
        || throws(alloc, out, dom, words)?;
    if !known {
        out.push_str("what?\n")?;
    }
    Ok(())
}

fn builds<D: Driven>(
    alloc: Global,
    out: &mut String,
    dom: &mut D,
    words: &[&str],
) -> Result<bool, OutOfMemory> {
    match word(words, 0) {
        "rebuild" => rebuild(alloc, out, dom)?,
        "inplace" => put_reported::<D>(alloc, out, &[], dom.rebuild_in_place())?,
        "tovec" => put_vec::<D>(alloc, out, dom.rebuild_to_vec())?,
        "failing" => fails(alloc, out, dom, words)?,
        _ => return Ok(false),
    }
    Ok(true)
}

/// The build, over a sink that keeps all.
fn rebuild<D: Driven>(alloc: Global, out: &mut String, dom: &mut D) -> Result<(), AllocError> {
    let mut sink = Mutations::default_list(alloc);
    let done = dom.rebuild(&mut sink);
    put_reported::<D>(alloc, out, sink.edits(), done)
}

/// Over a sink that fails at the edit of this number.
fn fails<D: Driven>(
    alloc: Global,
    out: &mut String,
    dom: &mut D,
    words: &[&str],
) -> Result<(), OutOfMemory> {
    let mut sink = FailingMutations::new(alloc, List::from_slice(alloc, &[number(words, 1)])?);
    let done = match word(words, 2) {
        "rebuild" => dom.rebuild(&mut sink),
        "render" => dom.render_immediate(&mut sink),
        _ => dom.settle(&mut sink),
    };
    Ok(put_reported::<D>(alloc, out, sink.edits(), done)?)
}

fn renders<D: Driven>(
    alloc: Global,
    out: &mut String,
    dom: &mut D,
    words: &[&str],
) -> Result<bool, OutOfMemory> {
    match word(words, 0) {
        "render" => render(alloc, out, dom)?,
        "rendervec" => put_vec::<D>(alloc, out, dom.render_immediate_to_vec())?,
        "events" => put_reported::<D>(alloc, out, &[], dom.process_events())?,
        "settle" => settle(alloc, out, dom)?,
        "susp" => render_suspended(alloc, out, dom)?,
        _ => return Ok(false),
    }
    Ok(true)
}

fn render<D: Driven>(alloc: Global, out: &mut String, dom: &mut D) -> Result<(), AllocError> {
    let mut sink = Mutations::default_list(alloc);
    let done = dom.render_immediate(&mut sink);
    put_reported::<D>(alloc, out, sink.edits(), done)
}

fn settle<D: Driven>(alloc: Global, out: &mut String, dom: &mut D) -> Result<(), AllocError> {
    let mut sink = Mutations::default_list(alloc);
    let done = dom.settle(&mut sink);
    put_reported::<D>(alloc, out, sink.edits(), done)
}

fn render_suspended<D: Driven>(
    alloc: Global,
    out: &mut String,
    dom: &mut D,
) -> Result<(), AllocError> {
    let mut sink = Mutations::default_list(alloc);
    let done = dom.render_suspense_immediate(&mut sink);
    put_resolved::<D>(alloc, out, sink.edits(), done)
}

fn polls<D: Driven>(
    alloc: Global,
    out: &mut String,
    dom: &mut D,
    words: &[&str],
) -> Result<bool, OutOfMemory> {
    match word(words, 0) {
        "pollwork" => {
            let drained = drained_of(alloc, words)?;
            put_poll::<D>(alloc, out, dom.poll_work(&drained))?
        }
        "pollsusp" => {
            let drained = drained_of(alloc, words)?;
            put_poll::<D>(alloc, out, dom.poll_suspense(&drained))?
        }
        "pollnow" => put_poll::<D>(alloc, out, dom.poll_now(Task(number(words, 1))))?,
        "event" => hears(alloc, out, dom, words)?,
        "query" => put_query(alloc, out, dom)?,
        "place" => put_places(alloc, out, dom, words)?,
        "holds" => put_held(alloc, out, dom, words)?,
        _ => return Ok(false),
    }
    Ok(true)
}

fn hears<D: Driven>(
    alloc: Global,
    out: &mut String,
    dom: &mut D,
    words: &[&str],
) -> Result<(), OutOfMemory> {
    let payload = value_of(alloc, word(words, 3))?;
    let event = Event {
        payload,
        propagates: number(words, 4) == 1,
        prevented: number(words, 5) == 1,
    };
    match dom.handle_event(word(words, 1), event, ElementId(number(words, 2))) {
        Ok(event) => {
            out.push_str(if event.propagates() {
                "event on"
            } else {
                "event stopped"
            })?;
            out.push_str(if event.default_action_enabled() {
                " enabled "
            } else {
                " prevented "
            })?;
            put_value(alloc, out, event.data())?;
            out.push_str("\n")?;
        }
        Err(refused) => D::put_refused(alloc, out, refused)?,
    }
    Ok(())
}

fn marks<D: Driven>(
    alloc: Global,
    out: &mut String,
    dom: &mut D,
    words: &[&str],
) -> Result<bool, OutOfMemory> {
    let n = number(words, 1);
    match word(words, 0) {
        "mark" => put_done::<D>(alloc, out, dom.mark_dirty(ScopeId(n)))?,
        "markall" => put_done::<D>(alloc, out, dom.mark_all_dirty())?,
        "markctx" => put_flag::<D>(alloc, out, dom.mark_context(n))?,
        "write" => {
            let value = value_of(alloc, word(words, 2))?;
            put_flag::<D>(alloc, out, dom.write(n, value))?
        }
        _ => return Ok(false),
    }
    Ok(true)
}

fn tells_task<D: Driven>(
    alloc: Global,
    out: &mut String,
    dom: &mut D,
    words: &[&str],
) -> Result<bool, OutOfMemory> {
    let task = Task(number(words, 1));
    match word(words, 0) {
        "cancel" => put_flag::<D>(alloc, out, dom.cancel(task))?,
        "pause" => put_done::<D>(alloc, out, dom.pause(task))?,
        "resume" => put_done::<D>(alloc, out, dom.resume(task))?,
        "active" => put_done::<D>(alloc, out, dom.set_active(task, number(words, 2) == 1))?,
        "wake" => put_done::<D>(alloc, out, dom.wake(task))?,
        _ => return Ok(false),
    }
    Ok(true)
}

fn asks<D: Driven>(
    alloc: Global,
    out: &mut String,
    dom: &mut D,
    words: &[&str],
) -> Result<bool, OutOfMemory> {
    let scope = ScopeId(number(words, 1));
    match word(words, 0) {
        "spawn" => {
            let standing = Standing::new(number(words, 3), values_from(alloc, words, 4)?);
            let state = TaskState::stepping(standing);
            let done = match word(words, 2) {
                "iso" => dom.spawn_isomorphic(scope, state),
                "new" => dom.task_new(scope, state),
                _ => dom.spawn(scope, state),
            };
            put_task::<D>(alloc, out, done)?
        }
        "after" => {
            let effect = Doing::new(number(words, 2), values_from(alloc, words, 3)?);
            put_done::<D>(alloc, out, dom.after_suspense_resolved(scope, effect))?
        }
        "freeze" => put_done::<D>(alloc, out, dom.freeze(scope))?,
        "provide" => {
            let value = value_of(alloc, word(words, 2))?;
            put_done::<D>(alloc, out, dom.provide_root_context(small(words, 1), value))?
        }
        _ => return Ok(false),
    }
    Ok(true)
}

fn throws<D: Driven>(
    alloc: Global,
    out: &mut String,
    dom: &mut D,
    words: &[&str],
) -> Result<bool, OutOfMemory> {
    let scope = ScopeId(number(words, 1));
    match word(words, 0) {
        "throw" => {
            let text = Text::from_str(alloc, word(words, 2))?;
            put_done::<D>(alloc, out, dom.throw_error(scope, text))?
        }
        "insert" => {
            let text = Text::from_str(alloc, word(words, 2))?;
            put_done::<D>(alloc, out, dom.insert_error(scope, text))?
        }
        "clear" => put_done::<D>(alloc, out, dom.clear_errors(scope))?,
        _ => return Ok(false),
    }
    Ok(true)
}
