//! All that is asked of a dom, in lines.

use crate::driven::Driven;
use crate::telling::{put_edits, put_value};
use crate::words::number;
use lang_views::Value;
use rt_edits::{DocNode, Edit};
use rt_values::{ElementId, List, OutOfMemory, ScopeId, Task};
use std::alloc::{AllocError, Global};
use tree_nodes::{CapturedError, Place};

fn put_option(alloc: Global, out: &mut String, number: Option<u64>) -> Result<(), AllocError> {
    match number {
        Some(number) => out.push_str(format!(in alloc; " {number}")?.as_str()),
        None => out.push_str(" -"),
    }
}

fn put_context(alloc: Global, out: &mut String, value: Option<&Value>) -> Result<(), AllocError> {
    out.push_str(" ")?;
    match value {
        Some(value) => put_value(alloc, out, value),
        None => out.push_str("-"),
    }
}

fn put_nodes(
    alloc: Global,
    out: &mut String,
    scope: u64,
    nodes: Result<Option<List<DocNode>>, OutOfMemory>,
) -> Result<(), AllocError> {
    match nodes {
        Ok(Some(nodes)) => {
            let edit = Edit::AppendChildren {
                id: ElementId(scope),
                nodes,
            };
            put_edits(alloc, out, &[edit])
        }
        Ok(None) => Ok(()),
        Err(OutOfMemory) => out.push_str("memory\n"),
    }
}

fn put_error(
    alloc: Global,
    out: &mut String,
    error: Option<&CapturedError>,
) -> Result<(), AllocError> {
    match error {
        Some(error) => {
            out.push_str(format!(in alloc; " {}:", error.serial)?.as_str())?;
            out.push_str(error.text.as_str())
        }
        None => out.push_str(" -"),
    }
}

fn put_boundary<D: Driven>(
    alloc: Global,
    out: &mut String,
    dom: &D,
    id: ScopeId,
) -> Result<(), AllocError> {
    match dom.error_context(id) {
        Some(boundary) => {
            put_option(alloc, out, Some(boundary.0))?;
            put_error(alloc, out, dom.error(boundary))?;
        }
        None => out.push_str(" - -")?,
    }
    if let Some(boundary) = dom.boundary(id) {
        put_either(out, boundary.frozen, " frozen", " thawed")?;
        put_either(out, boundary.hidden, " hidden", " shown")?;
        put_either(out, boundary.held, " held", " free")?;
    }
    out.push_str("\n")
}

fn put_either(out: &mut String, holds: bool, one: &str, other: &str) -> Result<(), AllocError> {
    if holds {
        out.push_str(one)
    } else {
        out.push_str(other)
    }
}

fn put_scope<D: Driven>(
    alloc: Global,
    out: &mut String,
    dom: &D,
    number: u64,
) -> Result<(), AllocError> {
    let id = ScopeId(number);
    let Some(scope) = dom.scope(id) else {
        return Ok(());
    };
    out.push_str(format!(in alloc; "scope {number} {}", scope.height)?.as_str())?;
    put_option(alloc, out, number_of(dom.parent_scope(id)))?;
    put_option(alloc, out, dom.height(id))?;
    put_option(alloc, out, number_of(dom.suspense_context(id)))?;
    put_either(out, scope.built, " built", " unbuilt")?;
    for other in 0..8 {
        put_either(out, dom.is_descendant_of(id, ScopeId(other)), "1", "0")?;
    }
    for kind in 0..3u32 {
        put_context(alloc, out, dom.consume_context(id, kind))?;
        put_context(alloc, out, dom.has_context(id, kind))?;
    }
    put_boundary(alloc, out, dom, id)?;
    put_nodes(alloc, out, number, dom.nodes_of(id))
}

fn number_of(scope: Option<ScopeId>) -> Option<u64> {
    match scope {
        Some(scope) => Some(scope.0),
        None => None,
    }
}

fn put_live_task<D: Driven>(
    alloc: Global,
    out: &mut String,
    dom: &D,
    number: u64,
) -> Result<(), AllocError> {
    let task = Task(number);
    let Some(scope) = dom.task_scope(task) else {
        return Ok(());
    };
    out.push_str(format!(in alloc; "task {number} {}", scope.0)?.as_str())?;
    put_option(
        alloc,
        out,
        match dom.parent_task(task) {
            Some(parent) => Some(parent.0),
            None => None,
        },
    )?;
    put_either(out, dom.paused(task), " paused\n", " active\n")
}

fn put_scopes<D: Driven>(alloc: Global, out: &mut String, dom: &D) -> Result<(), AllocError> {
    for number in 0..30 {
        put_scope(alloc, out, dom, number)?;
    }
    Ok(())
}

fn put_tasks<D: Driven>(alloc: Global, out: &mut String, dom: &D) -> Result<(), AllocError> {
    for number in 0..14 {
        put_live_task(alloc, out, dom, number)?;
    }
    Ok(())
}

pub(crate) fn put_query<D: Driven>(
    alloc: Global,
    out: &mut String,
    dom: &D,
) -> Result<(), AllocError> {
    put_scopes(alloc, out, dom)?;
    put_tasks(alloc, out, dom)?;
    out.push_str("skipped")?;
    for scope in dom.skipped() {
        let number = scope.0;
        out.push_str(format!(in alloc; " {number}")?.as_str())?;
    }
    put_either(
        out,
        dom.suspended_tasks_remaining(),
        " remaining\n",
        " none\n",
    )
}

/// Where the nodes of these numbers stand.
pub(crate) fn put_places<D: Driven>(
    alloc: Global,
    out: &mut String,
    dom: &D,
    words: &[&str],
) -> Result<(), AllocError> {
    for index in 1..words.len() {
        let asked = number(words, index);
        out.push_str(format!(in alloc; "at {asked}")?.as_str())?;
        put_place(alloc, out, dom.place_of(ElementId(asked)))?;
    }
    Ok(())
}

/// What the cells of these numbers hold, the live scopes, and the document.
pub(crate) fn put_held<D: Driven>(
    alloc: Global,
    out: &mut String,
    dom: &D,
    words: &[&str],
) -> Result<(), AllocError> {
    put_cells(alloc, out, dom, words)?;
    match dom.live_scopes() {
        Ok(scopes) => put_live(alloc, out, scopes.as_slice())?,
        Err(OutOfMemory) => out.push_str("memory\n")?,
    }
    match dom.shown() {
        Ok(nodes) => put_nodes(alloc, out, 0, Ok(Some(nodes))),
        Err(OutOfMemory) => out.push_str("memory\n"),
    }
}

fn put_cells<D: Driven>(
    alloc: Global,
    out: &mut String,
    dom: &D,
    words: &[&str],
) -> Result<(), AllocError> {
    for index in 1..words.len() {
        let asked = number(words, index);
        out.push_str(format!(in alloc; "cell {asked}")?.as_str())?;
        put_context(alloc, out, dom.read(asked))?;
        out.push_str("\n")?;
    }
    Ok(())
}

fn put_live(alloc: Global, out: &mut String, scopes: &[ScopeId]) -> Result<(), AllocError> {
    out.push_str("live")?;
    for scope in scopes {
        out.push_str(format!(in alloc; " {}", scope.0)?.as_str())?;
    }
    out.push_str("\n")
}

fn put_place(alloc: Global, out: &mut String, place: Option<&Place>) -> Result<(), AllocError> {
    let Some(place) = place else {
        return out.push_str(" nowhere\n");
    };
    out.push_str(format!(in alloc; " {}", place.scope.0)?.as_str())?;
    put_either(out, place.fallback, " fallback", " own")?;
    put_steps(alloc, out, place)?;
    out.push_str(" /")?;
    put_path(alloc, out, place.path.as_slice())
}

fn put_steps(alloc: Global, out: &mut String, place: &Place) -> Result<(), AllocError> {
    for step in place.steps.as_slice() {
        out.push_str(format!(in alloc; " {}:{}", step.slot, step.position)?.as_str())?;
    }
    Ok(())
}

fn put_path(alloc: Global, out: &mut String, path: &[u8]) -> Result<(), AllocError> {
    for index in path {
        out.push_str(format!(in alloc; " {index}")?.as_str())?;
    }
    out.push_str("\n")
}
