//! A dom that is built is marked, and its task is woken. No allocation comes between its making and
//! the list that is made after them: with the first one after the making refused, that list has no
//! memory. The dom is closed at the end.

use lang_script::Script;
use lang_sources::read_source;
use rt_values::{List, ScopeId, Task};
use rt_vdom::{Limits, TaskCalls, VirtualDom};
use std::alloc::Global;
use std::process::Abort;

/// A child waits for a task, and a fallback shows until the task has written a cell.
const ARTICLE: &str =
    "{\"components\":{\"App\":{\"view\":[{\"boundary\":\"suspense\",\"kids\":[{\"use\":\"Article\"}],\"fallback\":{\"use\":\"Load\"}}]},\"Article\":{\"do\":[{\"cell\":\"d\",\"init\":0},{\"spawn\":\"t\",\"task\":\"F\",\"args\":[{\"get\":\"d\"}]},{\"when\":{\"eq\":[{\"read\":\"d\"},0]},\"do\":[{\"suspend\":\"t\"}]}],\"view\":[\"Article\"]},\"Load\":{\"view\":[\"Loading...\"]}},\"tasks\":{\"F\":{\"params\":[\"d\"],\"steps\":[[],[{\"write\":\"d\",\"be\":1}]]}},\"root\":\"App\"}";

const LIMITS: Limits = Limits {
    units: 10_000,
    height: 128,
    drain: 1024,
};

/// A dom of it that is built.
fn built(rt: &impl Abort, alloc: Global) -> VirtualDom<Script> {
    let read = read_source(alloc, ARTICLE.as_bytes()).expect(rt, "memory for a source");
    let source = read.expect(rt, "a source in the form");
    let script = Script::new(alloc, source).expect(rt, "memory for a script");
    let dom = VirtualDom::prebuilt(alloc, script, LIMITS);
    dom.ok().expect(rt, "memory for a dom")
}

/// Its scopes are marked, and its task is woken, paused and resumed.
fn mark(rt: &impl Abort, dom: &mut VirtualDom<Script>) {
    assert!(rt; dom.mark_dirty(ScopeId(3)).is_ok(), "a scope is marked");
    assert!(rt; Task(1).wake(dom).is_ok(), "a task is woken");
    assert!(rt; dom.mark_all_dirty().is_ok(), "all scopes are marked");
    assert!(rt; Task(1).pause(dom).is_ok(), "a task is paused");
    assert!(rt; Task(1).wake(dom).is_ok(), "a paused task is woken");
    assert!(rt; Task(1).resume(dom).is_ok(), "a task is resumed");
    assert!(rt; dom.mark_dirty(ScopeId(5)).is_ok(), "a child is marked");
}

#[test]
fn marks_take_no_memory(rt: HostRuntime) {
    let alloc = rt.alloc();
    let mut dom = built(&rt, alloc);
    mark(&rt, &mut dom);
    let mut after = List::new(alloc);
    let pushed = after.push(1u8).is_ok();
    let _closed = dom.close();
    assert!(rt; pushed, "memory after the marks");
}
