//! The reports of a posted session are those of a session over its drains.
ghost use Rattle.std.specs.Prelude.{◌≡◌, ◌≤◌, length, All};

use lang_script::Script;
use lang_sources::read_source;
use lang_views::Props;
use rt_edits::NoOpMutations;
use rt_inbox::{Msg, NoGate, Post};
use rt_session::{Input, Limits, session, session_posted};
use rt_values::{List, Part, ScopeId};
use show_print::report_line;
use std::alloc::Global;
use std::process::Abort;

const HELLO: &str =
    "{\"components\":{\"App\":{\"view\":[{\"el\":\"div\",\"kids\":[\"hello world\"]}]}},\"root\":\"App\"}";

const LIMITS: Limits = Limits {
    units: 10_000,
    height: 128,
    drain: 2,
};

/// An application that shows a text, with its root's props.
fn hello(rt: &impl Abort, alloc: Global) -> (Script, Props) {
    let read = read_source(alloc, HELLO.as_bytes()).expect(rt, "memory for a source");
    let source = read.expect(rt, "a source in the form");
    let script = Script::new(alloc, source).expect(rt, "memory for a script");
    let props = script.props(alloc).expect(rt, "memory for props");
    (script, props)
}

/// Three marks of one scope.
fn three_marks(rt: &impl Abort, alloc: Global) -> List<Post>
    ensures few { length result ≤ 1000000 }
{
    let mark = Post::Mark(ScopeId(3));
    let mut posts = List::new(alloc);
    posts.push(mark).expect(rt, "memory for a post");
    posts.push(mark).expect(rt, "memory for a post");
    posts.push(mark).expect(rt, "memory for a post");
    posts
}

/// Two lists of three marks each.
pub(crate) fn two_lists(rt: &impl Abort, alloc: Global) -> List<List<Post>>
    ensures two { length result ≡ 2 }
    ensures short { All (λ list. length list ≤ 1000000) result }
{
    let mut lists = List::new(alloc);
    lists
        .push(three_marks(rt, alloc))
        .expect(rt, "memory for a list");
    lists
        .push(three_marks(rt, alloc))
        .expect(rt, "memory for a list");
    lists
}

/// Drains as the inputs of a session.
fn inputs_of(rt: &impl Abort, alloc: Global, drains: &[List<Msg>]) -> List<Input<Script>> {
    let mut inputs = List::new(alloc);
    for drain in drains {
        let messages = drain.copy(alloc).expect(rt, "memory for a drain");
        let input = Input::Drain(messages);
        inputs.push(input).expect(rt, "memory for an input");
    }
    inputs
}

/// Whether the messages are, of each of two posters, its three marks in order.
fn is_merge_of_threes(drains: &[List<Msg>]) -> bool {
    let mut first = 0u64;
    let mut second = 0u64;
    for drain in drains {
        for message in drain.as_slice() {
            if message.what != Post::Mark(ScopeId(3)) {
                return false;
            }
            if message.poster == 0 && message.seq == first {
                first = first.saturating_add(1);
            } else if message.poster == 1 && message.seq == second {
                second = second.saturating_add(1);
            } else {
                return false;
            }
        }
    }
    first == 3 && second == 3
}

#[test]
fn reports_are_those_over_the_drains(rt: HostRuntime) {
    let alloc = rt.alloc();
    let (script, props) = hello(&rt, alloc);
    let lists = two_lists(&rt, alloc);
    let mut sink = NoOpMutations;
    let posted = session_posted(&rt, alloc, script, props, lists, &NoGate, &mut sink, LIMITS);
    let posted = posted.ok().expect(&rt, "memory for a session");
    assert!(rt;
        is_merge_of_threes(posted.drains.as_slice()),
        "a merge of the posts"
    );
    for drain in posted.drains.as_slice() {
        assert!(rt;
            drain.len() == 1 || drain.len() == 2,
            "a drain of one or two"
        );
    }
    let (script, props) = hello(&rt, alloc);
    let inputs = inputs_of(&rt, alloc, posted.drains.as_slice());
    let reports = session(alloc, script, props, inputs, &mut sink, LIMITS);
    let reports = reports.ok().expect(&rt, "memory for a session");
    assert_eq!(rt; reports.len(), posted.reports.len());
    for (number, report) in reports.as_slice().iter().enumerate() {
        let other = posted.reports.get(number).expect(&rt, "as many reports");
        let line = report_line(alloc, number as u64, report).expect(&rt, "memory for a line");
        let other = report_line(alloc, number as u64, other).expect(&rt, "memory for a line");
        assert!(rt; line.same(&other), "report {number}");
    }
}
