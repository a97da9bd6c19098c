//! What comes from outside, as the runtime takes it.
ghost use Rattle.std.specs.Prelude.{◌≡◌, IfOk, map, option_map};
ghost use Rattle.run_reports.specs.Seen as reports;
ghost use Rattle.rt_language.specs.Meaning as meanings;
ghost use Rattle.lang_syntax.specs.Mirror as mirror;
ghost use Rattle.lang_script.specs.Posted.{posted_of};

use crate::evaluation::said;
use crate::script::Script;
use lang_syntax::{InputSource, Literal, PostSource};
use lang_views::Value;
use rt_inbox::{Msg, Post};
use rt_values::{ElementId, List, OutOfMemory, Part, ScopeId, Task};
use run_reports::Input;
use std::alloc::Global;

/// The inputs of a source, in order. The messages of a drain have poster 0, and are numbered by
/// their places.
pub fn inputs_of(alloc: Global, inputs: &[InputSource]) -> Result<List<Input<Script>>, OutOfMemory>
    ensures inputs { IfOk result (λ taken. map reports.input_of taken
        ≡ meanings.inputs_of (map mirror.input_of inputs.now)) }
{
    let mut taken = List::new(alloc);
    for input in inputs {
        let read = input_of(alloc, input)?;
        taken.push(read)?;
    }
    Ok(taken)
}

/// What each poster of a source posts.
pub fn posts_of(alloc: Global, posts: &[List<PostSource>]) -> Result<List<List<Post>>, OutOfMemory>
    ensures posts { IfOk result (λ posted. map (map reports.post_of) posted
        ≡ map (map posted_of) posts.now) }
{
    let mut posted = List::new(alloc);
    for poster in posts {
        let own = own_posts(alloc, poster.as_slice())?;
        posted.push(own)?;
    }
    Ok(posted)
}

/// What one poster posts.
fn own_posts(alloc: Global, posts: &[PostSource]) -> Result<List<Post>, OutOfMemory>
    ensures posts { IfOk result (λ own. map reports.post_of own ≡ map posted_of posts.now) }
{
    let mut own = List::new(alloc);
    for at in 0..posts.len() {
        own.push(post_of(posts[at]))?;
    }
    Ok(own)
}

/// One input.
fn input_of(alloc: Global, source: &InputSource) -> Result<Input<Script>, OutOfMemory>
    ensures input { IfOk result (λ input. reports.input_of input
        ≡ meanings.input_of (mirror.input_of source.now)) }
{
    Ok(match source {
        InputSource::Event {
            name,
            element,
            payload,
            bubbles,
        } => Input::Event {
            name: name.copy(alloc)?,
            payload: payload_of(alloc, payload)?,
            element: ElementId(*element),
            bubbles: bubbles_of(bubbles),
        },
        InputSource::Wake(task) => Input::Wake(Task(*task)),
        InputSource::Write { cell, value } => Input::Write {
            cell: *cell,
            value: said(alloc, value)?,
        },
        InputSource::Mark(scope) => Input::Mark(ScopeId(*scope)),
        InputSource::Drain(posts) => Input::Drain(messages_of(alloc, posts.as_slice())?),
    })
}

/// Whether an event bubbles: unless 0 is said.
fn bubbles_of(said: &Option<i64>) -> bool
    ensures bubbles { result ≡ meanings.bubbles_of said.now }
{
    match said {
        Some(number) => *number != 0,
        None => true,
    }
}

/// What an event carries, none where nothing is said.
fn payload_of(alloc: Global, payload: &Option<Literal>) -> Result<Value, OutOfMemory>
    ensures value { IfOk result (λ value. value
        ≡ meanings.payload_of (option_map mirror.literal_of payload.now)) }
{
    match payload {
        Some(literal) => said(alloc, literal),
        None => Ok(Value::none()),
    }
}

/// The messages of one drain.
fn messages_of(alloc: Global, posts: &[PostSource]) -> Result<List<Msg>, OutOfMemory>
    ensures messages { IfOk result (λ messages. map reports.message_of messages
        ≡ meanings.messages_from 0 0 (map mirror.post_of posts.now)) }
{
    let mut messages = List::new(alloc);
    for at in 0..posts.len() {
        messages.push(Msg {
            poster: 0,
            seq: at as u64,
            what: post_of(posts[at]),
        })?;
    }
    Ok(messages)
}

/// What a message asks for.
fn post_of(post: PostSource) -> Post
    ensures post { reports.post_of result ≡ posted_of post }
{
    match post {
        PostSource::Mark(scope) => Post::Mark(ScopeId(scope)),
        PostSource::Wake(task) => Post::Wake(Task(task)),
        PostSource::All => Post::AllDirty,
    }
}
