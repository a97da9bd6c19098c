//! What threads post, and what a drain of it answers.
ghost use Rattle.std.specs.Prelude.{◌≡◌, [], true};

use rt_values::{List, OutOfMemory, Part, ScopeId, Task};
use std::alloc::Global;

/// What a thread asks for.
#[derive(Clone, Copy, Debug, PartialEq, Eq)]
pub enum Post {
    /// The scope is to run again.
    Mark(ScopeId),
    /// The task is to be polled again.
    Wake(Task),
    /// Every scope is to run again.
    AllDirty,
}

/// An accepted post: who posted it, its number among that poster's posts, and what it asks for.
#[derive(Clone, Copy, Debug, PartialEq, Eq)]
pub struct Msg {
    pub poster: u64,
    /// From 0 on.
    pub seq: u64,
    pub what: Post,
}

/// What one drain took.
#[derive(Debug, Drop)]
pub struct Drained {
    /// From the front of the queue, in its order.
    pub messages: List<Msg>,
    /// Whether the drain ended at a pop that found nothing.
    pub emptied: bool,
}

impl Drained {
    /// A drain that found nothing.
    pub fn nothing(alloc: Global) -> Drained
        ensures messages { result.messages ≡ [] }
        ensures emptied { result.emptied ≡ true }
    {
        Drained {
            messages: List::new(alloc),
            emptied: true,
        }
    }
}

/// A post that was not accepted, handed back: there was no memory for it.
#[derive(Clone, Copy, Debug, PartialEq, Eq)]
pub struct Refused {
    pub what: Post,
}

impl Part for Post {
    fn same(&self, other: &Post) -> bool {
        *self == *other
    }

    fn copy(&self, _alloc: Global) -> Result<Post, OutOfMemory> {
        Ok(*self)
    }
}

impl Part for Msg {
    fn same(&self, other: &Msg) -> bool {
        *self == *other
    }

    fn copy(&self, _alloc: Global) -> Result<Msg, OutOfMemory> {
        Ok(*self)
    }
}
