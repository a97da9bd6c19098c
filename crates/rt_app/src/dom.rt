//! A runtime that a program keeps and calls, what its calls answer, and a session over what threads
//! post.

// Laws of what calls make of the values of pages.
pub use law_kept::{calls_keep_cells, calls_reduce, handled_update, settled_show, written_update};

// Laws of what they leave of memos and resources.
pub use law_minding::{
    calls_are_parts, polls_are_caused, polls_are_caused_through, settled_keep, tended_are_kept,
};

// The runtime.
pub use rt_boundary::{Fragment, NotBuilt};
pub use rt_session::{Posted, PostedFault, session_posted};
pub use rt_vdom::{
    DomFault, Drained, ErrorContext, Place, Poll, ScopeState, Scopes, Step, SuspenseContext,
    TaskCalls, VirtualDom, task_new,
};
