//! The one crate for who runs an application, or writes a renderer: all that an author needs, from
//! rt_author, and beside it sessions, a runtime that a program keeps, sinks and what threads post.
#![tactic(auto)]

pub mod dom;

// Bodies, pages and signals.
pub use rt_author::{
    App, Bodied, Bodies, BodyCx, BodyTurn, Cx, CxFault, KeepsCells, NoData, Paged, Pages, Pair,
    Signal, TaskStep, Turn, one, or_out_of_memory, own_cell, own_pair, read_all, spawn_once,
    still_waking, two, unless_refused, waking, write_all,
};

// Memos and resources.
pub use rt_author::{
    DerivedPaged, DerivedPages, HasMemo, Load, MemoApp, MemoBodies, MemoTask, poll_memo, step_memo,
    use_memo, use_resource,
};

// Components of libraries.
pub use rt_author::{Carries, Given, Inside, carried, read_held, write_held};

// Trees.
pub use rt_author::{
    Attribute, AttributeValue, CapturedError, DynamicNode, Element, ErrorBoundaryProps,
    ErrorHandler, Event, Fallback, FragmentProps, LastRenderedNode, ListenerCallback, Parts,
    RenderError, RootProps, SuspendedFuture, SuspenseBoundaryProps, Template, TemplateAttribute,
    TemplateNode, TemplateParts, VComponent, VNode,
};

// Trees as they nest.
pub use rt_author::{
    Attrs, BadMarkup, Breach, Filling, Kept, Piece, Shape, ShapeAttribute, Slots, Unfit, and,
    attrs, beside, checked, child, element, empty_attrs, empty_piece, error_boundary, fill, fixed,
    fragment, hole, listens, open_attr, open_slot, row, says, several, shown, suspense_boundary,
    text, view, when,
};

// Laws.
pub use rt_author::{
    bodies_show, calls_come_later, cells_are_drawn, cells_are_kept, cells_last, cells_stay,
    children_last, children_stay, coded_tests, commands_keep_others, commands_within,
    components_last, current_derived_show, current_wrapped, either_tests, elm_folds,
    elm_programs_fold, elm_programs_show, elm_shows, events_update, folds_show, given_tests,
    heard_entries_update, heard_entries_write, heard_from_below, kept_are_derived,
    kept_pages_ask_nothing, kinds_apart, kinds_go_on, listeners_update, live_never_removed,
    live_unremoved, logged_cells_last, logged_children_last, logged_components_last,
    logged_numbers_last, memoized_are_lawful, no_error_comes, numbers_last, one_finish, one_hears,
    one_page_shows, one_read_shows, other_kinds_stay, own_cells_fold, own_pages_show,
    pages_are_lawful, pages_keep_cells, pages_keep_no_error, pages_reduce,
    pages_show_present_values, pages_show_values, pair_tests, plain_tests, polls_are_done,
    programs_come_to_their_meaning, programs_go_on, programs_keep_others, replies_read,
    reports_reduce, reports_show_bodies, reports_show_derived, reports_show_reduced,
    reports_wrapped, root_stays, roots_last, rows_are_sessions, runs_are_given,
    sessions_keep_memos, unread_runs_nothing, unrun_reads_stay, wrappers_stay,
};

// Values.
pub use rt_author::{
    Boxed, ElementId, List, OutOfMemory, Part, ReactiveContext, ScopeId, Shared, Source, Target,
    Task, Text,
};

// What runs an application.
pub use rt_edits::{
    DocAttr, DocFault, DocKind, DocNode, Document, Edit, FailingMutations, Mutations,
    NoOpMutations, SinkError, WriteMutations,
};
pub use rt_inbox::{
    Bell, Gate, Inbox, NoGate, Notifier, Owner, Poster, Refused, Taken, finish, post_beside,
    posters_for,
};
pub use rt_memo::memo_session;
pub use rt_session::session;
pub use run_records::Firsts;
pub use run_reports::{Counter, Entry, Fault, Input, Limits, Msg, Post, Report, SessionFault};
pub use tree_sinks::{ByEdit, TakesEdits};
