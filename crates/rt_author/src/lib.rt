//! All that an author needs who writes an application as a library: bodies, pages, their trees,
//! signals, memos and resources, and the laws of them. Nothing here runs one.
#![tactic(auto)]

mod macros;

pub use author_bodies::{
    Bodied, Bodies, KeepsCells, NoData, Paged, Pages, one, or_out_of_memory, own_cell, read_all,
    two, unless_refused, write_all,
};
pub use author_calls::{App, BodyCx, BodyTurn, Cx, TaskStep, Turn};
pub use author_carrying::{Carries, carried, read_held, write_held};
pub use author_derived::{
    DerivedPaged, DerivedPages, current_derived_show, kept_are_derived, reports_show_derived,
};
pub use author_deriving::{
    HasMemo, Load, MemoApp, MemoBodies, MemoTask, poll_memo, step_memo, use_memo, use_resource,
};
pub use author_given::{Given, Inside, given_tests};
pub use author_programs::{
    coded_tests, commands_within, either_tests, heard_from_below, kinds_apart, kinds_go_on,
    memoized_are_lawful, other_kinds_stay, pages_are_lawful, pages_show_present_values, pair_tests,
    plain_tests, programs_come_to_their_meaning, programs_go_on, unread_runs_nothing,
};
pub use author_signals::{Pair, Signal, own_pair, spawn_once, still_waking, waking};
pub use rt_cells::{ReactiveContext, Source, Target};
pub use rt_values::{Boxed, ElementId, List, OutOfMemory, Part, ScopeId, Shared, Task, Text};
pub use run_records::CxFault;

// Trees.
pub use author_pieces::{
    Attrs, BadMarkup, Breach, Filling, Kept, Piece, Shape, ShapeAttribute, Slots, Unfit, and,
    beside, checked, child, element, empty_attrs, empty_piece, error_boundary, fill, fixed,
    fragment, hole, listens, open_attr, open_slot, says, several, shown, suspense_boundary, text,
    view, when,
};
pub use tree_nodes::{
    Attribute, AttributeValue, CapturedError, DynamicNode, Element, ErrorBoundaryProps,
    ErrorHandler, Event, Fallback, FragmentProps, LastRenderedNode, ListenerCallback, Parts,
    RenderError, RootProps, SuspendedFuture, SuspenseBoundaryProps, Template, TemplateAttribute,
    TemplateNode, TemplateParts, VComponent, VNode,
};

// Laws of sessions, of pages and bodies, of contexts, and of memos.
pub use law_elm::{
    elm_folds, elm_programs_fold, elm_programs_show, elm_shows, no_error_comes,
    pages_keep_no_error, replies_read, roots_last,
};
pub use law_kinds::{commands_keep_others, programs_keep_others};
pub use law_lasting::{
    cells_last, cells_stay, children_last, children_stay, components_last, logged_cells_last,
    logged_children_last, logged_components_last, logged_numbers_last, numbers_last, one_finish,
    rows_are_sessions,
};
pub use law_minding::{cells_are_drawn, polls_are_done, sessions_keep_memos};
pub use law_pages::{
    events_update, heard_entries_update, heard_entries_write, kept_pages_ask_nothing,
    listeners_update, one_page_shows, one_read_shows, pages_keep_cells,
};
pub use law_reduce::{
    bodies_show, calls_come_later, cells_are_kept, current_wrapped, folds_show, live_never_removed,
    live_unremoved, one_hears, own_cells_fold, own_pages_show, pages_reduce, pages_show_values,
    reports_reduce, reports_show_bodies, reports_show_reduced, reports_wrapped, root_stays,
    runs_are_given, unrun_reads_stay, wrappers_stay,
};
