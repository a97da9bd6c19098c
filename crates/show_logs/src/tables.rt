//! The forms of a source, table by table.

use crate::bodies::{EXPRESSION, STATEMENT};
use crate::forms::Entry::{May, Must};
use crate::forms::{ACTION, ANYWHERE, BODY, Form, Group, Leaf, Members, Row, Table, Want};

const GIVEN: Want = Want::Expression;

const BINDS: Want = Want::Binds;

const ANY: Want = Want::Leaf(Leaf::Anything);

const TEXT: Want = Want::Leaf(Leaf::Text);

const ZERO: Want = Want::Leaf(Leaf::Zero);

const NUMBER: Want = Want::Leaf(Leaf::Number);

const NODES: Want = Want::Row(Row::Nodes);

const PARAMS: Want = Want::Row(Row::Params);

/// A whole source.
pub(crate) static SOURCE: [Form; 1] = [Form(
    "",
    "",
    ANYWHERE,
    &[
        Must("components", Want::Members(Members::Of(Table::Component))),
        May("actions", Want::Members(Members::Of(Table::Action))),
        May("tasks", Want::Members(Members::Of(Table::Task))),
        Must("root", Want::Leaf(Leaf::Called(Group::Components))),
        May("props", Want::Row(Row::Props)),
        May("inputs", Want::Row(Row::Inputs)),
        May("posts", Want::Row(Row::Posts)),
    ],
)];

/// A whole source, but for what its definitions do and what it is run on.
pub(crate) static OUTLINE: [Form; 1] = [Form(
    "",
    "",
    ANYWHERE,
    &[
        Must(
            "components",
            Want::Members(Members::Of(Table::ComponentOutline)),
        ),
        Must("root", ANY),
        May("props", ANY),
        May("actions", Want::Members(Members::Of(Table::ActionOutline))),
        May("tasks", Want::Members(Members::Of(Table::TaskOutline))),
        May("inputs", ANY),
        May("posts", ANY),
    ],
)];

/// A component.
pub(crate) static COMPONENT: [Form; 1] = [Form(
    "",
    "",
    ANYWHERE,
    &[
        May("params", PARAMS),
        May("do", Want::Block(BODY)),
        Must("view", NODES),
    ],
)];

/// An action.
pub(crate) static ACTION_DEFINED: [Form; 1] = [Form(
    "",
    "",
    ANYWHERE,
    &[May("params", PARAMS), Must("do", Want::Block(ACTION))],
)];

/// A task.
pub(crate) static TASK: [Form; 1] = [Form(
    "",
    "",
    ANYWHERE,
    &[May("params", PARAMS), Must("steps", Want::Steps)],
)];

/// A component's keys and params.
pub(crate) static COMPONENT_OUTLINE: [Form; 1] = [Form(
    "",
    "",
    ANYWHERE,
    &[Must("view", ANY), May("params", PARAMS), May("do", ANY)],
)];

/// An action's keys and params.
pub(crate) static ACTION_OUTLINE: [Form; 1] = [Form(
    "",
    "",
    ANYWHERE,
    &[Must("do", ANY), May("params", PARAMS)],
)];

/// A task's keys and params.
pub(crate) static TASK_OUTLINE: [Form; 1] = [Form(
    "",
    "",
    ANYWHERE,
    &[Must("steps", ANY), May("params", PARAMS)],
)];

/// View nodes that are objects, by their keys.
pub(crate) static NODE: [Form; 10] = [
    Form(
        "el",
        "",
        ANYWHERE,
        &[
            Must("el", Want::Leaf(Leaf::Name)),
            May("ns", Want::Leaf(Leaf::Name)),
            May("attrs", Want::Members(Members::Attributes)),
            May("on", Want::Members(Members::Listeners)),
            May("kids", NODES),
        ],
    ),
    Form("text", "", ANYWHERE, &[Must("text", GIVEN)]),
    Form(
        "use",
        "",
        ANYWHERE,
        &[
            Must("use", Want::Leaf(Leaf::Called(Group::Components))),
            May("props", Want::Row(Row::Handed(Group::Components, "use"))),
        ],
    ),
    Form(
        "list",
        "",
        ANYWHERE,
        &[Must("list", GIVEN), Must("as", BINDS), Must("item", NODES)],
    ),
    Form("pick", "", ANYWHERE, &[Must("pick", Want::Row(Row::Pick))]),
    Form("fragment", "", ANYWHERE, &[Must("fragment", NODES)]),
    Form(
        "boundary",
        "error",
        ANYWHERE,
        &[
            Must("boundary", ANY),
            Must("kids", NODES),
            May("handler", Want::One(Table::Use)),
        ],
    ),
    Form(
        "boundary",
        "suspense",
        ANYWHERE,
        &[
            Must("boundary", ANY),
            Must("kids", NODES),
            May("fallback", Want::One(Table::Use)),
        ],
    ),
    Form(
        "boundary",
        "",
        ANYWHERE,
        &[
            Must("boundary", Want::Leaf(Leaf::Side)),
            May("kids", ANY),
            May("handler", ANY),
            May("fallback", ANY),
        ],
    ),
    Form("hole", "", ANYWHERE, &[Must("hole", ZERO)]),
];

/// A component that a boundary shows.
pub(crate) static USE: [Form; 1] = [Form(
    "",
    "",
    ANYWHERE,
    &[
        Must("use", Want::Leaf(Leaf::Called(Group::Components))),
        May("props", Want::Row(Row::Handed(Group::Components, "use"))),
    ],
)];

/// A listener.
pub(crate) static LISTENER: [Form; 1] = [Form(
    "",
    "",
    ANYWHERE,
    &[
        Must("do", Want::Leaf(Leaf::Called(Group::Actions))),
        Must("args", Want::Row(Row::Handed(Group::Actions, "do"))),
    ],
)];

/// Inputs, by their keys.
pub(crate) static INPUT: [Form; 5] = [
    Form(
        "event",
        "",
        ANYWHERE,
        &[
            Must("event", TEXT),
            Must("element", NUMBER),
            May("payload", Want::Leaf(Leaf::Literal)),
            May("bubbles", Want::Leaf(Leaf::Whole)),
        ],
    ),
    Form("wake", "", ANYWHERE, &[Must("wake", NUMBER)]),
    Form(
        "write",
        "",
        ANYWHERE,
        &[Must("write", NUMBER), Must("be", Want::Leaf(Leaf::Literal))],
    ),
    Form("mark", "", ANYWHERE, &[Must("mark", NUMBER)]),
    Form(
        "drain",
        "",
        ANYWHERE,
        &[Must("drain", Want::Row(Row::Messages))],
    ),
];

/// Messages, by their keys.
pub(crate) static MESSAGE: [Form; 3] = [
    Form("mark", "", ANYWHERE, &[Must("mark", NUMBER)]),
    Form("wake", "", ANYWHERE, &[Must("wake", NUMBER)]),
    Form("all", "", ANYWHERE, &[Must("all", ZERO)]),
];

/// The forms of a table.
pub(crate) fn forms_of(table: Table) -> &'static [Form] {
    match table {
        Table::Source => &SOURCE,
        Table::Outline => &OUTLINE,
        Table::Component => &COMPONENT,
        Table::Action => &ACTION_DEFINED,
        Table::Task => &TASK,
        Table::ComponentOutline => &COMPONENT_OUTLINE,
        Table::ActionOutline => &ACTION_OUTLINE,
        Table::TaskOutline => &TASK_OUTLINE,
        Table::Statement => &STATEMENT,
        Table::Expression => &EXPRESSION,
        Table::Node => &NODE,
        Table::Use => &USE,
        Table::Listener => &LISTENER,
        Table::Input => &INPUT,
        Table::Message => &MESSAGE,
    }
}
