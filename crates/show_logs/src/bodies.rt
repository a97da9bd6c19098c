//! The forms of statements and expressions.

use crate::forms::Entry::{May, Must};
use crate::forms::{
    ANYWHERE, BODY, CALLING, Form, Group, LOADING, LOOKING, Leaf, OUTSIDE, Row, STATEMENTS, STEP,
    Want,
};

const GIVEN: Want = Want::Expression;

const LOOKS: Want = Want::Formula(LOOKING);

const LOADS: Want = Want::Formula(LOADING);

const BINDS: Want = Want::Binds;

const BOUND: Want = Want::Leaf(Leaf::Bound);

const TEXT: Want = Want::Leaf(Leaf::Text);

const ZERO: Want = Want::Leaf(Leaf::Zero);

const NUMBER: Want = Want::Leaf(Leaf::Number);

const ACTION_NAME: Want = Want::Leaf(Leaf::Called(Group::Actions));

const TASK_NAME: Want = Want::Leaf(Leaf::Called(Group::Tasks));

/// Statements, by their keys.
pub(crate) static STATEMENT: [Form; 25] = [
    Form(
        "let",
        "",
        ANYWHERE,
        &[Must("be", GIVEN), Must("let", BINDS)],
    ),
    Form(
        "cell",
        "",
        BODY,
        &[Must("init", GIVEN), Must("cell", BINDS)],
    ),
    Form(
        "hook",
        "",
        BODY,
        &[Must("init", GIVEN), Must("hook", BINDS)],
    ),
    Form("memo", "", BODY, &[Must("be", LOOKS), Must("memo", BINDS)]),
    Form(
        "resource",
        "",
        BODY,
        &[
            Must("key", LOOKS),
            Must("waits", NUMBER),
            Must("as", BINDS),
            Must("be", LOADS),
            Must("resource", Want::BindsInstead),
        ],
    ),
    Form(
        "spawn",
        "",
        ANYWHERE,
        &[
            May("as", Want::Leaf(Leaf::Kind)),
            Must("task", TASK_NAME),
            Must("args", Want::Row(Row::Handed(Group::Tasks, "task"))),
            Must("spawn", BINDS),
        ],
    ),
    Form(
        "drop",
        "",
        BODY,
        &[
            Must("drop", ACTION_NAME),
            Must("args", Want::Row(Row::Handed(Group::Actions, "drop"))),
        ],
    ),
    Form(
        "before",
        "",
        BODY,
        &[
            Must("before", ACTION_NAME),
            Must("args", Want::Row(Row::Handed(Group::Actions, "before"))),
        ],
    ),
    Form(
        "after",
        "",
        BODY,
        &[
            Must("after", ACTION_NAME),
            Must("args", Want::Row(Row::Handed(Group::Actions, "after"))),
        ],
    ),
    Form(
        "effect",
        "",
        ANYWHERE,
        &[
            Must("effect", ACTION_NAME),
            Must("args", Want::Row(Row::Handed(Group::Actions, "effect"))),
        ],
    ),
    Form(
        "resolved",
        "",
        ANYWHERE,
        &[
            Must("resolved", ACTION_NAME),
            Must("args", Want::Row(Row::Handed(Group::Actions, "resolved"))),
        ],
    ),
    Form("freeze", "", ANYWHERE, &[Must("freeze", ZERO)]),
    Form(
        "when",
        "",
        ANYWHERE,
        &[Must("when", GIVEN), Must("do", Want::Inner)],
    ),
    Form(
        "provide",
        "",
        ANYWHERE,
        &[Must("provide", TEXT), Must("be", GIVEN)],
    ),
    Form(
        "write",
        "",
        ANYWHERE,
        &[Must("write", BOUND), Must("be", GIVEN)],
    ),
    Form("forget", "", ANYWHERE, &[Must("forget", BOUND)]),
    Form(
        "act",
        "",
        ANYWHERE,
        &[Must("act", Want::Leaf(Leaf::Act)), Must("task", BOUND)],
    ),
    Form("mark", "", ANYWHERE, &[Must("mark", GIVEN)]),
    Form("throw", "", ANYWHERE, &[Must("throw", GIVEN)]),
    Form("clear", "", ANYWHERE, &[Must("clear", ZERO)]),
    Form("fail", "", BODY, &[Must("fail", GIVEN)]),
    Form("suspend", "", BODY, &[Must("suspend", BOUND)]),
    Form("stop", "", OUTSIDE, &[Must("stop", ZERO)]),
    Form("prevent", "", OUTSIDE, &[Must("prevent", ZERO)]),
    Form("stay", "", STEP, &[Must("stay", ZERO)]),
];

/// Expressions that are objects, by their keys.
pub(crate) static EXPRESSION: [Form; 17] = [
    Form("get", "", ANYWHERE, &[Must("get", BOUND)]),
    Form("read", "", CALLING, &[Must("read", BOUND)]),
    Form(
        "cat",
        "",
        ANYWHERE,
        &[Must("cat", Want::Row(Row::Expressions))],
    ),
    Form(
        "add",
        "",
        ANYWHERE,
        &[Must("add", Want::Row(Row::Counted(2)))],
    ),
    Form(
        "mul",
        "",
        ANYWHERE,
        &[Must("mul", Want::Row(Row::Counted(2)))],
    ),
    Form(
        "eq",
        "",
        ANYWHERE,
        &[Must("eq", Want::Row(Row::Counted(2)))],
    ),
    Form(
        "lt",
        "",
        ANYWHERE,
        &[Must("lt", Want::Row(Row::Counted(2)))],
    ),
    Form("not", "", ANYWHERE, &[Must("not", GIVEN)]),
    Form("none", "", ANYWHERE, &[Must("none", GIVEN)]),
    Form(
        "if",
        "",
        ANYWHERE,
        &[Must("if", Want::Row(Row::Counted(3)))],
    ),
    Form("parse", "", ANYWHERE, &[Must("parse", GIVEN)]),
    Form("context", "", CALLING, &[Must("context", TEXT)]),
    Form("scope", "", STATEMENTS, &[Must("scope", ZERO)]),
    Form("generation", "", STATEMENTS, &[Must("generation", ZERO)]),
    Form("error", "", STATEMENTS, &[Must("error", ZERO)]),
    Form("payload", "", STATEMENTS, &[Must("payload", ZERO)]),
    Form("me", "", STATEMENTS, &[Must("me", ZERO)]),
];
