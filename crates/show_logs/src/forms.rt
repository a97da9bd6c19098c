//! What is wanted at each place of a source: one table of objects by their keys.
//!
//! A form names an object by one of its keys; its entries tell what stands at each key that it may
//! have. Entries are looked at in order, so a name stands behind what may not use it yet.

/// What is defined by name.
#[derive(Clone, Copy)]
pub(crate) enum Group {
    Components,
    Actions,
    Tasks,
}

/// The tables below.
#[derive(Clone, Copy)]
pub(crate) enum Table {
    Source,
    Outline,
    Component,
    Action,
    Task,
    ComponentOutline,
    ActionOutline,
    TaskOutline,
    Statement,
    Expression,
    Node,
    Use,
    Listener,
    Input,
    Message,
}

/// What a single value has to be, whatever stands in it.
#[derive(Clone, Copy)]
pub(crate) enum Leaf {
    Anything,
    Text,
    Name,
    Zero,
    Number,
    Whole,
    Literal,
    /// The name of a variable that is bound.
    Bound,
    /// The name of one of a group.
    Called(Group),
    Kind,
    Act,
    Side,
}

/// What a list has in it, one value after another.
#[derive(Clone, Copy)]
pub(crate) enum Row {
    Expressions,
    /// So many expressions.
    Counted(u64),
    /// As many expressions as the one of the group has params that stands at this key.
    Handed(Group, &'static str),
    Statements,
    Steps,
    Nodes,
    Pick,
    Params,
    /// As many literals as the root has params.
    Props,
    Inputs,
    Messages,
    /// The messages of one poster.
    Posted,
    Posts,
}

/// What stands by name in an object.
#[derive(Clone, Copy)]
pub(crate) enum Members {
    Of(Table),
    Attributes,
    Listeners,
}

/// What is wanted of a value.
#[derive(Clone, Copy)]
pub(crate) enum Want {
    Leaf(Leaf),
    /// A text, which is a variable's name from here on.
    Binds,
    /// A text, which is a variable's name in place of the one before it, which ends here.
    BindsInstead,
    /// A text, which is a param's name: no other one before it is called so.
    Param,
    Expression,
    /// An expression that only looks, at what may be looked at in such a place.
    Formula(u8),
    Node,
    One(Table),
    Row(Row),
    /// The statements of a body or an action: where they stand.
    Block(u8),
    /// The steps of a task.
    Steps,
    /// Statements whose variables end with them.
    Inner,
    Members(Members),
}

/// What stands at a key that has to be there, or at one that may be.
pub(crate) enum Entry {
    Must(&'static str, Want),
    May(&'static str, Want),
}

impl Entry {
    pub(crate) fn key(&self) -> &'static str {
        match self {
            Entry::Must(key, _) | Entry::May(key, _) => *key,
        }
    }

    pub(crate) fn want(&self) -> Want {
        match self {
            Entry::Must(_, want) | Entry::May(_, want) => *want,
        }
    }

    pub(crate) fn is_needed(&self) -> bool {
        match self {
            Entry::Must(_, _) => true,
            Entry::May(_, _) => false,
        }
    }
}

/// The key that names a form, empty where it is the only one; the word that has to stand there,
/// empty where any may; where a statement or an expression stands, as the sum of some of `BODY`,
/// `ACTION`, `STEP`, `LOOKING` and `LOADING`; its entries.
pub(crate) struct Form(
    pub &'static str,
    pub &'static str,
    pub u8,
    pub &'static [Entry],
);

pub(crate) const BODY: u8 = 1;

pub(crate) const ACTION: u8 = 2;

pub(crate) const STEP: u8 = 4;

/// In a memo, and in the key of a resource.
pub(crate) const LOOKING: u8 = 8;

/// In what a resource loads.
pub(crate) const LOADING: u8 = 16;

pub(crate) const ANYWHERE: u8 = 31;

pub(crate) const OUTSIDE: u8 = 6;

/// Where calls stand that look at cells and contexts.
pub(crate) const CALLING: u8 = 15;

/// Where calls stand that do more than to look.
pub(crate) const STATEMENTS: u8 = 7;
