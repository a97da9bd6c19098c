//! What is worth a value.

use rt_values::{Boxed, List, Text};

/// What a source may say outright.
#[derive(Debug, Drop)]
pub enum Literal {
    Number(i64),
    Text(Text),
}

/// What is worth a value. A variable is its place among those that are bound: the params first,
/// then each name in the order of binding.
#[derive(Debug, Drop)]
pub enum Expression {
    Say(Literal),
    /// The value of a variable.
    Get(u64),
    /// The value of the cell in a variable.
    Read(u64),
    /// The texts of the parts, joined.
    Cat(List<Expression>),
    Add(Boxed<Expression>, Boxed<Expression>),
    Multiply(Boxed<Expression>, Boxed<Expression>),
    Equal(Boxed<Expression>, Boxed<Expression>),
    Less(Boxed<Expression>, Boxed<Expression>),
    Not(Boxed<Expression>),
    IsAbsent(Boxed<Expression>),
    If {
        test: Boxed<Expression>,
        chosen: Boxed<Expression>,
        other: Boxed<Expression>,
    },
    Parse(Boxed<Expression>),
    /// What is provided of this kind.
    LookUp(u64),
    OwnScope,
    Generation,
    NearestError,
    Payload,
    Me,
}
