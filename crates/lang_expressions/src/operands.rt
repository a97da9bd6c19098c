//! Expressions from operands that are read.
ghost use Rattle.std.specs.Prelude.{◌≡◌, IfOk, Some};
ghost use Rattle.lang_expressions.specs.Forms.{said, pair_of, paired, single_of, chosen};

use crate::forms::{Pair, Single, Word};
use lang_syntax::Expression;
use rt_values::{Boxed, OutOfMemory};
use std::alloc::Global;

/// What a word says.
pub fn said(word: Word) -> Expression
    ensures said { result ≡ said word }
{
    match word {
        Word::OwnScope => Expression::OwnScope,
        Word::Generation => Expression::Generation,
        Word::NearestError => Expression::NearestError,
        Word::Payload => Expression::Payload,
        Word::Me => Expression::Me,
    }
}

fn pair_of(pair: Pair, left: Boxed<Expression>, right: Boxed<Expression>) -> Expression
    ensures pair { result ≡ pair_of pair left right }
{
    match pair {
        Pair::Add => Expression::Add(left, right),
        Pair::Multiply => Expression::Multiply(left, right),
        Pair::Equal => Expression::Equal(left, right),
        Pair::Less => Expression::Less(left, right),
    }
}

/// Two operands, joined.
pub fn paired(
    alloc: Global,
    pair: Pair,
    operands: Vec<Expression>,
) -> Result<Option<Expression>, OutOfMemory>
    ensures paired { IfOk result (λ joined. joined ≡ paired pair (Some operands.items)) }
{
    let mut operands = operands;
    if operands.len() != 2 {
        return Ok(None);
    }
    let (Some(right), Some(left)) = (operands.pop(), operands.pop()) else {
        return Ok(None);
    };
    let left = Boxed::new(alloc, left)?;
    let right = Boxed::new(alloc, right)?;
    Ok(Some(pair_of(pair, left, right)))
}

/// A test and what is chosen by it.
pub fn chosen(alloc: Global, operands: Vec<Expression>) -> Result<Option<Expression>, OutOfMemory>
    ensures chosen { IfOk result (λ choice. choice ≡ chosen (Some operands.items)) }
{
    let mut operands = operands;
    if operands.len() != 3 {
        return Ok(None);
    }
    let (Some(other), Some(chosen), Some(test)) = (operands.pop(), operands.pop(), operands.pop())
    else {
        return Ok(None);
    };
    Ok(Some(Expression::If {
        test: Boxed::new(alloc, test)?,
        chosen: Boxed::new(alloc, chosen)?,
        other: Boxed::new(alloc, other)?,
    }))
}

/// What is done with one operand.
pub fn single_of(
    alloc: Global,
    single: Single,
    operand: Expression,
) -> Result<Expression, OutOfMemory>
    ensures single { IfOk result (λ made. made ≡ single_of single operand) }
{
    let operand = Boxed::new(alloc, operand)?;
    match single {
        Single::Not => Ok(Expression::Not(operand)),
        Single::IsAbsent => Ok(Expression::IsAbsent(operand)),
        Single::Parse => Ok(Expression::Parse(operand)),
    }
}
