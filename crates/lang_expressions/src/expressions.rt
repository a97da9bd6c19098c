//! Expressions from JSON.
ghost use Rattle.std.specs.Prelude.{◌≡◌, IfOk, option_map, option_and_then};
ghost use Rattle.serde_json.specs.View.{view, items_view};
ghost use Rattle.serde_json.specs.Find.{as_str};
ghost use Rattle.lang_expressions.specs.Lists.{read_each};
ghost use Rattle.lang_expressions.specs.Names.{place_of};
ghost use Rattle.lang_expressions.specs.Expressions.{expression_of, formed, row, expression_in};

use crate::context_keys::ContextKeys;
use crate::fields::is_zero;
use crate::forms::{Form, form_of};
use crate::keys::only_member;
use crate::names::place_of;
use crate::operands::{chosen, paired, said, single_of};
use crate::signatures::Names;
use lang_syntax::{Expression, Literal};
use rt_values::{List, OutOfMemory, Text};
use serde_json::Value;
use std::alloc::Global;

/// One level more than JSON nests, so that nothing is refused for its levels here.
const LEVELS: u8 = 128;

#[cycle(expression)]
#[tactic(auto, using(crate::proofs::Reading::expression_levels))]
fn expression(
    alloc: Global,
    levels: u8,
    names: &Names,
    variables: &[Text],
    value: &Value,
) -> Result<Option<Expression>, OutOfMemory>
    ensures expression { IfOk result (λ read.
        read ≡ expression_of levels names.now variables.now (view value.now)) }
{
    if levels == 0 {
        return Ok(None);
    }
    if let Some(text) = value.as_str() {
        let text = Text::from_str(alloc, text)?;
        return Ok(Some(Expression::Say(Literal::Text(text))));
    }
    if let Some(number) = value.as_i64() {
        return Ok(Some(Expression::Say(Literal::Number(number))));
    }
    let Some((key, operand)) = only_member(value) else {
        return Ok(None);
    };
    let Some(form) = form_of(key) else {
        return Ok(None);
    };
    formed(alloc, levels - 1, names, variables, form, operand)
}

#[cycle(expression)]
fn formed(
    alloc: Global,
    levels: u8,
    names: &Names,
    variables: &[Text],
    form: Form,
    value: &Value,
) -> Result<Option<Expression>, OutOfMemory>
    ensures formed { IfOk result (λ read. read
        ≡ formed (expression_of levels names.now variables.now) names.now variables.now form
        (view value.now)) }
{
    match form {
        Form::Get => Ok(place(variables, value).map(Expression::Get)),
        Form::Read => Ok(place(variables, value).map(Expression::Read)),
        Form::LookUp => Ok(kind(&names.kinds, value).map(Expression::LookUp)),
        Form::Said(word) => {
            if is_zero(value) {
                Ok(Some(said(word)))
            } else {
                Ok(None)
            }
        }
        Form::One(single) => {
            let Some(operand) = expression(alloc, levels, names, variables, value)? else {
                return Ok(None);
            };
            Ok(Some(single_of(alloc, single, operand)?))
        }
        Form::Cat | Form::If | Form::Two(_) => { row(alloc, levels, names, variables, form, value) }
    }
}

#[cycle(expression)]
fn row(
    alloc: Global,
    levels: u8,
    names: &Names,
    variables: &[Text],
    form: Form,
    value: &Value,
) -> Result<Option<Expression>, OutOfMemory>
    ensures row { IfOk result (λ read. read
        ≡ row (expression_of levels names.now variables.now) form (view value.now)) }
{
    let Some(values) = value.as_array() else {
        return Ok(None);
    };
    let Some(operands) = expressions(alloc, levels, names, variables, values)? else {
        return Ok(None);
    };
    match form {
        Form::Cat => Ok(Some(Expression::Cat(List::from_vec(operands)))),
        Form::If => chosen(alloc, operands),
        Form::Two(pair) => paired(alloc, pair, operands),
        _ => Ok(None),
    }
}

/// The place of the name that a text is.
fn place(names: &[Text], value: &Value) -> Option<u64>
    ensures place { result ≡ option_and_then (place_of names.now) (as_str (view value.now)) }
{
    let name = value.as_str()?;
    place_of(names, name)
}

/// The kind of the key that a text is.
fn kind(kinds: &ContextKeys, value: &Value) -> Option<u64>
    ensures kind { result ≡ option_and_then (place_of kinds.now) (as_str (view value.now)) }
{
    let name = value.as_str()?;
    kinds.place_of(name)
}

#[cycle(expression)]
fn expressions(
    alloc: Global,
    levels: u8,
    names: &Names,
    variables: &[Text],
    values: &[Value],
) -> Result<Option<Vec<Expression>>, OutOfMemory>
    ensures expressions { IfOk result (λ read. option_map (λ kept. kept.items) read
        ≡ read_each (expression_of levels names.now variables.now) (items_view values.now)) }
{
    let mut read = Vec::new(alloc);
    for value in values {
        let Some(one) = expression(alloc, levels, names, variables, value)? else {
            return Ok(None);
        };
        read.push(one)?;
    }
    Ok(Some(read))
}

/// The expression that a value is, with these variables in reach.
pub fn read_expression(
    alloc: Global,
    names: &Names,
    variables: &[Text],
    value: &Value,
) -> Result<Option<Expression>, OutOfMemory>
    ensures expression { IfOk result (λ read.
        read ≡ expression_in names.now variables.now (view value.now)) }
{
    expression(alloc, LEVELS, names, variables, value)
}

/// The expressions that the values of a list are, where each is one.
pub fn read_expressions(
    alloc: Global,
    names: &Names,
    variables: &[Text],
    values: &[Value],
) -> Result<Option<Vec<Expression>>, OutOfMemory>
    ensures expressions { IfOk result (λ read. option_map (λ kept. kept.items) read
        ≡ read_each (expression_in names.now variables.now) (items_view values.now)) }
{
    expressions(alloc, LEVELS, names, variables, values)
}
