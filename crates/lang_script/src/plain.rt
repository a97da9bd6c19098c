//! The values of expressions that look at nothing.
ghost use Rattle.std.specs.Prelude.{◌≡◌, IfOk};
ghost use Rattle.rt_language.specs.Formulas as meanings;
ghost use Rattle.rt_language.specs.Values.{TextValue, texts_of};
ghost use Rattle.lang_syntax.specs.Mirror.{expression_of, arguments_of};

use crate::caller::held_by;
use crate::evaluation::said;
use lang_syntax::Expression;
use lang_views::{Content, Value, add, equal, is_absent, less, multiply, not, parse, put_text};
use rt_values::{OutOfMemory, Text};
use std::alloc::Global;

/// The value of an expression that looks at nothing, where the variables hold these values.
#[cycle(plain)]
#[tactic(auto, using(crate::proofs::Plainly::plainly))]
pub(crate) fn plain_value(
    alloc: Global,
    held: &[Value],
    expression: &Expression,
) -> Result<Value, OutOfMemory>
    ensures value { IfOk result (λ value. value
        ≡ meanings.plain_value held.now (expression_of expression.now)) }
{
    match expression {
        Expression::Say(literal) => said(alloc, literal),
        Expression::Get(variable) => held_by(alloc, held, *variable),
        Expression::Read(_) => Ok(Value::none()),
        Expression::Cat(parts) => Ok(plain_text(alloc, held, parts.as_slice())?),
        Expression::Add(left, right) => {
            let left = plain_value(alloc, held, left.get())?;
            let right = plain_value(alloc, held, right.get())?;
            Ok(add(&left, &right))
        }
        Expression::Multiply(left, right) => {
            let left = plain_value(alloc, held, left.get())?;
            let right = plain_value(alloc, held, right.get())?;
            Ok(multiply(&left, &right))
        }
        Expression::Equal(left, right) => {
            let left = plain_value(alloc, held, left.get())?;
            let right = plain_value(alloc, held, right.get())?;
            Ok(equal(&left, &right))
        }
        Expression::Less(left, right) => {
            let left = plain_value(alloc, held, left.get())?;
            let right = plain_value(alloc, held, right.get())?;
            Ok(less(&left, &right))
        }
        Expression::Not(operand) => Ok(not(&plain_value(alloc, held, operand.get())?)),
        Expression::IsAbsent(operand) => Ok(is_absent(&plain_value(alloc, held, operand.get())?)),
        Expression::Parse(operand) => Ok(parse(&plain_value(alloc, held, operand.get())?)),
        Expression::If {
            test,
            chosen,
            other,
        } => {
            if plain_value(alloc, held, test.get())?.is_true() {
                Ok(plain_value(alloc, held, chosen.get())?)
            } else {
                Ok(plain_value(alloc, held, other.get())?)
            }
        }
        Expression::LookUp(_) => Ok(Value::none()),
        Expression::OwnScope => Ok(Value::none()),
        Expression::Generation => Ok(Value::none()),
        Expression::NearestError => Ok(Value::none()),
        Expression::Payload => Ok(Value::none()),
        Expression::Me => Ok(Value::none()),
    }
}

/// The texts of such expressions, joined.
#[cycle(plain)]
#[tactic(auto, using(crate::proofs::Plainly::plainly))]
fn plain_text(alloc: Global, held: &[Value], parts: &[Expression]) -> Result<Value, OutOfMemory>
    ensures value { IfOk result (λ value. value
        ≡ TextValue (texts_of (meanings.plain_values held.now (arguments_of parts.now)))) }
{
    let mut text = String::new(alloc);
    for part in parts {
        let value = plain_value(alloc, held, part)?;
        put_text(&mut text, &value)?;
    }
    Ok(Value::new(Content::Text(Text::from_string(text))))
}
