//! Which expressions only look.
ghost use Rattle.std.specs.Prelude.{◌≡◌};
ghost use Rattle.rt_language.specs.Formulas as meanings;
ghost use Rattle.lang_syntax.specs.Looking.{derived_looks};
ghost use Rattle.lang_syntax.specs.Expressions.{expression_of, arguments_of};

use crate::derived::Derived;
use crate::expression::Expression;

/// Whether an expression only looks: it names no error, payload, render count, scope or task, and
/// reads of cells and contexts where it may.
#[cycle(looking)]
#[tactic(auto, using(crate::proofs::Looking::looking))]
pub fn looks(may: bool, expression: &Expression) -> bool
    ensures { result ≡ meanings.looks may (expression_of expression.now) }
{
    match expression {
        Expression::Say(_) => true,
        Expression::Get(_) => true,
        Expression::Read(_) => may,
        Expression::Cat(parts) => all_look(may, parts.as_slice()),
        Expression::Add(left, right) => looks(may, left.get()) && looks(may, right.get()),
        Expression::Multiply(left, right) => looks(may, left.get()) && looks(may, right.get()),
        Expression::Equal(left, right) => looks(may, left.get()) && looks(may, right.get()),
        Expression::Less(left, right) => looks(may, left.get()) && looks(may, right.get()),
        Expression::Not(operand) => looks(may, operand.get()),
        Expression::IsAbsent(operand) => looks(may, operand.get()),
        Expression::If {
            test,
            chosen,
            other,
        } => looks(may, test.get()) && looks(may, chosen.get()) && looks(may, other.get()),
        Expression::Parse(operand) => looks(may, operand.get()),
        Expression::LookUp(_) => may,
        Expression::OwnScope => false,
        Expression::Generation => false,
        Expression::NearestError => false,
        Expression::Payload => false,
        Expression::Me => false,
    }
}

/// Whether all of some do.
#[cycle(looking)]
#[tactic(auto, using(crate::proofs::Looking::looking))]
fn all_look(may: bool, expressions: &[Expression]) -> bool
    ensures { result ≡ meanings.all_look may (arguments_of expressions.now) }
{
    for expression in expressions {
        if !looks(may, expression) {
            return false;
        }
    }
    true
}

/// Whether a value or a key only looks, and what is loaded names no cell and no context besides.
pub fn derived_looks(derived: &Derived) -> bool
    ensures { result ≡ derived_looks derived.now }
{
    match derived {
        Derived::Value(value) => looks(true, value),
        Derived::Load { key, value, .. } => looks(true, key) && looks(false, value),
    }
}
