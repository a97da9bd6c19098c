//! Statements from JSON.
ghost use Rattle.std.specs.Prelude.{◌≡◌, ◌++◌, ◌∷◌, [], IfOk, Some, None, option_map};
ghost use Rattle.serde_json.specs.View.{view, items_view};
ghost use Rattle.lang_sources.specs.Readings.{binding_in, spawned_in, plain_in};
ghost use Rattle.lang_sources.specs.Reads.{WasTested, WasJoined};
ghost use Rattle.lang_sources.specs.Statements.{statement_of, when_of, block_of, block_in};

use crate::binding::{bind, binding, spawned};
use crate::forms::{Binder, Place, Plain, StatementForm, form_in, stands};
use crate::plain::plain_of;
use lang_expressions::{Names, expression_at, is_object_of, list_at};
use lang_syntax::{Expression, Statement};
use rt_values::{List, OutOfMemory, Text, both, copy_slice};
use serde_json::Value;
use std::alloc::Global;

/// One level more than JSON nests, so that nothing is refused for its levels here.
const LEVELS: u8 = 128;

/// A statement that binds no name.
fn unnamed(statement: Option<Statement>) -> Option<(Option<Text>, Statement)>
    ensures unnamed { result ≡ option_map (λ done. (None, done)) statement }
{
    match statement {
        Some(statement) => Some((None, statement)),
        None => None,
    }
}

/// A statement behind the name that it binds.
fn named(bound: Option<(Text, Statement)>) -> Option<(Option<Text>, Statement)>
    ensures named { result ≡ option_map (λ b. (Some b.0, b.1)) bound }
{
    match bound {
        Some((name, statement)) => Some((Some(name), statement)),
        None => None,
    }
}

fn bound_statement(
    alloc: Global,
    names: &Names,
    variables: &[Text],
    binder: Binder,
    value: &Value,
) -> Result<Option<(Option<Text>, Statement)>, OutOfMemory>
    ensures bound { IfOk result (λ read. read ≡ option_map (λ b. (Some b.0, b.1))
        (binding_in names.now variables.now binder (view value.now))) }
{
    Ok(named(binding(alloc, names, variables, binder, value)?))
}

fn spawning(
    alloc: Global,
    names: &Names,
    variables: &[Text],
    value: &Value,
) -> Result<Option<(Option<Text>, Statement)>, OutOfMemory>
    ensures spawning { IfOk result (λ read. read ≡ option_map (λ b. (Some b.0, b.1))
        (spawned_in names.now variables.now (view value.now))) }
{
    Ok(named(spawned(alloc, names, variables, value)?))
}

fn done_statement(
    alloc: Global,
    names: &Names,
    variables: &[Text],
    key: &str,
    plain: Plain,
    value: &Value,
) -> Result<Option<(Option<Text>, Statement)>, OutOfMemory>
    ensures done { IfOk result (λ read. read ≡ option_map (λ done. (None, done))
        (plain_in names.now variables.now key.now plain (view value.now))) }
{
    Ok(unnamed(plain_of(alloc, names, variables, key, plain, value)?))
}

/// What was read under a test, where the test was read too.
fn tested(
    read: Option<(Vec<Text>, Vec<Statement>)>,
    test: Result<Option<Expression>, OutOfMemory>,
) -> Result<Option<Statement>, OutOfMemory>
    ensures tested { IfOk result (λ when. WasTested (option_map (λ b. (b.0.items, b.1.items)) read) test when) }
{
    let Some(test) = test? else {
        return Ok(None);
    };
    let Some((_bound, statements)) = read else {
        return Ok(None);
    };
    Ok(Some(Statement::When {
        test,
        statements: List::from_vec(statements),
    }))
}

/// One more statement behind those so far.
fn pushed(statements: Vec<Statement>, one: Statement) -> Result<Vec<Statement>, OutOfMemory>
    ensures pushed { IfOk result (λ all. all.items ≡ statements.items ++ one ∷ []) }
{
    let mut all = statements;
    all.push(one)?;
    Ok(all)
}

/// One more statement behind those so far, and the names in reach behind it.
fn joined(
    variables: Vec<Text>,
    statements: Vec<Statement>,
    read: Result<Option<(Option<Text>, Statement)>, OutOfMemory>,
) -> Result<Option<(Vec<Text>, Vec<Statement>)>, OutOfMemory>
    ensures joined { IfOk result (λ more.
        WasJoined (variables.items, statements.items) read (option_map (λ b. (b.0.items, b.1.items)) more)) }
{
    match read? {
        Some((name, one)) => {
            let (bound, all) = both(bind(variables, name), pushed(statements, one))?;
            Ok(Some((bound, all)))
        }
        None => Ok(None),
    }
}

/// The statement that a value is, behind the name that it binds.
#[cycle(statement)]
#[tactic(auto, using(crate::proofs::Levels::statement_levels))]
fn statement(
    alloc: Global,
    levels: u8,
    names: &Names,
    place: Place,
    variables: &[Text],
    value: &Value,
) -> Result<Option<(Option<Text>, Statement)>, OutOfMemory>
    ensures statement { IfOk result (λ read. read
        ≡ statement_of levels names.now place variables.now (view value.now)) }
{
    if levels == 0 {
        return Ok(None);
    }
    let Some((key, form)) = form_in(value) else {
        return Ok(None);
    };
    if !stands(place, form) {
        return Ok(None);
    }
    match form {
        StatementForm::When => {
            let when = when_of(alloc, levels - 1, names, place, variables, value)?;
            Ok(unnamed(when))
        }
        StatementForm::Binds(binder) => bound_statement(alloc, names, variables, binder, value),
        StatementForm::Spawn => spawning(alloc, names, variables, value),
        StatementForm::Does(plain) => done_statement(alloc, names, variables, key, plain, value),
    }
}

/// A list of statements under a test. The names that it binds end with it.
#[cycle(statement)]
fn when_of(
    alloc: Global,
    levels: u8,
    names: &Names,
    place: Place,
    variables: &[Text],
    value: &Value,
) -> Result<Option<Statement>, OutOfMemory>
    ensures when { IfOk result (λ read. read
        ≡ when_of (block_of (statement_of levels names.now place)) names.now variables.now
        (view value.now)) }
{
    if !is_object_of(value, &["when", "do"]) {
        return Ok(None);
    }
    let Some(values) = list_at(value, "do") else {
        return Ok(None);
    };
    let inner = copy_slice(alloc, variables)?;
    let read = block(alloc, levels, names, place, inner, values)?;
    let test = expression_at(alloc, names, variables, value, "when");
    tested(read, test)
}

#[cycle(statement)]
fn block(
    alloc: Global,
    levels: u8,
    names: &Names,
    place: Place,
    variables: Vec<Text>,
    values: &[Value],
) -> Result<Option<(Vec<Text>, Vec<Statement>)>, OutOfMemory>
    ensures block { IfOk result (λ read. option_map (λ b. (b.0.items, b.1.items)) read
        ≡ block_of (statement_of levels names.now place) variables.items (items_view values.now)) }
{
    let mut variables = variables;
    let mut statements = Vec::new(alloc);
    for value in values {
        let read = statement(alloc, levels, names, place, &variables, value);
        let Some((bound, done)) = joined(variables, statements, read)? else {
            return Ok(None);
        };
        variables = bound;
        statements = done;
    }
    Ok(Some((variables, statements)))
}

/// The names in reach behind a list of statements that stands in a place, and the statements.
pub fn read_block(
    alloc: Global,
    names: &Names,
    place: Place,
    variables: Vec<Text>,
    values: &[Value],
) -> Result<Option<(Vec<Text>, Vec<Statement>)>, OutOfMemory>
    ensures block { IfOk result (λ read. option_map (λ b. (b.0.items, b.1.items)) read
        ≡ block_in names.now place variables.items (items_view values.now)) }
{
    block(alloc, LEVELS, names, place, variables, values)
}
