//! The lines of faults.
ghost use Rattle.std.specs.Prelude.{◌≡◌, ◌++◌, ◌∷◌, [], IfOk, OnOk, Some, codes, decimal, option_map};
ghost use Rattle.json.specs.Json.{no_members};
ghost use Rattle.json.specs.Token.{begin_object, key, number, string};
ghost use Rattle.json.specs.Tree.{json_tokens};
ghost use Rattle.rt_language.specs.Lines.{counter_text, line};
ghost use Rattle.rt_model.specs.State.{HookChanged, IdsExhausted, NoSuchTask};
ghost use Rattle.run_records.specs.Records.{counter_of};
ghost use Rattle.run_reports.specs.Seen.{fault_of};
ghost use Rattle.show_answers.specs.Told.{ToldFault};
ghost use Rattle.show_objects.specs.Objects.{counted, fault_json, fault_with, json_text, object_form};

use crate::object::Object;
use rt_values::{List, OutOfMemory};
use run_records::Counter;
use run_reports::Fault;
use std::alloc::Global;

/// The line of a fault. Want of memory and a failed sink have none.
pub fn fault_object(alloc: Global, fault: Fault) -> Result<Option<List<u8>>, OutOfMemory>
    ensures line { IfOk result (λ line. line
        ≡ option_map (λ fault. object_form (ToldFault fault)) (fault_of fault)) }
{
    match fault {
        Fault::OutOfMemory | Fault::SinkFault => Ok(None),
        Fault::OutOfTurns { units } => counted_line(alloc, 3, "OutOfTurns", "units", units),
        Fault::TooDeep { height } => counted_line(alloc, 4, "TooDeep", "height", height),
        Fault::IdsExhausted { what } => exhausted_line(alloc, what),
        Fault::HookChanged {
            scope,
            index,
            kept,
            asked,
        } => hook_line(alloc, scope.0, index, kept as u64, asked as u64),
        Fault::NoSuchTask { scope, task } => task_line(alloc, scope.0, task.0),
        Fault::BadNode { scope } => counted_line(alloc, 8, "BadNode", "scope", scope.0),
    }
}

/// The line of a fault that says one number.
fn counted_line(
    alloc: Global,
    which: u64,
    name: &str,
    member: &str,
    count: u64,
) -> Result<Option<List<u8>>, OutOfMemory>
    ensures line { IfOk result (λ ended. ended ≡ Some (line (json_text
        (fault_with which name.now (counted member.now count no_members))))) }
{
    let mut object = Object::new(alloc);
    put_counted(&mut object, which, name, member, count)?;
    Ok(Some(object.end()?))
}

/// The line of the fault that a counter is at its end.
fn exhausted_line(alloc: Global, what: Counter) -> Result<Option<List<u8>>, OutOfMemory>
    ensures line { IfOk result (λ ended. ended
        ≡ Some (object_form (ToldFault (IdsExhausted (counter_of what))))) }
{
    let mut object = Object::new(alloc);
    put_exhausted(&mut object, what)?;
    Ok(Some(object.end()?))
}

/// The line of the fault that a hook is of another kind than it was.
fn hook_line(
    alloc: Global,
    scope: u64,
    index: u64,
    kept: u64,
    asked: u64,
) -> Result<Option<List<u8>>, OutOfMemory>
    ensures line { IfOk result (λ ended. ended
        ≡ Some (object_form (ToldFault (HookChanged scope index kept asked)))) }
{
    let mut object = Object::new(alloc);
    put_hook(&mut object, scope, index, kept, asked)?;
    Ok(Some(object.end()?))
}

/// The line of the fault that a body waits for a task that isn't live.
fn task_line(alloc: Global, scope: u64, task: u64) -> Result<Option<List<u8>>, OutOfMemory>
    ensures line { IfOk result (λ ended. ended
        ≡ Some (object_form (ToldFault (NoSuchTask scope task)))) }
{
    let mut object = Object::new(alloc);
    put_task(&mut object, scope, task)?;
    Ok(Some(object.end()?))
}

/// Appends a fault that says one number.
fn put_counted(
    object: &mut Object,
    which: u64,
    name: &str,
    member: &str,
    count: u64,
) -> Result<(), OutOfMemory>
    ensures fault { OnOk result (object.new ≡ object.old
        ++ json_tokens (fault_with which name.now (counted member.now count no_members))) }
{
    begin_fault(object, which, name)?;
    object.counted(member, count)?;
    object.close()
}

/// Appends the fault that a counter is at its end.
fn put_exhausted(object: &mut Object, what: Counter) -> Result<(), OutOfMemory>
    ensures fault { OnOk result (object.new ≡ object.old
        ++ json_tokens (fault_json (IdsExhausted (counter_of what)))) }
{
    begin_fault(object, 5, "IdsExhausted")?;
    object.worded("what", counter_name(what))?;
    object.close()
}

/// Appends the fault that a hook is of another kind than it was.
fn put_hook(
    object: &mut Object,
    scope: u64,
    index: u64,
    kept: u64,
    asked: u64,
) -> Result<(), OutOfMemory>
    ensures fault { OnOk result (object.new ≡ object.old
        ++ json_tokens (fault_json (HookChanged scope index kept asked))) }
{
    begin_fault(object, 6, "HookChanged")?;
    object.counted("scope", scope)?;
    object.counted("index", index)?;
    object.counted("kept", kept)?;
    object.counted("asked", asked)?;
    object.close()
}

/// Appends the fault that a body waits for a task that isn't live.
fn put_task(object: &mut Object, scope: u64, task: u64) -> Result<(), OutOfMemory>
    ensures fault { OnOk result (object.new ≡ object.old
        ++ json_tokens (fault_json (NoSuchTask scope task))) }
{
    begin_fault(object, 7, "NoSuchTask")?;
    object.counted("scope", scope)?;
    object.counted("task", task)?;
    object.close()
}

/// Begins the object of a fault: its number and name.
fn begin_fault(object: &mut Object, which: u64, name: &str) -> Result<(), OutOfMemory>
    ensures begins { OnOk result (object.new ≡ object.old
        ++ begin_object ∷ key (codes "fault") ∷ number (decimal which)
        ∷ key (codes "name") ∷ string name.now ∷ []) }
{
    object.begin()?;
    object.counted("fault", which)?;
    object.worded("name", name)
}

/// The name of a counter.
fn counter_name(counter: Counter) -> &'static str
    ensures name { result.now ≡ counter_text (counter_of counter) }
{
    match counter {
        Counter::Scopes => "scopes",
        Counter::Tasks => "tasks",
        Counter::Cells => "cells",
        Counter::Contexts => "contexts",
        Counter::Elements => "elements",
        Counter::Errors => "errors",
        Counter::Renders => "renders",
    }
}
