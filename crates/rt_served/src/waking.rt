//! Wakes, and what they turn.
ghost use Rattle.std.specs.Prelude.{◌≤◌, false, map};
ghost use Rattle.rt_served.specs.Stood.{AnsweredAs, AnswersAs, Keeping};

use crate::putting::put_pieces;
use crate::refusal::ServeFault;
use author_calls::App;
use rt_edits::NoOpMutations;
use rt_values::Task;
use rt_vdom::{TaskCalls, VirtualDom};
use run_turns::sum;
use show_streams::Out;
use std::alloc::Global;

/// Wakes a task and renders, and puts the pieces of what turned to its children. How many pieces
/// that were.
fn answer_wake<A: App, O: Out>(
    alloc: Global,
    dom: &mut VirtualDom<A>,
    task: Task,
    out: &mut O,
) -> Result<u64, ServeFault>
    ensures answers { (app : _) (limits : _) (props : _) (w : _) →
        Keeping (λ app. A.meaning app) app limits props false w dom.old →
        AnswersAs (λ app. A.meaning app) app limits props w task.0 dom.new
        (O.puts out.old) (O.puts out.new) (O.faults out.old) (O.faults out.new) result }
    ensures counted { O.faults out.old ≤ O.faults out.new }
{
    task.wake(dom)?;
    let mut nowhere = NoOpMutations;
    let turned = dom.render_suspense_immediate(&mut nowhere)?;
    put_pieces(alloc, dom, turned.as_slice(), out)
}

/// Wakes tasks one after another, and puts the pieces of what turned with each. How many pieces
/// that were.
pub(crate) fn answer_wakes<A: App, O: Out>(
    alloc: Global,
    dom: &mut VirtualDom<A>,
    wakes: &[Task],
    out: &mut O,
) -> Result<u64, ServeFault>
    ensures answers { (app : _) (limits : _) (props : _) (w : _) →
        Keeping (λ app. A.meaning app) app limits props false w dom.old →
        AnsweredAs (λ app. A.meaning app) app limits props w (map (λ task. task.0) wakes.now)
        dom.new (O.puts out.old) (O.puts out.new) (O.faults out.old) (O.faults out.new) result }
    ensures counted { O.faults out.old ≤ O.faults out.new }
{
    let mut count = 0u64;
    for task in wakes {
        let own = answer_wake(alloc, dom, *task, out)?;
        count = sum(count, own)?;
    }
    Ok(count)
}
