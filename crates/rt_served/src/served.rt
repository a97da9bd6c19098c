//! A page in pieces.
ghost use Rattle.std.specs.Prelude.{◌≡◌, ◌≤◌, map, IfErr, IfOk};
ghost use Rattle.run_reports.specs.Seen.{limits_of};
ghost use Rattle.rt_served.specs.Faults.{CausedBy};
ghost use Rattle.rt_served.specs.Serving.{ComesTo, IsServable, IsUnspelt, ServesAll, ServesPart};
ghost use Rattle.rt_served.specs.declared.refusal.ServeFault.TheVariants as faults;

use crate::opening::open_page;
use crate::refusal::ServeFault;
use crate::waking::answer_wakes;
use author_calls::App;
use rt_values::{List, Task};
use rt_vdom::VirtualDom;
use run_reports::Limits;
use show_streams::Out;
use std::alloc::Global;

/// Builds an application, renders while suspended, and puts the page; then with each wake the pieces
/// of the boundaries that turned to their children. The count of these pieces.
pub fn serve<A: App, O: Out>(
    alloc: Global,
    app: A,
    props: A::Props,
    wakes: List<Task>,
    out: &mut O,
    limits: Limits,
) -> Result<u64, ServeFault>
    // All was put.
    ensures served { IfOk result (λ count. ServesAll (A.meaning app) (limits_of limits) props
        (map (λ task. task.0) wakes) (O.puts out.old) (O.puts out.new) count) }
    // Before a fault of the run what is served with a front of the wakes was put, whole; before
    // another one a front of that.
    ensures part { IfErr result (λ fault. ServesPart (A.meaning app) (limits_of limits) props
        (map (λ task. task.0) wakes) (O.puts out.old) (O.puts out.new) fault) }
    // Each fault but want of memory has its cause.
    ensures cause { IfErr result (λ fault. CausedBy limits
        (λ f. ComesTo (A.meaning app) (limits_of limits) props (map (λ task. task.0) wakes) f)
        (IsUnspelt (A.meaning app) (limits_of limits) props (map (λ task. task.0) wakes))
        (O.faults out.old) (O.faults out.new) fault) }
    // Where none of these causes is there, none of them comes.
    ensures completes { IsServable (A.meaning app) (limits_of limits) props
        (map (λ task. task.0) wakes) → O.faults out.new ≤ O.faults out.old →
        IfErr result (λ fault. fault ≡ faults.OutOfMemory) }
    ensures counted { O.faults out.old ≤ O.faults out.new }
{
    let mut dom = VirtualDom::new_with_props(alloc, app, props, limits)?;
    open_page(alloc, &mut dom, out)?;
    answer_wakes(alloc, &mut dom, wakes.as_slice(), out)
}
