//! The page: the application is built and rendered, and what shows then is put.
ghost use Rattle.std.specs.Prelude.{◌≤◌, []};
ghost use Rattle.rt_model.specs.Replay.{ones};
ghost use Rattle.rt_served.specs.Stood.{OpensAs};
ghost use Rattle.rt_vdom.specs.Doms.{IsStarted};

use crate::putting::put_page;
use crate::refusal::ServeFault;
use author_calls::App;
use rt_edits::NoOpMutations;
use rt_vdom::VirtualDom;
use show_streams::Out;
use std::alloc::Global;

/// Builds an application and renders while suspended, and puts the page of what shows then.
pub(crate) fn open_page<A: App, O: Out>(
    alloc: Global,
    dom: &mut VirtualDom<A>,
    out: &mut O,
) -> Result<(), ServeFault>
    ensures opens { (app : _) (limits : _) (props : _) →
        IsStarted (λ app. A.meaning app) app props ones [] limits dom.old →
        OpensAs (λ app. A.meaning app) app limits props dom.new
        (O.puts out.old) (O.puts out.new) (O.faults out.old) (O.faults out.new) result }
    ensures counted { O.faults out.old ≤ O.faults out.new }
{
    dom.rebuild_in_place()?;
    let mut nowhere = NoOpMutations;
    dom.render_suspense_immediate(&mut nowhere)?;
    put_page(alloc, dom, out)
}
