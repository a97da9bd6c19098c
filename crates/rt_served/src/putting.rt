//! Putting a page, and the pieces of scopes.
ghost use Rattle.std.specs.Prelude.{◌≡◌, ◌≤◌, ◌∷◌, [], length, map, IfOk};
ghost use Rattle.rt_html.specs.Spelling.{are_namable};
ghost use Rattle.rt_model.specs.View as views;
ghost use Rattle.rt_served.specs.Serving.{are_spelt, is_spelt, page, piece, pieces};
ghost use Rattle.rt_served.specs.Stood.{PutsTexts};
ghost use Rattle.rt_vdom.specs.Doms.{StateIn};

use crate::refusal::ServeFault;
use author_calls::App;
use rt_html::{page_of, piece_of};
use rt_values::ScopeId;
use rt_vdom::VirtualDom;
use run_turns::sum;
use show_streams::Out;
use std::alloc::Global;

/// Puts the piece of a scope, where it is live. How many pieces that were.
fn put_piece<A: App, O: Out>(
    alloc: Global,
    dom: &VirtualDom<A>,
    scope: ScopeId,
    out: &mut O,
) -> Result<u64, ServeFault>
    ensures puts { (g : _) → PutsTexts (piece (StateIn g dom.now) scope.0)
        (is_spelt (StateIn g dom.now) scope.0)
        (O.puts out.old) (O.puts out.new) (O.faults out.old) (O.faults out.new) result }
    ensures counts { IfOk result (λ count. (g : _) →
        count ≡ length (piece (StateIn g dom.now) scope.0)) }
    ensures counted { O.faults out.old ≤ O.faults out.new }
{
    match dom.nodes_of(scope)? {
        None => Ok(0),
        Some(nodes) => {
            let text = piece_of(alloc, scope.0, nodes.as_slice())?;
            out.put(text.as_bytes())?;
            Ok(1)
        }
    }
}

/// Puts the pieces of those scopes that are live. How many pieces that were.
pub(crate) fn put_pieces<A: App, O: Out>(
    alloc: Global,
    dom: &VirtualDom<A>,
    scopes: &[ScopeId],
    out: &mut O,
) -> Result<u64, ServeFault>
    ensures puts { (g : _) → PutsTexts
        (pieces (StateIn g dom.now) (map (λ scope. scope.0) scopes.now))
        (are_spelt (StateIn g dom.now) (map (λ scope. scope.0) scopes.now))
        (O.puts out.old) (O.puts out.new) (O.faults out.old) (O.faults out.new) result }
    ensures counts { IfOk result (λ count. (g : _) →
        count ≡ length (pieces (StateIn g dom.now) (map (λ scope. scope.0) scopes.now))) }
    ensures counted { O.faults out.old ≤ O.faults out.new }
{
    let mut count = 0u64;
    for scope in scopes {
        let own = put_piece(alloc, dom, *scope, out)?;
        count = sum(count, own)?;
    }
    Ok(count)
}

/// Puts the page of what shows.
pub(crate) fn put_page<A: App, O: Out>(
    alloc: Global,
    dom: &VirtualDom<A>,
    out: &mut O,
) -> Result<(), ServeFault>
    ensures puts { (g : _) → PutsTexts (page (StateIn g dom.now) ∷ [])
        (are_namable (views.nodes_of (StateIn g dom.now) 0))
        (O.puts out.old) (O.puts out.new) (O.faults out.old) (O.faults out.new) result }
    ensures counted { O.faults out.old ≤ O.faults out.new }
{
    match dom.nodes_of(ScopeId(0))? {
        None => Err(ServeFault::OutOfMemory),
        Some(nodes) => {
            let text = page_of(alloc, nodes.as_slice())?;
            out.put(text.as_bytes())?;
            Ok(())
        }
    }
}
