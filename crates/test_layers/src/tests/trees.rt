//! What stands where a body answered no tree.

use rt_tree::{Element, LastRenderedNode, Parts, RenderError, VNode, fits};
use rt_values::OutOfMemory;
use std::alloc::Global;
use std::test::Fail;

/// An application of plain numbers.
#[derive(Drop)]
struct Numbers;

impl Parts for Numbers {
    type Component = u64;

    type Props = u64;

    type Value = u64;

    type Handler = u64;

    type TaskState = u64;

    type Effect = u64;

    type Payload = u64;
}

/// Whether what an answer shows is the placeholder, and fits.
fn is_placeholder(alloc: Global, answer: Element<Numbers>) -> Result<bool, OutOfMemory> {
    let placeholder = VNode::placeholder(alloc)?;
    let kept = LastRenderedNode::new(alloc, answer)?;
    let tree = kept.as_vnode();
    Ok(tree.same(&placeholder) & fits(tree) & (tree.template.roots().len() == 1))
}

#[test]
fn an_empty_answer_and_an_early_abort_show_a_placeholder(rt: HostRuntime) -> Result<(), Fail> {
    let alloc = rt.alloc();
    assert!(rt; is_placeholder(alloc, VNode::empty(alloc)?)?);
    let error = RenderError::aborted_early(alloc)?;
    let text = format!(in alloc; "{error}")?;
    assert_eq!(rt; text.as_str(), "Render aborted: Render aborted early");
    assert!(rt; is_placeholder(alloc, Err(error))?);
    Ok(())
}
