//! Whether two trees without components stand alike: one template, and slots of one kind each.

ghost use Rattle.std.specs.Prelude.{◌≡◌, ◌+◌, [], true, IfOk, OnOk};
ghost use Rattle.rt_model.specs.Tree.{spots};
ghost use Rattle.tree_mirror.specs.Sealed.{tree_of};
ghost use Rattle.run_work.specs.Alike.{AlikeTree, AlikeTrees, AlikeValue, AlikeValues};

use rt_values::Part;
use run_places::LEVELS;
use tree_nodes::{DynamicNode, Parts, VNode};

// Two trees stand apart, or a component stands in one.
#[derive(Clone, Copy)]
struct Differs;

/// Whether two trees have one template, and slots of the same kinds, with no component in them. Then
/// the same stands in both. A template is compared once a tree. It takes no memory.
pub fn are_alike<P: Parts>(old: &VNode<P>, new: &VNode<P>) -> bool
    ensures { result ≡ true → spots [] (tree_of old.now) ≡ spots [] (tree_of new.now) }
{
    let Ok(()) = trees_alike(old, new, LEVELS) else {
        return false;
    };
    true
}

#[cycle(alike)]
fn trees_alike<P: Parts>(old: &VNode<P>, new: &VNode<P>, levels: u64) -> Result<(), Differs>
    ensures { OnOk result (AlikeTree old.now new.now) }
{
    let levels = below(levels)?;
    if !new.template.same(&old.template) {
        return Err(Differs);
    }
    let olds = old.dynamic_nodes.as_slice();
    let news = new.dynamic_nodes.as_slice();
    slots_alike(olds, news, levels)?;
    Ok(())
}

// Whether what stands in the slots of two trees is alike, slot by slot.
#[cycle(alike)]
fn slots_alike<P: Parts>(
    old: &[DynamicNode<P>],
    new: &[DynamicNode<P>],
    levels: u64,
) -> Result<(), Differs>
    ensures { OnOk result (AlikeValues old.now new.now) }
{
    let levels = below(levels)?;
    if old.len() != new.len() {
        return Err(Differs);
    }
    for index in 0..old.len() {
        values_alike(&old[index], &new[index], levels)?;
    }
    Ok(())
}

// Whether what stands in a slot is alike.
#[cycle(alike)]
fn values_alike<P: Parts>(
    old: &DynamicNode<P>,
    new: &DynamicNode<P>,
    levels: u64,
) -> Result<(), Differs>
    ensures { OnOk result (AlikeValue old.now new.now) }
{
    let levels = below(levels)?;
    match (old, new) {
        (DynamicNode::Text(_), DynamicNode::Text(_)) => Ok(()),
        (DynamicNode::Placeholder, DynamicNode::Placeholder) => Ok(()),
        (DynamicNode::Fragment(were), DynamicNode::Fragment(are)) => {
            let olds = were.as_slice();
            let news = are.as_slice();
            items_alike(olds, news, levels)?;
            Ok(())
        }
        _ => Err(Differs),
    }
}

// Whether the items of two fragments are alike, one by one.
#[cycle(alike)]
fn items_alike<P: Parts>(old: &[VNode<P>], new: &[VNode<P>], levels: u64) -> Result<(), Differs>
    ensures { OnOk result (AlikeTrees old.now new.now) }
{
    let levels = below(levels)?;
    if old.len() != new.len() {
        return Err(Differs);
    }
    for index in 0..old.len() {
        trees_alike(&old[index], &new[index], levels)?;
    }
    Ok(())
}

// One level further down, where there is one.
fn below(levels: u64) -> Result<u64, Differs>
    ensures { IfOk result (λ below. below + 1 ≡ levels) }
{
    if levels == 0 {
        return Err(Differs);
    }
    Ok(levels - 1)
}
