//! Makes a source ready to run. What the source holds is moved, not copied, but for the static
//! parts of its templates.
ghost use Rattle.std.specs.Prelude.{◌≡◌, ◌∷◌, IfOk, OnOk, is_none, map};
ghost use Rattle.rt_language.specs.Syntax as language;
ghost use Rattle.rt_language.specs.Views as views;
ghost use Rattle.lang_syntax.specs.Mirror as source;
ghost use Rattle.lang_views.specs.Plans.{planned, slot_program, tree_with};
ghost use Rattle.lang_views.specs.Meant.{slot_of, view_meant, view_filled, attributes_filled, slot_filled, filled_by, then_filled, plan_meant, component_meant};

use crate::plan::{ComponentPlan, Fill, Plan, SlotPlan};
use crate::templates::template_of;
use lang_syntax::{ComponentSource, ViewAttribute, ViewNode, ViewSlot};
use rt_values::{Boxed, List, OutOfMemory};
use std::alloc::Global;
use tree_nodes::Template;

/// The components made ready, in order.
pub fn component_plans(
    alloc: Global,
    components: List<ComponentSource>,
) -> Result<List<ComponentPlan>, OutOfMemory>
    ensures plans { IfOk result (λ plans.
        map plan_meant plans ≡ map component_meant (map source.component_of components)) }
{
    let mut plans = List::new(alloc);
    for component in components.into_vec() {
        let plan = component_plan(alloc, component)?;
        plans.push(plan)?;
    }
    Ok(plans)
}

/// One component made ready.
fn component_plan(alloc: Global, component: ComponentSource) -> Result<ComponentPlan, OutOfMemory>
    ensures plan { IfOk result (λ plan.
        plan_meant plan ≡ component_meant (source.component_of component)) }
{
    let ComponentSource { statements, view } = component;
    let view = plan_of(alloc, u64::MAX, view)?;
    Ok(ComponentPlan { statements, view })
}

/// A list of view nodes made ready, where nodes are nested in so many levels at most. There is no
/// memory for more than the greatest number of them.
#[cycle(planning)]
fn plan_of(alloc: Global, levels: u64, nodes: List<ViewNode>) -> Result<Plan, OutOfMemory>
    ensures plan { IfOk result (λ plan. planned plan ≡ view_meant (source.view_of nodes)) }
{
    let template = template_for(alloc, nodes.as_slice())?;
    let mut fills = List::new(alloc);
    plan_nodes(alloc, levels, &mut fills, nodes)?;
    Ok(Plan { template, fills })
}

/// The template of a list of view nodes, none where there is no node.
fn template_for(alloc: Global, nodes: &[ViewNode]) -> Result<Option<Template>, OutOfMemory>
    ensures empty { IfOk result (λ template. is_none template ≡ views.is_empty (source.view_of nodes.now)) }
    ensures tree { IfOk result (λ template. (filling : views.Filling) →
        tree_with template filling ≡ views.tree_with (source.view_of nodes.now) filling) }
{
    if nodes.is_empty() {
        Ok(None)
    } else {
        Ok(Some(template_of(alloc, nodes)?))
    }
}

/// The same in a place of its own.
#[cycle(planning)]
fn boxed_plan(alloc: Global, levels: u64, nodes: List<ViewNode>) -> Result<Boxed<Plan>, OutOfMemory>
    ensures plan { IfOk result (λ plan. planned plan ≡ view_meant (source.view_of nodes)) }
{
    let plan = plan_of(alloc, levels, nodes)?;
    Boxed::new(alloc, plan)
}

/// Appends what fills the slots of these nodes.
#[cycle(planning)]
fn plan_nodes(
    alloc: Global,
    levels: u64,
    fills: &mut List<Fill>,
    nodes: List<ViewNode>,
) -> Result<(), OutOfMemory>
    ensures filled { OnOk result (
        filled_by fills.new ≡ then_filled (filled_by fills.old) (view_filled (source.view_of nodes))) }
{
    for node in nodes.into_vec() {
        plan_node(alloc, levels, fills, node)?;
    }
    Ok(())
}

/// Appends what fills the slots of a node, before those of the nodes that come after it.
#[cycle(planning)]
fn plan_node(
    alloc: Global,
    levels: u64,
    fills: &mut List<Fill>,
    node: ViewNode,
) -> Result<(), OutOfMemory>
    ensures filled { OnOk result ((rest : language.View) →
        then_filled (filled_by fills.new) (view_filled rest)
        ≡ then_filled (filled_by fills.old) (view_filled (source.node_before node rest))) }
{
    if levels == 0 {
        return Err(OutOfMemory);
    }
    match node {
        ViewNode::Text(_text) => Ok(()),
        ViewNode::Element {
            tag: _tag,
            namespace: _namespace,
            attributes,
            kids,
        } => {
            plan_attributes(fills, attributes)?;
            plan_nodes(alloc, levels - 1, fills, kids)?;
            Ok(())
        }
        ViewNode::Slot(slot) => {
            let slot = plan_slot(alloc, levels - 1, slot)?;
            fills.push(Fill::Node(slot))?;
            Ok(())
        }
    }
}

/// Appends what fills the attribute slots of an element.
fn plan_attributes(
    fills: &mut List<Fill>,
    attributes: List<ViewAttribute>,
) -> Result<(), OutOfMemory>
    ensures filled { OnOk result (filled_by fills.new
        ≡ then_filled (filled_by fills.old) (attributes_filled (map source.attribute_of attributes))) }
{
    for attribute in attributes.into_vec() {
        plan_attribute(fills, attribute)?;
    }
    Ok(())
}

/// Appends what fills the slot of an attribute, before those of the attributes that come after it.
fn plan_attribute(fills: &mut List<Fill>, attribute: ViewAttribute) -> Result<(), OutOfMemory>
    ensures filled { OnOk result ((rest : _) → then_filled (filled_by fills.new) (attributes_filled rest)
        ≡ then_filled (filled_by fills.old) (attributes_filled (source.attribute_of attribute ∷ rest))) }
{
    match attribute {
        ViewAttribute::Static {
            name: _name,
            value: _value,
        } => Ok(()),
        ViewAttribute::Slot { name, value } => {
            fills.push(Fill::Attribute { name, value })?;
            Ok(())
        }
        ViewAttribute::Listener {
            name,
            action,
            arguments,
        } => {
            fills.push(Fill::Listener {
                name,
                action,
                arguments,
            })?;
            Ok(())
        }
    }
}

/// What fills a node slot.
#[cycle(planning)]
fn plan_slot(alloc: Global, levels: u64, slot: ViewSlot) -> Result<SlotPlan, OutOfMemory>
    ensures plan { IfOk result (λ plan. slot_program plan ≡ slot_filled (slot_of slot)) }
{
    match slot {
        ViewSlot::TextOf(text) => Ok(SlotPlan::TextOf(text)),
        ViewSlot::UseOf(component) => Ok(SlotPlan::UseOf(component)),
        ViewSlot::ListOf { count, item } => {
            let item = boxed_plan(alloc, levels, item)?;
            Ok(SlotPlan::ListOf { count, item })
        }
        ViewSlot::PickOf {
            test,
            chosen,
            other,
        } => {
            let chosen = boxed_plan(alloc, levels, chosen)?;
            let other = boxed_plan(alloc, levels, other)?;
            Ok(SlotPlan::PickOf {
                test,
                chosen,
                other,
            })
        }
        ViewSlot::FragmentOf(children) => {
            let children = boxed_plan(alloc, levels, children)?;
            Ok(SlotPlan::FragmentOf(children))
        }
        ViewSlot::ErrorBoundaryOf { kids, handler } => {
            let kids = boxed_plan(alloc, levels, kids)?;
            Ok(SlotPlan::ErrorBoundaryOf { kids, handler })
        }
        ViewSlot::SuspenseBoundaryOf { kids, fallback } => {
            let kids = boxed_plan(alloc, levels, kids)?;
            Ok(SlotPlan::SuspenseBoundaryOf { kids, fallback })
        }
        ViewSlot::Hole => Ok(SlotPlan::Hole),
    }
}
