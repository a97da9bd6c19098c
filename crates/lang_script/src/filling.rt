//! Trees: a copy of a template, and what its slots are filled with.
ghost use Rattle.std.specs.Prelude.{◌≡◌, ◌≤◌, ◌++◌, ◌∷◌, [], IfOk, OnOk, map, option_map, pos};
ghost use Rattle.rt_model.specs.Program.{done};
ghost use Rattle.tree_mirror.specs.Mirror.{trees_from};
ghost use Rattle.tree_mirror.specs.Sealed as mirror;
ghost use Rattle.run_records.specs.Records.{world_of};
ghost use Rattle.rt_language.specs.Sequence.{go_on};
ghost use Rattle.rt_language.specs.Values.{NumberValue};
ghost use Rattle.rt_language.specs.Views as views;
ghost use Rattle.rt_language.specs.Views.{filled_on, items_from, use_or_none};
ghost use Rattle.lang_syntax.specs.Mirror.{use_of};
ghost use Rattle.lang_views.specs.Plans.{planned, fill_of, slot_program};
ghost use Rattle.lang_views.specs.declared.plan.SlotPlan.TheVariants as plans;
ghost use Rattle.lang_script.specs.Fills.{filling_of};
ghost use Rattle.author_bodies.specs.Comes.{Comes};
ghost use Rattle.lang_script.specs.Seen.{caller_of, SeesRenders};

use crate::attributes::{attribute_value, slot_with};
use crate::caller::Frame;
use crate::evaluation::{evaluate, evaluate_all, props_of};
use crate::rounds::{error_boundary, fragment, suspense_boundary};
use crate::script::Script;
use author_calls::BodyCx;
use lang_syntax::ComponentUse;
use lang_views::{Content, Doing, Fill, Plan, Props, SlotPlan, Value, into_text, item_count};
use rt_values::{List, OutOfMemory, Shared, both};
use std::alloc::Global;
use tree_nodes::{Attribute, AttributeValue, DynamicNode, Template, VComponent, VNode};

/// What the slots of a template are filled with, by number.
#[derive(Drop)]
pub(crate) struct Filling {
    pub attributes: List<List<Attribute<Script>>>,
    pub nodes: List<DynamicNode<Script>>,
}

/// The tree of a view.
#[cycle(filling)]
#[tactic(auto, using(crate::proofs::Fills::filling))]
pub(crate) fn tree_of(
    alloc: Global,
    cx: &mut BodyCx<'_, Script>,
    frame: &mut Frame<'_>,
    plan: &Plan,
) -> Result<VNode<Script>, OutOfMemory>
    requires renders { SeesRenders (world_of cx.old.world) frame.old.by }
    ensures came { IfOk result (λ tree. Comes cx.old cx.new
        ((planned plan.now).tree (caller_of frame.old.by) frame.old.held) (mirror.tree_of tree)) }
    ensures world { cx.new.world ≡ cx.old.world }
    ensures frame { OnOk result (frame.new ≡ frame.old) }
{
    let (attributes, nodes) = slots_in(&plan.template);
    let mut filling = Filling {
        attributes: List::with_room(alloc, attributes)?,
        nodes: List::with_room(alloc, nodes)?,
    };
    for fill in plan.fills.as_slice() {
        put(alloc, cx, frame, &mut filling, fill)?;
    }
    match &plan.template {
        None => Ok(VNode::placeholder(alloc)?),
        Some(template) => {
            let tree = filled_tree(alloc, template, filling)?;
            Ok(tree)
        }
    }
}

/// How many attribute slots and node slots a template has, if there is one.
fn slots_in(template: &Option<Template>) -> (usize, usize) {
    match template {
        Some(template) => (template.attr_paths().len(), template.node_paths().len()),
        None => (0, 0),
    }
}

/// The tree of a template whose slots are filled so.
fn filled_tree(
    alloc: Global,
    template: &Template,
    filling: Filling,
) -> Result<VNode<Script>, OutOfMemory>
    ensures tree { IfOk result (λ tree. tree ≡ record {
      template = template.now;
      dynamic_nodes = filling.nodes;
      dynamic_attrs = filling.attributes;
    }) }
{
    let Filling { attributes, nodes } = filling;
    let attributes = Shared::from_list(alloc, attributes);
    let slots = both(Shared::from_list(alloc, nodes), attributes);
    let (template, (dynamic_nodes, dynamic_attrs)) = both(template.copy(alloc), slots)?;
    Ok(VNode {
        template,
        dynamic_nodes,
        dynamic_attrs,
    })
}

/// Fills the next slot.
#[cycle(filling)]
#[tactic(auto, using(crate::proofs::Fills::filling))]
fn put(
    alloc: Global,
    cx: &mut BodyCx<'_, Script>,
    frame: &mut Frame<'_>,
    filling: &mut Filling,
    fill: &Fill,
) -> Result<(), OutOfMemory>
    requires renders { SeesRenders (world_of cx.old.world) frame.old.by }
    ensures came { OnOk result (Comes cx.old cx.new
        (go_on (fill_of fill.now (caller_of frame.old.by) frame.old.held) (λ more. done (filled_on (filling_of filling.old) more)))
        (filling_of filling.new)) }
    ensures world { cx.new.world ≡ cx.old.world }
    ensures frame { OnOk result (frame.new ≡ frame.old) }
{
    match fill {
        Fill::Attribute { name, value } => {
            let value = evaluate(alloc, cx, frame, value)?;
            let value = attribute_value(alloc, value)?;
            filling.attributes.push(slot_with(alloc, name, value)?)?;
        }
        Fill::Listener {
            name,
            action,
            arguments,
        } => {
            let arguments = evaluate_all(alloc, cx, frame, arguments.as_slice())?;
            let listener = cx.listener(Doing::new(*action, arguments));
            let value = AttributeValue::Listener(listener);
            filling.attributes.push(slot_with(alloc, name, value)?)?;
        }
        Fill::Node(slot) => {
            let node = node_of(alloc, cx, frame, slot)?;
            filling.nodes.push(node)?;
        }
    }
    Ok(())
}

/// What stands in a node slot.
#[cycle(filling)]
#[tactic(auto, using(crate::proofs::Fills::filling))]
fn node_of(
    alloc: Global,
    cx: &mut BodyCx<'_, Script>,
    frame: &mut Frame<'_>,
    slot: &SlotPlan,
) -> Result<DynamicNode<Script>, OutOfMemory>
    requires renders { SeesRenders (world_of cx.old.world) frame.old.by }
    ensures came { IfOk result (λ node. Comes cx.old cx.new
        (slot_program slot.now (caller_of frame.old.by) frame.old.held) (mirror.slot_of node)) }
    ensures world { cx.new.world ≡ cx.old.world }
    ensures frame { OnOk result (frame.new ≡ frame.old) }
{
    match slot {
        SlotPlan::TextOf(text) => {
            let value = evaluate(alloc, cx, frame, text)?;
            Ok(DynamicNode::Text(into_text(alloc, value)?))
        }
        SlotPlan::ListOf { count, item } => {
            let count = item_count(&evaluate(alloc, cx, frame, count)?);
            let trees = items(alloc, cx, frame, count, item.get())?;
            Ok(DynamicNode::Fragment(trees))
        }
        SlotPlan::PickOf {
            test,
            chosen,
            other,
        } => {
            if evaluate(alloc, cx, frame, test)?.is_true() {
                Ok(picked(alloc, cx, frame, chosen.get())?)
            } else {
                Ok(picked(alloc, cx, frame, other.get())?)
            }
        }
        SlotPlan::UseOf(used) => Ok(used_node(alloc, cx, frame, used)?),
        SlotPlan::FragmentOf(children) => { Ok(fragment_node(alloc, cx, frame, children.get())?) }
        SlotPlan::ErrorBoundaryOf { kids, handler } => {
            Ok(errors_node(alloc, cx, frame, kids.get(), handler)?)
        }
        SlotPlan::SuspenseBoundaryOf { kids, fallback } => {
            Ok(waits_node(alloc, cx, frame, kids.get(), fallback)?)
        }
        SlotPlan::Hole => Ok(DynamicNode::Placeholder),
    }
}

/// A component with the values of what it is handed.
#[tactic(auto, using(crate::proofs::Fills::filling))]
fn used_node(
    alloc: Global,
    cx: &mut BodyCx<'_, Script>,
    frame: &Frame<'_>,
    used: &ComponentUse,
) -> Result<DynamicNode<Script>, OutOfMemory>
    requires renders { SeesRenders (world_of cx.old.world) frame.now.by }
    ensures came { IfOk result (λ node. Comes cx.old cx.new
        (slot_program (plans.UseOf used.now) (caller_of frame.now.by) frame.now.held)
        (mirror.slot_of node)) }
    ensures world { cx.new.world ≡ cx.old.world }
{
    let props = props_of(alloc, cx, frame, used.props.as_slice())?;
    let component = used.component;
    Ok(DynamicNode::Component(VComponent::App { component, props }))
}

/// A fragment round a view.
#[cycle(filling)]
#[tactic(auto, using(crate::proofs::Fills::filling))]
fn fragment_node(
    alloc: Global,
    cx: &mut BodyCx<'_, Script>,
    frame: &mut Frame<'_>,
    children: &Plan,
) -> Result<DynamicNode<Script>, OutOfMemory>
    requires renders { SeesRenders (world_of cx.old.world) frame.old.by }
    ensures came { IfOk result (λ node. Comes cx.old cx.new
        (slot_program (plans.FragmentOf children.now) (caller_of frame.old.by) frame.old.held)
        (mirror.slot_of node)) }
    ensures world { cx.new.world ≡ cx.old.world }
    ensures frame { OnOk result (frame.new ≡ frame.old) }
{
    let children = tree_of(alloc, cx, frame, children)?;
    Ok(fragment(alloc, children)?)
}

/// An error boundary round a view, with its handler.
#[cycle(filling)]
#[tactic(auto, using(crate::proofs::Fills::filling))]
fn errors_node(
    alloc: Global,
    cx: &mut BodyCx<'_, Script>,
    frame: &mut Frame<'_>,
    kids: &Plan,
    handler: &Option<ComponentUse>,
) -> Result<DynamicNode<Script>, OutOfMemory>
    requires renders { SeesRenders (world_of cx.old.world) frame.old.by }
    ensures came { IfOk result (λ node. Comes cx.old cx.new
        (slot_program (plans.ErrorBoundaryOf kids.now handler.now)
        (caller_of frame.old.by) frame.old.held)
        (mirror.slot_of node)) }
    ensures world { cx.new.world ≡ cx.old.world }
    ensures frame { OnOk result (frame.new ≡ frame.old) }
{
    let kids = tree_of(alloc, cx, frame, kids)?;
    let handler = handed(alloc, cx, frame, handler)?;
    Ok(error_boundary(alloc, kids, handler)?)
}

/// A suspense boundary round a view, with its fallback.
#[cycle(filling)]
#[tactic(auto, using(crate::proofs::Fills::filling))]
fn waits_node(
    alloc: Global,
    cx: &mut BodyCx<'_, Script>,
    frame: &mut Frame<'_>,
    kids: &Plan,
    fallback: &Option<ComponentUse>,
) -> Result<DynamicNode<Script>, OutOfMemory>
    requires renders { SeesRenders (world_of cx.old.world) frame.old.by }
    ensures came { IfOk result (λ node. Comes cx.old cx.new
        (slot_program (plans.SuspenseBoundaryOf kids.now fallback.now)
        (caller_of frame.old.by) frame.old.held)
        (mirror.slot_of node)) }
    ensures world { cx.new.world ≡ cx.old.world }
    ensures frame { OnOk result (frame.new ≡ frame.old) }
{
    let kids = tree_of(alloc, cx, frame, kids)?;
    let fallback = handed(alloc, cx, frame, fallback)?;
    Ok(suspense_boundary(alloc, kids, fallback)?)
}

/// An item for each number below a count, which is the item's last variable.
#[cycle(filling)]
#[tactic(auto, using(crate::proofs::Fills::filling))]
fn items(
    alloc: Global,
    cx: &mut BodyCx<'_, Script>,
    frame: &mut Frame<'_>,
    count: u64,
    item: &Plan,
) -> Result<Shared<VNode<Script>>, OutOfMemory>
    requires renders { SeesRenders (world_of cx.old.world) frame.old.by }
    requires count { count ≤ 10000 }
    ensures came { IfOk result (λ trees. Comes cx.old cx.new
        (items_from (λ i. (planned item.now).tree (caller_of frame.old.by) (frame.old.held ++ NumberValue (pos i) ∷ [])) 0 count)
        (trees_from (map mirror.tree_of trees))) }
    ensures world { cx.new.world ≡ cx.old.world }
    ensures frame { OnOk result (frame.new ≡ frame.old) }
{
    let bound = frame.held.len();
    let mut trees = List::with_room(alloc, count as usize)?;
    for number in 0..count {
        frame.bind(numbered(number))?;
        let tree = tree_of(alloc, cx, frame, item)?;
        frame.keep(alloc, bound);
        trees.push(tree)?;
    }
    let finished = Shared::from_list(alloc, trees)?;
    Ok(finished)
}

/// The number of an item.
fn numbered(number: u64) -> Value
    requires low { number ≤ 10000 }
    ensures value { result ≡ NumberValue (pos number) }
{
    Value::new(Content::Number(number as i64))
}

/// A fragment of the view that was picked: no item where it is empty.
#[cycle(filling)]
#[tactic(auto, using(crate::proofs::Fills::filling))]
fn picked(
    alloc: Global,
    cx: &mut BodyCx<'_, Script>,
    frame: &mut Frame<'_>,
    plan: &Plan,
) -> Result<DynamicNode<Script>, OutOfMemory>
    requires renders { SeesRenders (world_of cx.old.world) frame.old.by }
    ensures came { IfOk result (λ node. Comes cx.old cx.new
        (views.picked (planned plan.now).is_empty ((planned plan.now).tree (caller_of frame.old.by) frame.old.held))
        (mirror.slot_of node)) }
    ensures world { cx.new.world ≡ cx.old.world }
    ensures frame { OnOk result (frame.new ≡ frame.old) }
{
    if plan.template.is_none() {
        return Ok(DynamicNode::Fragment(Shared::empty()));
    }
    let tree = tree_of(alloc, cx, frame, plan)?;
    Ok(DynamicNode::Fragment(Shared::one(alloc, tree)?))
}

/// A component and the values of what it is handed, where one is named.
#[tactic(auto, using(author_programs::proofs::Steps::steps))]
fn handed(
    alloc: Global,
    cx: &mut BodyCx<'_, Script>,
    frame: &Frame<'_>,
    component: &Option<ComponentUse>,
) -> Result<Option<(u64, Props)>, OutOfMemory>
    requires renders { SeesRenders (world_of cx.old.world) frame.now.by }
    ensures came { IfOk result (λ handed. Comes cx.old cx.new
        (use_or_none (caller_of frame.now.by) frame.now.held (option_map use_of component.now)) handed) }
    ensures world { cx.new.world ≡ cx.old.world }
{
    match component {
        Some(used) => {
            let props = props_of(alloc, cx, frame, used.props.as_slice())?;
            Ok(Some((used.component, props)))
        }
        None => Ok(None),
    }
}
