//! Trees by plain values.

use rt_values::{List, ScopeId, Shared, Text};
use std::alloc::Global;
use std::process::Abort;
use tree_nodes::{
    Attribute, AttributeValue, DynamicNode, ListenerCallback, Parts, Template, TemplateAttribute,
    TemplateNode, TemplateParts, VComponent, VNode,
};

/// An application of plain numbers.
#[derive(Drop)]
pub(crate) struct Numbers;

impl Parts for Numbers {
    type Component = u64;

    type Props = u64;

    type Value = u64;

    type Handler = u64;

    type TaskState = u64;

    type Effect = u64;

    type Payload = u64;
}

pub(crate) type Tree = VNode<Numbers>;

type Value = DynamicNode<Numbers>;

/// A tree by plain values.
#[derive(Clone, Copy)]
pub(crate) enum Shape {
    /// An element `ul` with a fragment of elements `li`, each with one of these texts.
    Texts(&'static [&'static str]),
    /// An element `ul` with a fragment of items that are one of these components.
    Rows(&'static [u64]),
    /// An element `div` with a slot for each of these components.
    Scopes(&'static [u64]),
    /// An element `div` with a text and a placeholder.
    TextFirst(&'static str),
    /// The same with the placeholder first.
    TextLast(&'static str),
    /// An element `p` with two attribute slots.
    Slots(Named, Named),
}

/// What stands in an attribute slot.
#[derive(Clone, Copy)]
pub(crate) enum Named {
    Nothing,
    Listener(&'static str),
    Text(&'static str, &'static str),
    /// An attribute without a value.
    Absent(&'static str),
}

pub(crate) fn text(rt: &impl Abort, alloc: Global, bytes: &str) -> Text {
    Text::from_str(alloc, bytes).expect(rt, "memory for a text")
}

fn one<T: Drop>(rt: &impl Abort, alloc: Global, item: T) -> List<T> {
    let mut items = List::new(alloc);
    push(rt, &mut items, item);
    items
}

pub(crate) fn push<T: Drop>(rt: &impl Abort, items: &mut List<T>, item: T) {
    assert!(rt; items.push(item).is_ok());
}

fn shared<T: Drop>(rt: &impl Abort, alloc: Global, list: List<T>) -> Shared<T> {
    Shared::from_list(alloc, list).expect(rt, "memory for a list")
}

fn only<T: Drop>(rt: &impl Abort, alloc: Global, item: T) -> Shared<T> {
    Shared::one(alloc, item).expect(rt, "memory for a list")
}

fn template(
    rt: &impl Abort,
    alloc: Global,
    root: TemplateNode,
    node_paths: List<List<u8>>,
    attr_paths: List<List<u8>>,
) -> Template {
    let parts = TemplateParts {
        roots: one(rt, alloc, root),
        node_paths,
        attr_paths,
    };
    Template::new(alloc, parts).expect(rt, "memory for a template")
}

fn path(rt: &impl Abort, alloc: Global, path: &[u8]) -> List<u8> {
    List::from_slice(alloc, path).expect(rt, "memory for a path")
}

// An element with so many attribute slots and node slots.
fn element(rt: &impl Abort, alloc: Global, tag: &str, attrs: u64, slots: u64) -> TemplateNode {
    let tag = text(rt, alloc, tag);
    let mut attributes = List::new(alloc);
    for id in 0..attrs {
        push(rt, &mut attributes, TemplateAttribute::Dynamic { id });
    }
    let mut children = List::new(alloc);
    for id in 0..slots {
        push(rt, &mut children, TemplateNode::Dynamic { id });
    }
    TemplateNode::Element {
        tag,
        namespace: None,
        attrs: shared(rt, alloc, attributes),
        children: shared(rt, alloc, children),
    }
}

// One element with these values in node slots of its own.
fn around(rt: &impl Abort, alloc: Global, tag: &str, values: List<Value>) -> Tree {
    let slots = values.len() as u64;
    let mut node_paths = List::new(alloc);
    for index in 0..values.len().min(255) {
        push(rt, &mut node_paths, path(rt, alloc, &[0, index as u8]));
    }
    let root = element(rt, alloc, tag, 0, slots);
    VNode {
        template: template(rt, alloc, root, node_paths, List::new(alloc)),
        dynamic_nodes: shared(rt, alloc, values),
        dynamic_attrs: Shared::empty(),
    }
}

// A tree that is one slot with this value.
fn alone(rt: &impl Abort, alloc: Global, value: Value) -> Tree {
    let node_paths = one(rt, alloc, path(rt, alloc, &[0]));
    let root = TemplateNode::Dynamic { id: 0 };
    VNode {
        template: template(rt, alloc, root, node_paths, List::new(alloc)),
        dynamic_nodes: only(rt, alloc, value),
        dynamic_attrs: Shared::empty(),
    }
}

fn words(rt: &impl Abort, alloc: Global, bytes: &str) -> Value {
    DynamicNode::Text(text(rt, alloc, bytes))
}

fn component(component: u64) -> Value {
    DynamicNode::Component(VComponent::App {
        component,
        props: 0,
    })
}

fn fragment(rt: &impl Abort, alloc: Global, items: List<Tree>) -> Tree {
    let items = one(rt, alloc, DynamicNode::Fragment(shared(rt, alloc, items)));
    around(rt, alloc, "ul", items)
}

fn texts(rt: &impl Abort, alloc: Global, texts: &[&str]) -> Tree {
    let mut items = List::new(alloc);
    for bytes in texts {
        let value = one(rt, alloc, words(rt, alloc, *bytes));
        push(rt, &mut items, around(rt, alloc, "li", value));
    }
    fragment(rt, alloc, items)
}

fn rows(rt: &impl Abort, alloc: Global, components: &[u64]) -> Tree {
    let mut items = List::new(alloc);
    for number in components {
        push(rt, &mut items, alone(rt, alloc, component(*number)));
    }
    fragment(rt, alloc, items)
}

fn scopes(rt: &impl Abort, alloc: Global, components: &[u64]) -> Tree {
    let mut values = List::new(alloc);
    for number in components {
        push(rt, &mut values, component(*number));
    }
    around(rt, alloc, "div", values)
}

fn pair(rt: &impl Abort, alloc: Global, first: Value, second: Value) -> Tree {
    let mut values = one(rt, alloc, first);
    push(rt, &mut values, second);
    around(rt, alloc, "div", values)
}

fn value_of(rt: &impl Abort, alloc: Global, named: Named) -> AttributeValue<Numbers> {
    match named {
        Named::Text(_, value) => AttributeValue::Text(text(rt, alloc, value)),
        Named::Listener(_) => AttributeValue::Listener(ListenerCallback {
            origin: ScopeId(3),
            handler: 7,
        }),
        Named::Nothing => AttributeValue::None,
        Named::Absent(_) => AttributeValue::None,
    }
}

fn slot(rt: &impl Abort, alloc: Global, named: Named) -> List<Attribute<Numbers>> {
    let name = match named {
        Named::Nothing => return List::new(alloc),
        Named::Listener(name) => name,
        Named::Text(name, _) => name,
        Named::Absent(name) => name,
    };
    let attribute = Attribute {
        name: text(rt, alloc, name),
        namespace: None,
        value: value_of(rt, alloc, named),
    };
    one(rt, alloc, attribute)
}

fn slots(rt: &impl Abort, alloc: Global, first: Named, second: Named) -> Tree {
    let mut dynamic_attrs = one(rt, alloc, slot(rt, alloc, first));
    push(rt, &mut dynamic_attrs, slot(rt, alloc, second));
    let mut attr_paths = one(rt, alloc, path(rt, alloc, &[0]));
    push(rt, &mut attr_paths, path(rt, alloc, &[0]));
    let root = element(rt, alloc, "p", 2, 0);
    VNode {
        template: template(rt, alloc, root, List::new(alloc), attr_paths),
        dynamic_nodes: Shared::empty(),
        dynamic_attrs: shared(rt, alloc, dynamic_attrs),
    }
}

impl Shape {
    pub(crate) fn tree(self, rt: &impl Abort, alloc: Global) -> Tree {
        match self {
            Shape::Texts(bytes) => texts(rt, alloc, bytes),
            Shape::Rows(components) => rows(rt, alloc, components),
            Shape::Scopes(components) => scopes(rt, alloc, components),
            Shape::TextFirst(bytes) => {
                pair(rt, alloc, words(rt, alloc, bytes), DynamicNode::Placeholder)
            }
            Shape::TextLast(bytes) => {
                pair(rt, alloc, DynamicNode::Placeholder, words(rt, alloc, bytes))
            }
            Shape::Slots(first, second) => slots(rt, alloc, first, second),
        }
    }
}
