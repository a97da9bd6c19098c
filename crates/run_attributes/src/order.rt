//! The order in which a node of the document keeps its attributes and listeners.

ghost use Rattle.std.specs.Prelude.{◌≡◌, [], length, OnOk};
ghost use Rattle.std.specs.Option.{option_cmp};
ghost use Rattle.std.specs.Ordering.{nat_cmp};
ghost use Rattle.std.specs.Cmp.Lexicographic.{slice_cmp};
ghost use Rattle.std.specs.List.Sorted.{IsBinarySearchResult, IsSearchInRange};
ghost use Rattle.rt_model.specs.Lists.{same_numbers, same_option};
ghost use Rattle.rt_model.specs.Document.{with_attribute, with_listener};
ghost use Rattle.tree_edits.specs.Documents.{doc_attribute_of};
ghost use Rattle.run_attributes.specs.Content.{attributes_of};
ghost use Rattle.run_attributes.specs.Order.{key_order};

use rt_edits::DocAttr;
use rt_values::{List, OutOfMemory, Part, Text};
use std::alloc::Global;
use std::cmp::Ordering;
use std::marker::Model;

/// Attributes of one element, ascending by namespace, none first, and then by name.
#[derive(Drop)]
pub(crate) struct Attributes {
    all: Vec<DocAttr>,
}

impl Model for Attributes {
    ghost use Rattle.std.specs.Prelude.{List};
    ghost use Rattle.std.specs.List.Sorted.{IsStrictlySortedBy};
    ghost use Rattle.rt_edits.specs.declared.doc_node.DocAttr.{DocAttr as Attribute};
    ghost use Rattle.run_attributes.specs.Order.{key_order};

    ghost Value = { List Attribute };

    ghost view = { λ attributes. attributes.all.items };

    ghost invariant = { λ attributes. IsStrictlySortedBy key_order attributes.all.items };
}

impl Attributes {
    /// No attribute.
    pub fn new(alloc: Global) -> Attributes
        ensures empty { result ≡ [] }
    {
        Attributes {
            all: Vec::new(alloc),
        }
    }

    /// An attribute takes its place in the order, in place of the one with its name and namespace.
    pub fn put(&mut self, attribute: DocAttr) -> Result<(), OutOfMemory>
        ensures put { OnOk result (attributes_of self.new
            ≡ with_attribute (attributes_of self.old) (doc_attribute_of attribute)) }
    {
        match attribute_at(self.all.as_slice(), &attribute) {
            Ok(at) => {
                self.all[at] = attribute;
                Ok(())
            }
            Err(at) => {
                self.all.insert(at, attribute)?;
                Ok(())
            }
        }
    }

    /// The attributes in their order.
    pub fn into_list(self) -> List<DocAttr>
        ensures all { result ≡ self }
    {
        let Attributes { all } = self;
        List::from_vec(all)
    }
}

// Where the attribute with this one's name and namespace stands, or else where this one belongs.
fn attribute_at(all: &[DocAttr], attribute: &DocAttr) -> Result<usize, usize>
    ensures within { IsSearchInRange result (length all.now) }
    ensures position { IsBinarySearchResult (λ other. key_order other attribute.now)
        all.now result }
{
    all.binary_search_by(
        |other: &DocAttr| -> Ordering
            ensures order { result ≡ key_order other.now attribute.entry.now }
        { order_of_keys(other, attribute) },
    )
}

// The order of attributes: by namespace, then by name.
fn order_of_keys(attribute: &DocAttr, other: &DocAttr) -> Ordering
    ensures { result ≡ key_order attribute.now other.now }
{
    let namespaces = order_of_namespaces(&attribute.namespace, &other.namespace);
    namespaces.then(order_of_texts(&attribute.name, &other.name))
}

// None comes before every namespace.
fn order_of_namespaces(namespace: &Option<Text>, other: &Option<Text>) -> Ordering
    ensures { result ≡ option_cmp (slice_cmp nat_cmp) namespace.now other.now }
{
    match namespace {
        None => match other {
            None => Ordering::Equal,
            Some(_) => Ordering::Less,
        },
        Some(namespace) => match other {
            None => Ordering::Greater,
            Some(other) => order_of_texts(namespace, other),
        },
    }
}

// Texts ascend by their bytes.
fn order_of_texts(text: &Text, other: &Text) -> Ordering
    ensures { result ≡ slice_cmp nat_cmp text.now other.now }
{
    text.as_str().cmp(&other.as_str())
}

/// Whether two texts are equal.
pub(crate) fn is_same_text(text: &Text, other: &Text) -> bool
    ensures { result ≡ same_numbers text.now other.now }
{
    text.same(other)
}

/// Whether two namespaces are equal.
pub(crate) fn is_same_namespace(namespace: &Option<Text>, other: &Option<Text>) -> bool
    ensures { result ≡ same_option same_numbers namespace.now other.now }
{
    namespace.same(other)
}

/// Names of the events that one element listens to, ascending.
#[derive(Drop)]
pub(crate) struct Listeners {
    all: Vec<Text>,
}

impl Model for Listeners {
    ghost use Rattle.std.specs.Prelude.{List, ℕ};
    ghost use Rattle.std.specs.Ordering.{nat_cmp};
    ghost use Rattle.std.specs.Cmp.Lexicographic.{slice_cmp};
    ghost use Rattle.std.specs.List.Sorted.{IsStrictlySortedBy};

    ghost Value = { List (List ℕ) };

    ghost view = { λ listeners. listeners.all.items };

    ghost invariant = { λ listeners. IsStrictlySortedBy (slice_cmp nat_cmp) listeners.all.items };
}

impl Listeners {
    /// No listener.
    pub fn new(alloc: Global) -> Listeners
        ensures empty { result ≡ [] }
    {
        Listeners {
            all: Vec::new(alloc),
        }
    }

    /// A listener's name takes its place in the order, once.
    pub fn put(&mut self, name: Text) -> Result<(), OutOfMemory>
        ensures put { OnOk result (self.new ≡ with_listener self.old name) }
    {
        match listener_at(self.all.as_slice(), &name) {
            Ok(_at) => Ok(()),
            Err(at) => {
                self.all.insert(at, name)?;
                Ok(())
            }
        }
    }

    /// The names in their order.
    pub fn into_list(self) -> List<Text>
        ensures all { result ≡ self }
    {
        let Listeners { all } = self;
        List::from_vec(all)
    }
}

// Where this name stands, or else where it belongs.
fn listener_at(all: &[Text], name: &Text) -> Result<usize, usize>
    ensures within { IsSearchInRange result (length all.now) }
    ensures position { IsBinarySearchResult (λ other. slice_cmp nat_cmp other name.now)
        all.now result }
{
    all.binary_search_by(
        |other: &Text| -> Ordering
            ensures order { result ≡ slice_cmp nat_cmp other.now name.entry.now }
        { order_of_texts(other, name) },
    )
}
