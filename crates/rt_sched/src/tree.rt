//! A balanced tree of places. Its nodes are made by others and handed in and out, so that no change
//! takes memory.
ghost use Rattle.std.specs.Prelude.{◌≡◌, ◌∷◌, ◌++◌, [], MatchOption, IfSome, IsTrue, ◌↔◌, is_some};
ghost use Rattle.rt_sched.specs.Places.{IsInOrder, after_place, first_place, first_place_under, has_place, with_place, without_place};
ghost use Rattle.rt_sched.specs.Tree.{height_of};

use crate::order::ScopeOrder;
use crate::place::Place;
use rt_values::ScopeId;
use std::marker::Model;
use std::mem;

/// Places in order.
#[cycle(tree)]
#[derive(Drop)]
pub struct Tree {
    root: Root,
}

#[cycle(tree)]
#[derive(Drop)]
enum Root {
    Leaf,
    Fork(Box<Node>),
}

/// One place, in a tree or out of it.
#[cycle(tree)]
#[derive(Drop)]
pub struct Node {
    left: Tree,
    pub place: Place,
    height: u8,
    right: Tree,
}

impl Node {
    /// A node that stands in no tree, for a member with this number.
    pub fn vacant(number: u64) -> Node
        ensures number { result.place.number ≡ number }
    {
        Node {
            left: Tree::new(),
            place: Place {
                order: ScopeOrder::new(0, ScopeId(0)),
                arrival: 0,
                number,
            },
            height: 0,
            right: Tree::new(),
        }
    }
}

impl Model for Tree {
    ghost use Rattle.std.specs.Prelude.{List, length};
    ghost use Rattle.rt_sched.specs.declared.place.Place.{Place};

    ghost Value = { List Place };

    ghost use Rattle.rt_sched.specs.Tree.{places_of};

    ghost view = { λ tree. places_of tree.root };

    ghost size = { length };

    ghost use Rattle.std.proofs.Common.{arith, length-append};

    ghost size_decreases = { λ a h. Prim.grind (arith, length-append) };
}

impl Tree {
    pub fn new() -> Tree
        ensures empty { result ≡ [] }
    {
        Tree { root: Root::Leaf }
    }

    /// The first place.
    pub fn first(&self) -> Option<Place>
        ensures first { result ≡ first_place self.now }
    {
        match &self.root {
            Root::Leaf => None,
            Root::Fork(node) => node.left.first().or(Some(node.place)),
        }
    }

    /// The first place under an order.
    pub fn first_under(&self, order: &ScopeOrder) -> Option<Place>
        requires in_order { IsInOrder self.now }
        ensures first { result ≡ first_place_under order.now self.now }
    {
        match &self.root {
            Root::Leaf => None,
            Root::Fork(node) => {
                if order.is_before(&node.place.order) {
                    node.left.first_under(order)
                } else if node.place.order.is_before(order) {
                    node.right.first_under(order)
                } else {
                    node.left.first_under(order).or(Some(node.place))
                }
            }
        }
    }

    /// The first of the places that one comes before.
    pub fn first_after(&self, place: &Place) -> Option<Place>
        requires in_order { IsInOrder self.now }
        ensures first { result ≡ first_place (after_place place.now self.now) }
    {
        match &self.root {
            Root::Leaf => None,
            Root::Fork(node) => {
                if place.is_before(&node.place) {
                    node.left.first_after(place).or(Some(node.place))
                } else {
                    node.right.first_after(place)
                }
            }
        }
    }

    pub fn is_empty(&self) -> bool
        ensures empty { IsTrue result ↔ (self.now ≡ []) }
    {
        match &self.root {
            Root::Leaf => true,
            Root::Fork(_) => false,
        }
    }

    /// Takes the first node out.
    pub fn take_first(self) -> Option<(Box<Node>, Tree)>
        ensures first { MatchOption result (self ≡ [])
            (λ taken. self ≡ taken.0.value.place ∷ taken.1) }
    {
        let (left, node, right) = self.take_apart()?;
        match left.take_first() {
            None => Some((node, right)),
            Some((first, left)) => Some((first, balanced(left, node, right))),
        }
    }

    /// Puts a node in, by its place.
    pub fn insert(self, node: Box<Node>) -> Tree
        requires in_order { IsInOrder self }
        ensures placed { result ≡ with_place node.value.place self }
    {
        match self.take_apart() {
            None => fork(Tree::new(), node, Tree::new()),
            Some((left, root, right)) => {
                if node.place.is_before(&root.place) {
                    balanced(left.insert(node), root, right)
                } else {
                    balanced(left, root, right.insert(node))
                }
            }
        }
    }

    /// Takes out the node at a place, and gives the tree that is left.
    pub fn remove(self, place: &Place) -> (Option<Box<Node>>, Tree)
        requires in_order { IsInOrder self }
        ensures found { is_some result.0 ≡ has_place place.now self }
        ensures node { IfSome result.0 (λ node. node.value.place ≡ place.now) }
        ensures others { result.1 ≡ without_place place.now self }
    {
        match self.take_apart() {
            None => (None, Tree::new()),
            Some((left, root, right)) => {
                if place.is_same(&root.place) {
                    (Some(root), joined(left, right))
                } else if place.is_before(&root.place) {
                    let (found, left) = left.remove(place);
                    (found, balanced(left, root, right))
                } else {
                    let (found, right) = right.remove(place);
                    (found, balanced(left, root, right))
                }
            }
        }
    }

    // The root's node, with the trees before and after it.
    fn take_apart(self) -> Option<(Tree, Box<Node>, Tree)>
        ensures parts { MatchOption result (self ≡ [])
            (λ parts. self ≡ parts.0 ++ parts.1.value.place ∷ parts.2) }
    {
        match self.root {
            Root::Leaf => None,
            Root::Fork(mut node) => {
                let left = mem::replace(&mut node.left, Tree::new());
                let right = mem::replace(&mut node.right, Tree::new());
                Some((left, node, right))
            }
        }
    }
}

impl Root {
    // How many levels of nodes there are, by the topmost node's own count.
    fn height(&self) -> u8
        ensures counted { result ≡ height_of self.now }
    {
        match self {
            Root::Leaf => 0,
            Root::Fork(node) => node.height,
        }
    }
}

// The tree of a node between two trees that differ by one level at most.
fn fork(left: Tree, mut node: Box<Node>, right: Tree) -> Tree
    ensures places { result ≡ left ++ node.value.place ∷ right }
{
    node.height = left
        .root
        .height()
        .max(right.root.height())
        .saturating_add(1);
    node.left = left;
    node.right = right;
    Tree {
        root: Root::Fork(node),
    }
}

// The tree of a node between two trees, turned where they differ by two levels.
fn balanced(left: Tree, node: Box<Node>, right: Tree) -> Tree
    ensures places { result ≡ left ++ node.value.place ∷ right }
{
    if left.root.height() > right.root.height().saturating_add(1) {
        lean_right(left, node, right)
    } else if right.root.height() > left.root.height().saturating_add(1) {
        lean_left(left, node, right)
    } else {
        fork(left, node, right)
    }
}

// The same, where the left tree is too high.
fn lean_right(left: Tree, node: Box<Node>, right: Tree) -> Tree
    ensures places { result ≡ left ++ node.value.place ∷ right }
{
    let Some((outer, root, inner)) = left.take_apart() else {
        return fork(Tree::new(), node, right);
    };
    if outer.root.height() >= inner.root.height() {
        return fork(outer, root, fork(inner, node, right));
    }
    match inner.take_apart() {
        None => fork(outer, root, fork(Tree::new(), node, right)),
        Some((low, middle, high)) => {
            fork(fork(outer, root, low), middle, fork(high, node, right))
        }
    }
}

// The same, where the right tree is too high.
fn lean_left(left: Tree, node: Box<Node>, right: Tree) -> Tree
    ensures places { result ≡ left ++ node.value.place ∷ right }
{
    let Some((inner, root, outer)) = right.take_apart() else {
        return fork(left, node, Tree::new());
    };
    if outer.root.height() >= inner.root.height() {
        return fork(fork(left, node, inner), root, outer);
    }
    match inner.take_apart() {
        None => fork(fork(left, node, Tree::new()), root, outer),
        Some((low, middle, high)) => {
            fork(fork(left, node, low), middle, fork(high, root, outer))
        }
    }
}

// The places of two trees, one after the other.
fn joined(left: Tree, right: Tree) -> Tree
    ensures places { result ≡ left ++ right }
{
    match right.take_first() {
        None => left,
        Some((first, right)) => balanced(left, first, right),
    }
}
