//! A list, which contracts see as the list of its items.
ghost use Rattle.std.specs.Prelude.{◌≡◌, ◌↔◌, ◌<◌, ◌++◌, ◌∷◌, [], length, remove, slice_get, slice_set, IsTrue, IfOk, OnOk, OnErr, MatchOption};
ghost use Rattle.std.specs.Option.{option_copied};

use crate::memory::OutOfMemory;
use crate::part::Part;
use std::alloc::Global;
use std::marker::Model;

/// Items in order.
#[derive(Debug, Drop)]
pub struct List<T> {
    items: Vec<T>,
}

impl<T> Model for List<T> {
    ghost use Rattle.std.specs.Prelude.{List as Items};
    ghost use Rattle.std.specs.Coded.{coded_list};

    ghost Value = { Items T };

    ghost coded = { coded_list T.code };

    ghost view = { λ list. list.items.items };
}

impl<T> List<T> {
    pub fn new(alloc: Global) -> List<T>
        ensures empty { result ≡ [] }
    {
        List {
            items: Vec::new(alloc),
        }
    }

    /// A list of nothing, with room for so many items.
    pub fn with_room(alloc: Global, room: usize) -> Result<List<T>, OutOfMemory>
        ensures empty { IfOk result (λ list. list ≡ []) }
    {
        Ok(List {
            items: Vec::with_capacity(alloc, room)?,
        })
    }

    /// The list of what a vector holds, taken over as it is.
    pub fn from_vec(items: Vec<T>) -> List<T>
        ensures items { result ≡ items.items }
    {
        List { items }
    }

    /// What the list holds, as a vector, with no item copied.
    pub fn into_vec(self) -> Vec<T>
        ensures items { result.items ≡ self }
    {
        let List { items } = self;
        items
    }

    /// The items to read.
    pub fn as_slice(&self) -> &[T]
        ensures items { result.now ≡ self.now }
    {
        self.items.as_slice()
    }

    /// How many items.
    pub fn len(&self) -> usize
        ensures items { result ≡ length self.now }
    {
        self.items.len()
    }

    pub fn is_empty(&self) -> bool
        ensures empty { IsTrue result ↔ (self.now ≡ []) }
    {
        self.items.is_empty()
    }

    /// The item at an index from 0, or `None` at the end and past it.
    pub fn get(&self, at: usize) -> Option<&T>
        ensures item { option_copied result ≡ slice_get self.now at }
    {
        self.items.get(at)
    }

    /// Takes the last item off.
    pub fn pop(&mut self) -> Option<T>
        ensures last { MatchOption result ((self.old ≡ []) × (self.new ≡ []))
            (λ last. self.old ≡ self.new ++ last ∷ []) }
    {
        self.items.pop()
    }
}

impl<T: Drop> List<T> {
    /// Puts one more item at the end.
    pub fn push(&mut self, item: T) -> Result<(), OutOfMemory>
        ensures ok { OnOk result (self.new ≡ self.old ++ item ∷ []) }
        ensures err { OnErr result (self.new ≡ self.old) }
    {
        self.items.push(item)?;
        Ok(())
    }

    /// Moves the items of another list to the end. A list without items takes the other one's room.
    pub fn append(&mut self, more: List<T>) -> Result<(), OutOfMemory>
        ensures ok { OnOk result (self.new ≡ self.old ++ more) }
        ensures err { OnErr result (self.new ≡ self.old) }
    {
        let List { mut items } = more;
        if self.items.is_empty() {
            self.items = items;
            return Ok(());
        }
        self.items.append(&mut items)?;
        Ok(())
    }

    /// Puts another item in the place of the one at an index from 0.
    pub fn set(&mut self, at: usize, item: T)
        requires within { at < length self.old }
        ensures set { self.new ≡ slice_set self.old at item }
    {
        self.items[at] = item;
    }

    /// Takes the item at an index from 0 out of the list.
    pub fn remove(&mut self, at: usize) -> T
        requires within { at < length self.old }
        ensures item { slice_get self.old at ≡ Some result }
        ensures others { self.new ≡ remove self.old at }
    {
        self.items.remove(at)
    }
}

impl<T: Copy> List<T> {
    /// The list of what a slice holds.
    pub fn from_slice(alloc: Global, items: &[T]) -> Result<List<T>, OutOfMemory>
        ensures items { IfOk result (λ list. list ≡ items.now) }
    {
        Ok(List {
            items: Vec::from_slice(alloc, items)?,
        })
    }
}

impl<T: Part> Part for List<T> {
    fn same(&self, other: &List<T>) -> bool {
        same_slice(self.as_slice(), other.as_slice())
    }

    fn copy(&self, alloc: Global) -> Result<List<T>, OutOfMemory> {
        Ok(List::from_vec(copy_slice(alloc, self.as_slice())?))
    }
}

/// Whether two slices hold equal values in the same order.
pub fn same_slice<T: Part>(left: &[T], right: &[T]) -> bool
    ensures same { IsTrue result ↔ (left.now ≡ right.now) }
{
    if left.len() != right.len() {
        return false;
    }
    for at in 0..left.len() {
        if !left[at].same(&right[at]) {
            return false;
        }
    }
    true
}

/// A copy of each item, in order.
pub fn copy_slice<T: Part>(alloc: Global, items: &[T]) -> Result<Vec<T>, OutOfMemory>
    ensures copy { IfOk result (λ copied. copied.items ≡ items.now) }
{
    let mut copied = Vec::with_capacity(alloc, items.len())?;
    for item in items {
        copied.push(item.copy(alloc)?)?;
    }
    Ok(copied)
}
