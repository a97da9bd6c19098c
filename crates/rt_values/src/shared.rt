//! A list that is finished, which contracts see as the list of its items.
ghost use Rattle.std.specs.Prelude.{◌≡◌, ◌↔◌, [], ◌∷◌, length, slice_get, IsTrue, IfOk};
ghost use Rattle.std.specs.Option.{option_copied};

use crate::list::{List, same_slice};
use crate::memory::OutOfMemory;
use crate::part::Part;
use std::alloc::Global;
use std::marker::Model;
use std::rc::Rc;

/// Items in order that no one adds to or takes from. All copies of a list share its items, so that
/// a copy takes no room for them, however many they are; and a list without items takes none.
#[derive(Debug, Drop)]
pub struct Shared<T> {
    items: Option<Rc<Vec<T>>>,
}

impl<T> Model for Shared<T> {
    ghost use Rattle.std.specs.Prelude.{List as Items};
    ghost use Rattle.std.specs.Coded.{coded_list};
    ghost use Rattle.rt_values.specs.Held.{items_in};

    ghost Value = { Items T };

    ghost coded = { coded_list T.code };

    ghost view = { λ shared. items_in shared.items };
}

impl<T> Shared<T> {
    /// The list of no item.
    pub fn empty() -> Shared<T>
        ensures empty { result ≡ [] }
    {
        Shared { items: None }
    }

    /// The items to read.
    pub fn as_slice(&self) -> &[T]
        ensures items { result.now ≡ self.now }
    {
        match &self.items {
            Some(items) => items.as_ref().as_slice(),
            None => &[],
        }
    }

    /// How many items.
    pub fn len(&self) -> usize
        ensures items { result ≡ length self.now }
    {
        self.as_slice().len()
    }

    pub fn is_empty(&self) -> bool
        ensures empty { IsTrue result ↔ (self.now ≡ []) }
    {
        self.as_slice().is_empty()
    }

    /// The item at an index from 0, or `None` at the end and past it.
    pub fn get(&self, at: usize) -> Option<&T>
        ensures item { option_copied result ≡ slice_get self.now at }
    {
        self.as_slice().get(at)
    }
}

impl<T: Drop> Shared<T> {
    /// What a list holds, moved.
    pub fn from_list(alloc: Global, list: List<T>) -> Result<Shared<T>, OutOfMemory>
        ensures items { IfOk result (λ shared. shared ≡ list) }
    {
        if list.is_empty() {
            return Ok(Shared::empty());
        }
        Ok(Shared {
            items: Some(Rc::new(alloc, list.into_vec())?),
        })
    }

    /// The list of one item.
    pub fn one(alloc: Global, item: T) -> Result<Shared<T>, OutOfMemory>
        ensures one { IfOk result (λ shared. shared ≡ item ∷ []) }
    {
        let mut items = Vec::with_capacity(alloc, 1)?;
        items.push(item)?;
        Shared::from_list(alloc, List::from_vec(items))
    }

    /// The same items once more.
    pub fn share(&self) -> Result<Shared<T>, OutOfMemory>
        ensures items { IfOk result (λ shared. shared ≡ self.now) }
    {
        match &self.items {
            Some(items) => Ok(Shared {
                items: Some(items.clone()?),
            }),
            None => Ok(Shared::empty()),
        }
    }
}

impl<T: Part> Part for Shared<T> {
    fn same(&self, other: &Shared<T>) -> bool {
        same_slice(self.as_slice(), other.as_slice())
    }

    fn copy(&self, _alloc: Global) -> Result<Shared<T>, OutOfMemory> {
        self.share()
    }
}
