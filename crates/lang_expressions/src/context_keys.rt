//! The keys of contexts of a source, in which each is looked up by halves where they ascend.
ghost use Rattle.std.specs.Prelude.{◌≡◌, length};
ghost use Rattle.std.specs.Ordering.{is_lt, nat_cmp};
ghost use Rattle.std.specs.Cmp.Lexicographic.{slice_cmp};
ghost use Rattle.std.specs.List.Sorted.{IsBinarySearchResult, IsSearchInRange};
ghost use Rattle.lang_expressions.specs.Names.{place_of};
ghost use Rattle.lang_expressions.specs.Ascending.{ascend, rises};

use crate::names::place_of;
use rt_values::{List, Text};
use std::cmp::Ordering;
use std::marker::Model;

/// Keys of contexts. The place of a key is the kind of what is provided under it.
#[derive(Debug, Drop)]
pub struct ContextKeys {
    keys: List<Text>,
    /// They were found to ascend.
    ascending: bool,
}

impl Model for ContextKeys {
    ghost use Rattle.std.specs.Prelude.{◌≡◌, List, ℕ, true};
    ghost use Rattle.lang_expressions.specs.Ascending.{ascend};

    ghost Value = { List (List ℕ) };

    ghost view = { λ kinds. kinds.keys };

    ghost invariant = { λ kinds. kinds.ascending ≡ true → ascend kinds.keys ≡ true };
}

impl ContextKeys {
    /// The keys of a vector, taken over as they are.
    pub fn from_vec(keys: Vec<Text>) -> ContextKeys
        ensures keys { result ≡ keys.items }
    {
        let ascending = ascend(keys.as_slice());
        ContextKeys {
            keys: List::from_vec(keys),
            ascending,
        }
    }

    /// The place from 0 of the last of the keys that is this one.
    pub fn place_of(&self, key: &str) -> Option<u64>
        ensures place { result ≡ place_of self.now key.now }
    {
        if !self.ascending {
            return place_of(self.keys.as_slice(), key);
        }
        match key_at(self.keys.as_slice(), key) {
            Ok(at) => Some(at as u64),
            Err(_at) => place_of(self.keys.as_slice(), key),
        }
    }
}

// Where a key stands among keys that ascend, or else where it would.
fn key_at(keys: &[Text], key: &str) -> Result<usize, usize>
    ensures within { IsSearchInRange result (length keys.now) }
    ensures position { IsBinarySearchResult (λ other. slice_cmp nat_cmp other key.now)
        keys.now result }
{
    keys.binary_search_by(
        |other: &Text| -> Ordering
            ensures order { result ≡ slice_cmp nat_cmp other.now key.entry.now }
        { other.as_str().cmp(key) },
    )
}

// Whether each text comes after the one before it.
fn ascend(texts: &[Text]) -> bool
    ensures { result ≡ ascend texts.now }
{
    match texts {
        [] => true,
        [first, rest @ ..] => rises(first.as_str(), rest),
    }
}

fn rises(first: &str, rest: &[Text]) -> bool
    ensures { result ≡ rises first.now rest.now }
{
    let mut last = first;
    for at in 0..rest.len() {
        let text = &rest[at];
        if !comes_before(last, text) {
            return false;
        }
        last = text.as_str();
    }
    true
}

fn comes_before(last: &str, text: &Text) -> bool
    ensures { result ≡ is_lt (slice_cmp nat_cmp last.now text.now) }
{
    last.cmp(text.as_str()).is_lt()
}
