//! Names: which texts are one, where one is bound, and lists of names that differ.
ghost use Rattle.std.specs.Prelude.{◌≡◌, ◌||◌, ℕ, List, not, bytes_eq, IfOk, OnOk, option_map};
ghost use Rattle.serde_json.specs.View.{items_view};
ghost use Rattle.lang_expressions.specs.Names.{is_seen, place_of, distinct_texts};

use rt_values::{OutOfMemory, Text};
use serde_json::Value;
use std::alloc::Global;
use std::collections::BTreeSet;

/// The place from 0 of the last of the names that is this one.
#[tactic(auto, using(crate::proofs::Steps::place_next), unfolding(crate::specs::Names::place_of))]
pub fn place_of(names: &[Text], name: &str) -> Option<u64>
    ensures place { result ≡ place_of names.now name.now }
{
    let mut place = None;
    for at in 0..names.len() {
        if names[at].as_str() == name {
            place = Some(at as u64);
        }
    }
    place
}

/// The texts of a list, where each of its values is one and no two are the same.
pub fn distinct_texts(alloc: Global, values: &[Value]) -> Result<Option<Vec<Text>>, OutOfMemory>
    ensures texts { IfOk result (λ texts. option_map (λ kept. kept.items) texts
        ≡ distinct_texts (items_view values.now)) }
{
    let mut texts = Vec::new(alloc);
    let mut seen = BTreeSet::new(alloc);
    for value in values {
        let Some(text) = value.as_str() else {
            return Ok(None);
        };
        let fresh = see(&mut seen, text)?;
        if !fresh {
            return Ok(None);
        }
        texts.push(Text::from_str(alloc, text)?)?;
    }
    Ok(Some(texts))
}

// Puts a text among those that were seen, and answers whether it wasn't one of them.
fn see<'a>(seen: &mut BTreeSet<&'a str>, text: &'a str) -> Result<bool, OutOfMemory>
    ensures fresh { IfOk result (λ fresh. fresh ≡ not (is_seen seen.old text.now)) }
    ensures more { OnOk result ((other : List ℕ) → is_seen seen.new other
        ≡ (bytes_eq other text.now || is_seen seen.old other)) }
{
    Ok(seen.insert(text)?)
}
