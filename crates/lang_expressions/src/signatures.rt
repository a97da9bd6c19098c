//! What the names of a source stand for.
ghost use Rattle.std.specs.Prelude.{◌≡◌};
ghost use Rattle.lang_expressions.specs.Signatures.{signature_of};

use crate::context_keys::ContextKeys;
use rt_values::{List, Text};

/// What is used by its name, and with how many values.
#[derive(Debug, Drop)]
pub struct Signature {
    pub name: Text,
    pub params: u64,
}

/// The names that a whole source has: keys of contexts, components, actions and tasks, each in order.
#[derive(Debug, Drop)]
pub struct Names {
    pub kinds: ContextKeys,
    pub components: List<Signature>,
    pub actions: List<Signature>,
    pub tasks: List<Signature>,
}

/// The place from 0 of what has this name, and how many params it has.
#[tactic(auto, using(crate::proofs::Reading::signature_next), unfolding(crate::specs::Signatures::signature_of))]
pub fn signature_of(signatures: &[Signature], name: &str) -> Option<(u64, u64)>
    ensures place { result ≡ signature_of signatures.now name.now }
{
    for at in 0..signatures.len() {
        if signatures[at].name.as_str() == name {
            return Some((at as u64, signatures[at].params));
        }
    }
    None
}
