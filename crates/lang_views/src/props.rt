//! What a component is handed.
ghost use Rattle.std.specs.Prelude.{◌≡◌, [], ◌∷◌, IfOk};

use crate::value::{Content, Value};
use rt_values::{List, OutOfMemory, Part, Shared, same_slice};
use std::alloc::Global;
use std::marker::Model;
use std::slice;

/// Where the values are: one of them here, or several in a list that copies share.
#[derive(Drop)]
pub(crate) enum Handed {
    One(Value),
    All(Shared<Value>),
}

/// What a component is handed: the values of its params, in order. A copy takes no room for them.
#[derive(Drop)]
pub struct Props {
    handed: Handed,
}

impl Model for Props {
    ghost use Rattle.std.specs.Prelude.{List as Items};
    ghost use Rattle.rt_language.specs.Values as language;
    ghost use Rattle.lang_views.specs.Handed.{values_in};

    ghost Value = { Items language.Value };

    ghost view = { λ props. values_in props.handed };
}

impl Props {
    /// What is handed where a component has no params.
    pub fn none() -> Props
        ensures none { result ≡ [] }
    {
        Props {
            handed: Handed::All(Shared::empty()),
        }
    }

    /// What is handed where the params have these values.
    pub fn new(alloc: Global, values: List<Value>) -> Result<Props, OutOfMemory>
        ensures values { IfOk result (λ props. props ≡ values) }
    {
        Ok(Props {
            handed: Handed::All(Shared::from_list(alloc, values)?),
        })
    }

    /// What is handed where there is one param, with this value. Only a text takes room beside it.
    pub fn one(alloc: Global, value: Value) -> Result<Props, OutOfMemory>
        ensures value { IfOk result (λ props. props ≡ value ∷ []) }
    {
        if takes_room(&value) {
            return Ok(Props {
                handed: Handed::All(Shared::one(alloc, value)?),
            });
        }
        Ok(Props {
            handed: Handed::One(value),
        })
    }

    pub fn values(&self) -> &[Value]
        ensures { result.now ≡ self.now }
    {
        match &self.handed {
            Handed::One(value) => slice::from_ref(value),
            Handed::All(values) => values.as_slice(),
        }
    }
}

impl Part for Props {
    fn same(&self, other: &Props) -> bool {
        same_slice(self.values(), other.values())
    }

    fn copy(&self, alloc: Global) -> Result<Props, OutOfMemory> {
        match &self.handed {
            Handed::One(value) => {
                let value = value.copy(alloc)?;
                Ok(Props {
                    handed: Handed::One(value),
                })
            }
            Handed::All(values) => {
                let values = values.share()?;
                Ok(Props {
                    handed: Handed::All(values),
                })
            }
        }
    }
}

// Whether a copy of a value takes room.
fn takes_room(value: &Value) -> bool {
    matches!(value.content(), Content::Text(_))
}
