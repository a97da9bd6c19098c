//! What a memo or a resource is of, from its first use on.
ghost use Rattle.std.specs.Prelude.{◌≡◌, true, IfOk};
ghost use Rattle.rt_language.specs.Formulas as meanings;
ghost use Rattle.lang_syntax.specs.Mirror.{derived_of, expression_of};

use crate::value::Value;
use lang_syntax::{Derived, Expression, Formula};
use rt_values::{List, OutOfMemory, copy_slice};
use std::alloc::Global;
use std::marker::Model;

/// What a memo or a resource is of, with what the variables held at its first use.
#[derive(Debug, Drop)]
pub struct Deriving {
    held: List<Value>,
    formula: Formula,
}

impl Model for Deriving {
    ghost use Rattle.std.specs.Coded.{codes};
    ghost use Rattle.rt_language.specs.Expressions as language;
    ghost use Rattle.lang_views.specs.Coding.{derived_code};

    ghost Value = { language.Deriving };

    ghost coded = { Prim.hlevel (codes, derived_code) };

    ghost use Rattle.lang_syntax.specs.Mirror.{derived_of};

    ghost view = { λ of. record { held = of.held; derived = derived_of of.formula } };
}

impl Deriving {
    /// A formula, where the variables hold these values.
    pub fn new(alloc: Global, held: &[Value], formula: &Formula) -> Result<Deriving, OutOfMemory>
        ensures { IfOk result (λ made. made
            ≡ record { held = held.now; derived = derived_of formula.now }) }
    {
        Ok(Deriving {
            held: List::from_vec(copy_slice(alloc, held)?),
            formula: formula.share()?,
        })
    }

    /// What the variables held.
    pub fn held(&self) -> &[Value]
        ensures { result.now ≡ self.now.held }
    {
        self.held.as_slice()
    }

    pub fn derived(&self) -> &Derived
        ensures { derived_of result.now ≡ self.now.derived }
    {
        self.formula.derived()
    }

    /// The expression that is computed: the value of a memo, the key of a resource.
    #[tactic(auto, using(crate::proofs::Computed::computing))]
    pub fn computed(&self) -> &Expression
        ensures expression { expression_of result.now ≡ meanings.computed_of self.now.derived }
        ensures looks { meanings.looks true (expression_of result.now) ≡ true }
    {
        match self.formula.derived() {
            Derived::Value(value) => value,
            Derived::Load { key, .. } => key,
        }
    }
}
