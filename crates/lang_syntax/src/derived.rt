//! What memos and resources are of.
ghost use Rattle.std.specs.Prelude.{◌≡◌, true, IfOk};
ghost use Rattle.lang_syntax.specs.Looking.{derived_looks};

use crate::expression::Expression;
use rt_values::OutOfMemory;
use std::alloc::Global;
use std::marker::Model;
use std::rc::Rc;

/// What the cell of a memo or of a resource is kept to.
#[derive(Debug, Drop)]
pub enum Derived {
    /// The value of an expression.
    Value(Expression),
    /// What is loaded for the value of an expression, the key: it waits for so many steps, and then
    /// it is the value of the last expression, whose last variable is the key.
    Load {
        key: Expression,
        waits: u64,
        value: Expression,
    },
}

/// What a memo or a resource is of, which only looks: whoever writes one down shows that. All
/// copies share it.
#[derive(Debug, Drop)]
pub struct Formula {
    derived: Rc<Derived>,
}

impl Model for Formula {
    ghost use Rattle.std.specs.Prelude.{◌≡◌, true};
    ghost use Rattle.std.specs.Coded.{codes};
    ghost use Rattle.lang_syntax.specs.contracts.expression.Expression as expression;
    ghost use Rattle.lang_syntax.specs.declared.derived.Derived.{Derived};

    ghost Value = { Derived };

    ghost coded = { Prim.hlevel (codes, expression.the_row.coded) };

    ghost use Rattle.lang_syntax.specs.Looking.{derived_looks};

    ghost view = { λ formula. (formula.derived).value };

    ghost invariant = { λ formula. derived_looks ((formula.derived).value) ≡ true };
}

impl Formula {
    pub fn new(alloc: Global, derived: Derived) -> Result<Formula, OutOfMemory>
        requires looks { derived_looks derived ≡ true }
        ensures derived { IfOk result (λ formula. formula ≡ derived) }
    {
        Ok(Formula {
            derived: Rc::new(alloc, derived)?,
        })
    }

    pub fn derived(&self) -> &Derived
        ensures derived { result.now ≡ self.now }
        ensures looks { derived_looks result.now ≡ true }
    {
        self.derived.as_ref()
    }

    /// The same once more.
    pub fn share(&self) -> Result<Formula, OutOfMemory>
        ensures derived { IfOk result (λ formula. formula ≡ self.now) }
    {
        Ok(Formula {
            derived: self.derived.clone()?,
        })
    }
}
