//! Statements that may stand outside of bodies.
ghost use Rattle.std.specs.Prelude.{◌≡◌, true};
ghost use Rattle.lang_syntax.specs.Outside.{stand_outside};

use crate::statement::Statement;
use rt_values::List;
use std::marker::Model;

/// The statements of an action, or of a step of a task. What stands in bodies alone isn't among them:
/// whoever writes one down shows that.
#[derive(Debug, Drop)]
pub struct OutsideStatements {
    pub statements: List<Statement>,
}

impl Model for OutsideStatements {
    ghost use Rattle.std.specs.Prelude.{List as Items, ◌≡◌, true};
    ghost use Rattle.std.specs.Coded.{coded_list};
    ghost use Rattle.lang_syntax.specs.contracts.statement.Statement as statement;
    ghost use Rattle.lang_syntax.specs.declared.statement.Statement.{Statement};

    ghost Value = { Items Statement };

    ghost coded = { coded_list statement.the_row.coded };

    ghost use Rattle.lang_syntax.specs.Outside.{stand_outside};

    ghost view = { λ outside. outside.statements };

    ghost invariant = { λ outside. stand_outside outside.statements ≡ true };
}

impl OutsideStatements {
    pub fn as_slice(&self) -> &[Statement]
        ensures statements { result.now ≡ self.now }
        ensures outside { stand_outside result.now ≡ true }
    {
        self.statements.as_slice()
    }
}
