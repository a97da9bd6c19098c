//! Laws of a patch from one time to a later one.

ghost use Rattle.rt_model.specs.OneLog.{types};
ghost use Rattle.rt_model.specs.World.{Application};
ghost use Rattle.rt_tree.specs.Runs.{RunsInOrder, RunsTell};
ghost use Rattle.rt_tree.specs.Works.{RunsWork};

/// Marks go by in order, and the edits that a patch gives are what is written at them, each by
/// what both blocks had when it came up.
pub fn runs_in_order<P, C, Q, V, H, T, E, L>()
    ensures { (app : Application (types C Q V H T E L)) → RunsInOrder P app }
{}

/// The child scopes that go, and the numbers, are told in the order of the marks that leave them.
pub fn runs_tell<P, C, Q, V, H, T, E, L>()
    ensures { (app : Application (types C Q V H T E L)) → RunsTell P app }
{}

/// Where each component that stays has its child scope, steps do the work that marks open, one
/// thing after another: a number is drawn for each node that comes, and told by the words of its
/// place; a scope is made for each component that comes; the child scope of each that stays is fed.
pub fn runs_work<P, C, Q, V, H, T, E, L>()
    ensures { (app : Application (types C Q V H T E L)) → RunsWork P app }
{}
