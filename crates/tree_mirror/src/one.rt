//! What is one at the mirror is one.

ghost use Rattle.tree_mirror.specs.One.{ComponentsAreOne};

/// Two components of code with one value of the definitions are one.
pub fn components_are_one<P, C, Q, V, H, T, E, L>()
    ensures { ComponentsAreOne P C Q V H T E L }
{}
