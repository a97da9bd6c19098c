//! The law of the test.
ghost use Rattle.author_given.specs.Same.{GivenTests};

/// A test of components and one of what is their own decide props with children.
pub fn given_tests<C, Q>()
    ensures { GivenTests C Q }
{}
