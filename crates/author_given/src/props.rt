//! What a component is given of its own, and what stands in it.
ghost use Rattle.std.specs.Prelude.{◌≡◌, ◌↔◌, [], IsTrue, IfOk};
ghost use Rattle.author_given.specs.declared.props.Given.TheViews.{out-Given};

use rt_values::{OutOfMemory, Part, Shared};
use std::alloc::Global;

/// What a component is given: what is its own, and the components that stand in it, in order.
#[cycle(given)]
#[derive(Drop)]
pub struct Given<C: Part, Q: Part> {
    pub own: Q,
    /// Copies share them, so that a copy costs the same with any number of them.
    pub inside: Shared<Inside<C, Q>>,
}

/// A component that stands in another one, with what it is given.
#[cycle(given)]
#[derive(Drop)]
pub struct Inside<C: Part, Q: Part> {
    pub component: C,
    pub given: Given<C, Q>,
}

impl<C: Part, Q: Part> Given<C, Q> {
    /// Props without children.
    pub fn plain(own: Q) -> Given<C, Q>
        ensures own { (out-Given C Q result).own ≡ own }
        ensures inside { (out-Given C Q result).inside ≡ [] }
    {
        Given {
            own,
            inside: Shared::empty(),
        }
    }

    // Whether they are equal.
    #[cycle(same)]
    fn alike(&self, other: &Given<C, Q>) -> bool
        ensures { IsTrue result ↔ (self.now ≡ other.now) }
    {
        self.own.same(&other.own) && all_alike(self.inside.as_slice(), other.inside.as_slice())
    }
}

// Whether what stands inside is equal, in the same order.
#[cycle(same)]
fn all_alike<C: Part, Q: Part>(left: &[Inside<C, Q>], right: &[Inside<C, Q>]) -> bool
    ensures { IsTrue result ↔ (left.now ≡ right.now) }
{
    if left.len() != right.len() {
        return false;
    }
    for at in 0..left.len() {
        if !left[at].alike(&right[at]) {
            return false;
        }
    }
    true
}

impl<C: Part, Q: Part> Inside<C, Q> {
    // Whether they are equal.
    #[cycle(same)]
    fn alike(&self, other: &Inside<C, Q>) -> bool
        ensures { IsTrue result ↔ (self.now ≡ other.now) }
    {
        self.component.same(&other.component) && self.given.alike(&other.given)
    }

    /// An equal one.
    pub fn copied(&self, alloc: Global) -> Result<Inside<C, Q>, OutOfMemory>
        ensures copy { IfOk result (λ copied. copied ≡ self.now) }
    {
        Ok(Inside {
            component: self.component.copy(alloc)?,
            given: self.given.copy(alloc)?,
        })
    }
}

impl<C: Part, Q: Part> Part for Given<C, Q> {
    fn same(&self, other: &Given<C, Q>) -> bool {
        self.alike(other)
    }

    fn copy(&self, alloc: Global) -> Result<Given<C, Q>, OutOfMemory> {
        Ok(Given {
            own: self.own.copy(alloc)?,
            inside: self.inside.share()?,
        })
    }
}
