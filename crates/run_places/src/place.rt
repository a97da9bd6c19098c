//! Places in a scope's tree.

ghost use Rattle.std.specs.Prelude.{◌≡◌, ◌↔◌, ◌++◌, ◌∷◌, [], IfOk, IsTrue};
ghost use Rattle.std.specs.Option.{option_copied};
ghost use Rattle.rt_model.specs.Tree.{item, same_kind, same_place};
ghost use Rattle.tree_mirror.specs.Sealed.{template_of};
ghost use Rattle.run_places.specs.Parted.{steps_in};
ghost use Rattle.run_places.specs.Places.{at_path, kind_of, place_of};

use rt_values::{List, OutOfMemory, Part, Shared, both, copy_slice, same_slice};
use std::alloc::Global;
use std::marker::Model;
use tree_nodes::Template;

/// What kind of document node stands at a place.
#[derive(Clone, Copy, Debug, PartialEq, Eq)]
pub enum Kind {
    /// An element of a template.
    Element,
    /// A text of a template.
    StaticText,
    /// The text of a slot.
    Text,
    /// The placeholder of a slot.
    Placeholder,
    /// The placeholder of a fragment without items.
    EmptyFragment,
}

/// A step of a place.
#[derive(Drop)]
pub enum Step {
    /// A template with the path of a node in it.
    Inside {
        template: Template,
        path: Shared<u8>,
    },
    /// An item of a fragment, by its position from 0.
    Item {
        position: u64,
    },
}

/// Where something stands in a scope's tree, from the root's step down. The places of one tree's
/// nodes share all steps but the last.
#[derive(Drop)]
pub struct Place {
    above: Shared<Step>,
    last: Option<Step>,
}

impl Model for Place {
    ghost use Rattle.std.specs.Prelude.{List};
    ghost use Rattle.std.specs.Coded.{codes};
    ghost use Rattle.tree_nodes.specs.contracts.template.TemplateNode as node;
    ghost use Rattle.run_places.specs.Parted.{steps_in};
    ghost use Rattle.run_places.specs.declared.place.Step.{Step};

    ghost Value = { List Step };

    ghost coded = { Prim.hlevel (codes, node.the_row.coded) };

    ghost view = { λ place. steps_in place.above place.last };
}

impl Part for Step {
    fn same(&self, other: &Step) -> bool {
        match (self, other) {
            (
                Step::Inside { template, path },
                Step::Inside {
                    template: other_template,
                    path: other_path,
                },
            ) => path.same(other_path) && template.same(other_template),
            (
                Step::Item { position },
                Step::Item {
                    position: other_position,
                },
            ) => *position == *other_position,
            _ => false,
        }
    }

    fn copy(&self, alloc: Global) -> Result<Step, OutOfMemory> {
        match self {
            Step::Inside { template, path } => {
                let template = template.copy(alloc)?;
                let path = path.share()?;
                Ok(Step::Inside { template, path })
            }
            Step::Item { position } => Ok(Step::Item {
                position: *position,
            }),
        }
    }
}

impl Place {
    /// The place to which a list of steps leads.
    pub fn at(steps: Shared<Step>) -> Place
        ensures steps { result ≡ steps }
    {
        Place {
            above: steps,
            last: None,
        }
    }

    /// The place one step below a list of steps, which other places may share.
    pub fn below(above: Shared<Step>, last: Step) -> Place
        ensures steps { result ≡ above ++ last ∷ [] }
    {
        Place {
            above,
            last: Some(last),
        }
    }

    /// The steps of the list, and the step below it, if there is one.
    pub fn parts(&self) -> (&[Step], Option<&Step>)
        ensures parts { self.now ≡ steps_in result.0.now (option_copied result.1) }
    {
        (self.above.as_slice(), self.last.as_ref())
    }

    /// All steps in one list.
    pub fn steps(&self, alloc: Global) -> Result<Shared<Step>, OutOfMemory>
        ensures steps { IfOk result (λ steps. steps ≡ self.now) }
    {
        match &self.last {
            Some(last) => steps_below(alloc, self.above.as_slice(), last),
            None => self.above.share(),
        }
    }
}

impl Part for Place {
    fn same(&self, other: &Place) -> bool {
        match (&self.last, &other.last) {
            (Some(last), Some(other_last)) => {
                last.same(other_last) && self.above.same(&other.above)
            }
            (Some(last), None) => is_whole(self.above.as_slice(), last, other.above.as_slice()),
            (None, Some(last)) => is_whole(other.above.as_slice(), last, self.above.as_slice()),
            (None, None) => self.above.same(&other.above),
        }
    }

    fn copy(&self, alloc: Global) -> Result<Place, OutOfMemory> {
        let (above, last) = both(self.above.share(), self.last.copy(alloc))?;
        Ok(Place { above, last })
    }
}

// Steps and one more in one list.
fn steps_below(alloc: Global, above: &[Step], last: &Step) -> Result<Shared<Step>, OutOfMemory>
    ensures { IfOk result (λ steps. steps ≡ above.now ++ last.now ∷ []) }
{
    let mut steps = List::from_vec(copy_slice(alloc, above)?);
    steps.push(last.copy(alloc)?)?;
    Shared::from_list(alloc, steps)
}

/// Whether steps and one more are these.
#[tactic(auto, using(crate::proofs::Trails::trails))]
pub(crate) fn is_whole(above: &[Step], last: &Step, whole: &[Step]) -> bool
    ensures { IsTrue result ↔ (above.now ++ last.now ∷ [] ≡ whole.now) }
{
    match whole {
        [] => false,
        [front @ .., end] => last.same(end) && same_slice(above, front),
    }
}

/// Whether two places are one.
pub fn is_same_place(left: &Place, right: &Place) -> bool
    ensures { result ≡ same_place (place_of left.now) (place_of right.now) }
{
    left.same(right)
}

/// Whether two kinds are one.
pub fn is_same_kind(left: Kind, right: Kind) -> bool
    ensures { result ≡ same_kind (kind_of left) (kind_of right) }
{
    match left {
        Kind::Element => matches!(right, Kind::Element),
        Kind::StaticText => matches!(right, Kind::StaticText),
        Kind::Text => matches!(right, Kind::Text),
        Kind::Placeholder => matches!(right, Kind::Placeholder),
        Kind::EmptyFragment => matches!(right, Kind::EmptyFragment),
    }
}

/// The place of the node with a path in the template of a tree that stands at `above`.
#[tactic(auto, using(crate::proofs::Stands::appended))]
pub fn place_inside(
    alloc: Global,
    above: &Place,
    template: &Template,
    path: &Shared<u8>,
) -> Result<Place, OutOfMemory>
    ensures { IfOk result (λ place.
        place_of place ≡ at_path (template_of template.now) (place_of above.now) path.now) }
{
    let (template, path) = both(template.copy(alloc), path.share())?;
    below(alloc, above, Step::Inside { template, path })
}

/// The place of the item with a position in the fragment at a place.
#[tactic(auto, using(crate::proofs::Stands::appended))]
pub fn place_of_item(alloc: Global, above: &Place, position: u64) -> Result<Place, OutOfMemory>
    ensures { IfOk result (λ place. place_of place ≡ place_of above.now ++ item position ∷ []) }
{
    below(alloc, above, Step::Item { position })
}

// The place one step below another.
fn below(alloc: Global, above: &Place, step: Step) -> Result<Place, OutOfMemory>
    ensures { IfOk result (λ place. place ≡ above.now ++ step ∷ []) }
{
    let steps = above.steps(alloc)?;
    Ok(Place::below(steps, step))
}
