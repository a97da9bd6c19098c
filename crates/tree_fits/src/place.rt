//! Where a walk through a template stands.

ghost use Rattle.std.specs.Prelude.{◌≡◌};
ghost use Rattle.std.specs.Str.{bytes_eq};
ghost use Rattle.tree_fits.specs.Place.{path_of};

/// A node's place in a template: below its parent, at its index there.
#[derive(Drop)]
pub(crate) enum Place<'a> {
    Top,
    Below(&'a Place<'a>, u8),
}

/// Whether a path leads to the place.
pub(crate) fn leads_to(path: &[u8], place: &Place<'_>) -> bool
    ensures { result ≡ bytes_eq path.now (path_of place.now) }
{
    match (path, place) {
        ([], Place::Top) => true,
        ([front @ .., last], Place::Below(parent, index)) => {
            *last == *index && leads_to(front, parent)
        }
        _ => false,
    }
}
