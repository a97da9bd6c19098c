//! Paths of a template's slots.
ghost use Rattle.std.specs.Prelude.{◌≡◌};
ghost use Rattle.rt_model.specs.Lists.{same_numbers};
ghost use Rattle.run_named.specs.Named.{slot_at};

use rt_values::List;

/// How many paths come before the one that is this.
pub(crate) fn slot_at(paths: &[List<u8>], path: &[u8]) -> u64
    ensures { result ≡ slot_at paths.now path.now }
{
    for index in 0..paths.len() {
        if is_path(paths[index].as_slice(), path) {
            return index as u64;
        }
    }
    paths.len() as u64
}

/// Whether two paths are one.
fn is_path(left: &[u8], right: &[u8]) -> bool
    ensures { result ≡ same_numbers left.now right.now }
{
    if left.len() != right.len() {
        return false;
    }
    for at in 0..left.len() {
        if left[at] != right[at] {
            return false;
        }
    }
    true
}
