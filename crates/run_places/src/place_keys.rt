//! Keys of places: one place has one key, and others seldom have it. They ascend along a tree as far
//! as its places have few and small numbers.

ghost use Rattle.std.specs.Prelude.{◌≡◌, ◌<◌};
ghost use Rattle.run_places.specs.PlaceKeys.{kind_key, large, led, middle, mixed, path_key, place_key, small, step_key, steps_key, tiny};
ghost use Rattle.run_places.specs.Trails.{path_of, steps_of};

use crate::place::{Kind, Place, Step};
use crate::trail::{Path, Trail};

/// Before what the keys of components are made.
pub(crate) const SEAT: u64 = 6;

/// The key of a place at which a node of a kind stands.
pub(crate) fn place_key(place: &Place, kind: Kind) -> u64
    ensures { result ≡ place_key place.now kind }
{
    key_from(place, kind_key(kind))
}

/// The key of a place, before what another key stands for.
#[tactic(auto, using(crate::proofs::Trails::trails))]
pub(crate) fn key_from(place: &Place, rest: u64) -> u64
    ensures { result ≡ steps_key place.now rest }
{
    let (above, last) = place.parts();
    match last {
        Some(last) => steps_key(above, step_key(last, rest)),
        None => steps_key(above, rest),
    }
}

// The key of steps before what another key stands for.
#[tactic(auto, using(crate::proofs::Trails::trails))]
fn steps_key(steps: &[Step], rest: u64) -> u64
    ensures { result ≡ steps_key steps.now rest }
{
    match steps {
        [] => rest,
        [front @ .., last] => steps_key(front, step_key(last, rest)),
    }
}

/// The key of where a walk stands, at a node of a kind.
pub(crate) fn trail_key(trail: &Trail<'_>, kind: Kind) -> u64
    ensures { result ≡ place_key (steps_of trail.now) kind }
{
    steps_key_on(trail, kind_key(kind))
}

/// The key of the steps to where a walk stands, before what another key stands for.
#[tactic(auto, using(crate::proofs::Trails::trails))]
pub(crate) fn steps_key_on(trail: &Trail<'_>, rest: u64) -> u64
    ensures { result ≡ steps_key (steps_of trail.now) rest }
{
    match trail {
        Trail::Root => rest,
        Trail::Inside(above, _, path) => steps_key_on(above, path_key_on(path, rest)),
        Trail::Item(above, position) => steps_key_on(above, led(*position, rest)),
        Trail::At(whole) => steps_key(whole.as_slice(), rest),
    }
}

// The key of a path before what another key stands for.
#[tactic(auto, using(crate::proofs::Trails::trails))]
fn path_key_on(path: &Path<'_>, rest: u64) -> u64
    ensures { result ≡ path_key (path_of path.now) rest }
{
    match path {
        Path::Top => rest,
        Path::Below(up, index) => path_key_on(up, led(*index, rest)),
        Path::Whole(whole) => path_key(whole, rest),
    }
}

fn kind_key(kind: Kind) -> u64
    ensures { result ≡ kind_key kind }
{
    match kind {
        Kind::Element => 1,
        Kind::StaticText => 2,
        Kind::Text => 3,
        Kind::Placeholder => 4,
        Kind::EmptyFragment => 5,
    }
}

fn step_key(step: &Step, rest: u64) -> u64
    ensures { result ≡ step_key step.now rest }
{
    match step {
        Step::Inside { template: _, path } => path_key(path.as_slice(), rest),
        Step::Item { position } => led(*position, rest),
    }
}

#[tactic(auto, using(crate::proofs::Trails::trails))]
fn path_key(path: &[u8], rest: u64) -> u64
    ensures { result ≡ path_key path.now rest }
{
    match path {
        [] => rest,
        [front @ .., last] => path_key(front, led(u64::from(*last), rest)),
    }
}

// A number before what a key stands for. Small numbers take few bits, and each begins with another
// one than where a place ends, so that keys ascend as places do while there is room.
fn led(index: u64, rest: u64) -> u64
    ensures { result ≡ led index rest }
{
    if index < 7 {
        tiny(index, rest)
    } else if index < 71 {
        small(index, rest)
    } else if index < 8263 {
        middle(index, rest)
    } else {
        large(index, rest)
    }
}

// Four bits of a key, from 1 to 7. The last eight bits are mixed of all numbers, so that places
// differ for which there is no room.
fn tiny(index: u64, rest: u64) -> u64
    requires { index < 7 }
    ensures { result ≡ tiny index rest }
{
    ((index + 1) * 4503599627370496 + rest / 256 / 16) * 256 + mixed(index, rest)
}

// Eight bits, which begin as 8 to 11.
fn small(index: u64, rest: u64) -> u64
    requires { index < 71 }
    ensures { result ≡ small index rest }
{
    ((index + 121) * 281474976710656 + rest / 256 / 256) * 256 + mixed(index, rest)
}

// Sixteen bits, which begin as 12 and 13.
fn middle(index: u64, rest: u64) -> u64
    requires { index < 8263 }
    ensures { result ≡ middle index rest }
{
    ((index + 49081) * 1099511627776 + rest / 256 / 65536) * 256 + mixed(index, rest)
}

// Twenty-four bits, which begin as 14.
fn large(index: u64, rest: u64) -> u64
    ensures { result ≡ large index rest }
{
    ((index % 1048576 + 14680064) * 4294967296 + rest / 256 / 16777216) * 256 + mixed(index, rest)
}

// A number mixed into the last eight bits.
fn mixed(index: u64, rest: u64) -> u64
    ensures mixed { result ≡ mixed index rest }
    ensures low { result < 256 }
{
    (rest % 256 * 37 + index % 256 + 1) % 256
}
