//! Open work.

use run_places::{Kind, Place, SideName};
use tree_nodes::{Parts, VComponent};

/// A step in the work of a suspense boundary's run.
#[derive(Clone, Copy, Debug, PartialEq, Eq)]
pub enum RowStep {
    PatchChildren,
    MadeChildren,
    RunFallback,
    ShowFallback,
    ShowChildren,
    DropFallback,
    Resolve,
}

/// Open work: a number to draw, a step of a boundary, a child to feed, to make or to drop.
#[derive(Drop)]
pub enum Item<P: Parts> {
    Draw {
        scope: u64,
        side: SideName,
        place: Place,
        kind: Kind,
    },
    Row {
        boundary: u64,
        step: RowStep,
    },
    Feed {
        scope: u64,
        side: SideName,
        place: Place,
        component: VComponent<P>,
    },
    Make {
        scope: u64,
        side: SideName,
        place: Place,
        component: VComponent<P>,
    },
    Drop {
        child: u64,
        scope: u64,
        side: SideName,
    },
}
