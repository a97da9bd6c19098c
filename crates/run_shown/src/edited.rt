//! Edits one after another, which end where a refused place is reached.

ghost use Rattle.std.specs.Prelude.{◌≡◌, if◌then◌else◌, [], ◌∷◌, map, IfOk};
ghost use Rattle.rt_model.specs.Caused as caused;
ghost use Rattle.tree_edits.specs.Documents.{edit_of};
ghost use Rattle.run_shown.specs.Written.{edited_of};

use rt_edits::Edit;
use rt_values::{List, OutOfMemory};
use std::alloc::Global;

/// Edits, and whether the refused place was reached.
#[derive(Drop)]
pub(crate) struct Edited {
    pub edits: List<Edit>,
    pub stopped: bool,
}

/// Nothing, without a stop.
pub(crate) fn nothing(alloc: Global) -> Edited
    ensures { edited_of result ≡ caused.writes [] }
{
    writes(List::new(alloc))
}

/// These edits, without a stop.
pub(crate) fn writes(edits: List<Edit>) -> Edited
    ensures { edited_of result ≡ caused.writes (map edit_of edits) }
{
    Edited {
        edits,
        stopped: false,
    }
}

/// The refused place is reached, and nothing is written.
pub(crate) fn halts(alloc: Global) -> Edited
    ensures { edited_of result ≡ caused.halts }
{
    Edited {
        edits: List::new(alloc),
        stopped: true,
    }
}

#[tactic(auto, using(crate::proofs::Writings::writings))]
pub(crate) fn one_edit(alloc: Global, edit: Edit) -> Result<Edited, OutOfMemory>
    ensures { IfOk result (λ written. edited_of written ≡ caused.writes (edit_of edit ∷ [])) }
{
    let mut edits = List::new(alloc);
    edits.push(edit)?;
    Ok(writes(edits))
}

/// One part and then a stop, where it is the one.
#[tactic(auto, using(crate::proofs::Writings::writings))]
pub(crate) fn then_stop(alloc: Global, first: Edited, stops: bool) -> Result<Edited, OutOfMemory>
    ensures { IfOk result (λ both. edited_of both
        ≡ caused.then_on (edited_of first) (if stops then caused.halts else caused.writes [])) }
{
    if stops {
        return then_on(first, halts(alloc));
    }
    Ok(first)
}

/// One part and then another one, which writes nothing where the first one was stopped.
#[tactic(auto, using(crate::proofs::Writings::writings))]
pub(crate) fn then_on(first: Edited, second: Edited) -> Result<Edited, OutOfMemory>
    ensures { IfOk result (λ both. edited_of both
        ≡ caused.then_on (edited_of first) (edited_of second)) }
{
    if first.stopped {
        return Ok(first);
    }
    if first.edits.is_empty() {
        return Ok(second);
    }
    let Edited {
        mut edits,
        stopped: _,
    } = first;
    let Edited {
        edits: more,
        stopped,
    } = second;
    edits.append(more)?;
    Ok(Edited { edits, stopped })
}
