//! A scope that comes: its row, and its place for what will be owed of it.
ghost use Rattle.std.specs.Prelude.{◌≡◌, ◌++◌, ◌∷◌, [], ℕ, List, OnErr, OnOk};
ghost use Rattle.run_records.specs.Kept.{scope_of};
ghost use Rattle.tree_mirror.specs.Sealed.{component_of};
ghost use Rattle.rt_model.specs.State.{new_scope};
ghost use Rattle.run_places.specs.Places.{side_name_of};

use crate::scopes::new_scope;
use rt_values::{List, OutOfMemory};
use run_owed::Owed;
use run_places::SideName;
use run_records::Scope;
use run_table::BoxedTable;
use std::alloc::Global;
use tree_nodes::{Parts, VComponent};

/// What a scope is made of.
#[derive(Drop)]
pub struct Coming<P: Parts> {
    pub component: VComponent<P>,
    pub parent: Option<u64>,
    pub height: u32,
    /// The side of its parent below which it stands.
    pub below: SideName,
}

/// Makes a scope, not yet run, after the others, with its place for what will be owed of it. A
/// refusal leaves all as it was.
pub(crate) fn enter_row<P: Parts>(
    alloc: Global,
    owed: &mut Owed,
    rows: &mut BoxedTable<Scope<P>>,
    fresh: &mut List<u64>,
    number: u64,
    coming: Coming<P>,
) -> Result<(), OutOfMemory>
    ensures rows { OnOk result ((x : Scope P P.Component P.Props P.Value P.Handler P.TaskState P.Effect P.Payload)
        × (scope_of x ≡ new_scope (component_of coming.component) coming.parent coming.height (side_name_of coming.below))
        × (rows.new ≡ rows.old ++ (number, x) ∷ [])) }
    ensures owed { OnOk result (owed.new ≡ record owed.old {
      scopes = owed.old.scopes ++ (number, coming.height) ∷ [];
    }) }
    ensures fresh { OnOk result (fresh.new ≡ fresh.old ++ number ∷ []) }
    ensures rows_err { OnErr result (rows.new ≡ rows.old) }
    ensures owed_err { OnErr result (owed.new ≡ owed.old) }
    ensures fresh_err { OnErr result (fresh.new ≡ fresh.old) }
{
    let Coming {
        component,
        parent,
        height,
        below,
    } = coming;
    let scope = new_scope(alloc, component, parent, height, below);
    rows.push(number, scope)?;
    match enter_number(owed, fresh, number, height as u64) {
        Ok(()) => Ok(()),
        Err(OutOfMemory) => {
            rows.take_last();
            Err(OutOfMemory)
        }
    }
}

/// Enters a number with its height, and after the fresh ones. A refusal leaves all as it was.
fn enter_number(
    owed: &mut Owed,
    fresh: &mut List<u64>,
    number: u64,
    height: u64,
) -> Result<(), OutOfMemory>
    ensures owed { OnOk result (owed.new ≡ record owed.old {
      scopes = owed.old.scopes ++ (number, height) ∷ [];
    }) }
    ensures fresh { OnOk result (fresh.new ≡ fresh.old ++ number ∷ []) }
    ensures owed_err { OnErr result (owed.new ≡ owed.old) }
    ensures fresh_err { OnErr result (fresh.new ≡ fresh.old) }
{
    fresh.push(number)?;
    match owed.enter_scope(number, height) {
        Ok(()) => Ok(()),
        Err(OutOfMemory) => {
            let _last = fresh.pop();
            Err(OutOfMemory)
        }
    }
}
