//! Laws of pages with derived cells.
ghost use Rattle.rt_model.specs.OneLog.{types};
ghost use Rattle.author_derived.specs.DerivedShow.{CurrentDerivedShow, KeptAreDerived, ReportsShowDerived};

use author_bodies::NoData;
use author_deriving::MemoTask;
use law_minding::sessions_keep_memos;

/// Where every output is current, a scope whose hooks kept the cells of its component shows what its
/// page gives of the present values of cells, and of derived ones what their formulas give, where
/// they hold that.
pub fn current_derived_show<C, Q, V, H, F, L>()
    ensures { CurrentDerivedShow C Q V H F L }
{}

/// The cell of a memo that is kept holds what its formula gives of the present values.
pub fn kept_are_derived<C, Q, V, H, T, E, L, F>()
    ensures { KeptAreDerived (types C Q V H T E L) F }
{}

/// After each report of a session whose headline holds, every such scope shows so, and each derived
/// cell is kept as memos are.
pub fn reports_show_derived<C, Q, V, H, F, L>()
    ensures { ReportsShowDerived C Q V H F L }
{
    sessions_keep_memos::<C, Q, V, H, MemoTask<V, F>, NoData, L, F>();
}
