//! What lasts of the router, and that its finished sessions agree. The functions do nothing: what
//! each claims is its contract, which follows of the law that it names.
ghost use Rattle.examples_router.specs.Sentences.{LinksLast, NumbersStay, RouteLasts, RowsAreAll, SessionsAgree};

use crate::router::Component;
use rt_author::{NoData, cells_last, components_last, numbers_last, one_finish, rows_are_sessions};

/// The route stays until a call or an input writes its cell, or the cell's owner goes.
pub fn route_lasts()
    ensures { RouteLasts }
{
    cells_last::<Component, u64, u64, u64, NoData, NoData, NoData>();
}

/// A link leads where it leads until its scope is handed another one, or goes.
pub fn links_last()
    ensures { LinksLast }
{
    components_last::<Component, u64, u64, u64, NoData, NoData, NoData>();
}

/// A node of a scope keeps its number as long as the scope's trees have it.
pub fn numbers_stay()
    ensures { NumbersStay }
{
    numbers_last::<Component, u64, u64, u64, NoData, NoData, NoData>();
}

/// Two finished sessions with the same inputs have the same reports, edits and states.
pub fn sessions_agree()
    ensures { SessionsAgree }
{
    one_finish::<Component, u64, u64, u64, NoData, NoData, NoData>();
}

/// Logs that the definitions tell, to where nothing is owed, are those of every finished session.
pub fn rows_are_all()
    ensures { RowsAreAll }
{
    rows_are_sessions::<Component, u64, u64, u64, NoData, NoData, NoData>();
}
