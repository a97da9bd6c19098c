//! What a click makes of the number, and what the button shows of all that came. The functions do
//! nothing: what each claims is its contract, which follows of the laws that it names.
ghost use Rattle.examples_template.specs.Sentences.{ButtonShowsFold, CellsFold, ClickRaises, OneClick, ReportRaises, RootShows};

use rt_author::{
    NoData, elm_programs_fold, elm_programs_show, one_hears, own_pages_show, pages_are_lawful,
    reports_reduce, rows_are_sessions,
};

/// A click that the listener of a cell alone hears raises its number by one.
pub fn click_raises()
    ensures { ClickRaises }
{
    one_hears::<NoData, NoData, u64, u64, NoData, NoData, NoData>();
}

/// So the number is one more after the report of such a click.
pub fn report_raises()
    ensures { ReportRaises }
{
    click_raises();
    reports_reduce::<NoData, NoData, u64, u64, NoData, NoData, NoData>();
}

/// After the last report the button shows what the fold of all inputs makes of its number.
pub fn button_shows_fold()
    ensures { ButtonShowsFold }
{
    own_pages_show::<NoData, NoData, u64, u64, NoData, NoData, NoData>();
    pages_are_lawful::<NoData, NoData, u64, u64, NoData, NoData, NoData>();
}

/// So it does in the scope of the application's root, whoever hears the inputs and whatever the logs
/// are.
pub fn root_shows()
    ensures { RootShows }
{
    elm_programs_show::<NoData, NoData, u64, u64, NoData, NoData, NoData>();
    pages_are_lawful::<NoData, NoData, u64, u64, NoData, NoData, NoData>();
}

/// And each cell has what that fold makes of it.
pub fn cells_fold()
    ensures { CellsFold }
{
    elm_programs_fold::<NoData, NoData, u64, u64, NoData, NoData, NoData>();
    pages_are_lawful::<NoData, NoData, u64, u64, NoData, NoData, NoData>();
}

/// A test: every finished session with one click at the button has these two reports.
pub fn one_click()
    ensures { OneClick }
{
    rows_are_sessions::<NoData, NoData, u64, u64, NoData, NoData, NoData>();
}
