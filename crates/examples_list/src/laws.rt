//! What shows of the list: its items, and after "Add" one more of them. The functions do nothing:
//! what each claims is its contract, which follows of the laws that it names.
ghost use Rattle.examples_list.specs.Sentences.{AddShowsOneMore, HeardInTurn, ListsFold, ListsShow, ListsShowValues};

use crate::parts::{Change, Component, Value};
use examples_library::FieldProps;
use rt_author::{
    NoData, Text, events_update, heard_entries_update, one_page_shows, pages_are_lawful,
    pages_keep_cells, pages_reduce, pages_show_values,
};

/// Where every output is current, the list shows the items of its cell.
pub fn lists_show()
    ensures { ListsShow }
{
    one_page_shows::<Component, FieldProps, Value, Change, NoData, NoData, Text>();
}

/// After "Add" the list shows one item more: that of the words that were typed.
pub fn add_shows_one_more()
    ensures { AddShowsOneMore }
{
    lists_show();
    heard_entries_update::<Component, FieldProps, Value, Change, NoData, NoData, Text>();
    pages_keep_cells::<Component, FieldProps, Value, Change, NoData, NoData, Text>();
}

/// A log from where listeners wait begins with their entries, after which the values are what they
/// make of them, one after another.
pub fn heard_in_turn()
    ensures { HeardInTurn }
{
    events_update::<Component, FieldProps, Value, Change, NoData, NoData, Text>();
}

/// Where no cell comes or goes after the build, the values after the last report are the fold of
/// the inputs over those after the build.
pub fn lists_fold()
    ensures { ListsFold }
{
    pages_reduce::<Component, FieldProps, Value, Change, NoData, NoData, Text>();
}

/// From its scope's first run on the list shows its page's function of the present values.
pub fn lists_show_values()
    ensures { ListsShowValues }
{
    pages_show_values::<Component, FieldProps, Value, Change, NoData, NoData, Text>();
    pages_are_lawful::<Component, FieldProps, Value, Change, NoData, NoData, Text>();
}
