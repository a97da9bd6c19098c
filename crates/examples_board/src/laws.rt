//! What shows of the board. The functions do nothing: what each claims is its contract, which
//! follows of the laws that it names.
ghost use Rattle.examples_board.specs.Sentences.{NewsShow, RetryShowsNews};

use crate::parts::{Cells, Component, Loading, Props};
use rt_author::{NoData, bodies_show, cells_last, heard_entries_write};

/// Where every output is current, the news show once someone has tried again.
pub fn news_show()
    ensures { NewsShow }
{
    bodies_show::<Component, Props, u64, Cells, Loading, u64, NoData>();
}

/// After the refusal's button has tried again the news show.
pub fn retry_shows_news()
    ensures { RetryShowsNews }
{
    news_show();
    heard_entries_write::<Component, Props, u64, Cells, Loading, u64, NoData>();
    cells_last::<Component, Props, u64, Cells, Loading, u64, NoData>();
}
