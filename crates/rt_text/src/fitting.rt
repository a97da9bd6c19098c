//! Just as many rows as a screen has.
ghost use Rattle.std.specs.Prelude.{◌≡◌, IfOk};
ghost use Rattle.tree_edits.specs.Documents.{forest_of};
ghost use Rattle.rt_text.specs.Layout.{fitted, layout};

use crate::laying::lay_all;
use crate::lines::Writer;
use rt_edits::DocNode;
use rt_values::{List, OutOfMemory, Text};
use std::alloc::Global;

/// The first lines, and empty ones behind them where there are too few.
#[tactic(auto, using(crate::proofs::Fitted::rows_fit))]
pub(crate) fn fit(alloc: Global, height: usize, lines: Vec<Text>) -> Result<Vec<Text>, OutOfMemory>
    ensures fitted { IfOk result (λ rows. rows.items ≡ fitted height lines.items) }
{
    let mut rows = lines;
    rows.truncate(height);
    for _row in rows.len()..height {
        rows.push(Text::from_string(String::new(alloc)))?;
    }
    Ok(rows)
}

/// The rows of these nodes.
pub(crate) fn rows_for(
    alloc: Global,
    width: usize,
    height: usize,
    nodes: &[DocNode],
) -> Result<List<Text>, OutOfMemory>
    ensures rows { IfOk result (λ rows. rows ≡ layout width height (forest_of nodes.now)) }
{
    let mut writer = Writer::new(alloc);
    lay_all(alloc, width, &mut writer, nodes)?;
    writer.close(alloc)?;
    let Writer { done, line: _ } = writer;
    Ok(List::from_vec(fit(alloc, height, done)?))
}
