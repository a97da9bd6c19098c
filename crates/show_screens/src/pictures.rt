//! Putting the rows of a screen that change, report by report.
ghost use Rattle.std.specs.Prelude.{◌≡◌, [], ◌∷◌, ◌++◌, List as Items, map, take, drop};
ghost use Rattle.rt_edits.specs.declared.doc_node.DocNode.{DocNode};
ghost use Rattle.tree_edits.specs.Documents.{forest_of};
ghost use Rattle.tree_documents.specs.Cuts.{LeadsTo};
ghost use Rattle.run_reports.specs.Seen.{report_of};
ghost use Rattle.rt_text.specs.Printed.{row_line, screen_line};
ghost use Rattle.rt_text.specs.Screens.{nodes_of, rows_of, width_of, height_of};
ghost use Rattle.show_screens.specs.Drawing.{Draws, LeadAlong, ShowInTurn};
ghost use Rattle.show_words.specs.Pictures.{pictures, screen_text};
ghost use Rattle.show_words.specs.Words.{IsSize};
ghost use Rattle.show_streams.specs.Writes.{Writes};

use rt_edits::Edit;
use rt_text::{Row, Screen, row_line, screen_line};
use run_reports::Report;
use show_streams::{Out, OutError};
use show_words::Size;
use std::alloc::Global;

/// Puts the line of a row.
fn put_row<O: Out>(alloc: Global, row: &Row, out: &mut O) -> Result<(), OutError>
    ensures writes { Writes (row_line row.now ∷ [])
        (O.puts out.old) (O.puts out.new) (O.faults out.old) (O.faults out.new) result }
{
    let line = row_line(alloc, row)?;
    out.put(line.as_slice())
}

/// Puts the lines of rows.
fn put_rows<O: Out>(alloc: Global, rows: &[Row], out: &mut O) -> Result<(), OutError>
    ensures writes { Writes (map row_line rows.now)
        (O.puts out.old) (O.puts out.new) (O.faults out.old) (O.faults out.new) result }
{
    for row in rows {
        put_row(alloc, row, out)?;
    }
    Ok(())
}

/// Puts the line with which the rows of a report begin.
fn put_screen<O: Out>(alloc: Global, number: u64, out: &mut O) -> Result<(), OutError>
    ensures writes { Writes (screen_line number ∷ [])
        (O.puts out.old) (O.puts out.new) (O.faults out.old) (O.faults out.new) result }
{
    let line = screen_line(alloc, number)?;
    out.put(line.as_slice())
}

/// Puts that line, and those of rows.
fn put_changed<O: Out>(
    alloc: Global,
    number: u64,
    rows: &[Row],
    out: &mut O,
) -> Result<(), OutError>
    ensures writes { Writes (screen_line number ∷ map row_line rows.now)
        (O.puts out.old) (O.puts out.new) (O.faults out.old) (O.faults out.new) result }
{
    put_screen(alloc, number, out)?;
    put_rows(alloc, rows, out)
}

/// Takes a report's edits, and puts the rows that they change.
fn put_picture<O: Out>(
    alloc: Global,
    screen: &mut Screen,
    number: u64,
    edits: &[Edit],
    out: &mut O,
) -> Result<(), OutError>
    ensures draws { (next : Items DocNode) → LeadsTo edits.now (nodes_of screen.old) next →
        Draws number next screen.old screen.new
        (O.puts out.old) (O.puts out.new) (O.faults out.old) (O.faults out.new) result }
{
    let Ok(()) = screen.take_all(alloc, edits) else {
        return Err(OutError::OutOfMemory);
    };
    let rows = screen.draw(alloc)?;
    put_changed(alloc, number, rows.as_slice(), out)
}

/// The first edits, so many as are counted, and those behind them.
fn cut(edits: &[Edit], count: u64) -> (&[Edit], &[Edit])
    ensures first { result.0.now ≡ take count edits.now }
    ensures behind { result.1.now ≡ drop count edits.now }
{
    if count >= edits.len() as u64 {
        (edits, &[])
    } else {
        edits.split_at(count as usize)
    }
}

/// Takes the edits of one report after another, and puts the rows that they change.
fn put_pictures<O: Out>(
    alloc: Global,
    screen: &mut Screen,
    edits: &[Edit],
    reports: &[Report],
    out: &mut O,
) -> Result<(), OutError>
    ensures writes { (documents : _) →
        LeadAlong (map report_of reports.now) edits.now (nodes_of screen.old) documents →
        Writes (pictures (width_of screen.old) (height_of screen.old) 0
        (rows_of screen.old) (map forest_of documents))
        (O.puts out.old) (O.puts out.new) (O.faults out.old) (O.faults out.new) result }
{
    let mut left = edits;
    for (number, report) in reports.iter().enumerate() {
        let (own, later) = cut(left, report.edits);
        put_picture(alloc, screen, number as u64, own, out)?;
        left = later;
    }
    Ok(())
}

/// Puts the rows of a screen of this size that change, report by report.
pub fn put_screens<O: Out>(
    alloc: Global,
    size: Size,
    edits: &[Edit],
    reports: &[Report],
    out: &mut O,
) -> Result<(), OutError>
    requires size { IsSize size }
    ensures writes { (shown : _) → ShowInTurn edits.now (map report_of reports.now) shown →
        Writes (screen_text size shown)
        (O.puts out.old) (O.puts out.new) (O.faults out.old) (O.faults out.new) result }
{
    let mut screen = Screen::new(alloc, size.width, size.height)?;
    put_pictures(alloc, &mut screen, edits, reports, out)
}

/// Puts the rows of a screen of this size that change, report by report, and one line more.
#[tactic(auto, using(show_words::proofs::Puts::writes_first))]
pub fn put_ended_screens<O: Out>(
    alloc: Global,
    size: Size,
    edits: &[Edit],
    reports: &[Report],
    line: &[u8],
    out: &mut O,
) -> Result<(), OutError>
    requires size { IsSize size }
    ensures writes { (shown : _) → ShowInTurn edits.now (map report_of reports.now) shown →
        Writes (screen_text size shown ++ line.now ∷ [])
        (O.puts out.old) (O.puts out.new) (O.faults out.old) (O.faults out.new) result }
{
    put_screens(alloc, size, edits, reports, out)?;
    out.put(line)
}
