//! The lines in which rows that changed are printed.
ghost use Rattle.std.specs.Prelude.{◌≡◌, ◌++◌, IfOk, OnOk, decimal};
ghost use Rattle.json.specs.Print.{quoted};
ghost use Rattle.rt_text.specs.Printed.{row_line, screen_line};

use crate::rows::Row;
use itoa::Buffer;
use json::Writer;
use rt_values::{List, OutOfMemory, Text};
use std::alloc::Global;

/// Appends a word and a number.
fn put_number(line: &mut Vec<u8>, word: &str, number: u64) -> Result<(), OutOfMemory>
    ensures number { OnOk result (line.new.items
        ≡ line.old.items ++ (word.now ++ decimal number)) }
{
    let mut digits = Buffer::new();
    line.extend_from_slice(word.as_bytes())?;
    line.extend_from_slice(digits.format(number).as_bytes())?;
    Ok(())
}

/// Appends a text as JSON writes a string, by a writer with room of its own.
#[tactic(auto, using(crate::proofs::Quoted::printing))]
fn put_quoted(alloc: Global, line: &mut Vec<u8>, text: &Text) -> Result<(), OutOfMemory>
    ensures quoted { OnOk result (line.new.items ≡ line.old.items ++ quoted text.now) }
{
    let mut writer = Writer::new(Vec::new(alloc));
    writer.string(text.as_str())?;
    let bytes = writer.into_inner();
    line.extend_from_slice(bytes.as_slice())?;
    Ok(())
}

/// The line with which the rows of a report begin, of UTF-8 and with the newline that ends it.
pub fn screen_line(alloc: Global, number: u64) -> Result<List<u8>, OutOfMemory>
    ensures line { IfOk result (λ line. line ≡ screen_line number) }
{
    let mut line = Vec::new(alloc);
    put_number(&mut line, "screen ", number)?;
    line.extend_from_slice(b"\n")?;
    Ok(List::from_vec(line))
}

/// The line of a row: its number, and its text in quotes.
pub fn row_line(alloc: Global, row: &Row) -> Result<List<u8>, OutOfMemory>
    ensures line { IfOk result (λ line. line ≡ row_line row.now) }
{
    let mut line = Vec::new(alloc);
    put_number(&mut line, "row ", u64::from(row.at))?;
    line.extend_from_slice(b" ")?;
    put_quoted(alloc, &mut line, &row.text)?;
    line.extend_from_slice(b"\n")?;
    Ok(List::from_vec(line))
}
