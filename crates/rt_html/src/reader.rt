//! Nodes of a text: what was read is written again, and is the answer only where this is the text.
ghost use Rattle.std.specs.Prelude.{◌≡◌, ◌↔◌, Some, IfOk, IfSome, IsTrue, OnOk, map, option_map};
ghost use Rattle.std.specs.List.{fold};
ghost use Rattle.rt_model.specs.Document.{Forest};
ghost use Rattle.rt_html.specs.Parts as reading;
ghost use Rattle.rt_html.specs.Parts.{Standing, added, end_by, standing_of, take_token};
ghost use Rattle.rt_html.specs.Reading.{IsSpelling, plain_below, plain_content, plain_row};
ghost use Rattle.rt_html.specs.Spelling.{html};
ghost use Rattle.rt_html.specs.Tokens.{plain};

use crate::again::put_row;
use crate::fitting::are_fit;
use crate::plain::Plain;
use crate::tokens::{Begin, begin_in, behind, cut, parts_at, unescaped};
use crate::writer::Writer;
use rt_values::{List, OutOfMemory};
use std::alloc::Global;
use std::mem;

/// How many levels nodes may have.
const LEVELS: u32 = 1024;

/// An element that is open: how it began, and the nodes before it in its row.
#[derive(Drop)]
struct Open {
    begin: Begin,
    before: List<Plain>,
}

/// What was read so far: the row that is under way, and the elements that are open around it.
#[derive(Drop)]
struct Reader {
    row: List<Plain>,
    around: List<Open>,
    is_refused: bool,
}

impl Reader {
    /// One more node in the row.
    fn add(&mut self, node: Plain) -> Result<(), OutOfMemory>
        ensures { OnOk result ((standing : Standing) → standing_of self.old ≡ Some standing
            → standing_of self.new
            ≡ Some (added (plain_content node) (plain_below node) standing)) }
    {
        self.row.push(node)?;
        Ok(())
    }

    /// An element begins, unless too many are open.
    fn begin(&mut self, alloc: Global, spelt: &str) -> Result<(), OutOfMemory>
        ensures { OnOk result ((standing : Standing) → standing_of self.old ≡ Some standing
            → standing_of self.new ≡ reading.begin_in spelt.now standing) }
    {
        if self.around.len() >= LEVELS as usize {
            self.is_refused = true;
            return Ok(());
        }
        let begin = begin_in(alloc, spelt)?;
        let before = mem::replace(&mut self.row, List::new(alloc));
        self.around.push(Open { begin, before })?;
        Ok(())
    }

    /// The element that began last ends, where one is open.
    fn end(&mut self) -> Result<(), OutOfMemory>
        ensures { OnOk result ((standing : Standing) → standing_of self.old ≡ Some standing
            → standing_of self.new ≡ end_by standing.opened standing.row) }
    {
        let Some(open) = self.around.pop() else {
            self.is_refused = true;
            return Ok(());
        };
        let Open { begin, before } = open;
        let Begin {
            tag,
            namespace,
            attrs,
        } = begin;
        let children = mem::replace(&mut self.row, before);
        self.row.push(Plain::Element {
            tag,
            namespace,
            attrs,
            children,
        })?;
        Ok(())
    }

    /// What stands behind a `<`, up to the next one.
    #[tactic(auto, using(crate::proofs::Plains::plain_parts))]
    fn take(&mut self, alloc: Global, part: &str) -> Result<(), OutOfMemory>
        ensures { OnOk result ((standing : Standing) → standing_of self.old ≡ Some standing
            → standing_of self.new ≡ take_token part.now standing) }
    {
        if let Some(spelt) = behind("!--t-->", part) {
            return self.add(Plain::Text(unescaped(alloc, spelt)?));
        }
        if let Some(_rest) = behind("!--p-->", part) {
            return self.add(Plain::Placeholder);
        }
        if let Some(_rest) = behind("/", part) {
            return self.end();
        }
        let (spelt, _behind) = cut('>', part);
        self.begin(alloc, spelt)
    }

    /// The same, unless something was refused before.
    fn take_on(&mut self, alloc: Global, part: &str) -> Result<(), OutOfMemory>
        ensures { OnOk result (standing_of self.new
            ≡ reading.take_on (standing_of self.old) part.now) }
    {
        if self.is_refused {
            return Ok(());
        }
        self.take(alloc, part)
    }

    /// All parts.
    fn take_all(&mut self, alloc: Global, parts: &[&str]) -> Result<(), OutOfMemory>
        ensures { OnOk result (standing_of self.new
            ≡ fold reading.take_on (standing_of self.old) (map (λ part. part.now) parts.now)) }
    {
        for part in parts {
            self.take_on(alloc, part)?;
        }
        Ok(())
    }

    /// The row, where nothing was refused and no element is left open.
    #[tactic(auto, using(crate::proofs::Stands::ends_of_reading))]
    fn finished(self) -> Option<List<Plain>>
        ensures { option_map plain_row result ≡ reading.finished (standing_of self) }
    {
        let Reader {
            row,
            around,
            is_refused,
        } = self;
        if is_refused {
            return None;
        }
        if around.is_empty() { Some(row) } else { None }
    }
}

/// The nodes of a text, where no part of it is refused and no element is left open.
fn nodes_in(alloc: Global, text: &str) -> Result<Option<List<Plain>>, OutOfMemory>
    ensures { IfOk result (λ found. option_map plain_row found ≡ reading.nodes_in text.now) }
{
    let (_before, rest) = cut('<', text);
    let Some(rest) = rest else {
        return Ok(Some(List::new(alloc)));
    };
    let parts = parts_at(alloc, '<', rest)?;
    let mut reader = Reader {
        row: List::new(alloc),
        around: List::new(alloc),
        is_refused: false,
    };
    reader.take_all(alloc, parts.as_slice())?;
    Ok(reader.finished())
}

/// Whether a text is the spelling of nodes: they are written again.
fn is_spelling(alloc: Global, text: &str, nodes: &[Plain]) -> Result<bool, OutOfMemory>
    ensures { IfOk result (λ same. IsTrue same ↔ (html (plain_row nodes.now) ≡ text.now)) }
{
    let mut writer = Writer::new(alloc);
    put_row(&mut writer, nodes)?;
    let again = writer.into_text();
    Ok(again.as_str() == text)
}

/// The nodes of which a text is the spelling, and which may be read. No second spelling is read.
pub fn read_html(alloc: Global, text: &str) -> Result<Option<List<Plain>>, OutOfMemory>
    ensures read { IfOk result (λ found. IfSome found (λ nodes.
        IsSpelling text.now (plain_row nodes))) }
    ensures found { IfOk result (λ found. (nodes : Forest) → IsSpelling text.now nodes
        → option_map plain_row found ≡ Some (plain nodes)) }
{
    let Some(nodes) = nodes_in(alloc, text)? else {
        return Ok(None);
    };
    if !are_fit(LEVELS, nodes.as_slice()) {
        return Ok(None);
    }
    let is_same = is_spelling(alloc, text, nodes.as_slice())?;
    if !is_same {
        return Ok(None);
    }
    Ok(Some(nodes))
}
