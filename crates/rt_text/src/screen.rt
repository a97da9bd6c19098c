//! A screen: it takes edits, and answers which rows changed.
ghost use Rattle.std.specs.Prelude.{◌≡◌, ◌≤◌, [], Ok, IfErr, IfOk, OnErr, OnOk};
ghost use Rattle.rt_edits.specs.Document.{apply, MayFail};
ghost use Rattle.rt_edits.specs.Laws.{IsNumbered};
ghost use Rattle.tree_edits.specs.Documents.{forest_of};
ghost use Rattle.tree_documents.specs.Cuts.{LeadsTo};
ghost use Rattle.rt_text.specs.Layout.{fitted, layout};
ghost use Rattle.rt_text.specs.Screens.{nodes_of, rows_of, width_of, height_of};
ghost use Rattle.rt_text.specs.Screens.{changed_rows, KeepsSize};

use crate::fitting::{fit, rows_for};
use crate::rows::{Row, changed};
use rt_edits::{DocFault, DocNode, Document, Edit};
use rt_values::{List, OutOfMemory, Text};
use std::alloc::Global;

/// A document, and the rows that it had when it was drawn last.
#[derive(Drop)]
pub struct Screen {
    document: Document,
    rows: List<Text>,
    width: u32,
    height: u32,
}

impl Screen {
    /// An empty screen of so many columns and rows.
    pub fn new(alloc: Global, width: u32, height: u32) -> Result<Screen, OutOfMemory>
        requires width { (1 ≤ width) × (width ≤ 200) }
        requires height { (1 ≤ height) × (height ≤ 200) }
        ensures size { IfOk result (λ s. (width_of s ≡ width) × (height_of s ≡ height)) }
        ensures nodes { IfOk result (λ s. nodes_of s ≡ []) }
        ensures rows { IfOk result (λ s. rows_of s ≡ fitted height []) }
    {
        let rows = fit(alloc, height as usize, Vec::new(alloc))?;
        Ok(Screen {
            document: Document::empty(alloc),
            rows: List::from_vec(rows),
            width,
            height,
        })
    }

    /// Makes an edit of the document. A fault leaves the screen as it was.
    pub fn take(&mut self, alloc: Global, edit: &Edit) -> Result<(), DocFault>
        ensures ok { OnOk result (apply edit.now (nodes_of self.old) ≡ Ok (nodes_of self.new)) }
        ensures cause { IfErr result (λ fault. MayFail edit.now (nodes_of self.old) fault) }
        ensures err { OnErr result (self.new ≡ self.old) }

        ensures numbered { OnOk result
            (IsNumbered (nodes_of self.old) → IsNumbered (nodes_of self.new)) }
        ensures rows { (rows_of self.new ≡ rows_of self.old) × KeepsSize self.old self.new }
    {
        self.document.apply(alloc, edit)
    }

    /// Makes edits one after another, up to the first that is refused. None is but for want of
    /// memory where they lead to a document.
    pub fn take_all(&mut self, alloc: Global, edits: &[Edit]) -> Result<(), DocFault>
        ensures ok { OnOk result (LeadsTo edits.now (nodes_of self.old) (nodes_of self.new)) }
        ensures refused { (next : _) → LeadsTo edits.now (nodes_of self.old) next →
            IfErr result (λ fault. fault ≡ DocFault.OutOfMemory) }
        ensures rows { (rows_of self.new ≡ rows_of self.old) × KeepsSize self.old self.new }
    {
        for edit in edits {
            self.take(alloc, edit)?;
        }
        Ok(())
    }

    /// The document's own row of nodes.
    pub fn nodes(&self) -> &[DocNode]
        ensures nodes { result.now ≡ nodes_of self.now }
    {
        self.document.nodes()
    }

    /// The rows as they were drawn last, from the top.
    pub fn rows(&self) -> &[Text]
        ensures rows { result.now ≡ rows_of self.now }
    {
        self.rows.as_slice()
    }

    /// Draws the document. The rows that are other than before, from the top.
    #[tactic(auto, using(crate::proofs::Fitted::rows_fit))]
    pub fn draw(&mut self, alloc: Global) -> Result<List<Row>, OutOfMemory>
        ensures rows { OnOk result (rows_of self.new
            ≡ layout (width_of self.old) (height_of self.old) (forest_of (nodes_of self.old))) }
        ensures changed { IfOk result
            (λ rows. rows ≡ changed_rows 0 (rows_of self.old) (rows_of self.new)) }
        ensures kept { (nodes_of self.new ≡ nodes_of self.old) × KeepsSize self.old self.new }
        ensures err { OnErr result (self.new ≡ self.old) }
    {
        let (width, height) = (self.width as usize, self.height as usize);
        let rows = rows_for(alloc, width, height, self.document.nodes())?;
        let changed = changed(alloc, self.rows.as_slice(), rows.as_slice())?;
        self.rows = rows;
        Ok(changed)
    }
}
