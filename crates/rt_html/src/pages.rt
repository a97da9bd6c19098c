//! Pages, and pieces that take the place of what a page showed of a scope.
ghost use Rattle.std.specs.Prelude.{◌≡◌, ◌++◌, ◌↔◌, false, IfOk, IsErrOf};
ghost use Rattle.tree_edits.specs.Documents.{forest_of};
ghost use Rattle.rt_html.specs.Spelling as spelling;

use crate::error::HtmlError;
use crate::names::are_namable;
use crate::spelling::put_nodes;
use crate::writer::Writer;
use rt_edits::DocNode;
use rt_values::Text;
use std::alloc::Global;

/// Nodes in HTML, and a newline.
pub fn page_of(alloc: Global, nodes: &[DocNode]) -> Result<Text, HtmlError>
    ensures page { IfOk result (λ text. text ≡ spelling.page_html (forest_of nodes.now)) }
    ensures bad_name { IsErrOf result HtmlError.BadName
        ↔ (spelling.are_namable (forest_of nodes.now) ≡ false) }
{
    if !are_namable(nodes) {
        return Err(HtmlError::BadName);
    }
    let mut writer = Writer::new(alloc);
    put_nodes(&mut writer, nodes)?;
    writer.word("\n")?;
    Ok(writer.into_text())
}

/// Nodes in HTML within a template of this number, and a newline.
pub fn piece_of(alloc: Global, number: u64, nodes: &[DocNode]) -> Result<Text, HtmlError>
    ensures piece { IfOk result (λ text. text ≡ spelling.piece_html number (forest_of nodes.now)) }
    ensures bad_name { IsErrOf result HtmlError.BadName
        ↔ (spelling.are_namable (forest_of nodes.now) ≡ false) }
{
    if !are_namable(nodes) {
        return Err(HtmlError::BadName);
    }
    let mut writer = Writer::new(alloc);
    writer.word("<template id=\"")?;
    writer.decimal(number)?;
    writer.word("\">")?;
    put_nodes(&mut writer, nodes)?;
    writer.word("</template>\n")?;
    Ok(writer.into_text())
}
