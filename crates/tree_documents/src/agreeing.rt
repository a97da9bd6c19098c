//! One edit, edits one after another, and what the mirror keeps.
ghost use Rattle.std.specs.Prelude.{◌≡◌, [], List as Items, Ok, map};
ghost use Rattle.rt_edits.specs.Document.{apply};
ghost use Rattle.rt_edits.specs.Laws.{IsNumbered};
ghost use Rattle.rt_edits.specs.Nodes.{numbers, times};
ghost use Rattle.rt_edits.specs.declared.doc_node.DocNode.{DocNode};
ghost use Rattle.rt_edits.specs.declared.edit.Edit.{Edit};
ghost use Rattle.rt_model.specs.Document.{Forest, Empty, document_after};
ghost use Rattle.tree_edits.specs.Documents.{edit_of, forest_of};
ghost use Rattle.tree_documents.specs.Agrees.{AreAlike, Makes, model_apply};
ghost use Rattle.tree_documents.specs.Cuts.{ReportsShow};
ghost use Rattle.rt_model.specs.OneLog.{types};

/// Of a document without the number 0 an edit makes at the mirror what the definitions say, and it
/// is refused for the same cause.
pub fn edits_agree()
    ensures { (edit : Edit) (nodes : Items DocNode) → times 0 (numbers nodes) ≡ 0 →
        AreAlike (apply edit nodes) (model_apply (edit_of edit) (forest_of nodes)) }
{}

/// Edits that the definitions make of the empty document are made of it one after another, and
/// what they make is the same at the mirror.
pub fn documents_agree()
    ensures { (edits : Items Edit) (made : Forest) →
        document_after (map edit_of edits) Empty ≡ Ok made → Makes edits [] made }
{}

/// The same of any document whose numbers are good, as each is that edits have led to.
pub fn documents_go_on_alike()
    ensures { (edits : Items Edit) (nodes : Items DocNode) (made : Forest) → IsNumbered nodes →
        document_after (map edit_of edits) (forest_of nodes) ≡ Ok made → Makes edits nodes made }
{}

/// Where a session's edits are cut by the counts of its reports and made of a document, beginning
/// with none, no edit is refused, and after each report the document is what shows.
pub fn reports_show<C, P, V, H, T, E, L>()
    ensures { ReportsShow (types C P V H T E L) }
{}

/// Two documents with one mirror are the same.
pub fn documents_are_one()
    ensures { (a b : Items DocNode) → forest_of a ≡ forest_of b → a ≡ b }
{}

/// Two lists of edits with one mirror are the same.
pub fn edits_are_one()
    ensures { (a b : Items Edit) → map edit_of a ≡ map edit_of b → a ≡ b }
{}
