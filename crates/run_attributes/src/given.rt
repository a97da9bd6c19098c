//! What the attribute slots of a matched block write.

ghost use Rattle.std.specs.Prelude.{◌≡◌, ◌++◌, map, IfOk, OnOk};
ghost use Rattle.run_places.specs.Places.{side_of};
ghost use Rattle.run_places.specs.Trails.{place_on};
ghost use Rattle.run_attributes.specs.Given.{AreWritten, block_written, edits_of, element_written, elements_written, entries_of, entry_is_slot, entry_written, pass_of, piece_elements, slot_among, template_elements};

use crate::content::attributes_in;
use crate::slot::{come, left};
use rt_edits::Edit;
use rt_values::{List, OutOfMemory, Shared};
use run_places::{Kind, Path, Piece, Side, Trail, pieces_of};
use std::alloc::Global;
use tree_nodes::{Attribute, Parts, Template, TemplateAttribute, VNode};

/// One of the two passes over the slots of a block.
#[derive(Clone, Copy, Debug, PartialEq, Eq)]
pub(crate) enum Pass {
    /// What is no longer there.
    Left,
    /// What is new or differs.
    Come,
}

/// The entries of an element in its template, with its number.
#[derive(Drop)]
pub(crate) struct Entries {
    pub number: u64,
    pub entries: Shared<TemplateAttribute>,
}

/// What the attribute slots of a tree at a place write, where the old tree had the same template:
/// first what is no longer there, then what is new or differs.
pub fn attributes_written<P: Parts>(
    alloc: Global,
    side: &Side<P>,
    above: &Trail<'_>,
    new: &VNode<P>,
    old: &VNode<P>,
) -> Result<List<Edit>, OutOfMemory>
    ensures { IfOk result (λ edits.
        edits_of edits ≡ block_written (side_of side.now).numbers (place_on above.now) new.now old.now) }
{
    if new.dynamic_attrs.is_empty() && old.dynamic_attrs.is_empty() {
        return Ok(List::new(alloc));
    }
    passes_written(alloc, side, above, new, old)
}

// The same by the two passes.
fn passes_written<P: Parts>(
    alloc: Global,
    side: &Side<P>,
    above: &Trail<'_>,
    new: &VNode<P>,
    old: &VNode<P>,
) -> Result<List<Edit>, OutOfMemory>
    ensures { IfOk result (λ edits.
        AreWritten edits (side_of side.now).numbers (place_on above.now) new.now old.now) }
{
    let elements = elements_in(alloc, side, above, &new.template)?;
    let mut edits = List::new(alloc);
    let given = new.dynamic_attrs.as_slice();
    let former = old.dynamic_attrs.as_slice();
    write_elements(
        alloc,
        Pass::Left,
        given,
        former,
        elements.as_slice(),
        &mut edits,
    )?;
    write_elements(
        alloc,
        Pass::Come,
        given,
        former,
        elements.as_slice(),
        &mut edits,
    )?;
    Ok(edits)
}

// The elements of a template that have an attribute slot, depth first, each with its number.
#[tactic(auto, using(crate::proofs::Passes::elements))]
fn elements_in<P: Parts>(
    alloc: Global,
    side: &Side<P>,
    above: &Trail<'_>,
    template: &Template,
) -> Result<List<Entries>, OutOfMemory>
    ensures { IfOk result (λ elements. map entries_of elements
        ≡ template_elements (side_of side.now).numbers (place_on above.now) template.now) }
{
    let pieces = pieces_of(alloc, template.roots(), template.hints())?;
    let mut elements = List::new(alloc);
    for piece in pieces.as_slice() {
        add_element(alloc, side, above, template, piece, &mut elements)?;
    }
    Ok(elements)
}

// An element joins them, where it has an attribute slot: no other one writes, so none is asked for
// its number.
#[tactic(auto, using(crate::proofs::Passes::elements))]
fn add_element<P: Parts>(
    alloc: Global,
    side: &Side<P>,
    above: &Trail<'_>,
    template: &Template,
    piece: &Piece,
    elements: &mut List<Entries>,
) -> Result<(), OutOfMemory>
    ensures { OnOk result (map entries_of elements.new ≡ map entries_of elements.old
        ++ piece_elements (side_of side.now).numbers (place_on above.now) template.now piece.now) }
{
    match piece {
        Piece::Element { path, attrs } => {
            let given = attrs.as_slice();
            if !has_slot(given) {
                return Ok(());
            }
            let path = Path::Whole(path.as_slice());
            let place = Trail::Inside(&*above, template, &path);
            let number = side.number_on(&place, Kind::Element);
            let entries = attrs.share()?;
            elements.push(Entries { number, entries })
        }
        Piece::Text { path: _ } => Ok(()),
        Piece::Slot { id: _, path: _ } => Ok(()),
    }
}

// Whether one of the entries of an element is an attribute slot.
#[tactic(auto, using(crate::proofs::Passes::elements))]
fn has_slot(entries: &[TemplateAttribute]) -> bool
    ensures { result ≡ slot_among entries.now }
{
    for entry in entries {
        if is_slot(entry) {
            return true;
        }
    }
    false
}

#[tactic(auto, using(crate::proofs::Passes::elements))]
fn is_slot(entry: &TemplateAttribute) -> bool
    ensures { result ≡ entry_is_slot entry.now }
{
    match entry {
        TemplateAttribute::Static {
            name: _,
            namespace: _,
            value: _,
        } => false,
        TemplateAttribute::Dynamic { id: _ } => true,
    }
}

// What one pass over these elements writes.
#[tactic(auto, using(crate::proofs::Passes::passing))]
fn write_elements<P: Parts>(
    alloc: Global,
    pass: Pass,
    new: &[List<Attribute<P>>],
    old: &[List<Attribute<P>>],
    elements: &[Entries],
    edits: &mut List<Edit>,
) -> Result<(), OutOfMemory>
    ensures { OnOk result (edits_of edits.new
        ≡ edits_of edits.old ++ elements_written pass new.now old.now elements.now) }
{
    for element in elements {
        write_element(alloc, pass, new, old, element, edits)?;
    }
    Ok(())
}

#[tactic(auto, using(crate::proofs::Passes::passing))]
fn write_element<P: Parts>(
    alloc: Global,
    pass: Pass,
    new: &[List<Attribute<P>>],
    old: &[List<Attribute<P>>],
    element: &Entries,
    edits: &mut List<Edit>,
) -> Result<(), OutOfMemory>
    ensures { OnOk result (edits_of edits.new
        ≡ edits_of edits.old ++ element_written pass new.now old.now element.now) }
{
    for entry in element.entries.as_slice() {
        write_entry(alloc, pass, new, old, entry, element.number, edits)?;
    }
    Ok(())
}

// An entry of the template writes nothing, a slot what it gives.
#[tactic(auto, using(crate::proofs::Passes::passing))]
fn write_entry<P: Parts>(
    alloc: Global,
    pass: Pass,
    new: &[List<Attribute<P>>],
    old: &[List<Attribute<P>>],
    entry: &TemplateAttribute,
    number: u64,
    edits: &mut List<Edit>,
) -> Result<(), OutOfMemory>
    ensures { OnOk result (edits_of edits.new
        ≡ edits_of edits.old ++ entry_written pass new.now old.now number entry.now) }
{
    match entry {
        TemplateAttribute::Static {
            name: _,
            namespace: _,
            value: _,
        } => Ok(()),
        TemplateAttribute::Dynamic { id } => {
            let new = attributes_in(new, *id);
            let old = attributes_in(old, *id);
            write_slot(alloc, pass, new, old, number, edits)
        }
    }
}

fn write_slot<P: Parts>(
    alloc: Global,
    pass: Pass,
    new: &[Attribute<P>],
    old: &[Attribute<P>],
    number: u64,
    edits: &mut List<Edit>,
) -> Result<(), OutOfMemory>
    ensures { OnOk result (edits_of edits.new
        ≡ edits_of edits.old ++ pass_of pass new.now old.now number) }
{
    match pass {
        Pass::Left => left(alloc, old, new, number, edits),
        Pass::Come => come(alloc, new, old, number, edits),
    }
}
