//! What is written of a template, by which two are compared.

ghost use Rattle.std.specs.Prelude.{◌≡◌, ◌↔◌, IsTrue, IfOk, OnOk};
ghost use Rattle.tree_nodes.specs.Forms.{all_paths_in_form, attribute_in_form, attributes_in_form, empty_form, form_of, form_then, marked, node_in_form, nodes_in_form, paths_in_form, roots_in_form, space_in_form, text_in_form};

use crate::template::{TemplateAttribute, TemplateNode, TemplateParts};
use rt_values::{List, OutOfMemory, Text};
use std::alloc::Global;

// The first number that is a wide one.
const WIDE: u64 = 255;

/// What tells a template from all others: kinds, counts, numbers and the bytes of texts and paths
/// as they are met. A number from 255 on is a mark of 255, and itself a wide one.
#[derive(Drop)]
pub(crate) struct Form {
    marks: List<u8>,
    wides: List<u64>,
}

/// The form of a template's parts.
pub(crate) fn form_of(alloc: Global, parts: &TemplateParts) -> Result<Form, OutOfMemory>
    ensures { IfOk result (λ form. form ≡ form_of parts.now) }
{
    let mut form = blank(alloc);
    write_roots(alloc, parts.roots.as_slice(), &mut form)?;
    write_all_paths(alloc, parts.node_paths.as_slice(), &mut form)?;
    write_all_paths(alloc, parts.attr_paths.as_slice(), &mut form)?;
    Ok(form)
}

/// Writes the roots of a template, with their count, after what is written.
fn write_roots(alloc: Global, nodes: &[TemplateNode], form: &mut Form) -> Result<(), OutOfMemory>
    ensures { OnOk result ((rest : _) →
        form_then form.new rest ≡ form_then form.old (roots_in_form nodes.now rest)) }
{
    write_mark(form, nodes.len() as u64)?;
    write_nodes(alloc, nodes, form)?;
    Ok(())
}

/// Writes the paths of slots, with their count, after what is written.
fn write_all_paths(alloc: Global, paths: &[List<u8>], form: &mut Form) -> Result<(), OutOfMemory>
    ensures { OnOk result ((rest : _) →
        form_then form.new rest ≡ form_then form.old (all_paths_in_form paths.now rest)) }
{
    write_mark(form, paths.len() as u64)?;
    write_paths(alloc, paths, form)?;
    Ok(())
}

/// Writes paths after what is written.
fn write_paths(alloc: Global, paths: &[List<u8>], form: &mut Form) -> Result<(), OutOfMemory>
    ensures { OnOk result ((rest : _) →
        form_then form.new rest ≡ form_then form.old (paths_in_form paths.now rest)) }
{
    for path in paths {
        write_bytes(alloc, path.as_slice(), form)?;
    }
    Ok(())
}

/// Nothing is written.
fn blank(alloc: Global) -> Form
    ensures { result ≡ empty_form }
{
    Form {
        marks: List::new(alloc),
        wides: List::new(alloc),
    }
}

/// Whether two forms are one.
pub(crate) fn is_same_form(left: &Form, right: &Form) -> bool
    ensures { IsTrue result ↔ (left.now ≡ right.now) }
{
    is_same_text(left.marks.as_slice(), right.marks.as_slice())
        && is_same_row(left.wides.as_slice(), right.wides.as_slice())
}

// In most templates there is no number on either side.
fn is_same_row(left: &[u64], right: &[u64]) -> bool
    ensures { IsTrue result ↔ (left.now ≡ right.now) }
{
    match (left, right) {
        ([], []) => true,
        _ => left == right,
    }
}

fn is_same_text(left: &[u8], right: &[u8]) -> bool
    ensures { IsTrue result ↔ (left.now ≡ right.now) }
{
    left == right
}

/// Writes nodes after what is written.
#[cycle(written)]
fn write_nodes(alloc: Global, nodes: &[TemplateNode], form: &mut Form) -> Result<(), OutOfMemory>
    ensures { OnOk result ((rest : _) →
        form_then form.new rest ≡ form_then form.old (nodes_in_form nodes.now rest)) }
{
    for node in nodes {
        write_node(alloc, node, form)?;
    }
    Ok(())
}

/// Writes a node after what is written.
#[cycle(written)]
fn write_node(alloc: Global, node: &TemplateNode, form: &mut Form) -> Result<(), OutOfMemory>
    ensures { OnOk result ((rest : _) →
        form_then form.new rest ≡ form_then form.old (node_in_form node.now rest)) }
{
    match node {
        TemplateNode::Element {
            tag,
            namespace,
            attrs,
            children,
        } => {
            write_mark(form, 0)?;
            write_text(alloc, tag, form)?;
            write_space(alloc, namespace, form)?;
            write_mark(form, attrs.len() as u64)?;
            write_attributes(alloc, attrs.as_slice(), form)?;
            write_mark(form, children.len() as u64)?;
            write_nodes(alloc, children.as_slice(), form)?;
            Ok(())
        }
        TemplateNode::Text { text } => {
            write_mark(form, 1)?;
            write_text(alloc, text, form)?;
            Ok(())
        }
        TemplateNode::Dynamic { id } => {
            write_mark(form, 2)?;
            write_mark(form, *id)?;
            Ok(())
        }
    }
}

/// Writes the attributes of an element after what is written.
fn write_attributes(
    alloc: Global,
    attrs: &[TemplateAttribute],
    form: &mut Form,
) -> Result<(), OutOfMemory>
    ensures { OnOk result ((rest : _) →
        form_then form.new rest ≡ form_then form.old (attributes_in_form attrs.now rest)) }
{
    for attr in attrs {
        write_attribute(alloc, attr, form)?;
    }
    Ok(())
}

/// Writes an attribute after what is written.
fn write_attribute(
    alloc: Global,
    attr: &TemplateAttribute,
    form: &mut Form,
) -> Result<(), OutOfMemory>
    ensures { OnOk result ((rest : _) →
        form_then form.new rest ≡ form_then form.old (attribute_in_form attr.now rest)) }
{
    match attr {
        TemplateAttribute::Static {
            name,
            namespace,
            value,
        } => {
            write_mark(form, 0)?;
            write_text(alloc, name, form)?;
            write_space(alloc, namespace, form)?;
            write_text(alloc, value, form)?;
            Ok(())
        }
        TemplateAttribute::Dynamic { id } => {
            write_mark(form, 1)?;
            write_mark(form, *id)?;
            Ok(())
        }
    }
}

/// Writes a namespace, if there is one, after what is written.
fn write_space(alloc: Global, namespace: &Option<Text>, form: &mut Form) -> Result<(), OutOfMemory>
    ensures { OnOk result ((rest : _) →
        form_then form.new rest ≡ form_then form.old (space_in_form namespace.now rest)) }
{
    match namespace {
        Some(text) => {
            write_mark(form, 1)?;
            write_text(alloc, text, form)?;
            Ok(())
        }
        None => {
            write_mark(form, 0)?;
            Ok(())
        }
    }
}

/// Writes a text with its length after what is written.
fn write_text(alloc: Global, text: &Text, form: &mut Form) -> Result<(), OutOfMemory>
    ensures { OnOk result ((rest : _) →
        form_then form.new rest ≡ form_then form.old (text_in_form text.now rest)) }
{
    write_bytes(alloc, text.as_bytes(), form)?;
    Ok(())
}

/// Writes bytes, with how many they are, after what is written.
fn write_bytes(alloc: Global, bytes: &[u8], form: &mut Form) -> Result<(), OutOfMemory>
    ensures { OnOk result ((rest : _) →
        form_then form.new rest ≡ form_then form.old (text_in_form bytes.now rest)) }
{
    write_mark(form, bytes.len() as u64)?;
    let copied = List::from_slice(alloc, bytes)?;
    form.marks.append(copied)?;
    Ok(())
}

/// Writes a number after what is written.
fn write_mark(form: &mut Form, mark: u64) -> Result<(), OutOfMemory>
    ensures { OnOk result ((rest : _) →
        form_then form.new rest ≡ form_then form.old (marked mark rest)) }
{
    if mark < WIDE {
        form.marks.push(mark as u8)?;
        Ok(())
    } else {
        form.marks.push(255)?;
        form.wides.push(mark)?;
        Ok(())
    }
}
