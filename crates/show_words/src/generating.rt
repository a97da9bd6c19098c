//! The generated application of so many rows, each with a cell of its own.
ghost use Rattle.std.specs.Prelude.{◌≡◌, ◌≤◌, [], ◌∷◌, pos, IfOk};
ghost use Rattle.rt_language.specs.Generated as language;
ghost use Rattle.lang_syntax.specs.Mirror.{source_of};
ghost use Rattle.lang_syntax.specs.declared.expression.Literal.TheVariants as literals;
ghost use Rattle.show_words.specs.Listed.{slot_in, list_of_rows, row_of_list};

use lang_syntax::{
    ComponentSource, ComponentUse, Expression, InputSource, Literal, Source, Statement, ViewNode,
    ViewSlot,
};
use rt_values::{List, OutOfMemory, Text};
use std::alloc::Global;

/// A list of one item.
fn list_of<T: Drop>(alloc: Global, item: T) -> Result<List<T>, OutOfMemory>
    ensures item { IfOk result (λ list. list ≡ item ∷ []) }
{
    let mut list = List::new(alloc);
    list.push(item)?;
    Ok(list)
}

/// An element round one slot.
fn element(alloc: Global, tag: &str, slot: ViewSlot) -> Result<List<ViewNode>, OutOfMemory>
    ensures element { IfOk result (λ nodes. nodes ≡ slot_in tag.now slot) }
{
    let kids = list_of(alloc, ViewNode::Slot(slot))?;
    list_of(
        alloc,
        ViewNode::Element {
            tag: Text::from_str(alloc, tag)?,
            namespace: None,
            attributes: List::new(alloc),
            kids,
        },
    )
}

/// A number that is said outright.
fn number(number: u64) -> Literal
    ensures said { number ≤ 10000 → result ≡ literals.Number (pos number) }
{
    Literal::Number(i64::try_from(number).unwrap_or(i64::MAX))
}

/// The root: a list of so many rows.
fn list(alloc: Global, rows: u64) -> Result<ComponentSource, OutOfMemory>
    requires few { rows ≤ 10000 }
    ensures list { IfOk result (λ list. list ≡ list_of_rows rows) }
{
    let row = ComponentUse {
        component: 1,
        props: list_of(alloc, Expression::Get(0))?,
    };
    let slot = ViewSlot::ListOf {
        count: Expression::Say(number(rows)),
        item: list_of(alloc, ViewNode::Slot(ViewSlot::UseOf(row)))?,
    };
    Ok(ComponentSource {
        statements: List::new(alloc),
        view: element(alloc, "ul", slot)?,
    })
}

/// A row, which shows the cell that it makes of its number.
fn row(alloc: Global) -> Result<ComponentSource, OutOfMemory>
    ensures row { IfOk result (λ row. row ≡ row_of_list) }
{
    Ok(ComponentSource {
        statements: list_of(alloc, Statement::UseCell(Expression::Get(0)))?,
        view: element(alloc, "li", ViewSlot::TextOf(Expression::Read(1)))?,
    })
}

/// A list of so many rows, each with a cell that holds its number, and as many writes.
pub fn generated(alloc: Global, rows: u64) -> Result<Source, OutOfMemory>
    requires few { rows ≤ 10000 }
    ensures generated { IfOk result (λ source. source_of source ≡ language.generated rows) }
{
    let mut components = list_of(alloc, list(alloc, rows)?)?;
    components.push(row(alloc)?)?;
    let mut inputs = List::new(alloc);
    for write in 0..rows {
        inputs.push(InputSource::Write {
            cell: (7 * write) % rows + 1,
            value: number(write),
        })?;
    }
    Ok(Source {
        components,
        root: 0,
        props: List::new(alloc),
        actions: List::new(alloc),
        tasks: List::new(alloc),
        inputs,
        posts: List::new(alloc),
    })
}
