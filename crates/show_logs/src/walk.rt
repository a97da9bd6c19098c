//! The walk through a source, by what is wanted at each place, up to the first that is otherwise.
//!
//! It keeps the names that are bound, and at the fault what was wanted and found there, with the
//! way out of it: nothing else is owned on the way, which is what makes it cheap to prove.

use crate::forms::{Entry, Form, Group, Leaf, Members, Row, STEP, Table, Want};
use crate::leaves::{is_fit, params_at};
use crate::tables::forms_of;
use rt_values::is_name;
use serde_json::{Map, Value};
use std::alloc::Global;

/// One step of the way from a place out to the whole source.
#[derive(Clone, Copy)]
pub(crate) enum Step<'a> {
    Key(&'a str),
    Item(usize),
}

/// What was wanted at the place.
#[derive(Clone, Copy)]
pub(crate) enum Wanted {
    Leaf(Leaf),
    Row(Row),
    Members(Members),
    /// One of the objects of a table.
    One(Table),
    /// A statement or an expression that stands in such places.
    Standing(u8),
    /// No other key than those of a form.
    NoKeyBut(&'static Form),
    Key(&'static str),
    /// So many expressions, where there are so many.
    Count(u64, u64),
    /// So many literals, one for each param of the root.
    Literals(u64),
    /// A name that no param before has.
    Another,
}

/// How a look at a value ends.
#[derive(Clone, Copy, PartialEq, Eq)]
pub(crate) enum Look {
    Fits,
    Wrong,
    OutOfMemory,
}

#[derive(Drop)]
pub(crate) struct Walk<'a> {
    pub source: &'a Value,
    bound: Vec<&'a str>,
    places: u8,
    /// From the fault out to the whole source.
    pub steps: Vec<Step<'a>>,
    pub wanted: Wanted,
    pub found: Option<&'a Value>,
}

/// The first form of a table that a value has the key of, with its word.
fn form_in(table: Table, value: &Value) -> Option<&'static Form> {
    for form in forms_of(table) {
        if form.0.is_empty() {
            return Some(form);
        }
        if let Some(found) = value.get(form.0) {
            if form.1.is_empty() || found.as_str() == Some(form.1) {
                return Some(form);
            }
        }
    }
    None
}

fn is_known(form: &'static Form, key: &str) -> bool {
    for entry in form.3 {
        if entry.key() == key {
            return true;
        }
    }
    false
}

/// What is wanted of a value of a list.
fn item_of(row: Row, place: usize) -> Want {
    match row {
        Row::Expressions | Row::Counted(_) | Row::Handed(_, _) => Want::Expression,
        Row::Statements => Want::One(Table::Statement),
        Row::Steps => Want::Inner,
        Row::Nodes => Want::Node,
        Row::Pick if place == 0 => Want::Expression,
        Row::Pick => Want::Row(Row::Nodes),
        Row::Params => Want::Param,
        Row::Props => Want::Leaf(Leaf::Literal),
        Row::Inputs => Want::One(Table::Input),
        Row::Messages | Row::Posted => Want::One(Table::Message),
        Row::Posts => Want::Row(Row::Posted),
    }
}

fn member_of(members: Members) -> Want {
    match members {
        Members::Of(table) => Want::One(table),
        Members::Attributes => Want::Expression,
        Members::Listeners => Want::One(Table::Listener),
    }
}

fn has_names(members: Members) -> bool {
    match members {
        Members::Of(_) => false,
        Members::Attributes | Members::Listeners => true,
    }
}

impl<'a> Walk<'a> {
    pub(crate) fn new(alloc: Global, source: &'a Value) -> Walk<'a> {
        Walk {
            source,
            bound: Vec::new(alloc),
            places: STEP,
            steps: Vec::new(alloc),
            wanted: Wanted::Another,
            found: None,
        }
    }

    fn wrong(&mut self, wanted: Wanted, found: Option<&'a Value>) -> Look {
        self.wanted = wanted;
        self.found = found;
        Look::Wrong
    }

    /// What was seen of a part, as what was seen of the whole that has it there.
    fn under(&mut self, look: Look, step: Step<'a>) -> Look {
        if look != Look::Wrong {
            return look;
        }
        match self.steps.push(step) {
            Ok(()) => Look::Wrong,
            Err(_refused) => Look::OutOfMemory,
        }
    }

    fn is_bound(&self, name: &str) -> bool {
        for bound in &self.bound {
            if *bound == name {
                return true;
            }
        }
        false
    }

    fn leaf(&mut self, leaf: Leaf, value: &'a Value) -> Look {
        let is_named = match (leaf, value.as_str()) {
            (Leaf::Bound, Some(name)) => self.is_bound(name),
            _ => true,
        };
        if is_named && is_fit(self.source, leaf, value) {
            Look::Fits
        } else {
            self.wrong(Wanted::Leaf(leaf), Some(value))
        }
    }

    fn bind(&mut self, value: &'a Value) -> Look {
        let Some(name) = value.as_str() else {
            return self.wrong(Wanted::Leaf(Leaf::Text), Some(value));
        };
        match self.bound.push(name) {
            Ok(()) => Look::Fits,
            Err(_refused) => Look::OutOfMemory,
        }
    }

    fn bind_instead(&mut self, value: &'a Value) -> Look {
        self.bound.pop();
        self.bind(value)
    }

    fn param(&mut self, value: &'a Value) -> Look {
        match value.as_str() {
            Some(name) if self.is_bound(name) => self.wrong(Wanted::Another, Some(value)),
            _ => self.bind(value),
        }
    }

    /// Whether a form knows each key of an object.
    fn keys(&mut self, form: &'static Form, members: &'a Map<String, Value>) -> Look {
        for (key, _value) in members.iter() {
            if !is_known(form, key.as_str()) {
                let look = self.wrong(Wanted::NoKeyBut(form), None);
                return self.under(look, Step::Key(key.as_str()));
            }
        }
        Look::Fits
    }

    /// What is said where nothing stands at a key.
    fn absent(&mut self, entry: &'static Entry, value: &'a Value) -> Look {
        if entry.is_needed() {
            return self.wrong(Wanted::Key(entry.key()), None);
        }
        let count = match entry.want() {
            Want::Row(Row::Handed(group, key)) => params_at(self.source, group, value, key),
            Want::Row(Row::Props) => self.params_of_root(),
            _ => 0,
        };
        if count == 0 {
            return Look::Fits;
        }
        let wanted = match entry.want() {
            Want::Row(Row::Props) => Wanted::Literals(count),
            _ => Wanted::Count(count, 0),
        };
        let look = self.wrong(wanted, None);
        self.under(look, Step::Key(entry.key()))
    }

    fn params_of_root(&self) -> u64 {
        params_at(self.source, Group::Components, self.source, "root")
    }

    /// What is said of a list whose values all fit.
    fn counted(&mut self, row: Row, count: usize, value: &'a Value) -> Look {
        let count = count as u64;
        match row {
            Row::Counted(wanted) if wanted != count => {
                self.wrong(Wanted::Count(wanted, count), None)
            }
            Row::Pick if count != 3 => self.wrong(Wanted::Row(row), Some(value)),
            Row::Posts if count > 1_000 => self.wrong(Wanted::Row(row), Some(value)),
            Row::Posted if count > 1_000_000 => self.wrong(Wanted::Row(row), Some(value)),
            Row::Props => {
                let wanted = self.params_of_root();
                if wanted == count {
                    Look::Fits
                } else {
                    self.wrong(Wanted::Literals(wanted), Some(value))
                }
            }
            _ => Look::Fits,
        }
    }

    /// Looks at a value.
    #[cycle(look)]
    pub(crate) fn look(&mut self, levels: u8, want: Want, value: &'a Value) -> Look {
        match want {
            Want::Leaf(leaf) => self.leaf(leaf, value),
            Want::Binds => self.bind(value),
            Want::BindsInstead => self.bind_instead(value),
            Want::Param => self.param(value),
            Want::Expression => self.expression(levels, value),
            Want::Formula(places) => {
                let stands = self.places;
                self.places = places;
                let look = self.expression(levels, value);
                self.places = stands;
                look
            }
            Want::Node if value.is_string() => Look::Fits,
            Want::Node => self.object(levels, Table::Node, value),
            Want::One(table) => self.object(levels, table, value),
            Want::Row(row) => self.row(levels, row, value),
            Want::Block(places) => {
                self.places = places;
                self.row(levels, Row::Statements, value)
            }
            Want::Steps => {
                self.places = STEP;
                self.row(levels, Row::Steps, value)
            }
            Want::Inner => {
                let mark = self.bound.len();
                let look = self.row(levels, Row::Statements, value);
                self.bound.truncate(mark);
                look
            }
            Want::Members(members) => self.members(levels, members, value),
        }
    }

    #[cycle(look)]
    fn expression(&mut self, levels: u8, value: &'a Value) -> Look {
        if value.is_string() {
            return Look::Fits;
        }
        if value.is_number() {
            return self.leaf(Leaf::Whole, value);
        }
        self.object(levels, Table::Expression, value)
    }

    #[cycle(look)]
    fn object(&mut self, levels: u8, table: Table, value: &'a Value) -> Look {
        let Some(members) = value.as_object() else {
            return self.wrong(Wanted::One(table), Some(value));
        };
        let Some(form) = form_in(table, value) else {
            return self.wrong(Wanted::One(table), Some(value));
        };
        if form.2 & self.places == 0 {
            let look = self.wrong(Wanted::Standing(self.places), None);
            return self.under(look, Step::Key(form.0));
        }
        let look = self.keys(form, members);
        if look != Look::Fits {
            return look;
        }
        let mark = self.bound.len();
        let look = self.entries(levels, form, value);
        if let Table::Node = table {
            self.bound.truncate(mark);
        }
        look
    }

    #[cycle(look)]
    fn entries(&mut self, levels: u8, form: &'static Form, value: &'a Value) -> Look {
        for entry in form.3 {
            let look = self.entry(levels, entry, value);
            if look != Look::Fits {
                return look;
            }
        }
        Look::Fits
    }

    #[cycle(look)]
    fn entry(&mut self, levels: u8, entry: &'static Entry, value: &'a Value) -> Look {
        let Some(found) = value.get(entry.key()) else {
            return self.absent(entry, value);
        };
        if levels == 0 {
            return Look::Fits;
        }
        let want = match entry.want() {
            Want::Row(Row::Handed(group, key)) => {
                Want::Row(Row::Counted(params_at(self.source, group, value, key)))
            }
            want => want,
        };
        let look = self.look(levels - 1, want, found);
        self.under(look, Step::Key(entry.key()))
    }

    #[cycle(look)]
    fn row(&mut self, levels: u8, row: Row, value: &'a Value) -> Look {
        let Some(values) = value.as_array() else {
            return self.wrong(Wanted::Row(row), Some(value));
        };
        let look = self.items(levels, row, values.as_slice());
        if look != Look::Fits {
            return look;
        }
        self.counted(row, values.len(), value)
    }

    #[cycle(look)]
    fn items(&mut self, levels: u8, row: Row, values: &'a [Value]) -> Look {
        if levels == 0 {
            return Look::Fits;
        }
        for place in 0..values.len() {
            let look = self.look(levels - 1, item_of(row, place), &values[place]);
            if look != Look::Fits {
                return self.under(look, Step::Item(place));
            }
        }
        Look::Fits
    }

    #[cycle(look)]
    fn members(&mut self, levels: u8, members: Members, value: &'a Value) -> Look {
        let Some(found) = value.as_object() else {
            return self.wrong(Wanted::Members(members), Some(value));
        };
        if levels == 0 {
            return Look::Fits;
        }
        let mark = self.bound.len();
        for (key, given) in found.iter() {
            let look = if has_names(members) && !is_name(key.as_str()) {
                self.wrong(Wanted::Leaf(Leaf::Name), None)
            } else {
                self.look(levels - 1, member_of(members), given)
            };
            if look != Look::Fits {
                return self.under(look, Step::Key(key.as_str()));
            }
            self.bound.truncate(mark);
        }
        Look::Fits
    }
}
