//! Expressions and views of the JSON application language, read with the names in reach as places; and
//! looking into a value of JSON: under which keys an object has what, texts, whole numbers, names.
#![tactic(auto)]

mod attributes;
mod calls;
mod context_keys;
mod expressions;
mod fields;
mod forms;
mod keys;
mod kinds;
mod names;
mod operands;
mod parts;
mod signatures;
mod view_forms;
mod views;

pub use calls::{call_at, expression_at, kind_at, read_call, variable_at};
pub use context_keys::ContextKeys;
pub use expressions::{read_expression, read_expressions};
pub use fields::{is_zero, is_zero_at, list_at, list_or_empty, text_at, whole, whole_at};
pub use keys::{is_object_of, only_member};
pub use kinds::kinds_in;
pub use names::{distinct_texts, place_of};
pub use signatures::{Names, Signature, signature_of};
pub use view_forms::{Form, Leaf, form_in};
pub use views::read_view;
