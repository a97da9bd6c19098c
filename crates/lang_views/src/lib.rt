//! What an application of the language computes with: values, their operators, and what is done,
//! stands still or is derived with values handed along; and its views made ready to run: templates
//! with their paths, and what fills their slots.
#![tactic(auto)]

mod doing;
mod formulas;
mod operators;
mod parsing;
mod plan;
mod planning;
mod props;
mod templates;
mod texts;
mod value;

pub use doing::{Doing, Standing};
pub use formulas::Deriving;
pub use operators::{add, equal, is_absent, item_count, less, multiply, not};
pub use parsing::parse;
pub use plan::{ComponentPlan, Fill, Plan, SlotPlan};
pub use planning::component_plans;
pub use props::Props;
pub use texts::{into_text, put_text, text_of};
pub use value::{Content, Value};
