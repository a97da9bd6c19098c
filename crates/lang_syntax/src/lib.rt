//! A source as it is once it was checked: every name is a place, counted from 0.
#![tactic(auto)]

mod derived;
mod expression;
mod glances;
mod outside;
mod source;
mod statement;
mod view;

pub use derived::{Derived, Formula};
pub use expression::{Expression, Literal};
pub use glances::{derived_looks, looks};
pub use outside::OutsideStatements;
pub use source::{ComponentSource, InputSource, PostSource, Source};
pub use statement::{HookTime, Simple, SpawnKind, Statement, TaskAct};
pub use view::{ComponentUse, ViewAttribute, ViewNode, ViewSlot};
