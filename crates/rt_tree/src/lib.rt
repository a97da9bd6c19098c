//! Trees of a component runtime: templates, nodes and their slots, the node test, errors, events,
//! patches, and the document with its edits. Patches are made here, the others in the crates below.
#![tactic(auto)]

mod block;
mod going;
mod patch;
mod step;
mod turning;
mod wording;
mod writing;

pub use block::Block;
pub use going::{runs_in_order, runs_tell, runs_work};
pub use patch::Patch;
pub use rt_edits::{
    DocAttr, DocFault, DocKind, DocNode, Document, Edit, FailingMutations, Mutations,
    NoOpMutations, SinkError, WriteMutations,
};
pub use rt_values::ElementId;
pub use step::{PatchStep, TreeFault};
pub use tree_fits::fits;
pub use tree_nodes::{
    Attribute, AttributeValue, CapturedError, DynamicNode, Element, ErrorBoundaryProps,
    ErrorHandler, Event, Fallback, FragmentProps, LastRenderedNode, ListenerCallback, Parts, Place,
    RenderError, RootProps, Step, SuspendedFuture, SuspenseBoundaryProps, Template,
    TemplateAttribute, TemplateNode, TemplateParts, VComponent, VNode,
};
