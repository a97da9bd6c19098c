//! What trees are made of, and trees: the types that an application brings along, templates,
//! attributes, errors and events; nodes and the values of their slots, copies and equality of them,
//! and what a scope shows.
#![tactic(auto)]

mod attribute;
mod copying;
mod equality;
mod error;
mod event;
mod hints;
mod last_node;
mod parts;
mod place;
mod template;
mod vnode;
mod written;

pub use attribute::{Attribute, AttributeValue, ListenerCallback};
pub use error::{CapturedError, RenderError, SuspendedFuture};
pub use event::Event;
pub use last_node::LastRenderedNode;
pub use parts::Parts;
pub use place::{Place, Step};
pub use template::{Template, TemplateAttribute, TemplateNode, TemplateParts};
pub use vnode::{
    DynamicNode, Element, ErrorBoundaryProps, ErrorHandler, Fallback, FragmentProps, RootProps,
    SuspenseBoundaryProps, VComponent, VNode,
};
