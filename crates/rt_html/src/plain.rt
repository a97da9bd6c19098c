//! Nodes without numbers and listeners, as they are read.

use rt_edits::DocAttr;
use rt_values::{List, Text};

/// A node without its number and listeners, with all that stands below it.
#[derive(Debug, Drop)]
pub enum Plain {
    Element {
        tag: Text,
        namespace: Option<Text>,
        /// Ordered by namespace, none first, and then by name, both by bytes.
        attrs: List<DocAttr>,
        children: List<Plain>,
    },
    Text(Text),
    Placeholder,
}
