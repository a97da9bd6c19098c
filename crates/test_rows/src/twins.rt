//! Each example beside the same application in JSON, and what else rows name that isn't the program.

use rt_show::show;
use rt_values::{List, OutOfMemory};
use show_streams::{BytesOut, BytesSource, Out, OutError};
use std::alloc::Global;

/// What rows name that isn't the program.
pub trait Twins {
    /// The lines of the example of this name.
    fn lines_of(alloc: Global, name: &str) -> Result<List<u8>, OutOfMemory>;

    /// The lines of a runtime that is kept.
    fn kept(alloc: Global) -> Result<List<u8>, OutOfMemory>;

    /// The line of a memo in one.
    fn memo(alloc: Global) -> Result<List<u8>, OutOfMemory>;
}

/// Texts, one behind the other.
fn one_behind_another(alloc: Global, texts: &[List<u8>]) -> Result<Vec<u8>, OutOfMemory> {
    let mut whole = Vec::new(alloc);
    for text in texts {
        whole.extend_from_slice(text.as_slice())?;
    }
    Ok(whole)
}

/// Puts the lines of an example, and whether a source prints the same.
pub(crate) fn put_twin<T: Twins, O: Out>(
    alloc: Global,
    name: &str,
    source: &[u8],
    out: &mut O,
) -> Result<(), OutError> {
    let lines = T::lines_of(alloc, name)?;
    out.put(lines.as_slice())?;
    let mut source = BytesSource::new(List::from_slice(alloc, source)?, List::new(alloc));
    let mut written = BytesOut::new(alloc, List::new(alloc));
    let status = show(alloc, &[], &mut source, &mut written);
    let printed = one_behind_another(alloc, written.puts())?;
    if status == 0 && printed.as_slice() == lines.as_slice() {
        out.put(b"the same in JSON\n")
    } else {
        out.put(b"not the same in JSON\n")
    }
}
