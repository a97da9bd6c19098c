//! Why nodes aren't written.

use rt_values::OutOfMemory;
use thiserror::Error;

/// Why nodes aren't written.
#[derive(Clone, Copy, Debug, PartialEq, Eq, Drop, Error)]
pub enum HtmlError {
    /// There was no memory for the text.
    #[error("out of memory")]
    OutOfMemory,
    /// A tag, a name or a namespace is empty or holds more than ASCII letters, digits, `-` and `_`.
    #[error("a name can't be spelt")]
    BadName,
}

impl From<OutOfMemory> for HtmlError {
    ghost use Rattle.std.specs.Prelude.{◌≡◌};
    ghost use Rattle.rt_html.specs.declared.error.HtmlError.TheVariants.{OutOfMemory};

    ghost from_gives = { λ _ error. error ≡ OutOfMemory };

    fn from(_refused: OutOfMemory) -> HtmlError {
        HtmlError::OutOfMemory
    }
}
