//! Pieces and attributes in a list.

/// Pieces beside one another: `row![first, second]` of what the words answer.
#[macro_export]
macro_rules! row {
    ($only:expr $(,)?) => {
        $only
    };
    ($first:expr, $($rest:expr),+ $(,)?) => {
        $crate::beside($first, $crate::row![$($rest),+])
    };
}

/// Attributes of one element: `attrs![first, second]` of what the words answer.
#[macro_export]
macro_rules! attrs {
    ($only:expr $(,)?) => {
        $only
    };
    ($first:expr, $($rest:expr),+ $(,)?) => {
        $crate::and($first, $crate::attrs![$($rest),+])
    };
}
