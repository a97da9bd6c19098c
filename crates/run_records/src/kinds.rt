//! The kinds of the hooks that a runtime calls.

/// The kind of clean-ups: effects that are done when their scope is removed.
pub const CLEAN_UP: u32 = u32::MAX - 2;

/// The kind of effects that are done before each run of their scope.
pub const BEFORE_RENDER: u32 = u32::MAX - 1;

/// The kind of effects that are done after each run's commands.
pub const AFTER_RENDER: u32 = u32::MAX;
