//! A renderer to start from: it draws on a screen of characters.
#![tactic(auto)]

mod renderer;

pub use renderer::Renderer;
