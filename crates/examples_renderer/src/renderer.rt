//! The renderer: it keeps the edits that it takes, and draws what they make.
ghost use Rattle.std.specs.Prelude.{◌≡◌, ◌≤◌, Some, [], IfOk};
ghost use Rattle.examples_renderer.specs.Drawn.{IsDrawn};

use rt_app::{DocFault, Edit, List, SinkError, TakesEdits};
use rt_text::Screen;
use std::alloc::Global;

/// Keeps the edits that it takes, and never fails but for want of memory. `ByEdit` makes the sink of
/// it that a session or a runtime writes to.
#[derive(Drop)]
pub struct Renderer {
    edits: List<Edit>,
}

impl Renderer {
    /// A renderer that has taken nothing.
    pub fn new(alloc: Global) -> Renderer
        ensures taken { ⟦<Renderer as TakesEdits>⟧.taken result ≡ Some [] }
    {
        Renderer {
            edits: List::new(alloc),
        }
    }

    /// A screen of so many columns and rows, with what the edits make.
    pub fn draw(&self, alloc: Global, width: u32, height: u32) -> Result<Screen, DocFault>
        requires width { (1 ≤ width) × (width ≤ 200) }
        requires height { (1 ≤ height) × (height ≤ 200) }
        ensures drawn { IfOk result (λ screen.
            IsDrawn (⟦<Renderer as TakesEdits>⟧.taken self.now) width height screen) }
    {
        let Ok(mut screen) = Screen::new(alloc, width, height) else {
            return Err(DocFault::OutOfMemory);
        };
        screen.take_all(alloc, self.edits.as_slice())?;
        match screen.draw(alloc) {
            Ok(_changed) => Ok(screen),
            Err(_) => Err(DocFault::OutOfMemory),
        }
    }
}

impl TakesEdits for Renderer {
    ghost taken = { λ renderer. Some renderer.edits };

    ghost faults = { λ _. 0 };

    fn take(&mut self, _alloc: Global, edit: Edit) -> Result<(), SinkError> {
        self.edits.push(edit)?;
        Ok(())
    }
}
