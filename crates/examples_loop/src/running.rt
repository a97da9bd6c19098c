//! An application in a runtime that is kept, with the renderer that it writes to.

use examples_renderer::Renderer;
use rt_app::dom::{DomFault, Drained, VirtualDom};
use rt_app::{App, ByEdit, ElementId, Event, Fault, Limits, List};
use std::alloc::Global;

/// How many posts there are.
pub const POSTS: u64 = 4;

/// The button, as the build numbers it: the first element that the application shows.
const BUTTON: ElementId = ElementId(1);

/// The runtime, what it writes to, the click that comes in between, and how many posts it has
/// taken. It can't be dropped: who has it closes it.
pub struct Running<A: App> {
    dom: VirtualDom<A>,
    sink: ByEdit<Renderer>,
    click: Option<Event<A::Payload>>,
    taken: u64,
}

/// A runtime that is built, that a loop serves with what its inbox drains, and that shows then.
pub trait Served {
    /// It is built and shows.
    fn build(&mut self) -> Result<(), DomFault>;

    /// How many posts it has taken.
    fn taken(&self) -> u64;

    /// Takes in what was drained.
    fn take_in(&mut self, drained: &Drained) -> Result<(), DomFault>;

    /// What is owed is done, and the rows that show then come as lines.
    fn lines(&mut self, alloc: Global) -> Result<List<u8>, DomFault>;
}

impl<A: App> Running<A> {
    /// An application that isn't built yet.
    pub fn new(alloc: Global, app: A, click: Event<A::Payload>) -> Result<Running<A>, DomFault> {
        let takes = Renderer::new(alloc);
        Ok(Running {
            dom: VirtualDom::new(alloc, app, Limits::usual())?,
            sink: ByEdit { takes },
            click: Some(click),
            taken: 0,
        })
    }

    /// A click at the button, once.
    fn click(&mut self) -> Result<(), DomFault> {
        if let Some(event) = self.click.take() {
            self.dom.handle_event("click", event, BUTTON)?;
        }
        Ok(())
    }

    /// The runtime is closed, with its clean-ups.
    pub fn close(self) -> Result<(), DomFault> {
        let Running {
            dom,
            sink: _,
            click: _,
            taken: _,
        } = self;
        dom.close()?;
        Ok(())
    }
}

impl<A: App> Served for Running<A> {
    /// It is built and shows.
    fn build(&mut self) -> Result<(), DomFault> {
        self.dom.rebuild(&mut self.sink)?;
        self.dom.settle(&mut self.sink)?;
        Ok(())
    }

    /// How many posts it has taken.
    fn taken(&self) -> u64 {
        self.taken
    }

    /// Takes in what was drained, and writes what shows of it. With the first of them a click
    /// comes, too.
    fn take_in(&mut self, drained: &Drained) -> Result<(), DomFault> {
        let count = drained.messages.len() as u64;
        if count > 0 {
            self.click()?;
        }
        self.taken = self.taken.saturating_add(count);
        self.dom.poll_work(drained)?;
        self.dom.render_immediate(&mut self.sink)?;
        Ok(())
    }

    /// What is owed is done, and the rows that show then come as lines: there is one.
    fn lines(&mut self, alloc: Global) -> Result<List<u8>, DomFault> {
        self.dom.settle(&mut self.sink)?;
        let Ok(screen) = self.sink.takes.draw(alloc, 40, 1) else {
            return Err(DomFault::Run(Fault::OutOfMemory));
        };
        let mut lines = List::new(alloc);
        for row in screen.rows() {
            lines.append(List::from_slice(alloc, row.as_bytes())?)?;
            lines.push(b'\n')?;
        }
        Ok(lines)
    }
}
