//! Events, as listeners see them.

ghost use Rattle.std.specs.Prelude.{◌≡◌, true, false, not};
ghost use Rattle.std.specs.Fn.{FnOnceReturnsAt};

/// An event on its way up.
#[derive(Drop)]
pub struct Event<T> {
    pub payload: T,
    /// Whether listeners further up are still to be called.
    pub propagates: bool,
    /// Whether its default action was prevented.
    pub prevented: bool,
}

impl<T> Event<T> {
    /// An event that no listener has seen.
    pub fn new(payload: T, propagates: bool) -> Event<T>
        ensures payload { result.payload ≡ payload }
        ensures propagates { result.propagates ≡ propagates }
        ensures fresh { result.prevented ≡ false }
    {
        Event {
            payload,
            propagates,
            prevented: false,
        }
    }

    /// What the event carries.
    pub fn data(&self) -> &T
        ensures { result.now ≡ self.now.payload }
    {
        &self.payload
    }

    /// The same event with what `f` makes of its payload.
    pub fn map<U, F: FnOnce(&T) -> U>(&self, f: F) -> Event<U>
        requires { F.IsAlwaysCallable f }
        ensures payload { FnOnceReturnsAt F.FnOnce f self.now.payload result.payload }
        ensures propagates { result.propagates ≡ self.now.propagates }
        ensures prevented { result.prevented ≡ self.now.prevented }
    {
        Event {
            payload: f(&self.payload),
            propagates: self.propagates,
            prevented: self.prevented,
        }
    }

    /// Whether listeners further up are still to be called.
    pub fn propagates(&self) -> bool
        ensures { result ≡ self.now.propagates }
    {
        self.propagates
    }

    /// Keeps the event from the listeners further up.
    pub fn stop_propagation(&mut self)
        ensures { self.new ≡ record self.old { propagates = false } }
    {
        self.propagates = false;
    }

    /// `stop_propagation` by its older name.
    pub fn cancel_bubble(&mut self)
        ensures { self.new ≡ record self.old { propagates = false } }
    {
        self.stop_propagation();
    }

    /// Keeps the renderer from what it does by default.
    pub fn prevent_default(&mut self)
        ensures { self.new ≡ record self.old { prevented = true } }
    {
        self.prevented = true;
    }

    /// Whether the renderer does what it does by default.
    pub fn default_action_enabled(&self) -> bool
        ensures { result ≡ not self.now.prevented }
    {
        !self.prevented
    }
}
