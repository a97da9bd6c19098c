//! The call of a component's body.
ghost use Rattle.std.specs.Prelude.{◌≡◌, ◌++◌, ◌∷◌, ◌&&◌, [], ℕ, true, is_some, Err, Some, IfOk, OnOk, option_map};
ghost use Rattle.std.specs.Option.{option_copied};
ghost use Rattle.rt_model.specs.Laws.{Tests};
ghost use Rattle.rt_model.specs.Lists.{at};
ghost use Rattle.rt_model.specs.OneLog.{types};
ghost use Rattle.rt_model.specs.World.{Application};
ghost use Rattle.rt_model.specs.Run as run;
ghost use Rattle.rt_model.specs.Tree as model;
ghost use Rattle.tree_mirror.specs.Sealed.{component_of, element_of};
ghost use Rattle.tree_mirror.specs.Mirror as mirror;
ghost use Rattle.tree_mirror.specs.Mirror.{fallback_of, handler_of};
ghost use Rattle.run_records.specs.declared.faults.CxFault.TheVariants as refusals;
ghost use Rattle.run_state.specs.declared.names.Stop.TheVariants as stops;
ghost use Rattle.rt_scopes.specs.Counts.{RaisesWhere, raised_where};
ghost use Rattle.rt_scopes.specs.Bodies.{Answers, Leaves, Settles, answer_in, error_kept, handled_by, plain_left, settled_result};

use crate::scopes::{Left, Scopes};
use crate::trees::{children_tree, copy_of, error_tree, root_tree};
use author_calls::{App, BodyCx, Calls, TurnParts};
use rt_cells::Source;
use rt_values::{List, OutOfMemory, Part, ScopeId, Text};
use run_state::{Cause, State, Stop};
use tree_fits::fits;
use tree_nodes::{
    CapturedError, Element, ErrorHandler, Fallback, Parts, RootProps, VComponent, VNode,
};

/// Whether the node test lets an answer pass.
fn answer_fits<P: Parts>(answer: &Element<P>) -> bool
    ensures { result ≡ run.answer_fits (element_of answer.now) }
{
    match answer {
        Ok(tree) => fits(tree),
        Err(_) => true,
    }
}

/// The error that a live error boundary keeps.
fn error_of<P: Parts>(state: &State<P>, scope: u64) -> Option<&CapturedError>
    ensures { option_copied result ≡ error_kept (at state.now.rows.table scope) }
{
    match state.scope(scope) {
        Some(found) => found.row.error.as_ref(),
        None => None,
    }
}

impl<A: App> Scopes<A> {
    /// Calls a body of the application in a scope: what it read is kept, its tree is tested, what it
    /// asked for is done. The answer.
    pub fn call_body(
        &mut self,
        app: &A,
        calls: &mut Calls,
        scope: ScopeId,
        component: &A::Component,
        props: &A::Props,
    ) -> Result<Element<A>, Stop>
        // Whatever follows the answer, it comes to that.
        ensures answered { Answers (λ w then_on.
            run.call_body (A.meaning app.now) w scope.0 (model.Own component.now props.now) then_on)
            self.old.state calls.old self.new.state calls.new result }
    {
        let parts = self.render(app, calls, scope.0, component, props)?;
        self.settle_call(scope.0, parts)
    }

    /// Calls the body of a component of whatever kind in a scope, as `call_body` does. The answer.
    pub fn call_component(
        &mut self,
        app: &A,
        calls: &mut Calls,
        scope: ScopeId,
        component: &VComponent<A>,
    ) -> Result<Element<A>, Stop>
        // Whatever follows the answer, it comes to that.
        ensures answered { Answers (λ w then_on.
            run.call_body (A.meaning app.now) w scope.0 (component_of component.now) then_on)
            self.old.state calls.old self.new.state calls.new result }
    {
        let parts = self.body_of(app, calls, scope.0, component)?;
        self.settle_call(scope.0, parts)
    }

    /// Takes on what a body's call left. Its answer.
    fn settle_call(
        &mut self,
        scope: u64,
        parts: TurnParts<A, Element<A>>,
    ) -> Result<Element<A>, Stop>
        ensures settled { (app : Application
            (types A.Component A.Props A.Value A.Handler A.TaskState A.Effect A.Payload))
            → Tests A.Value app.same_value →
            Settles app self.old.state scope parts self.new.state (answer_in result) }
        ensures memory { parts.fault ≡ Some refusals.OutOfMemory
            → result ≡ Err stops.OutOfMemory }
    {
        let TurnParts {
            answer,
            reads,
            commands,
            next,
            fault,
        } = parts;
        let left = Left {
            commands,
            next,
            fault,
        };
        match self.take_on(scope, &answer, reads, left) {
            Ok(()) => Ok(answer),
            Err(stop) => Err(stop),
        }
    }

    /// Takes on what a body's call left: what it read is kept, its tree is tested, what it asked for
    /// is done.
    fn take_on(
        &mut self,
        scope: u64,
        answer: &Element<A>,
        reads: List<Source>,
        left: Left<A>,
    ) -> Result<(), Stop>
        ensures settled { (app : Application
            (types A.Component A.Props A.Value A.Handler A.TaskState A.Effect A.Payload))
            → Tests A.Value app.same_value →
            Settles app self.old.state scope
            (record {
              answer = answer.now;
              reads = reads;
              commands = left.commands;
              next = left.next;
              fault = left.fault;
            }) self.new.state (settled_result answer.now result) }
        ensures memory { left.fault ≡ Some refusals.OutOfMemory
            → result ≡ Err stops.OutOfMemory }
    {
        let asked = self.after_call(left)?;
        self.state.keep_reads(self.alloc, scope, reads)?;
        if !answer_fits(answer) {
            return Err(Stop::Fault(Cause::BadNode { scope }));
        }
        self.do_commands(ScopeId(scope), asked)?;
        Ok(())
    }

    /// What the body of a component leaves; a suspense boundary's is that of its fallback.
    fn body_of(
        &self,
        app: &A,
        calls: &mut Calls,
        scope: u64,
        component: &VComponent<A>,
    ) -> Result<TurnParts<A, Element<A>>, OutOfMemory>
        ensures means { IfOk result (λ parts. Leaves
            (run.body_of (A.meaning app.now) (component_of component.now))
            self.now.state scope parts) }
        ensures counted { OnOk result (RaisesWhere (run.is_own (component_of component.now))
            self.now.state scope calls.old calls.new) }
    {
        match component {
            VComponent::App { component, props } => self.render(
                app, calls, scope, component, props,
            ),
            VComponent::Root(props) => self.rooted(props),
            VComponent::Fragment(props) => self.fragment(props.children.get()),
            VComponent::ErrorBoundary(props) => {
                self.caught(app, calls, scope, props.children.get(), &props.handle_error)
            }
            VComponent::SuspenseBoundary(props) => self.fallback(
                app,
                calls,
                scope,
                &props.fallback,
            ),
        }
    }

    /// Calls a body of the application.
    fn render(
        &self,
        app: &A,
        calls: &mut Calls,
        scope: u64,
        component: &A::Component,
        props: &A::Props,
    ) -> Result<TurnParts<A, Element<A>>, OutOfMemory>
        ensures means { IfOk result (λ parts. Leaves
            ((A.meaning app.now).body component.now props.now)
            self.now.state scope parts) }
        ensures counted { calls.new ≡ raised_where true calls.old }
    {
        let world = self.state.world(None, true);
        let cx = BodyCx::enter(self.alloc, calls, &world, ScopeId(scope));
        let turn = app.render(self.alloc, component, props, cx)?;
        Ok(turn.parts())
    }

    /// An answer for which nothing was called.
    fn plain(&self, answer: Element<A>) -> TurnParts<A, Element<A>>
        ensures { result ≡ plain_left self.now.state.next answer }
    {
        TurnParts {
            answer,
            reads: List::new(self.alloc),
            commands: List::new(self.alloc),
            next: self.state.next,
            fault: None,
        }
    }

    /// What a root wrapper's body leaves.
    fn rooted(&self, props: &RootProps<A>) -> Result<TurnParts<A, Element<A>>, OutOfMemory>
        ensures { IfOk result (λ parts. (scope : ℕ) → Leaves (λ w. run.plain w []
            (model.rendered (run.root_tree props.now.component props.now.props)))
            self.now.state scope parts) }
    {
        let alloc = self.alloc;
        let component = props.component.copy(alloc)?;
        let own = props.props.copy(alloc)?;
        let tree = root_tree(alloc, component, own)?;
        Ok(self.plain(Ok(tree)))
    }

    /// What the body of a fragment with these children leaves.
    fn fragment(&self, children: &Element<A>) -> Result<TurnParts<A, Element<A>>, OutOfMemory>
        ensures { IfOk result (λ parts. (scope : ℕ) →
            Leaves (λ w. run.plain w [] (element_of children.now)) self.now.state scope parts) }
    {
        let children = copy_of(self.alloc, children)?;
        Ok(self.plain(children))
    }

    /// What a suspense boundary's fallback leaves.
    fn fallback(
        &self,
        app: &A,
        calls: &mut Calls,
        scope: u64,
        fallback: &Fallback<A>,
    ) -> Result<TurnParts<A, Element<A>>, OutOfMemory>
        ensures means { IfOk result (λ parts. (children : _) → Leaves
            (run.body_of (A.meaning app.now)
            (model.SuspenseBoundary children (fallback_of fallback.now)))
            self.now.state scope parts) }
        ensures counted { calls.new
            ≡ raised_where (is_some (fallback_of fallback.now)) calls.old }
    {
        match fallback {
            Fallback::Placeholder => {
                let tree = VNode::placeholder(self.alloc)?;
                Ok(self.plain(Ok(tree)))
            }
            Fallback::Component(component, props) => self.render(
                app, calls, scope, component, props,
            ),
        }
    }

    /// What an error boundary's body leaves. It reads the error that the boundary keeps.
    fn caught(
        &self,
        app: &A,
        calls: &mut Calls,
        scope: u64,
        children: &Element<A>,
        handler: &ErrorHandler<A>,
    ) -> Result<TurnParts<A, Element<A>>, OutOfMemory>
        ensures means { IfOk result (λ parts. Leaves
            (run.body_of (A.meaning app.now)
            (model.ErrorBoundary (element_of children.now) (handler_of handler.now)))
            self.now.state scope parts) }
        ensures counted { OnOk result (calls.new ≡ raised_where
            (is_some (error_kept (at self.now.state.rows.table scope))
            && is_some (handler_of handler.now)) calls.old) }
    {
        let parts = self.handled(app, calls, scope, children, handler)?;
        and_read(parts, Source::Error(ScopeId(scope)))
    }

    /// What an error boundary's body leaves but for that read: its children where it keeps no error,
    /// else what handles the error.
    fn handled(
        &self,
        app: &A,
        calls: &mut Calls,
        scope: u64,
        children: &Element<A>,
        handler: &ErrorHandler<A>,
    ) -> Result<TurnParts<A, Element<A>>, OutOfMemory>
        ensures means { IfOk result (λ parts. Leaves
            (handled_by (A.meaning app.now) (element_of children.now)
            (handler_of handler.now)
            (option_map mirror.error_of (error_kept (at self.now.state.rows.table scope))))
            self.now.state scope parts) }
        ensures counted { OnOk result (calls.new ≡ raised_where
            (is_some (error_kept (at self.now.state.rows.table scope))
            && is_some (handler_of handler.now)) calls.old) }
    {
        let Some(error) = error_of(&self.state, scope) else {
            let tree = children_tree(self.alloc, children)?;
            return Ok(self.plain(Ok(tree)));
        };
        let text = error.text.copy(self.alloc)?;
        self.handle(app, calls, scope, handler, text)
    }

    /// What handles an error with this text leaves.
    fn handle(
        &self,
        app: &A,
        calls: &mut Calls,
        scope: u64,
        handler: &ErrorHandler<A>,
        text: Text,
    ) -> Result<TurnParts<A, Element<A>>, OutOfMemory>
        ensures means { IfOk result (λ parts. (children : _) (serial : ℕ) → Leaves
            (handled_by (A.meaning app.now) children (handler_of handler.now)
            (Some (record { serial = serial; text = text })))
            self.now.state scope parts) }
        ensures counted { calls.new
            ≡ raised_where (is_some (handler_of handler.now)) calls.old }
    {
        match handler {
            ErrorHandler::Default => {
                let tree = error_tree(self.alloc, text)?;
                Ok(self.plain(Ok(tree)))
            }
            ErrorHandler::Component(component, props) => self.render(
                app, calls, scope, component, props,
            ),
        }
    }
}

/// What a call left, with one more read.
fn and_read<P: Parts>(
    parts: TurnParts<P, Element<P>>,
    source: Source,
) -> Result<TurnParts<P, Element<P>>, OutOfMemory>
    ensures { IfOk result (λ more. more ≡ record parts { reads = parts.reads ++ source ∷ [] }) }
{
    let mut parts = parts;
    match parts.reads.push(source) {
        Ok(()) => Ok(parts),
        Err(refused) => Err(refused),
    }
}
