//! An application that is given line by line, under way.
ghost use Rattle.std.specs.Prelude.{◌≡◌, ◌≤◌, ◌∷◌, [], Some, map, IfOk};
ghost use Rattle.lang_syntax.specs.Mirror.{input_of as said_input, source_of};
ghost use Rattle.rt_language.specs.Meaning as language;
ghost use Rattle.run_reports.specs.Seen.{input_of};
ghost use Rattle.show_words.specs.Ready.{MadeOf};
ghost use Rattle.show_stream.specs.Streams.{IsStreamed};
ghost use Rattle.show_stream.specs.UnderWay.{Answers, Begins, Builds, Holds, IsAt, IsUnderWay, Opens, TakesAll};

use crate::answers::{put_answer, put_fault, put_refusal};
use crate::refused::say_refused;
use lang_inputs::read_input;
use lang_minding::sources_keep_memos;
use lang_script::{Script, inputs_of};
use lang_sources::read_source;
use lang_syntax::{InputSource, Source as Described};
use lang_views::Props;
use rt_values::{List, OutOfMemory};
use run_ongoing::Ongoing;
use run_reports::{Input, USUAL};
use show_logs::refusal;
use show_objects::Tells;
use show_streams::Out;
use show_words::{Prepared, Stop, prepare, said_where};
use std::alloc::Global;

/// The only input of some.
fn input_said(alloc: Global, said: InputSource) -> Result<List<Input<Script>>, OutOfMemory>
    ensures input { IfOk result (λ inputs. map input_of inputs
        ≡ language.inputs_of (said_input said ∷ [])) }
{
    let mut one = List::new(alloc);
    one.push(said)?;
    inputs_of(alloc, one.as_slice())
}

/// An application that was built, and takes in one line after another. It keeps nothing of the past.
#[derive(Drop)]
pub struct Streaming {
    session: Ongoing<Script>,
}

impl Streaming {
    /// Builds the application that a line is, takes in the inputs that stand in it, and puts the
    /// edits and the report of each, as `T` tells them. Where the line is no application, `line` says
    /// why; of a fault it says more.
    pub fn open<T: Tells, O: Out>(
        alloc: Global,
        first: &[u8],
        out: &mut O,
        line: &mut Option<String>,
    ) -> Result<Streaming, Stop>
        ensures opens { Opens T.form first.now (O.puts out.old) (O.puts out.new)
            (O.faults out.old) (O.faults out.new) result }
        ensures later { O.faults out.old ≤ O.faults out.new }
    {
        match read_source(alloc, first)? {
            Some(described) => Streaming::run::<T, O>(alloc, described, out, line),
            None => {
                *line = said_where(refusal(alloc, first));
                Err(Stop::Form)
            }
        }
    }

    /// Answers a line: puts the edits and the report of the input that it is; or where it is none,
    /// which changes nothing, the one line that says so, after `errors` was told why. Of a fault
    /// `line` says more. What was put so far is to have the same form.
    pub fn answer<T: Tells, O: Out, E: Eprint>(
        &mut self,
        alloc: Global,
        bytes: &[u8],
        out: &mut O,
        errors: &E,
        line: &mut Option<String>,
    ) -> Result<(), Stop>
        ensures answers { (first : _) (lines : _) (text : _) →
            IsUnderWay T.form first lines text self.old →
            Answers T.form first lines bytes.now text (O.puts out.old) (O.puts out.new)
            (O.faults out.old) (O.faults out.new) self.new result }
        ensures later { O.faults out.old ≤ O.faults out.new }
    {
        self.held();
        match read_input(alloc, bytes)? {
            Some(said) => {
                let inputs = input_said(alloc, said)?;
                self.take_all::<T, O>(alloc, inputs, out, line)
            }
            None => {
                say_refused(alloc, bytes, errors);
                put_refusal::<T, O>(out)?;
                Ok(())
            }
        }
    }

    /// At each time what was put is the text of a session of which the headline holds, and whose
    /// memos and resources are kept.
    pub fn holds(&self)
        ensures streamed { (form : _) (first : _) (lines : _) (text : _) →
            IsUnderWay form first lines text self.now → IsStreamed form first lines text }
    {
        self.held();
    }

    /// The headline holds of the session so far, and its memos and resources are kept.
    fn held(&self)
        ensures held { Holds self.now }
    {
        self.session.holds();
        sources_keep_memos();
    }

    /// Builds an application, and takes in the inputs that stand in it.
    fn run<T: Tells, O: Out>(
        alloc: Global,
        described: Described,
        out: &mut O,
        line: &mut Option<String>,
    ) -> Result<Streaming, Stop>
        ensures begins { Begins T.form (source_of described) (O.puts out.old) (O.puts out.new)
            (O.faults out.old) (O.faults out.new) result }
        ensures later { O.faults out.old ≤ O.faults out.new }
    {
        let Prepared {
            script,
            props,
            inputs,
        } = prepare(alloc, described)?;
        let mut streaming = Streaming::build::<T, O>(alloc, script, props, out, line)?;
        streaming.take_all::<T, O>(alloc, inputs, out, line)?;
        Ok(streaming)
    }

    /// Builds an application.
    fn build<T: Tells, O: Out>(
        alloc: Global,
        script: Script,
        props: Props,
        out: &mut O,
        line: &mut Option<String>,
    ) -> Result<Streaming, Stop>
        ensures builds { (source : _) (inputs : _) → MadeOf source script props inputs →
            Builds T.form source (O.puts out.old) (O.puts out.new)
            (O.faults out.old) (O.faults out.new) result }
        ensures later { O.faults out.old ≤ O.faults out.new }
    {
        let mut sink = T::fresh(alloc);
        match Ongoing::begin(alloc, script, props, USUAL, &mut sink) {
            Ok((session, report)) => {
                let built = Streaming { session };
                built.held();
                put_answer::<T, O>(alloc, sink.kept(), 0, &report, out)?;
                Ok(built)
            }
            Err(fault) => Err(put_fault::<T, O>(alloc, sink.kept(), fault, out, line)),
        }
    }

    /// Takes inputs in, one after the other.
    fn take_all<T: Tells, O: Out>(
        &mut self,
        alloc: Global,
        inputs: List<Input<Script>>,
        out: &mut O,
        line: &mut Option<String>,
    ) -> Result<(), Stop>
        ensures takes { (source : _) (asked : _) (said : _) (text : _) →
            IsAt T.form source asked text self.old → map input_of inputs ≡ language.inputs_of said →
            TakesAll T.form source asked (map Some said) text (O.puts out.old) (O.puts out.new)
            (O.faults out.old) (O.faults out.new) self.new result }
        ensures later { O.faults out.old ≤ O.faults out.new }
    {
        for input in inputs.into_vec() {
            self.take::<T, O>(alloc, input, out, line)?;
        }
        Ok(())
    }

    /// Takes an input in, and puts its edits and its report.
    fn take<T: Tells, O: Out>(
        &mut self,
        alloc: Global,
        input: Input<Script>,
        out: &mut O,
        line: &mut Option<String>,
    ) -> Result<(), Stop>
        ensures takes { (source : _) (asked : _) (said : _) (text : _) →
            IsAt T.form source asked text self.old → input_of input ≡ language.input_of said →
            TakesAll T.form source asked (Some said ∷ []) text (O.puts out.old) (O.puts out.new)
            (O.faults out.old) (O.faults out.new) self.new result }
        ensures later { O.faults out.old ≤ O.faults out.new }
    {
        self.held();
        let mut sink = T::fresh(alloc);
        match self.session.take(input, &mut sink) {
            Ok(report) => {
                self.held();
                let number = self.session.taken();
                put_answer::<T, O>(alloc, sink.kept(), number, &report, out)?;
                Ok(())
            }
            Err(fault) => Err(put_fault::<T, O>(alloc, sink.kept(), fault, out, line)),
        }
    }
}
