//! A run that is shown on a screen.
ghost use Rattle.lang_syntax.specs.Mirror.{source_of};
ghost use Rattle.show_words.specs.declared.words.Wish.TheVariants as wishes;
ghost use Rattle.show_words.specs.Asked.{alone};
ghost use Rattle.show_words.specs.Runs.{Prints};
ghost use Rattle.show_words.specs.Words.{IsSize};

use crate::running::run_script;
use lang_syntax::Source as Described;
use rt_edits::Mutations;
use rt_memo::SessionFault;
use run_reports::USUAL;
use show_print::fault_line;
use show_screens::{put_ended_screens, put_screens};
use show_streams::Out;
use show_words::{Prepared, Size, Stop, fault_said, prepare, said};
use std::alloc::Global;

/// Runs an application and puts the rows that change on a screen, report by report; of a fault
/// `line` says more.
pub fn draw<O: Out>(
    alloc: Global,
    described: Described,
    size: Size,
    out: &mut O,
    line: &mut Option<String>,
) -> Result<(), Stop>
    requires size { IsSize size }
    ensures prints { Prints (wishes.Screen size) (alone (source_of described))
        (O.puts out.old) (O.puts out.new) (O.faults out.old) (O.faults out.new) result }
{
    let Prepared {
        script,
        props,
        inputs,
    } = prepare(alloc, described)?;
    let mut sink = Mutations::default_list(alloc);
    match run_script(alloc, script, props, inputs, &mut sink, USUAL) {
        Ok(reports) => {
            put_screens(alloc, size, sink.edits(), reports.as_slice(), out)?;
            Ok(())
        }
        Err(SessionFault { fault, reports }) => {
            *line = said(fault_said(alloc, fault));
            let Some(last) = fault_line(alloc, fault)? else {
                return Err(Stop::OutOfMemory);
            };
            put_ended_screens(
                alloc,
                size,
                sink.edits(),
                reports.as_slice(),
                last.as_slice(),
                out,
            )?;
            Err(Stop::Fault)
        }
    }
}
