//! Programs whose dom is driven by calls.

use crate::calling::call;
use crate::driven::Driven;
use crate::sessions::put_sessions;
use crate::telling::put_fault;
use crate::words::{number, small, value_of, word, words_of};
use lang_script::Script;
use lang_sources::read_source;
use rt_values::OutOfMemory;
use run_records::Firsts;
use run_reports::{Fault, Limits};
use std::alloc::Global;
use std::str::Split;

/// A dom as these words say: `limits U H` and how it is made.
fn made<D: Driven>(
    alloc: Global,
    script: Script,
    words: &[&str],
) -> Result<Result<D, Fault>, OutOfMemory> {
    let limits = Limits {
        units: number(words, 1),
        height: small(words, 2),
        drain: 1024,
    };
    let props = script.props(alloc)?;
    Ok(match word(words, 3) {
        "new" => D::new(alloc, script, limits),
        "pre" => D::prebuilt(alloc, script, limits),
        "from" => {
            let firsts = Firsts {
                tasks: number(words, 4),
                cells: number(words, 5),
                contexts: number(words, 6),
                elements: number(words, 7),
                errors: number(words, 8),
            };
            D::new_from(alloc, script, props, limits, firsts)
        }
        _ => D::new_with_props(alloc, script, props, limits),
    })
}

/// The dom is closed.
fn close<D: Driven>(
    alloc: Global,
    out: &mut String,
    kept: &mut Option<D>,
) -> Result<(), OutOfMemory> {
    let Some(dom) = kept.take() else {
        return Ok(());
    };
    match dom.close() {
        Ok(_script) => out.push_str("closed\n")?,
        Err(fault) => put_fault(alloc, out, fault)?,
    }
    Ok(())
}

/// Keeps a dom. One that was kept before is closed.
fn keep<D: Driven>(kept: &mut Option<D>, dom: D) {
    match kept.replace(dom) {
        Some(before) => {
            let _closed = before.close();
        }
        None => {}
    }
}

/// The root wrapper of the dom provides a value. A refusal ends the dom.
fn provide<D: Driven>(
    alloc: Global,
    out: &mut String,
    kept: &mut Option<D>,
    words: &[&str],
) -> Result<(), OutOfMemory> {
    let value = value_of(alloc, word(words, 2))?;
    let Some(dom) = kept.take() else {
        return Ok(());
    };
    match dom.with_root_context(small(words, 1), value) {
        Ok(dom) => {
            keep(kept, dom);
            out.push_str("ok\n")?;
        }
        Err(fault) => put_fault(alloc, out, fault)?,
    }
    Ok(())
}

/// One more call on the dom, which may end it.
fn step<D: Driven>(
    alloc: Global,
    out: &mut String,
    kept: &mut Option<D>,
    words: &[&str],
) -> Result<(), OutOfMemory> {
    match word(words, 0) {
        "close" => close(alloc, out, kept),
        "with" => provide(alloc, out, kept, words),
        _ => match kept {
            Some(dom) => call(alloc, out, dom, words),
            None => Ok(()),
        },
    }
}

/// The calls of these lines, up to one that ends the dom.
fn call_all<D: Driven>(
    alloc: Global,
    out: &mut String,
    kept: &mut Option<D>,
    lines: Split<'_, &str>,
) -> Result<(), OutOfMemory> {
    for line in lines {
        if !line.is_empty() {
            let words = words_of(alloc, line)?;
            step(alloc, out, kept, words.as_slice())?;
        }
        if kept.is_none() {
            return Ok(());
        }
    }
    Ok(())
}

/// Does the calls of these lines on a dom, and closes it behind them.
fn drive_dom<D: Driven>(
    alloc: Global,
    out: &mut String,
    dom: D,
    lines: Split<'_, &str>,
) -> Result<(), OutOfMemory> {
    let mut kept = Some(dom);
    let done = call_all(alloc, out, &mut kept, lines);
    match kept {
        Some(dom) => {
            let _closed = dom.close();
        }
        None => {}
    }
    done
}

/// The source in the first line, how the dom is made in the second, and then the calls.
fn drive_one<D: Driven>(alloc: Global, out: &mut String, text: &str) -> Result<(), OutOfMemory> {
    let mut lines = text.split("\n");
    let source = lines.next().unwrap_or("");
    let how = words_of(alloc, lines.next().unwrap_or(""))?;
    let Some(described) = read_source(alloc, source.as_bytes())? else {
        out.push_str("form\n")?;
        return Ok(());
    };
    let script = Script::new(alloc, described)?;
    match made::<D>(alloc, script, how.as_slice())? {
        Ok(dom) => drive_dom(alloc, out, dom, lines),
        Err(fault) => Ok(put_fault(alloc, out, fault)?),
    }
}

/// Programs one after another, each ended by a line of four signs: calls on a dom, or sessions.
pub fn drive<D: Driven>(alloc: Global, bytes: &[u8]) -> Result<String, OutOfMemory> {
    let mut out = String::new(alloc);
    let Ok(text) = str::from_utf8(bytes) else {
        return Ok(out);
    };
    for program in text.split("====\n") {
        if !program.is_empty() {
            match program.strip_prefix("session ") {
                Some(text) => put_sessions(alloc, &mut out, text)?,
                None => drive_one::<D>(alloc, &mut out, program)?,
            }
            out.push_str("====\n")?;
        }
    }
    Ok(out)
}
