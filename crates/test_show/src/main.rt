//! Rows of the whole program: each is run, and its lines, its status and what is said beside the
//! status are printed, so that they can be compared with those that it ought to have.
#![tactic(auto)]

mod examples;
mod keeping;
mod memos;
mod runs;

use examples::Examples;
use show_streams::{StandardIn, StandardOut, read_all};
use std::process::ExitCode;
use test_rows::put_rows;

fn main(rt: HostRuntime) -> ExitCode {
    let mut given = StandardIn::new(rt.reader());
    let Ok(bytes) = read_all(rt.alloc(), &mut given) else {
        return ExitCode::from(5);
    };
    let mut out = StandardOut::new(&rt);
    match put_rows::<Examples, _>(rt.alloc(), bytes.as_slice(), &mut out) {
        Ok(()) => ExitCode::from(0),
        Err(_refused) => ExitCode::from(6),
    }
}
