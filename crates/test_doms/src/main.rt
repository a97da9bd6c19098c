//! Doms driven by calls that are data: the rows of standard input, and what each call answers.
#![tactic(auto)]

mod kept;

use kept::Kept;
use show_streams::{Out, StandardIn, StandardOut, read_all};
use std::process::ExitCode;
use test_driver::drive;

fn main(rt: HostRuntime) -> ExitCode {
    let mut given = StandardIn::new(rt.reader());
    let Ok(bytes) = read_all(rt.alloc(), &mut given) else {
        return ExitCode::from(5);
    };
    let mut out = StandardOut::new(&rt);
    let Ok(text) = drive::<Kept>(rt.alloc(), bytes.as_slice()) else {
        return ExitCode::from(7);
    };
    match out.put(text.as_bytes()) {
        Ok(()) => ExitCode::from(0),
        Err(_refused) => ExitCode::from(6),
    }
}
