//! The program of the examples: sessions of the list, of the memo and the resource, and of the
//! board, and then the loop. Their edits and reports are printed, and the rows that show at the
//! loop's end.
#![tactic(auto)]

mod board;
mod derived;
mod kept;
mod list;

use examples_lines::print_lines;

fn main(rt: HostRuntime) {
    let alloc = rt.alloc();
    print_lines(&rt, list::printed(alloc));
    print_lines(&rt, derived::printed(alloc));
    print_lines(&rt, board::printed(alloc));
    match kept::printed(&rt, alloc) {
        Ok(lines) => print_lines(&rt, Ok(lines)),
        Err(fault) => {
            let _ = println!(rt; "{fault}");
        }
    }
}
