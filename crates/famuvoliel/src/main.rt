//! The program, on real files and standard output.
#![tactic(auto)]

use np_io::{FileShelf, OutSink};
use np_program::program;
use std::process::ExitCode;

fn main(rt: HostRuntime) -> ExitCode {
    let mut shelf = FileShelf::new(rt.alloc(), rt);
    let mut out = OutSink::new(rt);
    ExitCode::from(program(rt.alloc(), &rt, &mut shelf, &mut out))
}
