//! The command `dft`: transforms over finite fields of the numbers on the command line.
//!
//! `dft FIELD ENGINE OP [ADDED] [SHIFT] WIDTH VALUE..` writes the answer to standard output, a line
//! for each row.
#![tactic(auto)]

use dft_program::counted::Counted;
use dft_program::environment::Environment;
use dft_program::program::run_command_line;
use std::io;
use std::process::ExitCode;

fn main(rt: HostRuntime) -> ExitCode {
    let mut line = Environment::new(&rt);
    let mut out = Counted::new(io::writer(&rt));
    ExitCode::from(run_command_line(rt.alloc(), &mut line, &mut out))
}
