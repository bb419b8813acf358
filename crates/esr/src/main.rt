// The solvency book's program: a script in, a line of answer for each of its statements out.
#![tactic(auto)]

use console::{run, status};
use std::process::ExitCode;

// The same three lines in each program: a program is run on the one input of its own crate.
fn main(rt: HostRuntime) -> ExitCode {
    status(&run(&rt))
}
