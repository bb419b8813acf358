// The same program over a script that is misread: nothing on standard output, and status 1.
#![tactic(auto)]

use console::{run, status};
use std::process::ExitCode;

// The same three lines in each program: a program is run on the one input of its own crate.
fn main(rt: HostRuntime) -> ExitCode {
    status(&run(&rt))
}
