// The same program over many cases, whose answers were calculated independently.
#![tactic(auto)]

use console::{run, status};
use std::process::ExitCode;

// The same three lines in each program: a program is run on the one input of its own crate.
fn main(rt: HostRuntime) -> ExitCode {
    status(&run(&rt))
}
