// What the programs do around a script: read it, and print its answers or its fault.
#![tactic(auto)]

ghost use Rattle.std.specs.Prelude.{◌≡◌, MatchResult};
ghost use Rattle.std.specs.Process.{exit_status};

use session::answers;
use std::io::Read;
use std::process::ExitCode;
use std::{env, fs};

// The script's bytes: of the file that the first argument names, or else of standard input.
fn input(rt: &HostRuntime) -> anyhow::Result<Vec<u8>> {
    let mut args = env::args(rt)?;
    let _program = args.next();
    match args.next() {
        Some(path) => Ok(fs::read(rt, path.as_str())?),
        None => {
            let mut bytes = Vec::new(rt.alloc());
            rt.stdin().read_to_end(&mut bytes)?;
            Ok(bytes)
        }
    }
}

// Prints a line of answer for each statement, once every line is understood.
fn respond(rt: &HostRuntime) -> anyhow::Result<()> {
    let text = input(rt)?;
    let answers = answers(rt.alloc(), text.as_slice())?;
    for answer in &answers {
        rt.println(answer)?;
    }
    Ok(())
}

// The whole program: what goes wrong is told on standard error, and handed on.
pub fn run(rt: &HostRuntime) -> anyhow::Result<()> {
    let outcome = respond(rt);
    if let Err(e) = &outcome {
        eprintln!(rt; "{e}")?;
    }
    outcome
}

// The status to end with: 1 where something went wrong, which `run` has told.
pub fn status(outcome: &anyhow::Result<()>) -> ExitCode
    ensures { MatchResult outcome.now (λ _. exit_status result ≡ 0) (λ _. exit_status result ≡ 1) }
{
    match outcome {
        Ok(()) => ExitCode::SUCCESS,
        Err(_) => ExitCode::FAILURE,
    }
}
