//! Reads a script of commands on a dictionary from standard input, and prints its output.
#![tactic(auto)]

use rkyv_dict::run::{exit_status, run};
use std::process::ExitCode;

fn main(rt: HostRuntime) -> ExitCode {
    let outcome = run(rt.alloc(), &mut rt.stdin(), &mut rt.stdout());
    if let Err(error) = &outcome {
        let _ = rt.eprintln(error);
    }
    ExitCode::from(exit_status(&outcome))
}
