// The program `clock` on this crate's input (docs/CASES.md).
#![tactic(auto)]

use std::process::ExitCode;

fn main(rt: HostRuntime) -> ExitCode {
    clock_run::run(&rt)
}
