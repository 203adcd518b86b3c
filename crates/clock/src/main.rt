// The program: see clock_run.
#![tactic(auto)]

use std::process::ExitCode;

fn main(rt: HostRuntime) -> ExitCode {
    clock_run::run(&rt)
}
