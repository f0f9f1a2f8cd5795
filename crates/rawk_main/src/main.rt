//! The program.
#![tactic(auto)]

mod performing;

use performing::perform;
use std::io::IsTerminal;
use std::process::ExitCode;

fn main(rt: HostRuntime) -> ExitCode {
    let is_terminal = rt.stdout().is_terminal();
    ExitCode::from(perform(&rt, is_terminal))
}
