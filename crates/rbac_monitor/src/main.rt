//! Plays a schedule of JSON lines on a founding, or serves callers by its members, and answers each line on standard output.
#![tactic(auto)]

use rbac_program::command::program;
use std::process::ExitCode;

fn main(rt: HostRuntime) -> ExitCode {
    ExitCode::from(program(&rt, rt.stdin(), rt.stdout(), &mut rt.stderr()))
}
