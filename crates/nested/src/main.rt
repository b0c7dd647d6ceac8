//! Translates MIPS programs to Java class files and runs them; assembles and lists programs.
#![tactic(auto)]

use nested_main::perform;
use std::process::ExitCode;

/// The program over the real runtime.
fn main(rt: HostRuntime) -> ExitCode {
    let input = rt.stdin().lock();
    let out = rt.stdout().lock();
    let err = rt.stderr().lock();
    perform(rt, input, out, err)
}
