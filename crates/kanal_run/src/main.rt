//! The program: reads a script on standard input and prints what a channel answers.
#![tactic(auto)]

pub use kanal_script::serve;
use std::process::ExitCode;

fn main(rt: HostRuntime) -> ExitCode {
    ExitCode::from(serve(
        rt.alloc(),
        &mut rt.stdin(),
        &mut rt.stdout(),
        &mut rt.stderr(),
    ))
}
