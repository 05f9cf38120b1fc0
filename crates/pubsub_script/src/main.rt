//! Runs a script of publish-subscribe calls: reads it from standard input, and prints a line for
//! each reply.
#![tactic(auto)]

#[cfg(test)]
mod tests;

use script_runner::script;
use std::io;
use std::process::ExitCode;

fn main(rt: HostRuntime) -> ExitCode {
    let mut output = io::writer(&rt);
    let ending = script(rt.alloc(), &mut rt.stdin(), &mut output, &mut rt.stderr());
    ExitCode::from(ending.status())
}
