//! Runs the list of commands with which a publisher comes to need every slot of the worst case: once,
//! to show that none of them is refused, or twice, to compare the runs.
#![tactic(auto)]

mod failure;
mod lists;
mod sizes;

use command_line::run_task;
use failure::Failure;
use lists::{compare, fill};
use sizes::Sizes;
use std::process::ExitCode;

fn main(rt: HostRuntime) -> ExitCode {
    run_task(&rt, carry_out)
}

// Does what the arguments ask for.
fn carry_out(rt: &HostRuntime, words: &[String]) -> Result<(), Failure> {
    match words {
        [_, task, words @ ..] if task.as_str() == "fill" => fill(rt, &Sizes::parse(words)?),
        [_, task, words @ ..] if task.as_str() == "compare" => compare(rt, &Sizes::parse(words)?),
        _ => Err(Failure::Usage),
    }
}
