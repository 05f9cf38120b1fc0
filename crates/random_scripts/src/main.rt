//! Runs random scripts, and compares each reply with the model's; or runs one while an allocation is
//! refused.
#![tactic(auto)]

mod comparison;
mod difference;
mod failure;
mod limits;
mod refusals;
mod rounds;
mod search;
mod shortest;
mod tally;
mod word_tally;

use command_line::run_task;
use failure::Failure;
use refusals::{only_draw, only_run, run_refused};
use rounds::{run_one, run_scripts};
use std::process::ExitCode;

fn main(rt: HostRuntime) -> ExitCode {
    run_task(&rt, carry_out)
}

// Does what the arguments ask for.
fn carry_out(rt: &HostRuntime, words: &[String]) -> Result<(), Failure> {
    match words {
        [_, count, seed] => run_scripts(rt, number(count)?, number(seed)?),
        [_, task, script, seed] if task.as_str() == "one" => {
            run_one(rt, number(script)?, number(seed)?)
        }
        // All of these have as many words, so that as many allocations were made before.
        [_, task, count, script, seed] => {
            let (count, script, seed) = (number(count)?, number(script)?, number(seed)?);
            match task.as_str() {
                "draw" => only_draw(rt, script, seed),
                "run" => only_run(rt, script, seed),
                "refused" => run_refused(rt, count, script, seed),
                _ => Err(Failure::Usage),
            }
        }
        _ => Err(Failure::Usage),
    }
}

// The number that a word says.
fn number(word: &str) -> Result<u64, Failure> {
    word.parse().map_err(|_| Failure::Usage)
}
