//! Records what a script calls, and runs recordings again.
#![tactic(auto)]

mod damage;
mod failure;
mod random_lists;
mod random_reads;
mod reads;
mod record;
mod replay;
mod shortest;

use command_line::run_task;
use damage::try_damages;
use failure::Failure;
use random_lists::{print_list, try_random_lists};
use record::record;
use replay::replay;
use std::io::Read;
use std::process::ExitCode;

fn main(rt: HostRuntime) -> ExitCode {
    run_task(&rt, carry_out)
}

// Does what the arguments ask for.
fn carry_out(rt: &HostRuntime, words: &[String]) -> Result<(), Failure> {
    match words {
        [_, task] => match task.as_str() {
            "replay" => replay(rt, input(rt)?.as_slice()),
            "record" => record(rt, input(rt)?.as_slice()),
            _ => Err(Failure::Usage),
        },
        [_, task, count, seed] => match task.as_str() {
            "random" => try_random_lists(rt, number(count)?, number(seed)?),
            "damage" => try_damages(rt, number(count)?, number(seed)?),
            "list" => print_list(rt, number(count)?, number(seed)?),
            _ => Err(Failure::Usage),
        },
        _ => Err(Failure::Usage),
    }
}

// All that standard input gives.
fn input(rt: &HostRuntime) -> Result<Vec<u8>, Failure> {
    let mut text = Vec::new(rt.alloc());
    rt.stdin().read_to_end(&mut text)?;
    Ok(text)
}

// The number that a word says.
fn number(word: &str) -> Result<u64, Failure> {
    word.parse().map_err(|_| Failure::Usage)
}
