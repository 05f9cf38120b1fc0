//! Runs rows: scripts in which each command is beside the reply that it has to get.
#![tactic(auto)]

mod comparison;
mod failure;
mod no_channels;
mod row;
mod rows;
mod tally;

use command_line::run_task;
use failure::Failure;
use rows::run_rows;
use std::fs;
use std::process::ExitCode;
use tally::Tally;

fn main(rt: HostRuntime) -> ExitCode {
    run_task(&rt, carry_out)
}

// Runs the rows of each file that the arguments name.
fn carry_out(rt: &HostRuntime, words: &[String]) -> Result<(), Failure> {
    let mut tally = Tally::new();
    for file in words.iter().skip(1) {
        println!(rt; "{file}")?;
        let text = fs::read_to_string(rt, file.as_str())?;
        run_rows(rt, text.as_str(), &mut tally)?;
    }
    tally.print(rt)
}
