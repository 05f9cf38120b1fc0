//! Numbers are relayed, voted on and queued, by the functions of `message_patterns`.
#![tactic(auto)]

mod failure;
mod ports;
mod queueing;
mod relaying;
mod voting;

use failure::Failure;
use queueing::queue_numbers;
use relaying::relay_numbers;
use voting::vote_on;

fn main(rt: HostRuntime) -> Result<(), Failure> {
    let relayed = relay_numbers(rt.alloc(), &[7, 8, 9])?;
    print_all(&rt, "relayed", relayed.as_slice())?;
    let middle = vote_on(rt.alloc(), (21, 19, 20))?;
    println!(rt; "voted {middle}")?;
    let queued = queue_numbers(rt.alloc())?;
    if let Some(number) = queued.refused {
        println!(rt; "no room for {number}")?;
    }
    for popped in queued.popped.as_slice() {
        if let Some(number) = popped {
            println!(rt; "popped {number}")?;
        }
    }
    Ok(())
}

// Prints each number on a line of its own.
fn print_all(rt: &HostRuntime, what: &str, numbers: &[u32]) -> Result<(), Failure> {
    for number in numbers {
        println!(rt; "{what} {number}")?;
    }
    Ok(())
}
