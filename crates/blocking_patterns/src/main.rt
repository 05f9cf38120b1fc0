//! A push makes room, a number goes to two subscribers, a recorder stands beside a display, and a reading is held while
//! another is read, by the functions of `message_patterns`.
#![tactic(auto)]

mod failure;
mod holding;
mod ports;
mod pushing;
mod recording;
mod spreading;

use failure::Failure;
use holding::hold_and_read;
use pushing::push_three;
use recording::record_three;
use spreading::spread_two;

fn main(rt: HostRuntime) -> Result<(), Failure> {
    if let Some(number) = push_three(rt.alloc())? {
        println!(rt; "made room: {number} is out")?;
    }
    let spread = spread_two(rt.alloc())?;
    println!(rt; "blocked: {}", spread.was_blocked)?;
    print_all(&rt, "first", spread.first.as_slice())?;
    print_all(&rt, "second", spread.second.as_slice())?;
    let recorded = record_three(rt.alloc())?;
    print_all(&rt, "recorded", recorded.recorded.as_slice())?;
    print_all(&rt, "displayed", recorded.displayed.as_slice())?;
    let (held, read) = hold_and_read(rt.alloc())?;
    println!(rt; "held {held}")?;
    if let Some(number) = read {
        println!(rt; "read beside it {number}")?;
    }
    Ok(())
}

// Prints each number on a line of its own.
fn print_all(rt: &HostRuntime, what: &str, numbers: &[u32]) -> Result<(), Failure> {
    for number in numbers {
        println!(rt; "{what} {number}")?;
    }
    Ok(())
}
