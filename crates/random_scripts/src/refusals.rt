//! A script while one allocation is refused.
use crate::comparison::{Comparison, Ran, carry_out_all, compare};
use crate::failure::Failure;
use crate::rounds::{MOST_COMMANDS, print_lines};
use iox2_model::Memory;
use random_commands::{Script, draw_script};
use std::alloc::Global;

// How many allocations are tried at most.
const MOST_ALLOCATIONS: u64 = 10_000_000;

/// Draws a script and doesn't run it. Prints which allocation after that is refused.
pub(crate) fn only_draw(rt: &HostRuntime, number: u64, seed: u64) -> Result<(), Failure> {
    draw_script(rt.alloc(), seed, number, MOST_COMMANDS)?;
    println!(rt; "{} allocations left", allocations_left(rt.alloc()))?;
    Ok(())
}

/// Draws a script and runs it. Prints which allocation after that is refused.
pub(crate) fn only_run(rt: &HostRuntime, number: u64, seed: u64) -> Result<(), Failure> {
    let script = draw_script(rt.alloc(), seed, number, MOST_COMMANDS)?;
    carry_out_all(rt.alloc(), script.config, script.commands.as_slice())?;
    println!(rt; "{} allocations left", allocations_left(rt.alloc()))?;
    Ok(())
}

/// Draws a script, makes that many allocations, and then runs the script, in which one may be refused.
/// Fails if its outcome isn't what the model says, whatever couldn't be allocated.
pub(crate) fn run_refused(
    rt: &HostRuntime,
    allocations: u64,
    number: u64,
    seed: u64,
) -> Result<(), Failure> {
    let script = draw_script(rt.alloc(), seed, number, MOST_COMMANDS)?;
    allocate(rt.alloc(), allocations)?;
    match carry_out_all(rt.alloc(), script.config, script.commands.as_slice()) {
        Ok(ran) => explain(rt, &script, &ran),
        Err(Failure::OutOfMemory(_)) => {
            println!(rt; "no run")?;
            Ok(())
        }
        Err(failure) => Err(failure),
    }
}

// Says what couldn't be allocated, where the model has these replies then. It is asked about each time
// that a port, a connection or a segment needs memory, up to the first reply that it hasn't with ample memory:
// what was refused was refused before. Most likely it was shortly before.
fn explain(rt: &HostRuntime, script: &Script, ran: &Ran) -> Result<(), Failure> {
    let ample = compared(rt.alloc(), script, ran, Memory::ample())?;
    if ample.difference.is_none() {
        println!(rt; "nothing seen")?;
        return Ok(());
    }
    let questions = ample.questions;
    let mut closest = 0;
    let mut most = 0;
    for later in 0..questions {
        let count = questions - 1 - later;
        let refused = compared(rt.alloc(), script, ran, Memory::refused_after(count))?;
        match refused.difference {
            None => return print_refusal(rt, ran, &refused),
            Some(difference) => {
                let found = difference.rank(ran.replies.len());
                if found > most {
                    most = found;
                    closest = count;
                }
            }
        }
    }
    print_closest(rt, script, ran, closest)
}

// What the model says of a run with such a memory.
fn compared(
    alloc: Global,
    script: &Script,
    ran: &Ran,
    memory: Memory,
) -> Result<Comparison, Failure> {
    let commands = script.commands.as_slice();
    compare(alloc, script.config, commands, ran, memory)
}

// Prints the script, and what differs when memory is refused after that many times.
fn print_closest(
    rt: &HostRuntime,
    script: &Script,
    ran: &Ran,
    count: usize,
) -> Result<(), Failure> {
    let replies = ran.replies.len();
    let comparison = compared(rt.alloc(), script, ran, Memory::refused_after(count))?;
    print_lines(rt, script)?;
    println!(rt;
        "no refusal to a port, a connection or a segment explains the {replies} replies; after the best one:"
    )?;
    if let Some(difference) = comparison.difference {
        difference.print(rt)?;
    }
    Err(Failure::Refuted)
}

// Says what couldn't be allocated: a connection, a segment or a port.
fn print_refusal(rt: &HostRuntime, ran: &Ran, refused: &Comparison) -> Result<(), Failure> {
    if ran.refused_connections > 0 {
        println!(rt; "a connection was refused")?;
    } else if refused.has_refused_segment {
        println!(rt; "a segment was refused")?;
    } else {
        println!(rt; "a port was refused")?;
    }
    Ok(())
}

// Makes that many allocations.
fn allocate(alloc: Global, count: u64) -> Result<(), Failure> {
    for _ in 0..count {
        Vec::<u8>::with_capacity(alloc, 1)?;
    }
    Ok(())
}

// How many allocations are granted before one is refused.
fn allocations_left(alloc: Global) -> u64 {
    for count in 0..MOST_ALLOCATIONS {
        if Vec::<u8>::with_capacity(alloc, 1).is_err() {
            return count;
        }
    }
    MOST_ALLOCATIONS
}
