//! Reads are left out of random lists.
use crate::failure::Failure;
use crate::reads::missing_read;
use crate::record::recorded;
use iox2_runs::Command;
use random_commands::without;
use recordings::Recording;
use std::alloc::Global;

// How many commands of a list are taken, so that it has no more than that many receives.
const MOST_COMMANDS: usize = 60;

// How many reads are added to a list at most: of five elements for each command.
const MOST_READS: usize = 300;

/// Whether each read that a recording promises is missed where it is left out. The first commands of the list
/// are carried out with reads of so many elements of each received message, at most five, and then without
/// each of these in turn.
pub(crate) fn misses_each(
    alloc: Global,
    recording: &Recording,
    reads: usize,
) -> Result<bool, Failure> {
    let whole = with_reads(alloc, recording, reads)?;
    for (position, command) in whole.commands.iter().enumerate() {
        let is_doubled = whole.commands.get(position.saturating_add(1)) == Some(command);
        if !is_doubled && is_promised(&whole, position, command) {
            let fewer = without(alloc, whole.commands.as_slice(), position, 1)?;
            let fewer = promising(alloc, &whole, fewer.as_slice())?;
            let missed = missing_read(alloc, &fewer)?.map(|missing| missing.command());
            if missed != Some(*command) {
                return Ok(false);
            }
        }
    }
    Ok(missing_read(alloc, &whole)?.is_none())
}

// The commands with all reads of so many elements that a recording promises.
fn with_reads(alloc: Global, recording: &Recording, reads: usize) -> Result<Recording, Failure> {
    let commands = recording.commands.as_slice();
    let first = &commands[..MOST_COMMANDS.min(commands.len())];
    let mut whole = recorded(alloc, recording.config, first)?;
    whole.reads = reads;
    for _ in 0..MOST_READS {
        let Some(missing) = missing_read(alloc, &whole)? else {
            break;
        };
        let commands = whole.commands.as_slice();
        let more = with_command(alloc, commands, missing.position(), missing.command())?;
        whole = promising(alloc, &whole, more.as_slice())?;
    }
    Ok(whole)
}

// These commands, carried out with the settings and the promise of the recording.
fn promising(
    alloc: Global,
    recording: &Recording,
    commands: &[Command<u64, u64>],
) -> Result<Recording, Failure> {
    let mut carried_out = recorded(alloc, recording.config, commands)?;
    carried_out.reads = recording.reads;
    Ok(carried_out)
}

// The commands with one more at the position.
fn with_command(
    alloc: Global,
    commands: &[Command<u64, u64>],
    position: usize,
    command: Command<u64, u64>,
) -> Result<Vec<Command<u64, u64>>, Failure> {
    let mut more = Vec::new(alloc);
    for (old, kept) in commands.iter().enumerate() {
        if old == position {
            more.push(command)?;
        }
        let mut moved = *kept;
        if let Some(of) = moved.of_mut() {
            if *of >= position {
                *of = of.saturating_add(1);
            }
        }
        more.push(moved)?;
    }
    if position >= commands.len() {
        more.push(command)?;
    }
    Ok(more)
}

// Whether the command at the position is a read that the recording promises.
fn is_promised(recording: &Recording, position: usize, command: &Command<u64, u64>) -> bool {
    let Command::Read { of, at } = *command else {
        return false;
    };
    let is_received = matches!(recording.commands.get(of), Some(Command::Receive { .. }));
    let is_behind = of.checked_add(at).and_then(|last| last.checked_add(1)) == Some(position);
    let is_read = match recording.replies.get(position) {
        Some(reply) => reply.as_str().starts_with("value "),
        None => false,
    };
    is_received && is_behind && is_read && at < recording.reads
}
