//! Lists with some commands left out.
use iox2_commands::Command;
use std::alloc::{AllocError, Global};

/// How many commands are left out at once in search of a shorter list, one count after the other.
pub const COUNTS: [usize; 15] = [
    8192, 4096, 2048, 1024, 512, 256, 128, 64, 32, 16, 8, 4, 3, 2, 1,
];

/// At how many offsets each number of commands in a row is tried, since lists often repeat a few commands
/// that have to go together.
pub const MOST_PHASES: usize = 8;

/// The commands without `count` of them from the position `from` on. The others name what they named
/// before; one that named a command that is left out names none.
pub fn without(
    alloc: Global,
    commands: &[Command<u64, u64>],
    from: usize,
    count: usize,
) -> Result<Vec<Command<u64, u64>>, AllocError> {
    let to = from.saturating_add(count);
    let mut fewer = Vec::new(alloc);
    for index in 0..commands.len() {
        if index < from || index >= to {
            if let Some(command) = commands.get(index) {
                fewer.push(renamed(*command, from, to))?;
            }
        }
    }
    Ok(fewer)
}

// The new position of the command at this one.
fn moved(of: usize, from: usize, to: usize) -> usize {
    if of < from || of == usize::MAX {
        of
    } else if of < to {
        usize::MAX
    } else {
        of.saturating_sub(to.saturating_sub(from))
    }
}

// The command on what it was on before.
fn renamed(command: Command<u64, u64>, from: usize, to: usize) -> Command<u64, u64> {
    let mut renamed = command;
    if let Some(of) = renamed.of_mut() {
        *of = moved(*of, from, to);
    }
    renamed
}
