//! A recording is run again.
use crate::failure::Failure;
use crate::reads::{MissingRead, missing_read};
use crate::record::recorded;
use crate::shortest::shortest;
use recordings::{Recording, load, push_command};
use std::io;

/// Runs the recording that the text is, and compares each reply with the recorded one. Prints the first
/// that is another, and the fewest commands that show it; else the first read that the recording promises
/// and hasn't.
pub(crate) fn replay(rt: &HostRuntime, text: &[u8]) -> Result<(), Failure> {
    let before = load(rt.alloc(), text)?;
    let after = recorded(rt.alloc(), before.config, before.commands.as_slice())?;
    let Some(position) = first_difference(&before, &after) else {
        return check_reads(rt, &before);
    };
    print_difference(rt, &before, &after, position)?;
    let found = shortest(rt.alloc(), &before, position)?;
    let fewest = found.recording;
    println!(rt;
        "the shortest list that shows it has {} commands:",
        fewest.commands.len()
    )?;
    print_commands(rt, &fewest)?;
    let again = recorded(rt.alloc(), fewest.config, fewest.commands.as_slice())?;
    if let Some(last) = again.replies.last() {
        println!(rt; "now the last replies {last}")?;
    }
    if found.is_cut_short {
        println!(rt; "Not all shorter ones were tried, since that takes too long.")?;
    }
    Err(Failure::OtherReply)
}

/// The position of the first command whose reply is another one.
pub(crate) fn first_difference(before: &Recording, after: &Recording) -> Option<usize> {
    before
        .replies
        .iter()
        .zip(after.replies.iter())
        .position(|(old, new)| *old != *new)
}

// Each reply is the recorded one: whether each promised read is there, too.
fn check_reads(rt: &HostRuntime, recording: &Recording) -> Result<(), Failure> {
    let Some(missing) = missing_read(rt.alloc(), recording)? else {
        let count = recording.commands.len();
        println!(rt; "{count} commands, each with the recorded reply")?;
        return Ok(());
    };
    print_missing(rt, recording, &missing)?;
    Err(Failure::MissingRead)
}

fn print_missing(
    rt: &HostRuntime,
    recording: &Recording,
    missing: &MissingRead,
) -> Result<(), Failure> {
    print_call(rt, recording, missing.receive)?;
    let mut read = String::new(rt.alloc());
    push_command(&mut read, &missing.command())?;
    println!(rt;
        "  missing line {}: {read} = {}",
        line_of(missing.position()),
        missing.reply
    )?;
    let reads = recording.reads;
    println!(rt;
        "Line 2 promises `reads {reads}`: a read of each of the first {reads} elements behind each receive. Record the program again."
    )?;
    Ok(())
}

// The first command is in the fourth line of a recording.
fn line_of(position: usize) -> usize {
    position.saturating_add(4)
}

fn print_call(rt: &HostRuntime, recording: &Recording, position: usize) -> Result<(), Failure> {
    let mut command = String::new(rt.alloc());
    if let Some(called) = recording.commands.get(position) {
        push_command(&mut command, called)?;
    }
    println!(rt; "line {}: {command}", line_of(position))?;
    Ok(())
}

fn print_difference(
    rt: &HostRuntime,
    before: &Recording,
    after: &Recording,
    position: usize,
) -> Result<(), Failure> {
    print_call(rt, before, position)?;
    if let (Some(old), Some(new)) = (before.replies.get(position), after.replies.get(position)) {
        println!(rt; "  before: {old}")?;
        println!(rt; "  after:  {new}")?;
    }
    Ok(())
}

// The commands with the replies that were recorded.
fn print_commands(rt: &HostRuntime, recording: &Recording) -> Result<(), Failure> {
    for (command, reply) in recording.commands.iter().zip(recording.replies.iter()) {
        let mut text = String::new(rt.alloc());
        push_command(&mut text, command)?;
        print_line(rt, text.as_str(), reply.as_str())?;
    }
    Ok(())
}

fn print_line(rt: &HostRuntime, command: &str, reply: &str) -> io::Result<()> {
    println!(rt; "{command} = {reply}")
}
