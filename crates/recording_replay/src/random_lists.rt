//! Random lists are recorded, saved, loaded and replayed.
use crate::failure::Failure;
use crate::random_reads::misses_each;
use crate::record::recorded;
use crate::replay::first_difference;
use crate::shortest::shortest;
use iox2_machine::ServiceConfig;
use random_commands::draw_script;
use recordings::{Recording, load, save};

// How many commands a list has at most.
const MOST_COMMANDS: usize = 200;

/// Prints the recording of one list of a seed.
pub(crate) fn print_list(rt: &HostRuntime, number: u64, seed: u64) -> Result<(), Failure> {
    let script = draw_script(rt.alloc(), seed, number, MOST_COMMANDS)?;
    let recording = recorded(rt.alloc(), script.config, script.commands.as_slice())?;
    let text = save(rt.alloc(), &recording)?;
    print!(rt; "{text}")?;
    Ok(())
}

/// Draws that many lists of a seed, each fourth of which says 0 channels. Each is recorded, saved and loaded,
/// and is the same then; its replay has the recorded replies; if one recorded reply is made another one, the
/// replay differs there alone, and so does the shortest list; and if it promises reads, each is missed that is
/// left out.
pub(crate) fn try_random_lists(rt: &HostRuntime, count: u64, seed: u64) -> Result<(), Failure> {
    let mut commands = 0usize;
    for number in 0..count {
        let script = draw_script(rt.alloc(), seed, number, MOST_COMMANDS)?;
        let channels = match number % 4 {
            0 => 0,
            _ => script.config.number_of_channels,
        };
        let config = ServiceConfig {
            number_of_channels: channels,
            ..script.config
        };
        let recording = recorded(rt.alloc(), config, script.commands.as_slice())?;
        commands = commands.saturating_add(recording.commands.len());
        try_list(rt, &recording, number)?;
        if number % 1000 == 0 {
            eprintln!(rt; "{number} of {count} lists")?;
        }
    }
    println!(rt;
        "{count} lists of seed {seed}, {commands} commands: each is the same after save, load and replay"
    )?;
    Ok(())
}

fn try_list(rt: &HostRuntime, recording: &Recording, number: u64) -> Result<(), Failure> {
    let text = save(rt.alloc(), recording)?;
    let loaded = load(rt.alloc(), text.as_bytes())?;
    if loaded != *recording {
        return refuted(rt, number, "isn't the same after save and load");
    }
    let again = recorded(rt.alloc(), loaded.config, loaded.commands.as_slice())?;
    if first_difference(&loaded, &again).is_some() {
        return refuted(rt, number, "has other replies in its replay");
    }
    try_other_reply(rt, loaded, number)
}

// One recorded reply is made another one.
fn try_other_reply(rt: &HostRuntime, recording: Recording, number: u64) -> Result<(), Failure> {
    let mut changed = recording;
    let count = changed.replies.len();
    if count == 0 {
        return Ok(());
    }
    let position = (number % 200) as usize % count;
    if let Some(reply) = changed.replies.get_mut(position) {
        reply.push('?')?;
    }
    let again = recorded(rt.alloc(), changed.config, changed.commands.as_slice())?;
    if first_difference(&changed, &again) != Some(position) {
        return refuted(rt, number, "hides another reply");
    }
    if number % 20 == 0 {
        let fewest = shortest(rt.alloc(), &changed, position)?.recording;
        let again = recorded(rt.alloc(), fewest.config, fewest.commands.as_slice())?;
        let last = fewest.commands.len().saturating_sub(1);
        if fewest.replies.get(last) == again.replies.get(last) {
            return refuted(rt, number, "has a shortest list that shows nothing");
        }
        if !misses_each(rt.alloc(), &changed, reads_of(number))? {
            return refuted(rt, number, "hides a read that is left out");
        }
    }
    Ok(())
}

// Of how many elements of each message a list promises reads.
fn reads_of(number: u64) -> usize {
    match number % 3 {
        0 => 1,
        1 => 2,
        _ => 5,
    }
}

fn refuted(rt: &HostRuntime, number: u64, what: &str) -> Result<(), Failure> {
    println!(rt; "list {number} {what}")?;
    Err(Failure::Refuted)
}
