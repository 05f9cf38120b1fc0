//! The fewest commands that show a difference from what was recorded.
use crate::failure::Failure;
use crate::record::recorded;
use random_commands::{Budget, COUNTS, MOST_PHASES, without};
use recordings::Recording;
use std::alloc::Global;

// How many commands are carried out at most in search of a shorter list; of long lists, for each of their
// commands.
const MOST_COMMANDS_TRIED: usize = 1_000_000;

const MOST_FOR_EACH: usize = 200;

/// The shortest list that was found, and whether shorter ones are left that weren't tried.
#[derive(Drop)]
pub(crate) struct Found {
    pub(crate) recording: Recording,
    pub(crate) is_cut_short: bool,
}

// What the last command has to reply, and how many commands may still be carried out.
#[derive(Drop)]
struct Search {
    after: String,
    budget: Budget,
}

/// The recording up to the command at the position, with as many commands before it left out as can be:
/// so that all others reply as they did, except for the ids of ports, and the last as the whole replay
/// does. The search ends after a number of commands.
pub(crate) fn shortest(
    alloc: Global,
    recording: &Recording,
    position: usize,
) -> Result<Found, Failure> {
    let mut found = first_commands(alloc, recording, position.saturating_add(1))?;
    let again = recorded(alloc, found.config, found.commands.as_slice())?;
    let mut is_cut_short = false;
    if let Some(last) = again.replies.last() {
        let mut search = Search {
            after: copy(alloc, last.as_str())?,
            budget: Budget::new(MOST_COMMANDS_TRIED.max(MOST_FOR_EACH.saturating_mul(
                found.commands.len(),
            ))),
        };
        found = with_fewer(alloc, &mut search, found)?;
        is_cut_short = search.budget.is_over();
    }
    Ok(Found {
        recording: found,
        is_cut_short,
    })
}

// Leaves out commands, many at once and then fewer, as long as that goes.
fn with_fewer(
    alloc: Global,
    search: &mut Search,
    recording: Recording,
) -> Result<Recording, Failure> {
    let mut found = recording;
    for _ in 0..found.commands.len() {
        let before = found.commands.len();
        for count in COUNTS {
            for phase in 0..count.min(MOST_PHASES) {
                found = without_so_many(alloc, search, found, count, phase)?;
            }
        }
        if found.commands.len() == before {
            break;
        }
    }
    Ok(found)
}

fn first_commands(
    alloc: Global,
    recording: &Recording,
    count: usize,
) -> Result<Recording, Failure> {
    let mut found = Recording::new(alloc, recording.config);
    for (command, reply) in recording
        .commands
        .iter()
        .zip(recording.replies.iter())
        .take(count)
    {
        found.commands.push(*command)?;
        found.replies.push(copy(alloc, reply.as_str())?)?;
    }
    Ok(found)
}

fn copy(alloc: Global, text: &str) -> Result<String, Failure> {
    let mut copied = String::new(alloc);
    copied.push_str(text)?;
    Ok(copied)
}

// Leaves out that many commands at once, from before the last ones on, if the rest still shows the
// difference. The last one stays.
fn without_so_many(
    alloc: Global,
    search: &mut Search,
    recording: Recording,
    count: usize,
    phase: usize,
) -> Result<Recording, Failure> {
    let mut found = recording;
    let mut end = found.commands.len().saturating_sub(phase).saturating_sub(1);
    for _ in 0..end {
        if end == 0 || search.budget.is_over() {
            break;
        }
        let from = end.saturating_sub(count);
        let fewer = without_some(alloc, &found, from, end.saturating_sub(from))?;
        if shows(alloc, search, &fewer)? {
            found = fewer;
        }
        end = from;
    }
    Ok(found)
}

// The recording without some commands and their replies.
fn without_some(
    alloc: Global,
    recording: &Recording,
    from: usize,
    count: usize,
) -> Result<Recording, Failure> {
    let to = from.saturating_add(count);
    let mut fewer = Recording::new(alloc, recording.config);
    fewer.commands = without(alloc, recording.commands.as_slice(), from, count)?;
    for (position, reply) in recording.replies.iter().enumerate() {
        if position < from || position >= to {
            fewer.replies.push(copy(alloc, reply.as_str())?)?;
        }
    }
    Ok(fewer)
}

// Whether all commands but the last reply as they did, and the last doesn't, but as is said. None does
// when the search is over.
fn shows(alloc: Global, search: &mut Search, recording: &Recording) -> Result<bool, Failure> {
    if !search.budget.takes(recording.commands.len()) {
        return Ok(false);
    }
    let again = recorded(alloc, recording.config, recording.commands.as_slice())?;
    let first = recording
        .replies
        .iter()
        .zip(again.replies.iter())
        .position(|(old, new)| !is_alike(old.as_str(), new.as_str()));
    Ok(match (first, again.replies.last()) {
        (Some(position), Some(last)) => {
            let is_last = position.saturating_add(1) == recording.commands.len();
            is_last && is_alike(last.as_str(), search.after.as_str())
        }
        _ => false,
    })
}

// Whether two replies are the same except for the ids of ports.
fn is_alike(old: &str, new: &str) -> bool {
    for kind in ["publisher ", "subscriber ", "sample "] {
        if old.starts_with(kind) && new.starts_with(kind) {
            return true;
        }
    }
    old == new
}
