//! The shortest failing script that leaving out lines and smaller limits give.
use crate::failure::Failure;
use crate::limits::{LIMITS, Limit};
use crate::search::Search;
use iox2_runs::Command;
use random_commands::{COUNTS, MOST_PHASES, Script};
use std::alloc::Global;

// How many commands each of the two attempts carries out at most.
const MOST_COMMANDS_TRIED: usize = 1_000_000;

/// The shortest script that was found to fail, and whether shorter ones are left that weren't tried.
#[derive(Drop)]
pub(crate) struct Found {
    pub(crate) script: Script,
    pub(crate) is_cut_short: bool,
}

/// The script with as many commands left out as can be, so that it still fails. Limits are made
/// smaller first in one attempt, and lines are left out first in another.
pub(crate) fn shortest(alloc: Global, script: &Script) -> Result<Found, Failure> {
    let mut search = Search::new(alloc, MOST_COMMANDS_TRIED);
    let fewer = with_fewer_lines(&mut search, copy(alloc, script)?)?;
    let lines_first = shortened(&mut search, fewer)?;
    let mut other = Search::new(alloc, MOST_COMMANDS_TRIED);
    let limits_first = shortened(&mut other, copy(alloc, script)?)?;
    let script = if limits_first.commands.len() < lines_first.commands.len() {
        limits_first
    } else {
        lines_first
    };
    Ok(Found {
        script,
        is_cut_short: search.is_over() || other.is_over(),
    })
}

// The same script.
fn copy(alloc: Global, script: &Script) -> Result<Script, Failure> {
    Ok(Script {
        config: script.config,
        commands: Vec::from_slice(alloc, script.commands.as_slice())?,
    })
}

// Makes limits smaller, sends copies and leaves out lines, in turn, as long as that goes.
fn shortened(search: &mut Search, script: Script) -> Result<Script, Failure> {
    let mut found = script;
    for _ in 0..found.commands.len() {
        let before = found.commands.len();
        found = with_smaller_limits(search, found)?;
        found = with_fewer_lines(search, found)?;
        found = with_copies(search, found)?;
        found = with_fewer_of_both(search, found)?;
        if found.commands.len() == before {
            break;
        }
    }
    Ok(found)
}

// The limits of the settings, and of the ports.
fn limits_of(alloc: Global, script: &Script) -> Result<Vec<Limit>, Failure> {
    let mut limits = Vec::from_array(alloc, LIMITS)?;
    for position in 0..script.commands.len() {
        limits.push(Limit::Port(position))?;
        limits.push(Limit::Slots(position))?;
    }
    Ok(limits)
}

// Makes each limit as small as can be.
fn with_smaller_limits(search: &mut Search, script: Script) -> Result<Script, Failure> {
    let mut found = script;
    for limit in &limits_of(search.alloc(), &found)? {
        for value in 0..limit.of(&found).min(8) {
            let smaller = limit.set(search.alloc(), &found, value)?;
            if let Some(smaller) = search.failing(smaller)? {
                found = smaller;
                break;
            }
        }
    }
    Ok(found)
}

// Leaves out lines, many at once and then fewer, as long as that goes.
fn with_fewer_lines(search: &mut Search, script: Script) -> Result<Script, Failure> {
    let mut found = script;
    for _ in 0..found.commands.len() {
        let before = found.commands.len();
        for count in COUNTS {
            for phase in 0..count.min(MOST_PHASES) {
                found = without_so_many(search, found, count, phase)?;
            }
        }
        if found.commands.len() == before {
            break;
        }
    }
    Ok(found)
}

// Leaves out that many lines at once, from before the last ones on, if the rest still fails.
fn without_so_many(
    search: &mut Search,
    script: Script,
    count: usize,
    phase: usize,
) -> Result<Script, Failure> {
    let mut found = script;
    let mut end = found.commands.len().saturating_sub(phase);
    for _ in 0..end {
        if end == 0 {
            break;
        }
        let from = end.saturating_sub(count);
        let fewer = search.without_lines(&found, from, end.saturating_sub(from))?;
        if let Some(fewer) = search.failing(fewer)? {
            found = fewer;
        }
        end = from.min(found.commands.len());
    }
    Ok(found)
}

// Sends copies in place of loans, where that fails too.
fn with_copies(search: &mut Search, script: Script) -> Result<Script, Failure> {
    let mut found = script;
    for later in 0..found.commands.len() {
        let at = found.commands.len().saturating_sub(later).saturating_sub(1);
        if let Some(fewer) = with_copy_at(search, &found, at)? {
            found = fewer;
        }
    }
    Ok(found)
}

// The script whose command at this position sends a copy in place of a loan, which is left out, if
// that fails.
fn with_copy_at(
    search: &mut Search,
    script: &Script,
    at: usize,
) -> Result<Option<Script>, Failure> {
    let Some(Command::Send { of: loan }) = script.commands.get(at).copied() else {
        return Ok(None);
    };
    let Some(Command::LoanUninit { of } | Command::Loan { of }) = script.commands.get(loan).copied()
    else {
        return Ok(None);
    };
    let mut copied = copy(search.alloc(), script)?;
    if let Some(command) = copied.commands.get_mut(at) {
        let value = loan as u64;
        *command = Command::SendCopy { of, value };
    }
    let fewer = search.without_lines(&copied, loan, 1)?;
    search.failing(fewer)
}

// Makes limits smaller, each time by one and while some lines are left out, as those of a message for
// which a smaller buffer has no room.
fn with_fewer_of_both(search: &mut Search, script: Script) -> Result<Script, Failure> {
    let mut found = script;
    for limit in &limits_of(search.alloc(), &found)? {
        for _ in 0..found.commands.len() {
            let size = limit.of(&found);
            if size == 0 {
                break;
            }
            let smaller = limit.set(search.alloc(), &found, size.saturating_sub(1))?;
            let Some(fewer) = without_some(search, &smaller)? else {
                break;
            };
            found = fewer;
        }
    }
    Ok(found)
}

// The script that fails without up to four lines which follow one another, if there is one.
fn without_some(search: &mut Search, script: &Script) -> Result<Option<Script>, Failure> {
    let length = script.commands.len();
    for count in 1..5 {
        for from in 0..length {
            if search.is_over() {
                return Ok(None);
            }
            let fewer = search.without_lines(script, from, count)?;
            if fewer.commands.len() < length {
                if let Some(fewer) = search.failing(fewer)? {
                    return Ok(Some(fewer));
                }
            }
        }
    }
    Ok(None)
}
