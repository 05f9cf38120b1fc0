//! Runs of the list that fills every slot.
use crate::failure::Failure;
use crate::sizes::Sizes;
use iox2_pubsub::{Domain, worst_case_slots};
use iox2_runs::{Command, Reply, compare_runs, is_granted, run, worst_case_commands};
use std::alloc::{AllocError, Global};
use std::io;

type End = (Domain<u64, ()>, Vec<Reply<u64, ()>>);

// The list, in which each message is 0.
fn filling(alloc: Global, sizes: &Sizes) -> Result<Vec<Command<u64, ()>>, Failure> {
    worst_case_commands(alloc, &sizes.config, sizes.loans, 0, None).ok_or(Failure::TooLong)
}

// How many commands of a run were skipped or refused, or received nothing.
fn refused(replies: &[Reply<u64, ()>]) -> usize {
    replies.iter().filter(|reply| !is_met(reply)).count()
}

// Whether a command of the list was neither skipped nor refused, and received what it was to.
fn is_met(reply: &Reply<u64, ()>) -> bool {
    is_granted(reply) && *reply != Reply::NoSample
}

/// Prints how many slots a publisher needs and how long the list is, and runs it on a new domain. Where
/// some command isn't granted, prints the first one and how many connections couldn't be allocated.
pub(crate) fn fill(rt: &HostRuntime, sizes: &Sizes) -> Result<(), Failure> {
    let slots = worst_case_slots(&sizes.config, sizes.loans).ok_or(Failure::TooManySlots)?;
    println!(rt; "{slots} slots")?;
    let commands = filling(rt.alloc(), sizes)?;
    println!(rt; "{} commands", commands.len())?;
    let (replies, refused_connections) = outcome_of(rt.alloc(), sizes, commands)?;
    let count = refused(&replies);
    println!(rt; "{count} skipped or refused")?;
    if count == 0 {
        return Ok(());
    }
    print_first_refused(rt, &replies)?;
    println!(rt; "refused connections: {refused_connections}")?;
    Err(Failure::Refused)
}

// Prints the first command that was skipped or refused, or received nothing, with its reply.
fn print_first_refused(rt: &HostRuntime, replies: &[Reply<u64, ()>]) -> io::Result<()> {
    for position in 0..replies.len() {
        let reply = &replies[position];
        if !is_met(reply) {
            return println!(rt; "command {}: {reply:?}", position.saturating_add(1));
        }
    }
    Ok(())
}

// The replies of a new domain, and how many of its connections couldn't be allocated.
fn outcome_of(
    alloc: Global,
    sizes: &Sizes,
    commands: Vec<Command<u64, ()>>,
) -> Result<(Vec<Reply<u64, ()>>, u64), Failure> {
    let Ok(mut domain) = Domain::<u64, ()>::new(alloc, sizes.config) else {
        return Err(Failure::OutOfMemory(AllocError));
    };
    let Ok(replies) = run(alloc, &mut domain, commands) else {
        return Err(Failure::OutOfMemory(AllocError));
    };
    Ok((replies, domain.refused_connections()))
}

/// Has two runs of the list compared. Prints how many commands were skipped or refused in each run
/// and how many of its connections couldn't be allocated, or that there is no comparison.
pub(crate) fn compare(rt: &HostRuntime, sizes: &Sizes) -> Result<(), Failure> {
    let commands = filling(rt.alloc(), sizes)?;
    let same = filling(rt.alloc(), sizes)?;
    match compare_runs(rt.alloc(), &sizes.config, commands, same) {
        Some((first, second)) => print_both(rt, &first, &second)?,
        None => println!(rt; "no comparison")?,
    }
    Ok(())
}

// Prints how many commands were skipped or refused in each of two runs, and how many connections.
fn print_both(rt: &HostRuntime, first: &End, second: &End) -> io::Result<()> {
    let (one, other) = (refused(&first.1), refused(&second.1));
    println!(rt; "skipped or refused: {one} and {other}")?;
    let one = first.0.refused_connections();
    let other = second.0.refused_connections();
    println!(rt; "refused connections: {one} and {other}")
}
