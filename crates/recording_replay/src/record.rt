//! A script is run and recorded.
use crate::failure::Failure;
use iox2_machine::ServiceConfig;
use iox2_pubsub::Domain;
use iox2_runs::{Command, run};
use recordings::{Recording, save};
use script_text::Script;
use std::alloc::{AllocError, Global};

/// Runs the script that the text is, and prints the recording of it.
pub(crate) fn record(rt: &HostRuntime, text: &[u8]) -> Result<(), Failure> {
    let script = Script::parse(rt.alloc(), text)?;
    let recording = recorded(rt.alloc(), script.config, script.commands.as_slice())?;
    let text = save(rt.alloc(), &recording)?;
    print!(rt; "{text}")?;
    Ok(())
}

/// The recording of these commands on a new domain.
pub(crate) fn recorded(
    alloc: Global,
    config: ServiceConfig,
    commands: &[Command<u64, u64>],
) -> Result<Recording, Failure> {
    let list = Vec::from_slice(alloc, commands)?;
    let Ok(mut domain) = Domain::<u64, u64>::new(alloc, config) else {
        return Err(Failure::OutOfMemory(AllocError));
    };
    let Ok(replies) = run(alloc, &mut domain, list) else {
        return Err(Failure::OutOfMemory(AllocError));
    };
    Ok(Recording::of(alloc, config, commands, replies.as_slice())?)
}
