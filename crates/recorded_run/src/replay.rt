use crate::failure::Failure;
use iox2_commands::{Command, Reply};
use iox2_machine::ServiceConfig;
use iox2_pubsub::Domain;
use iox2_runs::run;
use std::alloc::Global;

/// How many replies of a run on a new domain are those that are given.
pub(crate) fn count_alike(
    alloc: Global,
    config: ServiceConfig,
    commands: Vec<Command<u64, u64>>,
    replies: &[Reply<u64, u64>],
) -> Result<usize, Failure> {
    let mut domain = Domain::<u64, u64>::new(alloc, config)?;
    let Ok(again) = run(alloc, &mut domain, commands) else {
        return Err(Failure::NoReplay);
    };
    let pairs = replies.iter().zip(again.iter());
    Ok(pairs.filter(|(before, after)| *before == *after).count())
}
