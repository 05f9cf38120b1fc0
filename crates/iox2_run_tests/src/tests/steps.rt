//! Runs as lists of steps: each command beside the reply that it has to get.
use crate::tests::runs::replies_to_numbers;
use iox2_machine::{ServiceConfig, UniquePublisherId, UniqueSubscriberId};
use iox2_pubsub::{Domain, Warning};
use iox2_runs::{Command, Reply};
use std::alloc::{AllocError, Global};
use std::process::Abort;

/// A command, and the reply that it has to get.
pub(crate) type Step = (Command<u64, u8>, Reply<u64, u8>);

/// What a domain tells after a run.
#[derive(Drop)]
pub(crate) struct Told {
    /// What it warns of, oldest first.
    pub(crate) warnings: Vec<Warning>,
    /// How many connections and books it keeps.
    pub(crate) kept: [usize; 2],
}

/// The commands of a run on a new domain get their replies. Returns what the domain tells then.
pub(crate) fn check(rt: &impl Abort, alloc: Global, config: ServiceConfig, steps: &[Step]) -> Told {
    let mut domain: Domain<u64, u8> = Domain::new(alloc, config).expect(rt, "a domain");
    let commands = commands_of(alloc, steps).expect(rt, "commands");
    let outcome = replies_to_numbers(alloc, &mut domain, commands);
    let warnings = domain.warnings().to_vec(alloc);
    let kept = [domain.connection_count(), domain.book_count()];
    drop(domain);
    let replies = outcome.ok().expect(rt, "replies");
    assert_eq!(rt; replies.len(), steps.len());
    for (reply, (_, expected)) in replies.iter().zip(steps) {
        assert!(rt; reply == expected, "{replies:?}");
    }
    let warnings = warnings.expect(rt, "warnings");
    Told { warnings, kept }
}

// The commands of the steps.
fn commands_of(alloc: Global, steps: &[Step]) -> Result<Vec<Command<u64, u8>>, AllocError> {
    let mut commands = Vec::new(alloc);
    for step in steps {
        commands.push(step.0)?;
    }
    Ok(commands)
}

/// The reply that a subscriber was made.
pub(crate) fn subscriber_made(id: u128) -> Reply<u64, u8> {
    Reply::SubscriberMade(UniqueSubscriberId::new(id))
}

/// The reply that a publisher was made.
pub(crate) fn publisher_made(id: u128) -> Reply<u64, u8> {
    Reply::PublisherMade(UniquePublisherId::new(id))
}

/// The reply that a sample of this publisher was received.
pub(crate) fn sample_of(publisher: u128) -> Reply<u64, u8> {
    Reply::Sample(UniquePublisherId::new(publisher))
}
