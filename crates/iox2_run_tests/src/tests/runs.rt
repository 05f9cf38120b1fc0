ghost use Rattle.std.specs.Prelude.{IfOk, ℕ};
ghost use Rattle.iox2_commands.specs.Runs.{only_defaults};
ghost use Rattle.iox2_domain.specs.Shows.{Shows};
ghost use Rattle.iox2_runs.specs.DomainRuns.{RunsOnDomain};
ghost use Rattle.iox2_machine.specs.machine.State.{State, Messages};

use iox2_fixtures::settings;
use iox2_machine::{
    BackpressureStrategy, DegradationAction, PublisherCreateError, UniquePublisherId,
};
use iox2_pubsub::Domain;
use iox2_runs::{Command, NewPublisher, Reply, run};
use std::alloc::Global;

pub(crate) const CREATE_SUBSCRIBER: Command<u64, u8> = Command::CreateSubscriber {
    buffer: Some(1),
    degradation: DegradationAction::Warn,
};

/// The command that makes a publisher with that many loans.
pub(crate) fn create_publisher(loans: usize) -> Command<u64, u8> {
    Command::CreatePublisher(NewPublisher::new(loans, BackpressureStrategy::DiscardData))
}

/// Replies of a run whose types have one default value each, which the run uses throughout.
pub(crate) fn replies_to_numbers(
    alloc: Global,
    domain: &mut Domain<u64, u8>,
    commands: Vec<Command<u64, u8>>,
) -> Result<Vec<Reply<u64, u8>>, Vec<Command<u64, u8>>>
    ensures { IfOk result (λ replies. (m : Messages ℕ ℕ) (s : State ℕ ℕ) → Shows domain.old m s
        → RunsOnDomain (only_defaults 0 0) domain.new m s commands.items replies.items) }
{
    let replies = run(alloc, domain, commands)?;
    Ok(replies)
}

/// The same with a header that has only one value.
fn replies_without_headers(
    alloc: Global,
    domain: &mut Domain<u64, ()>,
    commands: Vec<Command<u64, ()>>,
) -> Result<Vec<Reply<u64, ()>>, Vec<Command<u64, ()>>>
    ensures { IfOk result (λ replies. (m : Messages ℕ (Unit {0})) (s : State ℕ (Unit {0})) → Shows domain.old m s
        → RunsOnDomain (only_defaults 0 tt) domain.new m s commands.items replies.items) }
{
    let replies = run(alloc, domain, commands)?;
    Ok(replies)
}

#[test]
fn a_command_that_names_nothing_is_skipped(rt: HostRuntime) {
    let mut domain: Domain<u64, ()> = Domain::new(rt.alloc(), settings()).expect(&rt, "a domain");
    let commands = [Command::Nothing, Command::Send { of: 0 }];
    let commands = Vec::from_array(rt.alloc(), commands).expect(&rt, "commands");
    let outcome = replies_without_headers(rt.alloc(), &mut domain, commands);
    drop(domain);
    let replies = outcome.ok().expect(&rt, "replies");
    let expected: [Reply<u64, ()>; 2] = [Reply::Done, Reply::Skipped];
    assert!(rt; replies.as_slice() == expected.as_slice());
}

// What the first run made still counts.
#[test]
fn a_second_run_names_nothing_that_the_first_made(rt: HostRuntime) {
    let mut domain: Domain<u64, u8> = Domain::new(rt.alloc(), settings()).expect(&rt, "a domain");
    let first = Vec::from_array(rt.alloc(), [create_publisher(1)]).expect(&rt, "commands");
    let made = replies_to_numbers(rt.alloc(), &mut domain, first);
    let commands = [create_publisher(1), Command::Update { of: 0 }];
    let second = Vec::from_array(rt.alloc(), commands).expect(&rt, "commands");
    let outcome = replies_to_numbers(rt.alloc(), &mut domain, second);
    drop(domain);
    let made = made.ok().expect(&rt, "replies");
    let expected: [Reply<u64, u8>; 1] = [Reply::PublisherMade(UniquePublisherId::new(1))];
    assert!(rt; made.as_slice() == expected.as_slice());
    let replies = outcome.ok().expect(&rt, "replies");
    let refusal = PublisherCreateError::ExceedsMaxSupportedPublishers;
    let expected: [Reply<u64, u8>; 2] = [Reply::PublisherRefused(refusal), Reply::Skipped];
    assert!(rt; replies.as_slice() == expected.as_slice());
}
