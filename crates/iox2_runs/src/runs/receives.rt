//! Commands of subscribers that ask for a sample, or whether one waits.
ghost use Rattle.iox2_machine.specs.machine.Environments.{fixed_handlers};
ghost use Rattle.iox2_runs.specs.Carries.{defaults_of};
ghost use Rattle.iox2_runs.specs.Turns.{IsLiveEntry, Turns};
ghost use Rattle.iox2_commands.specs.declared.command.Command.TheVariants.{Receive, HasSamples};

use super::made::{Made, Turn};
use iox2_commands::Reply;
use iox2_machine::{BackpressureFn, DegradationFn};
use iox2_pubsub::Domain;

/// Receives with the subscriber, and makes the sample.
pub(crate) fn receive<T: Default + Drop, U: Default + Drop, F: BackpressureFn, G: DegradationFn>(
    domain: &mut Domain<T, U, F, G>,
    held: Made,
) -> Turn<T, U>
    requires { IsLiveEntry domain.old held }
    ensures { Turns fixed_handlers (defaults_of T.is_default U.is_default) domain.old domain.new held Receive result }
{
    if domain.config().units_per_element != 1 {
        return (Reply::Skipped, held, Made::Nothing);
    }
    match held {
        Made::Subscriber(subscriber) => match subscriber.receive(domain) {
            Ok(Some(sample)) => (
                Reply::Sample(sample.origin()),
                Made::Subscriber(subscriber),
                Made::Sample(sample),
            ),
            Ok(None) => (Reply::NoSample, Made::Subscriber(subscriber), Made::Nothing),
            Err(error) => (
                Reply::ReceiveRefused(error),
                Made::Subscriber(subscriber),
                Made::Nothing,
            ),
        },
        other => (Reply::Skipped, other, Made::Nothing),
    }
}

/// Asks the subscriber whether any sample waits.
pub(crate) fn has_samples<
    T: Default + Drop,
    U: Default + Drop,
    F: BackpressureFn,
    G: DegradationFn,
>(domain: &mut Domain<T, U, F, G>, held: Made) -> Turn<T, U>
    requires { IsLiveEntry domain.old held }
    ensures { Turns fixed_handlers (defaults_of T.is_default U.is_default) domain.old domain.new held HasSamples result }
{
    match held {
        Made::Subscriber(subscriber) => match subscriber.has_samples(domain) {
            Ok(waits) => (
                Reply::Has(waits),
                Made::Subscriber(subscriber),
                Made::Nothing,
            ),
            Err(failure) => (
                Reply::UpdateRefused(failure),
                Made::Subscriber(subscriber),
                Made::Nothing,
            ),
        },
        other => (Reply::Skipped, other, Made::Nothing),
    }
}
