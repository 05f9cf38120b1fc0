//! Commands that make ports.
ghost use Rattle.std.specs.Prelude.{◌≡◌};
ghost use Rattle.std.specs.declared.option.Option.TheVariants.{None};
ghost use Rattle.iox2_machine.specs.machine.Environments.{fixed_handlers};
ghost use Rattle.iox2_machine.specs.machine.Limits.{buffer_limit};
ghost use Rattle.iox2_runs.specs.Carries.{defaults_of};
ghost use Rattle.iox2_runs.specs.Services.{given_for};
ghost use Rattle.iox2_runs.specs.Turns.{Makes};
ghost use Rattle.iox2_commands.specs.declared.command.Command.TheVariants.{CreatePublisher, CreateSubscriber};

use super::made::Made;
use super::publishers::make_publisher;
use iox2_commands::{NewPublisher, Reply};
use iox2_machine::{BackpressureFn, DegradationAction, DegradationFn};
use iox2_pubsub::{DegradationHandler, Domain, PortFactorySubscriber};

/// Makes the publisher that is asked for, and returns it too.
pub(crate) fn create_publisher<
    T: Default + Drop,
    U: Default + Drop,
    F: BackpressureFn,
    G: DegradationFn,
>(domain: &mut Domain<T, U, F, G>, asked: NewPublisher) -> (Reply<T, U>, Made)
    ensures { Makes fixed_handlers (defaults_of T.is_default U.is_default) domain.old domain.new (CreatePublisher asked) result.0 result.1 }
{
    match make_publisher(domain, asked) {
        Ok(publisher) => (
            Reply::PublisherMade(publisher.id()),
            Made::Publisher(publisher),
        ),
        Err(error) => (Reply::PublisherRefused(error), Made::Nothing),
    }
}

/// Makes a subscriber with that buffer, or with the largest, and that answer to a refused connection,
/// and returns it too.
pub(crate) fn create_subscriber<
    T: Default + Drop,
    U: Default + Drop,
    F: BackpressureFn,
    G: DegradationFn,
>(
    domain: &mut Domain<T, U, F, G>,
    buffer: Option<usize>,
    degradation: DegradationAction,
) -> (Reply<T, U>, Made)
    ensures { Makes fixed_handlers (defaults_of T.is_default U.is_default) domain.old domain.new
        (CreateSubscriber buffer degradation) result.0 result.1 }
{
    match subscriber_factory(domain, buffer, degradation).create(domain) {
        Ok(subscriber) => (
            Reply::SubscriberMade(subscriber.id()),
            Made::Subscriber(subscriber),
        ),
        Err(error) => (Reply::SubscriberRefused(error), Made::Nothing),
    }
}

// A factory of subscribers with that buffer, or with the largest, and that answer to a refused
// connection.
fn subscriber_factory<T: Drop, U: Default + Drop, F: BackpressureFn, G: DegradationFn>(
    domain: &Domain<T, U, F, G>,
    buffer: Option<usize>,
    degradation: DegradationAction,
) -> PortFactorySubscriber<G>
    ensures { result.settings ≡ given_for (buffer_limit domain.now.config) buffer degradation }
{
    let factory = domain
        .subscriber_builder()
        .set_degradation_handler(DegradationHandler::Fixed(degradation));
    match buffer {
        Some(size) => factory.buffer_size(size),
        None => factory,
    }
}
