//! Commands on channels.
ghost use Rattle.std.specs.Prelude.{◌≡◌, ◌<◌, ◌↔◌, IsTrue};
ghost use Rattle.iox2_machine.specs.machine.Environments.{fixed_handlers};
ghost use Rattle.iox2_machine.specs.machine.Limits.{channel_count};
ghost use Rattle.iox2_machine.specs.machine.State.{State, Messages};
ghost use Rattle.iox2_domain.specs.Shows.{Shows};
ghost use Rattle.iox2_pubsub.specs.Live.{IsLiveSubscriber, IsPlacedPublisher, IsPublisherKey, Stays, publisher_key};
ghost use Rattle.iox2_runs.specs.Carries.{defaults_of};
ghost use Rattle.iox2_runs.specs.Turns.{IsLiveEntry, Turns};
ghost use Rattle.iox2_commands.specs.Step.{of_publisher_channel, of_subscriber_channel};
ghost use Rattle.iox2_commands.specs.declared.command.Command.TheVariants.{SendToConnection, ConnectionPlace, PublisherChannel, SubscriberChannel};

use super::made::{Made, Turn};
use super::send_replies::send_reply;
use iox2_commands::{PublisherChannelCall, Reply, SubscriberChannelCall};
use iox2_machine::{BackpressureFn, DegradationFn};
use iox2_pubsub::{Domain, Publisher, Subscriber};

// Whether connections have that channel.
fn has_channel<T: Drop, U: Default + Drop, F: BackpressureFn, G: DegradationFn>(
    domain: &Domain<T, U, F, G>,
    channel: usize,
) -> bool
    ensures { IsTrue result ↔ (channel < channel_count domain.now.config) }
{
    channel < domain.config().number_of_channels.max(1)
}

/// Sends the loan to one connection, and makes the blocked send, if it is blocked.
pub(crate) fn send_to_connection<
    T: Default + Drop,
    U: Default + Drop,
    F: BackpressureFn,
    G: DegradationFn,
>(domain: &mut Domain<T, U, F, G>, held: Made, channel: usize, connection: usize) -> Turn<T, U>
    requires { IsLiveEntry domain.old held }
    ensures { Turns fixed_handlers (defaults_of T.is_default U.is_default) domain.old domain.new held (λ of. SendToConnection of channel connection) result }
{
    if !has_channel(domain, channel) {
        return (Reply::Skipped, held, Made::Nothing);
    }
    match held {
        Made::Written(loan) => {
            if loan.is_blocked(domain) {
                return (Reply::Skipped, Made::Written(loan), Made::Nothing);
            }
            let outcome = loan.deliver_offset_to_connection(domain, channel, connection);
            let (reply, made) = send_reply(outcome);
            (reply, Made::Nothing, made)
        }
        other => (Reply::Skipped, other, Made::Nothing),
    }
}

/// Asks for the place of the publisher's connection to a subscriber.
pub(crate) fn connection_place<
    T: Default + Drop,
    U: Default + Drop,
    F: BackpressureFn,
    G: DegradationFn,
>(domain: &mut Domain<T, U, F, G>, held: Made, receiver: u128) -> Turn<T, U>
    requires { IsLiveEntry domain.old held }
    ensures { Turns fixed_handlers (defaults_of T.is_default U.is_default) domain.old domain.new held (λ of. ConnectionPlace of receiver) result }
{
    match held {
        Made::Publisher(publisher) => {
            let place = publisher.get_connection_id_of(domain, receiver);
            (
                Reply::Place(place),
                Made::Publisher(publisher),
                Made::Nothing,
            )
        }
        other => (Reply::Skipped, other, Made::Nothing),
    }
}

/// Asks about a channel of one of the publisher's connections, or closes it.
pub(crate) fn publisher_channel<
    T: Default + Drop,
    U: Default + Drop,
    F: BackpressureFn,
    G: DegradationFn,
>(
    domain: &mut Domain<T, U, F, G>,
    held: Made,
    channel: usize,
    connection: usize,
    call: PublisherChannelCall,
) -> Turn<T, U>
    requires { IsLiveEntry domain.old held }
    ensures { Turns fixed_handlers (defaults_of T.is_default U.is_default) domain.old domain.new held
        (λ of. PublisherChannel of channel connection call) result }
{
    if !has_channel(domain, channel) {
        return (Reply::Skipped, held, Made::Nothing);
    }
    match held {
        Made::Publisher(publisher) => {
            let reply = publisher_reply(domain, &publisher, channel, connection, call);
            (reply, Made::Publisher(publisher), Made::Nothing)
        }
        other => (Reply::Skipped, other, Made::Nothing),
    }
}

// What a publisher is told of a channel, or does to it.
fn publisher_reply<T: Drop, U: Default + Drop, F: BackpressureFn, G: DegradationFn>(
    domain: &mut Domain<T, U, F, G>,
    publisher: &Publisher,
    channel: usize,
    connection: usize,
    call: PublisherChannelCall,
) -> Reply<T, U>
    requires there { IsPublisherKey domain.old (publisher_key publisher.now) }
    requires placed { IsPlacedPublisher domain.old publisher.now }
    requires channel { channel < channel_count domain.old.config }
    ensures replies { (m : Messages T U) (s : State T U) → Shows domain.old m s
        → Shows domain.new m (of_publisher_channel s publisher.now.id channel connection call).state
        × ((of_publisher_channel s publisher.now.id channel connection call).reply ≡ result) }
    ensures stays { Stays domain.old domain.new }
{
    match call {
        PublisherChannelCall::HasState { state } => {
            Reply::Has(publisher.has_channel_state(domain, channel, connection, state))
        }
        PublisherChannelCall::HasDisconnectHint { state } => {
            Reply::Has(publisher.has_disconnect_hint(domain, channel, connection, state))
        }
        PublisherChannelCall::Close { expected } => {
            publisher.close_channel(domain, channel, connection, expected);
            Reply::Done
        }
    }
}

/// Asks about a channel of all of the subscriber's connections, or changes it.
pub(crate) fn subscriber_channel<
    T: Default + Drop,
    U: Default + Drop,
    F: BackpressureFn,
    G: DegradationFn,
>(
    domain: &mut Domain<T, U, F, G>,
    held: Made,
    channel: usize,
    call: SubscriberChannelCall,
) -> Turn<T, U>
    requires { IsLiveEntry domain.old held }
    ensures { Turns fixed_handlers (defaults_of T.is_default U.is_default) domain.old domain.new held (λ of. SubscriberChannel of channel call) result }
{
    if !has_channel(domain, channel) {
        return (Reply::Skipped, held, Made::Nothing);
    }
    match held {
        Made::Subscriber(subscriber) => {
            let reply = subscriber_reply(domain, &subscriber, channel, call);
            (reply, Made::Subscriber(subscriber), Made::Nothing)
        }
        other => (Reply::Skipped, other, Made::Nothing),
    }
}

// What a subscriber is told of a channel, or does to it.
fn subscriber_reply<T: Drop, U: Default + Drop, F: BackpressureFn, G: DegradationFn>(
    domain: &mut Domain<T, U, F, G>,
    subscriber: &Subscriber,
    channel: usize,
    call: SubscriberChannelCall,
) -> Reply<T, U>
    requires live { IsLiveSubscriber domain.old subscriber.now }
    requires channel { channel < channel_count domain.old.config }
    ensures replies { (m : Messages T U) (s : State T U) → Shows domain.old m s
        → Shows domain.new m (of_subscriber_channel s subscriber.now.id channel call).state
        × ((of_subscriber_channel s subscriber.now.id channel call).reply ≡ result) }
    ensures stays { Stays domain.old domain.new }
{
    match call {
        SubscriberChannelCall::SetState { state } => {
            Reply::WereClosed(subscriber.set_channel_state(domain, channel, state))
        }
        SubscriberChannelCall::SomeHasState { state } => {
            Reply::Has(subscriber.at_least_one_channel_has_state(domain, channel, state))
        }
        SubscriberChannelCall::Close { expected } => {
            subscriber.close_channel(domain, channel, expected);
            Reply::Done
        }
        SubscriberChannelCall::SetDisconnectHint { expected } => {
            subscriber.set_disconnect_hint(domain, channel, expected);
            Reply::Done
        }
    }
}
