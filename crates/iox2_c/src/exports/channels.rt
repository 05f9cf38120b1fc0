//! The exports of questions on the channels of connections.
ghost use Rattle.std.specs.Prelude.{◌≡◌};
ghost use Rattle.iox2_c.specs.Boxed.{Lifted};
ghost use Rattle.iox2_c.specs.ChannelReturns.{ConnectionReturns, HintReturns, SomeStateReturns, StateReturns};

use crate::calls::channels;
use crate::domain_box::DomainBox;
use crate::numbers::{PublisherNumbers, SubscriberNumbers, Wide};
use crate::status::NO_DOMAIN;

/// Whether a channel is in a state at some connection of a subscriber.
#[unsafe(no_mangle)]
pub extern "C" fn iox2ps_subscriber_at_least_one_channel_has_state(
    domain: &mut DomainBox,
    subscriber: &SubscriberNumbers,
    channel: usize,
    state: u64,
    has_state: &mut u32,
) -> u32
    ensures { Lifted (has_state.new ≡ has_state.old)
        (λ old new. SomeStateReturns subscriber.now channel state old new has_state.old has_state.new result)
        domain.old.service domain.new.service result }
{
    match domain.service() {
        Some(service) => channels::some_has_state(service, subscriber, channel, state, has_state),
        None => NO_DOMAIN,
    }
}

/// Names a publisher's connection to the subscriber with this id.
#[unsafe(no_mangle)]
pub extern "C" fn iox2ps_publisher_get_connection_id_of(
    domain: &mut DomainBox,
    publisher: &PublisherNumbers,
    receiver_port_id: &Wide,
    connection: &mut usize,
) -> u32
    ensures { Lifted (connection.new ≡ connection.old)
        (λ old new. ConnectionReturns publisher.now receiver_port_id.now old new connection.old connection.new result)
        domain.old.service domain.new.service result }
{
    match domain.service() {
        Some(service) => channels::connection_of(service, publisher, receiver_port_id, connection),
        None => NO_DOMAIN,
    }
}

/// Whether a channel is in a state at one connection of a publisher.
#[unsafe(no_mangle)]
pub extern "C" fn iox2ps_publisher_has_channel_state(
    domain: &mut DomainBox,
    publisher: &PublisherNumbers,
    channel: usize,
    connection: usize,
    state: u64,
    has_state: &mut u32,
) -> u32
    ensures { Lifted (has_state.new ≡ has_state.old)
        (λ old new. StateReturns publisher.now channel connection state old new has_state.old has_state.new result)
        domain.old.service domain.new.service result }
{
    match domain.service() {
        Some(service) => channels::has_state(
            service, publisher, channel, connection, state, has_state,
        ),
        None => NO_DOMAIN,
    }
}

/// Whether a channel is in a state at one connection of a publisher, and a disconnect was hinted there.
#[unsafe(no_mangle)]
pub extern "C" fn iox2ps_publisher_has_disconnect_hint(
    domain: &mut DomainBox,
    publisher: &PublisherNumbers,
    channel: usize,
    connection: usize,
    state: u64,
    has_hint: &mut u32,
) -> u32
    ensures { Lifted (has_hint.new ≡ has_hint.old)
        (λ old new. HintReturns publisher.now channel connection state old new has_hint.old has_hint.new result)
        domain.old.service domain.new.service result }
{
    match domain.service() {
        Some(service) => channels::has_hint(
            service, publisher, channel, connection, state, has_hint,
        ),
        None => NO_DOMAIN,
    }
}
