//! The exports of calls that change the channels of connections.
ghost use Rattle.std.specs.Prelude.{◌≡◌};
ghost use Rattle.iox2_c.specs.Boxed.{Lifted};
ghost use Rattle.iox2_c.specs.ChannelReturns.{ChangeReturns, CloseReturns, SetStateReturns};
ghost use Rattle.iox2_c.specs.declared.calls.channel_changes.ReceivedChange.TheVariants.{Close, Hint};

use crate::calls::channel_changes::{self, ReceivedChange};
use crate::domain_box::DomainBox;
use crate::numbers::{PublisherNumbers, SubscriberNumbers};
use crate::status::NO_DOMAIN;

/// Brings a channel into a state at each connection of a subscriber where it is closed.
#[unsafe(no_mangle)]
pub extern "C" fn iox2ps_subscriber_set_channel_state(
    domain: &mut DomainBox,
    subscriber: &SubscriberNumbers,
    channel: usize,
    state: u64,
    were_closed: &mut u32,
) -> u32
    ensures { Lifted (were_closed.new ≡ were_closed.old)
        (λ old new. SetStateReturns subscriber.now channel state old new were_closed.old were_closed.new result)
        domain.old.service domain.new.service result }
{
    match domain.service() {
        Some(service) => channel_changes::set_state(
            service,
            subscriber,
            channel,
            state,
            were_closed,
        ),
        None => NO_DOMAIN,
    }
}

/// Closes a channel at each connection of a subscriber where it is in the expected state.
#[unsafe(no_mangle)]
pub extern "C" fn iox2ps_subscriber_close_channel(
    domain: &mut DomainBox,
    subscriber: &SubscriberNumbers,
    channel: usize,
    expected: u64,
) -> u32
    ensures { Lifted (Unit {0})
        (λ old new. ChangeReturns subscriber.now Close channel expected old new result)
        domain.old.service domain.new.service result }
{
    match domain.service() {
        Some(service) => channel_changes::change_received(
            service,
            subscriber,
            ReceivedChange::Close,
            channel,
            expected,
        ),
        None => NO_DOMAIN,
    }
}

/// Hints at each connection of a subscriber, where a channel is in the expected state, that it disconnects.
#[unsafe(no_mangle)]
pub extern "C" fn iox2ps_subscriber_set_disconnect_hint(
    domain: &mut DomainBox,
    subscriber: &SubscriberNumbers,
    channel: usize,
    expected: u64,
) -> u32
    ensures { Lifted (Unit {0})
        (λ old new. ChangeReturns subscriber.now Hint channel expected old new result)
        domain.old.service domain.new.service result }
{
    match domain.service() {
        Some(service) => channel_changes::change_received(
            service,
            subscriber,
            ReceivedChange::Hint,
            channel,
            expected,
        ),
        None => NO_DOMAIN,
    }
}

/// Closes a channel at one connection of a publisher, if it is in the expected state there.
#[unsafe(no_mangle)]
pub extern "C" fn iox2ps_publisher_close_channel(
    domain: &mut DomainBox,
    publisher: &PublisherNumbers,
    channel: usize,
    connection: usize,
    expected: u64,
) -> u32
    ensures { Lifted (Unit {0})
        (λ old new. CloseReturns publisher.now channel connection expected old new result)
        domain.old.service domain.new.service result }
{
    match domain.service() {
        Some(service) => channel_changes::close_sent(
            service, publisher, channel, connection, expected,
        ),
        None => NO_DOMAIN,
    }
}
