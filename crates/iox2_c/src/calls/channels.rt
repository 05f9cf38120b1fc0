//! What ports ask about the channels of their connections.
ghost use Rattle.std.specs.Prelude.{◌≡◌, ◌<◌, ◌↔◌, IfErr, IfNone, IfOk, IfSome, IsTrue};
ghost use Rattle.iox2_machine.specs.machine.Limits.{channel_count};
ghost use Rattle.iox2_pubsub.specs.Handles.{as_subscriber, publisher_id, subscriber_id};
ghost use Rattle.iox2_pubsub.specs.Live.{IsLiveSubscriber, IsPlacedPublisher, IsPublisherKey, publisher_key, subscriber_key};
ghost use Rattle.iox2_c.specs.Channels.{RefusesPublisherChannel, RefusesSubscriberChannel};
ghost use Rattle.iox2_c.specs.ChannelReturns.{ConnectionReturns, HintReturns, SomeStateReturns, StateReturns};
ghost use Rattle.iox2_c.specs.Numbers.{named_publisher, named_subscriber, wide};

use crate::calls::questions::number_of;
use crate::calls::subscribers::live_subscriber;
use crate::numbers::{PublisherNumbers, SubscriberNumbers, Wide};
use crate::service::{BytesDomain, Service};
use crate::status::{NO_CONNECTION, NO_SUCH_CHANNEL, NOT_LIVE, OK};
use iox2_commands::{PublisherChannelCall, SubscriberChannelCall};
use iox2_pubsub::{Publisher, slice};

/// Whether connections of the domain have a channel with this number.
pub fn has_channel(domain: &BytesDomain, channel: usize) -> bool
    ensures { IsTrue result ↔ (channel < channel_count domain.now.config) }
{
    channel < domain.config().number_of_channels || channel == 0
}

/// A handle of the subscriber with these numbers, whose connections have this channel, or the code that says
/// why there is none.
pub fn subscriber_with_channel(
    domain: &BytesDomain,
    numbers: &SubscriberNumbers,
    channel: usize,
) -> Result<slice::Subscriber, u32>
    ensures live { IfOk result (λ it. IsLiveSubscriber domain.now (as_subscriber it)) }
    ensures named { IfOk result (λ it. subscriber_key (as_subscriber it) ≡ named_subscriber numbers.now) }
    ensures id { IfOk result (λ it. subscriber_id (as_subscriber it) ≡ wide (numbers.now).id) }
    ensures channel { IfOk result (λ it. channel < channel_count domain.now.config) }
    ensures refused { IfErr result (RefusesSubscriberChannel domain.now (named_subscriber numbers.now) channel) }
{
    let Some(subscriber) = live_subscriber(domain, numbers) else {
        return Err(NOT_LIVE);
    };
    if has_channel(domain, channel) {
        return Ok(subscriber);
    }
    subscriber.disown();
    Err(NO_SUCH_CHANNEL)
}

// A handle of the publisher with these numbers, also where a send of it waits.
fn live_publisher(domain: &BytesDomain, numbers: &PublisherNumbers) -> Option<Publisher>
    ensures live { IfSome result (λ it. IsPublisherKey domain.now (publisher_key it)) }
    ensures placed { IfSome result (λ it. IsPlacedPublisher domain.now it) }
    ensures named { IfSome result (λ it. publisher_key it ≡ named_publisher numbers.now) }
    ensures id { IfSome result (λ it. publisher_id it ≡ wide (numbers.now).id) }
    ensures none { IfNone result (IsPublisherKey domain.now (named_publisher numbers.now) → ⊥) }
{
    domain.publisher_of(&numbers.parts())
}

/// The same of a publisher, also where a send of it waits.
pub fn publisher_with_channel(
    domain: &BytesDomain,
    numbers: &PublisherNumbers,
    channel: usize,
) -> Result<Publisher, u32>
    ensures live { IfOk result (λ it. IsPublisherKey domain.now (publisher_key it)) }
    ensures placed { IfOk result (λ it. IsPlacedPublisher domain.now it) }
    ensures named { IfOk result (λ it. publisher_key it ≡ named_publisher numbers.now) }
    ensures id { IfOk result (λ it. publisher_id it ≡ wide (numbers.now).id) }
    ensures channel { IfOk result (λ it. channel < channel_count domain.now.config) }
    ensures refused { IfErr result (RefusesPublisherChannel domain.now (named_publisher numbers.now) channel) }
{
    let Some(publisher) = live_publisher(domain, numbers) else {
        return Err(NOT_LIVE);
    };
    if has_channel(domain, channel) {
        return Ok(publisher);
    }
    publisher.disown();
    Err(NO_SUCH_CHANNEL)
}

/// Whether a channel is in a state at some connection of a subscriber.
pub fn some_has_state(
    service: &mut Service,
    numbers: &SubscriberNumbers,
    channel: usize,
    state: u64,
    out: &mut u32,
) -> u32
    ensures { SomeStateReturns numbers.now channel state service.old service.new out.old out.new result }
{
    let call = SubscriberChannelCall::SomeHasState { state };
    let subscriber = match subscriber_with_channel(&service.domain, numbers, channel) {
        Ok(subscriber) => subscriber,
        Err(code) => {
            service
                .recording
                .asked_or_set(numbers, channel, call, code, 0);
            return code;
        }
    };
    let is_so = subscriber.at_least_one_channel_has_state(&service.domain, channel, state);
    subscriber.disown();
    *out = number_of(is_so);
    service
        .recording
        .asked_or_set(numbers, channel, call, OK, *out);
    OK
}

/// Where a publisher has its connection to the subscriber with this id.
pub fn connection_of(
    service: &mut Service,
    numbers: &PublisherNumbers,
    receiver: &Wide,
    out: &mut usize,
) -> u32
    ensures { ConnectionReturns numbers.now receiver.now service.old service.new out.old out.new result }
{
    if service.recording.is_on() {
        return connection_of_recorded(service, numbers, receiver, out);
    }
    connection_of_unrecorded(service, numbers, receiver, out)
}

// The same, and it is recorded.
#[cold]
#[inline(never)]
fn connection_of_recorded(
    service: &mut Service,
    numbers: &PublisherNumbers,
    receiver: &Wide,
    out: &mut usize,
) -> u32
    ensures { ConnectionReturns numbers.now receiver.now service.old service.new out.old out.new result }
{
    let code = connection_of_unrecorded(service, numbers, receiver, out);
    service
        .recording
        .connection(numbers, receiver.get(), code, *out);
    code
}

// The same, and it isn't.
#[inline(always)]
fn connection_of_unrecorded(
    service: &mut Service,
    numbers: &PublisherNumbers,
    receiver: &Wide,
    out: &mut usize,
) -> u32
    ensures { ConnectionReturns numbers.now receiver.now service.old service.new out.old out.new result }
{
    let Some(publisher) = live_publisher(&service.domain, numbers) else {
        return NOT_LIVE;
    };
    let place = publisher.get_connection_id_of(&service.domain, receiver.get());
    publisher.disown();
    let Some(place) = place else {
        return NO_CONNECTION;
    };
    *out = place;
    OK
}

/// Whether a channel is in a state at one connection of a publisher.
pub fn has_state(
    service: &mut Service,
    numbers: &PublisherNumbers,
    channel: usize,
    connection: usize,
    state: u64,
    out: &mut u32,
) -> u32
    ensures { StateReturns numbers.now channel connection state service.old service.new out.old out.new result }
{
    if service.recording.is_on() {
        return has_state_recorded(service, numbers, channel, connection, state, out);
    }
    has_state_unrecorded(service, numbers, channel, connection, state, out)
}

// The same, and it is recorded.
#[cold]
#[inline(never)]
fn has_state_recorded(
    service: &mut Service,
    numbers: &PublisherNumbers,
    channel: usize,
    connection: usize,
    state: u64,
    out: &mut u32,
) -> u32
    ensures { StateReturns numbers.now channel connection state service.old service.new out.old out.new result }
{
    let code = has_state_unrecorded(service, numbers, channel, connection, state, out);
    let call = PublisherChannelCall::HasState { state };
    service
        .recording
        .publisher_channel(numbers, channel, connection, call, code, *out);
    code
}

// The same, and it isn't.
#[inline(always)]
fn has_state_unrecorded(
    service: &mut Service,
    numbers: &PublisherNumbers,
    channel: usize,
    connection: usize,
    state: u64,
    out: &mut u32,
) -> u32
    ensures { StateReturns numbers.now channel connection state service.old service.new out.old out.new result }
{
    let publisher = match publisher_with_channel(&service.domain, numbers, channel) {
        Ok(publisher) => publisher,
        Err(code) => return code,
    };
    let is_so = publisher.has_channel_state(&service.domain, channel, connection, state);
    publisher.disown();
    *out = number_of(is_so);
    OK
}

/// Whether a channel is in a state at one connection of a publisher, and has a hint.
pub fn has_hint(
    service: &mut Service,
    numbers: &PublisherNumbers,
    channel: usize,
    connection: usize,
    state: u64,
    out: &mut u32,
) -> u32
    ensures { HintReturns numbers.now channel connection state service.old service.new out.old out.new result }
{
    if service.recording.is_on() {
        return has_hint_recorded(service, numbers, channel, connection, state, out);
    }
    has_hint_unrecorded(service, numbers, channel, connection, state, out)
}

// The same, and it is recorded.
#[cold]
#[inline(never)]
fn has_hint_recorded(
    service: &mut Service,
    numbers: &PublisherNumbers,
    channel: usize,
    connection: usize,
    state: u64,
    out: &mut u32,
) -> u32
    ensures { HintReturns numbers.now channel connection state service.old service.new out.old out.new result }
{
    let code = has_hint_unrecorded(service, numbers, channel, connection, state, out);
    let call = PublisherChannelCall::HasDisconnectHint { state };
    service
        .recording
        .publisher_channel(numbers, channel, connection, call, code, *out);
    code
}

// The same, and it isn't.
#[inline(always)]
fn has_hint_unrecorded(
    service: &mut Service,
    numbers: &PublisherNumbers,
    channel: usize,
    connection: usize,
    state: u64,
    out: &mut u32,
) -> u32
    ensures { HintReturns numbers.now channel connection state service.old service.new out.old out.new result }
{
    let publisher = match publisher_with_channel(&service.domain, numbers, channel) {
        Ok(publisher) => publisher,
        Err(code) => return code,
    };
    let is_so = publisher.has_disconnect_hint(&service.domain, channel, connection, state);
    publisher.disown();
    *out = number_of(is_so);
    OK
}
