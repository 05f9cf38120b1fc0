//! What ports change at the channels of their connections.
ghost use Rattle.iox2_c.specs.ChannelReturns.{ChangeReturns, CloseReturns, SetStateReturns};

use crate::calls::channels::{publisher_with_channel, subscriber_with_channel};
use crate::calls::questions::number_of;
use crate::numbers::{PublisherNumbers, SubscriberNumbers};
use crate::service::Service;
use crate::status::OK;
use iox2_commands::{PublisherChannelCall, SubscriberChannelCall};

/// Brings a channel into a state at each connection of a subscriber where it is closed, and says whether it
/// was at all of them.
pub fn set_state(
    service: &mut Service,
    numbers: &SubscriberNumbers,
    channel: usize,
    state: u64,
    were_closed: &mut u32,
) -> u32
    ensures { SetStateReturns numbers.now channel state service.old service.new were_closed.old were_closed.new result }
{
    let call = SubscriberChannelCall::SetState { state };
    let subscriber = match subscriber_with_channel(&service.domain, numbers, channel) {
        Ok(subscriber) => subscriber,
        Err(code) => {
            service
                .recording
                .asked_or_set(numbers, channel, call, code, 0);
            return code;
        }
    };
    let answer = subscriber.set_channel_state(&mut service.domain, channel, state);
    subscriber.disown();
    *were_closed = number_of(answer);
    service
        .recording
        .asked_or_set(numbers, channel, call, OK, *were_closed);
    OK
}

/// What a subscriber does to a channel at each of its connections.
#[derive(Clone, Copy)]
pub enum ReceivedChange {
    /// It closes the channel.
    Close,
    /// It hints that it disconnects.
    Hint,
}

impl ReceivedChange {
    // The call of a run where the channel is in the expected state.
    fn call(self, expected: u64) -> SubscriberChannelCall {
        match self {
            ReceivedChange::Close => SubscriberChannelCall::Close { expected },
            ReceivedChange::Hint => SubscriberChannelCall::SetDisconnectHint { expected },
        }
    }
}

/// Changes a channel so at each connection of a subscriber where it is in a state.
pub fn change_received(
    service: &mut Service,
    numbers: &SubscriberNumbers,
    change: ReceivedChange,
    channel: usize,
    expected: u64,
) -> u32
    ensures { ChangeReturns numbers.now change channel expected service.old service.new result }
{
    if service.recording.is_on() {
        return change_received_recorded(service, numbers, change, channel, expected);
    }
    change_received_unrecorded(service, numbers, change, channel, expected)
}

// The same, and it is recorded.
#[cold]
#[inline(never)]
fn change_received_recorded(
    service: &mut Service,
    numbers: &SubscriberNumbers,
    change: ReceivedChange,
    channel: usize,
    expected: u64,
) -> u32
    ensures { ChangeReturns numbers.now change channel expected service.old service.new result }
{
    let code = change_received_unrecorded(service, numbers, change, channel, expected);
    let call = change.call(expected);
    service
        .recording
        .subscriber_channel(numbers, channel, call, code, 0);
    code
}

// The same, and it isn't. It is inlined in neither: what it calls is then called in one place, and inlined.
#[inline(never)]
fn change_received_unrecorded(
    service: &mut Service,
    numbers: &SubscriberNumbers,
    change: ReceivedChange,
    channel: usize,
    expected: u64,
) -> u32
    ensures { ChangeReturns numbers.now change channel expected service.old service.new result }
{
    let subscriber = match subscriber_with_channel(&service.domain, numbers, channel) {
        Ok(subscriber) => subscriber,
        Err(code) => return code,
    };
    let domain = &mut service.domain;
    match change {
        ReceivedChange::Close => subscriber.close_channel(domain, channel, expected),
        ReceivedChange::Hint => subscriber.set_disconnect_hint(domain, channel, expected),
    }
    subscriber.disown();
    OK
}

/// Closes a channel at one connection of a publisher, if it is in a state there.
pub fn close_sent(
    service: &mut Service,
    numbers: &PublisherNumbers,
    channel: usize,
    connection: usize,
    expected: u64,
) -> u32
    ensures { CloseReturns numbers.now channel connection expected service.old service.new result }
{
    if service.recording.is_on() {
        return close_sent_recorded(service, numbers, channel, connection, expected);
    }
    close_sent_unrecorded(service, numbers, channel, connection, expected)
}

// The same, and it is recorded.
#[cold]
#[inline(never)]
fn close_sent_recorded(
    service: &mut Service,
    numbers: &PublisherNumbers,
    channel: usize,
    connection: usize,
    expected: u64,
) -> u32
    ensures { CloseReturns numbers.now channel connection expected service.old service.new result }
{
    let code = close_sent_unrecorded(service, numbers, channel, connection, expected);
    let call = PublisherChannelCall::Close { expected };
    service
        .recording
        .publisher_channel(numbers, channel, connection, call, code, 0);
    code
}

// The same, and it isn't.
#[inline(always)]
fn close_sent_unrecorded(
    service: &mut Service,
    numbers: &PublisherNumbers,
    channel: usize,
    connection: usize,
    expected: u64,
) -> u32
    ensures { CloseReturns numbers.now channel connection expected service.old service.new result }
{
    let publisher = match publisher_with_channel(&service.domain, numbers, channel) {
        Ok(publisher) => publisher,
        Err(code) => return code,
    };
    publisher.close_channel(&mut service.domain, channel, connection, expected);
    publisher.disown();
    OK
}
