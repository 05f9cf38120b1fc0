//! Commands on channels.
use crate::chance::Chance;
use crate::positions::{live, live_or_any};
use iox2_commands::{Command, PublisherChannelCall, SubscriberChannelCall};
use iox2_machine::ServiceConfig;
use iox2_model::{Kind, Model};

// A port asks about a channel or changes it, or a loan is sent to one connection.
pub(crate) fn channel_step(
    chance: &mut Chance,
    model: &Model,
    config: &ServiceConfig,
) -> Command<u64, u64> {
    match chance.below(16) {
        0 => Command::ConnectionPlace {
            of: live_or_any(chance, model, Kind::Publisher),
            receiver: receiver(chance, model),
        },
        1..=6 => {
            let of = live_or_any(chance, model, Kind::Publisher);
            publisher_channel(chance, model, config, of)
        }
        7..=13 => {
            let of = live_or_any(chance, model, Kind::Subscriber);
            subscriber_channel(chance, config, of)
        }
        _ => {
            let of = live_or_any(chance, model, Kind::WrittenLoan);
            send_to_connection(chance, model, config, of)
        }
    }
}

// The same on this position.
pub(crate) fn channel_step_on(
    chance: &mut Chance,
    model: &Model,
    config: &ServiceConfig,
    of: usize,
) -> Command<u64, u64> {
    match chance.below(4) {
        0 => Command::ConnectionPlace {
            of,
            receiver: receiver(chance, model),
        },
        1 => publisher_channel(chance, model, config, of),
        2 => subscriber_channel(chance, config, of),
        _ => send_to_connection(chance, model, config, of),
    }
}

pub(crate) fn send_to_connection(
    chance: &mut Chance,
    model: &Model,
    config: &ServiceConfig,
    of: usize,
) -> Command<u64, u64> {
    Command::SendToConnection {
        of,
        channel: channel(chance, config),
        connection: connection(chance, model),
    }
}

fn publisher_channel(
    chance: &mut Chance,
    model: &Model,
    config: &ServiceConfig,
    of: usize,
) -> Command<u64, u64> {
    let state = state(chance);
    let call = match chance.below(8) {
        0..=4 => PublisherChannelCall::HasState { state },
        5 | 6 => PublisherChannelCall::HasDisconnectHint { state },
        _ => PublisherChannelCall::Close { expected: state },
    };
    Command::PublisherChannel {
        of,
        channel: channel(chance, config),
        connection: connection(chance, model),
        call,
    }
}

// A channel is opened more often than closed, so that it isn't closed mostly.
fn subscriber_channel(chance: &mut Chance, config: &ServiceConfig, of: usize) -> Command<u64, u64> {
    let state = state(chance);
    let call = match chance.below(9) {
        0 | 1 => SubscriberChannelCall::SomeHasState { state },
        2 => SubscriberChannelCall::Close { expected: state },
        3 | 4 => SubscriberChannelCall::SetDisconnectHint { expected: state },
        _ => SubscriberChannelCall::SetState { state },
    };
    Command::SubscriberChannel {
        of,
        channel: channel(chance, config),
        call,
    }
}

// Each second time the first one, and seldom one that isn't there.
fn channel(chance: &mut Chance, config: &ServiceConfig) -> usize {
    let count = config.number_of_channels.max(1);
    match chance.below(32) {
        0 => count,
        1 => usize::MAX,
        2..=16 => 0,
        _ => chance.below(count),
    }
}

// The place of a subscriber, mostly.
fn connection(chance: &mut Chance, model: &Model) -> usize {
    if chance.one_in(32) {
        usize::MAX
    } else {
        chance.below(model.subscriber_place_count().saturating_add(1))
    }
}

// The id of a port, mostly.
fn receiver(chance: &mut Chance, model: &Model) -> u128 {
    if chance.one_in(16) {
        u128::MAX
    } else {
        chance.below(model.port_count().saturating_add(1)) as u128
    }
}

// Few states, so that a channel is often in the one that is asked for.
fn state(chance: &mut Chance) -> u64 {
    match chance.below(16) {
        0..=6 => 0,
        7..=10 => 1,
        11 | 12 => 2,
        13 | 14 => u64::MAX,
        _ => chance.value(),
    }
}

// A written loan, if there is one, of which each fourth goes to one connection.
pub(crate) fn send(
    chance: &mut Chance,
    model: &Model,
    config: &ServiceConfig,
) -> Option<Command<u64, u64>> {
    let of = live(chance, model, Kind::WrittenLoan)?;
    Some(if chance.one_in(4) {
        send_to_connection(chance, model, config, of)
    } else {
        Command::Send { of }
    })
}
