//! Commands that do what is wished.
use crate::chance::Chance;
use crate::channels::{channel_step, channel_step_on, send};
use crate::moods::Wish;
use crate::positions::{any, live, live_or_any};
use iox2_commands::{Command, NewPublisher};
use iox2_machine::{
    AllocationStrategy, BackpressureAction, BackpressureStrategy, DegradationAction, ServiceConfig,
    TypeVariant,
};
use iox2_model::{Kind, Model};
use std::time::Duration;

// A command that does what is wished.
pub(crate) fn draw_command(
    chance: &mut Chance,
    model: &Model,
    config: &ServiceConfig,
    wish: Wish,
) -> Command<u64, u64> {
    match wish {
        Wish::MakePublisher => make_publisher(chance),
        Wish::MakeSubscriber => make_subscriber(chance, config),
        Wish::Message => message_step(chance, model, config),
        Wish::Loan => loan(chance, model, config),
        Wish::Change => change(chance, model),
        Wish::Discard => Command::Discard {
            of: any_loan(chance, model),
        },
        Wish::Receive => Command::Receive {
            of: live_or_any(chance, model, Kind::Subscriber),
        },
        Wish::Ask => Command::HasSamples {
            of: live_or_any(chance, model, Kind::Subscriber),
        },
        Wish::Read => read(chance, model),
        Wish::Release => Command::Release {
            of: live_or_any(chance, model, Kind::Sample),
        },
        Wish::Update => Command::Update {
            of: any_port(chance, model),
        },
        Wish::ClosePublisher => Command::Close {
            of: live_or_any(chance, model, Kind::Publisher),
        },
        Wish::CloseSubscriber => Command::Close {
            of: live_or_any(chance, model, Kind::Subscriber),
        },
        Wish::Channel => channel_step(chance, model, config),
        Wish::Anything => {
            let of = any(chance, model);
            anything(chance, model, config, of)
        }
    }
}

fn make_publisher(chance: &mut Chance) -> Command<u64, u64> {
    let loans = match chance.below(32) {
        0 => 0,
        1 => 40,
        2..=15 => 1,
        _ => chance.below(5),
    };
    Command::CreatePublisher(NewPublisher {
        loans,
        strategy: strategy(chance),
        allocation: allocation(chance),
        initial_max_slice_len: chance.below(9),
        override_slots: override_slots(chance),
        degradation: degradation(chance),
        backpressure: handler(chance),
    })
}

fn allocation(chance: &mut Chance) -> AllocationStrategy {
    match chance.below(4) {
        0 => AllocationStrategy::BestFit,
        1 => AllocationStrategy::PowerOfTwo,
        _ => AllocationStrategy::Static,
    }
}

// Mostly there is none. Else few slots are asked for, none, or more than there may be.
fn override_slots(chance: &mut Chance) -> Option<usize> {
    match chance.below(16) {
        0 => Some(0),
        1 => Some(usize::MAX),
        2..=4 => Some(chance.below(12)),
        _ => None,
    }
}

fn degradation(chance: &mut Chance) -> DegradationAction {
    match chance.below(4) {
        0 => DegradationAction::Ignore,
        1 => DegradationAction::DegradeAndFail,
        _ => DegradationAction::Warn,
    }
}

fn strategy(chance: &mut Chance) -> BackpressureStrategy {
    if chance.one_in(2) {
        BackpressureStrategy::RetryUntilDelivered
    } else {
        BackpressureStrategy::DiscardData
    }
}

// Mostly there is none, so that the strategy decides.
fn handler(chance: &mut Chance) -> Option<BackpressureAction> {
    match chance.below(8) {
        0 => Some(BackpressureAction::FollowBackpressureyStrategy),
        1 => Some(BackpressureAction::Retry),
        2 => Some(BackpressureAction::DiscardData),
        3 => Some(BackpressureAction::DiscardDataAndFail),
        _ => None,
    }
}

// Its buffer is the service's limit, or it is asked for, and may be one too large.
fn make_subscriber(chance: &mut Chance, config: &ServiceConfig) -> Command<u64, u64> {
    let greatest = config.subscriber_max_buffer_size;
    let buffer = match chance.below(12) {
        0 => Some(greatest.max(1).saturating_add(1)),
        1..=3 => None,
        _ => Some(chance.up_to(greatest)),
    };
    Command::CreateSubscriber {
        buffer,
        degradation: degradation(chance),
    }
}

// Where a send waits it goes on, each second time. Else a written loan is sent, to all or to one connection, an
// unwritten one is written, and where there is none a loan is taken.
fn message_step(chance: &mut Chance, model: &Model, config: &ServiceConfig) -> Command<u64, u64> {
    if chance.one_in(2) {
        if let Some(of) = live(chance, model, Kind::BlockedSend) {
            return go_on(chance, model, of);
        }
    }
    if let Some(command) = send(chance, model, config) {
        return command;
    }
    if let Some(of) = live(chance, model, Kind::UnwrittenLoan) {
        return Command::WriteAll {
            of,
            value: chance.value(),
        };
    }
    match live(chance, model, Kind::Publisher) {
        None => make_publisher(chance),
        Some(of) if has_slices(config) => loan_slice(chance, model, of),
        Some(of) if chance.one_in(2) => Command::SendCopy {
            of,
            value: chance.value(),
        },
        Some(of) => Command::LoanUninit { of },
    }
}

// A blocked send is given up, or tried again, at once or later, or a subscriber makes room. Some names
// of the send are wrong.
fn go_on(chance: &mut Chance, model: &Model, waiting: usize) -> Command<u64, u64> {
    let of = if chance.one_in(8) {
        any(chance, model)
    } else {
        waiting
    };
    match chance.below(8) {
        0 => Command::GiveUp { of },
        1 => Command::Retry {
            of,
            elapsed: Duration::from_millis(5),
        },
        2 | 3 => Command::Retry {
            of,
            elapsed: Duration::ZERO,
        },
        4 => Command::Release {
            of: live_or_any(chance, model, Kind::Sample),
        },
        _ => Command::Receive {
            of: live_or_any(chance, model, Kind::Subscriber),
        },
    }
}

fn has_slices(config: &ServiceConfig) -> bool {
    config.variant == TypeVariant::Dynamic
}

// A loan fits the service mostly.
fn loan(chance: &mut Chance, model: &Model, config: &ServiceConfig) -> Command<u64, u64> {
    let of = live_or_any(chance, model, Kind::Publisher);
    if has_slices(config) && !chance.one_in(8) {
        loan_slice(chance, model, of)
    } else if chance.one_in(2) {
        Command::LoanUninit { of }
    } else {
        Command::Loan { of }
    }
}

// The length is one that the publisher lends, some more, or one for which no segment fits.
fn loan_slice(chance: &mut Chance, model: &Model, of: usize) -> Command<u64, u64> {
    let greatest = model.max_slice_len_at(of);
    let len = match chance.below(24) {
        0 => greatest.saturating_add(1),
        1 => greatest.saturating_add(chance.below(24)),
        2 if model.exceeds_any_segment_at(of, usize::MAX) => usize::MAX,
        _ => chance.up_to(greatest),
    };
    Command::LoanSlice { of, len }
}

fn any_loan(chance: &mut Chance, model: &Model) -> usize {
    if chance.one_in(2) {
        live_or_any(chance, model, Kind::WrittenLoan)
    } else {
        live_or_any(chance, model, Kind::UnwrittenLoan)
    }
}

fn any_port(chance: &mut Chance, model: &Model) -> usize {
    if chance.one_in(2) {
        live_or_any(chance, model, Kind::Publisher)
    } else {
        live_or_any(chance, model, Kind::Subscriber)
    }
}

// A cell of the message, or past its end.
fn cell(chance: &mut Chance, model: &Model, of: usize) -> usize {
    let length = model.length_at(of);
    if chance.one_in(16) {
        length
    } else {
        chance.below(length)
    }
}

fn change(chance: &mut Chance, model: &Model) -> Command<u64, u64> {
    let value = chance.value();
    let of = any_loan(chance, model);
    let at = cell(chance, model, of);
    match chance.below(5) {
        0 => Command::WriteCell { of, at, value },
        1 => Command::WriteAll { of, value },
        2 => Command::AssumeInit { of },
        3 => Command::WriteHeader { of, value },
        _ => Command::SetPayload { of, at, value },
    }
}

fn read(chance: &mut Chance, model: &Model) -> Command<u64, u64> {
    let of = if chance.one_in(2) {
        any_loan(chance, model)
    } else {
        live_or_any(chance, model, Kind::Sample)
    };
    match chance.below(4) {
        0 => Command::ReadHeader { of },
        1 => Command::ReadUserHeader { of },
        _ => Command::Read {
            of,
            at: cell(chance, model, of),
        },
    }
}

// Any command on this position, except those that make ports.
fn anything(
    chance: &mut Chance,
    model: &Model,
    config: &ServiceConfig,
    of: usize,
) -> Command<u64, u64> {
    let value = chance.value();
    let at = cell(chance, model, of);
    match chance.below(25) {
        0 => Command::Nothing,
        1 => Command::LoanUninit { of },
        2 => Command::Loan { of },
        3 => loan_slice(chance, model, of),
        4 => Command::WriteCell { of, at, value },
        5 => Command::WriteAll { of, value },
        6 => Command::AssumeInit { of },
        7 => Command::WriteHeader { of, value },
        8 => Command::SetPayload { of, at, value },
        9 => Command::Send { of },
        10 => Command::SendCopy { of, value },
        11 => Command::Discard { of },
        12 => Command::Retry {
            of,
            elapsed: Duration::ZERO,
        },
        13 => Command::GiveUp { of },
        14 => Command::Update { of },
        15 => Command::Receive { of },
        16 => Command::HasSamples { of },
        17 => Command::Read { of, at },
        18 => Command::ReadHeader { of },
        19 => Command::ReadUserHeader { of },
        20 => Command::Release { of },
        _ => channel_step_on(chance, model, config, of),
    }
}
