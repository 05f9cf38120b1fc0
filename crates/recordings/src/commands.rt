//! Settings and commands as lines.
use iox2_commands::{Command, NewPublisher, PublisherChannelCall, SubscriberChannelCall};
use iox2_machine::{
    AllocationStrategy, BackpressureAction, BackpressureStrategy, DegradationAction, ServiceConfig,
    TypeVariant,
};
use std::alloc::AllocError;
use std::fmt::Write;

/// Adds the script with these settings and commands. A script has words for all of them, except for the
/// settings that `docs/SCRIPT.md` doesn't name.
pub fn push_script(
    text: &mut String,
    config: &ServiceConfig,
    commands: &[Command<u64, u64>],
) -> Result<(), AllocError> {
    push_domain(text, config)?;
    text.push('\n')?;
    for command in commands {
        push_command(text, command)?;
        text.push('\n')?;
    }
    Ok(())
}

/// What is between the other settings of a domain and how many channels a connection has, where that isn't 1.
pub(crate) const CHANNELS: &str = " channels ";

// The line of a script that makes a domain with these settings, except those that `push_service` has.
pub(crate) fn push_domain(text: &mut String, config: &ServiceConfig) -> Result<(), AllocError> {
    let kind = match config.variant {
        TypeVariant::FixedSize => "domain",
        TypeVariant::Dynamic => "slices",
    };
    let publishers = config.max_publishers;
    let subscribers = config.max_subscribers;
    let buffer = config.subscriber_max_buffer_size;
    let borrowed = config.subscriber_max_borrowed_samples;
    let history = config.history_size;
    let expired = config.subscriber_expired_connection_buffer;
    let mode = if config.enable_safe_overflow {
        "overflow"
    } else {
        "keep"
    };
    write!(
        text,
        "{kind} {publishers} {subscribers} {buffer} {borrowed} {history} {expired} {mode}"
    )?;
    match config.number_of_channels {
        1 => Ok(()),
        channels => write!(text, "{CHANNELS}{channels}"),
    }
}

// The line of a recording with the settings for which a script has no words.
pub(crate) fn push_service(text: &mut String, config: &ServiceConfig) -> Result<(), AllocError> {
    let service = config.service_id;
    let node = config.node_id;
    let units = config.units_per_element;
    let loans = config.publisher_max_loaned_samples;
    let strategy = strategy_word(config.backpressure_strategy);
    let allocation = allocation_word(config.publisher_allocation_strategy);
    write!(
        text,
        "service {service} {node} {units} {loans} {strategy} {allocation}"
    )
}

/// Adds the line of a script that asks for the command, without its end: the shortest one.
pub fn push_command(text: &mut String, command: &Command<u64, u64>) -> Result<(), AllocError> {
    match *command {
        Command::Nothing => text.push_str("nothing"),
        Command::CreatePublisher(asked) => push_publisher(text, asked),
        Command::CreateSubscriber {
            buffer,
            degradation: DegradationAction::Warn,
        } => {
            text.push_str("sub ")?;
            push_size(text, buffer)
        }
        Command::CreateSubscriber {
            buffer,
            degradation,
        } => {
            text.push_str("sub ")?;
            push_size(text, buffer)?;
            write!(text, " {}", degradation_word(degradation))
        }
        Command::LoanUninit { of } => push_use(text, "loan", of),
        Command::Loan { of } => push_use(text, "default", of),
        Command::LoanSlice { of, len } => write!(text, "slice {} {len}", number(of)),
        Command::WriteCell { of, at, value } => write!(text, "cell {} {at} {value}", number(of)),
        Command::WriteAll { of, value } => write!(text, "write {} {value}", number(of)),
        Command::AssumeInit { of } => push_use(text, "init", of),
        Command::WriteHeader { of, value } => write!(text, "user {} {value}", number(of)),
        Command::SetPayload { of, at, value } => write!(text, "set {} {at} {value}", number(of)),
        Command::Send { of } => push_use(text, "send", of),
        Command::SendCopy { of, value } => write!(text, "copy {} {value}", number(of)),
        Command::Discard { of } => push_use(text, "discard", of),
        _ => push_call(text, command),
    }
}

fn push_publisher(text: &mut String, asked: NewPublisher) -> Result<(), AllocError> {
    write!(
        text,
        "pub {} {}",
        asked.loans,
        strategy_word(asked.strategy)
    )?;
    if asked == NewPublisher::new(asked.loans, asked.strategy) {
        return Ok(());
    }
    push_word(text, allocation_word(asked.allocation))?;
    write!(text, " {} ", asked.initial_max_slice_len)?;
    push_size(text, asked.override_slots)?;
    push_word(text, degradation_word(asked.degradation))?;
    push_word(text, handler_word(asked.backpressure))
}

fn push_word(text: &mut String, word: &str) -> Result<(), AllocError> {
    text.push(' ')?;
    text.push_str(word)
}

// The same for a command on a port, a sample or a blocked send.
fn push_call(text: &mut String, command: &Command<u64, u64>) -> Result<(), AllocError> {
    match *command {
        Command::Retry { of, elapsed } if elapsed.is_zero() => push_use(text, "retry", of),
        Command::Retry { of, elapsed } => {
            let (seconds, nanoseconds) = (elapsed.as_secs(), elapsed.subsec_nanos());
            write!(text, "retry {} {seconds} {nanoseconds}", number(of))
        }
        Command::GiveUp { of } => push_use(text, "giveup", of),
        Command::Update { of } => push_use(text, "update", of),
        Command::Receive { of } => push_use(text, "recv", of),
        Command::HasSamples { of } => push_use(text, "has", of),
        Command::Read { of, at: 0 } => push_use(text, "read", of),
        Command::Read { of, at } => write!(text, "read {} {at}", number(of)),
        Command::ReadHeader { of } => push_use(text, "header", of),
        Command::ReadUserHeader { of } => push_use(text, "user", of),
        Command::Release { of } => push_use(text, "release", of),
        Command::Close { of } => push_use(text, "close", of),
        _ => push_channel_call(text, command),
    }
}

// The same for a command on a channel or a connection.
fn push_channel_call(text: &mut String, command: &Command<u64, u64>) -> Result<(), AllocError> {
    match *command {
        Command::SendToConnection {
            of,
            channel,
            connection,
        } => write!(text, "deliver {} {channel} {connection}", number(of)),
        Command::ConnectionPlace { of, receiver } => {
            write!(text, "connection {} {receiver}", number(of))
        }
        Command::PublisherChannel {
            of,
            channel,
            connection,
            call,
        } => {
            let (word, state) = publisher_call(call);
            write!(text, "{word} {} {channel} {connection} {state}", number(of))
        }
        Command::SubscriberChannel { of, channel, call } => {
            let (word, state) = subscriber_call(call);
            write!(text, "{word} {} {channel} {state}", number(of))
        }
        _ => Ok(()),
    }
}

// The word of a call, and the state that it names.
fn publisher_call(call: PublisherChannelCall) -> (&'static str, u64) {
    match call {
        PublisherChannelCall::HasState { state } => ("state", state),
        PublisherChannelCall::HasDisconnectHint { state } => ("hinted", state),
        PublisherChannelCall::Close { expected } => ("shut", expected),
    }
}

fn subscriber_call(call: SubscriberChannelCall) -> (&'static str, u64) {
    match call {
        SubscriberChannelCall::SetState { state } => ("open", state),
        SubscriberChannelCall::SomeHasState { state } => ("state", state),
        SubscriberChannelCall::Close { expected } => ("shut", expected),
        SubscriberChannelCall::SetDisconnectHint { expected } => ("hint", expected),
    }
}

// The number of the command at a position: 0 names none.
fn number(of: usize) -> usize {
    of.wrapping_add(1)
}

fn push_use(text: &mut String, word: &str, of: usize) -> Result<(), AllocError> {
    write!(text, "{word} {}", number(of))
}

fn push_size(text: &mut String, size: Option<usize>) -> Result<(), AllocError> {
    match size {
        Some(size) => write!(text, "{size}"),
        None => text.push_str("most"),
    }
}

pub(crate) fn strategy_word(strategy: BackpressureStrategy) -> &'static str {
    match strategy {
        BackpressureStrategy::RetryUntilDelivered => "retry",
        BackpressureStrategy::DiscardData => "discard",
    }
}

pub(crate) fn allocation_word(allocation: AllocationStrategy) -> &'static str {
    match allocation {
        AllocationStrategy::Static => "static",
        AllocationStrategy::BestFit => "bestfit",
        AllocationStrategy::PowerOfTwo => "poweroftwo",
    }
}

fn degradation_word(degradation: DegradationAction) -> &'static str {
    match degradation {
        DegradationAction::Ignore => "ignore",
        DegradationAction::Warn => "warn",
        DegradationAction::DegradeAndFail => "fail",
    }
}

fn handler_word(handler: Option<BackpressureAction>) -> &'static str {
    match handler {
        None => "none",
        Some(BackpressureAction::FollowBackpressureyStrategy) => "follow",
        Some(BackpressureAction::Retry) => "retry",
        Some(BackpressureAction::DiscardData) => "discard",
        Some(BackpressureAction::DiscardDataAndFail) => "fail",
    }
}
