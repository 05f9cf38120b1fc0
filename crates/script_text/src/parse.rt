//! What the lines of a script ask for.
ghost use Rattle.std.specs.Prelude.{◌≡◌, ◌↔◌, ◌<◌, ◌*◌, ◌+◌, ℕ, Bool, Option, IfErr, IfNone, IfOk, IfSome, IsSome, length};
ghost use Rattle.std.specs.Duration.{as_nanos};
ghost use Rattle.std.specs.Str.{IsUtf8};
ghost use Rattle.iox2_machine.specs.declared.allocation.AllocationStrategy.{AllocationStrategy};
ghost use Rattle.iox2_machine.specs.declared.backpressure.BackpressureAction.{BackpressureAction};
ghost use Rattle.iox2_machine.specs.declared.degradation.DegradationAction.{DegradationAction};
ghost use Rattle.iox2_machine.specs.declared.service_config.TypeVariant.{TypeVariant};
ghost use Rattle.iox2_machine.specs.declared.backpressure.BackpressureStrategy.{BackpressureStrategy};
ghost use Rattle.iox2_machine.specs.declared.service_config.ServiceConfig.{ServiceConfig};
ghost use Rattle.iox2_commands.specs.declared.command.Command.{Command};
ghost use Rattle.iox2_commands.specs.declared.new_publisher.NewPublisher.{NewPublisher};
ghost use Rattle.script_text.specs.Commands.{IsAllocation, IsCommandLine, IsDegradation, IsDomainLine, IsHandler};
ghost use Rattle.script_text.specs.Commands.{IsKind, IsMode, IsPublisherLine, IsSizeOrMost, IsStrategy};
ghost use Rattle.script_text.specs.Commands.{NamesCommand, NamesDomain, SaysChannels};
ghost use Rattle.script_text.specs.Calls.{IsCall, IsCallWith, IsCallWithThree, IsCallWithTwo};
ghost use Rattle.script_text.specs.Numbers.{IsId, IsNumber, position_of, value_of};
ghost use Rattle.script_text.specs.ScriptText.{IsRefused, IsScript};
ghost use Rattle.script_text.specs.Words.{line_words, texts, words_in};

use crate::channels::{publisher_call, subscriber_call};
use crate::failure::ScriptError;
use crate::lines::Lines;
use arrayvec::ArrayVec;
use iox2_commands::{Command, NewPublisher};
use iox2_machine::{
    AllocationStrategy, BackpressureAction, BackpressureStrategy, DegradationAction, ServiceConfig,
    TypeVariant,
};
use std::alloc::Global;
use std::time::Duration;

/// A script: the settings of its domain, which its first line names, and the commands of its other
/// lines.
#[derive(Drop)]
pub struct Script {
    pub config: ServiceConfig,
    pub commands: Vec<Command<u64, u64>>,
}

impl Script {
    /// The script that the text is.
    ///
    /// `OutOfMemory` where there is no room for the commands, which are counted before any line is
    /// judged. `BadCommand` names the first malformed line; a text without any line has it at 1.
    pub fn parse(alloc: Global, text: &[u8]) -> Result<Script, ScriptError>
        ensures ok { IfOk result (λ script. IsScript text.now script.config script.commands.items) }
        ensures err { IfErr result (IsRefused text.now) }
    {
        let mut commands = Vec::with_capacity(alloc, Lines { rest: text }.count())?;
        let mut lines = Lines { rest: text };
        let Some(first) = lines.next() else {
            return Err(ScriptError::BadCommand(1));
        };
        let Some(config) = domain_of(first) else {
            return Err(ScriptError::BadCommand(1));
        };
        for line in lines {
            let Some(command) = command_of(line) else {
                return Err(ScriptError::BadCommand(commands.len() + 2));
            };
            commands.push_reserved(command);
        }
        Ok(Script { config, commands })
    }
}

/// The settings that a line names, if it is the first of a script: `domain 1 1 2 1 0 0 keep` names some.
pub fn domain_of(line: &[u8]) -> Option<ServiceConfig>
    ensures reads { IfSome result (NamesDomain line.now) }
    ensures refuses { IfNone result ((config : ServiceConfig) → ¬ NamesDomain line.now config) }
{
    let words = split_words(line)?;
    parse_domain(&words)
}

/// The command that a line of a script after the first names, if it names one: `loan 4` names
/// `LoanUninit` of the command at position 3.
pub fn command_of(line: &[u8]) -> Option<Command<u64, u64>>
    ensures reads { IfSome result (NamesCommand line.now) }
    ensures refuses { IfNone result ((command : Command ℕ ℕ) → ¬ NamesCommand line.now command) }
{
    let words = split_words(line)?;
    parse_command(&words)
}

/// The settings that a domain line names: `domain P S B R H E overflow` or `.. keep`, or `slices ..`
/// where messages are slices; and `channels C` behind that where a connection hasn't one channel.
///
/// `P` and `S` are the greatest numbers of publishers and subscribers, `B` is the greatest buffer,
/// `R` the greatest number of borrowed samples, `H` the history size, and `E` the room for departed
/// publishers.
fn parse_domain(words: &[&str]) -> Option<ServiceConfig>
    ensures reads { IfSome result (IsDomainLine (words_in words.now)) }
    ensures refuses { IfNone result ((config : ServiceConfig) → ¬ IsDomainLine (words_in words.now) config) }
{
    let [
        kind,
        publishers,
        subscribers,
        buffer,
        borrowed,
        history,
        expired,
        mode,
        ..
    ] = *words
    else {
        return None;
    };
    Some(ServiceConfig {
        node_id: 1,
        variant: parse_kind(kind)?,
        max_publishers: parse_size(publishers)?,
        max_subscribers: parse_size(subscribers)?,
        subscriber_max_buffer_size: parse_size(buffer)?,
        subscriber_max_borrowed_samples: parse_size(borrowed)?,
        history_size: parse_size(history)?,
        number_of_channels: parse_channels(words)?,
        enable_safe_overflow: parse_mode(mode)?,
        subscriber_expired_connection_buffer: parse_size(expired)?,
        publisher_max_loaned_samples: 1,
        backpressure_strategy: BackpressureStrategy::DiscardData,
        ..ServiceConfig::new(1)
    })
}

/// How many channels a connection has, as the end of a domain line says: 1 where it says nothing.
fn parse_channels(words: &[&str]) -> Option<usize>
    ensures reads { IfSome result (SaysChannels (words_in words.now)) }
    ensures refuses { IfNone result ((channels : ℕ) → ¬ SaysChannels (words_in words.now) channels) }
{
    match *words {
        [_, _, _, _, _, _, _, _] => Some(1),
        [_, _, _, _, _, _, _, _, "channels", channels] => parse_size(channels),
        _ => None,
    }
}

/// Whether a full buffer overwrites what it has, as `overflow` says, or keeps it, as `keep` says.
fn parse_mode(word: &str) -> Option<bool>
    ensures reads { IfSome result (IsMode word.now) }
    ensures refuses { IfNone result ((overflow : Bool) → ¬ IsMode word.now overflow) }
{
    match word {
        "overflow" => Some(true),
        "keep" => Some(false),
        _ => None,
    }
}

/// What messages are: single values, as `domain` says, or slices.
fn parse_kind(word: &str) -> Option<TypeVariant>
    ensures reads { IfSome result (IsKind word.now) }
    ensures refuses { IfNone result ((variant : TypeVariant) → ¬ IsKind word.now variant) }
{
    match word {
        "domain" => Some(TypeVariant::FixedSize),
        "slices" => Some(TypeVariant::Dynamic),
        _ => None,
    }
}

/// The command that a line after the first names.
fn parse_command(words: &[&str]) -> Option<Command<u64, u64>>
    ensures reads { IfSome result (IsCommandLine (words_in words.now)) }
    ensures refuses { IfNone result ((command : Command ℕ ℕ) → ¬ IsCommandLine (words_in words.now) command) }
{
    match *words {
        ["nothing"] => Some(Command::Nothing),
        ["pub", _, _] => Some(Command::CreatePublisher(parse_publisher(words)?)),
        ["pub", _, _, _, _, _, _, _] => Some(Command::CreatePublisher(parse_publisher(words)?)),
        ["sub", buffer] => Some(Command::CreateSubscriber {
            buffer: parse_size_or_most(buffer)?,
            degradation: DegradationAction::Warn,
        }),
        ["sub", buffer, degradation] => Some(Command::CreateSubscriber {
            buffer: parse_size_or_most(buffer)?,
            degradation: parse_degradation(degradation)?,
        }),
        ["retry", of, seconds, nanoseconds] => Some(Command::Retry {
            of: parse_name(of)?,
            elapsed: parse_elapsed(seconds, nanoseconds)?,
        }),
        ["connection", of, receiver] => Some(Command::ConnectionPlace {
            of: parse_name(of)?,
            receiver: parse_id(receiver)?,
        }),
        [call, of] => parse_call(call, parse_name(of)?),
        [call, of, number] => {
            let of = parse_name(of)?;
            parse_call_with(call, of, parse_number(number)?)
        }
        [call, of, first, second] => parse_call_with_two(call, of, first, second),
        [call, of, channel, connection, state] => {
            parse_call_with_three(call, of, channel, connection, state)
        }
        _ => None,
    }
}

/// The publisher that a line asks for: one that is static, or one with all its settings.
fn parse_publisher(words: &[&str]) -> Option<NewPublisher>
    ensures reads { IfSome result (IsPublisherLine (words_in words.now)) }
    ensures refuses { IfNone result ((asked : NewPublisher) → ¬ IsPublisherLine (words_in words.now) asked) }
{
    match *words {
        ["pub", loans, strategy] => {
            let loans = parse_size(loans)?;
            Some(NewPublisher::new(loans, parse_strategy(strategy)?))
        }
        [
            "pub",
            loans,
            strategy,
            allocation,
            len,
            slots,
            degradation,
            handler,
        ] => Some(NewPublisher {
            loans: parse_size(loans)?,
            strategy: parse_strategy(strategy)?,
            allocation: parse_allocation(allocation)?,
            initial_max_slice_len: parse_size(len)?,
            override_slots: parse_size_or_most(slots)?,
            degradation: parse_degradation(degradation)?,
            backpressure: parse_handler(handler)?,
        }),
        _ => None,
    }
}

/// The call of this name, on what the command at the position made.
fn parse_call(call: &str, of: usize) -> Option<Command<u64, u64>>
    ensures reads { IfSome result (IsCall call.now of) }
    ensures refuses { IfNone result ((command : Command ℕ ℕ) → ¬ IsCall call.now of command) }
{
    Some(match call {
        "loan" => Command::LoanUninit { of },
        "default" => Command::Loan { of },
        "init" => Command::AssumeInit { of },
        "send" => Command::Send { of },
        "discard" => Command::Discard { of },
        "retry" => Command::Retry {
            of,
            elapsed: Duration::ZERO,
        },
        "giveup" => Command::GiveUp { of },
        "update" => Command::Update { of },
        "recv" => Command::Receive { of },
        "has" => Command::HasSamples { of },
        "read" => Command::Read { of, at: 0 },
        "header" => Command::ReadHeader { of },
        "user" => Command::ReadUserHeader { of },
        "release" => Command::Release { of },
        "close" => Command::Close { of },
        _ => return None,
    })
}

/// The call of this name with a number, on what the command at the position made.
fn parse_call_with(call: &str, of: usize, number: u64) -> Option<Command<u64, u64>>
    ensures reads { IfSome result (IsCallWith call.now of number) }
    ensures refuses { IfNone result ((command : Command ℕ ℕ) → ¬ IsCallWith call.now of number command) }
{
    Some(match call {
        "slice" => Command::LoanSlice {
            of,
            len: number as usize,
        },
        "write" => Command::WriteAll { of, value: number },
        "user" => Command::WriteHeader { of, value: number },
        "copy" => Command::SendCopy { of, value: number },
        "read" => Command::Read {
            of,
            at: number as usize,
        },
        _ => return None,
    })
}

/// The call of this name with two numbers, on what the command with the number made.
fn parse_call_with_two(call: &str, of: &str, first: &str, second: &str) -> Option<Command<u64, u64>>
    ensures reads { IfSome result (IsCallWithTwo call.now of.now first.now second.now) }
    ensures refuses { IfNone result ((command : Command ℕ ℕ) → ¬ IsCallWithTwo call.now of.now first.now second.now command) }
{
    let of = parse_name(of)?;
    let at = parse_size(first)?;
    let value = parse_number(second)?;
    match call {
        "cell" => Some(Command::WriteCell { of, at, value }),
        "set" => Some(Command::SetPayload { of, at, value }),
        "deliver" => Some(Command::SendToConnection {
            of,
            channel: at,
            connection: value as usize,
        }),
        _ => Some(Command::SubscriberChannel {
            of,
            channel: at,
            call: subscriber_call(call, value)?,
        }),
    }
}

/// The call of this name with three numbers: a channel of one connection of a publisher, and a state.
fn parse_call_with_three(
    call: &str,
    of: &str,
    channel: &str,
    connection: &str,
    state: &str,
) -> Option<Command<u64, u64>>
    ensures reads { IfSome result (IsCallWithThree call.now of.now channel.now connection.now state.now) }
    ensures refuses { IfNone result ((command : Command ℕ ℕ) → ¬ IsCallWithThree call.now of.now channel.now connection.now state.now command) }
{
    let of = parse_name(of)?;
    let channel = parse_size(channel)?;
    let connection = parse_size(connection)?;
    let state = parse_number(state)?;
    Some(Command::PublisherChannel {
        of,
        channel,
        connection,
        call: publisher_call(call, state)?,
    })
}

/// How a publisher's memory grows.
fn parse_allocation(word: &str) -> Option<AllocationStrategy>
    ensures reads { IfSome result (IsAllocation word.now) }
    ensures refuses { IfNone result ((allocation : AllocationStrategy) → ¬ IsAllocation word.now allocation) }
{
    match word {
        "static" => Some(AllocationStrategy::Static),
        "bestfit" => Some(AllocationStrategy::BestFit),
        "poweroftwo" => Some(AllocationStrategy::PowerOfTwo),
        _ => None,
    }
}

/// The answer to a connection that is refused memory.
fn parse_degradation(word: &str) -> Option<DegradationAction>
    ensures reads { IfSome result (IsDegradation word.now) }
    ensures refuses { IfNone result ((degradation : DegradationAction) → ¬ IsDegradation word.now degradation) }
{
    match word {
        "ignore" => Some(DegradationAction::Ignore),
        "warn" => Some(DegradationAction::Warn),
        "fail" => Some(DegradationAction::DegradeAndFail),
        _ => None,
    }
}

/// The answer of a handler of full buffers; `none` says that there is no handler.
fn parse_handler(word: &str) -> Option<Option<BackpressureAction>>
    ensures reads { IfSome result (IsHandler word.now) }
    ensures refuses { IfNone result ((handler : Option BackpressureAction) → ¬ IsHandler word.now handler) }
{
    match word {
        "none" => Some(None),
        "follow" => Some(Some(BackpressureAction::FollowBackpressureyStrategy)),
        "retry" => Some(Some(BackpressureAction::Retry)),
        "discard" => Some(Some(BackpressureAction::DiscardData)),
        "fail" => Some(Some(BackpressureAction::DiscardDataAndFail)),
        _ => None,
    }
}

/// A number, or `most`, which names none.
fn parse_size_or_most(word: &str) -> Option<Option<usize>>
    ensures reads { IfSome result (IsSizeOrMost word.now) }
    ensures refuses { IfNone result ((size : Option ℕ) → ¬ IsSizeOrMost word.now size) }
{
    if word == "most" {
        return Some(None);
    }
    Some(Some(parse_size(word)?))
}

/// So many seconds, and fewer than a billion nanoseconds.
fn parse_elapsed(seconds: &str, nanoseconds: &str) -> Option<Duration>
    ensures known { IsSome result ↔ IsNumber seconds.now × IsNumber nanoseconds.now × (value_of nanoseconds.now < 1000000000) }
    ensures value { IfSome result (λ elapsed. as_nanos elapsed ≡ value_of seconds.now * 1000000000 + value_of nanoseconds.now) }
{
    let seconds = parse_number(seconds)?;
    let nanoseconds = parse_number(nanoseconds)?;
    if nanoseconds < 1_000_000_000 {
        Some(Duration::new(seconds, nanoseconds as u32))
    } else {
        None
    }
}

/// What a publisher does with a full receiver: `retry` waits for it, `discard` passes it over.
fn parse_strategy(word: &str) -> Option<BackpressureStrategy>
    ensures reads { IfSome result (IsStrategy word.now) }
    ensures refuses { IfNone result ((strategy : BackpressureStrategy) → ¬ IsStrategy word.now strategy) }
{
    match word {
        "retry" => Some(BackpressureStrategy::RetryUntilDelivered),
        "discard" => Some(BackpressureStrategy::DiscardData),
        _ => None,
    }
}

/// The most words that a line has: those of the domain line.
const MOST_WORDS: usize = 10;

/// The words of a line, which spaces part. None where it isn't text, or they are more than any line
/// has.
fn split_words(line: &[u8]) -> Option<ArrayVec<&str, MOST_WORDS>>
    ensures splits { IfSome result (λ words. IsUtf8 line.now × (texts words.items ≡ line_words line.now)) }
    ensures refuses { IfNone result (IsUtf8 line.now → MOST_WORDS < length (line_words line.now)) }
{
    let Ok(text) = str::from_utf8(line) else {
        return None;
    };
    let mut words = ArrayVec::new();
    for word in text.split(' ') {
        if !word.is_empty() {
            let Ok(()) = words.try_push(word) else {
                return None;
            };
        }
    }
    Some(words)
}

/// The position, counted from 0, of the command with this number, counted from 1. 0 names no
/// command, and neither does the position that it gets: no list is so long.
fn parse_name(word: &str) -> Option<usize>
    ensures known { IsSome result ↔ IsNumber word.now }
    ensures value { IfSome result (λ of. of ≡ position_of (value_of word.now)) }
{
    Some(parse_size(word)?.wrapping_sub(1))
}

fn parse_size(word: &str) -> Option<usize>
    ensures known { IsSome result ↔ IsNumber word.now }
    ensures value { IfSome result (λ size. size ≡ value_of word.now) }
{
    Some(parse_number(word)? as usize)
}

/// The number that a word is: one or more decimal digits, whose value fits. It may begin with
/// zeros, and has no sign.
fn parse_number(word: &str) -> Option<u64>
    ensures known { IsSome result ↔ IsNumber word.now }
    ensures value { IfSome result (λ number. number ≡ value_of word.now) }
{
    if word.starts_with('+') {
        return None;
    }
    word.parse().ok()
}

/// The id of a port that a word is: as a number, and of twice as many bits.
fn parse_id(word: &str) -> Option<u128>
    ensures known { IsSome result ↔ IsId word.now }
    ensures value { IfSome result (λ id. id ≡ value_of word.now) }
{
    if word.starts_with('+') {
        return None;
    }
    word.parse().ok()
}
