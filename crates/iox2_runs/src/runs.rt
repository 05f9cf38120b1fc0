//! Runs of commands on a domain.
ghost use Rattle.std.specs.Prelude.{◌≡◌, List, [], IfOk, IfErr, IsOk, IsErr, true, false};
ghost use Rattle.iox2_machine.specs.machine.Environments.{fixed_handlers};
ghost use Rattle.iox2_machine.specs.machine.State.{State, Messages};
ghost use Rattle.iox2_domain.specs.Shows.{Shows};
ghost use Rattle.iox2_pubsub.specs.Live.{Stays};
ghost use Rattle.iox2_runs.specs.Carries.{IsLiveTable, defaults_of};
ghost use Rattle.iox2_runs.specs.CarriesOut.{CarriesOut};
ghost use Rattle.iox2_commands.specs.Outcomes.{Event};
ghost use Rattle.iox2_commands.specs.OneDefault.{HasOneDefault};
ghost use Rattle.iox2_commands.specs.Points.{GrantsLoans};
ghost use Rattle.iox2_commands.specs.RunLaws.{IsFaithful};
ghost use Rattle.iox2_commands.specs.Runs.{Run, only_defaults};
ghost use Rattle.iox2_runs.specs.DomainRuns.{RunsOnDomain};
ghost use Rattle.iox2_runs.specs.Services.{lacks_cells};
ghost use Rattle.iox2_runs.specs.declared.runs.made.Made.TheVariants.{Nothing};

mod cells;
mod changes;
mod channels;
mod lends;
mod made;
mod ports;
mod publishers;
mod reads;
mod ready;
mod receives;
mod send_replies;
mod services;
mod spends;
mod updates;

use changes::{assume_init, set_payload, write_all, write_cell, write_header};
use channels::{connection_place, publisher_channel, send_to_connection, subscriber_channel};
use iox2_commands::{Command, Reply};
use iox2_machine::{BackpressureFn, DegradationFn};
use iox2_pubsub::Domain;
use lends::{loan, loan_slice, loan_uninit, send_copy};
pub use made::{Made, disown_all};
use made::{put_back, take};
use ports::{create_publisher, create_subscriber};
use reads::{read, read_header, read_user_header};
use receives::{has_samples, receive};
pub use services::lacks_cells;
use spends::{close, discard, give_up, release, retry, send};
use std::alloc::Global;
use updates::update;

// There is a default value of the type. For proofs alone
// (docs/DECISIONS.md, "What exists for proofs alone").
fn has_default<T: Default + Drop>()
    ensures { (value : T) × T.is_default value }
{
    T::default();
}

// There is a state that the domain shows. For proofs alone.
fn shows_a_state<T: Drop, U: Default + Drop, F: BackpressureFn, G: DegradationFn>(
    domain: &Domain<T, U, F, G>,
)
    ensures { (m : Messages T U) × (s : State T U) × Shows domain.now m s }
{
    domain.config();
}

/// Carries out one command, as a run does with each of its commands, and returns its reply and what it
/// made.
///
/// `table` has what the commands before it made, each at its command's position, and loses what this one
/// uses up. What this one made belongs behind it.
pub fn carry_out<
    T: Copy + Default + Drop,
    U: Copy + Default + Drop,
    F: BackpressureFn,
    G: DegradationFn,
>(
    domain: &mut Domain<T, U, F, G>,
    table: &mut Vec<Made>,
    command: Command<T, U>,
) -> (Reply<T, U>, Made)
    requires { IsLiveTable domain.old table.old.items }
    ensures { CarriesOut fixed_handlers (defaults_of T.is_default U.is_default) domain.old domain.new table.old table.new command result.0 result.1 }
{
    match command {
        Command::CreatePublisher(asked) => create_publisher(domain, asked),
        Command::CreateSubscriber {
            buffer,
            degradation,
        } => create_subscriber(domain, buffer, degradation),
        Command::LoanUninit { of } => put_back(loan_uninit(domain, take(table, of)), table, of),
        Command::Loan { of } => put_back(loan(domain, take(table, of)), table, of),
        Command::LoanSlice { of, len } => put_back(
            loan_slice(domain, take(table, of), len),
            table,
            of,
        ),
        Command::WriteCell { of, at, value } => put_back(
            write_cell(domain, take(table, of), at, value),
            table,
            of,
        ),
        Command::WriteAll { of, value } => put_back(
            write_all(domain, take(table, of), value),
            table,
            of,
        ),
        Command::AssumeInit { of } => put_back(assume_init(domain, take(table, of)), table, of),
        Command::WriteHeader { of, value } => put_back(
            write_header(domain, take(table, of), value),
            table,
            of,
        ),
        Command::SetPayload { of, at, value } => put_back(
            set_payload(domain, take(table, of), at, value),
            table,
            of,
        ),
        Command::Send { of } => put_back(send(domain, take(table, of)), table, of),
        Command::SendToConnection {
            of,
            channel,
            connection,
        } => put_back(
            send_to_connection(domain, take(table, of), channel, connection),
            table,
            of,
        ),
        Command::SendCopy { of, value } => put_back(
            send_copy(domain, take(table, of), value),
            table,
            of,
        ),
        Command::Discard { of } => put_back(discard(domain, take(table, of)), table, of),
        Command::Retry { of, elapsed } => put_back(
            retry(domain, take(table, of), elapsed),
            table,
            of,
        ),
        Command::GiveUp { of } => put_back(give_up(domain, take(table, of)), table, of),
        Command::Update { of } => put_back(update(domain, take(table, of)), table, of),
        Command::Receive { of } => put_back(receive(domain, take(table, of)), table, of),
        Command::HasSamples { of } => put_back(has_samples(domain, take(table, of)), table, of),
        Command::Read { of, at } => put_back(read(domain, take(table, of), at), table, of),
        Command::ReadHeader { of } => put_back(read_header(domain, take(table, of)), table, of),
        Command::ReadUserHeader { of } => put_back(
            read_user_header(domain, take(table, of)),
            table,
            of,
        ),
        Command::Release { of } => put_back(release(domain, take(table, of)), table, of),
        Command::Close { of } => put_back(close(domain, take(table, of)), table, of),
        Command::ConnectionPlace { of, receiver } => put_back(
            connection_place(domain, take(table, of), receiver),
            table,
            of,
        ),
        Command::PublisherChannel {
            of,
            channel,
            connection,
            call,
        } => put_back(
            publisher_channel(domain, take(table, of), channel, connection, call),
            table,
            of,
        ),
        Command::SubscriberChannel { of, channel, call } => put_back(
            subscriber_channel(domain, take(table, of), channel, call),
            table,
            of,
        ),
        Command::Nothing => (Reply::Done, Made::Nothing),
    }
}

/// Carries out the commands on the domain, one after the other, and returns a reply for each.
///
/// Each subscriber receives a part of what each publisher sent in the run, in order and each message
/// once; each sample names its publisher, and each read gives what was sent. If each of the two types
/// has one default value alone, as `u64` and `()` have, the run uses that one throughout.
///
/// An uninitialised loan is granted wherever a command of the run asks for one of permitted length
/// from a publisher that waits for no receiver, has one segment and at least the slots that
/// `worst_case_slots` says for its limit of loans, while fewer loans than that limit are out and a
/// message number is left. That is said of services whose elements are one unit each
/// (`units_per_element`); on any other every loan, every value sent at once and every receive is skipped.
///
/// What the commands made is consumed at the end: ports stay in the domain, loans stay out, blocked
/// sends stay so and messages stay borrowed. The memory for the replies and for what the commands make
/// is taken first. If that fails the commands are handed back, and none was carried out. The same
/// happens if a command could be on cells that the domain doesn't hand out (`lacks_cells`), which is
/// never so where messages are single values. Elsewhere a list without commands, which needs no memory,
/// is carried out whatever the settings.
///
/// A publisher follows its strategy at a full buffer, or the backpressure handler that its command
/// names. It has as many slots in a segment as it needs, or as its command asks for. The domain may have
/// messages of either variant: those of `FixedSize` are single values, those of `Dynamic` slices.
pub fn run<T: Copy + Default + Drop, U: Copy + Default + Drop, F: BackpressureFn, G: DegradationFn>(
    alloc: Global,
    domain: &mut Domain<T, U, F, G>,
    commands: Vec<Command<T, U>>,
) -> Result<Vec<Reply<T, U>>, Vec<Command<T, U>>>
    ensures ran { IfOk result (λ replies. (m : Messages T U) (s : State T U) → Shows domain.old m s
        → (events : List (Event T U)) × (m' : Messages T U) × (s' : State T U) × Shows domain.new m' s'
        × Run fixed_handlers (defaults_of T.is_default U.is_default) m s commands.items replies.items events m' s'
        × IsFaithful commands.items replies.items events
        × GrantsLoans fixed_handlers (defaults_of T.is_default U.is_default) m s commands.items replies.items events m' s') }
    ensures one_default { IfOk result (λ replies. HasOneDefault (defaults_of T.is_default U.is_default)
        → (default_value : T) (default_header : U) → T.is_default default_value → U.is_default default_header
        → (m : Messages T U) (s : State T U) → Shows domain.old m s
        → RunsOnDomain (only_defaults default_value default_header) domain.new m s commands.items replies.items) }
    ensures stays { Stays domain.old domain.new }
    ensures refused { IfErr result (λ given. (given.items ≡ commands.items) × (domain.new ≡ domain.old)) }
    ensures lacks_cells { lacks_cells domain.old.config ≡ true → IsErr result }
    ensures has_cells { lacks_cells domain.old.config ≡ false → commands.items ≡ [] → IsOk result }
{
    if lacks_cells(domain.config()) {
        return Err(commands);
    }
    let Ok(mut replies) = Vec::with_capacity(alloc, commands.len()) else {
        return Err(commands);
    };
    let Ok(mut table) = Vec::with_capacity(alloc, commands.len()) else {
        return Err(commands);
    };
    // The proof of the loop rests on these facts: a step names default values, and what the table
    // has is live in a state that the domain shows.
    has_default::<T>();
    has_default::<U>();
    shows_a_state(domain);
    for command in &commands {
        let (reply, made) = carry_out(domain, &mut table, *command);
        replies.push_reserved(reply);
        table.push_reserved(made);
    }
    disown_all(table);
    Ok(replies)
}
