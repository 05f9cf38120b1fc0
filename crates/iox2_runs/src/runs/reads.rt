//! Commands that read a message or a loan.
ghost use Rattle.std.specs.Prelude.{◌≡◌, Some};
ghost use Rattle.std.specs.Option.{option_map_or};
ghost use Rattle.iox2_commands.specs.declared.reply.Reply.TheVariants.{Cell, Skipped};
ghost use Rattle.iox2_machine.specs.machine.Environments.{fixed_handlers};
ghost use Rattle.iox2_runs.specs.Carries.{defaults_of};
ghost use Rattle.iox2_runs.specs.Turns.{IsLiveEntry, Turns};
ghost use Rattle.iox2_commands.specs.declared.command.Command.TheVariants.{Read, ReadHeader, ReadUserHeader};

use super::cells::{received_value, unwritten_cell, written_value};
use super::made::{Made, Turn};
use iox2_commands::Reply;
use iox2_machine::{BackpressureFn, DegradationFn};
use iox2_pubsub::Domain;

/// Reads a value of the sample, or a cell of the loan.
pub(crate) fn read<
    T: Copy + Default + Drop,
    U: Default + Drop,
    F: BackpressureFn,
    G: DegradationFn,
>(domain: &Domain<T, U, F, G>, held: Made, at: usize) -> Turn<T, U>
    requires { IsLiveEntry domain.now held }
    ensures { Turns fixed_handlers (defaults_of T.is_default U.is_default) domain.now domain.now held (λ of. Read of at) result }
{
    match held {
        Made::Unwritten(loan) => {
            let (cell, loan) = unwritten_cell(domain, loan, at);
            (cell_reply(cell), Made::Unwritten(loan), Made::Nothing)
        }
        Made::Written(loan) => {
            let (value, loan) = written_value(domain, loan, at);
            (value_reply(value), Made::Written(loan), Made::Nothing)
        }
        Made::Sample(sample) => {
            let (value, sample) = received_value(domain, sample, at);
            (value_reply(value), Made::Sample(sample), Made::Nothing)
        }
        other => (Reply::Skipped, other, Made::Nothing),
    }
}

// What a read of a cell replies.
fn cell_reply<T: Drop, U>(cell: Option<Option<T>>) -> Reply<T, U>
    ensures { result ≡ option_map_or (λ it. Cell it) cell Skipped }
{
    match cell {
        Some(cell) => Reply::Cell(cell),
        None => Reply::Skipped,
    }
}

// What a read of a value replies.
fn value_reply<T: Drop, U>(value: Option<T>) -> Reply<T, U>
    ensures { result ≡ option_map_or (λ it. Cell (Some it)) value Skipped }
{
    match value {
        Some(value) => Reply::Cell(Some(value)),
        None => Reply::Skipped,
    }
}

/// Reads the header of the sample or the loan.
pub(crate) fn read_header<
    T: Default + Drop,
    U: Default + Drop,
    F: BackpressureFn,
    G: DegradationFn,
>(domain: &Domain<T, U, F, G>, held: Made) -> Turn<T, U>
    requires { IsLiveEntry domain.now held }
    ensures { Turns fixed_handlers (defaults_of T.is_default U.is_default) domain.now domain.now held ReadHeader result }
{
    match held {
        Made::Unwritten(loan) => {
            let reply = Reply::Header(*loan.header(domain));
            (reply, Made::Unwritten(loan), Made::Nothing)
        }
        Made::Written(loan) => {
            let reply = Reply::Header(*loan.header(domain));
            (reply, Made::Written(loan), Made::Nothing)
        }
        Made::Sample(sample) => {
            let reply = Reply::Header(*sample.header(domain));
            (reply, Made::Sample(sample), Made::Nothing)
        }
        other => (Reply::Skipped, other, Made::Nothing),
    }
}

/// Reads the user header of the sample or the loan.
pub(crate) fn read_user_header<
    T: Default + Drop,
    U: Copy + Default + Drop,
    F: BackpressureFn,
    G: DegradationFn,
>(domain: &Domain<T, U, F, G>, held: Made) -> Turn<T, U>
    requires { IsLiveEntry domain.now held }
    ensures { Turns fixed_handlers (defaults_of T.is_default U.is_default) domain.now domain.now held ReadUserHeader result }
{
    match held {
        Made::Unwritten(loan) => {
            let reply = Reply::UserHeader(*loan.user_header(domain));
            (reply, Made::Unwritten(loan), Made::Nothing)
        }
        Made::Written(loan) => {
            let reply = Reply::UserHeader(*loan.user_header(domain));
            (reply, Made::Written(loan), Made::Nothing)
        }
        Made::Sample(sample) => {
            let reply = Reply::UserHeader(*sample.user_header(domain));
            (reply, Made::Sample(sample), Made::Nothing)
        }
        other => (Reply::Skipped, other, Made::Nothing),
    }
}
