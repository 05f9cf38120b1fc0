//! Commands that change a loan that is out.
ghost use Rattle.std.specs.Prelude.{◌≡◌, cond};
ghost use Rattle.iox2_machine.specs.machine.Environments.{fixed_handlers};
ghost use Rattle.iox2_runs.specs.Carries.{defaults_of};
ghost use Rattle.iox2_runs.specs.Turns.{IsLiveEntry, Turns};
ghost use Rattle.iox2_commands.specs.declared.command.Command.TheVariants.{AssumeInit, SetPayload, WriteCell, WriteHeader, WriteAll};
ghost use Rattle.iox2_commands.specs.declared.reply.Reply.TheVariants.{Done, Skipped};

use super::cells::{set_value_at, write_cell_at, write_cells};
use super::made::{Made, Turn};
use iox2_commands::Reply;
use iox2_machine::{BackpressureFn, DegradationFn};
use iox2_pubsub::{Domain, SampleMut, SampleMutUninit};

/// Writes a cell of the unwritten loan.
pub(crate) fn write_cell<T: Default + Drop, U: Default + Drop, F: BackpressureFn, G: DegradationFn>(
    domain: &mut Domain<T, U, F, G>,
    held: Made,
    at: usize,
    value: T,
) -> Turn<T, U>
    requires { IsLiveEntry domain.old held }
    ensures { Turns fixed_handlers (defaults_of T.is_default U.is_default) domain.old domain.new held (λ of. WriteCell of at value) result }
{
    match held {
        Made::Unwritten(loan) => {
            let (is_there, loan) = write_cell_at(domain, loan, at, value);
            (done_if(is_there), Made::Unwritten(loan), Made::Nothing)
        }
        other => (Reply::Skipped, other, Made::Nothing),
    }
}

/// Changes a value of the written loan.
pub(crate) fn set_payload<
    T: Default + Drop,
    U: Default + Drop,
    F: BackpressureFn,
    G: DegradationFn,
>(domain: &mut Domain<T, U, F, G>, held: Made, at: usize, value: T) -> Turn<T, U>
    requires { IsLiveEntry domain.old held }
    ensures { Turns fixed_handlers (defaults_of T.is_default U.is_default) domain.old domain.new held (λ of. SetPayload of at value) result }
{
    match held {
        Made::Written(loan) => {
            let (is_there, loan) = set_value_at(domain, loan, at, value);
            (done_if(is_there), Made::Written(loan), Made::Nothing)
        }
        other => (Reply::Skipped, other, Made::Nothing),
    }
}

// What a write of a cell replies.
fn done_if<T, U>(is_there: bool) -> Reply<T, U>
    ensures { result ≡ cond is_there Done Skipped }
{
    if is_there {
        Reply::Done
    } else {
        Reply::Skipped
    }
}

/// Writes each cell of the loan.
pub(crate) fn write_all<
    T: Copy + Default + Drop,
    U: Default + Drop,
    F: BackpressureFn,
    G: DegradationFn,
>(domain: &mut Domain<T, U, F, G>, held: Made, value: T) -> Turn<T, U>
    requires { IsLiveEntry domain.old held }
    ensures { Turns fixed_handlers (defaults_of T.is_default U.is_default) domain.old domain.new held (λ of. WriteAll of value) result }
{
    match held {
        Made::Unwritten(loan) => {
            let loan = write_cells(domain, loan, value);
            (Reply::Done, Made::Written(loan), Made::Nothing)
        }
        other => (Reply::Skipped, other, Made::Nothing),
    }
}

/// Writes the user header of the loan.
pub(crate) fn write_header<
    T: Default + Drop,
    U: Default + Drop,
    F: BackpressureFn,
    G: DegradationFn,
>(domain: &mut Domain<T, U, F, G>, held: Made, value: U) -> Turn<T, U>
    requires { IsLiveEntry domain.old held }
    ensures { Turns fixed_handlers (defaults_of T.is_default U.is_default) domain.old domain.new held (λ of. WriteHeader of value) result }
{
    match held {
        Made::Unwritten(mut loan) => {
            *SampleMutUninit::user_header_mut(domain, &mut loan) = value;
            (Reply::Done, Made::Unwritten(loan), Made::Nothing)
        }
        Made::Written(mut loan) => {
            *SampleMut::user_header_mut(domain, &mut loan) = value;
            (Reply::Done, Made::Written(loan), Made::Nothing)
        }
        other => (Reply::Skipped, other, Made::Nothing),
    }
}

/// Takes the loan as written, if each of its cells is.
pub(crate) fn assume_init<
    T: Default + Drop,
    U: Default + Drop,
    F: BackpressureFn,
    G: DegradationFn,
>(domain: &mut Domain<T, U, F, G>, held: Made) -> Turn<T, U>
    requires { IsLiveEntry domain.old held }
    ensures { Turns fixed_handlers (defaults_of T.is_default U.is_default) domain.old domain.new held AssumeInit result }
{
    match held {
        Made::Unwritten(loan) => match loan.assume_init(domain) {
            Ok(loan) => (Reply::Done, Made::Written(loan), Made::Nothing),
            Err(loan) => (Reply::Unwritten, Made::Unwritten(loan), Made::Nothing),
        },
        other => (Reply::Skipped, other, Made::Nothing),
    }
}
