//! Commands that have a publisher lend, or send a copy.
ghost use Rattle.iox2_machine.specs.machine.Environments.{fixed_handlers};
ghost use Rattle.iox2_runs.specs.Carries.{defaults_of};
ghost use Rattle.iox2_runs.specs.Turns.{IsLiveEntry, Turns};
ghost use Rattle.iox2_commands.specs.declared.command.Command.TheVariants.{LoanUninit, Loan, SendCopy, LoanSlice};

use super::made::{Made, Turn};
use super::ready::ready_publisher;
use super::send_replies::send_reply;
use super::services::{has_slices, is_single_valued};
use iox2_commands::Reply;
use iox2_machine::{BackpressureFn, DegradationFn};
use iox2_pubsub::{Domain, slice};

/// Asks the publisher for a loan of a single value.
pub(crate) fn loan_uninit<
    T: Default + Drop,
    U: Default + Drop,
    F: BackpressureFn,
    G: DegradationFn,
>(domain: &mut Domain<T, U, F, G>, held: Made) -> Turn<T, U>
    requires { IsLiveEntry domain.old held }
    ensures { Turns fixed_handlers (defaults_of T.is_default U.is_default) domain.old domain.new held LoanUninit result }
{
    if !is_single_valued(domain) {
        return (Reply::Skipped, held, Made::Nothing);
    }
    match ready_publisher(domain, held) {
        Ok(publisher) => match publisher.loan_uninit(domain) {
            Ok(loan) => (
                Reply::Loaned,
                Made::Publisher(publisher),
                Made::Unwritten(loan),
            ),
            Err(error) => (
                Reply::LoanRefused(error),
                Made::Publisher(publisher),
                Made::Nothing,
            ),
        },
        Err(other) => (Reply::Skipped, other, Made::Nothing),
    }
}

/// Asks the publisher for a loan of a default value.
pub(crate) fn loan<T: Default + Drop, U: Default + Drop, F: BackpressureFn, G: DegradationFn>(
    domain: &mut Domain<T, U, F, G>,
    held: Made,
) -> Turn<T, U>
    requires { IsLiveEntry domain.old held }
    ensures { Turns fixed_handlers (defaults_of T.is_default U.is_default) domain.old domain.new held Loan result }
{
    if !is_single_valued(domain) {
        return (Reply::Skipped, held, Made::Nothing);
    }
    match ready_publisher(domain, held) {
        Ok(publisher) => match publisher.loan(domain) {
            Ok(loan) => (
                Reply::Loaned,
                Made::Publisher(publisher),
                Made::Written(loan),
            ),
            Err(error) => (
                Reply::LoanRefused(error),
                Made::Publisher(publisher),
                Made::Nothing,
            ),
        },
        Err(other) => (Reply::Skipped, other, Made::Nothing),
    }
}

/// Asks the publisher for a loan of a slice of that length.
pub(crate) fn loan_slice<T: Default + Drop, U: Default + Drop, F: BackpressureFn, G: DegradationFn>(
    domain: &mut Domain<T, U, F, G>,
    held: Made,
    len: usize,
) -> Turn<T, U>
    requires { IsLiveEntry domain.old held }
    ensures { Turns fixed_handlers (defaults_of T.is_default U.is_default) domain.old domain.new held (λ of. LoanSlice of len) result }
{
    if !has_slices(domain) {
        return (Reply::Skipped, held, Made::Nothing);
    }
    match ready_publisher(domain, held) {
        Ok(publisher) => {
            let publisher = slice::Publisher::new(publisher);
            match publisher.loan_slice_uninit(domain, len) {
                Ok(loan) => (
                    Reply::Loaned,
                    Made::Publisher(publisher.into_inner()),
                    Made::Unwritten(loan.into_inner()),
                ),
                Err(error) => (
                    Reply::LoanRefused(error),
                    Made::Publisher(publisher.into_inner()),
                    Made::Nothing,
                ),
            }
        }
        Err(other) => (Reply::Skipped, other, Made::Nothing),
    }
}

/// Sends the value with the publisher, and makes the blocked send, if it is blocked.
pub(crate) fn send_copy<T: Default + Drop, U: Default + Drop, F: BackpressureFn, G: DegradationFn>(
    domain: &mut Domain<T, U, F, G>,
    held: Made,
    value: T,
) -> Turn<T, U>
    requires { IsLiveEntry domain.old held }
    ensures { Turns fixed_handlers (defaults_of T.is_default U.is_default) domain.old domain.new held (λ of. SendCopy of value) result }
{
    if !is_single_valued(domain) {
        return (Reply::Skipped, held, Made::Nothing);
    }
    match ready_publisher(domain, held) {
        Ok(publisher) => {
            let (reply, made) = send_reply(publisher.send_copy(domain, value));
            (reply, Made::Publisher(publisher), made)
        }
        Err(other) => (Reply::Skipped, other, Made::Nothing),
    }
}
