//! Commands that spend what one before them made.
ghost use Rattle.iox2_machine.specs.machine.Environments.{fixed_handlers};
ghost use Rattle.iox2_runs.specs.Carries.{defaults_of};
ghost use Rattle.iox2_runs.specs.Turns.{IsLiveEntry, Turns};
ghost use Rattle.iox2_commands.specs.declared.command.Command.TheVariants.{Send, Discard, Retry, GiveUp, Release, Close};

use super::made::{Made, Turn};
use super::ready::ready_publisher;
use super::send_replies::send_reply;
use iox2_commands::Reply;
use iox2_machine::{BackpressureFn, DegradationFn};
use iox2_pubsub::Domain;
use std::time::Duration;

/// Sends the loan, and makes the blocked send, if it is blocked.
pub(crate) fn send<T: Default + Drop, U: Default + Drop, F: BackpressureFn, G: DegradationFn>(
    domain: &mut Domain<T, U, F, G>,
    held: Made,
) -> Turn<T, U>
    requires { IsLiveEntry domain.old held }
    ensures { Turns fixed_handlers (defaults_of T.is_default U.is_default) domain.old domain.new held Send result }
{
    match held {
        Made::Written(loan) => {
            if loan.is_blocked(domain) {
                return (Reply::Skipped, Made::Written(loan), Made::Nothing);
            }
            let (reply, made) = send_reply(loan.send(domain));
            (reply, Made::Nothing, made)
        }
        other => (Reply::Skipped, other, Made::Nothing),
    }
}

/// Gives back the loan.
pub(crate) fn discard<T: Default + Drop, U: Default + Drop, F: BackpressureFn, G: DegradationFn>(
    domain: &mut Domain<T, U, F, G>,
    held: Made,
) -> Turn<T, U>
    requires { IsLiveEntry domain.old held }
    ensures { Turns fixed_handlers (defaults_of T.is_default U.is_default) domain.old domain.new held Discard result }
{
    match held {
        Made::Unwritten(loan) => {
            loan.discard(domain);
            (Reply::Done, Made::Nothing, Made::Nothing)
        }
        Made::Written(loan) => {
            loan.discard(domain);
            (Reply::Done, Made::Nothing, Made::Nothing)
        }
        other => (Reply::Skipped, other, Made::Nothing),
    }
}

/// Tries the blocked send again. It keeps its position if it is blocked again.
pub(crate) fn retry<T: Default + Drop, U: Default + Drop, F: BackpressureFn, G: DegradationFn>(
    domain: &mut Domain<T, U, F, G>,
    held: Made,
    elapsed: Duration,
) -> Turn<T, U>
    requires { IsLiveEntry domain.old held }
    ensures { Turns fixed_handlers (defaults_of T.is_default U.is_default) domain.old domain.new held (λ of. Retry of elapsed) result }
{
    match held {
        Made::Blocked(blocked) => {
            let (reply, kept) = send_reply(blocked.retry(domain, elapsed));
            (reply, kept, Made::Nothing)
        }
        other => (Reply::Skipped, other, Made::Nothing),
    }
}

/// Gives up the receiver that the blocked send waits for. The send keeps its position if it is
/// blocked at a later one.
pub(crate) fn give_up<T: Default + Drop, U: Default + Drop, F: BackpressureFn, G: DegradationFn>(
    domain: &mut Domain<T, U, F, G>,
    held: Made,
) -> Turn<T, U>
    requires { IsLiveEntry domain.old held }
    ensures { Turns fixed_handlers (defaults_of T.is_default U.is_default) domain.old domain.new held GiveUp result }
{
    match held {
        Made::Blocked(blocked) => {
            let (reply, kept) = send_reply(blocked.give_up(domain));
            (reply, kept, Made::Nothing)
        }
        other => (Reply::Skipped, other, Made::Nothing),
    }
}

/// Releases the sample.
pub(crate) fn release<T: Default + Drop, U: Default + Drop, F: BackpressureFn, G: DegradationFn>(
    domain: &mut Domain<T, U, F, G>,
    held: Made,
) -> Turn<T, U>
    requires { IsLiveEntry domain.old held }
    ensures { Turns fixed_handlers (defaults_of T.is_default U.is_default) domain.old domain.new held Release result }
{
    match held {
        Made::Sample(sample) => {
            sample.release(domain);
            (Reply::Done, Made::Nothing, Made::Nothing)
        }
        other => (Reply::Skipped, other, Made::Nothing),
    }
}

/// Closes the port, unless it is a publisher that waits for a receiver.
pub(crate) fn close<T: Default + Drop, U: Default + Drop, F: BackpressureFn, G: DegradationFn>(
    domain: &mut Domain<T, U, F, G>,
    held: Made,
) -> Turn<T, U>
    requires { IsLiveEntry domain.old held }
    ensures { Turns fixed_handlers (defaults_of T.is_default U.is_default) domain.old domain.new held Close result }
{
    match held {
        Made::Subscriber(subscriber) => {
            subscriber.close(domain);
            (Reply::Done, Made::Nothing, Made::Nothing)
        }
        other => match ready_publisher(domain, other) {
            Ok(publisher) => {
                publisher.close(domain);
                (Reply::Done, Made::Nothing, Made::Nothing)
            }
            Err(other) => (Reply::Skipped, other, Made::Nothing),
        },
    }
}
