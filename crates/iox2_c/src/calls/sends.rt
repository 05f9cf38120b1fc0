//! Sends, and those that wait.
ghost use Rattle.std.specs.Prelude.{◌≡◌, ◌<◌, IfOk};
ghost use Rattle.std.specs.declared.result.Result.{Result};
ghost use Rattle.iox2_machine.specs.declared.errors.SendError.{SendError};
ghost use Rattle.iox2_pubsub.specs.declared.send_outcome.SendOutcome.{SendOutcome};
ghost use Rattle.iox2_pubsub.specs.Live.{IsBlockedKey, IsReadyPublisher, StaysBut, blocked_key};
ghost use Rattle.iox2_pubsub.specs.Handles.{as_publisher, publisher_id};
ghost use Rattle.iox2_pubsub.specs.SendCalls.{IfBlocked, spent_by_copy};
ghost use Rattle.iox2_c.specs.Numbers.{named_loan};
ghost use Rattle.iox2_c.specs.Returns.{GiveUpReturns, RetryReturns, SendCopyReturns, SendReturns, TellsSent};
ghost use Rattle.iox2_c.specs.Serving.{IsOfBytes};
ghost use Rattle.iox2_c.specs.Steps.{SendsBytes};

use crate::calls::loans::written_loan;
use crate::calls::publishers::ready_publisher;
use crate::numbers::{LoanNumbers, PublisherNumbers};
use crate::recording::error_of;
use crate::service::{BytesDomain, Service};
use crate::status::{BLOCKED, NOT_LIVE, OK, PUBLISHER_IS_BLOCKED, send_status};
use iox2_pubsub::slice::Publisher;
use iox2_pubsub::{SendError, SendOutcome};
use std::time::Duration;

// The outcome of a send: its code, and how many took the message or the numbers of the send that waits.
fn tell(
    sent: Result<SendOutcome, SendError>,
    receivers: &mut usize,
    blocked: &mut LoanNumbers,
) -> u32
    ensures { TellsSent sent receivers.old receivers.new blocked.old blocked.new result }
{
    match sent {
        Ok(SendOutcome::Delivered(count)) => {
            *receivers = count;
            OK
        }
        Ok(SendOutcome::Blocked(waiting)) => {
            *blocked = LoanNumbers::of(waiting.into_parts());
            BLOCKED
        }
        Err(error) => send_status(error),
    }
}

/// The same of the loan with these numbers, which a send that waits has too: no number of its handle is
/// kept for that.
#[inline(always)]
pub(crate) fn tell_of(
    sent: Result<SendOutcome, SendError>,
    numbers: &LoanNumbers,
    receivers: &mut usize,
    blocked: &mut LoanNumbers,
) -> u32
    requires named { IfOk sent (λ outcome. IfBlocked outcome (λ it. blocked_key it ≡ named_loan numbers.now)) }
    ensures { TellsSent sent receivers.old receivers.new blocked.old blocked.new result }
{
    match sent {
        Ok(SendOutcome::Delivered(count)) => {
            *receivers = count;
            OK
        }
        Ok(SendOutcome::Blocked(waiting)) => {
            waiting.disown();
            *blocked = *numbers;
            BLOCKED
        }
        Err(error) => send_status(error),
    }
}

/// Sends a loan, and says how many subscribers took it.
pub fn send(
    service: &mut Service,
    numbers: &LoanNumbers,
    receivers: &mut usize,
    blocked: &mut LoanNumbers,
) -> u32
    ensures { SendReturns numbers.now service.old service.new receivers.old receivers.new blocked.old blocked.new result }
{
    if service.recording.is_on() {
        return send_recorded(service, numbers, receivers, blocked);
    }
    match service.domain.sends_at_once(&numbers.parts()) {
        Some(book) => send_named(service, numbers, book, receivers, blocked),
        None => send_elsewhere(service, numbers, receivers, blocked),
    }
}

// The same. The loan is looked for in this book first. What was found before of the loan, and of its
// publisher, isn't tested again here.
#[inline(always)]
fn send_named(
    service: &mut Service,
    numbers: &LoanNumbers,
    book: usize,
    receivers: &mut usize,
    blocked: &mut LoanNumbers,
) -> u32
    ensures { SendReturns numbers.now service.old service.new receivers.old receivers.new blocked.old blocked.new result }
{
    let Some(loan) = written_loan(&service.domain, numbers, book) else {
        return NOT_LIVE;
    };
    if loan.is_blocked(&service.domain) {
        loan.disown();
        return PUBLISHER_IS_BLOCKED;
    }
    let sent = loan.send(&mut service.domain);
    tell_of(sent, numbers, receivers, blocked)
}

// The same, where the loan is sought (docs/DECISIONS.md, "A call by right numbers has a way of its own").
#[cold]
#[inline(never)]
fn send_elsewhere(
    service: &mut Service,
    numbers: &LoanNumbers,
    receivers: &mut usize,
    blocked: &mut LoanNumbers,
) -> u32
    ensures { SendReturns numbers.now service.old service.new receivers.old receivers.new blocked.old blocked.new result }
{
    send_named(service, numbers, numbers.book, receivers, blocked)
}

// The same, and it is recorded.
#[cold]
#[inline(never)]
fn send_recorded(
    service: &mut Service,
    numbers: &LoanNumbers,
    receivers: &mut usize,
    blocked: &mut LoanNumbers,
) -> u32
    ensures { SendReturns numbers.now service.old service.new receivers.old receivers.new blocked.old blocked.new result }
{
    let mut failed = None;
    let code = send_with_bytes(service, numbers, receivers, blocked, &mut failed);
    service.recording.sent(numbers, code, *receivers, failed);
    code
}

// The same, of which the bytes are recorded where it is sent, and why it failed, if it did.
#[inline(always)]
fn send_with_bytes(
    service: &mut Service,
    numbers: &LoanNumbers,
    receivers: &mut usize,
    blocked: &mut LoanNumbers,
    failed: &mut Option<SendError>,
) -> u32
    ensures { SendReturns numbers.now service.old service.new receivers.old receivers.new blocked.old blocked.new result }
{
    let Some(loan) = written_loan(&service.domain, numbers, numbers.book) else {
        return NOT_LIVE;
    };
    if loan.is_blocked(&service.domain) {
        loan.disown();
        return PUBLISHER_IS_BLOCKED;
    }
    let bytes = loan.payload(&service.domain);
    service.recording.written(numbers, bytes);
    let sent = loan.send(&mut service.domain);
    *failed = error_of(&sent);
    tell_of(sent, numbers, receivers, blocked)
}

/// Sends a copy of the bytes, and says how many subscribers took it.
pub fn send_copy(
    service: &mut Service,
    numbers: &PublisherNumbers,
    bytes: &[u8],
    receivers: &mut usize,
    blocked: &mut LoanNumbers,
) -> u32
    ensures { SendCopyReturns numbers.now bytes.now service.old service.new receivers.old receivers.new blocked.old blocked.new result }
{
    let publisher = match ready_publisher(&service.domain, numbers) {
        Ok(publisher) => publisher,
        Err(code) => {
            service
                .recording
                .sent_copy(numbers, bytes, blocked, code, 0, None);
            return code;
        }
    };
    let sent = send_bytes(&mut service.domain, &publisher, bytes);
    publisher.disown();
    let failed = error_of(&sent);
    let code = tell(sent, receivers, blocked);
    service
        .recording
        .sent_copy(numbers, bytes, blocked, code, *receivers, failed);
    code
}

// Lends a loan, writes the bytes there and sends it.
fn send_bytes(
    domain: &mut BytesDomain,
    publisher: &Publisher,
    bytes: &[u8],
) -> Result<SendOutcome, SendError>
    requires ready { IsReadyPublisher domain.old (as_publisher publisher.now) }
    requires bytes { IsOfBytes domain.old }
    ensures sends { SendsBytes domain.old domain.new (publisher_id (as_publisher publisher.now)) bytes.now result }
    ensures waits { IfOk result (λ outcome. IfBlocked outcome (λ it. IsBlockedKey domain.new (blocked_key it))) }
    ensures stays { StaysBut (spent_by_copy (as_publisher publisher.now) result) domain.old domain.new }
{
    match publisher.loan_slice_uninit(domain, bytes.len()) {
        Ok(loan) => loan.write_from_slice(domain, bytes).send(domain),
        Err(error) => Err(SendError::LoanError(error)),
    }
}

/// Tries a send again that waits.
pub fn retry(
    service: &mut Service,
    numbers: &LoanNumbers,
    elapsed: u64,
    receivers: &mut usize,
) -> u32
    ensures { RetryReturns numbers.now elapsed service.old service.new receivers.old receivers.new result }
{
    let Some(waiting) = service.domain.blocked_of(&numbers.parts()) else {
        service
            .recording
            .retried(numbers, elapsed, NOT_LIVE, 0, None);
        return NOT_LIVE;
    };
    let mut still = *numbers;
    let end = waiting.retry(&mut service.domain, Duration::from_nanos(elapsed));
    let failed = error_of(&end);
    let code = tell(end, receivers, &mut still);
    service
        .recording
        .retried(numbers, elapsed, code, *receivers, failed);
    code
}

/// Gives up the subscriber for which a send waits.
pub fn give_up(service: &mut Service, numbers: &LoanNumbers, receivers: &mut usize) -> u32
    ensures { GiveUpReturns numbers.now service.old service.new receivers.old receivers.new result }
{
    let Some(waiting) = service.domain.blocked_of(&numbers.parts()) else {
        service.recording.given_up(numbers, NOT_LIVE, 0, None);
        return NOT_LIVE;
    };
    let mut still = *numbers;
    let end = waiting.give_up(&mut service.domain);
    let failed = error_of(&end);
    let code = tell(end, receivers, &mut still);
    service
        .recording
        .given_up(numbers, code, *receivers, failed);
    code
}
