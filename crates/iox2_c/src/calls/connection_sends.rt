//! Sends to one connection.
ghost use Rattle.std.specs.Prelude.{◌≡◌};
ghost use Rattle.iox2_c.specs.ConnectionSends.{SendToReturns};

use crate::calls::channels::has_channel;
use crate::calls::loans::written_loan;
use crate::calls::sends::tell_of;
use crate::numbers::LoanNumbers;
use crate::recording::error_of;
use crate::service::Service;
use crate::status::{NO_SUCH_CHANNEL, NOT_LIVE, PUBLISHER_IS_BLOCKED};

/// Sends a loan into one channel of the connection at a place of its publisher, and says how many
/// subscribers took it.
pub fn send_to(
    service: &mut Service,
    numbers: &LoanNumbers,
    channel: usize,
    connection: usize,
    receivers: &mut usize,
    blocked: &mut LoanNumbers,
) -> u32
    ensures { SendToReturns numbers.now channel connection service.old service.new receivers.old receivers.new blocked.old blocked.new result }
{
    record_bytes_into(service, numbers, channel);
    let Some(loan) = written_loan(&service.domain, numbers, numbers.book) else {
        service
            .recording
            .sent_to(numbers, channel, connection, NOT_LIVE, 0, None);
        return NOT_LIVE;
    };
    if !has_channel(&service.domain, channel) {
        loan.disown();
        service
            .recording
            .sent_to(numbers, channel, connection, NO_SUCH_CHANNEL, 0, None);
        return NO_SUCH_CHANNEL;
    }
    if loan.is_blocked(&service.domain) {
        loan.disown();
        service.recording.sent_to(numbers, channel, connection, PUBLISHER_IS_BLOCKED, 0, None);
        return PUBLISHER_IS_BLOCKED;
    }
    let sent = loan.deliver_offset_to_connection(&mut service.domain, channel, connection);
    let failed = error_of(&sent);
    let code = tell_of(sent, numbers, receivers, blocked);
    service
        .recording
        .sent_to(numbers, channel, connection, code, *receivers, failed);
    code
}

// Records the bytes of a loan, if anything is recorded, and the channel is there into which it is to be sent.
#[inline(always)]
fn record_bytes_into(service: &mut Service, numbers: &LoanNumbers, channel: usize)
    ensures { service.new ≡ service.old }
{
    if service.recording.is_on() && has_channel(&service.domain, channel) {
        record_bytes(service, numbers);
    }
}

// Records them, unless no such loan is out or a send of its publisher waits: it isn't sent then.
#[cold]
#[inline(never)]
fn record_bytes(service: &mut Service, numbers: &LoanNumbers)
    ensures { service.new ≡ service.old }
{
    if let Some(loan) = written_loan(&service.domain, numbers, numbers.book) {
        if !loan.is_blocked(&service.domain) {
            let bytes = loan.payload(&service.domain);
            service.recording.written(numbers, bytes);
        }
        loan.disown();
    }
}
