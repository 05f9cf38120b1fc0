//! The exports of sends.
ghost use Rattle.std.specs.Prelude.{◌≡◌};
ghost use Rattle.iox2_c.specs.Boxed.{Lifted};
ghost use Rattle.iox2_c.specs.Returns.{GiveUpReturns, RetryReturns, SendCopyReturns, SendReturns};

use crate::calls::sends;
use crate::domain_box::DomainBox;
use crate::numbers::{LoanNumbers, PublisherNumbers};
use crate::status::NO_DOMAIN;

/// Sends a message, and says how many subscribers took it or which send waits.
#[unsafe(no_mangle)]
pub extern "C" fn iox2ps_loan_send_counted(
    domain: &mut DomainBox,
    loan: &LoanNumbers,
    receivers: &mut usize,
    blocked: &mut LoanNumbers,
) -> u32
    ensures { Lifted ((receivers.new ≡ receivers.old) × (blocked.new ≡ blocked.old))
        (λ old new. SendReturns loan.now old new receivers.old receivers.new blocked.old blocked.new result)
        domain.old.service domain.new.service result }
{
    match domain.service() {
        Some(service) => sends::send(service, loan, receivers, blocked),
        None => NO_DOMAIN,
    }
}

/// Sends a copy of the bytes, and says how many subscribers took it or which send waits.
#[unsafe(no_mangle)]
pub extern "C" fn iox2ps_publisher_send_copy_counted(
    domain: &mut DomainBox,
    publisher: &PublisherNumbers,
    bytes: &[u8],
    receivers: &mut usize,
    blocked: &mut LoanNumbers,
) -> u32
    ensures { Lifted ((receivers.new ≡ receivers.old) × (blocked.new ≡ blocked.old))
        (λ old new. SendCopyReturns publisher.now bytes.now old new receivers.old receivers.new blocked.old
        blocked.new result)
        domain.old.service domain.new.service result }
{
    match domain.service() {
        Some(service) => sends::send_copy(service, publisher, bytes, receivers, blocked),
        None => NO_DOMAIN,
    }
}

/// Tries a send again that waits.
#[unsafe(no_mangle)]
pub extern "C" fn iox2ps_blocked_retry_counted(
    domain: &mut DomainBox,
    blocked: &LoanNumbers,
    elapsed: u64,
    receivers: &mut usize,
) -> u32
    ensures { Lifted (receivers.new ≡ receivers.old)
        (λ old new. RetryReturns blocked.now elapsed old new receivers.old receivers.new result)
        domain.old.service domain.new.service result }
{
    match domain.service() {
        Some(service) => sends::retry(service, blocked, elapsed, receivers),
        None => NO_DOMAIN,
    }
}

/// Gives up the subscriber for which a send waits.
#[unsafe(no_mangle)]
pub extern "C" fn iox2ps_blocked_give_up_counted(
    domain: &mut DomainBox,
    blocked: &LoanNumbers,
    receivers: &mut usize,
) -> u32
    ensures { Lifted (receivers.new ≡ receivers.old)
        (λ old new. GiveUpReturns blocked.now old new receivers.old receivers.new result)
        domain.old.service domain.new.service result }
{
    match domain.service() {
        Some(service) => sends::give_up(service, blocked, receivers),
        None => NO_DOMAIN,
    }
}
