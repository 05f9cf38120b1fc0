//! The export of sends to one connection.
ghost use Rattle.std.specs.Prelude.{◌≡◌};
ghost use Rattle.iox2_c.specs.Boxed.{Lifted};
ghost use Rattle.iox2_c.specs.ConnectionSends.{SendToReturns};

use crate::calls::connection_sends;
use crate::domain_box::DomainBox;
use crate::numbers::LoanNumbers;
use crate::status::NO_DOMAIN;

/// Sends a message into one channel of one connection, and says how many subscribers took it or which
/// send waits.
#[unsafe(no_mangle)]
pub extern "C" fn iox2ps_loan_deliver_offset_to_connection_counted(
    domain: &mut DomainBox,
    loan: &LoanNumbers,
    channel: usize,
    connection: usize,
    receivers: &mut usize,
    blocked: &mut LoanNumbers,
) -> u32
    ensures { Lifted ((receivers.new ≡ receivers.old) × (blocked.new ≡ blocked.old))
        (λ old new. SendToReturns loan.now channel connection old new receivers.old receivers.new
        blocked.old blocked.new result)
        domain.old.service domain.new.service result }
{
    match domain.service() {
        Some(service) => connection_sends::send_to(
            service, loan, channel, connection, receivers, blocked,
        ),
        None => NO_DOMAIN,
    }
}
