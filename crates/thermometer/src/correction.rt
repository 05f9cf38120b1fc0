//! Readings are changed where they lie.
ghost use Rattle.iox2_pubsub.specs.Live.{IsSingleValued, NeverWaitsUnwritten, IsWrittenLoan, StaysBut, unwritten_loan};
ghost use Rattle.thermometer.specs.Changes.{ChangesLoan};

use crate::failure::Failure;
use crate::reading::Reading;
use iox2_pubsub::{Domain, SampleMut, SampleMutUninit};

/// Writes a reading into the loan, replaces it where it lies, and sends it.
pub fn send_corrected(
    domain: &mut Domain<Reading, ()>,
    loan: SampleMutUninit,
    celsius: u32,
    corrected: u32,
) -> Result<(), Failure>
    requires single_valued { IsSingleValued domain.old }
    requires loan { NeverWaitsUnwritten domain.old loan }
    ensures { StaysBut (unwritten_loan loan) domain.old domain.new }
{
    let mut message = loan.write_payload(domain, Reading { celsius });
    *SampleMut::payload_mut(domain, &mut message) = Reading { celsius: corrected };
    message.send(domain)?.delivered();
    Ok(())
}

/// Raises a written reading where it lies, if it is below a bound, and says what it is then.
pub fn raise(domain: &mut Domain<Reading, ()>, message: &mut SampleMut, least: u32) -> u32
    requires single_valued { IsSingleValued domain.old }
    requires message { IsWrittenLoan domain.old message.old }
    ensures changes { ChangesLoan domain.old domain.new message.old message.new }
{
    let reading = SampleMut::payload_mut(domain, message);
    if reading.celsius < least {
        reading.celsius = least;
    }
    message.payload(domain).celsius
}
