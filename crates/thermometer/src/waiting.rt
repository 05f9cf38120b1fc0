//! Loans are changed while readings wait. Each message has the number of its sensor in its user
//! header.
ghost use Rattle.std.specs.Prelude.{◌≡◌, ℕ, suc, IfOk, IfSome, OnOk, OnSome};
ghost use Rattle.iox2_pubsub.specs.Leaves.{LeavesBut};
ghost use Rattle.iox2_pubsub.specs.declared.Header.{Header};
ghost use Rattle.iox2_pubsub.specs.Live.{AreAll, IsLiveSubscriber, IsSingleValued, NeverWaitsUnwritten, IsUpToDate};
ghost use Rattle.iox2_pubsub.specs.Live.{IsWrittenLoan, LoanHasHeader, LoanHasUserHeader, LoanReads, payloads};
ghost use Rattle.iox2_pubsub.specs.Live.{unwritten_key, unwritten_loan, waiting, written_key};
ghost use Rattle.thermometer.specs.Changes.{ChangesLoan, SensorStays};

use crate::failure::Failure;
use crate::reading::Reading;
use iox2_pubsub::{Domain, SampleMut, SampleMutUninit, Subscriber};

/// Replaces a written reading where it lies. It is of the same sensor as before, and what waits still
/// does.
pub fn replace(domain: &mut Domain<Reading, u32>, message: &mut SampleMut, celsius: u32)
    requires single_valued { IsSingleValued domain.old }
    requires message { IsWrittenLoan domain.old message.old }
    ensures changes { ChangesLoan domain.old domain.new message.old message.new }
    ensures reads { LoanReads domain.new message.new (record { celsius = celsius }) }
    ensures header { (header : Header) → LoanHasHeader domain.old (written_key message.old) header → LoanHasHeader domain.new (written_key message.new) header }
    ensures sensor { SensorStays domain.old domain.new (written_key message.old) (written_key message.new) }
{
    *SampleMut::payload_mut(domain, message) = Reading { celsius };
}

/// Replaces a written reading, and receives the next that waits for a display: one that waited
/// before. The written one is of the same sensor as before. Returns the temperature that was received.
pub fn replace_and_receive(
    domain: &mut Domain<Reading, u32>,
    display: &Subscriber,
    message: &mut SampleMut,
    celsius: u32,
) -> Result<Option<u32>, Failure>
    requires single_valued { IsSingleValued domain.old }
    requires message { IsWrittenLoan domain.old message.old }
    requires display { IsLiveSubscriber domain.old display.now }
    requires up_to_date { IsUpToDate domain.old display.now }
    ensures waited { (reading : ℕ) → AreAll (payloads domain.old display.now) (record { celsius = reading })
        → IfOk result (λ received. IfSome received (λ it. it ≡ reading)) }
    ensures one_fewer { IfOk result (λ received. OnSome received (suc (waiting domain.new display.now) ≡ waiting domain.old display.now)) }
    ensures up_to_date { OnOk result (IsUpToDate domain.new display.now) }
    ensures sensor { SensorStays domain.old domain.new (written_key message.old) (written_key message.new) }
    ensures live { IsWrittenLoan domain.new message.new }
{
    replace(domain, message, celsius);
    let Some(sample) = display.receive(domain)? else {
        return Ok(None);
    };
    let received = sample.payload(domain).celsius;
    sample.release(domain);
    Ok(Some(received))
}

/// Says which sensor a written reading is of. The reading is the same as before, and what waits still
/// does.
pub fn label(domain: &mut Domain<Reading, u32>, message: &mut SampleMut, sensor: u32)
    requires message { IsWrittenLoan domain.old message.old }
    ensures changes { ChangesLoan domain.old domain.new message.old message.new }
    ensures reads { (celsius : ℕ) → LoanReads domain.old message.old (record { celsius = celsius })
        → LoanReads domain.new message.new (record { celsius = celsius }) }
    ensures header { (header : Header) → LoanHasHeader domain.old (written_key message.old) header → LoanHasHeader domain.new (written_key message.new) header }
    ensures sensor { LoanHasUserHeader domain.new (written_key message.new) sensor }
{
    *SampleMut::user_header_mut(domain, message) = sensor;
}

/// Writes a sensor's number and its reading into a loan where they lie, and takes the loan as
/// written. What waits still does.
pub fn fill(
    domain: &mut Domain<Reading, u32>,
    loan: SampleMutUninit,
    sensor: u32,
    celsius: u32,
) -> SampleMut
    requires single_valued { IsSingleValued domain.old }
    requires loan { NeverWaitsUnwritten domain.old loan }
    ensures live { IsWrittenLoan domain.new result }
    ensures reads { LoanReads domain.new result (record { celsius = celsius }) }
    ensures header { (header : Header) → LoanHasHeader domain.old (unwritten_key loan) header → LoanHasHeader domain.new (written_key result) header }
    ensures sensor { LoanHasUserHeader domain.new (written_key result) sensor }
    ensures leaves { LeavesBut (unwritten_loan loan) domain.old domain.new }
{
    let mut loan = loan;
    *SampleMutUninit::user_header_mut(domain, &mut loan) = sensor;
    *SampleMutUninit::payload_mut(domain, &mut loan) = Some(Reading { celsius });
    match loan.assume_init(domain) {
        Ok(message) => message,
        Err(loan) => {
            loan.disown();
            unreachable!()
        }
    }
}
