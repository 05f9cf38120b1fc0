//! Temperatures go in batches: a message is a slice of them, and has the number of its sensor in its
//! user header.
ghost use Rattle.std.specs.Prelude.{◌≡◌, ℕ, List, MatchResult};
ghost use Rattle.iox2_pubsub.specs.Leaves.{LeavesBut};
ghost use Rattle.iox2_pubsub.specs.Live.{AreApart, IsLiveSample, NeverWaitsUnwritten, IsWrittenLoan};
ghost use Rattle.iox2_pubsub.specs.Live.{LoanHasUserHeader, unwritten_key, unwritten_loan, written_key};
ghost use Rattle.iox2_pubsub.specs.Live.{written_loan};
ghost use Rattle.iox2_pubsub.specs.Slices.{HasValues, IsSliced};
ghost use Rattle.iox2_pubsub.specs.Handles.{as_unwritten, as_written, written_number};
ghost use Rattle.thermometer.specs.Changes.{ChangesLoan, SensorStays};

use iox2_pubsub::Domain;
use iox2_pubsub::slice::{Sample, SampleMut, SampleMutUninit};

/// Writes a batch into a loan of as many cells. One of another length is handed back.
pub fn write_batch(
    domain: &mut Domain<u32, u32>,
    loan: SampleMutUninit,
    temperatures: &[u32],
) -> Result<SampleMut, SampleMutUninit>
    requires sliced { IsSliced domain.old }
    requires loan { NeverWaitsUnwritten domain.old (as_unwritten loan) }
    ensures written { MatchResult result
        (λ batch. IsWrittenLoan domain.new (as_written batch) × HasValues domain.new (written_number (as_written batch)) temperatures.now)
        (λ loan. NeverWaitsUnwritten domain.new (as_unwritten loan)) }
    ensures sensor { (sensor : ℕ) → LoanHasUserHeader domain.old (unwritten_key (as_unwritten loan)) sensor
        → MatchResult result (λ batch. LoanHasUserHeader domain.new (written_key (as_written batch)) sensor)
        (λ loan. LoanHasUserHeader domain.new (unwritten_key (as_unwritten loan)) sensor) }
    ensures leaves { LeavesBut (unwritten_loan (as_unwritten loan)) domain.old domain.new }
{
    if loan.payload(domain).len() != temperatures.len() {
        return Err(loan);
    }
    Ok(loan.write_from_slice(domain, temperatures))
}

/// Writes a batch of one temperature, as often as the loan has cells.
pub fn repeat(domain: &mut Domain<u32, u32>, loan: SampleMutUninit, celsius: u32) -> SampleMut
    requires sliced { IsSliced domain.old }
    requires loan { NeverWaitsUnwritten domain.old (as_unwritten loan) }
    ensures live { IsWrittenLoan domain.new (as_written result) }
    ensures sensor { SensorStays domain.old domain.new (unwritten_key (as_unwritten loan)) (written_key (as_written result)) }
    ensures leaves { LeavesBut (unwritten_loan (as_unwritten loan)) domain.old domain.new }
{
    let elements = loan.header(domain).number_of_elements;
    let batch = loan.write_from_fn(domain, |_index| celsius);
    let again = batch.header(domain).number_of_elements;
    prove!(elements == again);
    batch
}

/// Replaces the first temperature of a batch where it lies. The batch is of the same sensor as
/// before, and what waits still does.
pub fn correct_first(domain: &mut Domain<u32, u32>, batch: &mut SampleMut, celsius: u32)
    requires sliced { IsSliced domain.old }
    requires batch { IsWrittenLoan domain.old (as_written batch.old) }
    ensures changes { ChangesLoan domain.old domain.new (as_written batch.old) (as_written batch.new) }
    ensures sensor { SensorStays domain.old domain.new (written_key (as_written batch.old)) (written_key (as_written batch.new)) }
{
    if let [first, ..] = SampleMut::payload_mut(domain, batch) {
        *first = celsius;
    }
}

/// Says which sensor a batch is of. Its temperatures are the same as before, and what waits still
/// does.
pub fn label_batch(domain: &mut Domain<u32, u32>, batch: &mut SampleMut, sensor: u32)
    requires { IsWrittenLoan domain.old (as_written batch.old) }
    ensures changes { ChangesLoan domain.old domain.new (as_written batch.old) (as_written batch.new) }
    ensures reads { (temperatures : List ℕ) → HasValues domain.old (written_number (as_written batch.old))
        temperatures → HasValues domain.new (written_number (as_written batch.new)) temperatures }
    ensures sensor { LoanHasUserHeader domain.new (written_key (as_written batch.new)) sensor }
{
    *SampleMut::user_header_mut(domain, batch) = sensor;
}

/// A received batch and a written one read the same after another loan is written.
pub fn read_around_a_write(
    domain: &mut Domain<u32, u32>,
    received: &Sample,
    written: &SampleMut,
    loan: SampleMutUninit,
    celsius: u32,
) -> SampleMut
    requires sliced { IsSliced domain.old }
    requires received { IsLiveSample domain.old received.now }
    requires written { IsWrittenLoan domain.old (as_written written.now) }
    requires loan { NeverWaitsUnwritten domain.old (as_unwritten loan) }
    requires apart { AreApart (unwritten_loan (as_unwritten loan)) (written_loan (as_written written.now)) }
    ensures { IsWrittenLoan domain.new (as_written result) }
{
    let before = [
        received.payload(domain).len(),
        written.payload(domain).len(),
    ];
    let batch = loan.write_from_fn(domain, |_index| celsius);
    let after = [
        received.payload(domain).len(),
        written.payload(domain).len(),
    ];
    prove!(before[0] == after[0]);
    prove!(before[1] == after[1]);
    batch
}
