//! A loan of a slice gets values that nobody chose.
ghost use Rattle.std.specs.Prelude.{◌≡◌};

use super::written;
use crate::domain::Domain;
use crate::slice::{SampleMut, SampleMutUninit};
use iox2_machine::{BackpressureFn, DegradationFn};
use iox2_messages::write_loan_unspecified;

impl SampleMutUninit {
    ghost use Rattle.std.specs.Prelude.{List};
    ghost use Rattle.iox2_pubsub.specs.Live.{IsUnwritten};
    ghost use Rattle.iox2_pubsub.specs.LoanCalls.{BecomesWritten, WritesAll};
    ghost use Rattle.iox2_pubsub.specs.Slices.{HasValues, HoldsSlices};
    ghost use Rattle.iox2_pubsub.specs.Handles.{as_unwritten, as_written, unwritten_number, written_number};

    /// Makes the loan one that may be sent, with unspecified values: what lay in its slot before, and
    /// default values where less lay there. So it costs the same for any length that lay there before.
    /// The payload can be changed until it is sent. What was written before is dropped.
    ///
    /// iceoryx2's `SampleMutUninit::assume_init` (`src/sample_mut_uninit.rs`) of a loan that wasn't
    /// written, which is undefined behaviour there.
    pub fn write_unspecified<
        T: Copy + Default + Drop,
        U: Default + Drop,
        F: BackpressureFn,
        G: DegradationFn,
    >(self, domain: &mut Domain<T, U, F, G>) -> SampleMut
        requires live { IsUnwritten domain.old (as_unwritten self) }
        requires sliced { HoldsSlices domain.old }
        ensures written { (values : List T) × HasValues domain.new (written_number (as_written result)) values
            × WritesAll (unwritten_number (as_unwritten self)) values domain.old domain.new }
        ensures becomes { BecomesWritten (as_unwritten self) (as_written result) domain.old domain.new }
    {
        let SampleMutUninit { sample } = self;
        let crate::SampleMutUninit { service_id, loan } = sample;
        let loan = write_loan_unspecified(&mut domain.state, loan);
        written(service_id, loan)
    }
}
