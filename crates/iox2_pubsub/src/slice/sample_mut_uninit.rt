//! A loan of a slice that isn't written.
ghost use Rattle.std.specs.Prelude.{◌≡◌};

mod payload_mut;
mod user_header_mut;
mod write_unspecified;

use crate::domain::Domain;
use crate::slice::SampleMut;
use iox2_domain::LoanAt;
use iox2_machine::{BackpressureFn, DegradationFn};
use iox2_messages::{loan_cells, write_loan_from_fn, write_loan_from_slice};

/// A loan of a slice whose payload isn't written. Must be consumed by a write or by `discard`. It is
/// the loan of a single value with another view of its payload. All other calls are those of
/// that loan.
///
/// Example (`crates/thermometer/src/series.rt`):
///
/// ```rust
/// let loan = publisher.loan_slice_uninit(domain, 3).unwrap();
/// let mut message = loan.write_from_fn(domain, |hour| hour as u64);
/// ```
///
/// iceoryx2's `sample_mut_uninit::SampleMutUninit` of a slice (`src/sample_mut_uninit.rs`).
pub struct SampleMutUninit {
    pub(crate) sample: crate::SampleMutUninit,
}

impl SampleMutUninit {
    ghost use Rattle.std.specs.Prelude.{Some, Option, List, length, map, is_some, IfOk, IsOkAnd, IsErr, MatchResult, true, false};
    ghost use Rattle.std.specs.List.{list_all};
    ghost use Rattle.iox2_contents.specs.SlotCalls.{AnswersInOrder};
    ghost use Rattle.iox2_machine.specs.machine.Loans.{initialized, is_initialized};
    ghost use Rattle.iox2_machine.specs.machine.Records.{Loan};
    ghost use Rattle.iox2_machine.specs.machine.State.{State, Messages};
    ghost use Rattle.iox2_domain.specs.Shows.{Shows};
    ghost use Rattle.iox2_pubsub.specs.Live.{IsLoanKey, IsUnwritten, unwritten_key, unwritten_loan};
    ghost use Rattle.iox2_pubsub.specs.LoanCalls.{BecomesWritten, IsDiscarded, WritesAll};
    ghost use Rattle.iox2_pubsub.specs.Leaves.{LeavesBut};
    ghost use Rattle.iox2_pubsub.specs.Slices.{HasUnwrittenCells, HasValues, HoldsSlices, IsSliced};
    ghost use Rattle.iox2_pubsub.specs.Handles.{as_unwritten, as_written, unwritten_number, written_number};

    /// The cells as they lie in their slot: `None` if one isn't written. They are handed out if the
    /// settings say so (`ServiceConfig::lists_cells`), as they do by default.
    ///
    /// iceoryx2's `SampleMutUninit::payload` (`src/sample_mut_uninit.rs`).
    pub fn payload<'a, T: Drop, U: Default + Drop, F: BackpressureFn, G: DegradationFn>(
        &self,
        domain: &'a Domain<T, U, F, G>,
    ) -> &'a [Option<T>]
        requires live { IsUnwritten domain.now (as_unwritten self.now) }
        requires sliced { IsSliced domain.now }
        ensures reads { HasUnwrittenCells domain.now (unwritten_number (as_unwritten self.now)) result.now }
        ensures same { (cells : List (Option T)) → HasUnwrittenCells domain.now (unwritten_number (as_unwritten self.now)) cells → result.now ≡ cells }
    {
        loan_cells(&domain.state, &self.sample.loan)
    }

    /// Writes into each cell what the function returns for its index, and makes the loan one that may
    /// be sent. The function is called for 0, 1 and so on, in this order. What was written before is
    /// dropped.
    ///
    /// iceoryx2's `SampleMutUninit::write_from_fn` (`src/sample_mut_uninit.rs`).
    pub fn write_from_fn<
        T: Drop,
        U: Default + Drop,
        F: BackpressureFn,
        G: DegradationFn,
        W: FnMut(usize) -> T + Drop,
    >(self, domain: &mut Domain<T, U, F, G>, initializer: W) -> SampleMut
        requires live { IsUnwritten domain.old (as_unwritten self) }
        requires sliced { HoldsSlices domain.old }
        requires callable { W.IsAlwaysCallable initializer }
        ensures written { (answers : List T) × AnswersInOrder W.step initializer answers × HasValues domain.new (written_number (as_written result)) answers
            × WritesAll (unwritten_number (as_unwritten self)) answers domain.old domain.new }
        ensures becomes { BecomesWritten (as_unwritten self) (as_written result) domain.old domain.new }
    {
        let SampleMutUninit { sample } = self;
        let crate::SampleMutUninit { service_id, loan } = sample;
        let loan = write_loan_from_fn(&mut domain.state, loan, initializer);
        written(service_id, loan)
    }

    /// Writes copies of the values, one into each cell, and makes the loan one that may be sent. There
    /// are as many values as cells. What was written before is dropped.
    ///
    /// iceoryx2's `SampleMutUninit::write_from_slice` (`src/sample_mut_uninit.rs`).
    pub fn write_from_slice<T: Copy + Drop, U: Default + Drop, F: BackpressureFn, G: DegradationFn>(
        self,
        domain: &mut Domain<T, U, F, G>,
        values: &[T],
    ) -> SampleMut
        requires live { IsUnwritten domain.old (as_unwritten self) }
        requires sliced { HoldsSlices domain.old }
        requires lengths { (cells : List (Option T)) → HasUnwrittenCells domain.old
            (unwritten_number (as_unwritten self)) cells → length values.now ≡ length cells }
        ensures step { WritesAll (unwritten_number (as_unwritten self)) values.now domain.old domain.new }
        ensures written { HasValues domain.new (written_number (as_written result)) values.now }
        ensures becomes { BecomesWritten (as_unwritten self) (as_written result) domain.old domain.new }
    {
        let SampleMutUninit { sample } = self;
        let crate::SampleMutUninit { service_id, loan } = sample;
        let loan = write_loan_from_slice(&mut domain.state, loan, values);
        written(service_id, loan)
    }

    /// Makes the loan one that may be sent, if each of its cells is written. Else the loan is
    /// handed back as it was, and nothing changes. No value is copied.
    ///
    /// iceoryx2's `SampleMutUninit::assume_init` (`src/sample_mut_uninit.rs`), which takes the
    /// caller's word for it.
    pub fn assume_init<T: Drop, U: Default + Drop, F: BackpressureFn, G: DegradationFn>(
        self,
        domain: &mut Domain<T, U, F, G>,
    ) -> Result<SampleMut, SampleMutUninit>
        requires live { IsUnwritten domain.old (as_unwritten self) }
        ensures step { (m : Messages T U) (s : State T U) → Shows domain.old m s → (l : Loan T U) × (s.loans (unwritten_number (as_unwritten self)) ≡ Some l)
            × MatchResult result
            (λ _. (is_initialized l ≡ true) × Shows domain.new m (initialized s (unwritten_number (as_unwritten self)) l))
            (λ _. (is_initialized l ≡ false) × Shows domain.new m s) }
        ensures becomes { IfOk result (λ it. BecomesWritten (as_unwritten self) (as_written it) domain.old domain.new) }
        ensures reads { (values : List T) → HasUnwrittenCells domain.old (unwritten_number (as_unwritten self))
            (map Some values) → IsOkAnd result (λ it. HasValues domain.new (written_number (as_written it)) values) }
        ensures refused { (cells : List (Option T)) → HasUnwrittenCells domain.old
            (unwritten_number (as_unwritten self)) cells → list_all is_some cells ≡ false → IsErr result }
        ensures handed_back { MatchResult result (λ _. self ≡ self) (λ it. (as_unwritten it ≡ as_unwritten self) × (domain.new ≡ domain.old)) }
        ensures leaves { LeavesBut (unwritten_loan (as_unwritten self)) domain.old domain.new }
    {
        let SampleMutUninit { sample } = self;
        match sample.assume_init(domain) {
            Ok(sample) => Ok(SampleMut { sample }),
            Err(sample) => Err(SampleMutUninit { sample }),
        }
    }

    /// Gives the loan back without a payload, as that of a single value is. Takes no memory.
    ///
    /// iceoryx2's `SampleMutUninit`, when it is dropped (`src/sample_mut_uninit.rs`).
    pub fn discard<T: Drop, U: Default + Drop, F: BackpressureFn, G: DegradationFn>(
        self,
        domain: &mut Domain<T, U, F, G>,
    )
        requires live { IsLoanKey domain.old (unwritten_key (as_unwritten self)) }
        ensures { IsDiscarded (unwritten_key (as_unwritten self)) domain.old domain.new }
    {
        let SampleMutUninit { sample } = self;
        sample.discard(domain);
    }
}

// The written loan of a slice that lies here.
#[inline(always)]
fn written(service_id: u128, loan: LoanAt) -> SampleMut
    ensures { result ≡ record { sample = record { service_id = service_id; loan = loan } } }
{
    SampleMut {
        sample: crate::SampleMut { service_id, loan },
    }
}
