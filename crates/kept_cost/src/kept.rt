//! The loans and the samples that are kept.

use iox2_pubsub::{HeapCircularBuffer, LoanParts, SampleParts};
use std::alloc::Global;

/// The numbers of the loans that are out, and of the samples that are borrowed, each the oldest
/// first.
#[derive(Drop)]
pub struct Kept {
    loans: HeapCircularBuffer<LoanParts>,
    samples: HeapCircularBuffer<SampleParts>,
}

impl Kept {
    /// Room for that many of each. `None` where memory runs out.
    pub fn new(alloc: Global, loans: usize, samples: usize) -> Option<Kept> {
        Some(Kept {
            loans: HeapCircularBuffer::with_capacity(alloc, loans).ok()?,
            samples: HeapCircularBuffer::with_capacity(alloc, samples).ok()?,
        })
    }

    /// How many loans stay out.
    pub fn loans(&self) -> usize {
        self.loans.capacity()
    }

    /// How many samples stay borrowed.
    pub fn samples(&self) -> usize {
        self.samples.capacity()
    }

    /// Keeps the loan, and returns the oldest one where there is no room for both.
    pub fn exchange_loan(&mut self, loan: LoanParts) -> Option<LoanParts> {
        self.loans.push_back(loan)
    }

    /// Keeps the sample, and returns the oldest one where there is no room for both.
    pub fn exchange_sample(&mut self, sample: SampleParts) -> Option<SampleParts> {
        self.samples.push_back(sample)
    }
}
