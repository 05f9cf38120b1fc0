//! Whether what numbers name is where they say that it is looked for first. Nothing is searched, so
//! that a caller can go one way where it is, which is mostly so, and another where it isn't.
ghost use Rattle.std.specs.Prelude.{◌≡◌, ◌↔◌, true, IfSome, IsTrue};

use crate::domain::Domain;
use crate::parts::hints::{
    has_publisher_at_hint, has_subscriber_at_hint, lends_at_once, receives_at_once, sends_at_once,
    written_at_hint,
};
use crate::parts::{LoanParts, PublisherParts, SampleParts, SubscriberParts};
use crate::sample::Sample;
use iox2_machine::{BackpressureFn, DegradationFn, UniquePublisherId, UniqueSubscriberId};
use iox2_messages::is_last_at_hint;

impl<T: Drop, U: Default + Drop, F: BackpressureFn, G: DegradationFn> Domain<T, U, F, G> {
    ghost use Rattle.iox2_machine.specs.declared.allocation.AllocationStrategy.TheVariants.{Static};
    ghost use Rattle.iox2_pubsub.specs.Live.{HasMark, IsLiveSample, IsLiveSubscriber, IsLoanKey, IsPlaced};
    ghost use Rattle.iox2_pubsub.specs.Live.{IsPlacedPublisher, IsPublisherKey, IsReadyPublisher, IsSampleKey};
    ghost use Rattle.iox2_pubsub.specs.Live.{IsUnblocked, IsUpToDate};
    ghost use Rattle.iox2_pubsub.specs.LoansLeft.{GrowsBy, HasNumbersLeft};
    ghost use Rattle.iox2_pubsub.specs.Parts.{LenderIsPlaced, loan_named, publisher_named, publisher_of_parts, sample_named, sample_parts, subscriber_with};

    // Whether the publisher with these numbers wasn't closed, and stands at the place that they name.
    fn is_publisher_at_hint(&self, parts: &PublisherParts) -> bool
        ensures { IsTrue result ↔ (IsPublisherKey self.now (publisher_named parts.now) × IsPlacedPublisher self.now (publisher_of_parts parts.now)) }
    {
        if parts.service_id != self.state.config().service_id {
            return false;
        }
        has_publisher_at_hint(&self.state, UniquePublisherId::new(parts.id), parts.place)
    }

    // Whether the subscriber with these numbers wasn't closed, and stands at the place that they name.
    fn is_subscriber_at_hint(&self, parts: &SubscriberParts) -> bool
        ensures { IsTrue result ↔ IsLiveSubscriber self.now (subscriber_with parts.now) }
    {
        if parts.service_id != self.state.config().service_id {
            return false;
        }
        has_subscriber_at_hint(&self.state, UniqueSubscriberId::new(parts.id), parts.place)
    }

    // Whether the sample with these numbers wasn't released, lies in the slot that they name, and was
    // borrowed last of the connection that they name, and both ports of that are open.
    fn is_sample_at_hint(&mut self, parts: &SampleParts) -> bool
        ensures live { IsTrue result → IsSampleKey self.old (sample_named parts.now) }
        ensures placed { IsTrue result → IsPlaced self.old (parts.now).number (parts.now).book (parts.now).slot }
        ensures same { self.new ≡ self.old }
    {
        if parts.service_id != self.state.config().service_id {
            return false;
        }
        is_last_at_hint(&mut self.state, &parts.sample())
    }

    /// Whether the publisher with these numbers is at the place that they name, and lends this number
    /// of elements at once if it has a free slot: its memory doesn't grow, and nothing refuses the loan.
    /// This library's own.
    pub fn lends_at_once(&self, parts: &PublisherParts, len: usize) -> bool
        ensures ready { IsTrue result → IsReadyPublisher self.now (publisher_of_parts parts.now) }
        ensures fixed { IsTrue result → GrowsBy self.now (publisher_of_parts parts.now) Static }
        ensures numbers { IsTrue result → HasNumbersLeft self.now 1 }
    {
        self.is_publisher_at_hint(parts) && lends_at_once(&self.state, parts.place, len)
    }

    /// The key of the book in which the written loan with these numbers lies, where it is out, lies in
    /// the slot that they name, and is sent at once: its publisher stands at the place that they name,
    /// is due for no update, has no handler for full buffers, and no send of it waits. The book that
    /// they name isn't looked at. This library's own.
    pub fn sends_at_once(&self, parts: &LoanParts) -> Option<usize>
        ensures live { IfSome result (λ _. IsLoanKey self.now (loan_named parts.now)) }
        ensures written { IfSome result (λ _. HasMark self.now (parts.now).number true) }
        ensures placed { IfSome result (λ _. LenderIsPlaced self.now parts.now) }
        ensures unblocked { IfSome result (λ _. IsUnblocked self.now (loan_named parts.now)) }
    {
        if !sends_at_once(&self.state, parts.place) {
            return None;
        }
        if parts.service_id != self.state.config().service_id {
            return None;
        }
        let Some(book) = written_at_hint(&self.state, &parts.loan()) else {
            return None;
        };
        Some(book)
    }

    /// Whether the subscriber with these numbers wasn't closed, stands at the place that they name, and
    /// receives without an update, and from no publisher that is gone. This library's own.
    pub fn receives_at_once(&self, parts: &SubscriberParts) -> bool
        ensures live { IsTrue result → IsLiveSubscriber self.now (subscriber_with parts.now) }
        ensures up_to_date { IsTrue result → IsUpToDate self.now (subscriber_with parts.now) }
    {
        self.is_subscriber_at_hint(parts) && receives_at_once(&self.state, parts.place)
    }

    /// A handle of the sample with these numbers, where it wasn't released, lies in the slot that they
    /// name, and was borrowed last of the connection that they name, and both ports of that are open. So
    /// one look tells that it is live
    /// and where it lies. This library's own.
    pub fn sample_at_hint<K>(&mut self, parts: &SampleParts) -> Option<Sample<K>>
        ensures live { IfSome result (λ sample. IsLiveSample self.new sample) }
        ensures named { IfSome result (λ sample. sample_parts sample ≡ parts.now) }
        ensures same { self.new ≡ self.old }
    {
        if !self.is_sample_at_hint(parts) {
            return None;
        }
        Some(parts.handle())
    }
}
