//! A sample as numbers.
ghost use Rattle.std.specs.Prelude.{◌≡◌, IfNone, IfSome};

use crate::domain::Domain;
use crate::parts::SampleParts;
use crate::parts::hints::find_borrowed;
use crate::sample::Sample;
use iox2_domain::SampleAt;
use iox2_machine::{BackpressureFn, DegradationFn, UniquePublisherId, UniqueSubscriberId};
use std::marker::PhantomData;

impl SampleParts {
    ghost use Rattle.iox2_pubsub.specs.Parts.{sample_parts};

    // The private part of a handle with these numbers.
    pub(crate) fn sample(&self) -> SampleAt
        ensures { result ≡ record {
          subscriber = self.now.subscriber;
          number = self.now.number;
          connection =
              self.now.connection;
          book = self.now.book;
          slot = self.now.slot;
        } }
    {
        SampleAt {
            subscriber: UniqueSubscriberId::new(self.subscriber),
            number: self.number,
            connection: self.connection,
            book: self.book,
            slot: self.slot,
        }
    }

    // The handle with these numbers.
    pub(crate) fn handle<K>(&self) -> Sample<K>
        ensures { sample_parts result ≡ self.now }
    {
        Sample {
            service_id: self.service_id,
            origin: UniquePublisherId::new(self.origin),
            sample: self.sample(),
            kind: PhantomData,
        }
    }
}

impl<K> Sample<K> {
    ghost use Rattle.iox2_pubsub.specs.Parts.{sample_parts};

    /// The sample's numbers. Consumes its handle; the message is still borrowed. This library's
    /// own.
    pub fn into_parts(self) -> SampleParts
        ensures { result ≡ sample_parts self }
    {
        let Sample {
            service_id,
            origin,
            sample,
            kind: _,
        } = self;
        SampleParts {
            service_id,
            origin: origin.value(),
            subscriber: sample.subscriber.value(),
            number: sample.number,
            connection: sample.connection,
            book: sample.book,
            slot: sample.slot,
        }
    }
}

impl<T: Drop, U: Default + Drop, F: BackpressureFn, G: DegradationFn> Domain<T, U, F, G> {
    ghost use Rattle.iox2_pubsub.specs.Live.{IsLiveSample, IsPlaced, IsSampleKey};
    ghost use Rattle.iox2_pubsub.specs.Parts.{sample_named, sample_parts};

    // The private part of a handle of the sample of this domain with these numbers that wasn't released.
    // It says where the sample lies.
    #[tactic(auto, unfolding(crate::specs::Live::IsSampleKey))]
    fn borrowed_of(&self, parts: &SampleParts) -> Option<SampleAt>
        ensures live { IfSome result (λ sample. IsSampleKey self.now (sample_named parts.now)) }
        ensures placed { IfSome result (λ sample. IsPlaced self.now (parts.now).number sample.book sample.slot) }
        ensures named { IfSome result (λ sample. sample
            ≡ record {
              subscriber = parts.now.subscriber;
              number = parts.now.number;
              connection = sample.connection;
              book = sample.book;
              slot = sample.slot;
            }) }
        ensures none { IfNone result (IsSampleKey self.now (sample_named parts.now) → ⊥) }
    {
        if parts.service_id != self.state.config().service_id {
            return None;
        }
        let Some(at) = find_borrowed(&self.state, &parts.sample()) else {
            return None;
        };
        Some(SampleAt {
            connection: at.connection,
            book: at.book,
            slot: at.slot,
            ..parts.sample()
        })
    }

    /// A handle of the sample with these numbers, and `None` if this domain has none that wasn't
    /// released. This library's own.
    ///
    /// The service, the subscriber and the message's number decide which sample it is. Where it lies
    /// (`connection`, `book` and `slot`) is a hint: the domain looks there first, and puts into the
    /// handle where it found the sample. So numbers with another place give the same sample, and the
    /// handle's numbers are theirs but for these three. Its origin isn't looked up.
    pub fn sample_of<K>(&self, parts: &SampleParts) -> Option<Sample<K>>
        ensures live { IfSome result (λ sample. IsLiveSample self.now sample) }
        ensures named { IfSome result (λ sample. record (sample_parts sample)
            { connection = parts.now.connection; book = parts.now.book; slot = parts.now.slot } ≡ parts.now) }
        ensures none { IfNone result (IsSampleKey self.now (sample_named parts.now) → ⊥) }
    {
        let Some(sample) = self.borrowed_of(parts) else {
            return None;
        };
        Some(Sample {
            service_id: parts.service_id,
            origin: UniquePublisherId::new(parts.origin),
            sample,
            kind: PhantomData,
        })
    }
}
