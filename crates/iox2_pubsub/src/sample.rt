//! A received message.
ghost use Rattle.std.specs.Prelude.{◌≡◌};

mod release;

use crate::domain::Domain;
use crate::kinds::Value;
use iox2_domain::SampleAt;
use iox2_machine::{BackpressureFn, DegradationFn, Header, Key, UniquePublisherId};
use iox2_messages::{sample_header, sample_payload, sample_user_header};
use std::marker::{Model, PhantomData};

/// A message that a subscriber has received and not yet released. Must be consumed by
/// `release`; until then the message counts among those that the subscriber has borrowed.
///
/// Example (`crates/calling/src/passing.rt`):
///
/// ```rust
/// let Some(sample) = subscriber.receive(domain)? else {
///     return Ok(None);
/// };
/// let celsius = *sample.payload(domain);
/// sample.release(domain);
/// Ok(Some(celsius))
/// ```
///
/// iceoryx2's `sample::Sample` (`src/sample.rs`).
pub struct Sample<K = Value> {
    pub(crate) service_id: u128,
    // Whom it was received from. Nothing is looked up by it.
    pub(crate) origin: UniquePublisherId,
    pub(crate) sample: SampleAt,
    pub(crate) kind: PhantomData<K>,
}

// A clause sees the same of a sample, of whatever kind it is.
impl<K> Model for Sample<K> {
    ghost use Rattle.iox2_pubsub.specs.Sample.{Sample};

    ghost Value = { Sample };

    ghost view = { λ it. record { service_id = it.service_id; origin = it.origin; sample = it.sample } };
}

impl Sample<Value> {
    ghost use Rattle.std.specs.Prelude.{[], ◌∷◌, Some};
    ghost use Rattle.iox2_machine.specs.machine.Records.{Entry};
    ghost use Rattle.iox2_machine.specs.machine.State.{State, Messages};
    ghost use Rattle.iox2_pubsub.specs.Live.{IsLiveSample, IsSingleValued, SampleReads};
    ghost use Rattle.iox2_domain.specs.Shows.{Shows};
    ghost use Rattle.iox2_pubsub.specs.Handles.{sample_number};

    /// The message's value, in a domain of single values.
    ///
    /// iceoryx2's `Sample::payload` (`src/sample.rs`).
    pub fn payload<'a, T: Drop, U: Default + Drop, F: BackpressureFn, G: DegradationFn>(
        &self,
        domain: &'a Domain<T, U, F, G>,
    ) -> &'a T
        requires live { IsLiveSample domain.now self.now }
        requires single_valued { IsSingleValued domain.now }
        ensures entry { (m : Messages T U) (s : State T U) → Shows domain.now m s
            → (entry : Entry T U) × (m (sample_number self.now) ≡ Some entry) × (entry.values ≡ result.now ∷ []) }
        ensures reads { SampleReads domain.now self.now result.now }
        ensures same { (value : T) → SampleReads domain.now self.now value → result.now ≡ value }
    {
        sample_payload(&domain.state, &self.sample)
    }
}

impl<K> Sample<K> {
    ghost use Rattle.std.specs.Prelude.{Some};
    ghost use Rattle.iox2_machine.specs.machine.Records.{Entry};
    ghost use Rattle.iox2_machine.specs.machine.State.{State, Messages};
    ghost use Rattle.iox2_pubsub.specs.Live.{IsFromOrigin, IsLiveSample, SampleHasHeader, SampleHasUserHeader, sample_key};
    ghost use Rattle.iox2_domain.specs.Shows.{Shows};
    ghost use Rattle.iox2_pubsub.specs.Handles.{origin_of, sample_number};

    /// Names the sample among all that its domain has: by its subscriber and its number.
    ///
    /// This library's own.
    pub fn key(&self) -> Key
        ensures { result ≡ sample_key self.now }
    {
        Key {
            service_id: self.service_id,
            port: self.sample.subscriber.value(),
            message: self.sample.number,
        }
    }

    /// The publisher that sent the message, as it was when the sample was received.
    ///
    /// iceoryx2's `Sample::origin` (`src/sample.rs`).
    pub fn origin(&self) -> UniquePublisherId
        ensures { result ≡ origin_of self.now }
    {
        self.origin
    }

    /// The message's header.
    ///
    /// iceoryx2's `Sample::header` (`src/sample.rs`).
    pub fn header<'a, T: Drop, U: Default + Drop, F: BackpressureFn, G: DegradationFn>(
        &self,
        domain: &'a Domain<T, U, F, G>,
    ) -> &'a Header
        requires live { IsLiveSample domain.now self.now }
        ensures header { (m : Messages T U) (s : State T U) → Shows domain.now m s
            → (entry : Entry T U) × (m (sample_number self.now) ≡ Some entry) × (entry.header ≡ result.now) }
        ensures origin { IsFromOrigin domain.now self.now → (result.now).publisher_id ≡ origin_of self.now }
        ensures reads { SampleHasHeader domain.now (sample_key self.now) result.now }
        ensures same { (header : Header) → SampleHasHeader domain.now (sample_key self.now) header → result.now ≡ header }
    {
        sample_header(&domain.state, &self.sample)
    }

    /// The message's user header.
    ///
    /// iceoryx2's `Sample::user_header` (`src/sample.rs`).
    pub fn user_header<'a, T: Drop, U: Default + Drop, F: BackpressureFn, G: DegradationFn>(
        &self,
        domain: &'a Domain<T, U, F, G>,
    ) -> &'a U
        requires live { IsLiveSample domain.now self.now }
        ensures header { (m : Messages T U) (s : State T U) → Shows domain.now m s
            → (entry : Entry T U) × (m (sample_number self.now) ≡ Some entry) × (entry.user_header ≡ result.now) }
        ensures reads { SampleHasUserHeader domain.now (sample_key self.now) result.now }
        ensures same { (header : U) → SampleHasUserHeader domain.now (sample_key self.now) header → result.now ≡ header }
    {
        sample_user_header(&domain.state, &self.sample)
    }

    /// Consumes the handle of a sample whose domain is gone. A domain that is still there isn't told,
    /// and counts the message as borrowed from then on. This library's own.
    pub fn disown(self) {
        self.into_parts();
    }

    /// The same sample, of another kind. This library's own.
    #[inline(always)]
    pub fn into_kind<L>(self) -> Sample<L>
        ensures { result ≡ self }
    {
        let Sample {
            service_id,
            origin,
            sample,
            kind: _,
        } = self;
        Sample {
            service_id,
            origin,
            sample,
            kind: PhantomData,
        }
    }
}
