//! The exports of subscribers.
ghost use Rattle.std.specs.Prelude.{◌≡◌, ◌<◌, ◌↔◌, None, ℕ, List, length, take, ◌≢◌, ◌≤◌, ◌⊎◌, Err, Ok};
ghost use Rattle.iox2_machine.specs.declared.errors.ReceiveError.{ReceiveError};
ghost use Rattle.iox2_machine.specs.machine.Receives.{Got_sample, No_sample, Receive_error};
ghost use Rattle.iox2_machine.specs.declared.errors.SubscriberCreateError.{SubscriberCreateError};
ghost use Rattle.iox2_machine.specs.declared.key.Key.{Key};
ghost use Rattle.iox2_pubsub.specs.Live.{A_sample, A_subscriber, IsNewIn, IsSampleKey, IsSubscriberKey, No_item};
ghost use Rattle.iox2_pubsub.specs.Slices.{SampleHasValues};
ghost use Rattle.iox2_c.specs.Boxed.{Becomes, HoldsFromOldToNew, HoldsOn, Knows, KnowsNo, Lifted};
ghost use Rattle.iox2_c.specs.Codes.{first_setting_code, receive_code, subscriber_code};
ghost use Rattle.iox2_c.specs.Settings.{invalid_subscriber_option, plain_subscriber_settings, subscriber_settings};
ghost use Rattle.iox2_c.specs.Numbers.{named_sample, named_subscriber, wide};
ghost use Rattle.iox2_c.specs.Steps.{ClosesSubscriber, CreatesSubscriber, SubscriberReceives, ReceivesCopy};
ghost use Rattle.iox2_c.specs.Returns.{ReceiveReturns};

use crate::calls::subscribers;
use crate::domain_box::DomainBox;
use crate::numbers::{SampleNumbers, SubscriberNumbers};
use crate::options::SubscriberOptions;
use crate::status::{NO_DOMAIN, NO_SAMPLE, NOT_LIVE, OK, TOO_SMALL};

/// Makes a subscriber, as the settings say.
#[unsafe(no_mangle)]
pub extern "C" fn iox2ps_subscriber_create(
    domain: &mut DomainBox,
    subscriber: &mut SubscriberNumbers,
) -> u32
    ensures no_domain { (result ≡ NO_DOMAIN) ↔ (domain.old.service ≡ None) }
    ensures creates { result ≡ OK → HoldsFromOldToNew
        (λ old new. CreatesSubscriber old.domain new.domain (plain_subscriber_settings old) (Ok subscriber.new))
        domain.old.service domain.new.service }
    ensures errors { NO_DOMAIN < result → (error : SubscriberCreateError) × (result ≡ subscriber_code error)
        × HoldsFromOldToNew (λ old new. CreatesSubscriber old.domain new.domain (plain_subscriber_settings old)
        (Err error)) domain.old.service domain.new.service }
    ensures live { result ≡ OK → Knows (λ kept. IsSubscriberKey kept (named_subscriber subscriber.new)) domain.new.service }
    ensures new { result ≡ OK → Knows (λ kept. IsNewIn kept (A_subscriber (wide (subscriber.new).id))) domain.old.service }
    ensures same { OK < result → subscriber.new ≡ subscriber.old }
    ensures stays { HoldsOn No_item domain.old.service domain.new.service }
{
    match domain.service() {
        Some(service) => subscribers::create(service, subscriber),
        None => NO_DOMAIN,
    }
}

/// Makes a subscriber with these options.
#[unsafe(no_mangle)]
pub extern "C" fn iox2ps_subscriber_create_with(
    domain: &mut DomainBox,
    options: &SubscriberOptions,
    subscriber: &mut SubscriberNumbers,
) -> u32
    ensures no_domain { (result ≡ NO_DOMAIN) ↔ (domain.old.service ≡ None) }
    ensures creates { result ≡ OK → HoldsFromOldToNew
        (λ old new. CreatesSubscriber old.domain new.domain (subscriber_settings options.now) (Ok subscriber.new))
        domain.old.service domain.new.service }
    ensures errors { NO_DOMAIN < result → result < first_setting_code → (error : SubscriberCreateError)
        × (result ≡ subscriber_code error)
        × HoldsFromOldToNew (λ old new. CreatesSubscriber old.domain new.domain (subscriber_settings options.now)
        (Err error)) domain.old.service domain.new.service }
    ensures valid { result ≢ NO_DOMAIN → result < first_setting_code → invalid_subscriber_option options.now ≡ 0 }
    ensures invalid { first_setting_code ≤ result → result ≡ invalid_subscriber_option options.now }
    ensures refused { (result ≡ NO_DOMAIN) ⊎ (first_setting_code ≤ result) → domain.new.service ≡ domain.old.service }
    ensures live { result ≡ OK → Knows (λ kept. IsSubscriberKey kept (named_subscriber subscriber.new)) domain.new.service }
    ensures new { result ≡ OK → Knows (λ kept. IsNewIn kept (A_subscriber (wide (subscriber.new).id))) domain.old.service }
    ensures same { OK < result → subscriber.new ≡ subscriber.old }
    ensures stays { HoldsOn No_item domain.old.service domain.new.service }
{
    match domain.service() {
        Some(service) => subscribers::create_with(service, options, subscriber),
        None => NO_DOMAIN,
    }
}

/// Closes a subscriber.
#[unsafe(no_mangle)]
pub extern "C" fn iox2ps_subscriber_close(
    domain: &mut DomainBox,
    subscriber: &SubscriberNumbers,
) -> u32
    ensures no_domain { (result ≡ NO_DOMAIN) ↔ (domain.old.service ≡ None) }
    ensures live { result ≡ OK → Knows (λ kept. IsSubscriberKey kept (named_subscriber subscriber.now)) domain.old.service }
    ensures closed { result ≡ OK → Becomes (λ old new. ClosesSubscriber old new (wide (subscriber.now).id)) domain.old.service domain.new.service }
    ensures spent { KnowsNo (λ kept. IsSubscriberKey kept (named_subscriber subscriber.now)) domain.new.service }
    ensures refused { OK < result → domain.new.service ≡ domain.old.service }
    ensures stays { HoldsOn (A_subscriber (wide (subscriber.now).id)) domain.old.service domain.new.service }
{
    match domain.service() {
        Some(service) => subscribers::close(service, subscriber),
        None => NO_DOMAIN,
    }
}

/// Receives a message, and says where its bytes lie.
#[unsafe(no_mangle)]
pub extern "C" fn iox2ps_subscriber_receive(
    domain: &mut DomainBox,
    subscriber: &SubscriberNumbers,
    sample: &mut SampleNumbers,
    payload: &mut *const u8,
    len: &mut usize,
) -> u32
    ensures { Lifted ((sample.new ≡ sample.old) × (len.new ≡ len.old))
        (λ old new. ReceiveReturns subscriber.now old new sample.old sample.new len.old len.new result)
        domain.old.service domain.new.service result }
{
    match domain.service() {
        Some(service) => subscribers::receive(service, subscriber, sample, payload, len),
        None => NO_DOMAIN,
    }
}

/// Receives a message, copies its bytes and gives it back. One for which there is no room stays borrowed.
#[unsafe(no_mangle)]
pub extern "C" fn iox2ps_subscriber_receive_copy(
    domain: &mut DomainBox,
    subscriber: &SubscriberNumbers,
    bytes: &mut [u8],
    len: &mut usize,
    sample: &mut SampleNumbers,
) -> u32
    ensures no_domain { (result ≡ NO_DOMAIN) ↔ (domain.old.service ≡ None) }
    ensures copied { result ≡ OK → (key : Key) × (key.port ≡ wide (subscriber.now).id) × (origin : ℕ)
        × Becomes (λ old new. ReceivesCopy old new key origin (take len.new bytes.new)) domain.old.service
        domain.new.service }
    ensures fits { result ≡ OK → len.new ≤ length bytes.old }
    ensures kept { result ≡ TOO_SMALL → Becomes (λ old new. SubscriberReceives old new (wide (subscriber.now).id)
        (Got_sample (wide (sample.new).origin) (wide (sample.new).number))) domain.old.service domain.new.service }
    ensures live { result ≡ TOO_SMALL → Knows (λ kept. IsSampleKey kept (named_sample sample.new)) domain.new.service }
    ensures new { result ≡ TOO_SMALL → Knows (λ kept. IsNewIn kept (A_sample (wide (sample.new).subscriber) (wide (sample.new).number))) domain.old.service }
    ensures small { result ≡ TOO_SMALL → length bytes.old < len.new }
    ensures length { result ≡ TOO_SMALL → Knows (λ kept. (values : List ℕ)
        → SampleHasValues kept (named_sample sample.new) values → len.new ≡ length values) domain.new.service }
    ensures nothing { result ≡ NO_SAMPLE → Becomes (λ old new. SubscriberReceives old new (wide (subscriber.now).id)
        No_sample) domain.old.service domain.new.service }
    ensures errors { NO_SAMPLE < result → result ≢ TOO_SMALL → (error : ReceiveError) × (result ≡ receive_code error)
        × Becomes (λ old new. SubscriberReceives old new (wide (subscriber.now).id) (Receive_error error))
        domain.old.service domain.new.service }
    ensures not_live { result ≡ NOT_LIVE → KnowsNo (λ kept. IsSubscriberKey kept (named_subscriber subscriber.now)) domain.old.service }
    ensures refused { OK < result → result < NO_SAMPLE → domain.new.service ≡ domain.old.service }
    ensures same { OK < result → bytes.new ≡ bytes.old }
    ensures same_numbers { result ≢ TOO_SMALL → sample.new ≡ sample.old }
    ensures same_length { OK < result → result ≢ TOO_SMALL → len.new ≡ len.old }
    ensures stays { HoldsOn No_item domain.old.service domain.new.service }
{
    match domain.service() {
        Some(service) => subscribers::receive_copy(service, subscriber, bytes, len, sample),
        None => NO_DOMAIN,
    }
}
