//! The exports of samples.
ghost use Rattle.std.specs.Prelude.{◌≡◌, ◌<◌, ◌↔◌, None, ℕ, List, drop, length, take, ◌≤◌, ◌⊎◌};
ghost use Rattle.iox2_machine.specs.declared.header.Header.{Header};
ghost use Rattle.iox2_pubsub.specs.Live.{IsSampleKey, SampleHasHeader};
ghost use Rattle.iox2_pubsub.specs.Slices.{SampleHasValues};
ghost use Rattle.iox2_c.specs.Boxed.{Knows, KnowsNo, Lifted};
ghost use Rattle.iox2_c.specs.Numbers.{IsHeader, named_sample};
ghost use Rattle.iox2_c.specs.Returns.{ReleaseReturns};

use crate::calls::samples;
use crate::domain_box::DomainBox;
use crate::numbers::{HeaderNumbers, SampleNumbers};
use crate::status::{NO_DOMAIN, NO_SAMPLE, NOT_LIVE, OK, TOO_SMALL};

/// Where the bytes of a message lie, until it is given back.
#[unsafe(no_mangle)]
pub extern "C" fn iox2ps_sample_payload(
    domain: &mut DomainBox,
    sample: &SampleNumbers,
    payload: &mut *const u8,
    len: &mut usize,
) -> u32
    ensures no_domain { (result ≡ NO_DOMAIN) ↔ (domain.old.service ≡ None) }
    ensures code { result < NO_SAMPLE }
    ensures not_live { result ≡ NOT_LIVE → KnowsNo (λ kept. IsSampleKey kept (named_sample sample.now)) domain.old.service }
    ensures live { result ≡ OK → Knows (λ kept. IsSampleKey kept (named_sample sample.now)) domain.old.service }
    ensures length { result ≡ OK → Knows (λ kept. (values : List ℕ)
        → SampleHasValues kept (named_sample sample.now) values → len.new ≡ length values) domain.old.service }
    ensures same { OK < result → len.new ≡ len.old }
    ensures unchanged { domain.new.service ≡ domain.old.service }
{
    match domain.service() {
        Some(service) => samples::payload(service, sample, payload, len),
        None => NO_DOMAIN,
    }
}

/// Copies the bytes of a message.
#[unsafe(no_mangle)]
pub extern "C" fn iox2ps_sample_copy(
    domain: &mut DomainBox,
    sample: &SampleNumbers,
    bytes: &mut [u8],
    len: &mut usize,
) -> u32
    ensures no_domain { (result ≡ NO_DOMAIN) ↔ (domain.old.service ≡ None) }
    ensures code { (result < NO_SAMPLE) ⊎ (result ≡ TOO_SMALL) }
    ensures not_live { result ≡ NOT_LIVE → KnowsNo (λ kept. IsSampleKey kept (named_sample sample.now)) domain.old.service }
    ensures live { (result ≡ OK) ⊎ (result ≡ TOO_SMALL) → Knows (λ kept. IsSampleKey kept (named_sample sample.now)) domain.old.service }
    ensures copied { result ≡ OK → Knows (λ kept. SampleHasValues kept (named_sample sample.now) (take len.new bytes.new)) domain.old.service }
    ensures fits { result ≡ OK → len.new ≤ length bytes.old }
    ensures rest { result ≡ OK → drop len.new bytes.new ≡ drop len.new bytes.old }
    ensures small { result ≡ TOO_SMALL → length bytes.old < len.new }
    ensures length { (result ≡ OK) ⊎ (result ≡ TOO_SMALL)
        → Knows (λ kept. (values : List ℕ) → SampleHasValues kept (named_sample sample.now) values
        → len.new ≡ length values) domain.old.service }
    ensures same { OK < result → bytes.new ≡ bytes.old }
    ensures same_length { (result ≡ NO_DOMAIN) ⊎ (result ≡ NOT_LIVE) → len.new ≡ len.old }
    ensures unchanged { domain.new.service ≡ domain.old.service }
{
    match domain.service() {
        Some(service) => samples::copy(service, sample, bytes, len),
        None => NO_DOMAIN,
    }
}

/// Where a message comes from.
#[unsafe(no_mangle)]
pub extern "C" fn iox2ps_sample_header(
    domain: &mut DomainBox,
    sample: &SampleNumbers,
    header: &mut HeaderNumbers,
) -> u32
    ensures no_domain { (result ≡ NO_DOMAIN) ↔ (domain.old.service ≡ None) }
    ensures code { result < NO_SAMPLE }
    ensures not_live { result ≡ NOT_LIVE → KnowsNo (λ kept. IsSampleKey kept (named_sample sample.now)) domain.old.service }
    ensures live { result ≡ OK → Knows (λ kept. IsSampleKey kept (named_sample sample.now)) domain.old.service }
    ensures reads { result ≡ OK → Knows (λ kept. (it : Header) → SampleHasHeader kept (named_sample sample.now) it
        → IsHeader it header.new) domain.old.service }
    ensures same { OK < result → header.new ≡ header.old }
    ensures unchanged { domain.new.service ≡ domain.old.service }
{
    match domain.service() {
        Some(service) => samples::header(service, sample, header),
        None => NO_DOMAIN,
    }
}

/// Gives a message back.
#[unsafe(no_mangle)]
pub extern "C" fn iox2ps_sample_release(domain: &mut DomainBox, sample: &SampleNumbers) -> u32
    ensures { Lifted (Unit {0})
        (λ old new. ReleaseReturns sample.now old new result)
        domain.old.service domain.new.service result }
{
    match domain.service() {
        Some(service) => samples::release(service, sample),
        None => NO_DOMAIN,
    }
}
