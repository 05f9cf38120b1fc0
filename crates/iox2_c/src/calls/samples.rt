//! The calls of samples.
ghost use Rattle.std.specs.Prelude.{ℕ, List, drop, length, take, ◌≡◌, ◌≢◌, ◌<◌, ◌≤◌, ◌⊎◌, IfNone, IfSome};
ghost use Rattle.iox2_machine.specs.declared.header.Header.{Header};
ghost use Rattle.iox2_pubsub.specs.Handles.{origin_of, receiver_of, sample_number};
ghost use Rattle.iox2_pubsub.specs.Live.{IsLiveSample, IsSampleKey, SampleHasHeader, received_sample, sample_key};
ghost use Rattle.iox2_pubsub.specs.Slices.{SampleHasValues};
ghost use Rattle.iox2_c.specs.Numbers.{IsHeader, named_sample, wide};
ghost use Rattle.iox2_c.specs.Returns.{ReleaseReturns};
ghost use Rattle.iox2_c.specs.Serving.{ServesBut};
ghost use Rattle.iox2_c.specs.Steps.{SubscriberReleases};

use crate::numbers::{HeaderNumbers, SampleNumbers};
use crate::service::{BytesDomain, Service};
use crate::starts::start_of;
use crate::status::{NOT_LIVE, OK, TOO_SMALL};
use iox2_pubsub::slice::Sample;

/// A handle of a sample that wasn't released.
#[inline(always)]
pub fn live_sample(domain: &BytesDomain, numbers: &SampleNumbers) -> Option<Sample>
    ensures live { IfSome result (λ it. IsLiveSample domain.now it) }
    ensures named { IfSome result (λ it. sample_key it ≡ named_sample numbers.now) }
    ensures number { IfSome result (λ it. sample_number it ≡ wide (numbers.now).number) }
    ensures receiver { IfSome result (λ it. receiver_of it ≡ wide (numbers.now).subscriber) }
    ensures none { IfNone result (IsSampleKey domain.now (named_sample numbers.now) → ⊥) }
{
    domain.sample_of(&numbers.parts())
}

/// Where the bytes of a sample lie.
pub fn payload(
    service: &Service,
    numbers: &SampleNumbers,
    out: &mut *const u8,
    len: &mut usize,
) -> u32
    ensures code { (result ≡ OK) ⊎ ((result ≡ NOT_LIVE) × (IsSampleKey service.now.domain (named_sample numbers.now) → ⊥)) }
    ensures live { result ≡ OK → IsSampleKey service.now.domain (named_sample numbers.now) }
    ensures length { result ≡ OK → (values : List ℕ) → SampleHasValues service.now.domain (named_sample numbers.now) values → len.new ≡ length values }
    ensures same { OK < result → len.new ≡ len.old }
{
    let Some(sample) = live_sample(&service.domain, numbers) else {
        return NOT_LIVE;
    };
    let bytes = sample.payload(&service.domain);
    *out = start_of(bytes);
    *len = bytes.len();
    sample.disown();
    OK
}

/// Copies the bytes of a sample. Where there are more than there is room for, says how many there are.
pub fn copy(service: &Service, numbers: &SampleNumbers, bytes: &mut [u8], len: &mut usize) -> u32
    ensures code { (result ≡ OK) ⊎ (result ≡ TOO_SMALL) ⊎ ((result ≡ NOT_LIVE) × (IsSampleKey service.now.domain (named_sample numbers.now) → ⊥)) }
    ensures live { result ≢ NOT_LIVE → IsSampleKey service.now.domain (named_sample numbers.now) }
    ensures copied { result ≡ OK → SampleHasValues service.now.domain (named_sample numbers.now) (take len.new bytes.new) }
    ensures fits { result ≡ OK → len.new ≤ length bytes.old }
    ensures rest { result ≡ OK → drop len.new bytes.new ≡ drop len.new bytes.old }
    ensures length { result ≢ NOT_LIVE → (values : List ℕ) → SampleHasValues service.now.domain (named_sample numbers.now) values → len.new ≡ length values }
    ensures small { (result ≡ TOO_SMALL) → length bytes.old < len.new }
    ensures same { OK < result → bytes.new ≡ bytes.old }
    ensures same_length { result ≡ NOT_LIVE → len.new ≡ len.old }
{
    let Some(sample) = live_sample(&service.domain, numbers) else {
        return NOT_LIVE;
    };
    let from = sample.payload(&service.domain);
    sample.disown();
    *len = from.len();
    copy_bytes(from, bytes)
}

/// Copies the bytes where there is room for them.
pub fn copy_bytes(from: &[u8], bytes: &mut [u8]) -> u32
    ensures copied { result ≡ OK → take (length from.now) bytes.new ≡ from.now }
    ensures fits { result ≡ OK → length from.now ≤ length bytes.old }
    ensures rest { result ≡ OK → drop (length from.now) bytes.new ≡ drop (length from.now) bytes.old }
    ensures small { (result ≡ TOO_SMALL) → length bytes.old < length from.now }
    ensures same { OK < result → bytes.new ≡ bytes.old }
    ensures code { (result ≡ OK) ⊎ (result ≡ TOO_SMALL) }
{
    if from.len() > bytes.len() {
        return TOO_SMALL;
    }
    bytes[..from.len()].copy_from_slice(from);
    OK
}

/// Copies the bytes of a live sample and releases it. Where there are more than there is room for, it
/// stays, and its numbers are handed out.
pub fn copy_out(
    service: &mut Service,
    sample: Sample,
    bytes: &mut [u8],
    len: &mut usize,
    out: &mut SampleNumbers,
) -> u32
    requires { IsLiveSample service.old.domain sample }
    ensures code { (result ≡ OK) ⊎ (result ≡ TOO_SMALL) }
    ensures copied { result ≡ OK → SampleHasValues service.old.domain (sample_key sample) (take len.new bytes.new) }
    ensures fits { result ≡ OK → len.new ≤ length bytes.old }
    ensures releases { result ≡ OK → SubscriberReleases service.old.domain service.new.domain (receiver_of sample) (sample_number sample) }
    ensures kept { result ≡ TOO_SMALL → service.new ≡ service.old }
    ensures named { result ≡ TOO_SMALL → named_sample out.new ≡ sample_key sample }
    ensures origin { result ≡ TOO_SMALL → wide (out.new).origin ≡ origin_of sample }
    ensures small { result ≡ TOO_SMALL → length bytes.old < len.new }
    ensures length { (values : List ℕ) → SampleHasValues service.old.domain (sample_key sample) values → len.new ≡ length values }
    ensures same { OK < result → bytes.new ≡ bytes.old }
    ensures same_numbers { result ≡ OK → out.new ≡ out.old }
    ensures stays { ServesBut (received_sample sample) service.old service.new }
{
    let from = sample.payload(&service.domain);
    *len = from.len();
    let code = copy_bytes(from, bytes);
    if code == OK {
        service.recording.taken(&sample, from);
        sample.release(&mut service.domain);
    } else {
        service.recording.received(&sample, from);
        *out = SampleNumbers::of(sample.into_parts());
    }
    code
}

/// Where the message of a sample comes from.
pub fn header(service: &Service, numbers: &SampleNumbers, out: &mut HeaderNumbers) -> u32
    ensures code { (result ≡ OK) ⊎ ((result ≡ NOT_LIVE) × (IsSampleKey service.now.domain (named_sample numbers.now) → ⊥)) }
    ensures live { result ≡ OK → IsSampleKey service.now.domain (named_sample numbers.now) }
    ensures reads { result ≡ OK → (header : Header) → SampleHasHeader service.now.domain (named_sample numbers.now) header → IsHeader header out.new }
    ensures same { OK < result → out.new ≡ out.old }
{
    let Some(sample) = live_sample(&service.domain, numbers) else {
        return NOT_LIVE;
    };
    *out = HeaderNumbers::of(sample.header(&service.domain));
    sample.disown();
    OK
}

/// A handle of a sample that is where its numbers say, and was borrowed last there.
#[inline(always)]
pub fn sample_at_hint(domain: &mut BytesDomain, numbers: &SampleNumbers) -> Option<Sample>
    ensures live { IfSome result (λ it. IsLiveSample domain.new it) }
    ensures named { IfSome result (λ it. sample_key it ≡ named_sample numbers.now) }
    ensures number { IfSome result (λ it. sample_number it ≡ wide (numbers.now).number) }
    ensures receiver { IfSome result (λ it. receiver_of it ≡ wide (numbers.now).subscriber) }
    ensures same { domain.new ≡ domain.old }
{
    domain.sample_at_hint(&numbers.parts())
}

/// Gives a message back.
pub fn release(service: &mut Service, numbers: &SampleNumbers) -> u32
    ensures { ReleaseReturns numbers.now service.old service.new result }
{
    if service.recording.is_on() {
        return release_recorded(service, numbers);
    }
    let Some(sample) = sample_at_hint(&mut service.domain, numbers) else {
        return release_elsewhere(service, numbers);
    };
    sample.release(&mut service.domain);
    OK
}

// The same, where the sample is sought.
#[cold]
#[inline(never)]
fn release_elsewhere(service: &mut Service, numbers: &SampleNumbers) -> u32
    ensures { ReleaseReturns numbers.now service.old service.new result }
{
    let Some(sample) = live_sample(&service.domain, numbers) else {
        return NOT_LIVE;
    };
    sample.release(&mut service.domain);
    OK
}

// The same, and it is recorded.
#[cold]
#[inline(never)]
fn release_recorded(service: &mut Service, numbers: &SampleNumbers) -> u32
    ensures { ReleaseReturns numbers.now service.old service.new result }
{
    let code = release_elsewhere(service, numbers);
    service.recording.released(numbers.key(), code);
    code
}
