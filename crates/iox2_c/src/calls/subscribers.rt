//! The calls of subscribers.
ghost use Rattle.std.specs.Prelude.{ℕ, List, length, take, ◌≡◌, ◌≢◌, ◌<◌, ◌≤◌, ◌⊎◌, Err, IfErr, IfNone, IfOk, IfSome, Ok};
ghost use Rattle.iox2_machine.specs.declared.errors.ReceiveError.{ReceiveError};
ghost use Rattle.iox2_machine.specs.declared.errors.SubscriberCreateError.{SubscriberCreateError};
ghost use Rattle.iox2_machine.specs.declared.key.Key.{Key};
ghost use Rattle.iox2_machine.specs.machine.Receives.{Got_sample, No_sample, Receive_error};
ghost use Rattle.iox2_pubsub.specs.Handles.{as_subscriber, buffer_size_of, origin_of, receiver_of, subscriber_id};
ghost use Rattle.iox2_pubsub.specs.Slices.{SampleHasValues};
ghost use Rattle.iox2_pubsub.specs.Live.{A_sample, A_subscriber, IsLiveSample, IsLiveSubscriber, IsNewIn, IsSampleKey, IsSubscriberKey, No_item};
ghost use Rattle.iox2_pubsub.specs.Live.{sample_key, subscriber_key};
ghost use Rattle.iox2_c.specs.Codes.{code_of, first_setting_code, receive_code, subscriber_code};
ghost use Rattle.iox2_c.specs.Numbers.{named_sample, named_subscriber, wide};
ghost use Rattle.iox2_c.specs.Returns.{ReceiveReturns};
ghost use Rattle.iox2_c.specs.Serving.{ServesBut};
ghost use Rattle.iox2_c.specs.Settings.{invalid_subscriber_option, plain_subscriber_settings, subscriber_settings};
ghost use Rattle.iox2_c.specs.Steps.{ClosesSubscriber, CreatesSubscriber, SubscriberReceives, ReceivesCopy};

use crate::calls::samples;
use crate::config::Config;
use crate::numbers::{SampleNumbers, SubscriberNumbers};
use crate::options::{SubscriberOptions, degradation_of};
use crate::recording::subscriber_reply;
use crate::service::{BytesDomain, Service};
use crate::starts::start_of;
use crate::status::{
    NO_DOMAIN, NO_SAMPLE, NOT_LIVE, OK, TOO_SMALL, receive_status, subscriber_status,
};
use iox2_pubsub::slice::{PortFactorySubscriber, Sample, Subscriber};
use iox2_pubsub::{NoHandler, ReceiveError, SubscriberCreateError};

/// Makes a subscriber, as the settings say.
pub fn create(service: &mut Service, out: &mut SubscriberNumbers) -> u32
    ensures creates { result ≡ OK → CreatesSubscriber service.old.domain service.new.domain (plain_subscriber_settings service.old) (Ok out.new) }
    ensures errors { OK < result → (error : SubscriberCreateError) × (result ≡ subscriber_code error)
        × CreatesSubscriber service.old.domain service.new.domain (plain_subscriber_settings service.old) (Err error) }
    ensures live { result ≡ OK → IsSubscriberKey service.new.domain (named_subscriber out.new) }
    ensures new { result ≡ OK → IsNewIn service.old.domain (A_subscriber (wide (out.new).id)) }
    ensures same { OK < result → out.new ≡ out.old }
    ensures stays { ServesBut No_item service.old service.new }
{
    let factory = service.domain.slice_subscriber_builder();
    let made = factory.create(&mut service.domain);
    let reply = subscriber_reply(&made);
    let code = tell(made, out);
    let plain = Config::of(service.domain.config(), 1, 1);
    let options = SubscriberOptions::of(&plain);
    service.recording.subscriber(&options, reply);
    code
}

// A factory of subscribers with these options.
fn factory_with(service: &Service, options: &SubscriberOptions) -> PortFactorySubscriber<NoHandler>
    ensures { result.settings ≡ subscriber_settings options.now }
{
    let plain = service.domain.slice_subscriber_builder();
    plain
        .buffer_size(options.buffer_size)
        .set_degradation_handler(degradation_of(options.degradation))
}

// The outcome of making a subscriber: its code, and its numbers if it was made.
fn tell(made: Result<Subscriber, SubscriberCreateError>, out: &mut SubscriberNumbers) -> u32
    ensures code { result ≡ code_of subscriber_code made }
    ensures named { IfOk made (λ it. named_subscriber out.new ≡ subscriber_key (as_subscriber it)) }
    ensures buffer { IfOk made (λ it. (out.new).buffer_size ≡ buffer_size_of (as_subscriber it)) }
    ensures same { IfErr made (λ _. out.new ≡ out.old) }
{
    match made {
        Ok(subscriber) => {
            *out = SubscriberNumbers::of(subscriber.into_inner().into_parts());
            OK
        }
        Err(error) => subscriber_status(error),
    }
}

/// Makes a subscriber with these options.
pub fn create_with(
    service: &mut Service,
    options: &SubscriberOptions,
    out: &mut SubscriberNumbers,
) -> u32
    ensures creates { result ≡ OK → CreatesSubscriber service.old.domain service.new.domain (subscriber_settings options.now) (Ok out.new) }
    ensures errors { OK < result → result < first_setting_code → (error : SubscriberCreateError)
        × (result ≡ subscriber_code error)
        × CreatesSubscriber service.old.domain service.new.domain (subscriber_settings options.now) (Err error) }
    ensures valid { result < first_setting_code → invalid_subscriber_option options.now ≡ 0 }
    ensures invalid { first_setting_code ≤ result → (result ≡ invalid_subscriber_option options.now) × (service.new ≡ service.old) }
    ensures live { result ≡ OK → IsSubscriberKey service.new.domain (named_subscriber out.new) }
    ensures new { result ≡ OK → IsNewIn service.old.domain (A_subscriber (wide (out.new).id)) }
    ensures same { OK < result → out.new ≡ out.old }
    ensures stays { ServesBut No_item service.old service.new }
{
    let invalid = options.first_invalid();
    if invalid != OK {
        return invalid;
    }
    let factory = factory_with(service, options);
    let made = factory.create(&mut service.domain);
    let reply = subscriber_reply(&made);
    let code = tell(made, out);
    service.recording.subscriber(options, reply);
    code
}

/// A handle of a subscriber that wasn't closed.
#[inline(always)]
pub fn live_subscriber(domain: &BytesDomain, numbers: &SubscriberNumbers) -> Option<Subscriber>
    ensures live { IfSome result (λ it. IsLiveSubscriber domain.now (as_subscriber it)) }
    ensures named { IfSome result (λ it. subscriber_key (as_subscriber it) ≡ named_subscriber numbers.now) }
    ensures id { IfSome result (λ it. subscriber_id (as_subscriber it) ≡ wide (numbers.now).id) }
    ensures none { IfNone result (IsSubscriberKey domain.now (named_subscriber numbers.now) → ⊥) }
{
    let handle = domain.subscriber_of(&numbers.parts())?;
    Some(Subscriber::new(handle))
}

/// Closes a subscriber.
pub fn close(service: &mut Service, numbers: &SubscriberNumbers) -> u32
    ensures code { (result ≡ OK) ⊎ ((result ≡ NOT_LIVE) × (IsSubscriberKey service.old.domain (named_subscriber numbers.now) → ⊥)) }
    ensures live { result ≡ OK → IsSubscriberKey service.old.domain (named_subscriber numbers.now) }
    ensures closed { result ≡ OK → ClosesSubscriber service.old.domain service.new.domain (wide (numbers.now).id) }
    ensures spent { IsSubscriberKey service.new.domain (named_subscriber numbers.now) → ⊥ }
    ensures refused { OK < result → service.new ≡ service.old }
    ensures stays { ServesBut (A_subscriber (wide (numbers.now).id)) service.old service.new }
{
    let Some(subscriber) = live_subscriber(&service.domain, numbers) else {
        service.recording.close(numbers.name(), NOT_LIVE);
        return NOT_LIVE;
    };
    subscriber.close(&mut service.domain);
    service.recording.close(numbers.name(), OK);
    OK
}

/// Receives a message, and says where its bytes lie.
pub fn receive(
    service: &mut Service,
    numbers: &SubscriberNumbers,
    out: &mut SampleNumbers,
    payload: &mut *const u8,
    len: &mut usize,
) -> u32
    ensures { ReceiveReturns numbers.now service.old service.new out.old out.new len.old len.new result }
{
    if service.recording.is_on() {
        return receive_recorded(service, numbers, out, payload, len);
    }
    if service.domain.receives_at_once(&numbers.parts()) {
        receive_named(service, numbers, out, payload, len, &mut None)
    } else {
        receive_elsewhere(service, numbers, out, payload, len, &mut None)
    }
}

// The same, and why it failed, if it did. What was found before of the subscriber isn't tested again
// here.
#[inline(always)]
fn receive_named(
    service: &mut Service,
    numbers: &SubscriberNumbers,
    out: &mut SampleNumbers,
    payload: &mut *const u8,
    len: &mut usize,
    failed: &mut Option<ReceiveError>,
) -> u32
    ensures { ReceiveReturns numbers.now service.old service.new out.old out.new len.old len.new result }
{
    let Some(subscriber) = live_subscriber(&service.domain, numbers) else {
        return NOT_LIVE;
    };
    let received = subscriber.receive(&mut service.domain);
    subscriber.disown();
    match received {
        Ok(Some(sample)) => tell_received(service, numbers, sample, out, payload, len),
        Ok(None) => NO_SAMPLE,
        Err(error) => {
            *failed = Some(error);
            receive_status(error)
        }
    }
}

// The outcome of a receive: the sample's numbers, and where its bytes are. The ids that it shares with
// its subscriber are in that one's numbers. It is where its numbers say.
#[inline(always)]
fn tell_received(
    service: &Service,
    numbers: &SubscriberNumbers,
    sample: Sample,
    out: &mut SampleNumbers,
    payload: &mut *const u8,
    len: &mut usize,
) -> u32
    requires live { IsLiveSample service.now.domain sample }
    requires service { (sample_key sample).service_id ≡ wide (numbers.now).service_id }
    requires receiver { receiver_of sample ≡ wide (numbers.now).id }
    ensures code { result ≡ OK }
    ensures named { named_sample out.new ≡ sample_key sample }
    ensures origin { wide (out.new).origin ≡ origin_of sample }
    ensures length { (values : List ℕ) → SampleHasValues service.now.domain (sample_key sample) values → len.new ≡ length values }
{
    match sample.payload_at_hint(&service.domain) {
        Some(bytes) => {
            *payload = start_of(bytes);
            *len = bytes.len();
            *out = SampleNumbers::received_by(numbers, &sample.into_parts());
            OK
        }
        None => {
            *out = SampleNumbers::received_by(numbers, &sample.into_parts());
            payload_elsewhere(service, out, payload, len)
        }
    }
}

// Where the bytes of a live sample lie, which is sought.
#[cold]
#[inline(never)]
fn payload_elsewhere(
    service: &Service,
    numbers: &SampleNumbers,
    out: &mut *const u8,
    len: &mut usize,
) -> u32
    requires { IsSampleKey service.now.domain (named_sample numbers.now) }
    ensures code { result ≡ OK }
    ensures length { (values : List ℕ) → SampleHasValues service.now.domain (named_sample numbers.now) values → len.new ≡ length values }
{
    samples::payload(service, numbers, out, len)
}

// The same, where the subscriber is sought.
#[cold]
#[inline(never)]
fn receive_elsewhere(
    service: &mut Service,
    numbers: &SubscriberNumbers,
    out: &mut SampleNumbers,
    payload: &mut *const u8,
    len: &mut usize,
    failed: &mut Option<ReceiveError>,
) -> u32
    ensures { ReceiveReturns numbers.now service.old service.new out.old out.new len.old len.new result }
{
    receive_named(service, numbers, out, payload, len, failed)
}

// The same, and it is recorded.
#[cold]
#[inline(never)]
fn receive_recorded(
    service: &mut Service,
    numbers: &SubscriberNumbers,
    out: &mut SampleNumbers,
    payload: &mut *const u8,
    len: &mut usize,
) -> u32
    ensures { ReceiveReturns numbers.now service.old service.new out.old out.new len.old len.new result }
{
    let mut failed = None;
    let code = receive_elsewhere(service, numbers, out, payload, len, &mut failed);
    if code == OK {
        record_sample(service, out);
    } else {
        service.recording.received_nothing(numbers, code, failed);
    }
    code
}

// Records that the message with these numbers was received, and its bytes.
fn record_sample(service: &mut Service, numbers: &SampleNumbers)
    ensures { service.new ≡ service.old }
{
    let sample = match samples::sample_at_hint(&mut service.domain, numbers) {
        Some(sample) => Some(sample),
        None => samples::live_sample(&service.domain, numbers),
    };
    if let Some(sample) = sample {
        let bytes = sample.payload(&service.domain);
        service.recording.received(&sample, bytes);
        sample.disown();
    }
}

/// Receives a message, copies its bytes and releases it. Where there are more bytes than there is room
/// for, the message stays borrowed, and its numbers are handed out.
pub fn receive_copy(
    service: &mut Service,
    numbers: &SubscriberNumbers,
    bytes: &mut [u8],
    len: &mut usize,
    out: &mut SampleNumbers,
) -> u32
    ensures code { result ≡ NO_DOMAIN → ⊥ }
    ensures copied { result ≡ OK → (key : Key) × (key.port ≡ wide (numbers.now).id) × (origin : ℕ)
        × ReceivesCopy service.old.domain service.new.domain key origin (take len.new bytes.new) }
    ensures fits { result ≡ OK → len.new ≤ length bytes.old }
    ensures kept { result ≡ TOO_SMALL → SubscriberReceives service.old.domain service.new.domain (wide (numbers.now).id)
        (Got_sample (wide (out.new).origin) (wide (out.new).number)) }
    ensures live { result ≡ TOO_SMALL → IsSampleKey service.new.domain (named_sample out.new) }
    ensures new { result ≡ TOO_SMALL → IsNewIn service.old.domain (A_sample (wide (out.new).subscriber) (wide (out.new).number)) }
    ensures small { result ≡ TOO_SMALL → length bytes.old < len.new }
    ensures length { result ≡ TOO_SMALL → (values : List ℕ) → SampleHasValues service.new.domain (named_sample out.new) values → len.new ≡ length values }
    ensures nothing { result ≡ NO_SAMPLE → SubscriberReceives service.old.domain service.new.domain (wide (numbers.now).id) No_sample }
    ensures errors { NO_SAMPLE < result → result ≢ TOO_SMALL → (error : ReceiveError) × (result ≡ receive_code error)
        × SubscriberReceives service.old.domain service.new.domain (wide (numbers.now).id) (Receive_error error) }
    ensures not_live { result ≡ NOT_LIVE → (IsSubscriberKey service.old.domain (named_subscriber numbers.now) → ⊥) × (service.new ≡ service.old) }
    ensures same { OK < result → bytes.new ≡ bytes.old }
    ensures same_numbers { result ≢ TOO_SMALL → out.new ≡ out.old }
    ensures same_length { OK < result → result ≢ TOO_SMALL → len.new ≡ len.old }
    ensures stays { ServesBut No_item service.old service.new }
{
    let Some(subscriber) = live_subscriber(&service.domain, numbers) else {
        service.recording.received_nothing(numbers, NOT_LIVE, None);
        return NOT_LIVE;
    };
    let received = subscriber.receive(&mut service.domain);
    subscriber.disown();
    match received {
        Ok(Some(sample)) => samples::copy_out(service, sample, bytes, len, out),
        Ok(None) => {
            service.recording.received_nothing(numbers, NO_SAMPLE, None);
            NO_SAMPLE
        }
        Err(error) => {
            let code = receive_status(error);
            service
                .recording
                .received_nothing(numbers, code, Some(error));
            code
        }
    }
}
