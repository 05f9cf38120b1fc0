//! The calls of publishers.
ghost use Rattle.std.specs.Prelude.{ℕ, ◌≡◌, ◌<◌, ◌≤◌, ◌⊎◌, Err, IfErr, IfOk, None, Ok, Some};
ghost use Rattle.iox2_machine.specs.declared.errors.PublisherCreateError.{PublisherCreateError};
ghost use Rattle.iox2_pubsub.specs.Factories.{with_slots};
ghost use Rattle.iox2_pubsub.specs.Handles.{max_slice_len_of, strategy_of as handle_strategy, as_publisher, publisher_id};
ghost use Rattle.iox2_pubsub.specs.Live.{A_publisher, IsNewIn, IsPublisherKey, IsReadyPublisher, No_item, publisher_key};
ghost use Rattle.iox2_c.specs.Calls.{IsReadyKey, MakesPublisher, RefusesPublisher};
ghost use Rattle.iox2_c.specs.Codes.{code_of, first_setting_code, publisher_code, slots_numbered, strategy_numbered};
ghost use Rattle.iox2_c.specs.Numbers.{named_publisher, wide};
ghost use Rattle.iox2_c.specs.Serving.{ServesBut};
ghost use Rattle.iox2_c.specs.Settings.{ReadsSettings, invalid_publisher_option, plain_publisher_settings, settings_of_options, unasked_settings};
ghost use Rattle.iox2_c.specs.Steps.{ClosesPublisher, CreatesPublisher};

use crate::config::{Config, strategy_of};
use crate::numbers::PublisherNumbers;
use crate::options::{PublisherOptions, allocation_of, degradation_of};
use crate::recording::publisher_reply;
use crate::service::{BytesDomain, Service};
use crate::status::{NOT_LIVE, OK, PUBLISHER_IS_BLOCKED, publisher_status};
use iox2_pubsub::slice::{PortFactoryPublisher, Publisher};
use iox2_pubsub::{NoHandler, PublisherCreateError};

// A factory of publishers without an override.
type Factory = PortFactoryPublisher<NoHandler, NoHandler>;

/// Makes a publisher, as the settings say.
pub fn create(service: &mut Service, out: &mut PublisherNumbers) -> u32
    ensures creates { result ≡ OK → CreatesPublisher service.old.domain service.new.domain (plain_publisher_settings service.old) (Ok (wide (out.new).id)) }
    ensures errors { OK < result → (error : PublisherCreateError) × (result ≡ publisher_code error)
        × CreatesPublisher service.old.domain service.new.domain (plain_publisher_settings service.old) (Err error) }
    ensures ready { result ≡ OK → IsReadyKey service.new.domain (named_publisher out.new) }
    ensures new { result ≡ OK → IsNewIn service.old.domain (A_publisher (wide (out.new).id)) }
    ensures reads { result ≡ OK → ReadsSettings out.new (plain_publisher_settings service.old) }
    ensures same { OK < result → out.new ≡ out.old }
    ensures stays { ServesBut No_item service.old service.new }
{
    let factory = plain_factory(service);
    let made = factory.create(&mut service.domain);
    let reply = publisher_reply(&made);
    let code = tell(made, out);
    let plain = Config::of(service.domain.config(), service.payload_size, 1);
    let options = PublisherOptions::of(&plain);
    service.recording.publisher(&options, reply);
    code
}

// A factory of publishers without options.
fn plain_factory(service: &Service) -> Factory
    ensures { result.settings ≡ plain_publisher_settings service.now }
{
    let factory = service.domain.slice_publisher_builder();
    factory.initial_max_slice_len(service.payload_size)
}

// The outcome of making a publisher: its code, and its numbers if it was made.
fn tell(made: Result<Publisher, PublisherCreateError>, out: &mut PublisherNumbers) -> u32
    ensures code { result ≡ code_of publisher_code made }
    ensures named { IfOk made (λ it. named_publisher out.new ≡ publisher_key (as_publisher it)) }
    ensures longest { IfOk made (λ it. (out.new).initial_max_slice_len ≡ max_slice_len_of (as_publisher it)) }
    ensures strategy { IfOk made (λ it. strategy_numbered (out.new).backpressure_strategy ≡ handle_strategy (as_publisher it)) }
    ensures same { IfErr made (λ _. out.new ≡ out.old) }
{
    match made {
        Ok(publisher) => {
            *out = PublisherNumbers::of(publisher.into_inner().into_parts());
            OK
        }
        Err(error) => publisher_status(error),
    }
}

// A factory of publishers with these options, which have the worst case of slots in a segment.
fn factory_with(service: &Service, options: &PublisherOptions) -> Factory
    ensures { result.settings ≡ unasked_settings (service.now.domain).config options.now }
{
    let plain = service
        .domain
        .slice_publisher_builder()
        .max_loaned_samples(options.max_loaned_samples)
        .allocation_strategy(allocation_of(options.allocation_strategy))
        .initial_max_slice_len(options.initial_max_slice_len)
        .backpressure_strategy(strategy_of(options.backpressure_strategy))
        .set_degradation_handler(degradation_of(options.degradation));
    match options.handler() {
        Some(handler) => plain.set_backpressure_handler(handler),
        None => plain,
    }
}

// Makes a publisher by the factory, with an override that always asks for that many slots.
fn create_asked<P: Fn(usize) -> usize + Drop>(
    domain: &mut BytesDomain,
    factory: Factory,
    slots: usize,
    callback: P,
) -> Result<Publisher, PublisherCreateError>
    requires can_ask { P.IsAlwaysCallable callback }
    requires asks { (worst n : ℕ) → P.post callback worst n → n ≡ slots }
    ensures { MakesPublisher (with_slots factory.settings (Some slots)) domain.old domain.new result }
{
    let asking = factory.override_sample_preallocation(callback);
    asking.create(domain)
}

// Makes a publisher by the factory, which asks for that many slots, or for the worst case if that is 0.
fn create_by(
    domain: &mut BytesDomain,
    factory: Factory,
    slots: usize,
) -> Result<Publisher, PublisherCreateError>
    requires { factory.settings.asked_slots ≡ None }
    ensures { MakesPublisher (with_slots factory.settings (slots_numbered slots)) domain.old domain.new result }
{
    if slots == 0 {
        factory.create(domain)
    } else {
        create_asked(domain, factory, slots, move |_| slots)
    }
}

/// Makes a publisher with these options.
pub fn create_with(
    service: &mut Service,
    options: &PublisherOptions,
    out: &mut PublisherNumbers,
) -> u32
    ensures creates { result ≡ OK → CreatesPublisher service.old.domain service.new.domain
        (settings_of_options (service.old.domain).config options.now) (Ok (wide (out.new).id)) }
    ensures errors { OK < result → result < first_setting_code → (error : PublisherCreateError)
        × (result ≡ publisher_code error)
        × CreatesPublisher service.old.domain service.new.domain
        (settings_of_options (service.old.domain).config options.now) (Err error) }
    ensures valid { result < first_setting_code → invalid_publisher_option service.old.payload_alignment options.now ≡ 0 }
    ensures invalid { first_setting_code ≤ result
        → (result ≡ invalid_publisher_option service.old.payload_alignment options.now)
        × (service.new ≡ service.old) }
    ensures ready { result ≡ OK → IsReadyKey service.new.domain (named_publisher out.new) }
    ensures new { result ≡ OK → IsNewIn service.old.domain (A_publisher (wide (out.new).id)) }
    ensures reads { result ≡ OK → ReadsSettings out.new (settings_of_options (service.old.domain).config options.now) }
    ensures same { OK < result → out.new ≡ out.old }
    ensures stays { ServesBut No_item service.old service.new }
{
    let invalid = options.first_invalid(service.payload_alignment);
    if invalid != OK {
        return invalid;
    }
    let factory = factory_with(service, options);
    let made = create_by(&mut service.domain, factory, options.preallocated_samples);
    let reply = publisher_reply(&made);
    let code = tell(made, out);
    service.recording.publisher(options, reply);
    code
}

/// A handle of a publisher that may be called, or the code that says why there is none.
#[inline(always)]
pub fn ready_publisher(domain: &BytesDomain, numbers: &PublisherNumbers) -> Result<Publisher, u32>
    ensures ready { IfOk result (λ it. IsReadyPublisher domain.now (as_publisher it)) }
    ensures named { IfOk result (λ it. publisher_key (as_publisher it) ≡ named_publisher numbers.now) }
    ensures id { IfOk result (λ it. publisher_id (as_publisher it) ≡ wide (numbers.now).id) }
    ensures refused { IfErr result (RefusesPublisher domain.now (named_publisher numbers.now)) }
{
    let Some(handle) = domain.publisher_of(&numbers.parts()) else {
        return Err(NOT_LIVE);
    };
    let publisher = Publisher::new(handle);
    if publisher.is_blocked(domain) {
        publisher.disown();
        return Err(PUBLISHER_IS_BLOCKED);
    }
    Ok(publisher)
}

/// Closes a publisher.
pub fn close(service: &mut Service, numbers: &PublisherNumbers) -> u32
    ensures code { (result ≡ OK) ⊎ RefusesPublisher service.old.domain (named_publisher numbers.now) result }
    ensures ready { result ≡ OK → IsReadyKey service.old.domain (named_publisher numbers.now) }
    ensures closed { result ≡ OK → ClosesPublisher service.old.domain service.new.domain (wide (numbers.now).id) }
    ensures spent { result ≡ OK → IsPublisherKey service.new.domain (named_publisher numbers.now) → ⊥ }
    ensures refused { OK < result → service.new ≡ service.old }
    ensures stays { ServesBut (A_publisher (wide (numbers.now).id)) service.old service.new }
{
    match ready_publisher(&service.domain, numbers) {
        Ok(publisher) => {
            publisher.close(&mut service.domain);
            service.recording.close(numbers.name(), OK);
            OK
        }
        Err(code) => {
            service.recording.close(numbers.name(), code);
            code
        }
    }
}
