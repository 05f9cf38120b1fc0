//! What a domain is asked that changes only connections.
ghost use Rattle.std.specs.Prelude.{Bool, cond, drop, length, slice_get, ◌≡◌, ◌≢◌, ◌<◌, ◌≤◌, ◌⊎◌, ◌↔◌, IfErr, IfOk, IfSome, None};
ghost use Rattle.std.specs.declared.result.Result.{Result};
ghost use Rattle.std.specs.List.{count_by};
ghost use Rattle.std.specs.Option.{is_some};
ghost use Rattle.circular_buffer.specs.Buffer.{buffer};
ghost use Rattle.iox2_machine.specs.machine.Limits.{warning_limit};
ghost use Rattle.iox2_machine.specs.declared.errors.ConnectionFailure.{ConnectionFailure};
ghost use Rattle.iox2_pubsub.specs.Live.{IsBlockedKey, IsPublisherKey, IsSubscriberKey, IsUnblocked, No_item};
ghost use Rattle.iox2_c.specs.Calls.{RefusesPublisher};
ghost use Rattle.iox2_c.specs.Channels.{TellsBlocker};
ghost use Rattle.iox2_c.specs.Codes.{code_of, failure_code, first_error_code, invalid_struct_size};
ghost use Rattle.iox2_c.specs.Numbers.{named_loan, named_publisher, named_subscriber, wide};
ghost use Rattle.iox2_c.specs.Serving.{ServesBut};
ghost use Rattle.iox2_c.specs.Settings.{config_size, settings_in, settings_of};
ghost use Rattle.iox2_c.specs.Warnings.{TellsOf};
ghost use Rattle.iox2_c.specs.Steps.{Asks, PublisherUpdates, SubscriberUpdates};

use crate::calls::publishers::ready_publisher;
use crate::calls::samples::copy_bytes;
use crate::calls::subscribers::live_subscriber;
use crate::config::{CONFIG_SIZE, Config};
use crate::numbers::{LoanNumbers, PublisherNumbers, SubscriberNumbers, Wide};
use crate::recording::{Recording, error_of};
use crate::service::Service;
use crate::status::{
    INVALID_STRUCT_SIZE, NO_DOMAIN, NOT_LIVE, OK, OUT_OF_MEMORY, TOO_SMALL, failure_status,
};
use crate::warning::{WarningNumbers, numbers_of};
use call_recorder::Name;
use iox2_pubsub::{ConnectionFailure, UpdateConnections};
use std::alloc::Global;

/// Makes and removes a publisher's connections.
pub fn update_publisher(service: &mut Service, numbers: &PublisherNumbers) -> u32
    ensures code { result ≡ NO_DOMAIN → ⊥ }
    ensures updates { (result ≡ OK) ⊎ (first_error_code ≤ result) → (updated : Result (Unit {0}) ConnectionFailure)
        × (result ≡ code_of failure_code updated)
        × PublisherUpdates service.old.domain service.new.domain (wide (numbers.now).id) updated }
    ensures why { NO_DOMAIN < result → result < first_error_code
        → RefusesPublisher service.old.domain (named_publisher numbers.now) result × (service.new ≡ service.old) }
    ensures stays { ServesBut No_item service.old service.new }
{
    let publisher = match ready_publisher(&service.domain, numbers) {
        Ok(publisher) => publisher,
        Err(code) => {
            service.recording.update(numbers.name(), code, None);
            return code;
        }
    };
    let updated = publisher.update_connections(&mut service.domain);
    publisher.disown();
    tell_update(&mut service.recording, numbers.name(), updated)
}

/// Makes and removes a subscriber's connections.
pub fn update_subscriber(service: &mut Service, numbers: &SubscriberNumbers) -> u32
    ensures code { result ≡ NO_DOMAIN → ⊥ }
    ensures updates { (result ≡ NOT_LIVE → ⊥) → (updated : Result (Unit {0}) ConnectionFailure)
        × (result ≡ code_of failure_code updated)
        × SubscriberUpdates service.old.domain service.new.domain (wide (numbers.now).id) updated }
    ensures not_live { result ≡ NOT_LIVE → (IsSubscriberKey service.old.domain (named_subscriber numbers.now) → ⊥) × (service.new ≡ service.old) }
    ensures stays { ServesBut No_item service.old service.new }
{
    let Some(subscriber) = live_subscriber(&service.domain, numbers) else {
        service.recording.update(numbers.name(), NOT_LIVE, None);
        return NOT_LIVE;
    };
    let updated = subscriber.update_connections(&mut service.domain);
    subscriber.disown();
    tell_update(&mut service.recording, numbers.name(), updated)
}

/// Whether a message waits for a subscriber, after an update.
pub fn has_samples(service: &mut Service, numbers: &SubscriberNumbers, waits: &mut u32) -> u32
    ensures code { result ≡ NO_DOMAIN → ⊥ }
    ensures answers { (result ≡ NOT_LIVE → ⊥) → (answer : Result Bool ConnectionFailure)
        × (result ≡ code_of failure_code answer) × IfOk answer (λ some_wait. waits.new ≡ cond some_wait 1 0)
        × Asks service.old.domain service.new.domain (wide (numbers.now).id) answer }
    ensures not_live { result ≡ NOT_LIVE → (IsSubscriberKey service.old.domain (named_subscriber numbers.now) → ⊥) × (service.new ≡ service.old) }
    ensures same { OK < result → waits.new ≡ waits.old }
    ensures stays { ServesBut No_item service.old service.new }
{
    let Some(subscriber) = live_subscriber(&service.domain, numbers) else {
        service.recording.question(numbers, NOT_LIVE, 0, None);
        return NOT_LIVE;
    };
    let answer = subscriber.has_samples(&mut service.domain);
    subscriber.disown();
    let failed = error_of(&answer);
    let code = tell_answer(answer, waits);
    service.recording.question(numbers, code, *waits, failed);
    code
}

// Records an update of the port with this name, and returns its code.
fn tell_update(recording: &mut Recording, name: Name, updated: Result<(), ConnectionFailure>) -> u32
    ensures { result ≡ code_of failure_code updated }
{
    let failed = error_of(&updated);
    let code = match updated {
        Ok(()) => OK,
        Err(failure) => failure_status(failure),
    };
    recording.update(name, code, failed);
    code
}

// The outcome of the question: its code, and the answer.
fn tell_answer(answer: Result<bool, ConnectionFailure>, waits: &mut u32) -> u32
    ensures code { result ≡ code_of failure_code answer }
    ensures tells { IfOk answer (λ some_wait. waits.new ≡ cond some_wait 1 0) }
    ensures same { IfErr answer (λ _. waits.new ≡ waits.old) }
{
    match answer {
        Ok(some_wait) => {
            *waits = number_of(some_wait);
            OK
        }
        Err(failure) => failure_status(failure),
    }
}

/// 1 for what is so, and else 0.
pub fn number_of(is_so: bool) -> u32
    ensures { result ≡ cond is_so 1 0 }
{
    if is_so { 1 } else { 0 }
}

/// Whether a send of a publisher waits.
pub fn is_blocked(service: &Service, numbers: &PublisherNumbers, out: &mut u32) -> u32
    ensures code { (result ≡ OK) ⊎ ((result ≡ NOT_LIVE) × (IsPublisherKey service.now.domain (named_publisher numbers.now) → ⊥)) }
    ensures live { result ≡ OK → IsPublisherKey service.now.domain (named_publisher numbers.now) }
    ensures tells { result ≡ OK → (out.new ≡ 0) ↔ IsUnblocked service.now.domain (named_publisher numbers.now) }
    ensures answer { result ≡ OK → (out.new ≡ 0) ⊎ (out.new ≡ 1) }
    ensures same { OK < result → out.new ≡ out.old }
{
    let Some(publisher) = service.domain.publisher_of(&numbers.parts()) else {
        return NOT_LIVE;
    };
    *out = number_of(publisher.is_blocked(&service.domain));
    publisher.disown();
    OK
}

/// One of the domain's last warnings, the oldest first.
pub fn warning(service: &Service, index: usize, out: &mut WarningNumbers) -> u32
    ensures code { (result ≡ OK) ⊎ ((result ≡ NOT_LIVE) × (slice_get (buffer (service.now.domain.warnings).latest warning_limit).items index ≡ None)) }
    ensures reads { result ≡ OK → IfSome (slice_get (buffer (service.now.domain.warnings).latest warning_limit).items
        index) (λ warning. TellsOf warning out.new) }
    ensures same { OK < result → out.new ≡ out.old }
{
    match service.domain.warnings().get(index) {
        Some(warning) => {
            *out = numbers_of(*warning);
            OK
        }
        None => NOT_LIVE,
    }
}

/// How many of its last warnings the domain has.
pub fn warning_count(service: &Service, count: &mut usize) -> u32
    ensures code { result ≡ OK }
    ensures counts { count.new ≡ length (buffer (service.now.domain.warnings).latest warning_limit).items }
{
    *count = service.domain.warnings().len();
    OK
}

/// How often memory for a connection was refused.
pub fn refused_connections(service: &Service, count: &mut u64) -> u32
    ensures code { result ≡ OK }
    ensures counts { count.new ≡ (service.now.domain.warnings).refused_connections }
{
    *count = service.domain.refused_connections();
    OK
}

/// How many connections the domain keeps.
pub fn connection_count(service: &Service, count: &mut usize) -> u32
    ensures code { result ≡ OK }
    ensures counts { count.new ≡ count_by is_some service.now.domain.connections }
{
    *count = service.domain.connection_count();
    OK
}

/// How many books of slots the domain keeps.
pub fn book_count(service: &Service, count: &mut usize) -> u32
    ensures code { result ≡ OK }
    ensures counts { count.new ≡ count_by is_some service.now.domain.books }
{
    *count = service.domain.book_count();
    OK
}

/// The subscriber that a blocked send waits for.
pub fn blocker(service: &Service, numbers: &LoanNumbers, subscriber: &mut Wide) -> u32
    ensures code { (result ≡ OK) ⊎ (result ≡ NOT_LIVE) }
    ensures live { result ≡ OK → IsBlockedKey service.now.domain (named_loan numbers.now) }
    ensures tells { result ≡ OK → TellsBlocker service.now.domain (wide (numbers.now).publisher) (wide subscriber.new) }
    ensures not_live { result ≡ NOT_LIVE → IsBlockedKey service.now.domain (named_loan numbers.now) → ⊥ }
    ensures same { OK < result → subscriber.new ≡ subscriber.old }
{
    let Some(waiting) = service.domain.blocked_of(&numbers.parts()) else {
        return NOT_LIVE;
    };
    *subscriber = Wide::of(waiting.subscriber(&service.domain).value());
    waiting.disown();
    OK
}

/// The domain's settings, for a struct of that size.
pub fn config(service: &Service, out: &mut Config, struct_size: usize) -> u32
    ensures code { (result ≡ OK) ⊎ (result ≡ invalid_struct_size) }
    ensures unknown { (result ≡ invalid_struct_size) ↔ (struct_size ≢ config_size) }
    ensures known { result ≡ OK → (out.new).struct_size ≡ config_size }
    ensures reads { result ≡ OK → settings_of out.new ≡ settings_in service.now.domain }
    ensures size { result ≡ OK → (out.new).payload_size ≡ service.now.payload_size }
    ensures alignment { result ≡ OK → (out.new).payload_alignment ≡ service.now.payload_alignment }
    ensures same { OK < result → out.new ≡ out.old }
{
    if struct_size != CONFIG_SIZE {
        return INVALID_STRUCT_SIZE;
    }
    *out = Config::of(
        service.domain.config(),
        service.payload_size,
        service.payload_alignment,
    );
    OK
}

/// Writes the text of what was recorded of the domain, if there is room for it, and says how long it is
/// and how many commands were missed.
pub fn recording(
    alloc: Global,
    service: &Service,
    bytes: &mut [u8],
    len: &mut usize,
    missed: &mut u64,
) -> u32
    ensures code { (result ≡ OK) ⊎ (result ≡ OUT_OF_MEMORY) ⊎ (result ≡ TOO_SMALL) }
    ensures fits { result ≡ OK → len.new ≤ length bytes.old }
    ensures small { result ≡ TOO_SMALL → length bytes.old < len.new }
    ensures rest { result ≡ OK → drop len.new bytes.new ≡ drop len.new bytes.old }
    ensures same { OK < result → bytes.new ≡ bytes.old }
{
    let Ok(text) = service.recording.text(alloc, service.domain.config()) else {
        return OUT_OF_MEMORY;
    };
    *len = text.len();
    *missed = service.recording.missed();
    copy_bytes(text.as_bytes(), bytes)
}
