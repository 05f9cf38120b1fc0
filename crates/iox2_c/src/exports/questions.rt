//! The exports of questions.
ghost use Rattle.std.specs.Prelude.{◌≡◌, ◌≢◌, ◌<◌, ◌↔◌, None, Bool, cond, length, slice_get, ◌≤◌, ◌⊎◌, IfOk, IfSome};
ghost use Rattle.std.specs.declared.result.Result.{Result};
ghost use Rattle.std.specs.List.{count_by};
ghost use Rattle.std.specs.Option.{is_some};
ghost use Rattle.circular_buffer.specs.Buffer.{buffer};
ghost use Rattle.iox2_machine.specs.machine.Limits.{warning_limit};
ghost use Rattle.iox2_machine.specs.declared.errors.ConnectionFailure.{ConnectionFailure};
ghost use Rattle.iox2_pubsub.specs.Live.{IsBlockedKey, IsPublisherKey, IsSubscriberKey, IsUnblocked, No_item};
ghost use Rattle.iox2_c.specs.Boxed.{Becomes, HoldsOn, Knows, KnowsNo};
ghost use Rattle.iox2_c.specs.Calls.{RefusesPublisher};
ghost use Rattle.iox2_c.specs.Channels.{TellsBlocker};
ghost use Rattle.iox2_c.specs.Codes.{code_of, failure_code, first_error_code, invalid_struct_size};
ghost use Rattle.iox2_c.specs.Numbers.{named_loan, named_publisher, named_subscriber, wide};
ghost use Rattle.iox2_c.specs.Settings.{config_size, settings_in, settings_of};
ghost use Rattle.iox2_c.specs.Texts.{text_numbered};
ghost use Rattle.iox2_c.specs.Warnings.{TellsOf};
ghost use Rattle.iox2_c.specs.Steps.{Asks, PublisherUpdates, SubscriberUpdates};

use crate::calls::questions;
use crate::config::Config;
use crate::domain_box::DomainBox;
use crate::numbers::{LoanNumbers, PublisherNumbers, SubscriberNumbers, Wide};
use crate::status::{NO_DOMAIN, NO_SAMPLE, NOT_LIVE, OK};
use crate::texts::text_of;
use crate::warning::WarningNumbers;
use std::ptr;

/// The text of a code or of a warning's kind, which ends in a zero byte, and its length without that.
#[unsafe(no_mangle)]
pub extern "C" fn iox2ps_error_text_at(code: u32, text: &mut *const u8, len: &mut usize)
    ensures { len.new ≡ length (text_numbered code) }
{
    let bytes = text_of(code);
    *text = ptr::from_ref(&bytes[0]);
    *len = bytes.len() - 1;
}

/// The version of the library: 65536 times its first number, 256 times its second, and its third. A
/// program compares it with that of the header that it was compiled with.
#[unsafe(no_mangle)]
pub extern "C" fn iox2ps_version() -> u32
    ensures { result ≡ 514 }
{
    514
}

/// Makes and removes a publisher's connections.
#[unsafe(no_mangle)]
pub extern "C" fn iox2ps_publisher_update_connections(
    domain: &mut DomainBox,
    publisher: &PublisherNumbers,
) -> u32
    ensures no_domain { (result ≡ NO_DOMAIN) ↔ (domain.old.service ≡ None) }
    ensures updates { (result ≡ OK) ⊎ (first_error_code ≤ result) → (updated : Result (Unit {0}) ConnectionFailure)
        × (result ≡ code_of failure_code updated)
        × Becomes (λ old new. PublisherUpdates old new (wide (publisher.now).id) updated) domain.old.service
        domain.new.service }
    ensures why { NO_DOMAIN < result → result < first_error_code
        → Knows (λ kept. RefusesPublisher kept (named_publisher publisher.now) result) domain.old.service }
    ensures refused { OK < result → result < first_error_code → domain.new.service ≡ domain.old.service }
    ensures stays { HoldsOn No_item domain.old.service domain.new.service }
{
    match domain.service() {
        Some(service) => questions::update_publisher(service, publisher),
        None => NO_DOMAIN,
    }
}

/// Makes and removes a subscriber's connections.
#[unsafe(no_mangle)]
pub extern "C" fn iox2ps_subscriber_update_connections(
    domain: &mut DomainBox,
    subscriber: &SubscriberNumbers,
) -> u32
    ensures no_domain { (result ≡ NO_DOMAIN) ↔ (domain.old.service ≡ None) }
    ensures updates { (result ≡ OK) ⊎ (NOT_LIVE < result) → (updated : Result (Unit {0}) ConnectionFailure)
        × (result ≡ code_of failure_code updated)
        × Becomes (λ old new. SubscriberUpdates old new (wide (subscriber.now).id) updated) domain.old.service
        domain.new.service }
    ensures not_live { result ≡ NOT_LIVE → KnowsNo (λ kept. IsSubscriberKey kept (named_subscriber subscriber.now)) domain.old.service }
    ensures refused { result ≡ NOT_LIVE → domain.new.service ≡ domain.old.service }
    ensures stays { HoldsOn No_item domain.old.service domain.new.service }
{
    match domain.service() {
        Some(service) => questions::update_subscriber(service, subscriber),
        None => NO_DOMAIN,
    }
}

/// Whether a message waits for a subscriber, after an update of its connections.
#[unsafe(no_mangle)]
pub extern "C" fn iox2ps_subscriber_has_samples(
    domain: &mut DomainBox,
    subscriber: &SubscriberNumbers,
    waits: &mut u32,
) -> u32
    ensures no_domain { (result ≡ NO_DOMAIN) ↔ (domain.old.service ≡ None) }
    ensures answers { (result ≡ OK) ⊎ (NOT_LIVE < result) → (answer : Result Bool ConnectionFailure)
        × (result ≡ code_of failure_code answer) × IfOk answer (λ some_wait. waits.new ≡ cond some_wait 1 0)
        × Becomes (λ old new. Asks old new (wide (subscriber.now).id) answer) domain.old.service domain.new.service }
    ensures not_live { result ≡ NOT_LIVE → KnowsNo (λ kept. IsSubscriberKey kept (named_subscriber subscriber.now)) domain.old.service }
    ensures refused { result ≡ NOT_LIVE → domain.new.service ≡ domain.old.service }
    ensures same { OK < result → waits.new ≡ waits.old }
    ensures stays { HoldsOn No_item domain.old.service domain.new.service }
{
    match domain.service() {
        Some(service) => questions::has_samples(service, subscriber, waits),
        None => NO_DOMAIN,
    }
}

/// Whether a send of a publisher waits.
#[unsafe(no_mangle)]
pub extern "C" fn iox2ps_publisher_is_blocked(
    domain: &mut DomainBox,
    publisher: &PublisherNumbers,
    is_blocked: &mut u32,
) -> u32
    ensures no_domain { (result ≡ NO_DOMAIN) ↔ (domain.old.service ≡ None) }
    ensures code { result < NO_SAMPLE }
    ensures not_live { result ≡ NOT_LIVE → KnowsNo (λ kept. IsPublisherKey kept (named_publisher publisher.now)) domain.old.service }
    ensures tells { result ≡ OK → Knows (λ kept. IsPublisherKey kept (named_publisher publisher.now)
        × ((is_blocked.new ≡ 0) ↔ IsUnblocked kept (named_publisher publisher.now))) domain.old.service }
    ensures answer { result ≡ OK → (is_blocked.new ≡ 0) ⊎ (is_blocked.new ≡ 1) }
    ensures same { OK < result → is_blocked.new ≡ is_blocked.old }
    ensures unchanged { domain.new.service ≡ domain.old.service }
{
    match domain.service() {
        Some(service) => questions::is_blocked(service, publisher, is_blocked),
        None => NO_DOMAIN,
    }
}

/// One of the domain's last warnings, the oldest first.
#[unsafe(no_mangle)]
pub extern "C" fn iox2ps_domain_warning(
    domain: &mut DomainBox,
    index: usize,
    warning: &mut WarningNumbers,
) -> u32
    ensures no_domain { (result ≡ NO_DOMAIN) ↔ (domain.old.service ≡ None) }
    ensures code { result < NO_SAMPLE }
    ensures reads { result ≡ OK → Knows (λ kept. IfSome
        (slice_get (buffer (kept.warnings).latest warning_limit).items index) (λ it. TellsOf it warning.new))
        domain.old.service }
    ensures none { result ≡ NOT_LIVE → Knows (λ kept. slice_get (buffer (kept.warnings).latest warning_limit).items index ≡ None) domain.old.service }
    ensures same { OK < result → warning.new ≡ warning.old }
    ensures unchanged { domain.new.service ≡ domain.old.service }
{
    match domain.service() {
        Some(service) => questions::warning(service, index, warning),
        None => NO_DOMAIN,
    }
}

/// How many of its last warnings the domain has.
#[unsafe(no_mangle)]
pub extern "C" fn iox2ps_domain_warning_count(domain: &mut DomainBox, count: &mut usize) -> u32
    ensures no_domain { (result ≡ NO_DOMAIN) ↔ (domain.old.service ≡ None) }
    ensures code { (result ≡ OK) ⊎ (result ≡ NO_DOMAIN) }
    ensures counts { result ≡ OK → Knows (λ kept. count.new ≡ length (buffer (kept.warnings).latest warning_limit).items) domain.old.service }
    ensures same { OK < result → count.new ≡ count.old }
    ensures unchanged { domain.new.service ≡ domain.old.service }
{
    match domain.service() {
        Some(service) => questions::warning_count(service, count),
        None => NO_DOMAIN,
    }
}

/// How often memory for a connection was refused.
#[unsafe(no_mangle)]
pub extern "C" fn iox2ps_domain_refused_connections(domain: &mut DomainBox, count: &mut u64) -> u32
    ensures no_domain { (result ≡ NO_DOMAIN) ↔ (domain.old.service ≡ None) }
    ensures code { (result ≡ OK) ⊎ (result ≡ NO_DOMAIN) }
    ensures counts { result ≡ OK → Knows (λ kept. count.new ≡ (kept.warnings).refused_connections) domain.old.service }
    ensures same { OK < result → count.new ≡ count.old }
    ensures unchanged { domain.new.service ≡ domain.old.service }
{
    match domain.service() {
        Some(service) => questions::refused_connections(service, count),
        None => NO_DOMAIN,
    }
}

/// How many connections the domain keeps.
#[unsafe(no_mangle)]
pub extern "C" fn iox2ps_domain_connection_count(domain: &mut DomainBox, count: &mut usize) -> u32
    ensures no_domain { (result ≡ NO_DOMAIN) ↔ (domain.old.service ≡ None) }
    ensures code { (result ≡ OK) ⊎ (result ≡ NO_DOMAIN) }
    ensures counts { result ≡ OK → Knows (λ kept. count.new ≡ count_by is_some kept.connections) domain.old.service }
    ensures same { OK < result → count.new ≡ count.old }
    ensures unchanged { domain.new.service ≡ domain.old.service }
{
    match domain.service() {
        Some(service) => questions::connection_count(service, count),
        None => NO_DOMAIN,
    }
}

/// Reads the domain's settings back. Nothing is written where this library doesn't know the struct's size.
#[unsafe(no_mangle)]
pub extern "C" fn iox2ps_domain_config_sized(
    domain: &mut DomainBox,
    config: &mut Config,
    struct_size: usize,
) -> u32
    ensures no_domain { (result ≡ NO_DOMAIN) ↔ (domain.old.service ≡ None) }
    ensures code { (result ≡ OK) ⊎ (result ≡ NO_DOMAIN) ⊎ (result ≡ invalid_struct_size) }
    ensures unknown { result ≢ NO_DOMAIN → (result ≡ invalid_struct_size) ↔ (struct_size ≢ config_size) }
    ensures known { result ≡ OK → (config.new).struct_size ≡ config_size }
    ensures reads { result ≡ OK → Knows (λ kept. settings_of config.new ≡ settings_in kept) domain.old.service }
    ensures sizes { result ≡ OK → IfSome domain.old.service
        (λ it. ((config.new).payload_size ≡ it.payload_size)
        × ((config.new).payload_alignment ≡ it.payload_alignment)) }
    ensures same { OK < result → config.new ≡ config.old }
    ensures unchanged { domain.new.service ≡ domain.old.service }
{
    match domain.service() {
        Some(service) => questions::config(service, config, struct_size),
        None => NO_DOMAIN,
    }
}

/// Names the subscriber that a blocked send waits for.
#[unsafe(no_mangle)]
pub extern "C" fn iox2ps_blocked_subscriber(
    domain: &mut DomainBox,
    blocked: &LoanNumbers,
    subscriber: &mut Wide,
) -> u32
    ensures no_domain { (result ≡ NO_DOMAIN) ↔ (domain.old.service ≡ None) }
    ensures code { result < NO_SAMPLE }
    ensures tells { result ≡ OK → Knows (λ kept. IsBlockedKey kept (named_loan blocked.now)
        × TellsBlocker kept (wide (blocked.now).publisher) (wide subscriber.new)) domain.old.service }
    ensures not_live { result ≡ NOT_LIVE → KnowsNo (λ kept. IsBlockedKey kept (named_loan blocked.now)) domain.old.service }
    ensures same { OK < result → subscriber.new ≡ subscriber.old }
    ensures unchanged { domain.new.service ≡ domain.old.service }
{
    match domain.service() {
        Some(service) => questions::blocker(service, blocked, subscriber),
        None => NO_DOMAIN,
    }
}

/// How many books of slots the domain keeps.
#[unsafe(no_mangle)]
pub extern "C" fn iox2ps_domain_book_count(domain: &mut DomainBox, count: &mut usize) -> u32
    ensures no_domain { (result ≡ NO_DOMAIN) ↔ (domain.old.service ≡ None) }
    ensures code { (result ≡ OK) ⊎ (result ≡ NO_DOMAIN) }
    ensures counts { result ≡ OK → Knows (λ kept. count.new ≡ count_by is_some kept.books) domain.old.service }
    ensures same { OK < result → count.new ≡ count.old }
    ensures unchanged { domain.new.service ≡ domain.old.service }
{
    match domain.service() {
        Some(service) => questions::book_count(service, count),
        None => NO_DOMAIN,
    }
}
