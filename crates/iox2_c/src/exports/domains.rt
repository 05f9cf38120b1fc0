//! The exports of domains.
ghost use Rattle.std.specs.Prelude.{◌≡◌, ◌≢◌, ◌<◌, ◌≤◌, ◌⊎◌, ◌↔◌, false, IfSome, IsTrue, None, Some, drop, length};
ghost use Rattle.iox2_machine.specs.machine.Limits.{fits, worst_case};
ghost use Rattle.iox2_machine.specs.Defaults.{default_config};
ghost use Rattle.iox2_machine.specs.declared.service_config.TypeVariant.TheVariants.{Dynamic};
ghost use Rattle.iox2_machine.specs.machine.Ports.{default_publisher_settings, default_subscriber_settings};
ghost use Rattle.iox2_machine.specs.machine.State.{fresh, no_messages};
ghost use Rattle.iox2_domain.specs.Shows.{Shows};
ghost use Rattle.iox2_c.specs.Boxed.{Knows};
ghost use Rattle.iox2_c.specs.Settings.{config_size, invalid_setting, publisher_options_size, settings_of_options, settings_of};
ghost use Rattle.iox2_c.specs.Settings.{subscriber_options_size, subscriber_settings};
ghost use Rattle.iox2_c.specs.Codes.{first_setting_code, worst_case_too_large};

use crate::calls::questions;
use crate::config::{CONFIG_SIZE, Config};
use crate::domain_box::DomainBox;
use crate::options::{
    PUBLISHER_OPTIONS_SIZE, PublisherOptions, SUBSCRIBER_OPTIONS_SIZE, SubscriberOptions,
};
use crate::recording::Room;
use crate::service::Service;
use crate::status::{HAS_DOMAIN, NO_DOMAIN, OK, OUT_OF_MEMORY, TOO_SMALL, WORST_CASE_TOO_LARGE};
use iox2_pubsub::worst_case_slots;
use std::alloc::Global;

/// Writes the defaults of a domain with this id, for messages of that many bytes. Of a struct whose size this
/// library doesn't know only the first field is written, so that it is refused.
#[unsafe(no_mangle)]
pub extern "C" fn iox2ps_config_defaults_sized(
    config: &mut Config,
    struct_size: usize,
    service_id: u64,
    payload_size: usize,
    payload_alignment: usize,
)
    ensures known { struct_size ≡ config_size → (config.new).struct_size ≡ config_size }
    ensures settings { struct_size ≡ config_size → settings_of config.new ≡ record (default_config service_id) { variant = Dynamic; lists_cells = false } }
    ensures size { struct_size ≡ config_size → (config.new).payload_size ≡ payload_size }
    ensures alignment { struct_size ≡ config_size → (config.new).payload_alignment ≡ payload_alignment }
    ensures unknown { struct_size ≢ config_size → config.new ≡ record (config.old) { struct_size = 0 } }
{
    if struct_size == CONFIG_SIZE {
        *config = Config::defaults(service_id as u128, payload_size, payload_alignment);
    } else {
        config.struct_size = 0;
    }
}

/// Writes what a publisher has that is made without options. Of a struct whose size this library doesn't know, or
/// with such settings, only the first field is written, so that it is refused.
#[unsafe(no_mangle)]
pub extern "C" fn iox2ps_publisher_options_of_sized(
    config: &Config,
    options: &mut PublisherOptions,
    struct_size: usize,
)
    ensures known { config.now.struct_size ≡ config_size → struct_size ≡ publisher_options_size → (options.new).struct_size ≡ publisher_options_size }
    ensures settings { config.now.struct_size ≡ config_size → struct_size ≡ publisher_options_size
        → settings_of_options (settings_of config.now) options.new
        ≡ record (default_publisher_settings (settings_of config.now))
        { initial_max_slice_len = config.now.payload_size } }
    ensures unknown { (config.now.struct_size ≢ config_size) ⊎ (struct_size ≢ publisher_options_size) → options.new ≡ record (options.old) { struct_size = 0 } }
{
    if config.struct_size == CONFIG_SIZE && struct_size == PUBLISHER_OPTIONS_SIZE {
        *options = PublisherOptions::of(config);
    } else {
        options.struct_size = 0;
    }
}

/// Writes what a subscriber has that is made without options. Of a struct whose size this library doesn't know, or
/// with such settings, only the first field is written, so that it is refused.
#[unsafe(no_mangle)]
pub extern "C" fn iox2ps_subscriber_options_of_sized(
    config: &Config,
    options: &mut SubscriberOptions,
    struct_size: usize,
)
    ensures known { config.now.struct_size ≡ config_size → struct_size ≡ subscriber_options_size → (options.new).struct_size ≡ subscriber_options_size }
    ensures settings { config.now.struct_size ≡ config_size → struct_size ≡ subscriber_options_size
        → subscriber_settings options.new ≡ default_subscriber_settings (settings_of config.now) }
    ensures unknown { (config.now.struct_size ≢ config_size) ⊎ (struct_size ≢ subscriber_options_size)
        → options.new ≡ record (options.old) { struct_size = 0 } }
{
    if config.struct_size == CONFIG_SIZE && struct_size == SUBSCRIBER_OPTIONS_SIZE {
        *options = SubscriberOptions::of(config);
    } else {
        options.struct_size = 0;
    }
}

/// How many slots a publisher with that many loans has.
#[unsafe(no_mangle)]
pub extern "C" fn iox2ps_worst_case_slots(config: &Config, loans: usize, slots: &mut usize) -> u32
    ensures slots { result ≡ OK → slots.new ≡ worst_case (settings_of config.now) loans }
    ensures code { (result ≡ OK) ⊎ (first_setting_code ≤ result) }
    ensures valid { (result ≡ OK) ⊎ (result ≡ worst_case_too_large) → invalid_setting config.now ≡ 0 }
    ensures invalid { OK < result → result ≢ worst_case_too_large → result ≡ invalid_setting config.now }
    ensures fits { invalid_setting config.now ≡ 0 → (result ≡ OK) ↔ IsTrue (fits (worst_case (settings_of config.now) loans)) }
    ensures same { OK < result → slots.new ≡ slots.old }
{
    let invalid = config.first_invalid();
    if invalid != OK {
        return invalid;
    }
    match worst_case_slots(&config.service_config(), loans) {
        Some(count) => {
            *slots = count;
            OK
        }
        None => WORST_CASE_TOO_LARGE,
    }
}

/// Makes a domain where there is none.
#[unsafe(no_mangle)]
pub extern "C" fn iox2ps_domain_create(
    alloc: Global,
    domain: &mut DomainBox,
    config: &Config,
) -> u32
    ensures fresh { result ≡ OK → Knows (λ kept. Shows kept no_messages (fresh (settings_of config.now))) domain.new.service }
    ensures code { (result ≡ OK) ⊎ (result ≡ OUT_OF_MEMORY) ⊎ (result ≡ HAS_DOMAIN) ⊎ (first_setting_code ≤ result) }
    ensures sizes { result ≡ OK → IfSome domain.new.service
        (λ it. (it.payload_size ≡ config.now.payload_size) × (it.payload_alignment ≡ config.now.payload_alignment)) }
    ensures valid { (result ≡ OK) ⊎ (result ≡ OUT_OF_MEMORY) → invalid_setting config.now ≡ 0 }
    ensures there { (result ≡ HAS_DOMAIN) ↔ (domain.old.service ≢ None) }
    ensures invalid { first_setting_code ≤ result → result ≡ invalid_setting config.now }
    ensures refused { OK < result → domain.new.service ≡ domain.old.service }
{
    create(alloc, domain, config, None)
}

/// Makes a domain where there is none, whose first calls are recorded: that many commands, with that many
/// bytes of each message.
#[unsafe(no_mangle)]
pub extern "C" fn iox2ps_domain_create_recorded(
    alloc: Global,
    domain: &mut DomainBox,
    config: &Config,
    commands: usize,
    bytes: usize,
) -> u32
    ensures fresh { result ≡ OK → Knows (λ kept. Shows kept no_messages (fresh (settings_of config.now))) domain.new.service }
    ensures code { (result ≡ OK) ⊎ (result ≡ OUT_OF_MEMORY) ⊎ (result ≡ HAS_DOMAIN) ⊎ (first_setting_code ≤ result) }
    ensures sizes { result ≡ OK → IfSome domain.new.service
        (λ it. (it.payload_size ≡ config.now.payload_size) × (it.payload_alignment ≡ config.now.payload_alignment)) }
    ensures valid { (result ≡ OK) ⊎ (result ≡ OUT_OF_MEMORY) → invalid_setting config.now ≡ 0 }
    ensures there { (result ≡ HAS_DOMAIN) ↔ (domain.old.service ≢ None) }
    ensures invalid { first_setting_code ≤ result → result ≡ invalid_setting config.now }
    ensures refused { OK < result → domain.new.service ≡ domain.old.service }
{
    create(alloc, domain, config, Some(Room { commands, bytes }))
}

// Makes a domain where there is none, which is recorded where there is room for that.
fn create(alloc: Global, domain: &mut DomainBox, config: &Config, room: Option<Room>) -> u32
    ensures fresh { result ≡ OK → Knows (λ kept. Shows kept no_messages (fresh (settings_of config.now))) domain.new.service }
    ensures code { (result ≡ OK) ⊎ (result ≡ OUT_OF_MEMORY) ⊎ (result ≡ HAS_DOMAIN) ⊎ (first_setting_code ≤ result) }
    ensures sizes { result ≡ OK → IfSome domain.new.service
        (λ it. (it.payload_size ≡ config.now.payload_size) × (it.payload_alignment ≡ config.now.payload_alignment)) }
    ensures valid { (result ≡ OK) ⊎ (result ≡ OUT_OF_MEMORY) → invalid_setting config.now ≡ 0 }
    ensures there { (result ≡ HAS_DOMAIN) ↔ (domain.old.service ≢ None) }
    ensures invalid { first_setting_code ≤ result → result ≡ invalid_setting config.now }
    ensures refused { OK < result → domain.new.service ≡ domain.old.service }
{
    if let Some(boxed) = domain.take(alloc) {
        domain.put(boxed);
        return HAS_DOMAIN;
    }
    let invalid = config.first_invalid();
    if invalid != OK {
        return invalid;
    }
    let Some(service) = Service::new(alloc, config, room) else {
        return OUT_OF_MEMORY;
    };
    let Ok(boxed) = Box::new(alloc, service) else {
        return OUT_OF_MEMORY;
    };
    domain.put(boxed);
    OK
}

/// Writes what was recorded as text, and says how long it is and how many commands were missed.
#[unsafe(no_mangle)]
pub extern "C" fn iox2ps_domain_recording(
    alloc: Global,
    domain: &mut DomainBox,
    bytes: &mut [u8],
    len: &mut usize,
    missed: &mut u64,
) -> u32
    ensures no_domain { (result ≡ NO_DOMAIN) ↔ (domain.old.service ≡ None) }
    ensures code { (result ≡ OK) ⊎ (result ≡ NO_DOMAIN) ⊎ (result ≡ OUT_OF_MEMORY) ⊎ (result ≡ TOO_SMALL) }
    ensures fits { result ≡ OK → len.new ≤ length bytes.old }
    ensures small { result ≡ TOO_SMALL → length bytes.old < len.new }
    ensures rest { result ≡ OK → drop len.new bytes.new ≡ drop len.new bytes.old }
    ensures same { OK < result → bytes.new ≡ bytes.old }
    ensures unchanged { domain.new.service ≡ domain.old.service }
{
    match domain.service() {
        Some(service) => questions::recording(alloc, service, bytes, len, missed),
        None => NO_DOMAIN,
    }
}

/// Frees the domain, with all that is in it.
#[unsafe(no_mangle)]
pub extern "C" fn iox2ps_domain_destroy(alloc: Global, domain: &mut DomainBox) -> u32
    ensures code { (result ≡ OK) ⊎ (result ≡ NO_DOMAIN) }
    ensures gone { domain.new.service ≡ None }
    ensures no_domain { (result ≡ NO_DOMAIN) ↔ (domain.old.service ≡ None) }
{
    match domain.take(alloc) {
        Some(_) => OK,
        None => NO_DOMAIN,
    }
}
