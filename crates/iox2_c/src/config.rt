//! The settings of a domain.
ghost use Rattle.std.specs.Prelude.{◌≡◌, ◌<◌, ◌≤◌, ◌⊎◌, false};
ghost use Rattle.iox2_machine.specs.Defaults.{default_config};
ghost use Rattle.iox2_machine.specs.declared.allocation.AllocationStrategy.TheVariants.{Static};
ghost use Rattle.iox2_machine.specs.declared.service_config.TypeVariant.TheVariants.{Dynamic};
ghost use Rattle.iox2_c.specs.Codes.{first_setting_code, strategy_numbered, worst_case_too_large};
ghost use Rattle.iox2_c.specs.Settings.{config_size, invalid_setting, is_alignment, settings_of};

use crate::numbers::Wide;
use crate::status::{
    INVALID_BACKPRESSURE_STRATEGY, INVALID_PAYLOAD_ALIGNMENT, INVALID_PAYLOAD_SIZE,
    INVALID_STRUCT_SIZE, OK,
};
use iox2_pubsub::{AllocationStrategy, BackpressureStrategy, ServiceConfig, TypeVariant};

/// How many bytes the settings of a domain have.
pub const CONFIG_SIZE: usize = size_of::<Config>();

/// The settings that C may choose.
#[repr(C)]
#[derive(Clone, Copy)]
pub struct Config {
    /// How many bytes the caller's struct has.
    pub struct_size: usize,
    /// Names the domain.
    pub service_id: Wide,
    /// What the header of each message names.
    pub node_id: Wide,
    /// How many bytes a message of a publisher may have, where its options say nothing else.
    pub payload_size: usize,
    /// To what each payload is aligned.
    pub payload_alignment: usize,
    /// How many publishers may be open at a time.
    pub max_publishers: usize,
    /// How many subscribers there may be at a time.
    pub max_subscribers: usize,
    /// How many messages of one publisher may wait for one subscriber.
    pub subscriber_max_buffer_size: usize,
    /// How many samples of one publisher a subscriber may hold.
    pub subscriber_max_borrowed_samples: usize,
    /// How many of its last messages a publisher keeps for later subscribers.
    pub history_size: usize,
    /// How many channels each connection has; 0 counts as 1.
    pub number_of_channels: usize,
    /// How many connections to closed publishers a subscriber keeps.
    pub subscriber_expired_connection_buffer: usize,
    /// How many loans of a publisher may be out at a time.
    pub publisher_max_loaned_samples: usize,
    /// Whether a message that finds a full buffer pushes the oldest waiting one out: not if 0.
    pub enable_safe_overflow: u32,
    /// What a publisher does at a full buffer, as a number.
    pub backpressure_strategy: u32,
}

impl Config {
    /// The defaults of a domain with this id, for messages of that many bytes.
    pub fn defaults(service_id: u128, payload_size: usize, payload_alignment: usize) -> Config
        ensures known { result.struct_size ≡ config_size }
        ensures settings { settings_of result ≡ record (default_config service_id) { variant = Dynamic; lists_cells = false } }
        ensures size { result.payload_size ≡ payload_size }
        ensures alignment { result.payload_alignment ≡ payload_alignment }
    {
        Config::of(
            &ServiceConfig::new(service_id),
            payload_size,
            payload_alignment,
        )
    }

    /// The settings of a domain for messages of that many bytes.
    pub fn of(config: &ServiceConfig, payload_size: usize, payload_alignment: usize) -> Config
        ensures known { result.struct_size ≡ config_size }
        ensures settings { settings_of result ≡ record (config.now)
            { variant = Dynamic; units_per_element = 1; lists_cells = false; publisher_allocation_strategy = Static } }
        ensures size { result.payload_size ≡ payload_size }
        ensures alignment { result.payload_alignment ≡ payload_alignment }
    {
        Config {
            struct_size: CONFIG_SIZE,
            service_id: Wide::of(config.service_id),
            node_id: Wide::of(config.node_id),
            payload_size,
            payload_alignment,
            max_publishers: config.max_publishers,
            max_subscribers: config.max_subscribers,
            subscriber_max_buffer_size: config.subscriber_max_buffer_size,
            subscriber_max_borrowed_samples: config.subscriber_max_borrowed_samples,
            history_size: config.history_size,
            number_of_channels: config.number_of_channels,
            subscriber_expired_connection_buffer: config.subscriber_expired_connection_buffer,
            publisher_max_loaned_samples: config.publisher_max_loaned_samples,
            enable_safe_overflow: config.enable_safe_overflow as u32,
            backpressure_strategy: strategy_number(config.backpressure_strategy),
        }
    }

    /// The settings as the library takes them.
    pub fn service_config(&self) -> ServiceConfig
        ensures { result ≡ settings_of self.now }
    {
        ServiceConfig {
            service_id: self.service_id.get(),
            node_id: self.node_id.get(),
            variant: TypeVariant::Dynamic,
            units_per_element: 1,
            lists_cells: false,
            max_publishers: self.max_publishers,
            max_subscribers: self.max_subscribers,
            subscriber_max_buffer_size: self.subscriber_max_buffer_size,
            subscriber_max_borrowed_samples: self.subscriber_max_borrowed_samples,
            history_size: self.history_size,
            number_of_channels: self.number_of_channels,
            enable_safe_overflow: self.enable_safe_overflow != 0,
            subscriber_expired_connection_buffer: self.subscriber_expired_connection_buffer,
            publisher_max_loaned_samples: self.publisher_max_loaned_samples,
            backpressure_strategy: strategy_of(self.backpressure_strategy),
            publisher_allocation_strategy: AllocationStrategy::Static,
        }
    }

    /// The code of the first setting that no domain can have, in the order of the fields; 0 if a domain can have
    /// them all.
    pub fn first_invalid(&self) -> u32
        ensures first { result ≡ invalid_setting self.now }
        ensures range { (result ≡ OK) ⊎ ((first_setting_code ≤ result) × (result < worst_case_too_large)) }
    {
        if self.struct_size != CONFIG_SIZE {
            return INVALID_STRUCT_SIZE;
        }
        if !is_alignment(self.payload_alignment) {
            return INVALID_PAYLOAD_ALIGNMENT;
        }
        if self.payload_size % self.payload_alignment != 0 {
            return INVALID_PAYLOAD_SIZE;
        }
        if self.backpressure_strategy >= 2 {
            return INVALID_BACKPRESSURE_STRATEGY;
        }
        OK
    }
}

// Whether payloads can be aligned so.
fn is_alignment(value: usize) -> bool
    ensures { result ≡ is_alignment value }
{
    matches!(value, 1 | 2 | 4 | 8 | 16)
}

/// The strategy with this number.
pub fn strategy_of(number: u32) -> BackpressureStrategy
    ensures { result ≡ strategy_numbered number }
{
    if number == 1 {
        BackpressureStrategy::DiscardData
    } else {
        BackpressureStrategy::RetryUntilDelivered
    }
}

/// The strategy's number.
pub fn strategy_number(strategy: BackpressureStrategy) -> u32
    ensures named { strategy_numbered result ≡ strategy }
    ensures valid { result < 2 }
{
    match strategy {
        BackpressureStrategy::RetryUntilDelivered => 0,
        BackpressureStrategy::DiscardData => 1,
    }
}
