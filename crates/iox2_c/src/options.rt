//! What a port has other than the domain's settings say.
ghost use Rattle.std.specs.Prelude.{◌≡◌, ◌<◌, ◌≤◌, ◌⊎◌};
ghost use Rattle.iox2_machine.specs.machine.Ports.{default_publisher_settings, default_subscriber_settings};
ghost use Rattle.iox2_machine.specs.machine.Records.{Fixed};
ghost use Rattle.iox2_connections.specs.Handlers.{marks_of};
ghost use Rattle.iox2_pubsub.specs.Factories.{answer_of};
ghost use Rattle.iox2_c.specs.Codes.{allocation_numbered, degradation_numbered, first_setting_code, handler_numbered, worst_case_too_large};
ghost use Rattle.iox2_c.specs.Settings.{invalid_publisher_option, invalid_subscriber_option, publisher_options_size, settings_of_options};
ghost use Rattle.iox2_c.specs.Settings.{settings_of, subscriber_options_size, subscriber_settings};

use crate::config::Config;
use crate::status::{
    INVALID_ALLOCATION_STRATEGY, INVALID_BACKPRESSURE_HANDLER, INVALID_BACKPRESSURE_STRATEGY,
    INVALID_DEGRADATION, INVALID_INITIAL_MAX_SLICE_LEN, INVALID_RESERVED, INVALID_STRUCT_SIZE, OK,
};
use iox2_pubsub::{
    AllocationStrategy, BackpressureAction, BackpressureHandler, DegradationAction,
    DegradationHandler, NoHandler,
};

/// How many bytes the options of a publisher have.
pub const PUBLISHER_OPTIONS_SIZE: usize = size_of::<PublisherOptions>();

/// How many bytes the options of a subscriber have.
pub const SUBSCRIBER_OPTIONS_SIZE: usize = size_of::<SubscriberOptions>();

/// What one publisher has.
#[repr(C)]
#[derive(Clone, Copy)]
pub struct PublisherOptions {
    /// How many bytes the caller's struct has.
    pub struct_size: usize,
    /// How many loans may be out at a time.
    pub max_loaned_samples: usize,
    /// How many bytes a message may have, as long as memory isn't to grow.
    pub initial_max_slice_len: usize,
    /// For how many slots it asks, or 0 for the worst case.
    pub preallocated_samples: usize,
    /// What it does at a full buffer, as a number.
    pub backpressure_strategy: u32,
    /// What answers in its place, as a number, or 0.
    pub backpressure_handler: u32,
    /// What it does where memory for a connection is refused, as a number.
    pub degradation: u32,
    /// How its memory grows, as a number.
    pub allocation_strategy: u32,
}

impl PublisherOptions {
    /// What a publisher has that is made without options.
    pub fn of(config: &Config) -> PublisherOptions
        ensures known { result.struct_size ≡ publisher_options_size }
        ensures settings { settings_of_options (settings_of config.now) result
            ≡ record (default_publisher_settings (settings_of config.now))
            { initial_max_slice_len = config.now.payload_size } }
    {
        PublisherOptions {
            struct_size: PUBLISHER_OPTIONS_SIZE,
            max_loaned_samples: config.publisher_max_loaned_samples,
            initial_max_slice_len: config.payload_size,
            preallocated_samples: 0,
            backpressure_strategy: config.backpressure_strategy,
            backpressure_handler: 0,
            degradation: 1,
            allocation_strategy: 0,
        }
    }

    /// The code of the first option that no publisher can have where payloads are aligned so, in the order of the
    /// fields; 0 if one can have them all.
    pub fn first_invalid(&self, alignment: usize) -> u32
        ensures first { result ≡ invalid_publisher_option alignment self.now }
        ensures range { (result ≡ OK) ⊎ ((first_setting_code ≤ result) × (result < worst_case_too_large)) }
    {
        if self.struct_size != PUBLISHER_OPTIONS_SIZE {
            return INVALID_STRUCT_SIZE;
        }
        if alignment == 0 || self.initial_max_slice_len % alignment != 0 {
            return INVALID_INITIAL_MAX_SLICE_LEN;
        }
        if self.initial_max_slice_len == 0 && matches!(self.allocation_strategy, 1 | 2) {
            return INVALID_INITIAL_MAX_SLICE_LEN;
        }
        if self.backpressure_strategy >= 2 {
            return INVALID_BACKPRESSURE_STRATEGY;
        }
        if self.backpressure_handler >= 5 {
            return INVALID_BACKPRESSURE_HANDLER;
        }
        if self.degradation >= 3 {
            return INVALID_DEGRADATION;
        }
        if self.allocation_strategy >= 3 {
            return INVALID_ALLOCATION_STRATEGY;
        }
        OK
    }

    /// The handler of full buffers, if there is one.
    pub fn handler(&self) -> Option<BackpressureHandler<NoHandler>>
        ensures { marks_of result ≡ handler_numbered self.now.backpressure_handler }
    {
        let action = match self.backpressure_handler {
            1 => BackpressureAction::FollowBackpressureyStrategy,
            2 => BackpressureAction::Retry,
            3 => BackpressureAction::DiscardData,
            4 => BackpressureAction::DiscardDataAndFail,
            _ => return None,
        };
        Some(BackpressureHandler::Fixed(action))
    }
}

/// How memory grows: not at all, except for the numbers of others.
pub fn allocation_of(number: u32) -> AllocationStrategy
    ensures { result ≡ allocation_numbered number }
{
    match number {
        1 => AllocationStrategy::BestFit,
        2 => AllocationStrategy::PowerOfTwo,
        _ => AllocationStrategy::Static,
    }
}

/// What one subscriber has.
#[repr(C)]
#[derive(Clone, Copy)]
pub struct SubscriberOptions {
    /// How many bytes the caller's struct has.
    pub struct_size: usize,
    /// How many messages of one publisher may wait.
    pub buffer_size: usize,
    /// What it does where memory for a connection is refused, as a number.
    pub degradation: u32,
    /// Nothing.
    pub reserved: u32,
}

impl SubscriberOptions {
    /// What a subscriber has that is made without options.
    pub fn of(config: &Config) -> SubscriberOptions
        ensures known { result.struct_size ≡ subscriber_options_size }
        ensures settings { subscriber_settings result ≡ default_subscriber_settings (settings_of config.now) }
    {
        SubscriberOptions {
            struct_size: SUBSCRIBER_OPTIONS_SIZE,
            buffer_size: config.subscriber_max_buffer_size.max(1),
            degradation: 1,
            reserved: 0,
        }
    }

    /// The code of the first option that no subscriber can have, in the order of the fields; 0 if one can have
    /// them all.
    pub fn first_invalid(&self) -> u32
        ensures first { result ≡ invalid_subscriber_option self.now }
        ensures range { (result ≡ OK) ⊎ ((first_setting_code ≤ result) × (result < worst_case_too_large)) }
    {
        if self.struct_size != SUBSCRIBER_OPTIONS_SIZE {
            return INVALID_STRUCT_SIZE;
        }
        if self.degradation >= 3 {
            return INVALID_DEGRADATION;
        }
        if self.reserved != 0 {
            return INVALID_RESERVED;
        }
        OK
    }
}

/// What answers where memory for a connection is refused: it warns, except for the numbers of others.
pub fn degradation_of(number: u32) -> DegradationHandler<NoHandler>
    ensures { answer_of result ≡ Fixed (degradation_numbered number) }
{
    let action = match number {
        0 => DegradationAction::Ignore,
        2 => DegradationAction::DegradeAndFail,
        _ => DegradationAction::Warn,
    };
    DegradationHandler::Fixed(action)
}
