//! How many slots a publisher needs.
ghost use Rattle.std.specs.Prelude.{◌+◌, ◌*◌, IsTrue, SomeIff};
ghost use Rattle.iox2_machine.specs.machine.Limits.{buffer_limit, worst_case, fits};

use crate::service_config::ServiceConfig;

/// How many slots a publisher needs in a service with these settings if it may have `loans` loans
/// out at a time, whatever its subscribers hold. It is a sum: for each channel of each subscriber
/// that there may be, its buffer and what it may borrow; then the history; then the loans.
///
/// Example (`crates/list_runner/src/lists.rt`):
///
/// ```rust
/// let slots = worst_case_slots(&sizes.config, sizes.loans).ok_or(Failure::TooManySlots)?;
/// println!(rt; "{slots} slots")?;
/// ```
///
/// With this number of slots the publisher is never refused a loan because no slot is free. With
/// fewer it can be, in a service without overflow whose connections have one channel. `None` if the
/// number doesn't fit `usize`, and only then: no part of the sum is formed that is larger than the
/// sum.
///
/// This library's own.
pub fn worst_case_slots(config: &ServiceConfig, loans: usize) -> Option<usize>
    ensures { SomeIff result (IsTrue (fits (worst_case config.now loans))) (worst_case config.now loans) }
{
    let channels = config
        .max_subscribers
        .checked_mul(config.number_of_channels.max(1))?;
    slots_for_channels(channels, config, loans)
}

// The same if all subscribers that there may be have `channels` channels together.
fn slots_for_channels(channels: usize, config: &ServiceConfig, loans: usize) -> Option<usize>
    ensures { let slots = channels * (buffer_limit config.now + config.now.subscriber_max_borrowed_samples) +
        config.now.history_size + loans in SomeIff result (IsTrue (fits slots)) slots }
{
    let waiting = channels.checked_mul(config.subscriber_max_buffer_size.max(1))?;
    let borrowed = channels.checked_mul(config.subscriber_max_borrowed_samples)?;
    let delivered = waiting.checked_add(borrowed)?;
    delivered
        .checked_add(config.history_size)?
        .checked_add(loans)
}
