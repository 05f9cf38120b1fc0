//! The channels of a connection behind channel 0. Nobody receives from them.
ghost use Rattle.std.specs.Prelude.{◌≡◌, ◌<◌, ◌≤◌, length, replicate, IfOk, MatchOption};
ghost use Rattle.std.specs.List.{All};
ghost use Rattle.iox2_connections.specs.FurtherChannels.{empty_channel, rings, IsUnfilled, IsFirstFilled, IsRingPut};

use crate::channel_status::ChannelStatus;
use crate::connection::PutOutcome;
use circular_buffer::HeapCircularBuffer;
use std::alloc::{AllocError, Global};

/// A channel behind channel 0: its status, and the slots that wait there.
#[derive(Drop)]
pub(crate) struct FurtherChannel {
    pub(crate) status: ChannelStatus,
    pub(crate) waiting: HeapCircularBuffer<usize>,
}

impl FurtherChannel {
    // A channel in which nothing waits.
    fn new(alloc: Global, buffer: usize) -> Result<FurtherChannel, AllocError>
        ensures { IfOk result (λ c. c ≡ empty_channel buffer) }
    {
        Ok(FurtherChannel {
            status: ChannelStatus::new(),
            waiting: HeapCircularBuffer::with_capacity(alloc, buffer)?,
        })
    }
}

/// `count` new channels. In each of them at most `buffer` slots wait.
pub(crate) fn new_channels(
    alloc: Global,
    buffer: usize,
    count: usize,
) -> Result<Vec<FurtherChannel>, AllocError>
    ensures { IfOk result (λ channels. channels.items ≡ replicate count (empty_channel buffer)) }
{
    let mut channels = Vec::with_capacity(alloc, count)?;
    for _ in 0..count {
        channels.push_reserved(FurtherChannel::new(alloc, buffer)?);
    }
    Ok(channels)
}

/// Puts a slot behind those of a ring. If there is no room and `overflow` is set, the first of them
/// goes; if it isn't set, nothing changes.
#[inline(always)]
pub(crate) fn put_into(
    ring: &mut HeapCircularBuffer<usize>,
    slot: usize,
    overflow: bool,
) -> PutOutcome
    requires room { 0 < ring.old.capacity }
    requires within { length ring.old.items ≤ ring.old.capacity }
    ensures put { IsRingPut ring.old.capacity ring.old.items slot overflow result ring.new.items }
    ensures capacity { ring.new.capacity ≡ ring.old.capacity }
{
    if ring.try_push_back(slot).is_ok() {
        return PutOutcome::Taken;
    }
    if !overflow {
        return PutOutcome::Full;
    }
    match ring.push_back(slot) {
        Some(oldest) => PutOutcome::Overwrote(oldest),
        None => PutOutcome::Taken,
    }
}

/// The index of the first of these channels in which some slot waits.
pub(crate) fn first_filled(channels: &[FurtherChannel]) -> Option<usize>
    ensures { MatchOption result (All IsUnfilled (rings channels.now)) (λ index. IsFirstFilled index (rings channels.now)) }
{
    for index in 0..channels.len() {
        if !channels[index].waiting.is_empty() {
            return Some(index);
        }
    }
    None
}
