//! What a relay needs of its ports is shown by the clauses of their creation and by tests.
ghost use Rattle.std.specs.Prelude.{ℕ, [], ◌≡◌, IfOk, IfSome, IsTrue, OnOk};
ghost use Rattle.iox2_pubsub.specs.BorrowsLeft.{BorrowsLeftStay};
ghost use Rattle.iox2_pubsub.specs.Handles.{publisher_id};
ghost use Rattle.iox2_pubsub.specs.Leaves.{LeavesButWaiting};
ghost use Rattle.iox2_pubsub.specs.Live.{HasItsBuffer, HasRoomFor, IsConnected, IsLivePublisher, IsLiveSubscriber, IsSingleValued, IsUpToDate, Stays};
ghost use Rattle.message_patterns.specs.Values.{Wait};

use crate::Numbers;
use crate::failure::Failure;
use crate::relaying::relay_all;
use iox2_pubsub::{Publisher, Subscriber};
use std::alloc::Global;

/// Sends values in `from`, has them relayed, and reads them in `to`, if nothing waits in either and both
/// buffers take them all. Each port is as its creation says.
pub fn relay_if_idle(
    alloc: Global,
    from: &mut Numbers,
    sender: &Publisher,
    subscriber: &Subscriber,
    to: &mut Numbers,
    publisher: &Publisher,
    reader: &Subscriber,
    values: &[u32],
) -> Result<Option<Vec<u32>>, Failure>
    requires from { IsSingleValued from.old }
    requires sender { IsLivePublisher from.old sender.now }
    requires subscriber { IsLiveSubscriber from.old subscriber.now }
    requires joined { IsConnected from.old (publisher_id sender.now) subscriber.now }
    requires buffer { HasItsBuffer from.old subscriber.now }
    requires room { HasRoomFor from.old subscriber.now 0 }
    requires to { IsSingleValued to.old }
    requires publisher { IsLivePublisher to.old publisher.now }
    requires reader { IsLiveSubscriber to.old reader.now }
    requires joined_there { IsConnected to.old (publisher_id publisher.now) reader.now }
    requires buffer_there { HasItsBuffer to.old reader.now }
    requires room_there { HasRoomFor to.old reader.now 0 }
    ensures same { IfOk result (λ read. IfSome read (λ it. it.items ≡ values.now)) }
    ensures stays { Stays from.old from.new × Stays to.old to.new }
{
    if values.len() > subscriber.buffer_size() || values.len() > reader.buffer_size() {
        return Ok(None);
    }
    if !is_idle(from, subscriber)? {
        return Ok(None);
    }
    if !is_idle(to, reader)? {
        return Ok(None);
    }
    let read = relay_all(
        alloc, from, sender, subscriber, to, publisher, reader, values,
    )?;
    Ok(Some(read))
}

/// Whether nothing waits for the subscriber.
pub fn is_idle(domain: &mut Numbers, subscriber: &Subscriber) -> Result<bool, Failure>
    requires { IsLiveSubscriber domain.old subscriber.now }
    ensures none { IfOk result (λ idle. IsTrue idle → (publisher : ℕ) → Wait domain.new publisher subscriber.now []) }
    ensures updated { OnOk result (IsUpToDate domain.new subscriber.now) }
    ensures borrows { BorrowsLeftStay domain.old domain.new }
    ensures leaves { LeavesButWaiting subscriber.now domain.old domain.new }
{
    match subscriber.has_samples(domain) {
        Ok(waits) => Ok(!waits),
        Err(error) => Err(Failure::Update(error)),
    }
}
