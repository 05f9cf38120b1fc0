//! Several publishers send to one subscriber.
ghost use Rattle.std.specs.Prelude.{List, [], ◌∷◌, ◌<◌, ◌≡◌, ◌≢◌, ℕ, length, IsOk, OnOk};
ghost use Rattle.iox2_pubsub.specs.BorrowsLeft.{HasBorrowsLeftOf};
ghost use Rattle.iox2_pubsub.specs.Handles.{publisher_id};
ghost use Rattle.iox2_pubsub.specs.Live.{IsConnected, IsLivePublisher, IsLiveSubscriber, IsSingleValued, IsUpToDate};
ghost use Rattle.iox2_pubsub.specs.Live.{Stays, UpToDateStay, payloads_from, waiting};
ghost use Rattle.iox2_pubsub.specs.Shares.{AllFromEach, HasNoShare, Share, share_of};
ghost use Rattle.iox2_pubsub.specs.declared.subscriber.Subscriber.{Subscriber as Port};

use crate::Numbers;
use crate::failure::Failure;
use crate::passing::read_one;
use iox2_pubsub::{Publisher, Subscriber};

/// Each publisher sends its reading to the subscriber, for which nothing waits before.
pub fn send_both(
    domain: &mut Numbers,
    left: &Publisher,
    right: &Publisher,
    subscriber: &Subscriber,
    readings: (u32, u32),
) -> Result<(), Failure>
    requires single_valued { IsSingleValued domain.old }
    requires left { IsLivePublisher domain.old left.now }
    requires right { IsLivePublisher domain.old right.now }
    requires apart { publisher_id left.now ≢ publisher_id right.now }
    requires connected { IsConnected domain.old (publisher_id left.now) subscriber.now × IsConnected domain.old (publisher_id right.now) subscriber.now }
    requires drained { waiting domain.old subscriber.now ≡ 0 }
    ensures each { OnOk result (AllFromEach domain.new subscriber.now
        (share_of (publisher_id right.now) ((readings.1 ∷ []) ∷ []) ∷ share_of (publisher_id left.now)
        ((readings.0 ∷ []) ∷ []) ∷ [])) }
    ensures up_to_date { UpToDateStay domain.old domain.new }
    ensures stays { Stays domain.old domain.new }
{
    send_beside(domain, left, readings.0)?;
    send_beside(domain, right, readings.1)
}

/// Sends a reading of a publisher to subscribers for which nothing of it waits.
pub fn send_beside(domain: &mut Numbers, publisher: &Publisher, reading: u32) -> Result<(), Failure>
    requires single_valued { IsSingleValued domain.old }
    requires publisher { IsLivePublisher domain.old publisher.now }
    ensures begins { (subscriber : Port) (shares : List (Share ℕ)) → AllFromEach domain.old subscriber shares → HasNoShare (publisher_id publisher.now) shares
        → IsConnected domain.old (publisher_id publisher.now) subscriber
        → OnOk result (AllFromEach domain.new subscriber
        (share_of (publisher_id publisher.now) ((reading ∷ []) ∷ []) ∷ shares)) }
    ensures up_to_date { UpToDateStay domain.old domain.new }
    ensures stays { Stays domain.old domain.new }
{
    match publisher.send_copy(domain, reading) {
        Ok(outcome) => {
            outcome.delivered();
            Ok(())
        }
        Err(error) => Err(Failure::Send(error)),
    }
}

/// Reads a number. A reading of this publisher waits, and the subscriber may hold one of it. So the read isn't refused,
/// even if it holds as many of other publishers as it may.
pub fn read_beside(
    domain: &mut Numbers,
    publisher: &Publisher,
    subscriber: &Subscriber,
) -> Result<Option<u32>, Failure>
    requires single_valued { IsSingleValued domain.old }
    requires subscriber { IsLiveSubscriber domain.old subscriber.now }
    requires up_to_date { IsUpToDate domain.old subscriber.now }
    requires borrows { HasBorrowsLeftOf domain.old (publisher_id publisher.now) subscriber.now 1 }
    requires waits { 0 < length (payloads_from domain.old (publisher_id publisher.now) subscriber.now) }
    ensures granted { IsOk result }
    ensures stays { Stays domain.old domain.new }
{
    read_one(domain, subscriber)
}
