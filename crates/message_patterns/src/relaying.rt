//! Messages go from a subscriber of one domain to a publisher of another.
ghost use Rattle.std.specs.Prelude.{ℕ, List, [], ◌∷◌, ◌++◌, ◌+◌, ◌-◌, ◌<◌, ◌≤◌, ◌≡◌, ◌⊎◌, length, IfErr, IfNone, IfOk, IfSome, IsOk};
ghost use Rattle.iox2_pubsub.specs.Handles.{publisher_id};
ghost use Rattle.iox2_pubsub.specs.Live.{IsLivePublisher, IsLiveSubscriber, IsSingleValued, IsUpToDate, KeepsAll, Stays, UpToDateStay, WaitingStays, waiting};
ghost use Rattle.iox2_pubsub.specs.declared.subscriber.Subscriber.{Subscriber as Port};
ghost use Rattle.message_patterns.specs.Moves.{HasMoved};
ghost use Rattle.iox2_pubsub.specs.BorrowsLeft.{HasBorrowsLeft};
ghost use Rattle.message_patterns.specs.Values.{CanSendValues, OnNoValue, TakesMore, Wait};

use crate::Numbers;
use crate::failure::Failure;
use crate::passing::{read_all, read_one, send_all, send_loan};
use iox2_pubsub::{Publisher, Subscriber};
use std::alloc::Global;

/// Moves up to `n` messages that wait for `subscriber` in `from` to `publisher` of `to`, unchanged and in
/// their order. Returns how many were moved: `n`, or all that waited.
pub fn relay(
    from: &mut Numbers,
    subscriber: &Subscriber,
    to: &mut Numbers,
    publisher: &Publisher,
    n: usize,
) -> Result<usize, Failure>
    requires from { IsSingleValued from.old }
    requires subscriber { IsLiveSubscriber from.old subscriber.now }
    requires to { IsSingleValued to.old }
    requires publisher { IsLivePublisher to.old publisher.now }
    ensures moves { (origin : ℕ) (reader : Port) (values earlier : List ℕ) (more : ℕ)
        → KeepsAll from.old subscriber.now → Wait from.old origin subscriber.now values
        → TakesMore to.old (publisher_id publisher.now) reader earlier (n + more)
        → (count : ℕ) × (count ≤ n)
        × HasMoved from.new to.new origin subscriber.now (publisher_id publisher.now) reader values earlier count
        more × IfOk result (λ moved. moved ≡ count) }
    ensures granted { IsUpToDate from.old subscriber.now → HasBorrowsLeft from.old subscriber.now 1 → CanSendValues to.old publisher.now n → IsOk result }
    ensures all { IfOk result (λ moved. (moved ≡ n) ⊎ (waiting from.new subscriber.now ≡ 0)) }
    ensures up_to_date { UpToDateStay from.old from.new × UpToDateStay to.old to.new }
    ensures stays { Stays from.old from.new × Stays to.old to.new }
{
    for moved in 0..n {
        let Some(_value) = relay_one(from, subscriber, to, publisher)? else {
            return Ok(moved);
        };
    }
    Ok(n)
}

// Moves the oldest message. The slot is borrowed first, so that no message is received that can't be
// sent.
fn relay_one(
    from: &mut Numbers,
    subscriber: &Subscriber,
    to: &mut Numbers,
    publisher: &Publisher,
) -> Result<Option<u32>, Failure>
    requires from { IsSingleValued from.old }
    requires subscriber { IsLiveSubscriber from.old subscriber.now }
    requires to { IsSingleValued to.old }
    requires publisher { IsLivePublisher to.old publisher.now }
    ensures first { IfOk result (λ read. IfSome read (λ value. (origin : ℕ) (values : List ℕ) → Wait from.old origin subscriber.now values
        → (others : List ℕ) × (values ≡ value ∷ others) × Wait from.new origin subscriber.now others)) }
    ensures sent { IfOk result (λ read. IfSome read
        (λ value. (reader : Port) (earlier : List ℕ) (more : ℕ)
        → TakesMore to.old (publisher_id publisher.now) reader earlier (more + 1)
        → TakesMore to.new (publisher_id publisher.now) reader (earlier ++ value ∷ []) more)) }
    ensures unsent { OnNoValue result (WaitingStays to.old to.new) }
    ensures kept { KeepsAll from.old subscriber.now → OnNoValue result (WaitingStays from.old from.new) }
    ensures granted { IsUpToDate from.old subscriber.now → HasBorrowsLeft from.old subscriber.now 1 → (left : ℕ)
        → CanSendValues to.old publisher.now (left + 1) → IsOk result × CanSendValues to.new publisher.now left }
    ensures borrows { HasBorrowsLeft from.old subscriber.now 1 → HasBorrowsLeft from.new subscriber.now 1 }
    ensures none { IfOk result (λ read. IfNone read (waiting from.new subscriber.now ≡ 0)) }
    ensures up_to_date { UpToDateStay from.old from.new × UpToDateStay to.old to.new }
    ensures stays { Stays from.old from.new × Stays to.old to.new }
{
    let loan = match publisher.loan_uninit(to) {
        Ok(loan) => loan,
        Err(error) => return Err(Failure::Loan(error)),
    };
    match read_one(from, subscriber) {
        Ok(Some(value)) => {
            send_loan(to, loan, value);
            Ok(Some(value))
        }
        Ok(None) => {
            loan.discard(to);
            Ok(None)
        }
        Err(error) => {
            loan.discard(to);
            Err(error)
        }
    }
}

/// Sends values in `from`, has them relayed, and reads them in `to`.
pub fn relay_all(
    alloc: Global,
    from: &mut Numbers,
    sender: &Publisher,
    subscriber: &Subscriber,
    to: &mut Numbers,
    publisher: &Publisher,
    reader: &Subscriber,
    values: &[u32],
) -> Result<Vec<u32>, Failure>
    requires from { IsSingleValued from.old }
    requires sender { IsLivePublisher from.old sender.now }
    requires subscriber { IsLiveSubscriber from.old subscriber.now }
    requires takes { TakesMore from.old (publisher_id sender.now) subscriber.now [] (length values.now) }
    requires keeps { KeepsAll from.old subscriber.now }
    requires to { IsSingleValued to.old }
    requires publisher { IsLivePublisher to.old publisher.now }
    requires reader { IsLiveSubscriber to.old reader.now }
    requires reads { TakesMore to.old (publisher_id publisher.now) reader.now [] (length values.now) }
    requires keeps_read { KeepsAll to.old reader.now }
    ensures same { IfOk result (λ read. read.items ≡ values.now) }
    ensures stays { Stays from.old from.new × Stays to.old to.new }
{
    let mut read = Vec::new(alloc);
    send_all(from, sender, values)?;
    relay(from, subscriber, to, publisher, values.len())?;
    read_all(to, reader, &mut read)?;
    Ok(read)
}
