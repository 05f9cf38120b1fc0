//! Values are sent, and all that waits is read.
ghost use Rattle.std.specs.Prelude.{ℕ, List, [], ◌∷◌, ◌++◌, ◌+◌, ◌<◌, ◌≡◌, length, suc, IfErr, IfOk, IfNone, IfSome, IsOk, OnOk, OnSome};
ghost use Rattle.iox2_pubsub.specs.Handles.{publisher_id, unwritten_lender};
ghost use Rattle.iox2_pubsub.specs.Live.{HasLender, IsConsistent, IsLivePublisher, IsLiveSubscriber, IsSingleValued};
ghost use Rattle.iox2_pubsub.specs.Live.{IsUnblocked, NeverWaitsUnwritten, IsUpToDate, KeepsAll, Stays, StaysBut};
ghost use Rattle.iox2_pubsub.specs.Live.{UpToDateStay, WaitingStays, payloads_from, unwritten_key, unwritten_loan};
ghost use Rattle.iox2_pubsub.specs.Live.{waiting};
ghost use Rattle.iox2_pubsub.specs.LoansLeft.{HasOneMoreLeft, LoansLeftStay};
ghost use Rattle.iox2_pubsub.specs.declared.subscriber.Subscriber.{Subscriber as Port};
ghost use Rattle.iox2_pubsub.specs.BorrowsLeft.{BorrowsLeftStay, HasBorrowsLeft, HasBorrowsLeftOf};
ghost use Rattle.message_patterns.specs.Values.{CanSendValues, OnNoValue, TakesMore, Wait};

use crate::Numbers;
use crate::failure::Failure;
use iox2_pubsub::{Publisher, SampleMutUninit, Subscriber};

/// Sends a value.
pub fn send_one(domain: &mut Numbers, publisher: &Publisher, value: u32) -> Result<(), Failure>
    requires single_valued { IsSingleValued domain.old }
    requires publisher { IsLivePublisher domain.old publisher.now }
    ensures sent { (subscriber : Port) (earlier : List ℕ) (more : ℕ) → TakesMore domain.old (publisher_id publisher.now) subscriber earlier (more + 1)
        → OnOk result (TakesMore domain.new (publisher_id publisher.now) subscriber (earlier ++ value ∷ []) more) }
    ensures granted { (n : ℕ) → CanSendValues domain.old publisher.now (n + 1) → IsOk result × CanSendValues domain.new publisher.now n }
    ensures up_to_date { UpToDateStay domain.old domain.new }
    ensures stays { Stays domain.old domain.new }
{
    match publisher.send_copy(domain, value) {
        Ok(outcome) => {
            outcome.delivered();
            Ok(())
        }
        Err(error) => Err(Failure::Send(error)),
    }
}

/// Writes a value into the loan and sends it.
pub fn send_loan(domain: &mut Numbers, loan: SampleMutUninit, value: u32)
    requires single_valued { IsSingleValued domain.old }
    requires loan { NeverWaitsUnwritten domain.old loan }
    requires unblocked { IsUnblocked domain.old (unwritten_key loan) }
    requires lent { HasLender domain.old (unwritten_key loan) }
    ensures sent { (publisher : ℕ) (reader : Port) (earlier : List ℕ) (more : ℕ) → unwritten_lender loan ≡ publisher
        → TakesMore domain.old publisher reader earlier (more + 1)
        → TakesMore domain.new publisher reader (earlier ++ value ∷ []) more }
    ensures loans { LoansLeftStay domain.old domain.new }
    ensures borrows { BorrowsLeftStay domain.old domain.new }
    ensures given_back { HasOneMoreLeft (unwritten_lender loan) domain.old domain.new }
    ensures up_to_date { UpToDateStay domain.old domain.new }
    ensures stays { StaysBut (unwritten_loan loan) domain.old domain.new }
{
    match loan.write_payload(domain, value).send(domain) {
        Ok(outcome) => {
            outcome.delivered();
        }
        Err(_) => unreachable!(),
    }
}

/// Sends the values, one after the other.
pub fn send_all(domain: &mut Numbers, publisher: &Publisher, values: &[u32]) -> Result<(), Failure>
    requires single_valued { IsSingleValued domain.old }
    requires publisher { IsLivePublisher domain.old publisher.now }
    ensures sent { (subscriber : Port) (earlier : List ℕ) (more : ℕ)
        → TakesMore domain.old (publisher_id publisher.now) subscriber earlier (length values.now + more)
        → OnOk result (TakesMore domain.new (publisher_id publisher.now) subscriber (earlier ++ values.now) more) }
    ensures granted { (n : ℕ) → CanSendValues domain.old publisher.now (length values.now + n) → IsOk result × CanSendValues domain.new publisher.now n }
    ensures up_to_date { UpToDateStay domain.old domain.new }
    ensures stays { Stays domain.old domain.new }
{
    for &value in values {
        send_one(domain, publisher, value)?;
    }
    Ok(())
}

/// Receives the oldest value that waits, and gives its message back. `None` where none waits.
pub fn read_one(domain: &mut Numbers, subscriber: &Subscriber) -> Result<Option<u32>, Failure>
    requires single_valued { IsSingleValued domain.old }
    requires subscriber { IsLiveSubscriber domain.old subscriber.now }
    ensures consistent { IsConsistent domain.old }
    ensures first { IfOk result (λ read. IfSome read (λ value. (publisher : ℕ) (values : List ℕ) → Wait domain.old publisher subscriber.now values
        → (others : List ℕ) × (values ≡ value ∷ others) × Wait domain.new publisher subscriber.now others)) }
    ensures oldest { KeepsAll domain.old subscriber.now → IfOk result (λ read. IfSome read (λ value. (origin : ℕ)
        × (payloads_from domain.old origin subscriber.now ≡ (value ∷ []) ∷ payloads_from domain.new origin subscriber.now)
        × ((other : ℕ) → (other ≡ origin → ⊥) → payloads_from domain.new other subscriber.now ≡ payloads_from domain.old other subscriber.now)
        × (suc (waiting domain.new subscriber.now) ≡ waiting domain.old subscriber.now))) }
    ensures fewer { IfOk result (λ read. OnSome read (waiting domain.new subscriber.now < waiting domain.old subscriber.now)) }
    ensures none { IfOk result (λ read. IfNone read (waiting domain.new subscriber.now ≡ 0)) }
    ensures nothing { KeepsAll domain.old subscriber.now → IfOk result (λ read. IfNone read (waiting domain.old subscriber.now ≡ 0)) }
    ensures granted { IsUpToDate domain.old subscriber.now → HasBorrowsLeft domain.old subscriber.now 1 → IsOk result }
    ensures granted_of { (publisher : ℕ) → IsUpToDate domain.old subscriber.now → HasBorrowsLeftOf domain.old publisher subscriber.now 1
        → 0 < length (payloads_from domain.old publisher subscriber.now) → IsOk result }
    ensures borrows { HasBorrowsLeft domain.old subscriber.now 1 → HasBorrowsLeft domain.new subscriber.now 1 }
    ensures kept { KeepsAll domain.old subscriber.now → OnNoValue result (WaitingStays domain.old domain.new) }
    ensures up_to_date { UpToDateStay domain.old domain.new }
    ensures updated { OnOk result (IsUpToDate domain.new subscriber.now) }
    ensures loans { LoansLeftStay domain.old domain.new }
    ensures stays { Stays domain.old domain.new }
{
    let sample = match subscriber.receive(domain) {
        Ok(Some(sample)) => sample,
        Ok(None) => return Ok(None),
        Err(error) => return Err(Failure::Receive(error)),
    };
    let value = *sample.payload(domain);
    sample.release(domain);
    Ok(Some(value))
}

/// Receives all that waits, and appends it to `read`.
pub fn read_all(
    domain: &mut Numbers,
    subscriber: &Subscriber,
    read: &mut Vec<u32>,
) -> Result<(), Failure>
    requires single_valued { IsSingleValued domain.old }
    requires subscriber { IsLiveSubscriber domain.old subscriber.now }
    ensures all { KeepsAll domain.old subscriber.now → (publisher : ℕ) (values : List ℕ) → Wait domain.old publisher subscriber.now values
        → OnOk result ((read.new).items ≡ (read.old).items ++ values) }
    ensures drained { OnOk result (waiting domain.new subscriber.now ≡ 0) }
    ensures up_to_date { UpToDateStay domain.old domain.new }
    ensures stays { Stays domain.old domain.new }
{
    while let Some(value) = read_one(domain, subscriber)? {
        if read.push(value).is_err() {
            return Err(Failure::Memory);
        }
    }
    Ok(())
}
