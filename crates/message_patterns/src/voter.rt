//! Three publishers send a reading each, and the middle one counts.
ghost use Rattle.std.specs.Prelude.{ℕ, List, [], ◌∷◌, ◌<◌, ◌≡◌, ◌≢◌, suc, IfOk, OnOk};
ghost use Rattle.iox2_pubsub.specs.Handles.{publisher_id};
ghost use Rattle.iox2_pubsub.specs.Live.{IsConnected, IsLivePublisher, IsLiveSubscriber, IsSingleValued, IsUpToDate, Stays, UpToDateStay, waiting};
ghost use Rattle.iox2_pubsub.specs.declared.subscriber.Subscriber.{Subscriber as Port};
ghost use Rattle.message_patterns.specs.Votes.{AllApart, IsMiddle, Picks, Vote, VotesWait, vote_of};

use crate::Numbers;
use crate::failure::Failure;
use crate::pairing::send_beside;
use crate::passing::read_one;
use iox2_pubsub::{Publisher, Subscriber};

/// Each publisher sends its reading, the subscriber takes the three, and the middle one is returned.
pub fn vote(
    domain: &mut Numbers,
    first: &Publisher,
    second: &Publisher,
    third: &Publisher,
    subscriber: &Subscriber,
    readings: (u32, u32, u32),
) -> Result<u32, Failure>
    requires single_valued { IsSingleValued domain.old }
    requires first { IsLivePublisher domain.old first.now }
    requires second { IsLivePublisher domain.old second.now }
    requires third { IsLivePublisher domain.old third.now }
    requires apart { AllApart (publisher_id third.now ∷ publisher_id second.now ∷ publisher_id first.now ∷ []) }
    requires connected { IsConnected domain.old (publisher_id first.now) subscriber.now
        × IsConnected domain.old (publisher_id second.now) subscriber.now
        × IsConnected domain.old (publisher_id third.now) subscriber.now }
    requires subscriber { IsLiveSubscriber domain.old subscriber.now }
    requires up_to_date { IsUpToDate domain.old subscriber.now }
    requires drained { waiting domain.old subscriber.now ≡ 0 }
    ensures middle { IfOk result (λ it. IsMiddle it readings.0 readings.1 readings.2) }
    ensures majority { IfOk result (λ it. (readings.0 ≡ readings.1 → it ≡ readings.0)
        × (readings.0 ≡ readings.2 → it ≡ readings.0) × (readings.1 ≡ readings.2 → it ≡ readings.1)) }
    ensures up_to_date { UpToDateStay domain.old domain.new }
    ensures stays { Stays domain.old domain.new }
{
    cast_all(domain, first, second, third, readings)?;
    collect(domain, subscriber)
}

// Sends the three readings.
fn cast_all(
    domain: &mut Numbers,
    first: &Publisher,
    second: &Publisher,
    third: &Publisher,
    readings: (u32, u32, u32),
) -> Result<(), Failure>
    requires single_valued { IsSingleValued domain.old }
    requires first { IsLivePublisher domain.old first.now }
    requires second { IsLivePublisher domain.old second.now }
    requires third { IsLivePublisher domain.old third.now }
    requires apart { AllApart (publisher_id third.now ∷ publisher_id second.now ∷ publisher_id first.now ∷ []) }
    ensures cast { (subscriber : Port) → waiting domain.old subscriber ≡ 0 → IsConnected domain.old (publisher_id first.now) subscriber
        → IsConnected domain.old (publisher_id second.now) subscriber → IsConnected domain.old (publisher_id third.now) subscriber
        → OnOk result (VotesWait domain.new subscriber
        (vote_of (publisher_id third.now) readings.2 ∷ vote_of (publisher_id second.now) readings.1 ∷ vote_of
        (publisher_id first.now) readings.0 ∷ [])) }
    ensures up_to_date { UpToDateStay domain.old domain.new }
    ensures stays { Stays domain.old domain.new }
{
    send_beside(domain, first, readings.0)?;
    send_beside(domain, second, readings.1)?;
    send_beside(domain, third, readings.2)
}

// Takes three readings, and returns the middle one.
fn collect(domain: &mut Numbers, subscriber: &Subscriber) -> Result<u32, Failure>
    requires single_valued { IsSingleValued domain.old }
    requires subscriber { IsLiveSubscriber domain.old subscriber.now }
    requires up_to_date { IsUpToDate domain.old subscriber.now }
    requires three { waiting domain.old subscriber.now ≡ 3 }
    ensures middle { IfOk result (λ it. (a b c : Vote) → VotesWait domain.old subscriber.now (a ∷ b ∷ c ∷ []) → IsMiddle it a.value b.value c.value) }
    ensures up_to_date { UpToDateStay domain.old domain.new }
    ensures stays { Stays domain.old domain.new }
{
    let first = take(domain, subscriber)?;
    let second = take(domain, subscriber)?;
    let third = take(domain, subscriber)?;
    Ok(median(first, second, third))
}

// Takes a reading that waits.
fn take(domain: &mut Numbers, subscriber: &Subscriber) -> Result<u32, Failure>
    requires single_valued { IsSingleValued domain.old }
    requires subscriber { IsLiveSubscriber domain.old subscriber.now }
    requires up_to_date { IsUpToDate domain.old subscriber.now }
    requires some { 0 < waiting domain.old subscriber.now }
    ensures picks { IfOk result (λ reading. (votes : List Vote) → VotesWait domain.old subscriber.now votes
        → (left : List Vote) × Picks votes reading left × VotesWait domain.new subscriber.now left) }
    ensures fewer { OnOk result (suc (waiting domain.new subscriber.now) ≡ waiting domain.old subscriber.now) }
    ensures up_to_date { UpToDateStay domain.old domain.new }
    ensures stays { Stays domain.old domain.new }
{
    let Some(reading) = read_one(domain, subscriber)? else {
        unreachable!()
    };
    Ok(reading)
}

/// The middle one of three numbers.
pub fn median(a: u32, b: u32, c: u32) -> u32
    ensures { IsMiddle result a b c }
{
    if a < b {
        if b < c {
            b
        } else if a < c {
            c
        } else {
            a
        }
    } else if a < c {
        a
    } else if b < c {
        c
    } else {
        b
    }
}
