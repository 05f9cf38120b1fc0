//! Readings go from the thermometer to the display.
ghost use Rattle.iox2_pubsub.specs.Live.{AreAll, AreApart, Both, IsLiveSubscriber, IsSingleValued};
ghost use Rattle.iox2_pubsub.specs.Live.{NeverWaitsUnwritten, Stays, StaysBut, payloads, unwritten_loan, waiting};
ghost use Rattle.std.specs.Prelude.{◌≡◌, ℕ, IfOk, IfSome};
ghost use Rattle.iox2_pubsub.specs.declared.subscriber.Subscriber.{Subscriber as SubscriberHandle};
ghost use Rattle.thermometer.specs.Ports.{CanMeasure, HasPorts};

use crate::failure::Failure;
use crate::reading::Reading;
use iox2_pubsub::{Domain, Publisher, SampleMutUninit, Subscriber, UpdateConnections};

/// Connects the publisher, and reports two temperatures together and then one alone.
pub fn report_both(
    rt: &HostRuntime,
    domain: &mut Domain<Reading, ()>,
    publisher: &Publisher,
    subscriber: &Subscriber,
) -> Result<(), Failure>
    requires ports { HasPorts domain.old publisher.now subscriber.now }
    requires loans { CanMeasure domain.old publisher.now 2 }
    ensures { Stays domain.old domain.new }
{
    publisher.update_connections(domain)?;
    report_pair(rt, domain, publisher, subscriber, 18, 17)?;
    report(rt, domain, publisher, subscriber, 19)?;
    Ok(())
}

// Sends one reading, and shows the next that waits: the same one, where none waited and no history
// is kept. Returns what it showed.
fn report(
    rt: &HostRuntime,
    domain: &mut Domain<Reading, ()>,
    publisher: &Publisher,
    subscriber: &Subscriber,
    celsius: u32,
) -> Result<Option<u32>, Failure>
    requires ports { HasPorts domain.old publisher.now subscriber.now }
    ensures same { (domain.old.config).history_size ≡ 0 → waiting domain.old subscriber.now ≡ 0 → IfOk result (λ shown. IfSome shown (λ it. it ≡ celsius)) }
    ensures stays { Stays domain.old domain.new }
{
    let loan = publisher.loan_uninit(domain)?;
    send(domain, loan, celsius)?;
    show(rt, domain, subscriber)
}

// Has two loans out at a time, sends the later one first, and shows both. Neither loan can be
// refused, so there is no case for that.
#[tactic(auto, using(iox2_pubsub::proofs::ForCallers::for_callers))]
fn report_pair(
    rt: &HostRuntime,
    domain: &mut Domain<Reading, ()>,
    publisher: &Publisher,
    subscriber: &Subscriber,
    celsius: u32,
    later: u32,
) -> Result<(), Failure>
    requires ports { HasPorts domain.old publisher.now subscriber.now }
    requires loans { CanMeasure domain.old publisher.now 2 }
    ensures { Stays domain.old domain.new }
{
    let first = publisher.loan_uninit(domain).unwrap();
    let second = publisher.loan_uninit(domain).unwrap();
    send_pair(domain, first, second, celsius, later)?;
    show_both(rt, domain, subscriber)
}

// Sends two loans, the later one first.
fn send_pair(
    domain: &mut Domain<Reading, ()>,
    first: SampleMutUninit,
    second: SampleMutUninit,
    celsius: u32,
    later: u32,
) -> Result<(), Failure>
    requires single_valued { IsSingleValued domain.old }
    requires first { NeverWaitsUnwritten domain.old first }
    requires second { NeverWaitsUnwritten domain.old second }
    requires apart { AreApart (unwritten_loan second) (unwritten_loan first) }
    ensures { StaysBut (Both (unwritten_loan first) (unwritten_loan second)) domain.old domain.new }
{
    let outcome = send(domain, second, later);
    send(domain, first, celsius)?;
    outcome
}

// Shows the next two readings.
fn show_both(
    rt: &HostRuntime,
    domain: &mut Domain<Reading, ()>,
    subscriber: &Subscriber,
) -> Result<(), Failure>
    requires single_valued { IsSingleValued domain.old }
    requires subscriber { IsLiveSubscriber domain.old subscriber.now }
    ensures { Stays domain.old domain.new }
{
    show(rt, domain, subscriber)?;
    show(rt, domain, subscriber)?;
    Ok(())
}

// Writes a reading into the loan, and sends it.
fn send(
    domain: &mut Domain<Reading, ()>,
    loan: SampleMutUninit,
    celsius: u32,
) -> Result<(), Failure>
    requires single_valued { IsSingleValued domain.old }
    requires loan { NeverWaitsUnwritten domain.old loan }
    ensures brings { (subscriber : SubscriberHandle) → (domain.old.config).history_size ≡ 0 → waiting domain.old subscriber ≡ 0
        → AreAll (payloads domain.new subscriber) (record { celsius = celsius }) }
    ensures stays { StaysBut (unwritten_loan loan) domain.old domain.new }
{
    let message = loan.write_payload(domain, Reading { celsius });
    message.send(domain)?.delivered();
    Ok(())
}

// Receives a reading, prints it and gives it back. Returns what it printed.
fn show(
    rt: &HostRuntime,
    domain: &mut Domain<Reading, ()>,
    subscriber: &Subscriber,
) -> Result<Option<u32>, Failure>
    requires single_valued { IsSingleValued domain.old }
    requires subscriber { IsLiveSubscriber domain.old subscriber.now }
    ensures waited { (celsius : ℕ) → AreAll (payloads domain.old subscriber.now) (record { celsius = celsius })
        → IfOk result (λ shown. IfSome shown (λ it. it ≡ celsius)) }
    ensures stays { Stays domain.old domain.new }
{
    let Some(sample) = subscriber.receive(domain)? else {
        println!(rt; "no reading")?;
        return Ok(None);
    };
    let celsius = sample.payload(domain).celsius;
    let printed = println!(rt; "{celsius} °C");
    sample.release(domain);
    printed?;
    Ok(Some(celsius))
}
