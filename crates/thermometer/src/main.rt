//! A thermometer sends its readings to a display, which prints them.
//!
//! This is how a program over `iox2_pubsub` is written. Each call asks for live handles, and each
//! call says which handles are live after it, so that the whole is proved with nothing tested when
//! it runs.
#![tactic(auto)]

ghost use Rattle.iox2_pubsub.specs.Live.{IsLiveSubscriber, IsSingleValued, Stays};
ghost use Rattle.iox2_pubsub.specs.LoansLeft.{HasNumbersLeft};

mod batch;
mod correction;
mod failure;
mod reading;
mod report;
mod series;
mod waiting;

use failure::Failure;
use iox2_pubsub::{BackpressureStrategy, Domain, ServiceConfig, Subscriber};
use reading::Reading;
use report::report_both;
use series::exchange;

fn main(rt: HostRuntime) -> Result<(), Failure> {
    report_readings(&rt)?;
    if let Some(temperatures) = exchange(rt.alloc())? {
        println!(rt; "{temperatures} temperatures in a series")?;
    }
    Ok(())
}

// Makes the domain and its display, and reports to it.
fn report_readings(rt: &HostRuntime) -> Result<(), Failure> {
    let mut domain = Domain::<Reading, ()>::new(rt.alloc(), ServiceConfig::new(1))?;
    let subscriber = domain.subscriber_builder().create(&mut domain)?;
    let outcome = run(rt, &mut domain, &subscriber);
    subscriber.close(&mut domain);
    outcome
}

// Makes the publisher of a thermometer indoors, with up to two loans out at a time, and reports with
// it.
#[tactic(auto, using(iox2_pubsub::proofs::ForCallers::for_callers))]
fn run(
    rt: &HostRuntime,
    domain: &mut Domain<Reading, ()>,
    subscriber: &Subscriber,
) -> Result<(), Failure>
    requires single_valued { IsSingleValued domain.old }
    requires subscriber { IsLiveSubscriber domain.old subscriber.now }
    requires numbers { HasNumbersLeft domain.old 2 }
    ensures { Stays domain.old domain.new }
{
    let indoors = domain
        .publisher_builder()
        .max_loaned_samples(2)
        .backpressure_strategy(BackpressureStrategy::DiscardData)
        .create(domain)?;
    let outcome = report_both(rt, domain, &indoors, subscriber);
    indoors.close(domain);
    outcome
}
