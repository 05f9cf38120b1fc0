//! Two samples are held at a time.
ghost use Rattle.iox2_pubsub.specs.Live.{AreApart, Both, IsLiveSample, IsLiveSubscriber, IsSingleValued, Stays, received_sample};
ghost use Rattle.iox2_pubsub.specs.Leaves.{LeavesBut};

use crate::failure::Failure;
use iox2_pubsub::{Domain, Sample, Subscriber};

/// Receives two readings, says how far apart they are, and gives both back. `None` where fewer wait.
pub fn next_change(
    domain: &mut Domain<u32, ()>,
    subscriber: &Subscriber,
) -> Result<Option<u32>, Failure>
    requires single_valued { IsSingleValued domain.old }
    requires subscriber { IsLiveSubscriber domain.old subscriber.now }
    ensures stays { Stays domain.old domain.new }
{
    let Some(first) = subscriber.receive(domain)? else {
        return Ok(None);
    };
    let second = match subscriber.receive(domain) {
        Ok(Some(second)) => second,
        Ok(None) => {
            first.release(domain);
            return Ok(None);
        }
        Err(error) => {
            first.release(domain);
            return Err(error.into());
        }
    };
    Ok(Some(change(domain, first, second)))
}

/// Says how far apart two readings are, and gives both back.
pub fn change(domain: &mut Domain<u32, ()>, first: Sample, second: Sample) -> u32
    requires single_valued { IsSingleValued domain.old }
    requires first { IsLiveSample domain.old first }
    requires second { IsLiveSample domain.old second }
    requires apart { AreApart (received_sample second) (received_sample first) }
    ensures leaves { LeavesBut (Both (received_sample first) (received_sample second)) domain.old domain.new }
{
    let change = first.payload(domain).abs_diff(*second.payload(domain));
    second.release(domain);
    first.release(domain);
    change
}
