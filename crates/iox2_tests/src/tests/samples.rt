ghost use Rattle.iox2_pubsub.specs.Live.{IsLiveSample};

use crate::tests::fixtures::{copied, publisher_of, received, release, subscriber_of};
use iox2_fixtures::{Weather, is_single_valued, settings};
use iox2_machine::{Header, ServiceConfig};
use iox2_pubsub::{Domain, Sample};
use std::alloc::Global;
use std::process::Abort;

// A domain of this node with a borrowed message, and its sample.
fn with_a_sample(rt: &impl Abort, alloc: Global, node_id: u128, celsius: u64) -> (Weather, Sample)
    ensures { IsLiveSample result.0 result.1 }
{
    let config = ServiceConfig {
        node_id,
        ..settings()
    };
    let mut domain: Weather = Domain::new(alloc, config).expect(rt, "a domain");
    let subscriber = subscriber_of(rt, &mut domain);
    let publisher = publisher_of(rt, &mut domain);
    let takers = copied(rt, &mut domain, &publisher, celsius);
    publisher.disown();
    let sample = received(rt, &mut domain, &subscriber).expect(rt, "a sample");
    subscriber.disown();
    assert!(rt; takers == 1);
    (domain, sample)
}

// The sample's reading, header and user header.
fn parts_of(rt: &impl Abort, domain: &Weather, sample: &Sample) -> (u64, Header, u32)
    requires { IsLiveSample domain.now sample.now }
{
    assert!(rt; is_single_valued(domain));
    let celsius = sample.payload(domain).celsius;
    (
        celsius,
        *sample.header(domain),
        sample.user_header(domain).number,
    )
}

// The subscriber has the id 1, and the publisher 2.
#[test]
fn a_sent_message_is_received_and_read(rt: HostRuntime) {
    for (node_id, sent) in [(9, 4), (3, 21), (1 << 100, 0)] {
        let (domain, sample) = with_a_sample(&rt, rt.alloc(), node_id, sent);
        let (celsius, header, station) = parts_of(&rt, &domain, &sample);
        let origins = [sample.origin().value(), header.publisher_id.value()];
        let receiver = sample.key().port;
        sample.disown();
        drop(domain);
        assert!(rt; celsius == sent && station == 0);
        assert!(rt; origins == [2, 2]);
        assert!(rt; receiver == 1);
        assert!(rt; header.node_id.value() == node_id);
        assert!(rt; header.number_of_elements() == 1);
    }
}

#[test]
fn a_sample_is_released(rt: HostRuntime) {
    let (mut domain, sample) = with_a_sample(&rt, rt.alloc(), 3, 21);
    let key = sample.key();
    let before = domain.holds_sample(key);
    release(&rt, &mut domain, sample);
    let after = domain.holds_sample(key);
    drop(domain);
    assert!(rt; key.port == 1);
    assert!(rt; [before, after] == [true, false]);
}
