ghost use Rattle.iox2_pubsub.specs.Live.{Stays};

use crate::tests::fixtures::{domain, publisher_of, subscriber_of};
use iox2_fixtures::{Reading, Station, publish};
use iox2_pubsub::{BackpressureFn, ConnectionFailure, DegradationFn, Domain, UpdateConnections};

// Updates a port of either kind.
fn update<F: BackpressureFn, G: DegradationFn, P: UpdateConnections<Reading, Station, F, G>>(
    domain: &mut Domain<Reading, Station, F, G>,
    port: &P,
) -> Result<(), ConnectionFailure>
    requires { P.is_live domain.old port.now }
    ensures { Stays domain.old domain.new }
{
    port.update_connections(domain)
}

// Updates a port of either kind twice.
fn update_twice<F: BackpressureFn, G: DegradationFn, P: UpdateConnections<Reading, Station, F, G>>(
    domain: &mut Domain<Reading, Station, F, G>,
    port: &P,
) -> Result<(), ConnectionFailure>
    requires { P.is_live domain.old port.now }
    ensures live { P.is_live domain.new port.now }
    ensures stays { Stays domain.old domain.new }
{
    port.update_connections(domain)?;
    update(domain, port)
}

#[test]
fn ports_of_both_kinds_are_updated(rt: HostRuntime) {
    let mut domain = domain(&rt, rt.alloc());
    let publisher = publisher_of(&rt, &mut domain);
    let subscriber = subscriber_of(&rt, &mut domain);
    let first = update(&mut domain, &publisher);
    let second = update(&mut domain, &subscriber);
    let again = update_twice(&mut domain, &publisher);
    let takers = publish(&mut domain, &publisher, 21);
    publisher.disown();
    subscriber.disown();
    drop(domain);
    assert!(rt; [first, second, again] == [Ok(()), Ok(()), Ok(())]);
    assert!(rt; takers == Some(1));
}
