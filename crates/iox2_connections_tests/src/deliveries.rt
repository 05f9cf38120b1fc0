ghost use Rattle.std.specs.Prelude.{◌<◌, [], ◌∷◌, IfOk, Some};
ghost use Rattle.iox2_connections.specs.Counters.{IsCovered};
ghost use Rattle.iox2_connections.specs.Finds.{HasConnections};
ghost use Rattle.iox2_connections.specs.Homes.{IsApart, IsSenderLinked};

use crate::fixtures::{HOME, receiver, taken_slot};
use iox2_connections::Connection;
use iox2_connections::receiver::{has_samples, receive, release};
use iox2_connections::sender::{
    Delivery, DeliveryOutcome, Progress, deliver, drop_all, reclaim_all,
};
use iox2_machine::{BackpressureHandler, BackpressureStrategy, ServiceConfig};
use iox2_slots::SlotBook;
use slab::Slab;
use std::alloc::Global;
use std::test::Fail;
use std::time::Duration;

// Both ends after a delivery, and what it came to.
#[derive(Drop)]
struct Delivered {
    outcome: DeliveryOutcome,
    book: SlotBook,
    slot: usize,
    connections: Slab<Connection>,
    key: usize,
}

// Delivers the publisher's slot into a channel of the connection, which has two, where the settings are
// these.
fn deliver_slot(alloc: Global, config: &ServiceConfig, channel: usize) -> Result<Delivered, Fail>
    requires { channel < 2 }
    ensures linked { IfOk result (λ it. IsSenderLinked 1 it.connections (Some it.key ∷ [])) }
    ensures connected { IfOk result (λ it. HasConnections it.connections (Some it.key ∷ [])) }
    ensures apart { IfOk result (λ it. IsApart it.connections) }
    ensures covered { IfOk result (λ it. IsCovered 1 it.book.holders it.connections.slots) }
{
    let connection = Connection::new(alloc, HOME, 2, 1, 2)?;
    let (mut book, slot) = taken_slot(alloc)?;
    let mut connections = Slab::new(alloc);
    connections.reserve(1)?;
    let key = connections.insert_reserved(connection);
    let mut receivers = Vec::new(alloc);
    receivers.push(Some(receiver(2, true)))?;
    let handler: Option<BackpressureHandler> = None;
    let outcome = deliver(
        config,
        &Delivery {
            publisher: 1,
            slot,
            channel,
            strategy: config.backpressure_strategy,
            start: Progress::default(),
            elapsed: Duration::ZERO,
        },
        &handler,
        &mut connections,
        &mut book,
        &[Some(key)],
        &receivers,
    );
    Ok(Delivered {
        outcome,
        book,
        slot,
        connections,
        key,
    })
}

// Whether the one subscriber took the message.
fn is_taken(outcome: DeliveryOutcome) -> bool {
    matches!(
        outcome,
        DeliveryOutcome::Complete {
            count: 1,
            has_failed: false
        }
    )
}

#[test]
fn a_message_goes_there_and_back(rt: HostRuntime) -> Result<(), Fail> {
    let config = ServiceConfig {
        subscriber_max_borrowed_samples: 1,
        enable_safe_overflow: false,
        backpressure_strategy: BackpressureStrategy::DiscardData,
        ..ServiceConfig::new(1)
    };
    let Delivered {
        outcome,
        mut book,
        slot,
        mut connections,
        key,
    } = deliver_slot(rt.alloc(), &config, 0)?;
    let keys = [Some(key)];
    let mut last_place = 0;
    let answer = receive(&mut connections, &[], &keys, &mut last_place).expect(&rt, "an answer");
    let taken = answer.expect(&rt, "a message");
    assert!(rt; taken.connection == key && taken.home == HOME);
    let received = taken.slot;
    assert!(rt; connections[key].borrowed() == [received].as_slice());
    assert!(rt; connections[key].is_borrowed(received));
    release(&mut connections, key, received);
    assert!(rt; slot < book.len());
    let delivered = book.holders(slot);

    reclaim_all(1, &mut connections, &mut book, &keys);
    assert!(rt; slot < book.len());
    let reclaimed = book.holders(slot);
    drop(connections);
    drop(book);
    assert!(rt; is_taken(outcome));
    assert!(rt; received == slot);
    assert!(rt; [delivered, reclaimed] == [2, 1]);
    Ok(())
}

#[test]
fn a_message_in_another_channel_waits_until_its_connection_is_emptied(
    rt: HostRuntime,
) -> Result<(), Fail> {
    let Delivered {
        outcome,
        mut book,
        slot,
        mut connections,
        key,
    } = deliver_slot(rt.alloc(), &ServiceConfig::new(1), 1)?;
    let is_offered = has_samples(&connections, &[], &[Some(key)]);
    assert!(rt; slot < book.len());
    let delivered = book.holders(slot);
    drop_all(1, &mut connections, &mut book, key);
    assert!(rt; slot < book.len());
    let dropped = book.holders(slot);
    drop(connections);
    drop(book);
    assert!(rt; is_taken(outcome) && !is_offered);
    assert!(rt; [delivered, dropped] == [2, 1]);
    Ok(())
}
