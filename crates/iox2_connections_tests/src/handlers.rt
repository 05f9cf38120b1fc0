//! A box is asked about a full receiver, and about no other.
ghost use Rattle.std.specs.Prelude.{◌≡◌, ◌<◌, ◌∷◌, [], IfOk};
ghost use Rattle.iox2_connections.specs.Link.{empty_link};
ghost use Rattle.iox2_connections.specs.Deliveries.{begun};

use crate::fixtures::{HOME, receiver, taken_slot};
use iox2_connections::Connection;
use iox2_connections::sender::{Delivery, DeliveryOutcome, Progress, ReceiverDetails, deliver};
use iox2_handler_fixtures::Patience;
use iox2_machine::{
    BackpressureAction, BackpressureFn, BackpressureHandler, BackpressureStrategy, ServiceConfig,
};
use slab::Slab;
use std::alloc::{AllocError, Global};
use std::test::Fail;
use std::time::Duration;

// The connection, in which the slot waits.
fn connection_with(alloc: Global, buffer_size: usize, slot: usize) -> Result<Connection, AllocError>
    requires { 0 < buffer_size }
    ensures { IfOk result (λ c. c ≡ record (empty_link HOME buffer_size 1 1) { waiting = slot ∷ [] }) }
{
    let mut connection = Connection::new(alloc, HOME, buffer_size, 1, 1)?;
    connection.put(0, slot, false);
    Ok(connection)
}

// The slot's delivery, which was tried again that many times.
fn delivery_of(slot: usize, retries: u64) -> Delivery
    ensures sender { result.publisher ≡ 1 }
    ensures slot { result.slot ≡ slot }
    ensures channel { result.channel ≡ 0 }
    ensures start { result.start ≡ record begun { retries = retries } }
{
    Delivery {
        publisher: 1,
        slot,
        channel: 0,
        strategy: BackpressureStrategy::DiscardData,
        start: Progress {
            retries,
            ..Progress::default()
        },
        elapsed: Duration::ZERO,
    }
}

// The outcome of a delivery that was tried again that many times, at a receiver for which a message
// waits. Its handler has the patience for two retries.
fn outcome_at(
    alloc: Global,
    receiver: ReceiverDetails,
    retries: u64,
) -> Result<DeliveryOutcome, Fail>
    requires receiver { receiver.port_id ≡ 2 }
    requires buffer { 0 < receiver.buffer_size }
{
    let (mut book, slot) = taken_slot(alloc)?;
    book.hold(slot);
    let connection = connection_with(alloc, receiver.buffer_size, slot)?;
    let mut connections = Slab::new(alloc);
    connections.reserve(1)?;
    let keys = [Some(connections.insert_reserved(connection))];
    let mut receivers = Vec::new(alloc);
    receivers.push(Some(receiver))?;
    let patience = Patience {
        retries: 2,
        last_answer: BackpressureAction::DiscardDataAndFail,
    };
    let function: Box<dyn BackpressureFn> = Box::new(alloc, patience)?;
    let handler = Some(BackpressureHandler::Custom(function));
    Ok(deliver(
        &without_overflow(),
        &delivery_of(slot, retries),
        &handler,
        &mut connections,
        &mut book,
        &keys,
        &receivers,
    ))
}

// The settings of a service in which a full receiver is asked about.
fn without_overflow() -> ServiceConfig {
    ServiceConfig {
        enable_safe_overflow: false,
        ..ServiceConfig::new(1)
    }
}

// Whether the delivery waits for the first receiver, which was asked again that many times.
fn is_waiting(outcome: DeliveryOutcome, retries: u64) -> bool {
    match outcome {
        DeliveryOutcome::Suspended(progress) => {
            progress.place == 0
                && progress.retries == retries
                && progress.count == 0
                && !progress.has_failed
        }
        DeliveryOutcome::Complete { .. } => false,
    }
}

// How many receivers took the message, and whether the handler failed it, where it has gone past all.
fn ended(outcome: DeliveryOutcome) -> Option<(usize, bool)> {
    match outcome {
        DeliveryOutcome::Complete { count, has_failed } => Some((count, has_failed)),
        DeliveryOutcome::Suspended(_) => None,
    }
}

#[test]
fn a_handler_tries_twice_and_fails_the_message_then(rt: HostRuntime) -> Result<(), Fail> {
    let full = receiver(1, true);
    let first = outcome_at(rt.alloc(), full, 0)?;
    let second = outcome_at(rt.alloc(), full, 1)?;
    let third = outcome_at(rt.alloc(), full, 2)?;
    assert!(rt; is_waiting(first, 0));
    assert!(rt; is_waiting(second, 1));
    assert!(rt; ended(third) == Some((0, true)));
    Ok(())
}

#[test]
fn a_handler_is_not_asked_where_the_message_has_room_or_the_receiver_is_closed(
    rt: HostRuntime,
) -> Result<(), Fail> {
    let taken = outcome_at(rt.alloc(), receiver(2, true), 0)?;
    let passed = outcome_at(rt.alloc(), receiver(1, false), 0)?;
    assert!(rt; ended(taken) == Some((1, false)));
    assert!(rt; ended(passed) == Some((0, false)));
    Ok(())
}
