//! Numbers wait in a queue with a bound.
ghost use Rattle.std.specs.Prelude.{[], OnOk};
ghost use Rattle.iox2_pubsub.specs.Handles.{publisher_id};
ghost use Rattle.iox2_pubsub.specs.Live.{Stays};
ghost use Rattle.message_patterns.specs.Queues.{AreQueuePorts};
ghost use Rattle.message_patterns.specs.Values.{Wait};
ghost use Rattle.three_patterns.specs.Ports.{CanPassOn};

use crate::failure::Failure;
use crate::ports::{Pair, join, settings};
use iox2_pubsub::{Publisher, Subscriber};
use message_patterns::{Numbers, Queue, is_idle};
use std::alloc::Global;

/// What came of it: the number that found no room, and those that were taken out.
#[derive(Drop)]
pub struct Queued {
    pub refused: Option<u32>,
    pub popped: [Option<u32>; 3],
}

/// Puts one number more into a queue than it takes, and takes out what is in it.
pub fn queue_numbers(alloc: Global) -> Result<Queued, Failure> {
    let mut domain = Numbers::with_handlers(alloc, settings(4))?;
    let pair = join(&mut domain)?;
    match expect_idle(&mut domain, &pair.publisher, &pair.subscriber) {
        Ok(()) => {
            let Pair {
                publisher,
                subscriber,
            } = pair;
            let mut queue = Queue::over(domain, publisher, subscriber);
            let pushed = (queue.push(1), queue.push(2), queue.push(3), queue.push(4));
            let popped = (queue.pop(), queue.pop(), queue.pop());
            queue.close();
            pushed.0?;
            pushed.1?;
            pushed.2?;
            Ok(Queued {
                refused: pushed.3?,
                popped: [popped.0?, popped.1?, popped.2?],
            })
        }
        Err(error) => {
            pair.close(&mut domain);
            Err(error)
        }
    }
}

// Fails if a message waits for the subscriber.
fn expect_idle(
    domain: &mut Numbers,
    publisher: &Publisher,
    subscriber: &Subscriber,
) -> Result<(), Failure>
    requires joined { CanPassOn domain.old publisher.now subscriber.now }
    ensures ports { OnOk result (AreQueuePorts domain.new publisher.now subscriber.now) }
    ensures drained { OnOk result (Wait domain.new (publisher_id publisher.now) subscriber.now []) }
    ensures stays { Stays domain.old domain.new }
{
    if !is_idle(domain, subscriber)? {
        return Err(Failure::Busy);
    }
    Ok(())
}
