//! Messages pass from a publisher to receivers.
ghost use Rattle.std.specs.Prelude.{◌≤◌, All};
ghost use Rattle.iox2_pubsub.specs.Live.{IsLivePublisher, IsLiveSubscriber, IsSingleValued, Stays};

use crate::receiver::Receiver;
use iox2_pubsub::{Domain, Publisher};

/// Passes that many messages, one after the other. Returns how many of them every receiver received
/// and read as they were written.
pub fn pass_all(
    domain: &mut Domain<u64, ()>,
    publisher: &Publisher,
    receivers: &[Receiver],
    messages: u64,
) -> u64
    requires single_valued { IsSingleValued domain.old }
    requires publisher { IsLivePublisher domain.old publisher.now }
    requires receivers { All (λ receiver. IsLiveSubscriber domain.old receiver.subscriber) receivers.now }
    ensures stays { Stays domain.old domain.new }
    ensures arrived { result ≤ messages }
{
    let mut arrived = 0;
    for value in 0..messages {
        if send(domain, publisher, value).is_some() && receive_all(domain, receivers, value) {
            arrived += 1;
        }
    }
    arrived
}

/// Sends the value. `None` where it isn't lent. It stays a function of its own in the program, so that
/// its instructions can be counted.
#[inline(never)]
pub fn send(domain: &mut Domain<u64, ()>, publisher: &Publisher, value: u64) -> Option<()>
    requires single_valued { IsSingleValued domain.old }
    requires publisher { IsLivePublisher domain.old publisher.now }
    ensures { Stays domain.old domain.new }
{
    let loan = publisher.loan_uninit(domain).ok()?;
    let message = loan.write_payload(domain, value);
    message.send(domain).ok()?.delivered();
    Some(())
}

// Has each receiver receive a message, read it and give it back. Returns whether every one of them
// read the value. It stays a function of its own, as `send` does.
#[inline(never)]
fn receive_all(domain: &mut Domain<u64, ()>, receivers: &[Receiver], value: u64) -> bool
    requires single_valued { IsSingleValued domain.old }
    requires receivers { All (λ receiver. IsLiveSubscriber domain.old receiver.subscriber) receivers.now }
    ensures { Stays domain.old domain.new }
{
    for receiver in receivers {
        if receive(domain, receiver) != Some(value) {
            return false;
        }
    }
    true
}

// Receives a message, reads it and gives it back.
fn receive(domain: &mut Domain<u64, ()>, receiver: &Receiver) -> Option<u64>
    requires single_valued { IsSingleValued domain.old }
    requires receiver { IsLiveSubscriber domain.old receiver.now.subscriber }
    ensures { Stays domain.old domain.new }
{
    let sample = receiver.subscriber.receive(domain).ok()??;
    let value = *sample.payload(domain);
    sample.release(domain);
    Some(value)
}
