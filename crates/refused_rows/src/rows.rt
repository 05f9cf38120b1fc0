//! The rows of ports that meet.
ghost use Rattle.iox2_pubsub.specs.Live.{IsLiveSubscriber, IsReadyPublisher, IsSingleValued};

use crate::answer::{Handler, Service};
use crate::failure::Failure;
use crate::ports::{made_publisher, made_subscriber, receive, send};
use iox2_pubsub::{Publisher, Subscriber};

/// Which of two ports comes later.
#[derive(Clone, Copy)]
pub(crate) enum Later {
    /// The subscriber.
    Subscriber,
    /// The publisher.
    Publisher,
}

// Does something with a port that is made, and spends its handle, whatever the outcome.
macro_rules! with_port {
    ($port:ident = $made:expr => $outcome:expr) => {
        match $made {
            Ok($port) => {
                let outcome = $outcome;
                $port.disown();
                outcome
            }
            Err(error) => Err(error),
        }
    };
}

/// A port meets one that comes later. A value is sent and received. Then one more port comes, of the kind
/// that was there first: after a subscriber another value is sent, and after either the first subscriber
/// receives again.
pub(crate) fn meet(
    rt: &HostRuntime,
    domain: &mut Service,
    later: Later,
    handlers: (Handler, Handler, Handler),
) -> Result<(), Failure>
    requires { IsSingleValued domain.old }
{
    let (first, second, last) = handlers;
    match later {
        Later::Subscriber => with_port!(publisher = made_publisher(rt, domain, first) =>
            with_port!(subscriber = made_subscriber(rt, domain, second) =>
                pass(rt, domain, &publisher, &subscriber, later, last))),
        Later::Publisher => with_port!(subscriber = made_subscriber(rt, domain, first) =>
            with_port!(publisher = made_publisher(rt, domain, second) =>
                pass(rt, domain, &publisher, &subscriber, later, last))),
    }
}

// Has values pass, before the last port comes and afterwards.
fn pass(
    rt: &HostRuntime,
    domain: &mut Service,
    publisher: &Publisher,
    subscriber: &Subscriber,
    later: Later,
    last: Handler,
) -> Result<(), Failure>
    requires single_valued { IsSingleValued domain.old }
    requires publisher { IsReadyPublisher domain.old publisher.now }
    requires subscriber { IsLiveSubscriber domain.old subscriber.now }
{
    send(rt, domain, publisher, 1)?;
    receive(rt, domain, subscriber)?;
    match later {
        Later::Subscriber => made_publisher(rt, domain, last)?.disown(),
        Later::Publisher => {
            made_subscriber(rt, domain, last)?.disown();
            send(rt, domain, publisher, 2)?;
        }
    }
    receive(rt, domain, subscriber)
}
