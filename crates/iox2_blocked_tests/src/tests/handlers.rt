//! Publishers whose handler says what becomes of a message at a full subscriber.
ghost use Rattle.std.specs.Prelude.{◌≡◌};
ghost use Rattle.std.specs.declared.result.Result.TheVariants.{Err};

use crate::tests::waiting_publishers::{
    block, deliver, given_up, send, subscriber_of, waiting_domain,
};
use iox2_machine::{BackpressureAction, BackpressureStrategy};
use iox2_pubsub::{BackpressureHandler, SendError, SendOutcome};
use std::process::Abort;

/// Why the send failed.
pub(crate) fn failed(rt: &impl Abort, sent: Result<SendOutcome, SendError>) -> SendError
    ensures { sent ≡ Err result }
{
    match sent {
        Ok(SendOutcome::Delivered(_)) => panic!(rt; "the send hasn't failed"),
        Ok(SendOutcome::Blocked(waiting)) => {
            waiting.disown();
            panic!(rt; "the send is blocked")
        }
        Err(error) => error,
    }
}

// The factory still has its handler.
#[test]
fn a_partial_clone_of_a_factory_has_no_handler(rt: HostRuntime) {
    let mut domain = waiting_domain(&rt, rt.alloc());
    let subscriber = subscriber_of(&rt, &mut domain, 1);
    let action = BackpressureAction::DiscardDataAndFail;
    let factory = domain
        .publisher_builder()
        .backpressure_strategy(BackpressureStrategy::RetryUntilDelivered)
        .set_backpressure_handler(BackpressureHandler::new_with(action));
    let plain = factory.internal_partial_clone();
    let failing = factory.create(&mut domain).expect(&rt, "a publisher");
    let waiting = plain.create(&mut domain).expect(&rt, "a publisher");
    let first = deliver(&rt, &mut domain, &waiting, 20);
    let second = deliver(&rt, &mut domain, &failing, 21);
    let error = failed(&rt, send(&rt, &mut domain, &failing, 22));
    let send = block(&rt, &mut domain, &waiting, 23);
    let third = given_up(&rt, &mut domain, send);
    failing.disown();
    waiting.disown();
    subscriber.disown();
    drop(domain);
    assert!(rt; [first, second, third] == [1, 1, 0]);
    assert!(rt; error == SendError::UnableToDeliver);
}
