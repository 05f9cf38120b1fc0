//! Sends that wait for a full subscriber are tried again and given up.
use crate::tests::waiting_publishers::{
    assert_blocked, block, blocked, blocked_again, blocked_ports, deliver, delivered,
    delivered_at_last, given_up, has_blocked_send, message_of, next_reading, subscriber_of,
    waiting_domain, waiting_ports, waiting_publisher,
};
use iox2_fixtures::{Reading, Weather, close_subscriber, elsewhere};
use iox2_machine::{BackpressureStrategy, Key};
use iox2_pubsub::{BlockedSend, LoanParts, Publisher};
use std::process::Abort;
use std::time::Duration;

// That the publisher goes on once its send has ended is proved here, where nothing is tested before
// the calls.
#[test]
fn a_publisher_goes_on_once_its_send_has_ended(rt: HostRuntime) {
    let mut domain = waiting_domain(&rt, rt.alloc());
    let subscriber = subscriber_of(&rt, &mut domain, 1);
    subscriber.disown();
    let publisher = waiting_publisher(&rt, &mut domain);
    let sent = publisher.send_copy(&mut domain, Reading { celsius: 20 });
    let first = delivered(&rt, sent);
    let sent = publisher.send_copy(&mut domain, Reading { celsius: 21 });
    let waiting = blocked(&rt, sent);
    let waiting = blocked(&rt, waiting.retry(&mut domain, Duration::ZERO));
    let second = delivered(&rt, waiting.give_up(&mut domain));
    publisher.close(&mut domain);
    drop(domain);
    assert!(rt; [first, second] == [1, 0]);
}

// Lends, writes and sends a message, which is blocked. Returns the key of its loan, too.
fn block_a_loan(
    rt: &impl Abort,
    domain: &mut Weather,
    publisher: &Publisher,
    celsius: u64,
) -> (Key, BlockedSend) {
    let message = message_of(rt, domain, publisher, celsius);
    let key = message.key();
    assert!(rt; !message.is_blocked(domain));
    (key, blocked(rt, message.send(domain)))
}

#[test]
fn a_full_subscriber_blocks_the_send_until_it_has_room(rt: HostRuntime) {
    let mut ports = waiting_ports(&rt, rt.alloc());
    let strategy = ports.publisher.backpressure_strategy();
    let first = deliver(&rt, &mut ports.domain, &ports.publisher, 20);
    let before = has_blocked_send(&rt, &ports.domain, &ports.publisher);
    let (key, waiting) = block_a_loan(&rt, &mut ports.domain, &ports.publisher, 21);
    let names_its_loan = waiting.key() == key;
    let is_loan = ports.domain.holds_loan(key);
    let meanwhile = has_blocked_send(&rt, &ports.domain, &ports.publisher);
    let read = next_reading(&rt, &mut ports.domain, &ports.subscriber);
    let until_retried = has_blocked_send(&rt, &ports.domain, &ports.publisher);
    let nothing = next_reading(&rt, &mut ports.domain, &ports.subscriber);
    let second = delivered_at_last(&rt, &mut ports.domain, waiting);
    let after = has_blocked_send(&rt, &ports.domain, &ports.publisher);
    let last = next_reading(&rt, &mut ports.domain, &ports.subscriber);
    ports.close(&rt);
    assert!(rt; strategy == BackpressureStrategy::RetryUntilDelivered);
    assert!(rt; [first, second] == [1, 1]);
    assert!(rt; names_its_loan && !is_loan);
    assert!(rt; [before, meanwhile, until_retried, after] == [false, true, true, false]);
    assert!(rt; [read, nothing, last] == [Some(20), None, Some(21)]);
}

#[test]
fn a_blocked_send_is_held_until_it_has_ended(rt: HostRuntime) {
    let (mut ports, waiting) = blocked_ports(&rt, rt.alloc());
    let key = waiting.key();
    let delivered_one = Key { message: 0, ..key };
    let of_the_subscriber = Key {
        port: ports.subscriber.key().port,
        ..key
    };
    let before = [
        ports.domain.holds_blocked(key),
        ports.domain.holds_blocked(delivered_one),
        ports.domain.holds_blocked(of_the_subscriber),
        ports.domain.holds_blocked(elsewhere(key)),
    ];
    let count = given_up(&rt, &mut ports.domain, waiting);
    let after = ports.domain.holds_blocked(key);
    ports.end();
    assert!(rt; count == 0);
    assert!(rt; before == [true, false, false, false]);
    assert!(rt; !after);
}

// The id of the subscriber that a blocked send waits for.
fn blocker(rt: &impl Abort, domain: &Weather, waiting: &BlockedSend) -> u128 {
    assert_blocked(rt, domain, waiting);
    waiting.subscriber(domain).value()
}

// Of three subscribers the first has room. The send waits for the second, also once that is closed, and
// then for the third.
#[test]
fn a_blocked_send_names_the_subscriber_that_it_waits_for(rt: HostRuntime) {
    let mut domain = waiting_domain(&rt, rt.alloc());
    let first = subscriber_of(&rt, &mut domain, 2);
    let second = subscriber_of(&rt, &mut domain, 1);
    let third = subscriber_of(&rt, &mut domain, 1);
    let publisher = waiting_publisher(&rt, &mut domain);
    let [second_id, third_id] = [second.id().value(), third.id().value()];
    let all = deliver(&rt, &mut domain, &publisher, 20);
    let waiting = block(&rt, &mut domain, &publisher, 21);
    let before = blocker(&rt, &domain, &waiting);
    let waiting = blocked_again(&rt, &mut domain, waiting);
    let again = blocker(&rt, &domain, &waiting);
    assert!(rt; close_subscriber(&mut domain, second));
    let closed = blocker(&rt, &domain, &waiting);
    let waiting = blocked_again(&rt, &mut domain, waiting);
    let last = blocker(&rt, &domain, &waiting);
    let count = given_up(&rt, &mut domain, waiting);
    first.disown();
    third.disown();
    publisher.disown();
    drop(domain);
    assert!(rt; [all, count] == [3, 1]);
    assert!(rt; [before, again, closed] == [second_id, second_id, second_id]);
    assert!(rt; last == third_id);
}

// Whether a send with the numbers waits.
fn has_blocked(domain: &Weather, parts: &LoanParts) -> bool {
    domain.blocked_of(parts).map(|it| it.disown()).is_some()
}

#[test]
fn a_blocked_send_is_had_again_until_it_has_ended(rt: HostRuntime) {
    let (mut ports, waiting) = blocked_ports(&rt, rt.alloc());
    let parts = waiting.into_parts();
    let astray = LoanParts {
        place: usize::MAX,
        book: 7,
        slot: usize::MAX,
        ..parts
    };
    let before = [
        has_blocked(&ports.domain, &parts),
        has_blocked(&ports.domain, &LoanParts { number: 9, ..parts }),
    ];
    let waiting = ports
        .domain
        .blocked_of(&astray)
        .expect(&rt, "a blocked send");
    let count = given_up(&rt, &mut ports.domain, waiting);
    let after = has_blocked(&ports.domain, &parts);
    ports.end();
    assert!(rt; count == 0);
    assert!(rt; before == [true, false]);
    assert!(rt; !after);
}
