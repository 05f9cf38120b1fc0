//! What goes on while a publisher waits for a full subscriber.
ghost use Rattle.std.specs.Prelude.{◌≡◌};
ghost use Rattle.iox2_pubsub.specs.Live.{IsSingleValued, IsUnwritten, IsWritten, StaysBut, unwritten_loan, written_loan};

use crate::tests::waiting_publishers::{
    assert_blocked, blocked, deliver, delivered, next_reading, waiting_ports,
};
use iox2_fixtures::{Reading, Weather, is_ready, is_single_valued};
use iox2_pubsub::{BlockedSend, Publisher, SampleMut, SampleMutUninit};
use std::process::Abort;
use std::time::Duration;

// Sets the reading of a written loan, and the number of its station.
fn change(domain: &mut Weather, message: &mut SampleMut, celsius: u64, number: u32)
    requires single_valued { IsSingleValued domain.old }
    requires message { IsWritten domain.old message.old }
    ensures same { message.new ≡ message.old }
    ensures out { IsWritten domain.new message.new }
    ensures stays { StaysBut (written_loan message.old) domain.old domain.new }
{
    SampleMut::payload_mut(domain, message).celsius = celsius;
    SampleMut::user_header_mut(domain, message).number = number;
}

// Writes the loan, and then sets its reading and the number of its station. Returns the message and
// that number.
fn write_and_change(
    domain: &mut Weather,
    loan: SampleMutUninit,
    celsius: u64,
    number: u32,
) -> (SampleMut, u32)
    requires single_valued { IsSingleValued domain.old }
    requires loan { IsUnwritten domain.old loan }
    ensures out { IsWritten domain.new result.0 }
    ensures stays { StaysBut (unwritten_loan loan) domain.old domain.new }
{
    let mut message = loan.write_payload(domain, Reading { celsius: 0 });
    change(domain, &mut message, celsius, number);
    let station = message.user_header(domain).number;
    (message, station)
}

// Lends two messages, writes the first and sends it, which is blocked. Returns the other loan, too.
fn block_beside_a_loan(
    rt: &impl Abort,
    domain: &mut Weather,
    publisher: &Publisher,
    celsius: u64,
) -> (BlockedSend, SampleMutUninit)
    ensures single_valued { IsSingleValued domain.new }
    ensures loan { IsUnwritten domain.new result.1 }
{
    assert!(rt; is_single_valued(domain));
    assert!(rt; is_ready(domain, publisher));
    let loan = publisher.loan_uninit(domain).expect(rt, "a loan");
    let later = publisher.loan_uninit(domain).expect(rt, "a loan");
    let message = loan.write_payload(domain, Reading { celsius });
    (blocked(rt, message.send(domain)), later)
}

// Sends the message, whose publisher has no blocked send. Returns how many took it.
fn send_message(rt: &impl Abort, domain: &mut Weather, message: SampleMut) -> usize
    requires { IsWritten domain.old message }
{
    assert!(rt; !message.is_blocked(domain));
    delivered(rt, message.send(domain))
}

// While a send of its publisher is blocked, a loan is written and changed; it is sent once that send
// has ended.
#[test]
fn a_loan_of_a_blocked_publisher_is_written(rt: HostRuntime) {
    let mut ports = waiting_ports(&rt, rt.alloc());
    let first = deliver(&rt, &mut ports.domain, &ports.publisher, 20);
    let (waiting, later) = block_beside_a_loan(&rt, &mut ports.domain, &ports.publisher, 21);
    let (message, station) = write_and_change(&mut ports.domain, later, 23, 5);
    let before = message.is_blocked(&ports.domain);
    let read = next_reading(&rt, &mut ports.domain, &ports.subscriber);
    assert_blocked(&rt, &ports.domain, &waiting);
    let second = delivered(&rt, waiting.retry(&mut ports.domain, Duration::ZERO));
    let then = next_reading(&rt, &mut ports.domain, &ports.subscriber);
    let after = message.is_blocked(&ports.domain);
    let third = send_message(&rt, &mut ports.domain, message);
    let last = next_reading(&rt, &mut ports.domain, &ports.subscriber);
    ports.end();
    assert!(rt; [first, second, third] == [1, 1, 1]);
    assert!(rt; station == 5);
    assert!(rt; [before, after] == [true, false]);
    assert!(rt; [read, then, last] == [Some(20), Some(21), Some(23)]);
}
