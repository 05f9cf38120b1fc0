//! Slices are lent, written, sent and received.
ghost use Rattle.std.specs.Prelude.{false};
ghost use Rattle.iox2_pubsub.specs.Slices.{IsSliced};
ghost use Rattle.iox2_pubsub.specs.Live.{IsUnwritten, IsWritten, Stays};

use crate::tests::fixtures::{
    lend_defaults, lend_slice, receive_slice, send_slice, slice_factory, slice_publisher,
    slice_subscriber,
};
use iox2_fixtures::{
    Costly, Numbers, costly_time, is_slice_publisher_ready, is_sliced, micros_since, slices,
};
use iox2_machine::{DegradationAction, LoanError};
use iox2_pubsub::slice::{Publisher, Sample, SampleMut, SampleMutUninit, Subscriber};
use iox2_pubsub::{DegradationHandler, Domain, UpdateConnections, Value};
use std::cell::Cell;
use std::process::Abort;
use std::time::CpuClock;

/// A payload that is neither `Copy` nor `Clone`.
#[derive(Default, Drop)]
struct Tag(u64);

// Sets one of the values.
fn set(values: &mut [u64], index: usize, value: u64) {
    if let Some(place) = values.get_mut(index) {
        *place = value;
    }
}

#[test]
fn a_slice_is_sent_as_it_was_written(rt: HostRuntime) {
    let mut domain: Numbers = Domain::new(rt.alloc(), slices()).expect(&rt, "a domain");
    let factory = domain.slice_subscriber_builder().buffer_size(2);
    let subscriber = factory.create(&mut domain).expect(&rt, "a subscriber");
    let publisher = slice_publisher(&rt, &mut domain, 5000);
    let loan = lend_slice(&rt, &mut domain, &publisher, 5000);
    publisher.disown();
    let mut message = loan.write_from_fn(&mut domain, |index| (index as u64).wrapping_mul(3));
    set(SampleMut::payload_mut(&mut domain, &mut message), 0, 42);
    let takers = send_slice(&rt, &mut domain, message);
    let sample = receive_slice(&rt, &mut domain, &subscriber);
    subscriber.disown();
    let read = sample.payload(&domain);
    let values = [
        read.first().copied(),
        read.get(17).copied(),
        read.last().copied(),
    ];
    let length = read.len();
    let elements = sample.header(&domain).number_of_elements();
    sample.disown();
    drop(domain);
    assert!(rt; takers == 1);
    assert!(rt; values == [Some(42), Some(51), Some(14997)]);
    assert!(rt; length == 5000 && elements == 5000);
}

// The loan is shorter than its publisher lends.
#[test]
fn each_element_is_sent_as_its_function_says(rt: HostRuntime) {
    let mut domain: Numbers = Domain::new(rt.alloc(), slices()).expect(&rt, "a domain");
    let subscriber = slice_subscriber(&rt, &mut domain);
    let publisher = slice_publisher(&rt, &mut domain, 16);
    let loan = lend_slice(&rt, &mut domain, &publisher, 12);
    publisher.disown();
    let mut message = loan.write_from_fn(&mut domain, |index| (index as u64).wrapping_mul(1234));
    set(SampleMut::payload_mut(&mut domain, &mut message), 0, 42);
    let takers = send_slice(&rt, &mut domain, message);
    let sample = receive_slice(&rt, &mut domain, &subscriber);
    subscriber.disown();
    let sent = [
        42, 1234, 2468, 3702, 4936, 6170, 7404, 8638, 9872, 11106, 12340, 13574,
    ];
    let is_read = sample.payload(&domain) == sent.as_slice();
    let elements = sample.header(&domain).number_of_elements();
    sample.disown();
    drop(domain);
    assert!(rt; takers == 1);
    assert!(rt; is_read);
    assert!(rt; elements == 12);
}

#[test]
fn a_slice_is_copied_into_its_loan(rt: HostRuntime) {
    let mut domain: Numbers = Domain::new(rt.alloc(), slices()).expect(&rt, "a domain");
    let subscriber = slice_subscriber(&rt, &mut domain);
    let publisher = slice_publisher(&rt, &mut domain, 16);
    let loan = lend_slice(&rt, &mut domain, &publisher, 4);
    publisher.disown();
    let message = loan.write_from_slice(&mut domain, &[1, 2, 3, 4]);
    let takers = send_slice(&rt, &mut domain, message);
    let sample = receive_slice(&rt, &mut domain, &subscriber);
    subscriber.disown();
    let is_read = sample.payload(&domain) == [1, 2, 3, 4].as_slice();
    let lies_there = match sample.payload_at_hint(&domain) {
        Some(values) => values == [1, 2, 3, 4].as_slice(),
        None => false,
    };
    let elements = sample.header(&domain).number_of_elements();
    sample.disown();
    drop(domain);
    assert!(rt; takers == 1);
    assert!(rt; is_read);
    assert!(rt; lies_there);
    assert!(rt; elements == 4);
}

#[test]
fn a_slice_has_default_values(rt: HostRuntime) {
    let mut domain: Numbers = Domain::new(rt.alloc(), slices()).expect(&rt, "a domain");
    let publisher = slice_publisher(&rt, &mut domain, 16);
    let mut message = lend_defaults(&rt, &mut domain, &publisher, 5);
    publisher.disown();
    set(SampleMut::payload_mut(&mut domain, &mut message), 2, 42);
    let is_read = message.payload(&domain) == [0, 0, 42, 0, 0].as_slice();
    message.discard(&mut domain);
    drop(domain);
    assert!(rt; is_read);
}

#[test]
fn no_default_values_are_made_for_a_refused_loan(rt: HostRuntime) {
    let mut domain: Domain<Costly, ()> = Domain::new(rt.alloc(), slices()).expect(&rt, "a domain");
    let factory = slice_factory(&domain).max_loaned_samples(0);
    let publisher = factory.create(&mut domain).expect(&rt, "a publisher");
    let begun = rt.thread_cpu_time().expect(&rt, "a time");
    let longer = publisher.loan_slice(&mut domain, 2);
    let longer = longer.map(|loan| loan.disown());
    let second = publisher.loan_slice(&mut domain, 1);
    let second = second.map(|loan| loan.disown());
    let spent = micros_since(&rt, begun).expect(&rt, "a time");
    publisher.disown();
    drop(domain);
    let (number, once) = costly_time(&rt).expect(&rt, "a time");
    assert!(rt; longer == Err(LoanError::ExceedsMaxLoanSize));
    assert!(rt; second == Err(LoanError::ExceedsMaxLoans));
    assert!(rt; number != 0 && spent < once / 2);
}

// How many elements the loan of this length has, which is given back, or why there is none.
fn lent_length(
    rt: &impl Abort,
    domain: &mut Domain<Tag, Tag>,
    publisher: &Publisher,
    slice_len: usize,
) -> Result<u64, LoanError>
    ensures { Stays domain.old domain.new }
{
    assert!(rt; is_sliced(domain));
    assert!(rt; is_slice_publisher_ready(domain, publisher));
    let loan = publisher.loan_slice_uninit(domain, slice_len)?;
    let elements = loan.header(domain).number_of_elements();
    loan.discard(domain);
    Ok(elements)
}

#[test]
fn a_loan_may_be_as_long_as_its_publisher_lends(rt: HostRuntime) {
    let mut domain: Domain<Tag, Tag> = Domain::new(rt.alloc(), slices()).expect(&rt, "a domain");
    let factory = slice_factory(&domain).max_loaned_samples(1);
    let publisher = factory
        .initial_max_slice_len(16)
        .create(&mut domain)
        .expect(&rt, "a publisher");
    let lengths = [
        lent_length(&rt, &mut domain, &publisher, 0),
        lent_length(&rt, &mut domain, &publisher, 16),
        lent_length(&rt, &mut domain, &publisher, 17),
    ];
    let longest = publisher.initial_max_slice_len();
    publisher.disown();
    drop(domain);
    let too_long = Err(LoanError::ExceedsMaxLoanSize);
    assert!(rt; lengths == [Ok(0), Ok(16), too_long]);
    assert!(rt; longest == 16);
}

#[test]
fn a_loan_is_taken_as_written_once_each_cell_is(rt: HostRuntime) {
    let mut domain: Domain<Tag, Tag> = Domain::new(rt.alloc(), slices()).expect(&rt, "a domain");
    let publisher = slice_publisher(&rt, &mut domain, 2);
    let mut loan = lend_slice(&rt, &mut domain, &publisher, 2);
    publisher.disown();
    fill(SampleMutUninit::payload_mut(&mut domain, &mut loan), 0, 5);
    let mut loan = handed_back(&rt, &mut domain, loan);
    fill(SampleMutUninit::payload_mut(&mut domain, &mut loan), 1, 6);
    let message = taken(&rt, &mut domain, loan);
    let read = total(message.payload(&domain));
    message.disown();
    drop(domain);
    assert!(rt; read == 11);
}

// The loan that isn't taken as written.
fn handed_back(
    rt: &impl Abort,
    domain: &mut Domain<Tag, Tag>,
    loan: SampleMutUninit,
) -> SampleMutUninit
    requires loan { IsUnwritten domain.old loan.sample }
    requires sliced { IsSliced domain.old }
    ensures loan { IsUnwritten domain.new result.sample }
    ensures sliced { IsSliced domain.new }
{
    match loan.assume_init(domain) {
        Ok(message) => {
            message.disown();
            panic!(rt; "each cell is written")
        }
        Err(loan) => loan,
    }
}

// The loan that is taken as written.
fn taken(rt: &impl Abort, domain: &mut Domain<Tag, Tag>, loan: SampleMutUninit) -> SampleMut
    requires loan { IsUnwritten domain.old loan.sample }
    requires sliced { IsSliced domain.old }
    ensures message { IsWritten domain.new result.sample }
    ensures sliced { IsSliced domain.new }
{
    match loan.assume_init(domain) {
        Ok(message) => message,
        Err(loan) => {
            loan.disown();
            panic!(rt; "a cell isn't written")
        }
    }
}

// Writes one of the cells.
fn fill(cells: &mut [Option<Tag>], index: usize, number: u64) {
    if let Some(cell) = cells.get_mut(index) {
        *cell = Some(Tag(number));
    }
}

// The sum of the tags, where it fits.
fn total(tags: &[Tag]) -> u64 {
    tags.iter().fold(0, |sum: u64, tag| sum.wrapping_add(tag.0))
}

// Whether messages wait for the subscriber.
fn waits(rt: &impl Abort, domain: &mut Domain<Tag, Tag>, subscriber: &Subscriber) -> bool {
    assert!(rt; subscriber.is_in(domain));
    subscriber.has_samples(domain).expect(rt, "an answer")
}

// Updates the publisher.
fn update(rt: &impl Abort, domain: &mut Domain<Tag, Tag>, publisher: &Publisher) {
    assert!(rt; is_slice_publisher_ready(domain, publisher));
    let updated = publisher.update_connections(domain);
    assert!(rt; updated.is_ok());
}

// Their handlers would fail each call that can't make a connection.
#[test]
fn ports_of_slices_have_the_calls_of_ports(rt: HostRuntime) {
    let mut domain: Domain<Tag, Tag> = Domain::new(rt.alloc(), slices()).expect(&rt, "a domain");
    let handler = DegradationHandler::new_with(DegradationAction::DegradeAndFail);
    let factory = domain
        .slice_subscriber_builder()
        .set_degradation_handler(handler);
    let subscriber = factory.create(&mut domain).expect(&rt, "a subscriber");
    let handler = DegradationHandler::new_with(DegradationAction::DegradeAndFail);
    let factory = slice_factory(&domain).set_degradation_handler(handler);
    let publisher = factory.create(&mut domain).expect(&rt, "a publisher");
    let ids = [publisher.id().value(), subscriber.id().value()];
    let keys = [publisher.key().port, subscriber.key().port];
    let buffer_size = subscriber.buffer_size();
    update(&rt, &mut domain, &publisher);
    let before = waits(&rt, &mut domain, &subscriber);
    let loan = lend_defaults(&rt, &mut domain, &publisher, 1);
    let takers = send_slice(&rt, &mut domain, loan);
    let after = waits(&rt, &mut domain, &subscriber);
    let publisher = Publisher::new(publisher.into_inner());
    assert!(rt; is_slice_publisher_ready(&domain, &publisher));
    publisher.close(&mut domain);
    let subscriber = Subscriber::new(subscriber.into_inner());
    assert!(rt; subscriber.is_in(&domain));
    let updated = subscriber.update_connections(&mut domain);
    subscriber.close(&mut domain);
    drop(domain);
    assert!(rt; ids == [2, 1] && keys == [2, 1]);
    assert!(rt; buffer_size == 2 && updated.is_ok());
    assert!(rt; [before, after] == [false, true]);
    assert!(rt; takers == 1);
}

// The number in one of the cells, where there is one.
fn written_number(cells: &[Option<Tag>], index: usize) -> Option<u64> {
    cells.get(index)?.as_ref().map(|tag| tag.0)
}

// The number of one of the tags.
fn number_at(tags: &[Tag], index: usize) -> Option<u64> {
    tags.get(index).map(|tag| tag.0)
}

#[test]
fn a_loan_of_a_slice_keeps_what_is_written_into_it(rt: HostRuntime) {
    let mut domain: Domain<Tag, Tag> = Domain::new(rt.alloc(), slices()).expect(&rt, "a domain");
    let publisher = slice_publisher(&rt, &mut domain, 3);
    let mut loan = lend_slice(&rt, &mut domain, &publisher, 3);
    publisher.disown();
    fill(SampleMutUninit::payload_mut(&mut domain, &mut loan), 1, 5);
    *SampleMutUninit::user_header_mut(&mut domain, &mut loan) = Tag(6);
    let header = loan.user_header(&domain).0;
    let cells = loan.payload(&domain);
    let written = [written_number(cells, 0), written_number(cells, 1)];
    let message = loan.write_from_fn(&mut domain, |index| Tag((index as u64).wrapping_mul(7)));
    let kept = message.user_header(&domain).0;
    let elements = message.header(&domain).number_of_elements();
    let tags = message.payload(&domain);
    let read = [number_at(tags, 0), number_at(tags, 1), number_at(tags, 2)];
    message.disown();
    drop(domain);
    assert!(rt; written == [None, Some(5)]);
    assert!(rt; [header, kept] == [6, 6]);
    assert!(rt; elements == 3);
    assert!(rt; read == [Some(0), Some(7), Some(14)]);
}

// No contract says that the function isn't called again behind the last element.
#[test]
fn a_function_is_called_once_for_each_element(rt: HostRuntime) {
    let mut domain: Domain<Tag, Tag> = Domain::new(rt.alloc(), slices()).expect(&rt, "a domain");
    let publisher = slice_publisher(&rt, &mut domain, 4);
    let loan = lend_slice(&rt, &mut domain, &publisher, 3);
    publisher.disown();
    let calls = Cell::new(0u64);
    let message = loan.write_from_fn(&mut domain, |index| {
        calls.set(calls.get().wrapping_add(1));
        Tag(index as u64)
    });
    message.disown();
    drop(domain);
    assert!(rt; calls.get() == 3);
}

// The subscriber has the id 1, and the publisher 2.
#[test]
fn a_slice_of_values_without_copies_is_received_as_it_was_left(rt: HostRuntime) {
    let mut domain: Domain<Tag, Tag> = Domain::new(rt.alloc(), slices()).expect(&rt, "a domain");
    let subscriber = slice_subscriber(&rt, &mut domain);
    let publisher = slice_publisher(&rt, &mut domain, 2);
    let mut message = lend_defaults(&rt, &mut domain, &publisher, 2);
    publisher.disown();
    *SampleMut::user_header_mut(&mut domain, &mut message) = Tag(4);
    if let Some(tag) = SampleMut::payload_mut(&mut domain, &mut message).get_mut(1) {
        *tag = Tag(9);
    }
    let takers = send_slice(&rt, &mut domain, message);
    let sample = receive_slice(&rt, &mut domain, &subscriber);
    let tags = sample.payload(&domain);
    let read = [number_at(tags, 0), number_at(tags, 1)];
    let header = sample.user_header(&domain).0;
    let elements = sample.header(&domain).number_of_elements();
    let origin = sample.origin().value();
    sample.release(&mut domain);
    let is_over = !waits(&rt, &mut domain, &subscriber);
    subscriber.disown();
    drop(domain);
    assert!(rt; takers == 1);
    assert!(rt; read == [Some(0), Some(9)]);
    assert!(rt; [header, elements] == [4, 2]);
    assert!(rt; origin == 2);
    assert!(rt; is_over);
}

// The subscriber has the id 1, the publisher 2, and the message the number 1.
#[test]
fn handles_of_slices_are_made_of_those_of_single_values(rt: HostRuntime) {
    let mut domain: Domain<Tag, Tag> = Domain::new(rt.alloc(), slices()).expect(&rt, "a domain");
    let subscriber = slice_subscriber(&rt, &mut domain);
    let publisher = slice_publisher(&rt, &mut domain, 1);
    let loan = lend_slice(&rt, &mut domain, &publisher, 1);
    publisher.disown();
    let lent = loan.key();
    let loan = SampleMutUninit::new(loan.into_inner());
    let is_same_loan = loan.key() == lent;
    let message = loan.write_from_fn(&mut domain, |_| Tag(8));
    let written = message.key();
    let message = SampleMut::new(message.into_inner());
    let is_same_message = message.key() == written;
    let takers = send_slice(&rt, &mut domain, message);
    let sample = receive_slice(&rt, &mut domain, &subscriber);
    subscriber.disown();
    let borrowed = sample.key();
    let sample: Sample = sample.into_kind::<Value>().into_kind();
    let is_same_sample = sample.key() == borrowed;
    sample.disown();
    drop(domain);
    assert!(rt; is_same_loan && is_same_message && is_same_sample);
    assert!(rt; written == lent && [lent.port, lent.message] == [2, 1]);
    assert!(rt; takers == 1);
    assert!(rt; [borrowed.port, borrowed.message] == [1, 1]);
}
