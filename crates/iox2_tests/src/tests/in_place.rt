//! Loans whose payload and user header are written where they lie.
ghost use Rattle.iox2_pubsub.specs.Live.{IsSingleValued, IsUnwritten, IsWritten};

use crate::tests::fixtures::{publisher_of, receive, send, subscriber_of};
use iox2_fixtures::{is_single_valued, settings};
use iox2_pubsub::{Domain, SampleMut, SampleMutUninit};
use std::process::Abort;

/// A payload that is neither `Copy` nor `Clone`.
#[derive(Drop)]
struct Tag(u64);

// Leaves this in the loan's cell, and counts in its user header.
fn write(domain: &mut Domain<Tag, u64>, loan: &mut SampleMutUninit, cell: Option<Tag>)
    requires single_valued { IsSingleValued domain.old }
    requires loan { IsUnwritten domain.old loan.old }
    ensures loan { IsUnwritten domain.new loan.new }
    ensures single_valued { IsSingleValued domain.new }
{
    *SampleMutUninit::payload_mut(domain, loan) = cell;
    let header = SampleMutUninit::user_header_mut(domain, loan);
    *header = header.wrapping_add(1);
}

// Leaves these as the payload and the user header of a written loan.
fn change(domain: &mut Domain<Tag, u64>, message: &mut SampleMut, tag: Tag, user_header: u64)
    requires single_valued { IsSingleValued domain.old }
    requires message { IsWritten domain.old message.old }
    ensures { IsWritten domain.new message.new }
{
    *SampleMut::payload_mut(domain, message) = tag;
    *SampleMut::user_header_mut(domain, message) = user_header;
}

// The loan that isn't taken as written.
fn handed_back(
    rt: &impl Abort,
    domain: &mut Domain<Tag, u64>,
    loan: SampleMutUninit,
) -> SampleMutUninit
    requires single_valued { IsSingleValued domain.old }
    requires loan { IsUnwritten domain.old loan }
    ensures loan { IsUnwritten domain.new result }
    ensures single_valued { IsSingleValued domain.new }
{
    match loan.assume_init(domain) {
        Ok(message) => {
            message.disown();
            panic!(rt; "the loan has no payload")
        }
        Err(loan) => loan,
    }
}

// The loan that is taken as written.
fn taken(rt: &impl Abort, domain: &mut Domain<Tag, u64>, loan: SampleMutUninit) -> SampleMut
    requires single_valued { IsSingleValued domain.old }
    requires loan { IsUnwritten domain.old loan }
    ensures message { IsWritten domain.new result }
    ensures single_valued { IsSingleValued domain.new }
{
    match loan.assume_init(domain) {
        Ok(message) => message,
        Err(loan) => {
            loan.disown();
            panic!(rt; "the loan has a payload")
        }
    }
}

#[test]
fn what_is_left_in_a_loan_is_sent(rt: HostRuntime) {
    let mut domain: Domain<Tag, u64> = Domain::new(rt.alloc(), settings()).expect(&rt, "a domain");
    let subscriber = subscriber_of(&rt, &mut domain);
    let publisher = publisher_of(&rt, &mut domain);
    assert!(rt; is_single_valued(&domain));
    let loan = publisher.loan_uninit(&mut domain).expect(&rt, "a loan");
    publisher.disown();
    let mut loan = handed_back(&rt, &mut domain, loan);
    write(&mut domain, &mut loan, Some(Tag(4)));
    write(&mut domain, &mut loan, None);
    let mut loan = handed_back(&rt, &mut domain, loan);
    write(&mut domain, &mut loan, Some(Tag(6)));
    let writes = *loan.user_header(&domain);
    let mut message = taken(&rt, &mut domain, loan);
    let first = message.payload(&domain).0;
    change(&mut domain, &mut message, Tag(7), 3);
    let takers = send(&rt, &mut domain, message);
    let sample = receive(&rt, &mut domain, &subscriber);
    subscriber.disown();
    let read = [sample.payload(&domain).0, *sample.user_header(&domain)];
    let elements = sample.header(&domain).number_of_elements();
    sample.disown();
    drop(domain);
    assert!(rt; takers == 1);
    assert!(rt; first == 6 && writes == 3);
    assert!(rt; read == [7, 3]);
    assert!(rt; elements == 1);
}
