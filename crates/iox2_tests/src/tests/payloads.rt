ghost use Rattle.std.specs.Prelude.{◌≡◌, ℕ, [], ◌∷◌};
ghost use Rattle.iox2_pubsub.specs.Live.{IsLiveSample, IsLiveSubscriber, IsSingleValued, NeverWaitsUnwritten, StaysBut, Stays, unwritten_loan};

use crate::tests::fixtures::{domain, publisher_of, subscriber_of};
use iox2_fixtures::{Reading, Weather, factory_for, publish};
use iox2_machine::Key;
use iox2_pubsub::{Sample, SampleMutUninit, Subscriber};
use std::process::Abort;

// A loan of the domain's first publisher, which is made for it.
fn lend(rt: &impl Abort, domain: &mut Weather) -> SampleMutUninit
    requires { IsSingleValued domain.old }
    ensures loan { NeverWaitsUnwritten domain.new result }
    ensures stays { Stays domain.old domain.new }
{
    let factory = factory_for(domain);
    let publisher = factory.create(domain).expect(rt, "a publisher");
    let loan = publisher.loan_uninit(domain).expect(rt, "a loan");
    publisher.disown();
    loan
}

// Writes into the loan, and returns what is read of it then, which is what was written; its key; and
// which publisher it is of.
fn written_back(domain: &mut Weather, loan: SampleMutUninit, celsius: u64) -> (u64, Key, u128)
    requires single_valued { IsSingleValued domain.old }
    requires loan { NeverWaitsUnwritten domain.old loan }
    ensures written { result.0 ≡ celsius }
    ensures stays { StaysBut (unwritten_loan loan) domain.old domain.new }
{
    let message = loan.write_payload(domain, Reading { celsius });
    let Reading { celsius } = message.payload(domain);
    let read = *celsius;
    let origin = message.header(domain).publisher_id.value();
    let key = message.key();
    message.disown();
    (read, key, origin)
}

// What is read of the sample before and after another receive: the same.
fn read_around_a_receive(domain: &mut Weather, subscriber: &Subscriber, sample: &Sample) -> [u64; 2]
    requires single_valued { IsSingleValued domain.old }
    requires subscriber { IsLiveSubscriber domain.old subscriber.now }
    requires sample { IsLiveSample domain.old sample.now }
    ensures same { (celsius : ℕ) × (result ≡ celsius ∷ celsius ∷ []) }
    ensures stays { Stays domain.old domain.new }
{
    let before = sample.payload(domain).celsius;
    if let Ok(Some(next)) = subscriber.receive(domain) {
        next.disown();
    }
    [before, sample.payload(domain).celsius]
}

#[test]
fn a_loan_has_no_payload_until_it_is_written(rt: HostRuntime) {
    let mut domain = domain(&rt, rt.alloc());
    let loan = lend(&rt, &mut domain);
    let key = loan.key();
    let is_empty = loan.payload(&domain).is_none();
    let header = *loan.header(&domain);
    let (celsius, written, origin) = written_back(&mut domain, loan, 23);
    let is_live = domain.holds_loan(key);
    drop(domain);
    assert!(rt; is_empty && is_live);
    assert!(rt; header.publisher_id.value() == 1 && header.number_of_elements == 1);
    assert!(rt; celsius == 23 && written == key && origin == 1);
}

#[test]
fn a_sample_reads_the_same_after_another_receive(rt: HostRuntime) {
    let mut domain = domain(&rt, rt.alloc());
    let subscriber = subscriber_of(&rt, &mut domain);
    let publisher = publisher_of(&rt, &mut domain);
    publish(&mut domain, &publisher, 21);
    publish(&mut domain, &publisher, 22);
    publisher.disown();
    let received = subscriber.receive(&mut domain).expect(&rt, "an answer");
    let sample = received.expect(&rt, "a sample");
    let celsius = read_around_a_receive(&mut domain, &subscriber, &sample);
    subscriber.disown();
    sample.disown();
    drop(domain);
    assert!(rt; celsius == [21, 21]);
}
