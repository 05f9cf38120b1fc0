//! Slices pass, each of whose elements is one value.
ghost use Rattle.std.specs.Prelude.{◌≡◌, IfSome};
ghost use Rattle.iox2_pubsub.specs.Live.{IsLivePublisher, IsLiveSubscriber, IsNewIn, NeverWaitsUnwritten};
ghost use Rattle.iox2_pubsub.specs.Live.{IsWrittenLoan, Stays, StaysBut, unwritten_key, unwritten_loan, written_key};
ghost use Rattle.iox2_pubsub.specs.Live.{written_loan};
ghost use Rattle.slice_passing.specs.Slices.{PassesSlices};
ghost use Rattle.iox2_pubsub.specs.Handles.{as_publisher, as_subscriber, as_unwritten, as_written};

use iox2_pubsub::Domain;
use iox2_pubsub::slice::{Publisher, SampleMut, SampleMutUninit, Subscriber};
use slice_passing::Steps;

/// Passes slices by the steps below.
pub struct BySteps {}

impl Steps<u64> for BySteps {
    // Each element is the length.
    fn pass(domain: &mut Domain<u64, ()>, publisher: &Publisher, elements: usize) -> Option<()> {
        let loan = lend(domain, publisher, elements)?;
        let message = write(domain, loan, elements as u64);
        send(domain, message)
    }

    fn take(domain: &mut Domain<u64, ()>, subscriber: &Subscriber) -> Option<usize> {
        receive(domain, subscriber)
    }
}

// Each of these steps stays a function of its own in the program, so that its instructions can be
// counted.
#[inline(never)]
fn lend(
    domain: &mut Domain<u64, ()>,
    publisher: &Publisher,
    elements: usize,
) -> Option<SampleMutUninit>
    requires slices { PassesSlices domain.old }
    requires publisher { IsLivePublisher domain.old (as_publisher publisher.now) }
    ensures live { IfSome result (λ loan. NeverWaitsUnwritten domain.new (as_unwritten loan)) }
    ensures new { IfSome result (λ loan. IsNewIn domain.old (unwritten_loan (as_unwritten loan))) }
    ensures stays { Stays domain.old domain.new }
{
    publisher.loan_slice_uninit(domain, elements).ok()
}

#[inline(never)]
fn write(domain: &mut Domain<u64, ()>, loan: SampleMutUninit, value: u64) -> SampleMut
    requires slices { PassesSlices domain.old }
    requires loan { NeverWaitsUnwritten domain.old (as_unwritten loan) }
    ensures live { IsWrittenLoan domain.new (as_written result) }
    ensures key { written_key (as_written result) ≡ unwritten_key (as_unwritten loan) }
    ensures stays { StaysBut (unwritten_loan (as_unwritten loan)) domain.old domain.new }
{
    loan.write_from_fn(domain, |_| value)
}

#[inline(never)]
fn send(domain: &mut Domain<u64, ()>, message: SampleMut) -> Option<()>
    requires { IsWrittenLoan domain.old (as_written message) }
    ensures { StaysBut (written_loan (as_written message)) domain.old domain.new }
{
    message.send(domain).ok()?.delivered();
    Some(())
}

// Receives a slice, and gives it back. Returns how many elements it had.
#[inline(never)]
fn receive(domain: &mut Domain<u64, ()>, subscriber: &Subscriber) -> Option<usize>
    requires slices { PassesSlices domain.old }
    requires subscriber { IsLiveSubscriber domain.old (as_subscriber subscriber.now) }
    ensures { Stays domain.old domain.new }
{
    let sample = subscriber.receive(domain).ok()??;
    let elements = sample.payload(domain).len();
    sample.release(domain);
    Some(elements)
}
