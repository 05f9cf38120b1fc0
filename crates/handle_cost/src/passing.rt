//! Messages of bytes pass by handles.
ghost use Rattle.std.specs.Prelude.{IfOk, IfSome};
ghost use Rattle.iox2_pubsub.specs.Live.{IsLivePublisher, IsLiveSample, IsLiveSubscriber, IsNewIn, IsWrittenLoan};
ghost use Rattle.iox2_pubsub.specs.Live.{Stays, StaysBut, received_sample, written_loan};
ghost use Rattle.slice_passing.specs.Slices.{PassesSlices};
ghost use Rattle.iox2_pubsub.specs.Handles.{as_publisher, as_subscriber, as_written};

use iox2_pubsub::slice::{Publisher, Sample, SampleMut, Subscriber};
use iox2_pubsub::{Domain, LoanError, ReceiveError};
use slice_passing::Steps;

/// Passes bytes by the calls below.
pub struct ByHandles {}

impl Steps<u8> for ByHandles {
    // The bytes are zeros.
    fn pass(domain: &mut Domain<u8, ()>, publisher: &Publisher, bytes: usize) -> Option<()> {
        let message = loan(domain, publisher, bytes).ok()?;
        send(domain, message)?;
        Some(())
    }

    fn take(domain: &mut Domain<u8, ()>, subscriber: &Subscriber) -> Option<usize> {
        let sample = receive(domain, subscriber).ok()??;
        let bytes = sample.payload(domain).len();
        release(domain, sample);
        Some(bytes)
    }
}

// Each of these calls stays a function of its own in the program, so that its instructions can be
// counted.
#[inline(never)]
fn loan(
    domain: &mut Domain<u8, ()>,
    publisher: &Publisher,
    bytes: usize,
) -> Result<SampleMut, LoanError>
    requires slices { PassesSlices domain.old }
    requires publisher { IsLivePublisher domain.old (as_publisher publisher.now) }
    ensures live { IfOk result (λ loan. IsWrittenLoan domain.new (as_written loan)) }
    ensures new { IfOk result (λ loan. IsNewIn domain.old (written_loan (as_written loan))) }
    ensures stays { Stays domain.old domain.new }
{
    publisher.loan_slice(domain, bytes)
}

#[inline(never)]
fn send(domain: &mut Domain<u8, ()>, message: SampleMut) -> Option<usize>
    requires { IsWrittenLoan domain.old (as_written message) }
    ensures { StaysBut (written_loan (as_written message)) domain.old domain.new }
{
    Some(message.send(domain).ok()?.delivered())
}

#[inline(never)]
fn receive(
    domain: &mut Domain<u8, ()>,
    subscriber: &Subscriber,
) -> Result<Option<Sample>, ReceiveError>
    requires { IsLiveSubscriber domain.old (as_subscriber subscriber.now) }
    ensures live { IfOk result (λ sample. IfSome sample (λ it. IsLiveSample domain.new it)) }
    ensures new { IfOk result (λ sample. IfSome sample (λ it. IsNewIn domain.old (received_sample it))) }
    ensures stays { Stays domain.old domain.new }
{
    subscriber.receive(domain)
}

#[inline(never)]
fn release(domain: &mut Domain<u8, ()>, sample: Sample)
    requires { IsLiveSample domain.old sample }
    ensures { StaysBut (received_sample sample) domain.old domain.new }
{
    sample.release(domain);
}
