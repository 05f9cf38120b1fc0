//! The calls that lend.
ghost use Rattle.std.specs.Prelude.{◌≡◌, IfErr, IfOk};
ghost use Rattle.iox2_pubsub.specs.Handles.{as_publisher, as_written, publisher_id};
ghost use Rattle.iox2_pubsub.specs.Live.{IsNewIn, IsReadyPublisher, IsWritten, Stays, lender_key, publisher_key, written_key, written_loan};
ghost use Rattle.iox2_c.specs.Calls.{loan_made};
ghost use Rattle.iox2_c.specs.Codes.{code_of, loan_code};
ghost use Rattle.iox2_c.specs.Numbers.{named_loan, named_publisher};
ghost use Rattle.iox2_c.specs.Returns.{Lending, LoanReturns};
ghost use Rattle.iox2_c.specs.Serving.{IsOfBytes};
ghost use Rattle.iox2_c.specs.Steps.{Lends, LendsUninit};

use crate::calls::publishers::ready_publisher;
use crate::numbers::{LoanNumbers, PublisherNumbers};
use crate::recording::error_of;
use crate::service::{BytesDomain, Service};
use crate::starts::{start_if_any, start_to_write};
use crate::status::{OK, loan_status};
use iox2_pubsub::LoanError;
use iox2_pubsub::slice::{LocatedLoan, Publisher, SampleMut};

/// What the bytes of a loan are when it is lent.
pub trait Fill {
    ghost lends: { Lending };

    /// Lends that many bytes, which are filled where they were lent, and says where they are.
    fn lend_located(
        publisher: &Publisher,
        domain: &mut BytesDomain,
        len: usize,
    ) -> Result<LocatedLoan<u8>, LoanError>
        requires ready { IsReadyPublisher domain.old (as_publisher publisher.now) }
        requires bytes { IsOfBytes domain.old }
        ensures lends { lends domain.old domain.new (publisher_id (as_publisher publisher.now)) len (loan_made result) }
        ensures out { IfOk result (λ it. IsWritten domain.new (as_written it.loan)) }
        ensures new { IfOk result (λ it. IsNewIn domain.old (written_loan (as_written it.loan))) }
        ensures lender { IfOk result (λ it. lender_key (written_key (as_written it.loan)) ≡ publisher_key (as_publisher publisher.now)) }
        ensures stays { Stays domain.old domain.new };

    /// Lends that many bytes, and fills them with a closure of its own: the compiler inlines what fills a
    /// loan where one place calls it with this closure, and so it does in `lend_located`.
    fn lend(
        publisher: &Publisher,
        domain: &mut BytesDomain,
        len: usize,
    ) -> Result<SampleMut, LoanError>
        requires ready { IsReadyPublisher domain.old (as_publisher publisher.now) }
        requires bytes { IsOfBytes domain.old }
        ensures lends { lends domain.old domain.new (publisher_id (as_publisher publisher.now)) len (loan_made result) }
        ensures out { IfOk result (λ it. IsWritten domain.new (as_written it)) }
        ensures new { IfOk result (λ it. IsNewIn domain.old (written_loan (as_written it))) }
        ensures lender { IfOk result (λ it. lender_key (written_key (as_written it)) ≡ publisher_key (as_publisher publisher.now)) }
        ensures stays { Stays domain.old domain.new };
}

/// Each byte is 0.
pub struct Zeros {}

impl Fill for Zeros {
    ghost lends = { Lends };

    #[inline(always)]
    fn lend_located(
        publisher: &Publisher,
        domain: &mut BytesDomain,
        len: usize,
    ) -> Result<LocatedLoan<u8>, LoanError> {
        publisher.loan_slice_located(domain, len)
    }

    fn lend(
        publisher: &Publisher,
        domain: &mut BytesDomain,
        len: usize,
    ) -> Result<SampleMut, LoanError> {
        match publisher.loan_slice_uninit(domain, len) {
            Ok(loan) => Ok(loan.write_from_fn(domain, |_| 0)),
            Err(error) => Err(error),
        }
    }
}

/// The bytes are whatever they are. It costs the same for any length that was in the slot before.
pub struct Unspecified {}

impl Fill for Unspecified {
    ghost lends = { LendsUninit };

    #[inline(always)]
    fn lend_located(
        publisher: &Publisher,
        domain: &mut BytesDomain,
        len: usize,
    ) -> Result<LocatedLoan<u8>, LoanError> {
        publisher.loan_unspecified_located(domain, len)
    }

    fn lend(
        publisher: &Publisher,
        domain: &mut BytesDomain,
        len: usize,
    ) -> Result<SampleMut, LoanError> {
        let unwritten = publisher.loan_slice_uninit(domain, len);
        match unwritten {
            Ok(loan) => Ok(loan.write_unspecified(domain)),
            Err(error) => Err(error),
        }
    }
}

/// Lends a message of that many bytes, filled so, and says where they are.
pub fn loan<B: Fill>(
    service: &mut Service,
    numbers: &PublisherNumbers,
    len: usize,
    out: &mut LoanNumbers,
    payload: &mut *mut u8,
) -> u32
    ensures { LoanReturns B.lends numbers.now len service.old service.new out.old out.new result }
{
    if service.recording.is_on() {
        return loan_recorded::<B>(service, numbers, len, out, payload);
    }
    if service.domain.lends_at_once(&numbers.parts(), len) {
        loan_named::<B>(service, numbers, len, out, payload)
    } else {
        loan_elsewhere::<B>(service, numbers, len, out, payload, &mut None)
    }
}

// The same. What was found before of the publisher isn't tested again here.
#[inline(always)]
fn loan_named<B: Fill>(
    service: &mut Service,
    numbers: &PublisherNumbers,
    len: usize,
    out: &mut LoanNumbers,
    payload: &mut *mut u8,
) -> u32
    ensures { LoanReturns B.lends numbers.now len service.old service.new out.old out.new result }
{
    let publisher = match ready_publisher(&service.domain, numbers) {
        Ok(publisher) => publisher,
        Err(code) => return code,
    };
    let lent = B::lend_located(&publisher, &mut service.domain, len);
    publisher.disown();
    tell_located(numbers, lent, out, payload)
}

// The same, where the publisher is sought, and why it was refused, if it was.
// (docs/DECISIONS.md, "A call by right numbers has a way of its own")
#[cold]
#[inline(never)]
fn loan_elsewhere<B: Fill>(
    service: &mut Service,
    numbers: &PublisherNumbers,
    len: usize,
    out: &mut LoanNumbers,
    payload: &mut *mut u8,
    refused: &mut Option<LoanError>,
) -> u32
    ensures { LoanReturns B.lends numbers.now len service.old service.new out.old out.new result }
{
    let publisher = match ready_publisher(&service.domain, numbers) {
        Ok(publisher) => publisher,
        Err(code) => return code,
    };
    let lent = B::lend(&publisher, &mut service.domain, len);
    publisher.disown();
    *refused = error_of(&lent);
    tell_lent(service, numbers, lent, out, payload)
}

// The same, and it is recorded.
#[cold]
#[inline(never)]
fn loan_recorded<B: Fill>(
    service: &mut Service,
    numbers: &PublisherNumbers,
    len: usize,
    out: &mut LoanNumbers,
    payload: &mut *mut u8,
) -> u32
    ensures { LoanReturns B.lends numbers.now len service.old service.new out.old out.new result }
{
    let mut refused = None;
    let code = loan_elsewhere::<B>(service, numbers, len, out, payload, &mut refused);
    service.recording.loan(numbers, len, out, code, refused);
    code
}

// The outcome of a loan: its code, and, if it was granted, its numbers and where its bytes are. The
// ids that it shares with its publisher are in that one's numbers, so that they aren't kept while a
// loan is filled.
#[inline(always)]
fn tell_lent(
    service: &Service,
    numbers: &PublisherNumbers,
    lent: Result<SampleMut, LoanError>,
    out: &mut LoanNumbers,
    payload: &mut *mut u8,
) -> u32
    requires out { IfOk lent (λ it. IsWritten service.now.domain (as_written it)) }
    requires lender { IfOk lent (λ it. lender_key (written_key (as_written it)) ≡ named_publisher numbers.now) }
    ensures code { result ≡ code_of loan_code lent }
    ensures named { IfOk lent (λ it. named_loan out.new ≡ written_key (as_written it)) }
    ensures same { IfErr lent (λ _. out.new ≡ out.old) }
{
    match lent {
        Ok(loan) => {
            *payload = start_to_write(loan.payload(&service.domain));
            *out = LoanNumbers::lent_by(numbers, &loan.into_inner().into_parts());
            OK
        }
        Err(error) => loan_status(error),
    }
}

// The same of a loan that says where its bytes lie, which isn't looked for again.
#[inline(always)]
fn tell_located(
    numbers: &PublisherNumbers,
    lent: Result<LocatedLoan<u8>, LoanError>,
    out: &mut LoanNumbers,
    payload: &mut *mut u8,
) -> u32
    requires { IfOk lent (λ it. lender_key (written_key (as_written it.loan)) ≡ named_publisher numbers.now) }
    ensures code { result ≡ code_of loan_code lent }
    ensures named { IfOk lent (λ it. named_loan out.new ≡ written_key (as_written it.loan)) }
    ensures same { IfErr lent (λ _. out.new ≡ out.old) }
{
    match lent {
        Ok(located) => {
            let LocatedLoan { loan, start } = located;
            *payload = start_if_any(start);
            *out = LoanNumbers::lent_by(numbers, &loan.into_inner().into_parts());
            OK
        }
        Err(error) => loan_status(error),
    }
}
