//! The calls of loans.
ghost use Rattle.std.specs.Prelude.{ℕ, List, length, ◌≡◌, ◌<◌, ◌⊎◌, IfNone, IfSome};
ghost use Rattle.iox2_pubsub.specs.Handles.{as_written, written_number};
ghost use Rattle.iox2_pubsub.specs.Live.{A_loan, IsLoanKey, IsWritten, written_key};
ghost use Rattle.iox2_pubsub.specs.Slices.{HasValues};
ghost use Rattle.iox2_c.specs.Calls.{IsOut, IsRefusedLoan};
ghost use Rattle.iox2_c.specs.Numbers.{named_loan, wide};
ghost use Rattle.iox2_c.specs.Serving.{ServesBut};
ghost use Rattle.iox2_c.specs.Steps.{Discards};

use crate::numbers::LoanNumbers;
use crate::service::{BytesDomain, Service};
use crate::starts::start_to_write;
use crate::status::{NOT_LIVE, OK};
use iox2_pubsub::LoanParts;
use iox2_pubsub::slice::SampleMut;

/// A handle of a loan that is out, which is looked for in this book first.
#[inline(always)]
pub fn written_loan(domain: &BytesDomain, numbers: &LoanNumbers, book: usize) -> Option<SampleMut>
    ensures out { IfSome result (λ it. IsWritten domain.now (as_written it)) }
    ensures named { IfSome result (λ it. written_key (as_written it) ≡ named_loan numbers.now) }
    ensures number { IfSome result (λ it. written_number (as_written it) ≡ wide (numbers.now).number) }
    ensures none { IfNone result (IsOut domain.now (named_loan numbers.now) → ⊥) }
{
    let parts = LoanParts {
        book,
        ..numbers.parts()
    };
    let handle = domain.written_of(&parts)?;
    Some(SampleMut::new(handle))
}

/// Gives a loan back unsent.
pub fn discard(service: &mut Service, numbers: &LoanNumbers) -> u32
    ensures code { ((result ≡ OK) × IsOut service.old.domain (named_loan numbers.now)) ⊎ IsRefusedLoan service.old.domain (named_loan numbers.now) result }
    ensures discards { result ≡ OK → Discards service.old.domain service.new.domain (wide (numbers.now).number) }
    ensures spent { result ≡ OK → IsLoanKey service.new.domain (named_loan numbers.now) → ⊥ }
    ensures refused { OK < result → service.new ≡ service.old }
    ensures stays { ServesBut (A_loan (wide (numbers.now).number)) service.old service.new }
{
    let Some(loan) = written_loan(&service.domain, numbers, numbers.book) else {
        service.recording.discarded(numbers, NOT_LIVE);
        return NOT_LIVE;
    };
    loan.discard(&mut service.domain);
    service.recording.discarded(numbers, OK);
    OK
}

/// Where the bytes of a loan lie.
pub fn payload(service: &Service, numbers: &LoanNumbers, out: &mut *mut u8, len: &mut usize) -> u32
    ensures code { (result ≡ OK) ⊎ IsRefusedLoan service.now.domain (named_loan numbers.now) result }
    ensures out { result ≡ OK → IsOut service.now.domain (named_loan numbers.now) }
    ensures length { result ≡ OK → (values : List ℕ) → HasValues service.now.domain (wide (numbers.now).number) values → len.new ≡ length values }
    ensures same { OK < result → len.new ≡ len.old }
{
    let Some(loan) = written_loan(&service.domain, numbers, numbers.book) else {
        return NOT_LIVE;
    };
    let bytes = loan.payload(&service.domain);
    *out = start_to_write(bytes);
    *len = bytes.len();
    loan.disown();
    OK
}
