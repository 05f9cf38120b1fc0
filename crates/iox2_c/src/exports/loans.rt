//! The exports of loans.
ghost use Rattle.std.specs.Prelude.{ℕ, List, length, ◌≡◌, ◌<◌, ◌↔◌, None};
ghost use Rattle.iox2_pubsub.specs.Live.{A_loan, IsLoanKey};
ghost use Rattle.iox2_pubsub.specs.Slices.{HasValues};
ghost use Rattle.iox2_c.specs.Boxed.{Becomes, HoldsOn, Knows, KnowsNo};
ghost use Rattle.iox2_c.specs.Calls.{IsOut, IsRefusedLoan};
ghost use Rattle.iox2_c.specs.Numbers.{named_loan, wide};
ghost use Rattle.iox2_c.specs.Steps.{Discards};

use crate::calls::loans;
use crate::domain_box::DomainBox;
use crate::numbers::LoanNumbers;
use crate::status::{NO_DOMAIN, OK};

/// Gives a loan back unsent.
#[unsafe(no_mangle)]
pub extern "C" fn iox2ps_loan_discard(domain: &mut DomainBox, loan: &LoanNumbers) -> u32
    ensures no_domain { (result ≡ NO_DOMAIN) ↔ (domain.old.service ≡ None) }
    ensures out { result ≡ OK → Knows (λ kept. IsOut kept (named_loan loan.now)) domain.old.service }
    ensures discards { result ≡ OK → Becomes (λ old new. Discards old new (wide (loan.now).number)) domain.old.service domain.new.service }
    ensures spent { result ≡ OK → KnowsNo (λ kept. IsLoanKey kept (named_loan loan.now)) domain.new.service }
    ensures why { NO_DOMAIN < result → Knows (λ kept. IsRefusedLoan kept (named_loan loan.now) result) domain.old.service }
    ensures refused { OK < result → domain.new.service ≡ domain.old.service }
    ensures stays { HoldsOn (A_loan (wide (loan.now).number)) domain.old.service domain.new.service }
{
    match domain.service() {
        Some(service) => loans::discard(service, loan),
        None => NO_DOMAIN,
    }
}

/// Where the bytes of a loan lie, until it is sent or given back.
#[unsafe(no_mangle)]
pub extern "C" fn iox2ps_loan_payload(
    domain: &mut DomainBox,
    loan: &LoanNumbers,
    payload: &mut *mut u8,
    len: &mut usize,
) -> u32
    ensures no_domain { (result ≡ NO_DOMAIN) ↔ (domain.old.service ≡ None) }
    ensures out { result ≡ OK → Knows (λ kept. IsOut kept (named_loan loan.now)) domain.old.service }
    ensures why { NO_DOMAIN < result → Knows (λ kept. IsRefusedLoan kept (named_loan loan.now) result) domain.old.service }
    ensures length { result ≡ OK → Knows (λ kept. (values : List ℕ) → HasValues kept (wide (loan.now).number) values
        → len.new ≡ length values) domain.old.service }
    ensures same { OK < result → len.new ≡ len.old }
    ensures unchanged { domain.new.service ≡ domain.old.service }
{
    match domain.service() {
        Some(service) => loans::payload(service, loan, payload, len),
        None => NO_DOMAIN,
    }
}
