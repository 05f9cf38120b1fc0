//! The exports of publishers.
ghost use Rattle.std.specs.Prelude.{◌≡◌, ◌<◌, ◌↔◌, None, ◌≢◌, ◌≤◌, ◌⊎◌, Err, IfSome, Ok};
ghost use Rattle.iox2_machine.specs.declared.errors.PublisherCreateError.{PublisherCreateError};
ghost use Rattle.iox2_pubsub.specs.Live.{A_publisher, IsNewIn, IsPublisherKey, No_item};
ghost use Rattle.iox2_c.specs.Boxed.{Becomes, HoldsFromOldToNew, HoldsOn, Knows, KnowsNo, Lifted};
ghost use Rattle.iox2_c.specs.Calls.{IsReadyKey, RefusesPublisher};
ghost use Rattle.iox2_c.specs.Codes.{first_setting_code, publisher_code};
ghost use Rattle.iox2_c.specs.Numbers.{named_publisher, wide};
ghost use Rattle.iox2_c.specs.Settings.{ReadsSettings, invalid_publisher_option, plain_publisher_settings, settings_of_options};
ghost use Rattle.iox2_c.specs.Steps.{ClosesPublisher, CreatesPublisher, Lends, LendsUninit};
ghost use Rattle.iox2_c.specs.Returns.{LoanReturns};

use crate::calls::lending::{self, Unspecified, Zeros};
use crate::calls::publishers;
use crate::domain_box::DomainBox;
use crate::numbers::{LoanNumbers, PublisherNumbers};
use crate::options::PublisherOptions;
use crate::status::{NO_DOMAIN, OK};

/// Makes a publisher, as the settings say.
#[unsafe(no_mangle)]
pub extern "C" fn iox2ps_publisher_create(
    domain: &mut DomainBox,
    publisher: &mut PublisherNumbers,
) -> u32
    ensures no_domain { (result ≡ NO_DOMAIN) ↔ (domain.old.service ≡ None) }
    ensures creates { result ≡ OK → HoldsFromOldToNew
        (λ old new. CreatesPublisher old.domain new.domain (plain_publisher_settings old)
        (Ok (wide (publisher.new).id)) × ReadsSettings publisher.new (plain_publisher_settings old))
        domain.old.service domain.new.service }
    ensures errors { NO_DOMAIN < result → (error : PublisherCreateError) × (result ≡ publisher_code error)
        × HoldsFromOldToNew (λ old new. CreatesPublisher old.domain new.domain (plain_publisher_settings old)
        (Err error)) domain.old.service domain.new.service }
    ensures ready { result ≡ OK → Knows (λ kept. IsReadyKey kept (named_publisher publisher.new)) domain.new.service }
    ensures new { result ≡ OK → Knows (λ kept. IsNewIn kept (A_publisher (wide (publisher.new).id))) domain.old.service }
    ensures same { OK < result → publisher.new ≡ publisher.old }
    ensures stays { HoldsOn No_item domain.old.service domain.new.service }
{
    match domain.service() {
        Some(service) => publishers::create(service, publisher),
        None => NO_DOMAIN,
    }
}

/// Makes a publisher with these options.
#[unsafe(no_mangle)]
pub extern "C" fn iox2ps_publisher_create_with(
    domain: &mut DomainBox,
    options: &PublisherOptions,
    publisher: &mut PublisherNumbers,
) -> u32
    ensures no_domain { (result ≡ NO_DOMAIN) ↔ (domain.old.service ≡ None) }
    ensures creates { result ≡ OK → HoldsFromOldToNew
        (λ old new. CreatesPublisher old.domain new.domain (settings_of_options (old.domain).config options.now)
        (Ok (wide (publisher.new).id))
        × ReadsSettings publisher.new (settings_of_options (old.domain).config options.now)) domain.old.service
        domain.new.service }
    ensures errors { NO_DOMAIN < result → result < first_setting_code → (error : PublisherCreateError) × (result ≡ publisher_code error)
        × HoldsFromOldToNew (λ old new. CreatesPublisher old.domain new.domain
        (settings_of_options (old.domain).config options.now) (Err error)) domain.old.service domain.new.service }
    ensures valid { result ≢ NO_DOMAIN → result < first_setting_code
        → IfSome domain.old.service (λ it. invalid_publisher_option it.payload_alignment options.now ≡ 0) }
    ensures invalid { first_setting_code ≤ result → IfSome domain.old.service (λ it. result ≡ invalid_publisher_option it.payload_alignment options.now) }
    ensures refused { (result ≡ NO_DOMAIN) ⊎ (first_setting_code ≤ result) → domain.new.service ≡ domain.old.service }
    ensures ready { result ≡ OK → Knows (λ kept. IsReadyKey kept (named_publisher publisher.new)) domain.new.service }
    ensures new { result ≡ OK → Knows (λ kept. IsNewIn kept (A_publisher (wide (publisher.new).id))) domain.old.service }
    ensures same { OK < result → publisher.new ≡ publisher.old }
    ensures stays { HoldsOn No_item domain.old.service domain.new.service }
{
    match domain.service() {
        Some(service) => publishers::create_with(service, options, publisher),
        None => NO_DOMAIN,
    }
}

/// Closes a publisher.
#[unsafe(no_mangle)]
pub extern "C" fn iox2ps_publisher_close(
    domain: &mut DomainBox,
    publisher: &PublisherNumbers,
) -> u32
    ensures no_domain { (result ≡ NO_DOMAIN) ↔ (domain.old.service ≡ None) }
    ensures ready { result ≡ OK → Knows (λ kept. IsReadyKey kept (named_publisher publisher.now)) domain.old.service }
    ensures closed { result ≡ OK → Becomes (λ old new. ClosesPublisher old new (wide (publisher.now).id)) domain.old.service domain.new.service }
    ensures spent { result ≡ OK → KnowsNo (λ kept. IsPublisherKey kept (named_publisher publisher.now)) domain.new.service }
    ensures why { NO_DOMAIN < result → Knows (λ kept. RefusesPublisher kept (named_publisher publisher.now) result) domain.old.service }
    ensures refused { OK < result → domain.new.service ≡ domain.old.service }
    ensures stays { HoldsOn (A_publisher (wide (publisher.now).id)) domain.old.service domain.new.service }
{
    match domain.service() {
        Some(service) => publishers::close(service, publisher),
        None => NO_DOMAIN,
    }
}

/// Lends a message of that many bytes, all of them 0, and says where they are.
#[unsafe(no_mangle)]
pub extern "C" fn iox2ps_publisher_loan(
    domain: &mut DomainBox,
    publisher: &PublisherNumbers,
    len: usize,
    loan: &mut LoanNumbers,
    payload: &mut *mut u8,
) -> u32
    ensures { Lifted (loan.new ≡ loan.old)
        (λ old new. LoanReturns Lends publisher.now len old new loan.old loan.new result)
        domain.old.service domain.new.service result }
{
    match domain.service() {
        Some(service) => lending::loan::<Zeros>(service, publisher, len, loan, payload),
        None => NO_DOMAIN,
    }
}

/// Lends a message of that many bytes, whatever they are, and says where they are. It costs the same
/// for any length that was in the slot before.
#[unsafe(no_mangle)]
pub extern "C" fn iox2ps_publisher_loan_uninit(
    domain: &mut DomainBox,
    publisher: &PublisherNumbers,
    len: usize,
    loan: &mut LoanNumbers,
    payload: &mut *mut u8,
) -> u32
    ensures { Lifted (loan.new ≡ loan.old)
        (λ old new. LoanReturns LendsUninit publisher.now len old new loan.old loan.new result)
        domain.old.service domain.new.service result }
{
    match domain.service() {
        Some(service) => lending::loan::<Unspecified>(service, publisher, len, loan, payload),
        None => NO_DOMAIN,
    }
}
