//! The keys that handles have.
ghost use Rattle.std.specs.Prelude.{◌≡◌};

use iox2_domain::LoanAt;
use iox2_machine::Key;

/// The key of the port with this id.
pub(crate) fn port_key(service_id: u128, port: u128) -> Key
    ensures { result ≡ record { service_id = service_id; port = port; message = 0 } }
{
    Key {
        service_id,
        port,
        message: 0,
    }
}

/// The key of a loan, or of the blocked send that it became.
pub(crate) fn loan_key(service_id: u128, loan: &LoanAt) -> Key
    ensures { result ≡ record { service_id = service_id; port = loan.now.publisher; message = loan.now.number } }
{
    Key {
        service_id,
        port: loan.publisher.value(),
        message: loan.number,
    }
}
