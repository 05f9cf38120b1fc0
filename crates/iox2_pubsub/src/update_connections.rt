//! Updates of a port's connections, by call.
ghost use Rattle.std.specs.Prelude.{◌≡◌, ℕ, OnOk};
ghost use Rattle.iox2_pubsub.specs.UpdateCalls.{returned_failure};

use crate::domain::Domain;
use iox2_machine::{BackpressureFn, ConnectionFailure, DegradationFn};

/// A port whose connections can be updated by a call, in a domain whose messages and boxed
/// handlers have these types. Each send, receive and question does it too.
///
/// Example (`crates/thermometer/src/report.rt`):
///
/// ```rust
/// publisher.update_connections(domain)?;
/// ```
///
/// iceoryx2's `UpdateConnections` (`src/port/update_connections.rs`).
pub trait UpdateConnections<T: Drop, U: Default + Drop, F: BackpressureFn, G: DegradationFn> {
    ghost use Rattle.std.specs.declared.option.Option.{Option};
    ghost use Rattle.iox2_machine.specs.machine.State.{State, Messages};
    ghost use Rattle.iox2_machine.specs.declared.errors.ConnectionFailure.{ConnectionFailure};
    ghost use Rattle.iox2_domain.specs.Kept.{Kept};
    ghost use Rattle.iox2_domain.specs.Shows.{Shows};
    ghost use Rattle.iox2_pubsub.specs.Leaves.{LeavesAdding};
    ghost use Rattle.iox2_pubsub.specs.Live.{Stays};
    ghost use Rattle.iox2_pubsub.specs.UpdateCalls.{returned_failure};

    // The port is one of the domain's, wasn't closed, and no send of it is blocked.
    ghost is_live: { Kept T U F G → Self → Type 0 };

    // The machine's update of the port, where the boxes answer that the domain keeps, with this
    // failure if any.
    ghost updates: { Kept T U F G → State T U → Self → State T U → Option ConnectionFailure → Type 0 };

    // What an update that didn't fail leaves true of the port.
    ghost is_updated: { Kept T U F G → Self → Type 0 };

    // What else its update leaves of what the domain was before.
    ghost leaves: { Kept T U F G → Kept T U F G → Self → Type 0 };

    // How many messages more may wait for a subscriber afterwards.
    ghost adds: { Kept T U F G → ℕ };

    /// Makes the port's connections with the ports of the other side that came since its last
    /// update. If no port came or was closed since, it does nothing.
    ///
    /// Fails if there is no room to keep the connection of a publisher that departed: then it
    /// stays, the rest of the update is done, and the port is due again. If memory for a
    /// connection is refused, the port's handler decides: nothing happens, the domain warns, or the
    /// update fails with `FailedToEstablishConnection(OutOfMemory)`, after the rest of it is done.
    /// The first failure is returned.
    fn update_connections(&self, domain: &mut Domain<T, U, F, G>) -> Result<(), ConnectionFailure>
        requires live { is_live domain.old self.now }
        ensures live { is_live domain.new self.now }
        ensures updates { (m : Messages T U) (s : State T U) → Shows domain.old m s
            → (s' : State T U) × Shows domain.new m s' × updates domain.old s self.now s' (returned_failure result) }
        ensures updated { OnOk result (is_updated domain.new self.now) }
        ensures leaves { leaves domain.old domain.new self.now }
        ensures rest { LeavesAdding (adds domain.old) domain.old domain.new };

    // A port that is live stays so where everything does.
    ghost live_stays: { (old new : Kept T U F G) (port : Self) → Stays old new → is_live old port → is_live new port };
}

/// What an update with this failure, if any, returns.
pub(crate) fn outcome_of(failure: Option<ConnectionFailure>) -> Result<(), ConnectionFailure>
    ensures { returned_failure result ≡ failure }
{
    match failure {
        Some(failure) => Err(failure),
        None => Ok(()),
    }
}
