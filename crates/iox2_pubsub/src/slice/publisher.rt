//! A publisher of slices.
ghost use Rattle.std.specs.Prelude.{◌≡◌};

mod close;
mod loan_located;
mod loans;
mod update_connections;

pub use loan_located::LocatedLoan;

/// Sends slices to every subscriber of its domain. Must be consumed by `close`. It is the
/// publisher of single values with other calls to lend. All other calls are
/// those of that publisher.
///
/// Example (`crates/thermometer/src/series.rt`):
///
/// ```rust
/// let loan = publisher.loan_slice_uninit(domain, 3)?;
/// let message = loan.write_from_slice(domain, &[18, 19, 20]);
/// message.send(domain)?.delivered();
/// Ok(())
/// ```
///
/// iceoryx2's `port::publisher::Publisher` of a slice (`src/port/publisher.rs`).
pub struct Publisher {
    pub(crate) publisher: crate::Publisher,
}

impl Publisher {
    ghost use Rattle.iox2_pubsub.specs.Handles.{as_publisher, max_slice_len_of};

    /// For how many elements each of its first slots has room: any number, 0 too. A loan of a static
    /// publisher has no more.
    ///
    /// iceoryx2's `Publisher::initial_max_slice_len` (`src/port/publisher.rs`).
    pub fn initial_max_slice_len(&self) -> usize
        ensures { result ≡ max_slice_len_of (as_publisher self.now) }
    {
        self.publisher.initial_max_slice_len
    }
}
