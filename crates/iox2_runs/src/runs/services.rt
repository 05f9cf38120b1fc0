//! What the messages of a service are.
ghost use Rattle.std.specs.Prelude.{◌≡◌};
ghost use Rattle.iox2_machine.specs.SingleValues.{is_single_valued};
ghost use Rattle.iox2_runs.specs.Services.{has_slices, lacks_cells};

use iox2_machine::{BackpressureFn, DegradationFn, ServiceConfig, TypeVariant};
use iox2_pubsub::Domain;

/// Whether the payload of each message is a single value of one unit.
pub(crate) fn is_single_valued<T: Drop, U: Default + Drop, F: BackpressureFn, G: DegradationFn>(
    domain: &Domain<T, U, F, G>,
) -> bool
    ensures { result ≡ is_single_valued domain.now.config }
{
    domain.config().is_single_valued()
}

/// Whether the payload of each message is a slice of elements of one unit.
pub(crate) fn has_slices<T: Drop, U: Default + Drop, F: BackpressureFn, G: DegradationFn>(
    domain: &Domain<T, U, F, G>,
) -> bool
    ensures { result ≡ has_slices domain.now.config }
{
    let config = domain.config();
    config.variant != TypeVariant::FixedSize && config.units_per_element == 1
}

/// Whether commands on a domain with these settings could be on cells of unwritten slices, which it
/// doesn't hand out (`ServiceConfig::lists_cells`). `run` hands back each list then. Never so where
/// messages are single values. This library's own.
pub fn lacks_cells(config: &ServiceConfig) -> bool
    ensures { result ≡ lacks_cells config.now }
{
    config.variant != TypeVariant::FixedSize && config.units_per_element == 1 && !config.lists_cells
}
