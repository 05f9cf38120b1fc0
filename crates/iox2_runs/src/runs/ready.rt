//! A publisher that may be called.
ghost use Rattle.std.specs.Prelude.{◌≡◌, MatchResult};
ghost use Rattle.iox2_pubsub.specs.Live.{IsReadyPublisher};
ghost use Rattle.iox2_runs.specs.Turns.{IsLiveEntry, IsUnready};
ghost use Rattle.iox2_runs.specs.declared.runs.made.Made.TheVariants.{Publisher as MadePublisher};

use super::made::Made;
use iox2_machine::{BackpressureFn, DegradationFn};
use iox2_pubsub::{Domain, Publisher};

/// The publisher that is held, unless it waits for a receiver. Else what is held is given back.
pub(crate) fn ready_publisher<T: Drop, U: Default + Drop, F: BackpressureFn, G: DegradationFn>(
    domain: &Domain<T, U, F, G>,
    held: Made,
) -> Result<Publisher, Made>
    requires { IsLiveEntry domain.now held }
    ensures { MatchResult result (λ publisher. (held ≡ MadePublisher publisher) × IsReadyPublisher domain.now publisher)
        (λ other. (other ≡ held) × IsUnready domain.now held) }
{
    match held {
        Made::Publisher(publisher) => {
            if publisher.is_blocked(domain) {
                return Err(Made::Publisher(publisher));
            }
            Ok(publisher)
        }
        other => Err(other),
    }
}
