//! Programs over `iox2_pubsub`, whose promises are proved: a relay between two domains, a voter over three
//! publishers, a queue with a bound, and a recorder beside displays.
#![tactic(auto)]

mod blocking;
mod closing;
mod failure;
mod joining;
mod pairing;
mod passing;
mod queues;
mod recording;
mod relaying;
mod spreading;
mod voter;

pub use blocking::{push_again, push_or_wait, push_over};
pub use closing::close_both;
pub use failure::Failure;
use iox2_pubsub::{Domain, NoHandler};
pub use joining::{is_idle, relay_if_idle};
pub use pairing::{read_beside, send_beside, send_both};
pub use passing::{read_all, read_one, send_all, send_one};
pub use queues::Queue;
pub use recording::{record, record_again};
pub use relaying::{relay, relay_all};
pub use spreading::{spread, spread_again};
pub use voter::{median, vote};

/// A service whose messages are numbers, and whose ports have no handlers of their own.
pub type Numbers = Domain<u32, (), NoHandler, NoHandler>;
