//! What a caller of `iox2_pubsub` writes. `docs/CALLING.md` shows these functions, and says what each
//! clause is for.
#![tactic(auto)]

mod arrivals;
mod closing;
mod failure;
mod generic;
mod inbox;
mod order;
mod pairs;
mod passing;
mod station;

pub use arrivals::{echo, echo_once, join};
pub use closing::{pass_once, send_last};
pub use failure::Failure;
pub use generic::pass_value;
pub use inbox::{Inbox, warmest};
pub use order::echo_pair;
pub use pairs::{change, next_change};
pub use passing::{drain, pass, receive_next, send, send_all};
pub use station::Station;
