use crate::errors::ConnectionFailure;
use crate::ids::{UniquePublisherId, UniqueSubscriberId};

/// Something that a domain did or left undone without failing the call. `Domain::warnings` returns the
/// last of them.
///
/// Example (`crates/refused_rows/src/warnings.rt`):
///
/// ```rust
/// if let Some(&warning) = domain.warnings().get(at) {
///     print_warning(rt, warning)?;
/// }
///
/// match warning {
///     Warning::ConnectionNotMade { sender, receiver } => {
///         println!(rt; "no connection {} {}", sender.value(), receiver.value())?;
///     }
///     _ => println!(rt; "another warning")?,
/// }
/// ```
///
/// This library's own: a domain keeps its last warnings, and iceoryx2 writes to its log.
#[derive(Debug, Clone, Copy, PartialEq, Eq)]
pub enum Warning {
    /// A subscriber was created in a service whose `subscriber_expired_connection_buffer` is below
    /// its `subscriber_max_borrowed_samples`. The greater number is taken.
    ExpiredBufferRaised {
        /// The new subscriber.
        subscriber: UniqueSubscriberId,
    },
    /// A publisher was created, and the update of connections at the end of its creation failed.
    PublisherPartlyConnected {
        /// The new publisher.
        publisher: UniquePublisherId,
        /// The first failure of that update.
        failure: ConnectionFailure,
    },
    /// A subscriber was created, and the update of connections at the end of its creation failed.
    SubscriberPartlyConnected {
        /// The new subscriber.
        subscriber: UniqueSubscriberId,
        /// The first failure of that update.
        failure: ConnectionFailure,
    },
    /// A connection could not be made, and the degradation handler answered
    /// `DegradationAction::Warn`.
    ConnectionNotMade {
        /// The publisher at one end.
        sender: UniquePublisherId,
        /// The subscriber at the other.
        receiver: UniqueSubscriberId,
    },
    /// Messages of a departed publisher were lost before a subscriber received them, since there
    /// was no room to keep its connection.
    ExpiredDataDiscarded {
        /// The departed publisher.
        sender: UniquePublisherId,
        /// The subscriber for which the messages waited.
        receiver: UniqueSubscriberId,
    },
}
