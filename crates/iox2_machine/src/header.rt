ghost use Rattle.std.specs.Prelude.{◌≡◌};

use crate::ids::{UniqueNodeId, UniquePublisherId};

/// What travels with each message beside its payload: where it comes from and how long it is. `header`
/// of a loan or a sample returns it.
///
/// Example (`crates/iox2_tests/src/tests/payloads.rt`):
///
/// ```rust
/// let header = *loan.header(&domain);
/// assert!(rt; header.publisher_id.value() == 1 && header.number_of_elements == 1);
/// ```
///
/// iceoryx2's `service::header::publish_subscribe::Header`
/// (`src/service/header/publish_subscribe.rs`).
#[derive(Debug, Clone, Copy, PartialEq, Eq)]
pub struct Header {
    /// The node of the publisher.
    pub node_id: UniqueNodeId,
    /// The publisher that lent the message.
    pub publisher_id: UniquePublisherId,
    /// How many elements the payload has: 1 for a single value, and for a slice its length. For a
    /// custom payload it is its number of bytes divided by those of one element.
    pub number_of_elements: u64,
}

impl Header {
    /// The node of the publisher.
    pub fn node_id(&self) -> UniqueNodeId
        ensures { result ≡ self.now.node_id }
    {
        self.node_id
    }

    /// The publisher that lent the message.
    pub fn publisher_id(&self) -> UniquePublisherId
        ensures { result ≡ self.now.publisher_id }
    {
        self.publisher_id
    }

    /// How many elements the payload has, as the field of this name says.
    pub fn number_of_elements(&self) -> u64
        ensures { result ≡ self.now.number_of_elements }
    {
        self.number_of_elements
    }
}
