ghost use Rattle.std.specs.Prelude.{◌≡◌};
ghost use Rattle.iox2_machine.specs.Defaults.{default_config};
ghost use Rattle.iox2_machine.specs.SingleValues.{is_single_valued};

use crate::allocation::AllocationStrategy;
use crate::backpressure::BackpressureStrategy;

/// What the payload of each message is.
///
/// Example (`crates/thermometer/src/series.rt`):
///
/// ```rust
/// let config = ServiceConfig {
///     variant: TypeVariant::Dynamic,
///     ..ServiceConfig::new(2)
/// };
/// let mut domain = Domain::<u64, ()>::new(alloc, config)?;
/// let subscriber = domain.slice_subscriber_builder().create(&mut domain)?;
/// ```
///
/// iceoryx2's `service::static_config::message_type_details::TypeVariant`.
#[derive(Debug, Clone, Copy, PartialEq, Eq)]
pub enum TypeVariant {
    /// One value, as by default.
    FixedSize,
    /// A slice, whose length each loan sets. The ports are those of module `slice`.
    Dynamic,
}

/// The settings of a domain: the limits that all of its ports share, and what a publisher gets if
/// its factory sets nothing else.
///
/// `new` gives the defaults, and `..` keeps those that aren't set. A number may be anything that
/// its type holds. If one asks for more memory than there can be, the creation of a port is
/// refused, or a connection isn't made, and the port's handler decides what happens then.
///
/// Example (`crates/slow_display/src/main.rt`):
///
/// ```rust
/// let config = ServiceConfig {
///     max_publishers: 1,
///     max_subscribers: 1,
///     enable_safe_overflow: false,
///     ..ServiceConfig::new(1)
/// };
/// ```
///
/// This library's own.
#[derive(Debug, Clone, Copy, PartialEq, Eq)]
pub struct ServiceConfig {
    /// Names the domain. Its handles carry this number, so two domains need two numbers if their
    /// handles are to be told apart.
    pub service_id: u128,
    /// The number of the node that the header of each message names.
    pub node_id: u128,
    /// What the payload of each message is.
    pub variant: TypeVariant,
    /// How many cells one element takes: 1 for values and slices, and for custom payloads the
    /// size of an element in bytes.
    pub units_per_element: usize,
    /// Whether the cells of an unwritten slice are handed out, by `payload` and `payload_mut` of
    /// `slice::SampleMutUninit`. A publisher then has lists of cells, each with an `Option` for
    /// each element of its longest slice: one list for each loan that may be out, and one for all
    /// loans whose cells nobody changed. A domain can do without if other calls write its loans.
    pub lists_cells: bool,
    /// How many publishers may be open at a time.
    pub max_publishers: usize,
    /// How many subscribers there may be at a time. A closed one counts until its last sample is
    /// released.
    pub max_subscribers: usize,
    /// How many messages of one publisher may wait for one subscriber, in each channel. A subscriber
    /// may ask for less. Here 0 counts as 1.
    pub subscriber_max_buffer_size: usize,
    /// How many samples of one publisher a subscriber may hold that it hasn't released.
    pub subscriber_max_borrowed_samples: usize,
    /// How many of its last messages a publisher keeps for subscribers that connect later.
    pub history_size: usize,
    /// How many channels each connection has, numbered from 0. Here 0 counts as 1. Each has a
    /// state, a hint and a buffer of its own. A send goes through channel 0. A loan that is sent to
    /// one connection goes through the channel that the call names.
    pub number_of_channels: usize,
    /// Whether a message that finds a full buffer pushes the oldest waiting one out. If not, the
    /// publisher's handler or strategy decides.
    pub enable_safe_overflow: bool,
    /// How many connections to departed publishers a subscriber keeps while something waits or is
    /// borrowed there. If it is below `subscriber_max_borrowed_samples`, that number counts in its
    /// place.
    pub subscriber_expired_connection_buffer: usize,
    /// How many loans of a publisher may be out at a time, if its factory sets no number.
    pub publisher_max_loaned_samples: usize,
    /// What a publisher does at a full buffer, if its factory sets no strategy.
    pub backpressure_strategy: BackpressureStrategy,
    /// How a publisher's memory grows, if its factory sets no strategy.
    pub publisher_allocation_strategy: AllocationStrategy,
}

impl ServiceConfig {
    /// The defaults of a service with this id: single values, of node 0; up to 2 publishers with 2
    /// loans each, and up to 8 subscribers with a buffer of 2, 2 borrowed samples and room for 128
    /// departed publishers; no history; one channel; overflow. If overflow is turned off, a
    /// publisher retries until its message is delivered. Its memory is static, and cells are handed
    /// out.
    ///
    /// They follow iceoryx2's configuration if nothing else is set
    /// (docs/DECISIONS.md, "The defaults of a service").
    pub fn new(service_id: u128) -> ServiceConfig
        ensures { result ≡ default_config service_id }
    {
        ServiceConfig {
            service_id,
            node_id: 0,
            variant: TypeVariant::FixedSize,
            units_per_element: 1,
            lists_cells: true,
            max_publishers: 2,
            max_subscribers: 8,
            subscriber_max_buffer_size: 2,
            subscriber_max_borrowed_samples: 2,
            history_size: 0,
            number_of_channels: 1,
            enable_safe_overflow: true,
            subscriber_expired_connection_buffer: 128,
            publisher_max_loaned_samples: 2,
            backpressure_strategy: BackpressureStrategy::RetryUntilDelivered,
            publisher_allocation_strategy: AllocationStrategy::Static,
        }
    }

    /// Whether each message is a single value of one unit.
    pub fn is_single_valued(&self) -> bool
        ensures { result ≡ is_single_valued self.now }
    {
        self.variant == TypeVariant::FixedSize && self.units_per_element == 1
    }
}
