ghost use Rattle.std.specs.Prelude.{◌≡◌};
ghost use Rattle.iox2_commands.specs.NewPublishers.{publisher_with};

use iox2_machine::{
    AllocationStrategy, BackpressureAction, BackpressureStrategy, DegradationAction,
};

// The small fields stand together, since each command has room for all of them.
/// What a command asks of a new publisher, whose handlers always give the answers named here.
#[derive(Debug, Clone, Copy, PartialEq, Eq)]
pub struct NewPublisher {
    /// How many loans may be out at a time.
    pub loans: usize,
    /// The number of elements for which its first segment has room; in a service for single values it
    /// counts as 1.
    pub initial_max_slice_len: usize,
    /// What the override of the preallocation answers, if there is one.
    pub override_slots: Option<usize>,
    /// What it does with a full receiver if no handler says otherwise.
    pub strategy: BackpressureStrategy,
    /// How its segments grow. It is taken as given in services for single values too.
    pub allocation: AllocationStrategy,
    /// The answer of its degradation handler.
    pub degradation: DegradationAction,
    /// The answer of its backpressure handler, if there is one.
    pub backpressure: Option<BackpressureAction>,
}

impl NewPublisher {
    /// A publisher with that limit of loans and that strategy, with one segment for messages of one
    /// element, which warns of connections that aren't made. Change the fields for another:
    /// `NewPublisher { override_slots: Some(2), ..asked }`.
    pub fn new(loans: usize, strategy: BackpressureStrategy) -> Self
        ensures { result ≡ publisher_with loans strategy }
    {
        NewPublisher {
            loans,
            strategy,
            allocation: AllocationStrategy::Static,
            initial_max_slice_len: 1,
            override_slots: None,
            degradation: DegradationAction::Warn,
            backpressure: None,
        }
    }
}
