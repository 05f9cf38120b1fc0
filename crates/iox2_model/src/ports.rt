//! Ports are made.
use crate::error::ModelError;
use crate::model::{Model, Outcome};
use crate::places::{free_place, set_place};
use crate::records::{Publisher, Put, Subscriber};
use crate::views::Thing;
use iox2_commands::{NewPublisher, Reply};
use iox2_machine::{
    BackpressureAction, BackpressureStrategy, DegradationAction, PublisherCreateError,
    SubscriberCreateError, TypeVariant, UniquePublisherId, UniqueSubscriberId,
};

impl Model {
    fn buffer_limit(&self) -> usize {
        self.config.subscriber_max_buffer_size.max(1)
    }

    // For each channel of each subscriber its buffer and what it may borrow; then the history; then the loans.
    // Nothing where that doesn't fit.
    fn worst_case(&self, loans: usize) -> Option<usize> {
        self.for_subscribers()?
            .checked_add(self.config.history_size)?
            .checked_add(loans)
    }

    fn for_subscribers(&self) -> Option<usize> {
        if self.config.max_subscribers == 0 {
            return Some(0);
        }
        let borrowed = self.config.subscriber_max_borrowed_samples;
        let each = self.buffer_limit().checked_add(borrowed)?;
        let channels = self.config.number_of_channels.max(1);
        self.config
            .max_subscribers
            .checked_mul(channels)?
            .checked_mul(each)
    }

    // A publisher has a slot for each message of the worst case, or as many as are asked for, if
    // these are fewer, but one at least where it needs one; and room in each for its longest loan.
    // Nothing where that doesn't fit.
    fn slots_for(&self, asked: &NewPublisher) -> Option<usize> {
        let worst = self.worst_case(asked.loans)?;
        let slots = match asked.override_slots {
            None => worst,
            Some(0) => worst.min(1),
            Some(count) => worst.min(count),
        };
        let elements = slots.checked_mul(self.max_slice_len(asked))?;
        elements.checked_mul(self.config.units_per_element)?;
        Some(slots)
    }

    // The greatest length of a loan in the first segment. A single value has the length 1.
    fn max_slice_len(&self, asked: &NewPublisher) -> usize {
        match self.config.variant {
            TypeVariant::FixedSize => 1,
            TypeVariant::Dynamic => asked.initial_max_slice_len,
        }
    }

    // A publisher is made at the lowest free place. Where memory is refused, `given` is the reply.
    pub(crate) fn create_publisher(
        &mut self,
        asked: &NewPublisher,
        given: Option<Reply<u64, u64>>,
    ) -> Result<Outcome, ModelError> {
        let limit = self.config.max_publishers;
        let Some(place) = free_place(limit, self.publisher_places.as_slice()) else {
            return Ok(publisher_refused(PublisherCreateError::ExceedsMaxSupportedPublishers));
        };
        let Some(slots) = self.slots_for(asked) else {
            return Ok(publisher_refused(PublisherCreateError::UnableToCreateDataSegment));
        };
        if self.memory.refuses() {
            return Ok(publisher_refused(refusal_of(given)));
        }
        let id = self.publishers.next();
        let len = self.max_slice_len(asked);
        let publisher = Publisher::new(self.alloc, place, slots, len, asked);
        self.publishers.push(Some(publisher))?;
        self.subscribers.push(None)?;
        set_place(&mut self.publisher_places, place, Some(id))?;
        self.make_subscribers_due();
        self.update_publisher(id)?;
        let reply = Reply::PublisherMade(UniquePublisherId::new(id as u128));
        Ok((reply, Thing::Publisher(id)))
    }

    // A subscriber is made at the lowest free place.
    pub(crate) fn create_subscriber(
        &mut self,
        buffer: Option<usize>,
        degradation: DegradationAction,
    ) -> Result<Outcome, ModelError> {
        let most = self.buffer_limit();
        let buffer = buffer.unwrap_or(most).max(1);
        if buffer > most {
            return Ok(subscriber_refused(
                SubscriberCreateError::BufferSizeExceedsMaxSupportedBufferSizeOfService,
            ));
        }
        let limit = self.config.max_subscribers;
        let Some(place) = free_place(limit, self.subscriber_places.as_slice()) else {
            return Ok(subscriber_refused(SubscriberCreateError::ExceedsMaxSupportedSubscribers));
        };
        if self.memory.refuses() {
            return Ok(subscriber_refused(SubscriberCreateError::FailedToDeployThreadsafetyPolicy));
        }
        let id = self.subscribers.next();
        let subscriber = Subscriber::new(self.alloc, place, buffer, degradation);
        self.subscribers.push(Some(subscriber))?;
        self.publishers.push(None)?;
        set_place(&mut self.subscriber_places, place, Some(id))?;
        self.make_publishers_due();
        self.update_subscriber(id)?;
        let reply = Reply::SubscriberMade(UniqueSubscriberId::new(id as u128));
        Ok((reply, Thing::Subscriber(id)))
    }
}

// What becomes of a message at a full receiver: the handler's answer decides, or the strategy where
// there is no handler. It is the same each time, however often and whenever a send is tried again.
pub(crate) fn when_full(
    strategy: BackpressureStrategy,
    handler: Option<BackpressureAction>,
) -> Put {
    let by_strategy = match strategy {
        BackpressureStrategy::RetryUntilDelivered => Put::Blocked,
        BackpressureStrategy::DiscardData => Put::Skipped,
    };
    let Some(action) = handler else {
        return by_strategy;
    };
    match action {
        BackpressureAction::Retry => Put::Blocked,
        BackpressureAction::DiscardData => Put::Skipped,
        BackpressureAction::DiscardDataAndFail => Put::Failed,
        BackpressureAction::FollowBackpressureyStrategy => by_strategy,
    }
}

fn publisher_refused(error: PublisherCreateError) -> Outcome {
    (Reply::PublisherRefused(error), Thing::Nothing)
}

fn subscriber_refused(error: SubscriberCreateError) -> Outcome {
    (Reply::SubscriberRefused(error), Thing::Nothing)
}

// With which error memory is refused to a publisher: for its segment or for its state.
fn refusal_of(given: Option<Reply<u64, u64>>) -> PublisherCreateError {
    let for_state = PublisherCreateError::FailedToDeployThreadsafetyPolicy;
    if given == Some(Reply::PublisherRefused(for_state)) {
        for_state
    } else {
        PublisherCreateError::UnableToCreateDataSegment
    }
}
