//! Whether a send of a publisher is ever blocked, or failed by a handler.
ghost use Rattle.std.specs.Prelude.{◌≡◌, ◌||◌, is_some, slice_index_or, None, Some};
ghost use Rattle.iox2_machine.specs.machine.Delivery.{by_strategy, is_blocking};
ghost use Rattle.iox2_domain.specs.Handlers.{handler_if_any, handler_of, may_fail, may_fail_update};
ghost use Rattle.iox2_domain.specs.Ports.{PublisherFields};
ghost use Rattle.iox2_pubsub.specs.Handlers.{is_never_hindered, may_wait};
ghost use Rattle.iox2_pubsub.specs.Live.{publisher_key};

use crate::domain::Domain;
use crate::publisher::Publisher;
use iox2_domain::{DomainState, HandlerMark};
use iox2_machine::{
    BackpressureAction, BackpressureFn, BackpressureStrategy, DegradationAction, DegradationFn,
};

impl Publisher {
    ghost use Rattle.std.specs.Prelude.{◌↔◌, IsTrue};
    ghost use Rattle.iox2_pubsub.specs.Live.{IsPlacedPublisher, IsPublisherKey, NeverWaits};

    /// Whether no send of the publisher is ever blocked, or failed by a handler. So it is if no send of it
    /// is blocked now, its handler for refused connections fails no call, and the service overflows, or
    /// else its handler for full buffers, or without one its strategy, neither waits nor fails a send. A
    /// handler that is a box may do either. The answer stays `true` until the publisher is closed.
    ///
    /// This library's own: it lets a program that is handed a publisher test what it needs.
    pub fn never_waits<T: Drop, U: Default + Drop, F: BackpressureFn, G: DegradationFn>(
        &self,
        domain: &Domain<T, U, F, G>,
    ) -> bool
        requires there { IsPublisherKey domain.now (publisher_key self.now) }
        requires placed { IsPlacedPublisher domain.now self.now }
        ensures { IsTrue result ↔ NeverWaits domain.now (publisher_key self.now) }
    {
        never_waits_at(&domain.state, self.place)
    }
}

// Whether no send of the publisher at the place is blocked, now or later, or failed by a handler.
fn never_waits_at<T: Drop, U: Default + Drop>(state: &DomainState<T, U>, place: usize) -> bool
    requires { (x : PublisherFields) × (slice_index_or state.now.publishers place None ≡ Some x) }
    ensures { (x : PublisherFields) → slice_index_or state.now.publishers place None ≡ Some x
        → result ≡ is_never_hindered (state.now.config).enable_safe_overflow (is_some x.blocked) x.strategy x.backpressure_handler x.degradation_handler }
{
    let Some(publisher) = &state.publishers[place] else {
        unreachable!();
    };
    if publisher.blocked.is_some() || fails_update(publisher.degradation) {
        return false;
    }
    state.config().enable_safe_overflow
        || !disturbs(publisher.strategy, publisher.backpressure_handler)
}

// Whether the handler may fail a call where memory for a connection is refused.
fn fails_update(mark: HandlerMark<DegradationAction>) -> bool
    ensures { result ≡ may_fail_update (handler_of mark) }
{
    match mark {
        HandlerMark::Fixed(action) => match action {
            DegradationAction::Ignore | DegradationAction::Warn => false,
            DegradationAction::DegradeAndFail => true,
        },
        HandlerMark::Custom => true,
    }
}

// Whether the handler, or without one the strategy, may block or fail a send at a full buffer.
fn disturbs(
    strategy: BackpressureStrategy,
    handler: Option<HandlerMark<BackpressureAction>>,
) -> bool
    ensures { result ≡ (may_wait strategy (handler_if_any handler) || may_fail (handler_if_any handler)) }
{
    match handler {
        None => waits(strategy),
        Some(HandlerMark::Fixed(action)) => match action {
            BackpressureAction::FollowBackpressureyStrategy => waits(strategy),
            BackpressureAction::DiscardData => false,
            BackpressureAction::Retry | BackpressureAction::DiscardDataAndFail => true,
        },
        Some(HandlerMark::Custom) => true,
    }
}

// Whether the strategy blocks a send at a full buffer.
fn waits(strategy: BackpressureStrategy) -> bool
    ensures { result ≡ is_blocking (by_strategy strategy) }
{
    match strategy {
        BackpressureStrategy::RetryUntilDelivered => true,
        BackpressureStrategy::DiscardData => false,
    }
}
