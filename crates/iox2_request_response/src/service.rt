//! A service of requests and responses.
ghost use Rattle.std.specs.Prelude.{◌≡◌, IfOk};
ghost use Rattle.iox2_pubsub.specs.Live.{IsConsistent};
ghost use Rattle.iox2_request_response.specs.Service.{IsOfService, IsService};

use crate::tags::{RequestTag, ResponseTag};
use iox2_pubsub::{
    BackpressureFn, BackpressureStrategy, DegradationFn, Domain, DomainCreateError, ServiceConfig,
};
use std::alloc::Global;

/// The settings of a service, by iceoryx2's names.
#[derive(Debug, Clone, Copy, PartialEq, Eq, Drop)]
pub struct RequestResponseConfig {
    /// Names the service.
    pub service_id: u128,
    /// How many clients there may be at a time.
    pub max_clients: usize,
    /// How many servers there may be at a time.
    pub max_servers: usize,
    /// How many requests of a client may wait for responses at a time.
    pub max_active_requests_per_client: usize,
    /// How many responses of one server may wait for one request.
    pub max_response_buffer_size: usize,
    /// How many responses of one server to one request may be held that weren't released.
    pub max_borrowed_responses_per_pending_response: usize,
    /// Whether a request that finds a full buffer pushes the oldest waiting one out.
    pub enable_safe_overflow_for_requests: bool,
    /// Whether a response that finds a full buffer pushes the oldest waiting one out.
    pub enable_safe_overflow_for_responses: bool,
}

impl RequestResponseConfig {
    /// iceoryx2's defaults.
    pub fn new(service_id: u128) -> RequestResponseConfig {
        RequestResponseConfig {
            service_id,
            max_clients: 8,
            max_servers: 2,
            max_active_requests_per_client: 4,
            max_response_buffer_size: 2,
            max_borrowed_responses_per_pending_response: 2,
            enable_safe_overflow_for_requests: true,
            enable_safe_overflow_for_responses: true,
        }
    }

    // Of the domain of requests.
    fn requests(&self) -> ServiceConfig
        ensures { IsOfService result }
    {
        ServiceConfig {
            max_publishers: self.max_clients,
            max_subscribers: self.max_servers,
            subscriber_max_buffer_size: self.max_active_requests_per_client,
            subscriber_max_borrowed_samples: self.max_active_requests_per_client,
            enable_safe_overflow: self.enable_safe_overflow_for_requests,
            backpressure_strategy: BackpressureStrategy::DiscardData,
            ..ServiceConfig::new(self.service_id)
        }
    }

    // Of the domain of responses, in which a client has a subscriber for each of its requests.
    fn responses(&self, subscribers: usize) -> ServiceConfig
        ensures { IsOfService result }
    {
        ServiceConfig {
            max_publishers: self.max_servers,
            max_subscribers: subscribers,
            subscriber_max_buffer_size: self.max_response_buffer_size,
            subscriber_max_borrowed_samples: self.max_borrowed_responses_per_pending_response,
            enable_safe_overflow: self.enable_safe_overflow_for_responses,
            backpressure_strategy: BackpressureStrategy::DiscardData,
            ..ServiceConfig::new(self.service_id)
        }
    }
}

/// A service and its ports: requests are values of `Q`, responses values of `P`.
#[derive(Drop)]
pub struct RequestResponse<Q, P, F = Box<dyn BackpressureFn>, G = Box<dyn DegradationFn>> {
    pub(crate) requests: Domain<Q, RequestTag, F, G>,
    pub(crate) responses: Domain<P, ResponseTag, F, G>,
    // The number of the next request. 0 is the state of a new channel, and `u64::MAX` that of a closed
    // one.
    pub(crate) next_request: u64,
    pub(crate) max_active_requests: usize,
}

impl<Q: Drop, P: Drop> RequestResponse<Q, P> {
    /// A service with these settings and no port.
    ///
    /// Fails with `DomainCreateError::OutOfMemory` if memory is refused, or if the clients can't have as many
    /// requests as they may.
    pub fn new(alloc: Global, config: &RequestResponseConfig) -> Result<Self, DomainCreateError>
        ensures { IfOk result IsService }
    {
        Self::with_handlers(alloc, config)
    }
}

impl<Q: Drop, P: Drop, F: BackpressureFn, G: DegradationFn> RequestResponse<Q, P, F, G> {
    /// As `new`, for a service whose ports may have handlers of these types.
    ///
    /// Fails with `DomainCreateError::OutOfMemory` as `new` does.
    pub fn with_handlers(
        alloc: Global,
        config: &RequestResponseConfig,
    ) -> Result<Self, DomainCreateError>
        ensures { IfOk result IsService }
    {
        let slots = config
            .max_clients
            .checked_mul(config.max_active_requests_per_client);
        let Some(slots) = slots else {
            return Err(DomainCreateError::OutOfMemory);
        };
        let requests = Domain::with_handlers(alloc, config.requests())?;
        let responses = Domain::with_handlers(alloc, config.responses(slots))?;
        Ok(RequestResponse {
            requests,
            responses,
            next_request: 1,
            max_active_requests: config.max_active_requests_per_client,
        })
    }

    /// The settings of the two domains, of requests and of responses.
    pub fn configs(&self) -> (&ServiceConfig, &ServiceConfig)
        ensures requests { result.0.now ≡ self.now.requests.config }
        ensures responses { result.1.now ≡ self.now.responses.config }
        ensures consistent { IsConsistent self.now.requests × IsConsistent self.now.responses }
    {
        (self.requests.config(), self.responses.config())
    }

    /// How many connections and books of slots the two domains keep.
    pub fn counts(&self) -> [usize; 4] {
        [
            self.requests.connection_count(),
            self.requests.book_count(),
            self.responses.connection_count(),
            self.responses.book_count(),
        ]
    }
}
