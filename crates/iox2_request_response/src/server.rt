//! A server.
ghost use Rattle.std.specs.Prelude.{◌≡◌, true, IfErr, IfNone, IfOk, IfSome, ◌<◌, ◌↔◌, IsTrue};
ghost use Rattle.iox2_machine.specs.machine.ChannelCalls.{has_channel_state};
ghost use Rattle.iox2_machine.specs.machine.State.{State, Messages};
ghost use Rattle.iox2_domain.specs.Shows.{Shows};
ghost use Rattle.iox2_pubsub.specs.Handles.{publisher_id};
ghost use Rattle.iox2_request_response.specs.declared.tags.ResponseTag.{ResponseTag as Answered};
ghost use Rattle.iox2_pubsub.specs.Live.{IsLiveSample, waiting};
ghost use Rattle.iox2_request_response.specs.Handles.{IsLiveActive, IsLiveServer, IsNewActive, IsNewServer, IsTagged, StaysButServer};
ghost use Rattle.iox2_request_response.specs.Ports.{HasNoNewPublisher, HasNoNewSubscriber, IsClosedServer};
ghost use Rattle.iox2_request_response.specs.Service.{IsService, StaysService};

use crate::active_request::ActiveRequest;
use crate::errors::ServerCreateError;
use crate::service::RequestResponse;
use iox2_pubsub::{
    BackpressureFn, ConnectionFailure, DegradationFn, Publisher, ReceiveError, Sample, Subscriber,
    UpdateConnections,
};

/// Receives requests, and sends responses to them.
///
/// iceoryx2's `Server` (`src/port/server.rs`).
pub struct Server {
    pub(crate) requests: Subscriber,
    pub(crate) responses: Publisher,
}

impl<Q: Drop, P: Drop, F: BackpressureFn, G: DegradationFn> RequestResponse<Q, P, F, G> {
    /// A server.
    pub fn create_server(&mut self) -> Result<Server, ServerCreateError>
        requires service { IsService self.old }
        ensures server { IfOk result (IsLiveServer self.new) }
        ensures is_new { IfOk result (IsNewServer self.old) }
        ensures unmade { IfErr result (λ _. HasNoNewSubscriber self.old.requests self.new.requests × HasNoNewPublisher self.old.responses self.new.responses) }
        ensures stays { StaysService self.old self.new }
    {
        // Their contract says that a domain always shows some state.
        self.configs();
        let requests = match self
            .requests
            .subscriber_builder()
            .create(&mut self.requests)
        {
            Ok(requests) => requests,
            Err(error) => return Err(ServerCreateError::Requests(error)),
        };
        match self
            .responses
            .publisher_builder()
            .create(&mut self.responses)
        {
            Ok(responses) => Ok(Server {
                requests,
                responses,
            }),
            Err(error) => {
                requests.close(&mut self.requests);
                Err(ServerCreateError::Responses(error))
            }
        }
    }
}

impl Server {
    /// Whether some request waits, also one that its client has let go.
    pub fn has_requests<Q: Drop, P: Drop, F: BackpressureFn, G: DegradationFn>(
        &self,
        service: &mut RequestResponse<Q, P, F, G>,
    ) -> Result<bool, ConnectionFailure>
        requires live { IsLiveServer service.old self.now }
        ensures waits { IfOk result (λ waits. IsTrue waits ↔ (0 < waiting service.new.requests self.now.requests)) }
        ensures stays { StaysService service.old service.new }
    {
        self.requests.has_samples(&mut service.requests)
    }

    /// Receives the next request that its client still waits for. Those that are let go are released.
    pub fn receive<Q: Drop, P: Drop, F: BackpressureFn, G: DegradationFn>(
        &self,
        service: &mut RequestResponse<Q, P, F, G>,
    ) -> Result<Option<ActiveRequest>, ReceiveError>
        requires live { IsLiveServer service.old self.now }
        ensures active { IfOk result (λ active. IfSome active (IsLiveActive service.new)) }
        ensures is_new { IfOk result (λ active. IfSome active (IsNewActive service.old)) }
        ensures tagged { IfOk result (λ active. IfSome active (λ it. IsTagged service.new self.now it)) }
        ensures connected { IfOk result (λ active. IfSome active
            (λ it. (m : Messages P Answered) (s : State P Answered) → Shows service.new.responses m s
            → has_channel_state s (publisher_id self.now.responses) 0 it.place it.number ≡ true)) }
        ensures none { IfOk result (λ active. IfNone active (waiting service.new.requests self.now.requests ≡ 0)) }
        ensures stays { StaysService service.old service.new }
    {
        self.responses.update_connections(&mut service.responses)?;
        while let Some(sample) = self.requests.receive(&mut service.requests)? {
            match self.activate(service, sample) {
                Ok(active) => return Ok(Some(active)),
                Err(sample) => sample.release(&mut service.requests),
            }
        }
        Ok(None)
    }

    // The request of the sample, or the sample if its client has let it go.
    fn activate<Q: Drop, P: Drop, F: BackpressureFn, G: DegradationFn>(
        &self,
        service: &RequestResponse<Q, P, F, G>,
        sample: Sample,
    ) -> Result<ActiveRequest, Sample>
        requires live { IsLiveServer service.now self.now }
        requires sample { IsLiveSample service.now.requests sample }
        ensures active { IfOk result (λ active. active.sample ≡ sample) }
        ensures tagged { IfOk result (IsTagged service.now self.now) }
        ensures connected { IfOk result (λ it. (m : Messages P Answered) (s : State P Answered)
            → Shows service.now.responses m s
            → has_channel_state s (publisher_id self.now.responses) 0 it.place it.number ≡ true) }
        ensures back { IfErr result (λ back. back ≡ sample) }
    {
        let tag = sample.user_header(&service.requests);
        let number = tag.number;
        match self
            .responses
            .get_connection_id_of(&service.responses, tag.slot)
        {
            Some(place) => {
                let active = ActiveRequest {
                    sample,
                    place,
                    number,
                };
                if active.is_connected(self, service) {
                    Ok(active)
                } else {
                    Err(active.sample_of())
                }
            }
            None => Err(sample),
        }
    }

    /// Closes the server. Requests that it has received have to be finished before.
    pub fn close<Q: Drop, P: Drop, F: BackpressureFn, G: DegradationFn>(
        self,
        service: &mut RequestResponse<Q, P, F, G>,
    )
        requires live { IsLiveServer service.old self }
        ensures spent { IsClosedServer service.new self }
        ensures stays { StaysButServer service.old service.new self }
    {
        let Server {
            requests,
            responses,
        } = self;
        requests.close(&mut service.requests);
        responses.close(&mut service.responses);
    }
}
