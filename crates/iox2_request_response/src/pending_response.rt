//! What waits for the responses to a request.
ghost use Rattle.std.specs.Prelude.{◌≡◌, ◌<◌, ◌↔◌, IfNone, IfOk, IfSome, IsTrue, Some, false};
ghost use Rattle.iox2_machine.specs.machine.ChannelCalls.{received_closed, received_hinted, some_channel_has_state};
ghost use Rattle.iox2_machine.specs.machine.Ports.{subscriber_closed};
ghost use Rattle.iox2_machine.specs.machine.Records.{Subscriber as Record};
ghost use Rattle.iox2_machine.specs.machine.State.{State, Messages};
ghost use Rattle.iox2_domain.specs.Shows.{Shows};
ghost use Rattle.iox2_pubsub.specs.Handles.{subscriber_id};
ghost use Rattle.iox2_pubsub.specs.Live.{IsLiveSubscriber, IsSubscriberKey, SampleHasUserHeader, sample_key, subscriber_key, waiting};
ghost use Rattle.iox2_request_response.specs.Handles.{AreSeparateRequests, HasIdleOf, HasPortsOf, IsLiveClient};
ghost use Rattle.iox2_request_response.specs.Handles.{IsLivePending, IsLiveResponse, IsNewResponse, IsPendingOf};
ghost use Rattle.iox2_request_response.specs.Handles.{IsRequestNumber, StaysButPending};
ghost use Rattle.iox2_request_response.specs.Service.{StaysService};
ghost use Rattle.iox2_request_response.specs.Slots.{HasIdle};
ghost use Rattle.iox2_request_response.specs.declared.client.Client.{Client as ItsClient};
ghost use Rattle.iox2_request_response.specs.declared.pending_response.PendingResponse.{PendingResponse as Pending};
ghost use Rattle.iox2_request_response.specs.declared.tags.ResponseTag.{ResponseTag as Tag};

use crate::client::Client;
use crate::response::Response;
use crate::service::RequestResponse;
use iox2_pubsub::{BackpressureFn, ConnectionFailure, DegradationFn, ReceiveError, Subscriber};

/// Receives the responses to one request.
///
/// iceoryx2's `PendingResponse` (`src/pending_response.rs`).
pub struct PendingResponse {
    pub(crate) slot: Subscriber,
    // Its index among the client's.
    pub(crate) index: usize,
    // That of the request.
    pub(crate) number: u64,
    pub(crate) servers: usize,
}

impl PendingResponse {
    /// To how many servers the request was sent.
    pub fn number_of_server_connections(&self) -> usize
        ensures { result ≡ self.now.servers }
    {
        self.servers
    }

    /// Whether some server may still respond.
    pub fn is_connected<Q: Drop, P: Drop, F: BackpressureFn, G: DegradationFn>(
        &self,
        service: &RequestResponse<Q, P, F, G>,
    ) -> bool
        requires live { IsLivePending service.now self.now }
        ensures { (m : Messages P Tag) (s : State P Tag) → Shows service.now.responses m s
            → result ≡ some_channel_has_state s (subscriber_id self.now.slot) 0 self.now.number }
    {
        self.slot
            .at_least_one_channel_has_state(&service.responses, 0, self.number)
    }

    /// Whether some response waits.
    pub fn has_response<Q: Drop, P: Drop, F: BackpressureFn, G: DegradationFn>(
        &self,
        service: &mut RequestResponse<Q, P, F, G>,
    ) -> Result<bool, ConnectionFailure>
        requires live { IsLivePending service.old self.now }
        ensures waits { IfOk result (λ waits. IsTrue waits ↔ (0 < waiting service.new.responses self.now.slot)) }
        ensures stays { StaysService service.old service.new }
    {
        self.slot.has_samples(&mut service.responses)
    }

    /// Tells the servers that the client is about to let the request go.
    pub fn set_disconnect_hint<Q: Drop, P: Drop, F: BackpressureFn, G: DegradationFn>(
        &self,
        service: &mut RequestResponse<Q, P, F, G>,
    )
        requires live { IsLivePending service.old self.now }
        ensures hinted { (m : Messages P Tag) (s : State P Tag) → Shows service.old.responses m s
            → Shows service.new.responses m (received_hinted s (subscriber_id self.now.slot) 0 self.now.number) }
        ensures stays { StaysService service.old service.new }
    {
        self.slot
            .set_disconnect_hint(&mut service.responses, 0, self.number);
    }

    /// Receives the next response to the request. Those to an earlier request are released.
    pub fn receive<Q: Drop, P: Drop, F: BackpressureFn, G: DegradationFn>(
        &self,
        service: &mut RequestResponse<Q, P, F, G>,
    ) -> Result<Option<Response>, ReceiveError>
        requires live { IsLivePending service.old self.now }
        ensures response { IfOk result (λ response. IfSome response (IsLiveResponse service.new)) }
        ensures is_new { IfOk result (λ response. IfSome response (IsNewResponse service.old)) }
        ensures its { IfOk result (λ response. IfSome response
            (λ it. (tag : Tag) × SampleHasUserHeader service.new.responses (sample_key it.sample) tag
            × (tag.number ≡ self.now.number))) }
        ensures none { IfOk result (λ response. IfNone response (waiting service.new.responses self.now.slot ≡ 0)) }
        ensures stays { StaysService service.old service.new }
    {
        while let Some(sample) = self.slot.receive(&mut service.responses)? {
            if sample.user_header(&service.responses).number == self.number {
                return Ok(Some(Response { sample }));
            }
            sample.release(&mut service.responses);
        }
        Ok(None)
    }

    /// Lets the request go, and gives its place back to its client. Servers see it
    /// (`ActiveRequest::is_connected`). What waits is lost; what was received stays until it is released.
    pub fn close<Q: Drop, P: Drop, F: BackpressureFn, G: DegradationFn>(
        self,
        client: &mut Client,
        service: &mut RequestResponse<Q, P, F, G>,
    )
        requires live { IsLivePending service.old self }
        requires client { IsLiveClient service.old client.old }
        requires its { IsPendingOf client.old self }
        ensures client { IsLiveClient service.new client.new }
        ensures given { HasIdle client.new.slots.items self.index self.slot }
        ensures others { (other : Pending) → IsPendingOf client.old other → AreSeparateRequests self other → IsPendingOf client.new other }
        ensures ports { HasPortsOf client.old client.new }
        ensures idle { (before : ItsClient) → HasIdleOf before client.old → HasIdle before.slots.items self.index self.slot → HasIdleOf before client.new }
        ensures let_go { (m : Messages P Tag) (s : State P Tag) → Shows service.new.responses m s
            → some_channel_has_state s (subscriber_id self.slot) 0 self.number ≡ false }
        ensures stays { StaysService service.old service.new }
    {
        let PendingResponse {
            slot,
            index,
            number,
            servers: _,
        } = self;
        settle(&slot, number, service);
        client.give_back(index, slot);
    }

    /// The same, if the client was closed.
    pub fn abandon<Q: Drop, P: Drop, F: BackpressureFn, G: DegradationFn>(
        self,
        service: &mut RequestResponse<Q, P, F, G>,
    )
        requires live { IsLivePending service.old self }
        ensures let_go { (m : Messages P Tag) (s : State P Tag) (y : Record) → Shows service.old.responses m s
            → s.subscribers (subscriber_id self.slot) ≡ Some y
            → Shows service.new.responses m (subscriber_closed (received_closed s (subscriber_id self.slot) 0 self.number) (subscriber_id self.slot) y) }
        ensures spent { IsSubscriberKey service.new.responses (subscriber_key self.slot) → ⊥ }
        ensures stays { StaysButPending service.old service.new self }
    {
        let PendingResponse {
            slot,
            index: _,
            number,
            servers: _,
        } = self;
        // A publisher sees the state until it makes its connections anew, also of a closed subscriber.
        let_go(&slot, number, service);
        slot.close(&mut service.responses);
    }
}

// Releases what waits for the slot, as long as it may receive, and lets the request go.
fn settle<Q: Drop, P: Drop, F: BackpressureFn, G: DegradationFn>(
    slot: &Subscriber,
    number: u64,
    service: &mut RequestResponse<Q, P, F, G>,
)
    requires slot { IsLiveSubscriber service.old.responses slot.now }
    requires number { IsRequestNumber number }
    ensures let_go { (m : Messages P Tag) (s : State P Tag) → Shows service.new.responses m s
        → some_channel_has_state s (subscriber_id slot.now) 0 number ≡ false }
    ensures stays { StaysService service.old service.new }
{
    empty(slot, service);
    // Its contract says that a domain always shows some state.
    service.responses.config();
    let_go(slot, number, service);
}

// Closes the channel where it is in the state that is the request's number.
fn let_go<Q: Drop, P: Drop, F: BackpressureFn, G: DegradationFn>(
    slot: &Subscriber,
    number: u64,
    service: &mut RequestResponse<Q, P, F, G>,
)
    requires slot { IsLiveSubscriber service.old.responses slot.now }
    ensures closed { (m : Messages P Tag) (s : State P Tag) → Shows service.old.responses m s
        → Shows service.new.responses m (received_closed s (subscriber_id slot.now) 0 number) }
    ensures stays { StaysService service.old service.new }
{
    slot.close_channel(&mut service.responses, 0, number);
}

// Releases what waits for the subscriber, as long as it may receive.
fn empty<Q: Drop, P: Drop, F: BackpressureFn, G: DegradationFn>(
    slot: &Subscriber,
    service: &mut RequestResponse<Q, P, F, G>,
)
    requires slot { IsLiveSubscriber service.old.responses slot.now }
    ensures stays { StaysService service.old service.new }
{
    while let Ok(Some(sample)) = slot.receive(&mut service.responses) {
        sample.release(&mut service.responses);
    }
}
