//! What the tests start from: each call where it has to succeed.
ghost use Rattle.iox2_request_response.specs.Handles.{AreSeparateRequests, HasIdleOf, HasPortsOf, IsLiveActive};
ghost use Rattle.iox2_request_response.specs.Handles.{IsLiveClient, IsLivePending, IsLiveResponse, IsLiveServer};
ghost use Rattle.iox2_request_response.specs.Handles.{IsNewActive, IsNewClient, IsNewResponse, IsNewServer};
ghost use Rattle.iox2_request_response.specs.Handles.{IsPendingOf};
ghost use Rattle.iox2_request_response.specs.Service.{IsService, StaysService};
ghost use Rattle.iox2_request_response.specs.Slots.{HasIdle};
ghost use Rattle.iox2_request_response.specs.declared.pending_response.PendingResponse.{PendingResponse as Pending};

use iox2_pubsub::{BackpressureFn, DegradationFn, UniquePublisherId};
use iox2_request_response::{
    ActiveRequest, Client, PendingResponse, RequestResponse, Response, Server,
};
use std::alloc::Global;
use std::process::Abort;

pub(crate) type Service = RequestResponse<u64, u64>;

pub(crate) fn client_of(rt: &impl Abort, alloc: Global, service: &mut Service) -> Client
    requires service { IsService service.old }
    ensures client { IsLiveClient service.new result }
    ensures is_new { IsNewClient service.old result }
    ensures stays { StaysService service.old service.new }
{
    service.create_client(alloc).expect(rt, "a client")
}

pub(crate) fn server_of(rt: &impl Abort, service: &mut Service) -> Server
    requires service { IsService service.old }
    ensures server { IsLiveServer service.new result }
    ensures is_new { IsNewServer service.old result }
    ensures stays { StaysService service.old service.new }
{
    service.create_server().expect(rt, "a server")
}

/// A client and a server.
pub(crate) fn ports_of(rt: &impl Abort, alloc: Global, service: &mut Service) -> (Client, Server)
    requires service { IsService service.old }
    ensures service { IsService service.new }
    ensures client { IsLiveClient service.new result.0 }
    ensures server { IsLiveServer service.new result.1 }
{
    let client = client_of(rt, alloc, service);
    let server = server_of(rt, service);
    (client, server)
}

/// Closes both, and returns what the service still keeps of connections and books of slots.
pub(crate) fn close_both(client: Client, server: Server, service: &mut Service) -> [usize; 4]
    requires client { IsLiveClient service.old client }
    requires server { IsLiveServer service.old server }
{
    client.close(service);
    server.close(service);
    service.counts()
}

pub(crate) fn sent<R: Abort, F: BackpressureFn, G: DegradationFn>(
    rt: &R,
    client: &mut Client,
    service: &mut RequestResponse<u64, u64, F, G>,
    value: u64,
) -> PendingResponse
    requires service { IsService service.old }
    requires client { IsLiveClient service.old client.old }
    ensures pending { IsLivePending service.new result }
    ensures its { IsPendingOf client.new result }
    ensures others { (other : Pending) → IsPendingOf client.old other → IsPendingOf client.new other × AreSeparateRequests other result }
    ensures ports { HasPortsOf client.old client.new }
    ensures idle { HasIdleOf client.old client.new }
    ensures was_idle { HasIdle client.old.slots.items result.index result.slot }
    ensures client { IsLiveClient service.new client.new }
    ensures stays { StaysService service.old service.new }
{
    client.send_copy(service, value).expect(rt, "a request")
}

pub(crate) fn active_of<R: Abort, F: BackpressureFn, G: DegradationFn>(
    rt: &R,
    server: &Server,
    service: &mut RequestResponse<u64, u64, F, G>,
) -> ActiveRequest
    requires server { IsLiveServer service.old server.now }
    ensures active { IsLiveActive service.new result }
    ensures is_new { IsNewActive service.old result }
    ensures stays { StaysService service.old service.new }
{
    let received = server.receive(service).expect(rt, "an answer");
    received.expect(rt, "a request")
}

/// Whether the response was taken.
pub(crate) fn respond<R: Abort, F: BackpressureFn, G: DegradationFn>(
    rt: &R,
    active: &ActiveRequest,
    server: &Server,
    service: &mut RequestResponse<u64, u64, F, G>,
    value: u64,
) -> bool
    requires service { IsService service.old }
    requires server { IsLiveServer service.old server.now }
    ensures stays { StaysService service.old service.new }
{
    active
        .send_copy(server, service, value)
        .expect(rt, "an outcome")
}

pub(crate) fn response_of<R: Abort, F: BackpressureFn, G: DegradationFn>(
    rt: &R,
    pending: &PendingResponse,
    service: &mut RequestResponse<u64, u64, F, G>,
) -> Response
    requires pending { IsLivePending service.old pending.now }
    ensures response { IsLiveResponse service.new result }
    ensures is_new { IsNewResponse service.old result }
    ensures stays { StaysService service.old service.new }
{
    let received = pending.receive(service).expect(rt, "an answer");
    received.expect(rt, "a response")
}

/// The next response, and which server sent it.
#[tactic(auto, using(iox2_request_response::proofs::Calling::calling, iox2_request_response::proofs::Ending::response_ends))]
pub(crate) fn response_with_origin(
    rt: &impl Abort,
    pending: &PendingResponse,
    service: &mut Service,
) -> (u64, UniquePublisherId)
    requires service { IsService service.old }
    requires pending { IsLivePending service.old pending.now }
    ensures stays { StaysService service.old service.new }
{
    let response = response_of(rt, pending, service);
    let value = *response.payload(service);
    let origin = response.origin();
    response.release(service);
    (value, origin)
}

pub(crate) fn next_response(
    rt: &impl Abort,
    pending: &PendingResponse,
    service: &mut Service,
) -> Option<u64>
    requires service { IsService service.old }
    requires pending { IsLivePending service.old pending.now }
    ensures stays { StaysService service.old service.new }
{
    let response = pending.receive(service).expect(rt, "an answer")?;
    let value = *response.payload(service);
    response.release(service);
    Some(value)
}

/// Receives these responses to the request, in this order, and no other.
pub(crate) fn receive_each(
    rt: &impl Abort,
    pending: &PendingResponse,
    service: &mut Service,
    values: &[u64],
)
    requires service { IsService service.old }
    requires pending { IsLivePending service.old pending.now }
    ensures stays { StaysService service.old service.new }
{
    for &value in values {
        assert!(rt; next_response(rt, pending, service) == Some(value));
    }
    assert!(rt; next_response(rt, pending, service) == None);
}

/// What the server's next request asks, if it has one. It is finished at once.
#[tactic(auto, using(iox2_request_response::proofs::Calling::calling, iox2_request_response::proofs::Ending::active_ends))]
pub(crate) fn next_request(rt: &impl Abort, server: &Server, service: &mut Service) -> Option<u64>
    requires service { IsService service.old }
    requires server { IsLiveServer service.old server.now }
    ensures stays { StaysService service.old service.new }
{
    let active = server.receive(service).expect(rt, "an answer")?;
    let asked = *active.payload(service);
    active.finish(server, service);
    Some(asked)
}

/// Has the server take the next request, which asks this, and respond with each value. Each response has
/// to be taken.
#[tactic(auto, using(iox2_request_response::proofs::Calling::calling, iox2_request_response::proofs::Ending::active_ends))]
pub(crate) fn serve(
    rt: &impl Abort,
    server: &Server,
    service: &mut Service,
    asked: u64,
    values: &[u64],
)
    requires service { IsService service.old }
    requires server { IsLiveServer service.old server.now }
    ensures stays { StaysService service.old service.new }
{
    let active = active_of(rt, server, service);
    assert!(rt; *active.payload(service) == asked);
    respond_each(rt, &active, server, service, values);
    active.finish(server, service);
}

fn respond_each(
    rt: &impl Abort,
    active: &ActiveRequest,
    server: &Server,
    service: &mut Service,
    values: &[u64],
)
    requires service { IsService service.old }
    requires server { IsLiveServer service.old server.now }
    ensures stays { StaysService service.old service.new }
{
    for &value in values {
        assert!(rt; respond(rt, active, server, service, value));
    }
}

/// A client sends a request, and lets it go at once.
#[tactic(auto, using(iox2_request_response::proofs::Calling::calling, iox2_request_response::proofs::Ending::apart_back))]
pub(crate) fn send_in_vain(rt: &impl Abort, client: &mut Client, service: &mut Service, value: u64)
    requires service { IsService service.old }
    requires client { IsLiveClient service.old client.old }
    ensures others { (other : Pending) → IsPendingOf client.old other → IsPendingOf client.new other }
    ensures client { IsLiveClient service.new client.new }
    ensures stays { StaysService service.old service.new }
{
    let pending = sent(rt, client, service, value);
    pending.close(client, service);
}
